ghost use Rattle.peer_chooser.specs.Laws.{EachChoiceFollows, NoneWaitsInTheEnd};

/// Laws of every choice. This function does nothing: its contract states the laws.
///
/// - `follows`: a chosen peer has answered; it has a copy that may be new enough, or it is a parent
///   without a copy. It may be asked at the floor and was not tried. The request bears
///   `only-if-cached` exactly if the peer is a sibling.
/// - `ends`: once a round has expired, the choice is never `Wait`.
pub fn choices_follow_answers()
    ensures follows { EachChoiceFollows }
    ensures ends { NoneWaitsInTheEnd }
{}
