//! Laws of pending requests. Each function does nothing: its contract states the law.
ghost use Rattle.std.specs.Prelude.{◌≡◌, ◌≤◌, ◌<◌, ◌+◌, ◌++◌, [], ◌∷◌, ℕ, Bool, true, List, length};
ghost use Rattle.std.specs.Prelude.{Option, Some, None};
ghost use Rattle.http_messages.specs.declared.ask.Ask.{Ask};
ghost use Rattle.values_tables.specs.declared.plain.Peer.{Peer};
ghost use Rattle.peer_chooser.specs.declared.said.Said.{Said};
ghost use Rattle.peer_chooser.specs.declared.said.Source.TheVariants as source;
ghost use Rattle.peer_chooser.specs.Round.{RoundText, started, answered, ended};
ghost use Rattle.peer_chooser.specs.Choice.{choice};
ghost use Rattle.node_rules.specs.declared.state.Fetch.TheVariants.{AtPeer, AtOrigin};
ghost use Rattle.node_rules.specs.declared.state.Pending.{Pending};
ghost use Rattle.node_rules.specs.State.{is_idle, changed};
ghost use Rattle.node_rules.specs.Asks.{new_ask};
ghost use Rattle.node_rules.specs.Fetching.{fetching};
ghost use Rattle.node_rules.specs.Arrivals.{not_fetching, with_round};
ghost use Rattle.node_waiting.specs.CanGoOn.{CanGoOn};

use peer_chooser::choices_follow_answers;

/// A request that can go on has begun at most 26 fetches.
pub fn fetches_are_few<T>()
    ensures { (p : Pending T) → CanGoOn p → p.fetches ≤ 26 }
{}

/// A new request can go on, with a round that begins (`with_round`) or without one (`alone`).
pub fn new_asks_can_go_on<T>()
    ensures alone { (block : ℕ) (asker : Option ℕ) (ask : Ask) →
        let p : Pending T = new_ask block asker ask None in CanGoOn p }
    ensures with_round { (block : ℕ) (asker : Option ℕ) (ask : Ask) (peers : List Peer)
        (floor : ℕ) →
        let p : Pending T = new_ask block asker ask (Some (started peers floor)) in CanGoOn p }
{}

/// A request can go on as it goes to the peer that its round chose (`peer`), or to the origin for
/// the first, second or third time (`origin`).
pub fn fetching_asks_can_go_on<T>()
    ensures peer { (p : Pending T) (r : RoundText) (floor peer now : ℕ) (cached : Bool) →
        CanGoOn p → p.round ≡ Some r → is_idle p.fetch ≡ true →
        choice r floor p.tried ≡ source.Peer peer cached →
        CanGoOn (fetching p p.reads (AtPeer peer now)) }
    ensures origin { (p : Pending T) (stamp now : ℕ) (mark : T) →
        CanGoOn p → is_idle p.fetch ≡ true → p.reads < 3 →
        CanGoOn (fetching p (p.reads + 1) (AtOrigin stamp now mark)) }
{
    choices_follow_answers();
}

/// A request can go on after its fetch has ended: from a peer, which counts as tried now, or from
/// the origin.
pub fn asks_can_go_on_after_a_fetch<T>()
    ensures peer { (p : Pending T) (peer asked : ℕ) →
        CanGoOn p → p.fetch ≡ AtPeer peer asked → CanGoOn (not_fetching p (p.tried ++ peer ∷ [])) }
    ensures origin { (p : Pending T) (stamp asked : ℕ) (mark : T) →
        CanGoOn p → p.fetch ≡ AtOrigin stamp asked mark → CanGoOn (not_fetching p p.tried) }
{}

/// A request can go on after an answer to its round, which has at most 23 answers then, and after
/// its round has expired.
pub fn asks_can_go_on_with_their_rounds<T>()
    ensures answered { (p : Pending T) (r : RoundText) (id : ℕ) (said : Said) →
        CanGoOn p → p.round ≡ Some r → length (answered r id said).answers ≤ 23 →
        CanGoOn (with_round p (answered r id said)) }
    ensures ended { (p : Pending T) (r : RoundText) →
        CanGoOn p → p.round ≡ Some r → CanGoOn (with_round p (ended r)) }
{}

/// Of two changes of one request, the later one counts.
pub fn later_changes_count<T>()
    ensures { (asks : List (Pending T)) (p : Pending T) (q : Pending T) → q.block ≡ p.block →
        changed q (changed p asks) ≡ changed q asks }
{}
