//! The choice of a source, as functions over slices.

ghost use Rattle.std.specs.Prelude.{◌≡◌, ◌==◌, find, option_map};
ghost use Rattle.std.specs.List.{list_all, list_any};
ghost use Rattle.peer_chooser.specs.Round.{RoundText, may_ask as may_be_asked};
ghost use Rattle.peer_chooser.specs.Round.{has_answered as has_answered_in};
ghost use Rattle.peer_chooser.specs.Choice as spec;

use crate::{FirstAnswer, Said, Source};
use roster::{Peer, is_foreign};

/// Whether a peer may be asked at this floor: a foreign cache only where nothing was purged.
pub(crate) fn may_ask(floor: u32, peer: Peer) -> bool
    ensures { result ≡ may_be_asked floor peer }
{
    floor == 0 || !is_foreign(peer.id)
}

/// Whether a peer may be asked at this floor and was not tried.
fn is_open(floor: u32, tried: &[u8], peer: Peer) -> bool
    ensures { result ≡ spec.is_open floor tried.now peer }
{
    may_ask(floor, peer) && !has_id(peer.id, tried)
}

/// Whether the id is among these.
fn has_id(id: u8, ids: &[u8]) -> bool
    ensures { result ≡ list_any (λ i. i == id) ids.now }
{
    ids.iter().any(|i| *i == id)
}

/// Whether an answer tells of a copy that may be new enough for the floor. A hit without a stamp
/// may be.
fn is_hit(floor: u32, said: Said) -> bool
    ensures { result ≡ spec.is_hit floor said }
{
    match said {
        Said::Hit(None) => true,
        Said::Hit(Some(stamp)) => floor <= stamp,
        Said::Miss | Said::NoFetch => false,
    }
}

/// Whether an answer says that there is no copy, and that a parent would fetch one.
fn is_miss(said: Said) -> bool
    ensures { result ≡ spec.is_miss said }
{
    match said {
        Said::Miss => true,
        Said::Hit(_) | Said::NoFetch => false,
    }
}

/// Whether this is a hit that may be followed.
fn is_good_hit(floor: u32, tried: &[u8], answer: FirstAnswer) -> bool
    ensures { result ≡ spec.is_good_hit floor tried.now answer }
{
    is_open(floor, tried, answer.peer) && is_hit(floor, answer.said)
}

/// Whether this is a parent's miss that may be followed.
fn is_parent_miss(floor: u32, tried: &[u8], answer: FirstAnswer) -> bool
    ensures { result ≡ spec.is_parent_miss floor tried.now answer }
{
    is_open(floor, tried, answer.peer) && (answer.peer.role.is_parent() && is_miss(answer.said))
}

/// Whether the peer with this id has answered.
pub(crate) fn has_answered(answers: &[FirstAnswer], id: u8) -> bool
    ensures { result ≡ has_answered_in answers.now id }
{
    answers.iter().any(|t| t.peer.id == id)
}

/// Whether every peer that was asked has answered.
fn have_all_answered(asked: &[Peer], answers: &[FirstAnswer]) -> bool
    ensures { result ≡ list_all (λ p. has_answered_in answers.now p.id) asked.now }
{
    asked.iter().all(|peer| has_answered(answers, peer.id))
}

/// The first hit to arrive that may be followed.
fn good_hit<'a>(answers: &'a [FirstAnswer], floor: u32, tried: &[u8]) -> Option<&'a FirstAnswer>
    ensures { option_map (λ t. t.now) result ≡ find (spec.is_good_hit floor tried.now) answers.now }
{
    answers.iter().find(|t| is_good_hit(floor, tried, **t))
}

/// The first parent's miss to arrive that may be followed.
fn parent_miss<'a>(answers: &'a [FirstAnswer], floor: u32, tried: &[u8]) -> Option<&'a FirstAnswer>
    ensures { option_map (λ t. t.now) result
        ≡ find (spec.is_parent_miss floor tried.now) answers.now }
{
    answers.iter().find(|t| is_parent_miss(floor, tried, **t))
}

/// A request to this peer, with `only-if-cached` if it is a sibling.
fn source_from(peer: Peer) -> Source
    ensures { result ≡ spec.from peer }
{
    Source::Peer {
        id: peer.id,
        only_if_cached: peer.role.is_sibling(),
    }
}

/// Where a request goes once nobody's answer is waited for and no hit is left.
fn parent_or_origin(answers: &[FirstAnswer], floor: u32, tried: &[u8]) -> Source
    ensures { result ≡ spec.from_parent (find (spec.is_parent_miss floor tried.now) answers.now) }
{
    match parent_miss(answers, floor, tried) {
        Some(miss) => source_from(miss.peer),
        None => Source::Origin,
    }
}

/// Where a request goes next.
#[tactic(auto, unfolding(crate::specs::Choice::choice))]
pub(crate) fn choose(
    asked: &[Peer],
    answers: &[FirstAnswer],
    has_expired: bool,
    floor: u32,
    tried: &[u8],
) -> Source
    ensures { let round : RoundText = record {
      asked = asked.now;
      answers = answers.now;
      expired = has_expired;
    } in result ≡ spec.choice round floor tried.now }
{
    match good_hit(answers, floor, tried) {
        Some(hit) => source_from(hit.peer),
        None if has_expired || have_all_answered(asked, answers) => {
            parent_or_origin(answers, floor, tried)
        }
        None => Source::Wait,
    }
}
