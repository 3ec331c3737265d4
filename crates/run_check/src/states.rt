//! Whether two states of a node are the same, field by field and octet by octet.
ghost use Rattle.std.specs.Prelude.{◌≡◌, ◌↔◌, true, [], IsTrue};
ghost use Rattle.node_rules.specs.State.{opened};
ghost use Rattle.run_rules.specs.Judging.{IsShutAs};
ghost use Rattle.run_check.specs.Held.{closed_state};

use crate::standing::ClosedNode;
use floor_rules::Floors;
use node_copies::{same_ask, same_copy};
use node_rules::{Fetch, NodeState, Pending};
use object_store::WebCopy;
use peer_chooser::{FirstAnswer, Round};
use roster::Peer;

/// Whether the same peers are listed, in the same order.
fn same_peers(one: &[Peer], other: &[Peer]) -> bool
    ensures { IsTrue result ↔ (one.now ≡ other.now) }
{
    one == other
}

/// Whether the answers are the same, in the same order.
fn same_answers(one: &[FirstAnswer], other: &[FirstAnswer]) -> bool
    ensures { IsTrue result ↔ (one.now ≡ other.now) }
{
    one == other
}

/// Whether two rounds are the same.
fn same_round(one: &Round, other: &Round) -> bool
    ensures { IsTrue result ↔ (one.now ≡ other.now) }
{
    one.has_expired() == other.has_expired()
        && same_peers(one.asked(), other.asked())
        && same_answers(one.answers(), other.answers())
}

/// Whether two pending requests have the same round, or none.
fn same_rounds(one: &Option<Round>, other: &Option<Round>) -> bool
    ensures { IsTrue result ↔ (one.now ≡ other.now) }
{
    match (one, other) {
        (Some(one), Some(other)) => same_round(one, other),
        (None, None) => true,
        _ => false,
    }
}

/// Whether two fetches are the same.
fn same_fetch(one: &Fetch<()>, other: &Fetch<()>) -> bool
    ensures { IsTrue result ↔ (one.now ≡ other.now) }
{
    match (one, other) {
        (Fetch::Nowhere, Fetch::Nowhere) => true,
        (
            Fetch::AtPeer { peer, asked },
            Fetch::AtPeer {
                peer: source,
                asked: later,
            },
        ) => peer == source && asked == later,
        (
            Fetch::AtOrigin { stamp, asked, .. },
            Fetch::AtOrigin {
                stamp: other,
                asked: later,
                ..
            },
        ) => stamp == other && asked == later,
        _ => false,
    }
}

/// Whether two pending requests are the same.
fn same_pending(one: &Pending<()>, other: &Pending<()>) -> bool
    ensures { IsTrue result ↔ (one.now ≡ other.now) }
{
    one.block == other.block
        && one.asker == other.asker
        && one.fetches == other.fetches
        && one.reads == other.reads
        && one.tried.as_slice() == other.tried.as_slice()
        && same_rounds(&one.round, &other.round)
        && same_ask(&one.ask, &other.ask)
        && same_fetch(&one.fetch, &other.fetch)
}

/// Whether the same requests are pending, in the same order.
fn same_asks(one: &[Pending<()>], other: &[Pending<()>]) -> bool
    ensures { IsTrue result ↔ (one.now ≡ other.now) }
{
    match one {
        [] => other.is_empty(),
        [first, one @ ..] => match other {
            [] => false,
            [second, other @ ..] => same_pending(first, second) && same_asks(one, other),
        },
    }
}

/// Whether the same copies are held, in the same order.
fn same_copies(one: &[WebCopy<()>], other: &[WebCopy<()>]) -> bool
    ensures { IsTrue result ↔ (one.now ≡ other.now) }
{
    if one.len() != other.len() {
        return false;
    }
    for at in 0..one.len() {
        if !same_copy(&one[at], &other[at]) {
            return false;
        }
    }
    true
}

/// Whether two states are the same.
pub(crate) fn same_state(one: &NodeState<()>, other: &NodeState<()>) -> bool
    ensures { IsTrue result ↔ (one.now ≡ other.now) }
{
    one.closed == other.closed
        && one.next == other.next
        && one.floors.same(&other.floors)
        && same_asks(one.pending.as_slice(), other.pending.as_slice())
        && same_copies(one.copies.as_slice(), other.copies.as_slice())
}

/// Whether a state is that of a node that has just opened with these floors.
pub(crate) fn is_opened(state: &NodeState<()>, floors: &Floors) -> bool
    ensures { IsTrue result ↔ (state.now ≡ opened floors.now) }
{
    !state.closed
        && state.next == 1
        && state.pending.as_slice().is_empty()
        && state.copies.as_slice().is_empty()
        && state.floors.same(floors)
}

/// Whether a closed node may be recorded in a state: it has the node's copies and its next block,
/// and nothing is pending. Its floors may be any.
pub(crate) fn is_shut_as(state: &NodeState<()>, node: &ClosedNode) -> bool
    ensures { IsTrue result ↔ IsShutAs (closed_state node.now) state.now }
{
    state.closed
        && state.next == node.next
        && state.pending.as_slice().is_empty()
        && same_copies(state.copies.as_slice(), node.copies.as_slice())
}
