//! A node's record opens or closes.
ghost use Rattle.std.specs.Prelude.{◌≡◌, ◌↔◌, true, IsTrue, IfOk};
ghost use Rattle.roster.specs.Lookups.{is_member as is_member_of};
ghost use Rattle.run_rules.specs.Board.{Open, Shut};
ghost use Rattle.run_rules.specs.Judging.{ClosesAs};
ghost use Rattle.run_check.specs.declared.standing.Standing.TheVariants as held;
ghost use Rattle.run_check.specs.Held.{closed_state, standing_of, IsSound};
ghost use Rattle.run_check.specs.Held.{IsOpened, IsOpening, IsRestart};

use crate::standing::{ClosedNode, Standing, opened_with};
use crate::states::{is_opened, is_shut_as, same_state};
use floor_rules::{FloorStore, MemoryFloors};
use node_core::Node;
use node_rules::NodeState;
use roster::Roster;
use std::alloc::{AllocError, Global};
use std::hash::RandomState;

/// A member's node restarts with these floors, if its recorded state is that of a restart; else it
/// is astray.
fn restarted(
    alloc: Global,
    keys: RandomState,
    roster: &Roster,
    id: u8,
    mut floors: MemoryFloors,
    state: &NodeState<()>,
) -> Result<Standing, AllocError>
    requires { is_member_of roster.now id ≡ true }
    ensures standing { IfOk result (λ standing. IsRestart floors state.now (standing_of standing)) }
    ensures sound { IfOk result (IsSound roster.now id) }
{
    let Ok(stored) = floors.load(alloc) else {
        return Err(AllocError);
    };
    if is_opened(state, &stored) {
        opened_with(alloc, keys, roster, id, floors)
    } else {
        Ok(Standing::Astray)
    }
}

/// A record of a member opens, and its node is open.
fn open_goes_on(
    alloc: Global,
    keys: RandomState,
    roster: &Roster,
    id: u8,
    node: Node<(), MemoryFloors>,
    state: &NodeState<()>,
) -> Result<Standing, AllocError>
    requires { is_member_of roster.now id ≡ true }
    ensures standing { IsSound roster.now id (held.Open node) →
        IfOk result (λ standing. IsOpening (Open node.state) state.now (standing_of standing)) }
    ensures sound { IsSound roster.now id (held.Open node) → IfOk result (IsSound roster.now id) }
{
    if same_state(&node.state()?, state) {
        Ok(Standing::Open(node))
    } else {
        restarted(alloc, keys, roster, id, node.into_floors(), state)
    }
}

/// A record of a member opens, and its node is closed.
fn shut_goes_on(
    alloc: Global,
    keys: RandomState,
    roster: &Roster,
    id: u8,
    node: ClosedNode,
    state: &NodeState<()>,
) -> Result<Standing, AllocError>
    requires { is_member_of roster.now id ≡ true }
    ensures standing { IfOk result (λ standing.
        IsOpening (Shut (closed_state node)) state.now (standing_of standing)) }
    ensures sound { IfOk result (IsSound roster.now id) }
{
    if is_shut_as(state, &node) {
        Ok(Standing::Shut(node))
    } else {
        restarted(alloc, keys, roster, id, node.floors, state)
    }
}

/// The standing of a member's node after its record opens in this state: the state is the node's,
/// or that of a restart with its floors; else the node is astray.
fn goes_on(
    alloc: Global,
    keys: RandomState,
    roster: &Roster,
    id: u8,
    standing: Standing,
    state: &NodeState<()>,
) -> Result<Standing, AllocError>
    requires { is_member_of roster.now id ≡ true }
    ensures standing { IsSound roster.now id standing →
        IfOk result (λ after. IsOpening (standing_of standing) state.now (standing_of after)) }
    ensures sound { IsSound roster.now id standing → IfOk result (IsSound roster.now id) }
{
    match standing {
        Standing::New => restarted(alloc, keys, roster, id, MemoryFloors::new(alloc), state),
        Standing::Open(node) => open_goes_on(alloc, keys, roster, id, node, state),
        Standing::Shut(node) => shut_goes_on(alloc, keys, roster, id, node, state),
        Standing::Astray => Ok(Standing::Astray),
    }
}

/// The standing of a node after its record opens in this state. It is astray if the roster has no
/// such member, or if the record may not open so.
pub(crate) fn opens(
    alloc: Global,
    keys: RandomState,
    roster: &Roster,
    id: u8,
    standing: Standing,
    state: &NodeState<()>,
) -> Result<Standing, AllocError>
    ensures standing { IsSound roster.now id standing →
        IfOk result (λ after. IsOpened roster.now id (standing_of standing) state.now
        (standing_of after)) }
    ensures sound { IsSound roster.now id standing → IfOk result (IsSound roster.now id) }
{
    if roster.is_member(id) {
        goes_on(alloc, keys, roster, id, standing, state)
    } else {
        Ok(Standing::Astray)
    }
}

/// Whether the record of a node with this standing may close in this state.
pub(crate) fn may_close(standing: &Standing, state: &NodeState<()>) -> Result<bool, AllocError>
    ensures { IfOk result (λ may. IsTrue may ↔ ClosesAs (standing_of standing.now) state.now) }
{
    match standing {
        Standing::New | Standing::Astray => Ok(false),
        Standing::Open(node) => Ok(same_state(state, &node.state()?)),
        Standing::Shut(node) => Ok(is_shut_as(state, node)),
    }
}
