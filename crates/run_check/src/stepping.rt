//! An entry of a node is replayed on a node of the checker.
ghost use Rattle.std.specs.Prelude.{◌≡◌, ◌↔◌, ◌≤◌, IsTrue, IfOk, Err};
ghost use Rattle.node_rules.specs.declared.reply.StepFault.TheVariants as fault;
ghost use Rattle.node_rules.specs.Relation.{raise_in as raise_of_event};
ghost use Rattle.node_rules.specs.Raises.{number_of, least_by};
ghost use Rattle.node_rules.specs.State.{setting};
ghost use Rattle.run_rules.specs.Board.{Shut};
ghost use Rattle.run_rules.specs.Judging.{StepsSo, StepsBy, OpenStepsBy};
ghost use Rattle.run_rules.specs.Judging.{wanting, failing, shut_by, left_by};
ghost use Rattle.run_check.specs.Held.{closed_state, standing_of, stepped_of};
ghost use Rattle.run_check.specs.Held.{IsSound, IsMemberNode, AreSound};

use crate::purging::{raise_in, stored};
use crate::reaching::reaches;
use crate::standing::{ClosedNode, Standing};
use floor_rules::{Floors, MemoryFloors};
use node_book::NodeEntry;
use node_copies::{copy_of_event, same_outcome};
use node_core::Node;
use node_rules::{Event, Raise, Reply, StepFault};
use roster::Roster;
use run_rules::Cause;
use std::alloc::{AllocError, Global};

/// Whether a step lacked memory.
fn has_wanted_memory(outcome: &Result<Reply<()>, StepFault>) -> bool
    ensures { IsTrue result ↔ (outcome.now ≡ Err fault.NoMemory) }
{
    matches!(outcome, Err(StepFault::NoMemory))
}

/// An open node takes the step of an entry. Returns the node after it, or `OtherReply` if the
/// outcome is not the entry's.
fn play(
    alloc: Global,
    roster: &Roster,
    id: u8,
    mut node: Node<(), MemoryFloors>,
    entry: &NodeEntry,
) -> Result<Result<Standing, Cause>, AllocError>
    ensures stepped { IsMemberNode roster.now id node →
        IfOk result (λ stepped. StepsBy (setting roster.now id) node.state entry.now
        (stepped_of stepped)) }
    ensures sound { IsMemberNode roster.now id node → IfOk result (AreSound roster.now id) }
{
    let outcome = node.step(copy_of_event(alloc, &entry.event)?, ());
    let _closed = node.is_closed();
    if has_wanted_memory(&outcome) {
        return Err(AllocError);
    }
    if same_outcome(&outcome, &entry.outcome) {
        Ok(Ok(Standing::Open(node)))
    } else {
        Ok(Err(Cause::OtherReply))
    }
}

/// The number below which a node drops its copies before it commits this raise.
fn least_of(node: &Node<(), MemoryFloors>, raise: &Raise) -> u32
    ensures { result ≡ least_by raise.now node.now.state.floors }
{
    match raise {
        Raise::Floor { key, number } => node.new_base(key, *number),
        Raise::Base { number } => *number,
    }
}

/// A node closes at this raise: it has dropped the copies that were to go before the commit. `kept`
/// are the floors with which it next opens.
fn closed_by(
    alloc: Global,
    roster: &Roster,
    id: u8,
    mut node: Node<(), MemoryFloors>,
    raise: &Raise,
    kept: &Floors,
) -> Result<Standing, AllocError>
    requires { 1 ≤ number_of raise.now }
    ensures { IsMemberNode roster.now id node →
        IfOk result (λ standing. standing_of standing
        ≡ Shut (left_by node.state raise.now kept.now)) }
{
    let least = least_of(&node, raise);
    node.drop_below(least)?;
    let state = node.state()?;
    Ok(Standing::Shut(ClosedNode {
        floors: stored(alloc, node.into_floors(), raise, kept)?,
        next: state.next,
        copies: state.into_copies(),
    }))
}

/// An open node's step lacked memory: nothing changes, but at a raise the node may have closed
/// (`is_closed`).
fn wants_memory(
    alloc: Global,
    roster: &Roster,
    id: u8,
    node: Node<(), MemoryFloors>,
    event: &Event<()>,
    is_closed: bool,
    kept: &Floors,
) -> Result<Standing, AllocError>
    ensures standing { IsMemberNode roster.now id node →
        IfOk result (λ standing. standing_of standing
        ≡ wanting node.state (raise_of_event (setting roster.now id) event.now)
        is_closed kept.now) }
    ensures sound { IsMemberNode roster.now id node → IfOk result (IsSound roster.now id) }
{
    match raise_in(alloc, roster, event)? {
        Some(raise) if is_closed => closed_by(alloc, roster, id, node, &raise, kept),
        _ => Ok(Standing::Open(node)),
    }
}

/// An open node's floor store failed: that comes only at a raise, and closes the node. Otherwise
/// returns `OtherReply`.
fn fails(
    alloc: Global,
    roster: &Roster,
    id: u8,
    node: Node<(), MemoryFloors>,
    event: &Event<()>,
    kept: &Floors,
) -> Result<Result<Standing, Cause>, AllocError>
    ensures stepped { IsMemberNode roster.now id node →
        IfOk result (λ stepped. stepped_of stepped
        ≡ failing node.state (raise_of_event (setting roster.now id) event.now) kept.now) }
    ensures sound { IsMemberNode roster.now id node → IfOk result (AreSound roster.now id) }
{
    match raise_in(alloc, roster, event)? {
        Some(raise) => Ok(Ok(closed_by(alloc, roster, id, node, &raise, kept)?)),
        None => Ok(Err(Cause::OtherReply)),
    }
}

/// An open node has an entry, by the outcome that is recorded.
fn open_steps(
    alloc: Global,
    roster: &Roster,
    id: u8,
    node: Node<(), MemoryFloors>,
    entry: &NodeEntry,
    is_closed: bool,
    kept: &Floors,
) -> Result<Result<Standing, Cause>, AllocError>
    ensures stepped { IsMemberNode roster.now id node →
        IfOk result (λ stepped. OpenStepsBy
        (setting roster.now id) node.state entry.now is_closed kept.now entry.now.outcome
        (stepped_of stepped)) }
    ensures sound { IsMemberNode roster.now id node → IfOk result (AreSound roster.now id) }
{
    match &entry.outcome {
        Err(StepFault::NoMemory) => {
            let event = &entry.event;
            Ok(Ok(wants_memory(alloc, roster, id, node, event, is_closed, kept)?))
        }
        Err(StepFault::StoreFault) => fails(alloc, roster, id, node, &entry.event, kept),
        Err(_) => play(alloc, roster, id, node, entry),
        Ok(_) => {
            if reaches(&node, &entry.event) {
                play(alloc, roster, id, node, entry)
            } else {
                Ok(Err(Cause::OtherReply))
            }
        }
    }
}

/// A closed node has an entry: its outcome must be `Closed`, and the node stays as it is.
fn shut_steps(node: ClosedNode, outcome: &Result<Reply<()>, StepFault>) -> Result<Standing, Cause>
    ensures { stepped_of result ≡ shut_by (closed_state node) outcome.now }
{
    match outcome {
        Err(StepFault::Closed) => Ok(Standing::Shut(node)),
        _ => Err(Cause::OtherReply),
    }
}

/// The standing of a node after an entry, or the entry's flaw. `is_closed` and `kept` are what the
/// node's next records tell: whether it is closed after the entry, and with which floors it opens
/// next.
pub(crate) fn steps(
    alloc: Global,
    roster: &Roster,
    id: u8,
    standing: Standing,
    entry: &NodeEntry,
    is_closed: bool,
    kept: &Floors,
) -> Result<Result<Standing, Cause>, AllocError>
    ensures stepped { IsSound roster.now id standing →
        IfOk result (λ stepped. StepsSo (setting roster.now id)
        (standing_of standing) entry.now is_closed kept.now (stepped_of stepped)) }
    ensures sound { IsSound roster.now id standing → IfOk result (AreSound roster.now id) }
{
    match standing {
        Standing::New => Ok(Err(Cause::OtherReply)),
        Standing::Open(node) => open_steps(alloc, roster, id, node, entry, is_closed, kept),
        Standing::Shut(node) => Ok(shut_steps(node, &entry.outcome)),
        Standing::Astray => Ok(Ok(Standing::Astray)),
    }
}
