//! Changes of what is kept of a run.
use node_book::NodeEntry;
use node_copies::{copy_of_event, copy_of_reply};
use node_rules::{Reply, Served, StepFault};
use roster::Listed;
use std::alloc::{AllocError, Global};
use std::mem::swap;

/// What is changed at one entry of a member's record, or of the master, or at the state in which a
/// record opens or closes.
#[derive(Clone, Copy, Debug, PartialEq, Eq)]
pub(crate) enum Change {
    /// The entry is left out.
    Dropped,
    /// It stands twice.
    Doubled,
    /// The next one stands before it.
    Swapped,
    /// It and the next one change all but their places.
    Exchanged,
    /// Its place is that of the one before it.
    SamePlace,
    /// It and the next one change their events alone.
    OtherEvent,
    /// Its outcome is a fault, and another one than before.
    OtherFault,
    /// Its reply says something else: another age, another status, nothing sent or nothing begun.
    OtherReply,
    /// Another seat made it.
    OtherSeat,
    /// Its answer is a fault that the master does not have.
    OtherAnswer,
    /// Another TRANS-ID is acknowledged, or the status of another purge is asked; in place of
    /// another call a status is.
    OtherNumber,
    /// The other member acknowledges, or another URL is purged.
    OtherSubject,
    /// Its place is that of the last entry of a member before it.
    MemberPlace,
    /// Another block of serials is next.
    OtherNext,
    /// There is a floor more.
    OtherFloors,
    /// There are no copies.
    NoCopies,
}

/// All changes of an entry of a member.
pub(crate) const CHANGES: [Change; 9] = [
    Change::Dropped,
    Change::Doubled,
    Change::Swapped,
    Change::Exchanged,
    Change::SamePlace,
    Change::OtherEvent,
    Change::OtherFault,
    Change::OtherReply,
    Change::OtherSeat,
];

/// All changes of an entry of the master.
pub(crate) const CALL_CHANGES: [Change; 9] = [
    Change::Dropped,
    Change::Doubled,
    Change::Swapped,
    Change::Exchanged,
    Change::SamePlace,
    Change::OtherAnswer,
    Change::OtherNumber,
    Change::OtherSubject,
    Change::MemberPlace,
];

/// All changes of a state.
pub(crate) const STATE_CHANGES: [Change; 3] = [
    Change::OtherNext,
    Change::OtherFloors,
    Change::NoCopies,
];

/// What a step led to.
pub(crate) type Outcome = Result<Reply<()>, StepFault>;

/// How often the entry at a place stands after the change of the one at another place.
pub(crate) fn times(place: usize, at: usize, change: Change) -> u8 {
    match change {
        Change::Dropped if place == at => 0,
        Change::Doubled if place == at => 2,
        _ => 1,
    }
}

fn copy_of_outcome(alloc: Global, outcome: &Outcome) -> Result<Outcome, AllocError> {
    match outcome {
        Ok(reply) => Ok(Ok(copy_of_reply(alloc, reply)?)),
        Err(fault) => Ok(Err(*fault)),
    }
}

pub(crate) fn copy_of_entry(alloc: Global, entry: &NodeEntry) -> Result<NodeEntry, AllocError> {
    let event = copy_of_event(alloc, &entry.event)?;
    Ok(NodeEntry {
        seat: entry.seat,
        place: entry.place,
        event,
        outcome: copy_of_outcome(alloc, &entry.outcome)?,
    })
}

/// The entries, of which the one at this place may be left out or stand twice.
fn copies_of(
    alloc: Global,
    entries: &[NodeEntry],
    at: usize,
    change: Change,
) -> Result<Vec<NodeEntry>, AllocError> {
    let mut copies = Vec::new(alloc);
    for place in 0..entries.len() {
        for _ in 0..times(place, at, change) {
            copies.push(copy_of_entry(alloc, &entries[place])?)?;
        }
    }
    Ok(copies)
}

/// A fault that this outcome is not.
fn other_fault(outcome: &Outcome) -> StepFault {
    match outcome {
        Err(StepFault::UnknownSerial) => StepFault::Busy,
        _ => StepFault::UnknownSerial,
    }
}

/// Has what is served say something else.
fn serve_otherwise(served: &mut Served<()>) {
    match served {
        Served::Copy { age, .. } => *age = age.wrapping_add(1),
        Served::Status(status) => *status = status.wrapping_add(1),
    }
}

/// Has a reply say something else.
fn say_otherwise(alloc: Global, reply: &mut Reply<()>) {
    match &mut reply.serve {
        Some(serve) => serve_otherwise(&mut serve.served),
        None if reply.begin.is_some() => reply.begin = None,
        None => reply.send = Listed::new(Vec::new(alloc)),
    }
}

/// Changes an entry itself, where the place of the one before it is this.
fn change_entry(alloc: Global, entry: &mut NodeEntry, before: u64, change: Change) {
    match change {
        Change::OtherFault => entry.outcome = Err(other_fault(&entry.outcome)),
        Change::OtherReply => {
            if let Ok(reply) = &mut entry.outcome {
                say_otherwise(alloc, reply);
            }
        }
        Change::SamePlace => entry.place = before,
        Change::OtherSeat => entry.seat = entry.seat.wrapping_add(1),
        _ => {}
    }
}

/// Changes an entry and its next one.
fn change_both(entry: &mut NodeEntry, next: &mut NodeEntry, change: Change) {
    match change {
        Change::Swapped => swap(entry, next),
        Change::Exchanged => {
            swap(&mut entry.event, &mut next.event);
            swap(&mut entry.outcome, &mut next.outcome);
        }
        Change::OtherEvent => swap(&mut entry.event, &mut next.event),
        _ => {}
    }
}

/// Changes the first of these entries, and its next one, if there is one.
fn change_first(alloc: Global, entries: &mut [NodeEntry], before: u64, change: Change) {
    if let [entry, rest @ ..] = entries {
        change_entry(alloc, entry, before, change);
        if let [next, ..] = rest {
            change_both(entry, next, change);
        }
    }
}

/// The place of the entry before this one, 0 where there is none.
pub(crate) fn place_before(entries: &[NodeEntry], at: usize) -> u64 {
    match entries.get(at.wrapping_sub(1)) {
        Some(before) => before.place,
        None => 0,
    }
}

/// The entries after a change of the one at a place.
pub(crate) fn changed(
    alloc: Global,
    entries: &[NodeEntry],
    at: usize,
    change: Change,
) -> Result<Vec<NodeEntry>, AllocError> {
    let mut copies = copies_of(alloc, entries, at, change)?;
    if at < copies.len() {
        let before = place_before(entries, at);
        change_first(alloc, &mut copies[at..], before, change);
    }
    Ok(copies)
}
