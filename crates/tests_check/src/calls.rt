//! Changes of the master's entries, and what a verdict on the changed run is to say.
use crate::changes::{Change, times};
use crate::runs::Kept;
use crate::wanted::Wanted;
use node_book::Record;
use purge_master::MasterEntry;
use purge_rules::{MasterAnswer, MasterCall, MasterFault, Status};
use run_rules::Cause;
use std::alloc::{AllocError, Global};
use std::mem::swap;
use url_key::Key;

/// Whether a call only reads what the master has.
fn is_reading(call: &MasterCall) -> bool {
    matches!(call, MasterCall::Due | MasterCall::Status(_))
}

/// Whether one of these calls acknowledges the purge of this number for this member.
fn is_acknowledged(entries: &[MasterEntry], of: u8, number: u32) -> bool {
    for entry in entries {
        if let MasterCall::Acknowledge { member, trans, .. } = &entry.call {
            if *member == of && *trans == number {
                return true;
            }
        }
    }
    false
}

/// Whether an entry acknowledges once more what its member has acknowledged in one of those before
/// it.
fn repeats(before: &[MasterEntry], entry: &MasterEntry) -> bool {
    match (&entry.call, &entry.answer) {
        (MasterCall::Acknowledge { member, trans, .. }, Ok(MasterAnswer::Acknowledge(None))) => {
            is_acknowledged(before, *member, *trans)
        }
        _ => false,
    }
}

/// Whether the entry at a place acknowledges once more.
fn is_repeated(entries: &[MasterEntry], at: usize) -> bool {
    match entries.get(at) {
        Some(entry) => repeats(&entries[..at], entry),
        None => false,
    }
}

/// Whether one of these acknowledgements has made a purge done.
fn is_done_by(entries: &[MasterEntry]) -> bool {
    for entry in entries {
        if matches!(&entry.answer, Ok(MasterAnswer::Acknowledge(Some(_)))) {
            return true;
        }
    }
    false
}

/// Whether the acknowledgement at a place or one behind it has made a purge done.
fn is_done_from(entries: &[MasterEntry], at: usize) -> bool {
    match entries.get(at..) {
        Some(entries) => is_done_by(entries),
        None => false,
    }
}

/// What is wanted where an entry and the next one change all but their places: it is a run where
/// both only read, and may be one where an acknowledgement is repeated. Else the one changes what
/// the other reads or counts.
fn wanted_exchanged(entries: &[MasterEntry], at: usize, next: usize) -> Option<Wanted> {
    let (one, other) = (entries.get(at)?, entries.get(next)?);
    if is_reading(&one.call) && is_reading(&other.call) {
        return Some(Wanted::ARun);
    }
    let may_be = is_repeated(entries, at) || is_repeated(entries, next);
    Some(Wanted::where_it_may_be(may_be))
}

/// What is wanted where an entry has another number: nobody sent such an acknowledgement, and no
/// purge has it.
fn wanted_of_number(entry: &MasterEntry) -> Wanted {
    match (&entry.call, &entry.answer) {
        (MasterCall::Acknowledge { .. }, _) => Wanted::Flaw(entry.place, Cause::NotSent),
        (MasterCall::Status(_), Ok(MasterAnswer::Status(Status::Unknown))) => Wanted::ARun,
        _ => Wanted::Flaw(entry.place, Cause::OtherReply),
    }
}

/// What is wanted where another URL is purged, whose CLR nobody takes, or the other member
/// acknowledges: it may have done so too, but where this is the first acknowledgement of a purge
/// that gets done, the member that it was of is missing then.
fn wanted_of_subject(entries: &[MasterEntry], at: usize, call: &MasterCall) -> Option<Wanted> {
    match call {
        MasterCall::Issue(_) | MasterCall::Admit(_) => Some(Wanted::AFlaw),
        MasterCall::Acknowledge { .. } => {
            let is_needed = !is_repeated(entries, at) && is_done_from(entries, at);
            Some(Wanted::where_it_may_be(!is_needed))
        }
        MasterCall::Due | MasterCall::Status(_) => None,
    }
}

/// The greatest place of a member's entry that is below this one, 0 where there is none.
fn member_place_below(records: &[Record], place: u64) -> u64 {
    let mut found = 0;
    for record in records {
        for entry in record.entries.as_slice() {
            if entry.place < place {
                found = entry.place.max(found);
            }
        }
    }
    found
}

/// The place that a change gives the entry at a place, that of an entry before it; 0 where it gives
/// it none.
fn other_place(kept: &Kept, at: usize, change: Change) -> u64 {
    let entries = kept.entries.as_slice();
    match (change, entries.get(at), entries.get(at.wrapping_sub(1))) {
        (Change::SamePlace, _, Some(before)) => before.place,
        (Change::MemberPlace, Some(entry), _) => {
            member_place_below(kept.records.as_slice(), entry.place)
        }
        _ => 0,
    }
}

/// What is wanted of the verdict where the master's entry at a place is changed, and none where
/// that changes nothing.
pub(crate) fn call_verdict_wanted(kept: &Kept, at: usize, change: Change) -> Option<Wanted> {
    let entries = kept.entries.as_slice();
    let entry = entries.get(at)?;
    let next = at.wrapping_add(1);
    match change {
        // It may be missing where it is no issue, and no acknowledgement that is the first of its
        // member for its purge.
        Change::Dropped => Some(Wanted::where_it_may_be(
            is_reading(&entry.call) || is_repeated(entries, at),
        )),
        Change::Doubled => Some(Wanted::Flaw(entry.place, Cause::DoublePlace)),
        Change::Swapped if next < entries.len() => {
            Some(Wanted::Flaw(entry.place, Cause::DoublePlace))
        }
        Change::Exchanged => wanted_exchanged(entries, at, next),
        Change::OtherAnswer => Some(Wanted::Flaw(entry.place, Cause::OtherReply)),
        Change::OtherNumber => Some(wanted_of_number(entry)),
        Change::OtherSubject => wanted_of_subject(entries, at, &entry.call),
        _ => match other_place(kept, at, change) {
            0 => None,
            place => Some(Wanted::Flaw(place, Cause::DoublePlace)),
        },
    }
}

/// A number that no purge of the run has.
const NO_PURGE: u32 = 77_777;

/// A call with another number.
fn of_other_number(call: &MasterCall) -> MasterCall {
    match call {
        MasterCall::Acknowledge { member, code, .. } => MasterCall::Acknowledge {
            member: *member,
            trans: NO_PURGE,
            code: *code,
        },
        _ => MasterCall::Status(NO_PURGE),
    }
}

/// Changes a call to one of the other of two members, or for this other URL.
fn change_subject(alloc: Global, call: &mut MasterCall, other: &Key) -> Result<(), AllocError> {
    match call {
        MasterCall::Acknowledge { member, .. } => *member = if *member == 1 { 2 } else { 1 },
        MasterCall::Issue(key) => *key = other.copy(alloc)?,
        _ => {}
    }
    Ok(())
}

fn copy_of_answer(
    alloc: Global,
    answer: &Result<MasterAnswer, MasterFault>,
) -> Result<Result<MasterAnswer, MasterFault>, AllocError> {
    match answer {
        Ok(answer) => Ok(Ok(answer.copy(alloc)?)),
        Err(fault) => Ok(Err(*fault)),
    }
}

fn copy_of_entry(alloc: Global, entry: &MasterEntry) -> Result<MasterEntry, AllocError> {
    let call = entry.call.copy(alloc)?;
    Ok(MasterEntry {
        place: entry.place,
        call,
        answer: copy_of_answer(alloc, &entry.answer)?,
    })
}

/// The entries, of which the one at this place may be left out or stand twice.
fn copies_of(
    alloc: Global,
    entries: &[MasterEntry],
    at: usize,
    change: Change,
) -> Result<Vec<MasterEntry>, AllocError> {
    let mut copies = Vec::new(alloc);
    for place in 0..entries.len() {
        for _ in 0..times(place, at, change) {
            copies.push(copy_of_entry(alloc, &entries[place])?)?;
        }
    }
    Ok(copies)
}

/// Changes an entry itself; a URL that is purged becomes this other one.
fn change_entry(
    alloc: Global,
    entry: &mut MasterEntry,
    change: Change,
    other: &Key,
) -> Result<(), AllocError> {
    match change {
        Change::OtherAnswer => entry.answer = Err(MasterFault::NumbersSpent),
        Change::OtherNumber => entry.call = of_other_number(&entry.call),
        Change::OtherSubject => change_subject(alloc, &mut entry.call, other)?,
        _ => {}
    }
    Ok(())
}

/// Changes an entry and its next one.
fn change_both(entry: &mut MasterEntry, next: &mut MasterEntry, change: Change) {
    match change {
        Change::Swapped => swap(entry, next),
        Change::Exchanged => {
            swap(&mut entry.call, &mut next.call);
            swap(&mut entry.answer, &mut next.answer);
        }
        _ => {}
    }
}

/// Changes the first of these entries, which gets this place unless it is 0, and its next one, if
/// there is one.
fn change_first(
    alloc: Global,
    entries: &mut [MasterEntry],
    place: u64,
    change: Change,
    other: &Key,
) -> Result<(), AllocError> {
    if let [entry, rest @ ..] = entries {
        if place >= 1 {
            entry.place = place;
        }
        if let [next, ..] = rest {
            change_both(entry, next, change);
        }
        change_entry(alloc, entry, change, other)?;
    }
    Ok(())
}

/// The master's entries after a change of the one at a place; a URL that is purged becomes this
/// other one.
pub(crate) fn changed_calls(
    alloc: Global,
    kept: &Kept,
    at: usize,
    change: Change,
    other: &Key,
) -> Result<Vec<MasterEntry>, AllocError> {
    let mut copies = copies_of(alloc, kept.entries.as_slice(), at, change)?;
    if at < copies.len() {
        let place = other_place(kept, at, change);
        change_first(alloc, &mut copies[at..], place, change, other)?;
    }
    Ok(copies)
}
