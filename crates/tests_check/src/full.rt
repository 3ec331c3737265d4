//! A run of 65,537 purges. At the last one, which makes the base, the store of the member fails.
use crate::changes::copy_of_entry;
use crate::events::{A, Met, clear_comes, event_of};
use crate::judged::verdict;
use crate::made::state_of;
use floor_rules::{Floors, MemoryFloors};
use node_book::{BookFault, NodeBook, NodeEntry, Record};
use node_core::Node;
use node_rules::{Event, NodeState, StepFault};
use purge_master::MasterEntry;
use purge_rules::{MasterAnswer, MasterCall};
use roster::Listed;
use run_rules::{Cause, Verdict};
use std::alloc::Global;
use std::mem::swap;
use std::test::Fail;
use tests_kit::{ONE, key_of, roster_of};
use url_key::Key;

type Book = NodeBook<MemoryFloors>;

/// How many keys a table holds.
const KEYS: u32 = 65_536;

/// The number of the purge that makes the base.
const LAST: u32 = 65_537;

/// The key of the URL that is purged under this number: each purge has its own.
fn key_at(alloc: Global, number: u32) -> Result<Key, Fail> {
    let url = format!(in alloc; "http://o/{number}")?;
    key_of(alloc, url.as_bytes())
}

/// Where a purge is issued; its CLR comes at the next place, and the response to the master at the
/// one behind that.
fn place_of(number: u32) -> u64 {
    u64::from(number).wrapping_mul(3)
}

/// The member meets something at a place. The open page is filed where it is full.
fn meet(book: &mut Book, place: u64, event: Event<()>) -> Result<(), Fail> {
    if book.is_full() {
        book.file_page();
    }
    match book.apply(1, place, event) {
        Ok(_) | Err(BookFault::Step(_)) => Ok(()),
        Err(_) => Err("the book".into()),
    }
}

/// The member has a copy of a page that nobody purges, and takes the first purges.
fn meet_all(alloc: Global, book: &mut Book) -> Result<(), Fail> {
    meet(book, 1, event_of(alloc, Met::Client(A))?)?;
    meet(book, 2, event_of(alloc, Met::Origin(33, A))?)?;
    for number in 1..=KEYS {
        let event = clear_comes(alloc, number, &key_at(alloc, number)?)?;
        meet(book, place_of(number).wrapping_add(1), event)?;
    }
    Ok(())
}

fn book_of(alloc: Global) -> Result<Book, Fail> {
    let roster = roster_of(alloc, ONE)?;
    let Ok(node) = Node::open(alloc, roster, 1, MemoryFloors::new(alloc)) else {
        return Err("the node".into());
    };
    match NodeBook::open(alloc, node) {
        Ok(book) => Ok(book),
        Err(_) => Err("the book".into()),
    }
}

fn record_of(book: Book) -> Result<Record, Fail> {
    match book.close() {
        Ok((_, record)) => Ok(record),
        Err(_) => Err("the record".into()),
    }
}

/// The entry of the last purge.
fn last_entry(alloc: Global) -> Result<NodeEntry, Fail> {
    Ok(NodeEntry {
        seat: 1,
        place: place_of(LAST).wrapping_add(1),
        event: clear_comes(alloc, LAST, &key_at(alloc, LAST)?)?,
        outcome: Err(StepFault::StoreFault),
    })
}

/// These entries, and that of the last purge.
fn entries_to_last(alloc: Global, entries: &[NodeEntry]) -> Result<Vec<NodeEntry>, Fail> {
    let mut copies = Vec::with_capacity(alloc, entries.len().saturating_add(1))?;
    for entry in entries {
        copies.push(copy_of_entry(alloc, entry)?)?;
    }
    copies.push(last_entry(alloc)?)?;
    Ok(copies)
}

/// The member's record, which ends as the store fails.
fn first_record(alloc: Global) -> Result<Record, Fail> {
    let mut book = book_of(alloc)?;
    meet_all(alloc, &mut book)?;
    let mut record = record_of(book)?;
    let entries = entries_to_last(alloc, record.entries.as_slice())?;
    record.entries = Listed::new(entries);
    record.closing.closed = true;
    Ok(record)
}

fn call(place: u64, call: MasterCall, answer: MasterAnswer) -> MasterEntry {
    MasterEntry {
        place,
        call,
        answer: Ok(answer),
    }
}

/// The master's entries: each purge is issued, and all but the last are acknowledged.
fn entries_of(alloc: Global) -> Result<Vec<MasterEntry>, Fail> {
    let mut entries = Vec::new(alloc);
    for number in 1..=LAST {
        let place = place_of(number);
        let issue = MasterCall::Issue(key_at(alloc, number)?);
        entries.push(call(place, issue, MasterAnswer::Issue(number)))?;
        if number != LAST {
            let acknowledge = MasterCall::Acknowledge {
                member: 1,
                trans: number,
                code: 2,
            };
            let done = MasterAnswer::Acknowledge(Some(number));
            entries.push(call(place.wrapping_add(2), acknowledge, done))?;
        }
    }
    Ok(entries)
}

/// Floors of the first keys with these numbers, and this base.
fn floors_of(alloc: Global, keys: u32, base: u32) -> Result<Floors, Fail> {
    let mut floors = Floors::new(alloc);
    for number in 1..=keys {
        if number >= 1 {
            floors.raise(alloc, &key_at(alloc, number)?, number)?;
        }
    }
    floors.raise_base(base);
    Ok(floors)
}

/// A record without entries, of a member with these floors.
fn second_record(alloc: Global, keys: u32, base: u32) -> Result<Record, Fail> {
    Ok(Record {
        node: 1,
        opening: state_of(alloc, floors_of(alloc, keys, base)?, false),
        entries: Listed::new(Vec::new(alloc)),
        closing: state_of(alloc, floors_of(alloc, keys, base)?, false),
    })
}

/// The member's last record tells that it dropped its copy, or not; so many of the first keys have
/// rows as it opens again, and this is the base.
type Opening = (&'static str, bool, u32, u32, Option<(u64, Cause)>);

const OPENINGS: [Opening; 5] = [
    ("the floors after the purge", true, 0, LAST, None),
    ("the floors before it", true, KEYS, 0, None),
    (
        "a base that is hidden",
        true,
        0,
        0,
        Some((0, Cause::OtherState)),
    ),
    (
        "rows beside the base",
        true,
        KEYS,
        LAST,
        Some((0, Cause::OtherState)),
    ),
    (
        "a copy below the base",
        false,
        0,
        LAST,
        Some((196_612, Cause::OtherState)),
    ),
];

/// What is kept of the run: two records of the member, a state with the copy that the first one is
/// not to have as it closes, and the master's entries.
#[derive(Drop)]
struct Kept {
    records: Vec<Record>,
    spare: NodeState<()>,
    entries: Vec<MasterEntry>,
}

fn kept_run(alloc: Global) -> Result<Kept, Fail> {
    let mut first = first_record(alloc)?;
    let mut spare = state_of(alloc, Floors::new(alloc), false);
    swap(&mut first.closing.copies, &mut spare.copies);
    Ok(Kept {
        records: vec![in alloc; first, second_record(alloc, 0, 0)?]?,
        spare,
        entries: entries_of(alloc)?,
    })
}

/// Exchanges the copies with which the first record closes with those of the other state.
fn exchange_copies(kept: &mut Kept) {
    if let Some(first) = kept.records.get_mut(0) {
        swap(&mut first.closing.copies, &mut kept.spare.copies);
    }
}

/// The verdict where the member opens so.
fn verdict_on(rt: &HostRuntime, kept: &mut Kept, opening: &Opening) -> Result<Verdict, Fail> {
    let (_, drops, keys, base, _) = *opening;
    let record = second_record(rt.alloc(), keys, base)?;
    if let Some(second) = kept.records.get_mut(1) {
        *second = record;
    }
    if !drops {
        exchange_copies(kept);
    }
    verdict(rt, ONE, kept.records.as_slice(), kept.entries.as_slice())
}

/// The verdict that there is to be.
fn wanted(opening: &Opening) -> Verdict {
    match opening.4 {
        Some((place, cause)) => Verdict::No { place, cause },
        None => Verdict::Yes,
    }
}

/// The first opening on which there is another verdict, and that verdict.
fn first_other(rt: &HostRuntime) -> Result<Option<(&'static str, Verdict)>, Fail> {
    let mut kept = kept_run(rt.alloc())?;
    for opening in &OPENINGS {
        let verdict = verdict_on(rt, &mut kept, opening)?;
        if verdict != wanted(opening) {
            return Ok(Some((opening.0, verdict)));
        }
    }
    Ok(None)
}

#[test]
fn a_store_that_fails_at_the_base(rt: HostRuntime) -> Result<(), Fail> {
    let other = first_other(&rt)?;
    assert!(rt; other.is_none(), "{other:?}");
    Ok(())
}
