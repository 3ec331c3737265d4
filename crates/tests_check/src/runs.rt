//! What is kept of a run of two siblings and the master, made in memory by their own steps.
use crate::events::{Called, Met, Url, call_of, event_of};
use floor_rules::MemoryFloors;
use icp_wire::IcpOp;
use node_book::{BookFault, NodeBook, Record};
use node_core::Node;
use purge_master::{Master, MasterBook, MasterEntry};
use purge_rules::MemoryPurges;
use std::alloc::Global;
use std::test::Fail;
use tests_kit::{TWO, roster_of};

/// The pages that both members are asked for.
const PAGES: [Url; 12] = [
    b"http://o/0",
    b"http://o/1",
    b"http://o/2",
    b"http://o/3",
    b"http://o/4",
    b"http://o/5",
    b"http://o/6",
    b"http://o/7",
    b"http://o/8",
    b"http://o/9",
    b"http://o/a",
    b"http://o/b",
];

/// The page that is purged.
pub(crate) const PURGED: Url = b"http://o/3";

/// A page that nobody is asked for.
pub(crate) const OTHER: Url = b"http://o/x";

/// Where the members answer ICP.
const FIRST: u16 = 3101;

const SECOND: u16 = 3102;

/// How many places each page takes.
const PLACES: u64 = 9;

/// What is kept of a run.
#[derive(Drop)]
pub(crate) struct Kept {
    pub records: Vec<Record>,
    pub entries: Vec<MasterEntry>,
}

/// A member's book.
type Book = NodeBook<MemoryFloors>;

/// A member meets something at a place. A fault of the step is entered too.
fn meet(alloc: Global, book: &mut Book, place: u64, met: Met) -> Result<(), Fail> {
    let event = event_of(alloc, met)?;
    match book.apply(1, place, event) {
        Ok(_) | Err(BookFault::Step(_)) => Ok(()),
        Err(_) => Err("the book".into()),
    }
}

/// What the first member meets of a page, with the round of both, and how many places after the
/// page's first: a client asks for it, the sibling has no copy, the origin gives it; then the
/// sibling asks for it.
fn first_meets(round: u32, page: Url) -> [(u64, Met); 5] {
    [
        (1, Met::Client(page)),
        (3, Met::Icp(SECOND, IcpOp::Miss, round, page)),
        (4, Met::Origin(round.wrapping_add(1), page)),
        (6, Met::Icp(SECOND, IcpOp::Query, round, page)),
        (8, Met::PeerAsk(2, page)),
    ]
}

/// What the second member meets of it: the first asks whether it has a copy; then a client asks for
/// it, the first has one, and gives it.
fn second_meets(round: u32, page: Url) -> [(u64, Met); 4] {
    [
        (2, Met::Icp(FIRST, IcpOp::Query, round, page)),
        (5, Met::Client(page)),
        (7, Met::Icp(FIRST, IcpOp::Hit, round, page)),
        (9, Met::PeerAnswer(1, round.wrapping_add(1), Some(0), page)),
    ]
}

/// A member meets all of these, so many places behind those that they name.
fn meet_all(alloc: Global, book: &mut Book, before: u64, steps: &[(u64, Met)]) -> Result<(), Fail> {
    for (place, met) in steps {
        meet(alloc, book, place.wrapping_add(before), *met)?;
    }
    Ok(())
}

/// A member meets what it does of these pages, so many pages behind the first.
fn meet_pages(
    alloc: Global,
    book: &mut Book,
    id: u8,
    mut page: u32,
    pages: &[Url],
) -> Result<(), Fail> {
    for url in pages {
        let before = u64::from(page).wrapping_mul(PLACES);
        page = page.wrapping_add(1);
        let round = page.wrapping_mul(32);
        if id == 1 {
            meet_all(alloc, book, before, &first_meets(round, *url))?;
        } else {
            meet_all(alloc, book, before, &second_meets(round, *url))?;
        }
    }
    Ok(())
}

/// What the first member meets behind the pages, and what the second does: both are purged, and
/// asked for the purged page again.
const FIRST_AFTER: &[(u64, Met)] = &[
    (205, Met::Clear(1, PURGED)),
    (209, Met::Client(PURGED)),
    (211, Met::Icp(SECOND, IcpOp::Miss, 416, PURGED)),
    (212, Met::Origin(417, PURGED)),
    (216, Met::Icp(SECOND, IcpOp::Query, 416, PURGED)),
    (218, Met::PeerAsk(2, PURGED)),
    (220, Met::Client(PURGED)),
    (222, Met::Failed(34)),
];

const SECOND_AFTER: &[(u64, Met)] = &[
    (206, Met::Clear(1, PURGED)),
    (210, Met::Icp(FIRST, IcpOp::Query, 416, PURGED)),
    (215, Met::Client(PURGED)),
    (217, Met::Icp(FIRST, IcpOp::Hit, 416, PURGED)),
    (219, Met::PeerAnswer(1, 417, Some(1), PURGED)),
    (221, Met::Cached(OTHER)),
];

/// The calls of the master: a purge that both acknowledge, the first of them twice.
const CALLS: &[(u64, Called)] = &[
    (201, Called::Due),
    (202, Called::Issue(PURGED)),
    (203, Called::Due),
    (204, Called::Status(1)),
    (207, Called::Acknowledge(1, 0)),
    (208, Called::Status(1)),
    (213, Called::Acknowledge(2, 0)),
    (214, Called::Status(1)),
    (223, Called::Acknowledge(1, 0)),
    (224, Called::Status(2)),
    (225, Called::Due),
];

/// A member that holds nothing.
fn member(alloc: Global, id: u8) -> Result<Node<(), MemoryFloors>, Fail> {
    let roster = roster_of(alloc, TWO)?;
    match Node::open(alloc, roster, id, MemoryFloors::new(alloc)) {
        Ok(node) => Ok(node),
        Err(fault) => Err(fault.name().into()),
    }
}

fn book_of(alloc: Global, node: Node<(), MemoryFloors>) -> Result<Book, Fail> {
    match NodeBook::open(alloc, node) {
        Ok(book) => Ok(book),
        Err(_) => Err("the book".into()),
    }
}

/// The node of a book, and its record.
fn closed(book: Book) -> Result<(Node<(), MemoryFloors>, Record), Fail> {
    match book.close() {
        Ok(done) => Ok(done),
        Err(_) => Err("the record".into()),
    }
}

/// A member's record of the first half of the pages, and the node then.
fn first_half(alloc: Global, id: u8) -> Result<(Node<(), MemoryFloors>, Record), Fail> {
    let mut book = book_of(alloc, member(alloc, id)?)?;
    meet_pages(alloc, &mut book, id, 0, &PAGES[..6])?;
    closed(book)
}

/// Its record of the second half, and of what comes behind the pages.
fn second_half(
    alloc: Global,
    id: u8,
    node: Node<(), MemoryFloors>,
    after: &[(u64, Met)],
) -> Result<Record, Fail> {
    let mut book = book_of(alloc, node)?;
    meet_pages(alloc, &mut book, id, 6, &PAGES[6..])?;
    meet_all(alloc, &mut book, 0, after)?;
    let (_, record) = closed(book)?;
    Ok(record)
}

/// Keeps a member's two records.
fn keep(
    alloc: Global,
    records: &mut Vec<Record>,
    id: u8,
    after: &[(u64, Met)],
) -> Result<(), Fail> {
    let (node, record) = first_half(alloc, id)?;
    records.push(record)?;
    records.push(second_half(alloc, id, node, after)?)?;
    Ok(())
}

/// A master that has issued nothing.
fn master(alloc: Global) -> Result<MasterBook<MemoryPurges>, Fail> {
    let roster = roster_of(alloc, TWO)?;
    match Master::open(alloc, &roster, MemoryPurges::new(alloc)) {
        Ok(master) => Ok(MasterBook::open(master)),
        Err(_) => Err("the master".into()),
    }
}

fn call_all(alloc: Global, book: &mut MasterBook<MemoryPurges>) -> Result<(), Fail> {
    for (place, called) in CALLS {
        if book.call(*place, call_of(alloc, *called)?).is_err() {
            return Err("a call".into());
        }
    }
    Ok(())
}

/// The master's entries.
fn entries(alloc: Global) -> Result<Vec<MasterEntry>, Fail> {
    let mut book = master(alloc)?;
    call_all(alloc, &mut book)?;
    Ok(book.take_entries())
}

/// What is kept of the run: both members miss and fetch each page, the first from the origin and
/// the second from the first; then one page is purged, and they are asked for it again.
pub(crate) fn kept_run(alloc: Global) -> Result<Kept, Fail> {
    let mut records = Vec::new(alloc);
    keep(alloc, &mut records, 1, FIRST_AFTER)?;
    keep(alloc, &mut records, 2, SECOND_AFTER)?;
    Ok(Kept {
        records,
        entries: entries(alloc)?,
    })
}
