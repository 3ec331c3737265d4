//! Worked runs of a master, each a table of calls and of what they are answered.
ghost use Rattle.std.specs.Prelude.{◌≡◌, ◌==◌};

use crate::setting::{JOINING, TWO};
use htcp_wire::{Content, HeaderKind, Htcp, number_in};
use purge_master::{Master, MasterBook};
use purge_rules::{
    MasterAnswer, MasterCall, MasterFault, MemoryPurges, PurgeFault, PurgeStore, Purges, Status,
};
use std::alloc::Global;
use std::fmt::Write;
use std::test::Fail;
use tests_kit::{key_of, roster_of, want};
use url_key::Key;

/// A call of a table.
#[derive(Clone, Copy)]
enum Call {
    /// A purge of this URL.
    Issue(&'static str),
    /// An admission of this member.
    Admit(u8),
    /// This member's response, with this TRANS-ID and this code.
    Acknowledge(u8, u32, u8),
    /// The list of what is due.
    Due,
    /// The status of this number.
    Status(u32),
}

/// Purges in memory whose store takes so many writes, and then fails for good.
#[derive(Drop)]
struct FailingPurges {
    purges: Purges,
    writes_left: u32,
    failures: u64,
}

impl PurgeStore for FailingPurges {
    ghost content = { λ store. store.purges };

    ghost may_find = { λ store found. found ≡ store.purges };

    ghost is_honest = { λ _. Unit {0} };

    ghost is_usable = { λ store. store.failures == 0 };

    ghost failed = { λ store. store.failures };

    fn load(&mut self, alloc: Global) -> Result<Purges, PurgeFault> {
        if self.failures != 0 {
            self.failures = self.failures.saturating_add(1);
            return Err(PurgeFault::StoreFault);
        }
        Ok(self.purges.copy(alloc)?)
    }

    fn add(&mut self, alloc: Global, number: u32, key: &Key) -> Result<(), PurgeFault> {
        if self.failures != 0 || self.writes_left == 0 {
            self.failures = self.failures.saturating_add(1);
            return Err(PurgeFault::StoreFault);
        }
        self.purges.add(alloc, number, key)?;
        self.writes_left -= 1;
        Ok(())
    }

    fn admit(&mut self, _alloc: Global, number: u32, member: u8) -> Result<(), PurgeFault> {
        if self.failures != 0 || self.writes_left == 0 {
            self.failures = self.failures.saturating_add(1);
            return Err(PurgeFault::StoreFault);
        }
        self.purges.admit(number, member)?;
        self.writes_left -= 1;
        Ok(())
    }

    fn mark(&mut self, _alloc: Global, number: u32, member: u8) -> Result<(), PurgeFault> {
        if self.failures != 0 || self.writes_left == 0 {
            self.failures = self.failures.saturating_add(1);
            return Err(PurgeFault::StoreFault);
        }
        self.purges.mark(number, member);
        self.writes_left -= 1;
        Ok(())
    }

    fn finish(&mut self, _alloc: Global, number: u32) -> Result<(), PurgeFault> {
        if self.failures != 0 || self.writes_left == 0 {
            self.failures = self.failures.saturating_add(1);
            return Err(PurgeFault::StoreFault);
        }
        self.purges.finish(number);
        self.writes_left -= 1;
        Ok(())
    }

    fn failures(&self) -> u64 {
        self.failures
    }
}

/// A book that is dropped as one value.
#[derive(Drop)]
struct Held<S: PurgeStore + Drop> {
    book: MasterBook<S>,
}

fn open_at<S: PurgeStore + Drop>(
    rt: &HostRuntime,
    roster: &str,
    store: S,
) -> Result<Held<S>, Fail> {
    match Master::open(rt.alloc(), &roster_of(rt.alloc(), roster)?, store) {
        Ok(master) => Ok(Held {
            book: MasterBook::open(master),
        }),
        Err(fault) => Err(fault.name().into()),
    }
}

fn open<S: PurgeStore + Drop>(rt: &HostRuntime, store: S) -> Result<Held<S>, Fail> {
    open_at(rt, TWO, store)
}

fn in_memory(rt: &HostRuntime) -> Result<Held<MemoryPurges>, Fail> {
    open(rt, MemoryPurges::new(rt.alloc()))
}

/// Purges whose store takes so many writes.
fn store_of(rt: &HostRuntime, writes: u32) -> FailingPurges {
    FailingPurges {
        purges: Purges::new(rt.alloc()),
        writes_left: writes,
        failures: 0,
    }
}

fn failing(rt: &HostRuntime, writes: u32) -> Result<Held<FailingPurges>, Fail> {
    open(rt, store_of(rt, writes))
}

fn call_of(rt: &HostRuntime, call: Call) -> Result<MasterCall, Fail> {
    Ok(match call {
        Call::Issue(url) => MasterCall::Issue(key_of(rt.alloc(), url.as_bytes())?),
        Call::Admit(id) => MasterCall::Admit(id),
        Call::Acknowledge(member, trans, code) => MasterCall::Acknowledge {
            member,
            trans,
            code,
        },
        Call::Due => MasterCall::Due,
        Call::Status(number) => MasterCall::Status(number),
    })
}

/// What is due, in words.
fn write_due(text: &mut String, pairs: &[(u32, u8)]) -> Result<(), Fail> {
    write!(text, "due")?;
    for (number, id) in pairs {
        write!(text, " {number}:{id}")?;
    }
    Ok(())
}

fn write_status(text: &mut String, status: &Status) -> Result<(), Fail> {
    match status {
        Status::Unknown => write!(text, "unknown")?,
        Status::Pending(missing) => write!(text, "misses {missing}")?,
        Status::Done => write!(text, "done")?,
    }
    Ok(())
}

fn write_answer(text: &mut String, answer: &MasterAnswer) -> Result<(), Fail> {
    match answer {
        MasterAnswer::Issue(number) => write!(text, "issued {number}")?,
        MasterAnswer::Admit(number) => write!(text, "admitted {number}")?,
        MasterAnswer::Acknowledge(Some(number)) => write!(text, "done {number}")?,
        MasterAnswer::Acknowledge(None) => write!(text, "none done")?,
        MasterAnswer::Due(pairs) => write_due(text, pairs.as_slice())?,
        MasterAnswer::Status(status) => write_status(text, status)?,
    }
    Ok(())
}

/// What a call is answered, in words.
fn show(rt: &HostRuntime, answer: &Result<MasterAnswer, MasterFault>) -> Result<String, Fail> {
    let mut text = String::new(rt.alloc());
    match answer {
        Ok(answer) => write_answer(&mut text, answer)?,
        Err(fault) => text.push_str(fault.name())?,
    }
    Ok(text)
}

/// Fails with the place and these words where something does not hold.
fn want_at(holds: bool, place: u64, words: &str) -> Result<(), Fail> {
    if holds {
        Ok(())
    } else {
        Err(Fail::new(format_args!("{place}: {words}")))
    }
}

/// A call is answered as expected.
fn check_call<S: PurgeStore>(
    rt: &HostRuntime,
    book: &mut MasterBook<S>,
    place: u64,
    call: Call,
    expected: &str,
) -> Result<(), Fail> {
    let answer = book.call(place, call_of(rt, call)?);
    let shown = show(rt, &answer)?;
    want_at(shown.as_str() == expected, place, shown.as_str())
}

/// The last entry of the book is of this place and this answer.
fn check_entry<S: PurgeStore>(
    rt: &HostRuntime,
    book: &MasterBook<S>,
    place: u64,
    expected: &str,
) -> Result<(), Fail> {
    let Some(entry) = book.entries().last() else {
        return Err("an entry".into());
    };
    want_at(entry.place == place, place, "the place of its entry")?;
    let entered = show(rt, &entry.answer)?;
    want_at(entered.as_str() == expected, place, entered.as_str())
}

/// Each call of a table, from place 1 on, is answered and entered in the book as expected, and
/// nothing else is entered.
fn check<S: PurgeStore>(
    rt: &HostRuntime,
    book: &mut MasterBook<S>,
    table: &[(Call, &str)],
) -> Result<(), Fail> {
    let before = book.entries().len();
    let mut place = 0u64;
    for (call, expected) in table {
        place = u64::saturating_add(place, 1);
        check_call(rt, book, place, *call, expected)?;
        check_entry(rt, book, place, expected)?;
    }
    let wanted = usize::saturating_add(before, table.len());
    want(book.entries().len() == wanted, "as many entries as calls")
}

/// The TRANS-ID of a message and the number that its header line of this kind tells.
fn told(message: &Htcp, kind: HeaderKind) -> Option<(u32, u32)> {
    let Content::ClrAsk { spec, .. } = &message.content else {
        return None;
    };
    match number_in(spec.request_headers.as_slice(), kind) {
        Ok(Some(number)) => Some((message.trans, number)),
        _ => None,
    }
}

/// The same of the message of a pending number.
fn sent_as<S: PurgeStore>(
    book: &MasterBook<S>,
    number: u32,
    kind: HeaderKind,
) -> Result<Option<(u32, u32)>, Fail> {
    match book.message(number)? {
        Some(message) => Ok(told(&message, kind)),
        None => Ok(None),
    }
}

/// The same of the message of a pending purge.
fn sent<S: PurgeStore>(book: &MasterBook<S>, number: u32) -> Result<Option<(u32, u32)>, Fail> {
    sent_as(book, number, HeaderKind::PurgeNumber)
}

/// A purge, from its issue until both members have acknowledged it.
const TO_DONE: [(Call, &str); 20] = [
    (Call::Issue("http://o/a"), "issued 1"),
    (Call::Status(1), "misses 2"),
    (Call::Due, "due 1:1 1:2"),
    (Call::Acknowledge(1, 1, 2), "none done"),
    (Call::Acknowledge(1, 1, 2), "none done"),
    (Call::Acknowledge(2, 1, 1), "none done"),
    (Call::Acknowledge(3, 1, 0), "none done"),
    (Call::Acknowledge(0, 1, 0), "none done"),
    (Call::Acknowledge(101, 1, 0), "none done"),
    (Call::Acknowledge(2, 2, 0), "none done"),
    (Call::Acknowledge(2, 65537, 0), "none done"),
    (Call::Acknowledge(2, 1, 3), "none done"),
    (Call::Due, "due 1:2"),
    (Call::Status(1), "misses 1"),
    (Call::Acknowledge(2, 1, 0), "done 1"),
    (Call::Acknowledge(2, 1, 0), "none done"),
    (Call::Due, "due"),
    (Call::Status(1), "done"),
    (Call::Status(0), "unknown"),
    (Call::Status(2), "unknown"),
];

#[test]
fn a_purge_is_done_once_all_have_acknowledged_it(rt: HostRuntime) -> Result<(), Fail> {
    let mut held = in_memory(&rt)?;
    check(&rt, &mut held.book, &TO_DONE)?;
    assert_eq!(rt; held.book.entries().len(), 20);
    assert_eq!(rt; sent(&held.book, 1)?, None);
    Ok(())
}

/// An admission between two purges: member 1 is founding, and member 2 joins. The first purge needs
/// member 1, the admission member 2, the second purge both.
const ADMITTED: [(Call, &str); 26] = [
    (Call::Admit(1), "NotJoining"),
    (Call::Admit(3), "NotJoining"),
    (Call::Admit(0), "NotJoining"),
    (Call::Issue("http://o/a"), "issued 1"),
    (Call::Status(1), "misses 1"),
    (Call::Due, "due 1:1"),
    (Call::Admit(2), "admitted 2"),
    (Call::Admit(2), "NotJoining"),
    (Call::Issue("http://o/a"), "issued 3"),
    (Call::Status(1), "misses 1"),
    (Call::Status(2), "misses 1"),
    (Call::Status(3), "misses 2"),
    (Call::Due, "due 1:1 2:2 3:1 3:2"),
    (Call::Acknowledge(2, 1, 0), "none done"),
    (Call::Acknowledge(1, 2, 0), "none done"),
    (Call::Acknowledge(2, 2, 1), "none done"),
    (Call::Due, "due 1:1 2:2 3:1 3:2"),
    (Call::Acknowledge(2, 3, 0), "none done"),
    (Call::Acknowledge(2, 2, 2), "done 2"),
    (Call::Acknowledge(2, 2, 2), "none done"),
    (Call::Due, "due 1:1 3:1"),
    (Call::Acknowledge(1, 1, 0), "done 1"),
    (Call::Acknowledge(1, 3, 0), "done 3"),
    (Call::Status(2), "done"),
    (Call::Admit(2), "NotJoining"),
    (Call::Due, "due"),
];

/// The same up to its first acknowledgement, in a master that is opened again behind it.
const ADMITTED_BEFORE: [(Call, &str); 3] = [
    (Call::Issue("http://o/a"), "issued 1"),
    (Call::Admit(2), "admitted 2"),
    (Call::Issue("http://o/a"), "issued 3"),
];

#[test]
fn an_admission_needs_its_member(rt: HostRuntime) -> Result<(), Fail> {
    let mut held = open_at(&rt, JOINING, MemoryPurges::new(rt.alloc()))?;
    check(&rt, &mut held.book, &ADMITTED)?;
    let mut held = open_at(&rt, JOINING, MemoryPurges::new(rt.alloc()))?;
    check(&rt, &mut held.book, &ADMITTED_BEFORE)?;
    let base = sent_as(&held.book, 2, HeaderKind::PurgeBase)?;
    assert_eq!(rt; (base, sent(&held.book, 2)?), (Some((2, 2)), None));
    let Held { book } = held;
    let mut held = open_at(&rt, JOINING, book.into_master().into_store())?;
    check(&rt, &mut held.book, &[(Call::Due, "due 1:1 2:2 3:1 3:2")])
}

/// Two purges, of which the first is done.
const BEFORE_RESTART: [(Call, &str); 5] = [
    (Call::Issue("http://o/a"), "issued 1"),
    (Call::Issue("http://o/b"), "issued 2"),
    (Call::Acknowledge(2, 2, 0), "none done"),
    (Call::Acknowledge(2, 1, 0), "none done"),
    (Call::Acknowledge(1, 1, 2), "done 1"),
];

/// What goes on after that in a master that is opened again.
const AFTER_RESTART: [(Call, &str); 5] = [
    (Call::Due, "due 2:1"),
    (Call::Status(1), "done"),
    (Call::Issue("http://o/a"), "issued 3"),
    (Call::Acknowledge(1, 2, 0), "done 2"),
    (Call::Due, "due 3:1 3:2"),
];

/// Whether a master is closed, how far its second purge is, and the master that is opened over its
/// store again.
fn opened_again(
    rt: &HostRuntime,
    held: Held<MemoryPurges>,
) -> Result<(bool, Status, Held<MemoryPurges>), Fail> {
    let Held { book } = held;
    let master = book.into_master();
    let (is_closed, status) = (master.is_closed(), master.status(2));
    Ok((is_closed, status, open(rt, master.into_store())?))
}

#[test]
fn a_restart_keeps_numbers_and_marks(rt: HostRuntime) -> Result<(), Fail> {
    let mut held = in_memory(&rt)?;
    check(&rt, &mut held.book, &BEFORE_RESTART)?;
    let (is_closed, status, mut held) = opened_again(&rt, held)?;
    assert!(rt; !is_closed && status == Status::Pending(1));
    check(&rt, &mut held.book, &AFTER_RESTART)?;
    assert_eq!(rt; sent(&held.book, 3)?, Some((3, 3)));
    Ok(())
}

/// Calls where the greatest number has been given.
const LAST_NUMBER: [(Call, &str); 7] = [
    (Call::Issue("http://o/a"), "NumbersSpent"),
    (Call::Acknowledge(1, 65535, 0), "none done"),
    (Call::Due, "due 4294967295:1 4294967295:2"),
    (Call::Acknowledge(1, 4294967295, 0), "none done"),
    (Call::Acknowledge(2, 4294967295, 0), "done 4294967295"),
    (Call::Issue("http://o/a"), "NumbersSpent"),
    (Call::Status(4294967295), "done"),
];

/// Purges of which the greatest number is pending.
fn spent(rt: &HostRuntime) -> Result<MemoryPurges, Fail> {
    let key = key_of(rt.alloc(), b"http://o/a")?;
    let mut store = MemoryPurges::new(rt.alloc());
    store.add(rt.alloc(), 4294967295, &key)?;
    Ok(store)
}

#[test]
fn no_number_follows_the_last(rt: HostRuntime) -> Result<(), Fail> {
    let mut held = open(&rt, spent(&rt)?)?;
    check(&rt, &mut held.book, &LAST_NUMBER)
}

/// Calls where 1,024 purges are pending.
const FULL: [(Call, &str); 7] = [
    (Call::Issue("http://o/a"), "TooManyPending"),
    (Call::Acknowledge(1, 700, 0), "none done"),
    (Call::Acknowledge(2, 700, 0), "done 700"),
    (Call::Issue("http://o/a"), "issued 1025"),
    (Call::Issue("http://o/a"), "TooManyPending"),
    (Call::Status(700), "done"),
    (Call::Status(1025), "misses 2"),
];

/// Issues 1,024 purges, each of which is answered.
fn issue_1024<S: PurgeStore>(rt: &HostRuntime, book: &mut MasterBook<S>) -> Result<(), Fail> {
    for _ in 0..1024 {
        let call = call_of(rt, Call::Issue("http://o/a"))?;
        let is_ok = book.call(0, call).is_ok();
        want(is_ok, "a purge")?;
    }
    Ok(())
}

#[test]
fn at_most_1024_are_pending(rt: HostRuntime) -> Result<(), Fail> {
    let mut held = in_memory(&rt)?;
    issue_1024(&rt, &mut held.book)?;
    check(&rt, &mut held.book, &FULL)
}

/// An admission over a store that fails at its first write.
const ADMISSION_FAILS: [(Call, &str); 3] = [
    (Call::Admit(2), "StoreFault"),
    (Call::Admit(2), "Closed"),
    (Call::Status(1), "unknown"),
];

/// Calls over a store that fails at its first write.
const FAILS_AT_ONCE: [(Call, &str); 5] = [
    (Call::Issue("http://o/a"), "StoreFault"),
    (Call::Issue("http://o/a"), "Closed"),
    (Call::Acknowledge(1, 1, 0), "Closed"),
    (Call::Due, "Closed"),
    (Call::Status(1), "unknown"),
];

/// Whether a master is closed, and how many calls of its store have failed.
fn ended(held: Held<FailingPurges>) -> (bool, u64) {
    let Held { book } = held;
    let master = book.into_master();
    let is_closed = master.is_closed();
    (is_closed, master.into_store().failures())
}

#[test]
fn a_fault_of_the_store_closes(rt: HostRuntime) -> Result<(), Fail> {
    let mut held = failing(&rt, 0)?;
    check(&rt, &mut held.book, &FAILS_AT_ONCE)?;
    assert_eq!(rt; sent(&held.book, 1)?, None);
    assert_eq!(rt; ended(held), (true, 1));
    let mut held = open_at(&rt, JOINING, store_of(&rt, 0))?;
    check(&rt, &mut held.book, &ADMISSION_FAILS)?;
    assert_eq!(rt; ended(held), (true, 1));
    Ok(())
}

/// Calls over a store that fails at its third write.
const FAILS_LATER: [(Call, &str); 6] = [
    (Call::Issue("http://o/a"), "issued 1"),
    (Call::Acknowledge(1, 1, 0), "none done"),
    (Call::Acknowledge(1, 1, 0), "none done"),
    (Call::Acknowledge(2, 1, 0), "StoreFault"),
    (Call::Acknowledge(2, 1, 0), "Closed"),
    (Call::Status(1), "misses 1"),
];

#[test]
fn a_later_fault_of_the_store_closes(rt: HostRuntime) -> Result<(), Fail> {
    let mut held = failing(&rt, 2)?;
    check(&rt, &mut held.book, &FAILS_LATER)?;
    assert_eq!(rt; sent(&held.book, 1)?, Some((1, 1)));
    Ok(())
}

/// Makes 4,095 calls more, each of which is answered.
fn fill<S: PurgeStore>(book: &mut MasterBook<S>) -> Result<(), Fail> {
    for _ in 0..4095 {
        let is_ok = book.call(0, MasterCall::Status(1)).is_ok();
        want(is_ok, "a status")?;
    }
    Ok(())
}

/// Calls of a full book, each of them refused; the purge of before has its message.
fn check_full<S: PurgeStore>(rt: &HostRuntime, book: &mut MasterBook<S>) -> Result<(), Fail> {
    check_call(rt, book, 9, Call::Issue("http://o/a"), "ShiftFull")?;
    check_call(rt, book, 9, Call::Status(1), "ShiftFull")?;
    want(book.entries().len() == 4096, "4,096 entries")?;
    want(sent(book, 1)? == Some((1, 1)), "the message of a purge")
}

#[test]
fn a_book_of_4096_entries_is_full(rt: HostRuntime) -> Result<(), Fail> {
    let mut held = in_memory(&rt)?;
    check(
        &rt,
        &mut held.book,
        &[(Call::Issue("http://o/a"), "issued 1")],
    )?;
    fill(&mut held.book)?;
    check_full(&rt, &mut held.book)?;
    let taken = held.book.take_entries().len();
    assert_eq!(rt; (taken, held.book.entries().len()), (4096, 0));
    check(
        &rt,
        &mut held.book,
        &[(Call::Issue("http://o/b"), "issued 2")],
    )
}
