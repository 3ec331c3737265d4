//! A master's purges and admissions in files: purges beside one another, admissions among them, a
//! file of form 1, a file with an open transaction, and files that stop.
mod stops;

use crate::calls::{add, admission_at, admit, counts, is_marked, loaded, mark};
use crate::disks::{FORM, VERSION, made_by};
use purge_records::SqlitePurges;
use purge_rules::{Admission, PurgeFault, PurgeStore};
use sqlite::{Connection, MemStore};
use std::alloc::Global;
use std::test::Fail;
use tests_kit::want;

type Stored = SqlitePurges<MemStore>;

/// A store that is dropped as one value.
#[derive(Drop)]
struct Held {
    store: Stored,
}

fn opened_over(alloc: Global, conn: Connection<MemStore>) -> Result<Held, Fail> {
    match SqlitePurges::open(alloc, conn) {
        Ok(store) => Ok(Held { store }),
        Err((_, fault)) => Err(fault.name())?,
    }
}

fn in_memory(alloc: Global) -> Result<Held, Fail> {
    opened_over(alloc, Connection::open_in_memory(alloc)?)
}

/// A call that is answered Ok.
#[derive(Clone, Copy)]
enum Call {
    /// A purge is added under this number, of this URL.
    Add(u32, &'static str),
    /// This member is admitted under this number.
    Admit(u32, u8),
    /// The purge of this number is marked by this member.
    Mark(u32, u8),
    /// The purge of this number is finished, or the admission.
    Finish(u32),
}

fn make<P: PurgeStore>(store: &mut P, alloc: Global, call: Call) -> Result<(), Fail> {
    match call {
        Call::Add(number, url) => want(add(store, alloc, number, url)? == Ok(()), "added"),
        Call::Admit(number, member) => {
            want(admit(store, alloc, number, member)? == Ok(()), "admitted")
        }
        Call::Mark(number, member) => want(mark(store, alloc, number, member)? == Ok(()), "marked"),
        Call::Finish(number) => want(store.finish(alloc, number) == Ok(()), "finished"),
    }
}

fn make_all<P: PurgeStore>(store: &mut P, alloc: Global, calls: &[Call]) -> Result<(), Fail> {
    for call in calls {
        make(store, alloc, *call)?;
    }
    Ok(())
}

/// A store that is opened again after these calls.
fn again(alloc: Global, held: Held, calls: &[Call]) -> Result<Held, Fail> {
    let mut held = held;
    make_all(&mut held.store, alloc, calls)?;
    let Held { store } = held;
    opened_over(alloc, store.into_connection())
}

/// Three purges of two URLs, marked across one another, the second of them finished.
const THREE_PURGES: [Call; 9] = [
    Call::Add(1, "http://a/"),
    Call::Add(2, "http://b/"),
    Call::Add(7, "http://a/"),
    Call::Mark(2, 16),
    Call::Mark(7, 3),
    Call::Mark(1, 16),
    Call::Mark(2, 3),
    Call::Mark(7, 16),
    Call::Finish(2),
];

/// Whether a purge is marked by the first member and not by the second.
const MARKS: [(u32, &str, u8, u8, bool); 4] = [
    (1, "http://a/", 16, 3, true),
    (7, "http://a/", 3, 2, true),
    (7, "http://a/", 16, 1, true),
    (2, "http://b/", 16, 1, false),
];

/// The first number and member of which that is not so.
fn wrong_mark<P: PurgeStore>(store: &mut P, alloc: Global) -> Result<Option<(u32, u8)>, Fail> {
    for (number, url, by, not_by, expected) in MARKS {
        if is_marked(store, alloc, number, url, by, not_by)? != expected {
            return Ok(Some((number, by)));
        }
    }
    Ok(None)
}

/// What is wrong with these purges.
fn flaw<P: PurgeStore>(store: &mut P, alloc: Global) -> Result<Option<&'static str>, Fail> {
    if counts(store, alloc)? != (7, 2) {
        return Ok(Some("the last number, and how many are pending"));
    }
    if wrong_mark(store, alloc)?.is_some() {
        return Ok(Some("who has acknowledged them"));
    }
    if store.failures() != 0 {
        return Ok(Some("a failure"));
    }
    Ok(None)
}

/// A purge that is not there is finished too, which changes nothing.
#[test]
fn purges_beside_one_another(rt: HostRuntime) -> Result<(), Fail> {
    let alloc = rt.alloc();
    let mut held = again(alloc, in_memory(alloc)?, &THREE_PURGES)?;
    assert_eq!(rt; flaw(&mut held.store, alloc)?, None);
    let mut held = again(alloc, held, &[Call::Finish(2), Call::Finish(8)])?;
    assert_eq!(rt; flaw(&mut held.store, alloc)?, None);
    Ok(())
}

/// Two admissions among purges; the first is finished, and so is the purge behind it.
const TWO_ADMISSIONS: [Call; 7] = [
    Call::Add(1, "http://a/"),
    Call::Admit(2, 9),
    Call::Add(3, "http://b/"),
    Call::Admit(5, 1),
    Call::Mark(1, 2),
    Call::Finish(2),
    Call::Finish(3),
];

/// What stands of them: by number, and so not by member.
const ADMISSIONS: [Admission; 2] = [
    Admission {
        member: 9,
        number: 2,
        is_done: true,
    },
    Admission {
        member: 1,
        number: 5,
        is_done: false,
    },
];

/// The first place at which another admission stands, or one too many.
fn wrong_admission<P: PurgeStore>(store: &mut P, alloc: Global) -> Result<Option<usize>, Fail> {
    let purges = loaded(store, alloc)?;
    for (place, wanted) in ADMISSIONS.iter().enumerate() {
        if admission_at(&purges, place) != Some(*wanted) {
            return Ok(Some(place));
        }
    }
    if admission_at(&purges, 2).is_some() {
        return Ok(Some(2));
    }
    Ok(None)
}

/// A number that nothing has is finished too, which changes nothing.
#[test]
fn admissions_beside_purges(rt: HostRuntime) -> Result<(), Fail> {
    let alloc = rt.alloc();
    let mut held = again(alloc, in_memory(alloc)?, &TWO_ADMISSIONS)?;
    assert_eq!(rt; wrong_admission(&mut held.store, alloc)?, None);
    assert_eq!(rt; counts(&mut held.store, alloc)?, (5, 1));
    let mut held = again(alloc, held, &[Call::Finish(2), Call::Finish(4)])?;
    assert_eq!(rt; wrong_admission(&mut held.store, alloc)?, None);
    Ok(())
}

const LAST: &str =
    "CREATE TABLE last (id INTEGER PRIMARY KEY CHECK (id = 1), number INTEGER NOT NULL) STRICT";

const NINE: &str = "INSERT INTO last VALUES (1, 9)";

const PENDING: &str = "CREATE TABLE pending (number INTEGER PRIMARY KEY, url TEXT NOT NULL) STRICT";

const ACKS: &str =
    "CREATE TABLE acks (number INTEGER NOT NULL, member INTEGER NOT NULL, PRIMARY KEY (number, member)) STRICT";

/// How an open of a file is refused that these statements made.
fn refusal_of(alloc: Global, statements: &[&str]) -> Result<Option<PurgeFault>, Fail> {
    match SqlitePurges::open(alloc, made_by(alloc, statements)?) {
        Ok(_) => Ok(None),
        Err((_, fault)) => Ok(Some(fault)),
    }
}

const ADMITTED: &str =
    "CREATE TABLE admitted (member INTEGER PRIMARY KEY CHECK (member >= 1 AND member <= 16), number INTEGER NOT NULL UNIQUE, done INTEGER NOT NULL CHECK (done = 0 OR done = 1)) STRICT";

const VERSION_TWO: &str = "INSERT INTO form VALUES (2)";

/// Rows of `admitted` beside the last number 9 and a purge of the number 4, and how a file with
/// them is refused.
const ROWS: [(&str, Option<PurgeFault>); 5] = [
    ("INSERT INTO admitted VALUES (16, 9, 1), (1, 1, 0)", None),
    (
        "INSERT INTO admitted VALUES (3, 10, 0)",
        Some(PurgeFault::BadTable),
    ),
    (
        "INSERT INTO admitted VALUES (3, 4, 0)",
        Some(PurgeFault::BadTable),
    ),
    (
        "INSERT INTO admitted VALUES (3, 0, 0)",
        Some(PurgeFault::BadTable),
    ),
    (
        "INSERT INTO admitted VALUES (3, -1, 1)",
        Some(PurgeFault::BadTable),
    ),
];

const FOUR: &str = "INSERT INTO pending VALUES (4, 'http://a/')";

#[test]
fn rows_of_admissions(rt: HostRuntime) -> Result<(), Fail> {
    for (row, expected) in ROWS {
        let statements = [
            FORM,
            LAST,
            PENDING,
            ACKS,
            ADMITTED,
            VERSION_TWO,
            NINE,
            FOUR,
            row,
        ];
        let refusal = refusal_of(rt.alloc(), &statements)?;
        assert_eq!(rt; refusal, expected, "{row}");
    }
    Ok(())
}

/// Versions beside the tables of form 1, with `admitted` or without it, that do not open.
const OTHER_FORMS: [(&str, &str); 3] = [
    (VERSION, ADMITTED),
    (VERSION_TWO, NINE),
    ("INSERT INTO form VALUES (3)", ADMITTED),
];

#[test]
fn other_versions_are_refused(rt: HostRuntime) -> Result<(), Fail> {
    for (version, more) in OTHER_FORMS {
        let refusal = refusal_of(rt.alloc(), &[FORM, LAST, PENDING, ACKS, version, more])?;
        assert_eq!(rt; refusal, Some(PurgeFault::BadTable), "{version}");
    }
    Ok(())
}

#[test]
fn a_file_in_a_transaction_is_refused(rt: HostRuntime) -> Result<(), Fail> {
    let statements = [FORM, LAST, PENDING, ACKS, VERSION, NINE, "BEGIN"];
    let refusal = refusal_of(rt.alloc(), &statements)?;
    assert_eq!(rt; refusal, Some(PurgeFault::BadTable));
    Ok(())
}
