//! Floors by themselves, in a file with an open transaction, and in files that stop.
mod full;
mod stops;

use crate::disks::{FORM, VERSION, made_by};
use floor_rules::{FloorFault, FloorStore, Floors, MemoryFloors};
use purge_numbers::SqliteFloors;
use sqlite::{Connection, MemStore};
use std::alloc::Global;
use std::test::Fail;
use tests_kit::want;
use url_key::Key;

/// Raises the key's number, which is at least 1.
fn raise_key<F: FloorStore>(
    store: &mut F,
    alloc: Global,
    key: &Key,
    number: u32,
) -> Result<Result<(), FloorFault>, Fail> {
    if number == 0 {
        return Err("a number of at least 1".into());
    }
    Ok(store.raise(alloc, key, number))
}

/// Raises the URL's number, which is at least 1.
fn raise<F: FloorStore>(
    store: &mut F,
    alloc: Global,
    url: &str,
    number: u32,
) -> Result<Result<(), FloorFault>, Fail> {
    raise_key(store, alloc, &Key::read(alloc, url.as_bytes())?, number)
}

/// Raises the base, to a number of at least 1.
fn raise_base<F: FloorStore>(store: &mut F, number: u32) -> Result<Result<(), FloorFault>, Fail> {
    if number == 0 {
        return Err("a number of at least 1".into());
    }
    Ok(store.raise_base(number))
}

fn loaded<F: FloorStore>(store: &mut F, alloc: Global) -> Result<Floors, Fail> {
    match store.load(alloc) {
        Ok(floors) => Ok(floors),
        Err(fault) => Err(fault.name().into()),
    }
}

fn floor(floors: &Floors, alloc: Global, url: &str) -> Result<u32, Fail> {
    Ok(floors.floor(&Key::read(alloc, url.as_bytes())?))
}

/// The numbers of `http://a/`, `http://b/` and `http://c/`, the greatest of all, and how many there
/// are.
type Told = ([u32; 3], u32, usize);

fn told(floors: &Floors, alloc: Global) -> Result<Told, Fail> {
    let a = floor(floors, alloc, "HTTP://A")?;
    let b = floor(floors, alloc, "http://b/")?;
    let c = floor(floors, alloc, "http://c/")?;
    Ok(([a, b, c], floors.seen(), floors.rows()))
}

/// Raises the key's number in floors by themselves.
fn raise_in(floors: &mut Floors, alloc: Global, url: &str, number: u32) -> Result<(), Fail> {
    if number == 0 {
        return Err("a number of at least 1".into());
    }
    Ok(floors.raise(alloc, &Key::read(alloc, url.as_bytes())?, number)?)
}

/// What is wrong with floors that rose to 9 and 5 since their copy was made at 7.
fn flaw(floors: &Floors, copy: &Floors, alloc: Global) -> Result<Option<&'static str>, Fail> {
    if told(floors, alloc)? != ([9, 5, 0], 9, 2) {
        return Ok(Some("the floors"));
    }
    if told(copy, alloc)? != ([7, 0, 0], 7, 1) {
        return Ok(Some("the copy"));
    }
    if floors.same(copy) || copy.same(floors) {
        return Ok(Some("the same as the copy"));
    }
    if !floors.same(&floors.copy()?) {
        return Ok(Some("another than a new copy"));
    }
    Ok(None)
}

#[test]
fn floors_by_themselves(rt: HostRuntime) -> Result<(), Fail> {
    let mut floors = Floors::new(rt.alloc());
    raise_in(&mut floors, rt.alloc(), "http://a/", 7)?;
    let copy = floors.copy()?;
    for (url, number) in [("http://a/", 3), ("http://b/", 5), ("http://a/", 9)] {
        raise_in(&mut floors, rt.alloc(), url, number)?;
    }
    assert_eq!(rt; flaw(&floors, &copy, rt.alloc())?, None);
    Ok(())
}

/// A raise of the base, and what is told then.
type Raised = (u32, Told);

/// Over the floors 3 and 5: a base that is less than one floor or both is one for all other keys; a
/// lesser one changes nothing; a base above both is the floor of all, and their rows stay.
const BASES: [Raised; 4] = [
    (2, ([3, 5, 2], 5, 2)),
    (4, ([4, 5, 4], 5, 2)),
    (1, ([4, 5, 4], 5, 2)),
    (9, ([9, 9, 9], 9, 2)),
];

/// The first raise of the base after which something else is told.
fn wrong_base<F: FloorStore>(store: &mut F, alloc: Global) -> Result<Option<u32>, Fail> {
    for (url, number) in [("http://a/", 3), ("http://b/", 5)] {
        want(raise(store, alloc, url, number)? == Ok(()), "a raise")?;
    }
    for (number, wanted) in BASES {
        let went = raise_base(store, number)? == Ok(());
        if !went || told(&loaded(store, alloc)?, alloc)? != wanted {
            return Ok(Some(number));
        }
    }
    Ok(None)
}

#[test]
fn a_base_that_rises_in_memory(rt: HostRuntime) -> Result<(), Fail> {
    let mut store = MemoryFloors::new(rt.alloc());
    assert_eq!(rt; wrong_base(&mut store, rt.alloc())?, None);
    Ok(())
}

/// What is told of a file in which the base rose so, when it is opened again.
fn told_again(alloc: Global, conn: Connection<MemStore>) -> Result<Told, Fail> {
    match SqliteFloors::open(alloc, conn) {
        Ok(mut store) => told(&loaded(&mut store, alloc)?, alloc),
        Err((_, fault)) => Err(fault.name())?,
    }
}

/// The connection of a file in which the base rose so.
fn rebased(alloc: Global) -> Result<Connection<MemStore>, Fail> {
    match SqliteFloors::open(alloc, Connection::open_in_memory(alloc)?) {
        Ok(mut store) => {
            want(wrong_base(&mut store, alloc)?.is_none(), "the bases")?;
            Ok(store.into_connection())
        }
        Err((_, fault)) => Err(fault.name())?,
    }
}

#[test]
fn a_base_that_rises_in_a_file(rt: HostRuntime) -> Result<(), Fail> {
    let found = told_again(rt.alloc(), rebased(rt.alloc())?)?;
    assert_eq!(rt; found, ([9, 9, 9], 9, 2));
    Ok(())
}

const FAULTS: [(FloorFault, &str); 3] = [
    (FloorFault::StoreFault, "StoreFault"),
    (FloorFault::BadTable, "BadTable"),
    (FloorFault::NoMemory, "NoMemory"),
];

#[test]
fn faults_are_told_by_name(rt: HostRuntime) -> Result<(), Fail> {
    for (fault, wanted) in FAULTS {
        assert!(rt; fault.name() == wanted);
    }
    Ok(())
}

const FLOORS: &str =
    "CREATE TABLE floors (url TEXT PRIMARY KEY NOT NULL, number INTEGER NOT NULL CHECK (number >= 1 AND number <= 4294967295)) STRICT";

/// How an open of a file is refused that these statements made.
fn refusal_of(alloc: Global, statements: &[&str]) -> Result<Option<FloorFault>, Fail> {
    match SqliteFloors::open(alloc, made_by(alloc, statements)?) {
        Ok(_) => Ok(None),
        Err((_, fault)) => Ok(Some(fault)),
    }
}

#[test]
fn a_file_in_a_transaction_is_refused(rt: HostRuntime) -> Result<(), Fail> {
    let refusal = refusal_of(rt.alloc(), &[FORM, FLOORS, VERSION, "BEGIN"])?;
    assert_eq!(rt; refusal, Some(FloorFault::BadTable));
    Ok(())
}
