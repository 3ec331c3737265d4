//! Raises of keys and of the base over files that stop after so many calls, and files of form 1
//! that stop as they are brought to form 2.
//!
//! What is done with a store is written for any store below it: a proof then speaks of none in
//! particular.
use super::{FLOORS, floor, loaded, raise, raise_base};
use crate::disks::{Disks, FORM, VERSION, closed, connected, crashed, files, stopping};
use floor_rules::{FloorFault, FloorStore};
use purge_numbers::SqliteFloors;
use sqlite::{Alter, Connection, Files};
use sqlite_disk::{Disk, Memory};
use std::alloc::Global;
use std::test::Fail;
use tests_kit::want;

/// The floors of a connection, or what is left below it.
fn stored<S: Alter + Drop>(alloc: Global, conn: Connection<S>) -> Result<SqliteFloors<S>, S> {
    match SqliteFloors::open(alloc, conn) {
        Ok(store) => Ok(store),
        Err((conn, _)) => Err(conn.into_store()),
    }
}

/// The connection of a store that opens.
fn opened<S: Alter + Drop>(alloc: Global, conn: Connection<S>) -> Result<Connection<S>, Fail> {
    match stored(alloc, conn) {
        Ok(store) => Ok(store.into_connection()),
        Err(_) => Err("first open".into()),
    }
}

/// The files of a store that is opened and closed.
fn made<D: Disk + Drop>(alloc: Global, files: Files<D>) -> Result<Files<D>, Fail> {
    match connected(alloc, files) {
        Ok(conn) => closed(opened(alloc, conn)?),
        Err(_) => Err("first files".into()),
    }
}

/// A file with its tables and no floor.
fn first_files(alloc: Global) -> Result<Files<Disks>, Fail> {
    let new = files(Memory::new(alloc), Memory::new(alloc), u64::MAX, u64::MAX);
    made(alloc, new)
}

/// Files whose tables these statements make.
fn made_by<D: Disk + Drop>(
    alloc: Global,
    files: Files<D>,
    statements: &[&str],
) -> Result<Files<D>, Fail> {
    match connected(alloc, files) {
        Ok(conn) => closed(run(conn, statements)?),
        Err(_) => Err("first files".into()),
    }
}

/// The connection after these statements.
fn run<S: Alter + Drop>(
    mut conn: Connection<S>,
    statements: &[&str],
) -> Result<Connection<S>, Fail> {
    for statement in statements {
        conn.execute_batch(statement)?;
    }
    Ok(conn)
}

/// A file of form 1 with two floors.
fn older_files(alloc: Global) -> Result<Files<Disks>, Fail> {
    let new = files(Memory::new(alloc), Memory::new(alloc), u64::MAX, u64::MAX);
    made_by(alloc, new, &[FORM, FLOORS, VERSION, TWO_ROWS])
}

const TWO_ROWS: &str = "INSERT INTO floors VALUES ('http://a/', 3), ('http://b/', 5)";

/// The connection after all rows of a full table were added, in one transaction.
fn filled<S: Alter + Drop>(alloc: Global, mut conn: Connection<S>) -> Result<Connection<S>, Fail> {
    conn.execute_batch("BEGIN")?;
    for key in 1..=65_536u32 {
        let row = format!(in alloc; "INSERT INTO floors VALUES ('http://o/{key}', {key})")?;
        conn.execute_batch(row.as_str())?;
    }
    conn.execute_batch("COMMIT")?;
    Ok(conn)
}

/// A file with 65,536 floors, of the numbers 1 to 65,536.
fn full_files(alloc: Global) -> Result<Files<Disks>, Fail> {
    match connected(alloc, first_files(alloc)?) {
        Ok(conn) => closed(filled(alloc, conn)?),
        Err(_) => Err("full files".into()),
    }
}

/// Raises `http://a/` to this number, and answers whether that was answered Ok. A store that failed
/// fails from then on.
fn raised<F: FloorStore>(store: &mut F, alloc: Global, number: u32) -> Result<bool, Fail> {
    let done = raise(store, alloc, "http://a/", number)?;
    if done == Ok(()) {
        return Ok(true);
    }
    want(done == Err(FloorFault::StoreFault), "a store fault")?;
    want(store.failures() == 1, "one failure")?;
    let later = raise(store, alloc, "http://a/", number)?;
    want(later == Err(FloorFault::StoreFault), "a store fault again")?;
    want(store.failures() == 2, "two failures")?;
    Ok(false)
}

/// A file of form 2 with two floors.
fn two_files(alloc: Global) -> Result<Files<Disks>, Fail> {
    made_by(alloc, first_files(alloc)?, &[TWO_ROWS])
}

/// The same of the base.
fn rebased<F: FloorStore>(store: &mut F, number: u32) -> Result<bool, Fail> {
    if raise_base(store, number)? == Ok(()) {
        return Ok(true);
    }
    want(store.failures() == 1, "one failure")?;
    let later = raise_base(store, number)?;
    want(later == Err(FloorFault::StoreFault), "a store fault again")?;
    want(store.failures() == 2, "two failures")?;
    Ok(false)
}

/// What is done with a store that opens.
#[derive(Clone, Copy)]
enum Doing {
    /// It is opened, and no more.
    Open,
    /// `http://a/` is raised to this number.
    Raise(u32),
    /// The base is raised to this number.
    RaiseBase(u32),
}

/// Does that with a store that has opened, and answers whether it went and what is left below the
/// store.
fn done<S: Alter + Drop>(
    alloc: Global,
    mut store: SqliteFloors<S>,
    doing: Doing,
) -> Result<(bool, S), Fail> {
    let went = match doing {
        Doing::Open => true,
        Doing::Raise(number) => raised(&mut store, alloc, number)?,
        Doing::RaiseBase(number) => rebased(&mut store, number)?,
    };
    Ok((went, store.into_connection().into_store()))
}

/// The same over a connection whose store may not open.
fn done_over<S: Alter + Drop>(
    alloc: Global,
    conn: Connection<S>,
    doing: Doing,
) -> Result<(bool, S), Fail> {
    match stored(alloc, conn) {
        Ok(store) => done(alloc, store, doing),
        Err(left) => Ok((false, left)),
    }
}

/// The same over files that may not open: what is left of them, whatever they answer.
fn tried<D: Disk + Drop>(
    alloc: Global,
    files: Files<D>,
    doing: Doing,
) -> Result<(bool, Files<D>), Fail> {
    match connected(alloc, files) {
        Ok(conn) => {
            let (went, left) = done_over(alloc, conn, doing)?;
            Ok((went, left.close()))
        }
        Err(left) => Ok((false, left)),
    }
}

/// How many rows are found, the base, the floor of `http://a/`, and the greatest floor.
type Found = (usize, u32, u32, u32);

/// What a store holds.
fn found_by<S: Alter + Drop>(alloc: Global, mut store: SqliteFloors<S>) -> Result<Found, Fail> {
    let floors = loaded(&mut store, alloc)?;
    let a = floor(&floors, alloc, "http://a/")?;
    Ok((floors.rows(), floors.base(), a, floors.seen()))
}

/// The same over a connection.
fn found_over<S: Alter + Drop>(alloc: Global, conn: Connection<S>) -> Result<Found, Fail> {
    match stored(alloc, conn) {
        Ok(store) => found_by(alloc, store),
        Err(_) => Err("the store after the crash".into()),
    }
}

/// What the files hold which a crash leaves.
fn found_in<D: Disk + Drop>(alloc: Global, files: Files<D>) -> Result<Found, Fail> {
    match connected(alloc, files) {
        Ok(conn) => found_over(alloc, conn),
        Err(_) => Err("the files after the crash".into()),
    }
}

/// What is done, and what is found where it was not done and where it was.
#[derive(Clone, Copy)]
struct Stops {
    doing: Doing,
    before: Found,
    after: Found,
}

/// A raise that adds a row.
const ROW: Stops = Stops {
    doing: Doing::Raise(3),
    before: (0, 0, 0, 0),
    after: (1, 0, 3, 3),
};

/// A raise that makes the base.
const BASE: Stops = Stops {
    doing: Doing::Raise(70_000),
    before: (65_536, 0, 0, 65_536),
    after: (0, 70_000, 70_000, 70_000),
};

/// A raise of the base, over which one floor stays.
const HIGHER: Stops = Stops {
    doing: Doing::RaiseBase(4),
    before: (2, 0, 3, 5),
    after: (2, 4, 4, 5),
};

/// A file of form 1 is brought to form 2.
const OLDER: Stops = Stops {
    doing: Doing::Open,
    before: (2, 0, 3, 5),
    after: (2, 0, 3, 5),
};

/// Does that over a copy of the files that stops, and answers whether it went and what is found
/// after a crash.
fn stopped(
    alloc: Global,
    first: &Files<Disks>,
    doing: Doing,
    log_calls: u64,
    db_calls: u64,
) -> Result<(bool, Found), Fail> {
    let (went, left) = tried(alloc, stopping(alloc, first, log_calls, db_calls)?, doing)?;
    Ok((went, found_in(alloc, crashed(alloc, left)?)?))
}

/// At a stop of one of both files after so many calls the floors are those from before or after,
/// and those from after where it went. Answers whether it did.
fn stop_at(
    alloc: Global,
    first: &Files<Disks>,
    stops: Stops,
    main_file: bool,
    calls: u64,
) -> Result<bool, Fail> {
    let (log_calls, db_calls) = if main_file {
        (u64::MAX, calls)
    } else {
        (calls, u64::MAX)
    };
    let (went, found) = stopped(alloc, first, stops.doing, log_calls, db_calls)?;
    want(
        found == stops.after || (found == stops.before && !went),
        "floors from before or after",
    )?;
    Ok(went)
}

/// The stops after each of these numbers of calls. Answers whether it went, which ends the run.
fn stops_of(
    alloc: Global,
    first: &Files<Disks>,
    stops: Stops,
    main_file: bool,
    from: u64,
    to: u64,
) -> Result<bool, Fail> {
    for calls in from..to {
        if stop_at(alloc, first, stops, main_file, calls)? {
            return Ok(true);
        }
    }
    Ok(false)
}

/// The least number of calls of the main file with which it goes, of 16,384 at most.
fn least_that_goes(alloc: Global, first: &Files<Disks>, stops: Stops) -> Result<u64, Fail> {
    let (mut less, mut enough) = (0u64, 16_384u64);
    for _ in 0..14 {
        let calls = less.saturating_add(enough) / 2;
        if stop_at(alloc, first, stops, true, calls)? {
            enough = calls;
        } else {
            less = calls;
        }
    }
    Ok(enough)
}

/// The stops of the main file around the first at which it goes: before it the open reads that file
/// page by page, and behind it the close writes to it. Each of these stops takes half a second.
fn stops_around(alloc: Global, first: &Files<Disks>, stops: Stops) -> Result<(), Fail> {
    let least = least_that_goes(alloc, first, stops)?;
    let went = stops_of(alloc, first, stops, true, least.saturating_sub(8), least)?;
    want(!went, "stops before it goes")?;
    for more in 0..16 {
        let went = stop_at(alloc, first, stops, true, least.saturating_add(more))?;
        want(went, "stops behind it")?;
    }
    Ok(())
}

fn row_stops(alloc: Global, main_file: bool, from: u64, to: u64) -> Result<bool, Fail> {
    stops_of(alloc, &first_files(alloc)?, ROW, main_file, from, to)
}

#[test]
fn a_log_that_stops_at_once(rt: HostRuntime) -> Result<(), Fail> {
    let _went = row_stops(rt.alloc(), false, 0, 8)?;
    Ok(())
}

#[test]
fn a_log_that_stops_later(rt: HostRuntime) -> Result<(), Fail> {
    let _went = row_stops(rt.alloc(), false, 8, 16)?;
    Ok(())
}

#[test]
fn a_log_that_stops_late_or_never(rt: HostRuntime) -> Result<(), Fail> {
    assert!(rt; row_stops(rt.alloc(), false, 16, 100)?);
    Ok(())
}

#[test]
fn a_main_file_that_stops_at_once(rt: HostRuntime) -> Result<(), Fail> {
    let _went = row_stops(rt.alloc(), true, 0, 8)?;
    Ok(())
}

#[test]
fn a_main_file_that_stops_late_or_never(rt: HostRuntime) -> Result<(), Fail> {
    assert!(rt; row_stops(rt.alloc(), true, 8, 100)?);
    Ok(())
}

/// The stops of the log, and then those of the main file.
fn all_stops(alloc: Global, first: &Files<Disks>, stops: Stops) -> Result<(), Fail> {
    for main_file in [false, true] {
        let went = stops_of(alloc, first, stops, main_file, 0, 1000)?;
        want(went, "an end of the stops")?;
    }
    Ok(())
}

fn base_stops(alloc: Global, from: u64, to: u64) -> Result<bool, Fail> {
    stops_of(alloc, &full_files(alloc)?, BASE, false, from, to)
}

#[test]
fn a_log_that_stops_at_once_as_the_base_is_made(rt: HostRuntime) -> Result<(), Fail> {
    let _went = base_stops(rt.alloc(), 0, 16)?;
    Ok(())
}

#[test]
fn a_log_that_stops_late_or_never_as_the_base_is_made(rt: HostRuntime) -> Result<(), Fail> {
    assert!(rt; base_stops(rt.alloc(), 16, 100)?);
    Ok(())
}

#[test]
fn a_main_file_that_stops_as_the_base_is_made(rt: HostRuntime) -> Result<(), Fail> {
    stops_around(rt.alloc(), &full_files(rt.alloc())?, BASE)
}

#[test]
fn files_of_form_1_that_stop_as_they_are_brought_over(rt: HostRuntime) -> Result<(), Fail> {
    all_stops(rt.alloc(), &older_files(rt.alloc())?, OLDER)
}

#[test]
fn files_that_stop_as_the_base_rises(rt: HostRuntime) -> Result<(), Fail> {
    all_stops(rt.alloc(), &two_files(rt.alloc())?, HIGHER)
}
