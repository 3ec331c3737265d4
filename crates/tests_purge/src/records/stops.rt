//! Calls over files that stop after so many calls of the disk.
//!
//! What is done with a store is written for any store below it: a proof then speaks of none in
//! particular.
use super::{ACKS, LAST, PENDING};
use crate::calls::{add, admit, loaded, mark};
use crate::disks::{Disks, FORM, VERSION, closed, connected, crashed, files, stopping};
use purge_records::SqlitePurges;
use purge_rules::{PurgeFault, PurgeStore};
use sqlite::{Alter, Connection, Files};
use sqlite_disk::{Disk, Memory};
use std::alloc::Global;
use std::test::Fail;
use tests_kit::want;

/// The call that is stopped.
#[derive(Clone, Copy)]
enum Step {
    Add,
    Admit,
    Mark,
    /// A purge is finished.
    Finish,
    /// An admission is finished.
    End,
    /// No call is made: the open alone is stopped.
    Open,
}

/// What became of a call.
#[derive(Clone, Copy, PartialEq, Eq)]
enum End {
    /// The file did not open, so the call was not made.
    Unopened,
    /// The call was refused.
    Stopped,
    /// The call was answered Ok.
    Went,
}

/// The purges of a connection, or what is left below it.
fn stored<S: Alter + Drop>(alloc: Global, conn: Connection<S>) -> Result<SqlitePurges<S>, S> {
    match SqlitePurges::open(alloc, conn) {
        Ok(store) => Ok(store),
        Err((conn, _)) => Err(conn.into_store()),
    }
}

/// Adds the purges 1, which one member acknowledges, and 2, and admits member 9 as 3.
fn fill<P: PurgeStore>(store: &mut P, alloc: Global) -> Result<(), Fail> {
    want(add(store, alloc, 1, "http://a/")? == Ok(()), "first")?;
    want(add(store, alloc, 2, "http://b/")? == Ok(()), "second")?;
    want(admit(store, alloc, 3, 9)? == Ok(()), "admitted")?;
    want(mark(store, alloc, 1, 5)? == Ok(()), "marked")
}

/// The connection of a store to which these purges were added.
fn filled<S: Alter + Drop>(
    alloc: Global,
    mut store: SqlitePurges<S>,
) -> Result<Connection<S>, Fail> {
    fill(&mut store, alloc)?;
    Ok(store.into_connection())
}

/// The same over a connection.
fn filled_over<S: Alter + Drop>(alloc: Global, conn: Connection<S>) -> Result<Connection<S>, Fail> {
    match stored(alloc, conn) {
        Ok(store) => filled(alloc, store),
        Err(_) => Err("first open".into()),
    }
}

/// The files of a store with these purges that is closed.
fn made<D: Disk + Drop>(alloc: Global, files: Files<D>) -> Result<Files<D>, Fail> {
    match connected(alloc, files) {
        Ok(conn) => closed(filled_over(alloc, conn)?),
        Err(_) => Err("first files".into()),
    }
}

/// A file with these purges.
fn first_files(alloc: Global) -> Result<Files<Disks>, Fail> {
    let new = files(Memory::new(alloc), Memory::new(alloc), u64::MAX, u64::MAX);
    made(alloc, new)
}

fn call<P: PurgeStore>(
    store: &mut P,
    alloc: Global,
    step: Step,
) -> Result<Result<(), PurgeFault>, Fail> {
    match step {
        Step::Add => add(store, alloc, 7, "http://c/"),
        Step::Admit => admit(store, alloc, 7, 4),
        Step::Mark => mark(store, alloc, 1, 6),
        Step::Finish => Ok(store.finish(alloc, 1)),
        Step::End => Ok(store.finish(alloc, 3)),
        Step::Open => Ok(Ok(())),
    }
}

/// Makes the call, and answers how it ended. A store that failed fails from then on.
fn called<P: PurgeStore>(store: &mut P, alloc: Global, step: Step) -> Result<End, Fail> {
    let done = call(store, alloc, step)?;
    if done == Ok(()) {
        return Ok(End::Went);
    }
    want(done == Err(PurgeFault::StoreFault), "a store fault")?;
    want(store.failures() == 1, "one failure")?;
    let later = store.finish(alloc, 2);
    want(later == Err(PurgeFault::StoreFault), "a store fault again")?;
    want(store.failures() == 2, "two failures")?;
    Ok(End::Stopped)
}

/// What tells the purges from before the call and after it: the last number, how many are pending,
/// how many members have acknowledged the first, whether member 5 has, how many admissions there
/// are, and whether that of the number 3 is done.
type Seen = (u32, usize, u8, bool, usize, bool);

fn seen<P: PurgeStore>(store: &mut P, alloc: Global) -> Result<Seen, Fail> {
    let purges = loaded(store, alloc)?;
    let (marked, by_fifth) = match purges.find(1) {
        Some(purge) => (purge.marked.count(), purge.marked.has(5)),
        None => (0, false),
    };
    let is_done = match purges.admission_at(3) {
        Some(admission) => admission.is_done,
        None => false,
    };
    let admitted = purges.admissions().len();
    Ok((
        purges.last(),
        purges.len(),
        marked,
        by_fifth,
        admitted,
        is_done,
    ))
}

const BEFORE: Seen = (3, 2, 1, true, 1, false);

fn after(step: Step) -> Seen {
    match step {
        Step::Add => (7, 3, 1, true, 1, false),
        Step::Admit => (7, 2, 1, true, 2, false),
        Step::Mark => (3, 2, 2, true, 1, false),
        Step::Finish => (3, 1, 0, false, 1, false),
        Step::End => (3, 2, 1, true, 1, true),
        Step::Open => OLDER,
    }
}

/// What a file of form 1 holds, before it is brought to form 2 and after it.
const OLDER: Seen = (9, 1, 1, true, 0, false);

/// Makes the call, and answers how it ended and what is left below the store.
fn called_once<S: Alter + Drop>(
    alloc: Global,
    mut store: SqlitePurges<S>,
    step: Step,
) -> Result<(End, S), Fail> {
    let end = called(&mut store, alloc, step)?;
    Ok((end, store.into_connection().into_store()))
}

/// The same over a connection whose store may not open.
fn called_over<S: Alter + Drop>(
    alloc: Global,
    conn: Connection<S>,
    step: Step,
) -> Result<(End, S), Fail> {
    match stored(alloc, conn) {
        Ok(store) => called_once(alloc, store, step),
        Err(left) => Ok((End::Unopened, left)),
    }
}

/// The same over files that may not open: what is left of them, whatever they answer.
fn tried<D: Disk + Drop>(
    alloc: Global,
    files: Files<D>,
    step: Step,
) -> Result<(End, Files<D>), Fail> {
    match connected(alloc, files) {
        Ok(conn) => {
            let (end, left) = called_over(alloc, conn, step)?;
            Ok((end, left.close()))
        }
        Err(left) => Ok((End::Unopened, left)),
    }
}

/// What is seen of the purges that a store holds.
fn seen_of<S: Alter + Drop>(alloc: Global, mut store: SqlitePurges<S>) -> Result<Seen, Fail> {
    seen(&mut store, alloc)
}

/// The same over a connection.
fn seen_over<S: Alter + Drop>(alloc: Global, conn: Connection<S>) -> Result<Seen, Fail> {
    match stored(alloc, conn) {
        Ok(store) => seen_of(alloc, store),
        Err(_) => Err("the store after the crash".into()),
    }
}

/// What is seen of the purges that the files hold which a crash leaves.
fn seen_in<D: Disk + Drop>(alloc: Global, files: Files<D>) -> Result<Seen, Fail> {
    match connected(alloc, files) {
        Ok(conn) => seen_over(alloc, conn),
        Err(_) => Err("the files after the crash".into()),
    }
}

/// Makes the call over a copy of the files that stops, and answers how it ended and what a crash
/// leaves.
fn stopped(
    alloc: Global,
    first: &Files<Disks>,
    step: Step,
    log_calls: u64,
    db_calls: u64,
) -> Result<(End, Seen), Fail> {
    let (end, left) = tried(alloc, stopping(alloc, first, log_calls, db_calls)?, step)?;
    Ok((end, seen_in(alloc, crashed(alloc, left)?)?))
}

/// Stops the log, or the main file, after so many calls. What a crash leaves are the purges from
/// before or after the call, and those after it where it was answered Ok: so the last number is
/// then no less than the one that was given.
fn stop_at(
    alloc: Global,
    first: &Files<Disks>,
    step: Step,
    main_file: bool,
    calls: u64,
) -> Result<End, Fail> {
    let (log_calls, db_calls) = if main_file {
        (u64::MAX, calls)
    } else {
        (calls, u64::MAX)
    };
    let (end, seen) = stopped(alloc, first, step, log_calls, db_calls)?;
    let is_before = seen == BEFORE && end != End::Went;
    want(
        is_before || (seen == after(step) && end != End::Unopened),
        "purges from before or after",
    )?;
    Ok(end)
}

/// With so many calls of either file it does not open yet, and with one more it does.
const OPENING: u64 = 27;

/// With so many calls more each call goes, and its close too.
const STOPS: u64 = 40;

/// Stops the call at each of its calls of the disk: from one at which the file does not open, to
/// one at which the call has gone and its close is stopped.
fn stops_of(alloc: Global, step: Step, main_file: bool) -> Result<(), Fail> {
    let first = first_files(alloc)?;
    let begun = stop_at(alloc, &first, step, main_file, OPENING)?;
    want(begun == End::Unopened, "a file that does not open")?;
    let mut end = begun;
    for more in 1..=STOPS {
        end = stop_at(alloc, &first, step, main_file, OPENING.saturating_add(more))?;
    }
    want(end == End::Went, "a call that goes")
}

#[test]
fn an_add_whose_log_stops(rt: HostRuntime) -> Result<(), Fail> {
    stops_of(rt.alloc(), Step::Add, false)
}

#[test]
fn an_admission_whose_log_stops(rt: HostRuntime) -> Result<(), Fail> {
    stops_of(rt.alloc(), Step::Admit, false)
}

#[test]
fn a_mark_whose_log_stops(rt: HostRuntime) -> Result<(), Fail> {
    stops_of(rt.alloc(), Step::Mark, false)
}

#[test]
fn a_finish_whose_log_stops(rt: HostRuntime) -> Result<(), Fail> {
    stops_of(rt.alloc(), Step::Finish, false)
}

#[test]
fn the_end_of_an_admission_whose_log_stops(rt: HostRuntime) -> Result<(), Fail> {
    stops_of(rt.alloc(), Step::End, false)
}

#[test]
fn an_add_whose_main_file_stops(rt: HostRuntime) -> Result<(), Fail> {
    stops_of(rt.alloc(), Step::Add, true)
}

#[test]
fn an_admission_whose_main_file_stops(rt: HostRuntime) -> Result<(), Fail> {
    stops_of(rt.alloc(), Step::Admit, true)
}

#[test]
fn a_mark_whose_main_file_stops(rt: HostRuntime) -> Result<(), Fail> {
    stops_of(rt.alloc(), Step::Mark, true)
}

#[test]
fn a_finish_whose_main_file_stops(rt: HostRuntime) -> Result<(), Fail> {
    stops_of(rt.alloc(), Step::Finish, true)
}

#[test]
fn the_end_of_an_admission_whose_main_file_stops(rt: HostRuntime) -> Result<(), Fail> {
    stops_of(rt.alloc(), Step::End, true)
}

/// The connection after these statements.
fn run<S: Alter + Drop>(
    mut conn: Connection<S>,
    statements: &[&str],
) -> Result<Connection<S>, Fail> {
    for statement in statements {
        conn.execute_batch(statement)?;
    }
    Ok(conn)
}

/// Files whose tables these statements make.
fn made_by<D: Disk + Drop>(
    alloc: Global,
    files: Files<D>,
    statements: &[&str],
) -> Result<Files<D>, Fail> {
    match connected(alloc, files) {
        Ok(conn) => closed(run(conn, statements)?),
        Err(_) => Err("first files".into()),
    }
}

const OLDER_ROWS: &str =
    "INSERT INTO last VALUES (1, 9); INSERT INTO pending VALUES (1, 'http://a/'); INSERT INTO acks VALUES (1, 5)";

/// A file of form 1 with a pending purge that member 5 has acknowledged.
fn older_files(alloc: Global) -> Result<Files<Disks>, Fail> {
    let new = files(Memory::new(alloc), Memory::new(alloc), u64::MAX, u64::MAX);
    made_by(
        alloc,
        new,
        &[FORM, LAST, PENDING, ACKS, VERSION, OLDER_ROWS],
    )
}

/// At each stop of the log, or of the main file, a file of form 1 has the same purges. Answers
/// whether it was brought to form 2, which ends the run.
fn older_stops(alloc: Global, main_file: bool) -> Result<bool, Fail> {
    let first = older_files(alloc)?;
    for calls in 0..1000 {
        let (log_calls, db_calls) = if main_file {
            (u64::MAX, calls)
        } else {
            (calls, u64::MAX)
        };
        let (end, seen) = stopped(alloc, &first, Step::Open, log_calls, db_calls)?;
        want(seen == OLDER, "the purges of form 1")?;
        if end == End::Went {
            return Ok(true);
        }
    }
    Ok(false)
}

#[test]
fn a_file_of_form_1_whose_log_stops(rt: HostRuntime) -> Result<(), Fail> {
    assert!(rt; older_stops(rt.alloc(), false)?);
    Ok(())
}

#[test]
fn a_file_of_form_1_whose_main_file_stops(rt: HostRuntime) -> Result<(), Fail> {
    assert!(rt; older_stops(rt.alloc(), true)?);
    Ok(())
}

/// At each stop of the log, or of the main file, the file does not open, and its purges are those
/// from before.
fn opens_that_stop(alloc: Global, main_file: bool) -> Result<(), Fail> {
    let first = first_files(alloc)?;
    for calls in 0..OPENING {
        let end = stop_at(alloc, &first, Step::Finish, main_file, calls)?;
        want(end == End::Unopened, "a file that does not open")?;
    }
    Ok(())
}

#[test]
fn an_open_whose_log_stops(rt: HostRuntime) -> Result<(), Fail> {
    opens_that_stop(rt.alloc(), false)
}

#[test]
fn an_open_whose_main_file_stops(rt: HostRuntime) -> Result<(), Fail> {
    opens_that_stop(rt.alloc(), true)
}
