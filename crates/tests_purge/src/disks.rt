//! Files in memory, some of which stop after so many calls of the disk.
//!
//! What opens and closes files is written for any disk: a proof then speaks of none in particular.
use sqlite::{Connection, FileStore, Files, MemStore, Options};
use sqlite_disk::{Crash, Disk, Fuse, Memory};
use std::alloc::Global;
use std::test::Fail;

pub(crate) type Disks = Fuse<Memory>;

/// The table of either kind of file that says its version, and its row in files of form 1.
pub(crate) const FORM: &str = "CREATE TABLE form (version INTEGER PRIMARY KEY) STRICT";

pub(crate) const VERSION: &str = "INSERT INTO form VALUES (1)";

/// A file that these statements made.
pub(crate) fn made_by(alloc: Global, statements: &[&str]) -> Result<Connection<MemStore>, Fail> {
    let mut conn = Connection::open_in_memory(alloc)?;
    for statement in statements {
        conn.execute_batch(statement)?;
    }
    Ok(conn)
}

pub(crate) fn files(log: Memory, db: Memory, log_calls: u64, db_calls: u64) -> Files<Disks> {
    Files {
        log: Fuse::new(log, log_calls),
        db: Fuse::new(db, db_calls),
    }
}

/// A connection to the files, or what is left of them.
pub(crate) fn connected<D: Disk + Drop>(
    alloc: Global,
    files: Files<D>,
) -> Result<Connection<FileStore<D>>, Files<D>> {
    if !files.may_be_used() {
        return Err(files);
    }
    match Connection::open_files(alloc, files, Options::new(7)) {
        Ok(conn) => Ok(conn),
        Err((_, left)) => Err(left.into_files()),
    }
}

/// The files of a connection that is closed.
pub(crate) fn closed<D: Disk + Drop>(conn: Connection<FileStore<D>>) -> Result<Files<D>, Fail> {
    match conn.close_files().ok() {
        Some(files) => Ok(files),
        None => Err("close".into()),
    }
}

fn copy(alloc: Global, disk: &Disks) -> Result<Memory, Fail> {
    let mut copy = Memory::new(alloc);
    copy.write_at(0, disk.inner().bytes())?;
    copy.sync()?;
    Ok(copy)
}

/// The files as a crash leaves them.
pub(crate) fn crashed(alloc: Global, left: Files<Disks>) -> Result<Files<Disks>, Fail> {
    let Files { mut log, mut db } = left;
    log.crash();
    db.crash();
    Ok(files(copy(alloc, &log)?, copy(alloc, &db)?, u64::MAX, u64::MAX))
}

/// A copy of the files that stops after so many calls of the log, or of the main file.
pub(crate) fn stopping(
    alloc: Global,
    first: &Files<Disks>,
    log_calls: u64,
    db_calls: u64,
) -> Result<Files<Disks>, Fail> {
    let log = copy(alloc, &first.log)?;
    let db = copy(alloc, &first.db)?;
    Ok(files(log, db, log_calls, db_calls))
}
