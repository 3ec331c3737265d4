//! The store of purges in a SQLite file.
ghost use Rattle.std.specs.Prelude.{◌≡◌, ◌≢◌, false, None, IsTrue, IfOk, IfErr};
ghost use Rattle.sqlite.specs.State.{HasCleanDisk};
ghost use Rattle.sqlite.specs.Held.{state};
ghost use Rattle.purge_tables.specs.Making.{IsBlank};
ghost use Rattle.purge_records.specs.Making.{IsFileOf, IsFormTwo, IsMasterFile, LeavesNoOther};
ghost use Rattle.purge_records.specs.Making.{OpensWith};
ghost use Rattle.purge_records.specs.Store.{MayFind, committed_purges};

use crate::opening::open_file;
use crate::writing::{add, admit, finish, mark};
use purge_rules::{PurgeFault, PurgeStore, Purges};
use sqlite::{Alter, Connection};
use std::alloc::Global;
use std::marker::Model;
use url_key::Key;

/// Purges and admissions in the tables of a connection, with a copy in memory.
///
/// A contract sees the connection, the copy, whether no call has failed, and how many calls have
/// returned `StoreFault`. While no call has failed and the disk is honest, the copy is what the
/// last commit left.
pub struct SqlitePurges<S: Alter> {
    conn: Connection<S>,
    // the copy of what is committed
    purges: Purges,
    // no call has failed
    is_usable: bool,
    // how many calls have returned `StoreFault`
    failures: u64,
}

impl<S: Alter + Drop> Drop for SqlitePurges<S> {
    fn drop(self) {
        let SqlitePurges {
            conn: _,
            purges: _,
            is_usable: _,
            failures: _,
        } = self;
    }
}

impl<S: Alter> Model for SqlitePurges<S> {
    ghost use Rattle.purge_records.specs.Store.{Durable, durable_code, IsKept};

    ghost Value = { Durable S };

    ghost coded = { durable_code S.code };

    ghost view = { λ it. record {
      conn = it.conn;
      purges = it.purges;
      is_usable = it.is_usable;
      failures = it.failures;
    } };

    ghost invariant = { λ it. IsKept S.Store it.conn it.purges it.is_usable };
}

impl<S: Alter> SqlitePurges<S> {
    /// Opens a master's file: makes the tables if the file is blank, reads the purges and
    /// admissions, and brings a file of form 1 to form 2. A blank file has no table, index or view.
    /// A file of form 1 has no admissions: it gets an empty table for them and the version 2, in
    /// one transaction, and keeps its rows. Lifts the connection's step limit, if it has one.
    ///
    /// Errors, with the connection:
    ///
    /// - `BadTable` if one of these holds, but never for a blank file without an open transaction:
    ///   - the connection has an open transaction;
    ///   - tables and version are not exactly those of form 1 or those of form 2;
    ///   - `last` is not one row of id 1 with a number of 0 to 4294967295;
    ///   - a row of `pending` is no purge: a number of 1 to the last one, and a text that is its
    ///     own key;
    ///   - a row of `acks` is no acknowledgement: the number of a pending purge, and a member of 1
    ///     to 16;
    ///   - a row of `admitted` is no admission: a member of 1 to 16, a number of 1 to the last one
    ///     that no pending purge has, and 0 or 1 as `done`;
    ///   - a rowid, an acknowledgement or the number of an admission stands twice, or there are
    ///     more than 1,024 purges.
    /// - `StoreFault` if the database failed.
    /// - `NoMemory` if an allocation failed, here or in the database.
    ///
    /// After either outcome a crash leaves what it could leave before: no purges if the file was
    /// blank, and the same purges if it was of form 1.
    pub fn open(
        alloc: Global,
        mut conn: Connection<S>,
    ) -> Result<SqlitePurges<S>, (Connection<S>, PurgeFault)>
        ensures found { IfOk result (λ it. HasCleanDisk (state S.Store it.conn) →
            OpensWith (state S.Store conn) (committed_purges (state S.Store it.conn))) }
        ensures master { IfOk result (λ it. HasCleanDisk (state S.Store it.conn) →
            IsFileOf IsFormTwo (state S.Store it.conn)) }
        ensures usable { IfOk result (λ it. IsTrue it.is_usable × (it.failures ≡ 0)) }
        ensures unlimited { IfOk result (λ it. (state S.Store it.conn).step_limit ≡ None) }
        ensures crash { IfOk result (λ it.
            LeavesNoOther (state S.Store conn) (state S.Store it.conn)) }
        ensures bad { IfErr result (λ e. e.1 ≡ PurgeFault.BadTable →
            HasCleanDisk (state S.Store e.0) → ¬ IsMasterFile (state S.Store conn)) }
        ensures blank { IfErr result (λ e. IsBlank (state S.Store conn).now →
            (state S.Store conn).in_transaction ≡ false → HasCleanDisk (state S.Store e.0) →
            e.1 ≢ PurgeFault.BadTable) }
        ensures fails { IfErr result (λ e. LeavesNoOther (state S.Store conn) (state S.Store e.0)) }
    {
        match open_file(&mut conn, alloc) {
            Ok(purges) => Ok(SqlitePurges {
                conn,
                purges,
                is_usable: true,
                failures: 0,
            }),
            Err(fault) => Err((conn, fault)),
        }
    }

    /// The connection, to close it or to open the file again.
    pub fn into_connection(self) -> Connection<S>
        ensures { result ≡ self.conn }
    {
        let SqlitePurges {
            conn: connection,
            purges: _,
            is_usable: _,
            failures: _,
        } = self;
        connection
    }
}

impl<S: Alter> PurgeStore for SqlitePurges<S> {
    ghost content = { λ it. committed_purges (state S.Store it.conn) };

    ghost may_find = { λ it. MayFind (state S.Store it.conn) };

    ghost is_honest = { λ it. HasCleanDisk (state S.Store it.conn) };

    ghost is_usable = { λ it. it.is_usable };

    ghost failed = { λ it. it.failures };

    fn load(&mut self, alloc: Global) -> Result<Purges, PurgeFault> {
        if !self.is_usable {
            self.failures = self.failures.saturating_add(1);
            return Err(PurgeFault::StoreFault);
        }
        Ok(self.purges.copy(alloc)?)
    }

    fn add(&mut self, alloc: Global, number: u32, key: &Key) -> Result<(), PurgeFault> {
        if !self.is_usable {
            self.failures = self.failures.saturating_add(1);
            return Err(PurgeFault::StoreFault);
        }
        match add(&mut self.conn, &mut self.purges, alloc, number, key) {
            Ok(()) => Ok(()),
            Err(PurgeFault::StoreFault) => {
                self.is_usable = false;
                self.failures = self.failures.saturating_add(1);
                Err(PurgeFault::StoreFault)
            }
            Err(_) => {
                self.is_usable = false;
                Err(PurgeFault::NoMemory)
            }
        }
    }

    fn admit(&mut self, _alloc: Global, number: u32, member: u8) -> Result<(), PurgeFault> {
        if !self.is_usable {
            self.failures = self.failures.saturating_add(1);
            return Err(PurgeFault::StoreFault);
        }
        match admit(&mut self.conn, &mut self.purges, number, member) {
            Ok(()) => Ok(()),
            Err(PurgeFault::StoreFault) => {
                self.is_usable = false;
                self.failures = self.failures.saturating_add(1);
                Err(PurgeFault::StoreFault)
            }
            Err(_) => {
                self.is_usable = false;
                Err(PurgeFault::NoMemory)
            }
        }
    }

    fn mark(&mut self, _alloc: Global, number: u32, member: u8) -> Result<(), PurgeFault> {
        if !self.is_usable {
            self.failures = self.failures.saturating_add(1);
            return Err(PurgeFault::StoreFault);
        }
        match mark(&mut self.conn, &mut self.purges, number, member) {
            Ok(()) => Ok(()),
            Err(PurgeFault::StoreFault) => {
                self.is_usable = false;
                self.failures = self.failures.saturating_add(1);
                Err(PurgeFault::StoreFault)
            }
            Err(_) => {
                self.is_usable = false;
                Err(PurgeFault::NoMemory)
            }
        }
    }

    fn finish(&mut self, _alloc: Global, number: u32) -> Result<(), PurgeFault> {
        if !self.is_usable {
            self.failures = self.failures.saturating_add(1);
            return Err(PurgeFault::StoreFault);
        }
        match finish(&mut self.conn, &mut self.purges, number) {
            Ok(()) => Ok(()),
            Err(PurgeFault::StoreFault) => {
                self.is_usable = false;
                self.failures = self.failures.saturating_add(1);
                Err(PurgeFault::StoreFault)
            }
            Err(_) => {
                self.is_usable = false;
                Err(PurgeFault::NoMemory)
            }
        }
    }

    fn failures(&self) -> u64 {
        self.failures
    }
}
