//! The store of floors in a SQLite file.
ghost use Rattle.std.specs.Prelude.{◌≡◌, ◌≢◌, false, None, IsTrue, IfOk, IfErr};
ghost use Rattle.sqlite.specs.State.{HasCleanDisk};
ghost use Rattle.sqlite.specs.Held.{state};
ghost use Rattle.purge_tables.specs.Making.{IsBlank};
ghost use Rattle.purge_numbers.specs.Put.{FailsToRaise, FailsToRaiseBase};
ghost use Rattle.purge_numbers.specs.Making.{IsFileOf, IsFormTwo, IsNodeFile, LeavesNoOther};
ghost use Rattle.purge_numbers.specs.Making.{OpensWith};
ghost use Rattle.purge_numbers.specs.Store.{MayFind, committed_floors};

use crate::opening::open_file;
use crate::writing::{raise, raise_base};
use floor_rules::{FloorFault, FloorStore, Floors};
use sqlite::{Alter, Connection};
use std::alloc::Global;
use std::marker::Model;
use url_key::Key;

/// Floors in the tables of a connection, with a copy in memory.
///
/// A contract sees the connection, the copy, whether no call has failed, and how many calls have
/// returned `StoreFault`. While no call has failed and the disk is honest, the copy is what the
/// last commit left.
pub struct SqliteFloors<S: Alter> {
    conn: Connection<S>,
    // the copy of what is committed
    floors: Floors,
    // no call has failed
    is_usable: bool,
    // how many calls have returned `StoreFault`
    failures: u64,
}

impl<S: Alter + Drop> Drop for SqliteFloors<S> {
    fn drop(self) {
        let SqliteFloors {
            conn: _,
            floors: _,
            is_usable: _,
            failures: _,
        } = self;
    }
}

impl<S: Alter> Model for SqliteFloors<S> {
    ghost use Rattle.purge_numbers.specs.Store.{Durable, durable_code, IsKept};

    ghost Value = { Durable S };

    ghost coded = { durable_code S.code };

    ghost view = { λ it. record {
      conn = it.conn;
      floors = it.floors;
      is_usable = it.is_usable;
      failures = it.failures;
    } };

    ghost invariant = { λ it. IsKept S.Store it.conn it.floors it.is_usable };
}

impl<S: Alter> SqliteFloors<S> {
    /// Opens a node's file: makes the tables if the file is blank, reads the floors, and brings a
    /// file of form 1 to form 2. A blank file has no table, index or view. A file of form 1 has no
    /// base: it gets the base 0 and the version 2, in one transaction, and keeps its rows. Lifts
    /// the connection's step limit, if it has one.
    ///
    /// Errors, with the connection:
    ///
    /// - `BadTable` if one of these holds, but never for a blank file without an open transaction:
    ///   - the connection has an open transaction;
    ///   - tables and version are not exactly those of form 1 or those of form 2;
    ///   - `base` has not exactly one row, of id 1 with a number of 0 to 4294967295;
    ///   - a row is no floor: a text that is its own key, and a number of 1 to 4294967295;
    ///   - a url stands twice, or there are more than 65,536 rows.
    /// - `StoreFault` if the database failed.
    /// - `NoMemory` if an allocation failed, here or in the database.
    ///
    /// After either outcome a crash leaves what it could leave before: no floors if the file was
    /// blank, and the same floors if it was of form 1.
    pub fn open(
        alloc: Global,
        mut conn: Connection<S>,
    ) -> Result<SqliteFloors<S>, (Connection<S>, FloorFault)>
        ensures found { IfOk result (λ it. HasCleanDisk (state S.Store it.conn) →
            OpensWith (state S.Store conn) (committed_floors (state S.Store it.conn))) }
        ensures node { IfOk result (λ it. HasCleanDisk (state S.Store it.conn) →
            IsFileOf IsFormTwo (state S.Store it.conn)) }
        ensures usable { IfOk result (λ it. IsTrue it.is_usable × (it.failures ≡ 0)) }
        ensures unlimited { IfOk result (λ it. (state S.Store it.conn).step_limit ≡ None) }
        ensures crash { IfOk result (λ it.
            LeavesNoOther (state S.Store conn) (state S.Store it.conn)) }
        ensures bad { IfErr result (λ e. e.1 ≡ FloorFault.BadTable →
            HasCleanDisk (state S.Store e.0) → ¬ IsNodeFile (state S.Store conn)) }
        ensures blank { IfErr result (λ e. IsBlank (state S.Store conn).now →
            (state S.Store conn).in_transaction ≡ false → HasCleanDisk (state S.Store e.0) →
            e.1 ≢ FloorFault.BadTable) }
        ensures fails { IfErr result (λ e. LeavesNoOther (state S.Store conn) (state S.Store e.0)) }
    {
        match open_file(&mut conn, alloc) {
            Ok(floors) => Ok(SqliteFloors {
                conn,
                floors,
                is_usable: true,
                failures: 0,
            }),
            Err(fault) => Err((conn, fault)),
        }
    }

    /// The connection, to close it or to open the file again.
    pub fn into_connection(self) -> Connection<S>
        ensures { result ≡ self.conn }
    {
        let SqliteFloors {
            conn: connection,
            floors: _,
            is_usable: _,
            failures: _,
        } = self;
        connection
    }
}

impl<S: Alter> FloorStore for SqliteFloors<S> {
    ghost content = { λ it. committed_floors (state S.Store it.conn) };

    ghost may_find = { λ it. MayFind (state S.Store it.conn) };

    ghost is_honest = { λ it. HasCleanDisk (state S.Store it.conn) };

    ghost is_usable = { λ it. it.is_usable };

    ghost failed = { λ it. it.failures };

    ghost has_cause = { λ old new key number. FailsToRaise S.Store old.conn new.conn key number };

    ghost has_base_cause = { λ old new number. FailsToRaiseBase S.Store old.conn new.conn number };

    fn load(&mut self, _alloc: Global) -> Result<Floors, FloorFault> {
        if !self.is_usable {
            self.failures = self.failures.saturating_add(1);
            return Err(FloorFault::StoreFault);
        }
        Ok(self.floors.copy()?)
    }

    fn raise(&mut self, alloc: Global, key: &Key, number: u32) -> Result<(), FloorFault> {
        if !self.is_usable {
            self.failures = self.failures.saturating_add(1);
            return Err(FloorFault::StoreFault);
        }
        match raise(&mut self.conn, &mut self.floors, alloc, key, number) {
            Ok(()) => Ok(()),
            Err(FloorFault::StoreFault) => {
                self.is_usable = false;
                self.failures = self.failures.saturating_add(1);
                Err(FloorFault::StoreFault)
            }
            Err(_) => {
                self.is_usable = false;
                Err(FloorFault::NoMemory)
            }
        }
    }

    fn raise_base(&mut self, number: u32) -> Result<(), FloorFault> {
        if !self.is_usable {
            self.failures = self.failures.saturating_add(1);
            return Err(FloorFault::StoreFault);
        }
        match raise_base(&mut self.conn, &mut self.floors, number) {
            Ok(()) => Ok(()),
            Err(FloorFault::StoreFault) => {
                self.is_usable = false;
                self.failures = self.failures.saturating_add(1);
                Err(FloorFault::StoreFault)
            }
            Err(_) => {
                self.is_usable = false;
                Err(FloorFault::NoMemory)
            }
        }
    }

    fn failures(&self) -> u64 {
        self.failures
    }
}
