//! Makes the tables of a blank file, or brings a file of form 1 to form 2, each in one transaction.
//! Each function states what its statement leads from and to, by `specs/Making`. `writing.rt` makes
//! tables anew by the same statements.
ghost use Rattle.std.specs.Prelude.{◌≡◌, ◌≢◌, ◌⊎◌, ◌<◌, [], List, false, IsTrue, OnOk, Err};
ghost use Rattle.sqlite.specs.State.{HasCleanDisk, Survives, ExecutesInside};
ghost use Rattle.sqlite.specs.Held.{state};
ghost use Rattle.sqlite_value.specs.Order.{Row as Values};
ghost use Rattle.floor_rules.specs.Floors.{no_floors};
ghost use Rattle.purge_tables.specs.Making.{IsBlank, Makes};
ghost use Rattle.purge_tables.specs.Rows.{HasVersion};
ghost use Rattle.purge_tables.specs.Tables.{empty_schema};
ghost use Rattle.purge_numbers.specs.Making.{HasForm, HasFloors, HasTables, IsVersioned};
ghost use Rattle.purge_numbers.specs.Making.{IsBaseless};
ghost use Rattle.purge_numbers.specs.Making.{IsMade, IsFormOne, LeavesNoOther};
ghost use Rattle.purge_numbers.specs.Put.{make_base_text, make_floors_text, start_text};
ghost use Rattle.purge_numbers.specs.Tables.{floors_in};

use crate::fault::fault_of;
use floor_rules::FloorFault;
use purge_tables::{create_form, is_blank};
use sqlite::types::ToSql;
use sqlite::{Alter, Connection, Error, Transaction};

/// Makes the table `floors`.
pub(crate) fn create_floors<S: Alter>(tx: &mut Transaction<'_, S>) -> Result<usize, Error>
    ensures same_reference { tx.new.conn.ghost_name ≡ tx.old.conn.ghost_name }
    ensures made { OnOk result (HasCleanDisk (state S.Store tx.new.conn.now) →
        (versions : List Values) → Makes (HasForm versions) (HasFloors versions [])
        (state S.Store tx.old.conn.now) (state S.Store tx.new.conn.now)) }
    ensures runs { HasCleanDisk (state S.Store tx.new.conn.now) →
        IsTrue (state S.Store tx.old.conn.now).in_transaction →
        ExecutesInside 0 make_floors_text [] (state S.Store tx.old.conn.now)
        (state S.Store tx.new.conn.now) result }
    ensures survives { Survives (state S.Store tx.old.conn.now) (state S.Store tx.new.conn.now)
        (λ _. ⊥) }
{
    tx.execute(
        "CREATE TABLE floors (url TEXT PRIMARY KEY NOT NULL, number INTEGER NOT NULL CHECK (number >= 1 AND number <= 4294967295)) STRICT",
        &[],
    )
}

/// Makes the table `base`.
pub(crate) fn create_base<S: Alter>(tx: &mut Transaction<'_, S>) -> Result<usize, Error>
    ensures same_reference { tx.new.conn.ghost_name ≡ tx.old.conn.ghost_name }
    ensures made { OnOk result (HasCleanDisk (state S.Store tx.new.conn.now) →
        (versions floors : List Values) →
        Makes (HasFloors versions floors) (HasTables versions floors)
        (state S.Store tx.old.conn.now) (state S.Store tx.new.conn.now)) }
    ensures runs { HasCleanDisk (state S.Store tx.new.conn.now) →
        IsTrue (state S.Store tx.old.conn.now).in_transaction →
        ExecutesInside 0 make_base_text [] (state S.Store tx.old.conn.now)
        (state S.Store tx.new.conn.now) result }
    ensures survives { Survives (state S.Store tx.old.conn.now) (state S.Store tx.new.conn.now)
        (λ _. ⊥) }
{
    tx.execute(
        "CREATE TABLE base (id INTEGER PRIMARY KEY CHECK (id = 1), number INTEGER NOT NULL CHECK (number >= 0 AND number <= 4294967295)) STRICT",
        &[],
    )
}

/// Writes the one row of `form`.
fn name_version<S: Alter>(tx: &mut Transaction<'_, S>, version: u32) -> Result<usize, Error>
    ensures same_reference { tx.new.conn.ghost_name ≡ tx.old.conn.ghost_name }
    ensures made { OnOk result (HasCleanDisk (state S.Store tx.new.conn.now) →
        (floors : List Values) → Makes (HasTables [] floors) (IsVersioned version floors)
        (state S.Store tx.old.conn.now) (state S.Store tx.new.conn.now)) }
    ensures survives { Survives (state S.Store tx.old.conn.now) (state S.Store tx.new.conn.now)
        (λ _. ⊥) }
{
    tx.execute(
        "INSERT INTO form (version) VALUES (?1)",
        &[version.to_sql()],
    )
}

/// Sets the version in the one row of `form`.
fn set_version<S: Alter>(tx: &mut Transaction<'_, S>, version: u32) -> Result<usize, Error>
    ensures same_reference { tx.new.conn.ghost_name ≡ tx.old.conn.ghost_name }
    ensures made { OnOk result (HasCleanDisk (state S.Store tx.new.conn.now) →
        (versions floors : List Values) → HasVersion 1 versions →
        Makes (HasTables versions floors) (IsVersioned version floors)
        (state S.Store tx.old.conn.now) (state S.Store tx.new.conn.now)) }
    ensures survives { Survives (state S.Store tx.old.conn.now) (state S.Store tx.new.conn.now)
        (λ _. ⊥) }
{
    tx.execute("UPDATE form SET version = ?1", &[version.to_sql()])
}

/// Writes the one row of `base`, the number 0.
pub(crate) fn start_base<S: Alter>(tx: &mut Transaction<'_, S>) -> Result<usize, Error>
    ensures same_reference { tx.new.conn.ghost_name ≡ tx.old.conn.ghost_name }
    ensures made { OnOk result (HasCleanDisk (state S.Store tx.new.conn.now) →
        (floors : List Values) → Makes (IsVersioned 2 floors) (IsBaseless floors)
        (state S.Store tx.old.conn.now) (state S.Store tx.new.conn.now)) }
    ensures runs { HasCleanDisk (state S.Store tx.new.conn.now) →
        IsTrue (state S.Store tx.old.conn.now).in_transaction →
        ExecutesInside 0 start_text [] (state S.Store tx.old.conn.now)
        (state S.Store tx.new.conn.now) result }
    ensures survives { Survives (state S.Store tx.old.conn.now) (state S.Store tx.new.conn.now)
        (λ _. ⊥) }
{
    tx.execute("INSERT INTO base (id, number) VALUES (1, 0)", &[])
}

/// Makes `form`, `floors` and `base`.
fn make_first<S: Alter>(tx: &mut Transaction<'_, S>) -> Result<(), Error>
    ensures same_reference { tx.new.conn.ghost_name ≡ tx.old.conn.ghost_name }
    ensures made { OnOk result (HasCleanDisk (state S.Store tx.new.conn.now) →
        Makes IsBlank (HasTables [] []) (state S.Store tx.old.conn.now)
        (state S.Store tx.new.conn.now)) }
    ensures survives { Survives (state S.Store tx.old.conn.now) (state S.Store tx.new.conn.now)
        (λ _. ⊥) }
{
    create_form(tx)?;
    create_floors(tx)?;
    create_base(tx)?;
    Ok(())
}

/// Makes a node's tables with the version 2, the base 0 and no row, in the open transaction.
fn fill<S: Alter>(tx: &mut Transaction<'_, S>) -> Result<(), Error>
    ensures same_reference { tx.new.conn.ghost_name ≡ tx.old.conn.ghost_name }
    ensures made { OnOk result (HasCleanDisk (state S.Store tx.new.conn.now) →
        Makes IsBlank (IsBaseless []) (state S.Store tx.old.conn.now)
        (state S.Store tx.new.conn.now)) }
    ensures survives { Survives (state S.Store tx.old.conn.now) (state S.Store tx.new.conn.now)
        (λ _. ⊥) }
{
    make_first(tx)?;
    name_version(tx, 2)?;
    start_base(tx)?;
    Ok(())
}

/// Adds the base 0 to a file of form 1, and names the version 2, in the open transaction.
fn add_base<S: Alter>(tx: &mut Transaction<'_, S>) -> Result<(), Error>
    ensures same_reference { tx.new.conn.ghost_name ≡ tx.old.conn.ghost_name }
    ensures made { OnOk result (HasCleanDisk (state S.Store tx.new.conn.now) →
        (versions floors : List Values) → HasVersion 1 versions →
        Makes (HasFloors versions floors) (IsBaseless floors)
        (state S.Store tx.old.conn.now) (state S.Store tx.new.conn.now)) }
    ensures survives { Survives (state S.Store tx.old.conn.now) (state S.Store tx.new.conn.now)
        (λ _. ⊥) }
{
    create_base(tx)?;
    set_version(tx, 2)?;
    start_base(tx)?;
    Ok(())
}

/// Makes the tables and commits them, in one transaction.
fn make_tables<S: Alter>(conn: &mut Connection<S>) -> Result<(), Error>
    ensures made { OnOk result (HasCleanDisk (state S.Store conn.new) →
        IsBlank (state S.Store conn.old).now → IsMade [] (state S.Store conn.new)) }
    ensures survives { Survives (state S.Store conn.old) (state S.Store conn.new) (λ trees.
        (state S.Store conn.old).now.schema ≡ empty_schema → floors_in trees ≡ no_floors) }
{
    if !conn.is_autocommit() {
        return Err(Error::InvalidQuery);
    }
    let mut tx = conn.transaction();
    fill(&mut tx)?;
    tx.commit()
}

/// Brings a file of form 1 to form 2 and commits it, in one transaction. The rows stay.
pub(crate) fn bring_over<S: Alter>(conn: &mut Connection<S>) -> Result<(), Error>
    ensures made { OnOk result (HasCleanDisk (state S.Store conn.new) →
        IsFormOne (state S.Store conn.old).now →
        IsMade ((state S.Store conn.old).now.trees 1) (state S.Store conn.new)) }
    ensures survives { Survives (state S.Store conn.old) (state S.Store conn.new) (λ trees.
        IsFormOne (state S.Store conn.old).now →
        floors_in trees ≡ floors_in (state S.Store conn.old).now.trees) }
{
    if !conn.is_autocommit() {
        return Err(Error::InvalidQuery);
    }
    let mut tx = conn.transaction();
    add_base(&mut tx)?;
    tx.commit()
}

/// Makes the tables if the file is blank; else does nothing.
pub(crate) fn make_where_blank<S: Alter>(conn: &mut Connection<S>) -> Result<(), FloorFault>
    requires { (state S.Store conn.old).in_transaction ≡ false }
    ensures done { OnOk result ((IsBlank (state S.Store conn.old).now
        × (HasCleanDisk (state S.Store conn.new) → IsMade [] (state S.Store conn.new)))
        ⊎ ((¬ IsBlank (state S.Store conn.old).now) × (conn.new ≡ conn.old))) }
    ensures named { result ≢ Err FloorFault.BadTable }
    ensures crash { LeavesNoOther (state S.Store conn.old) (state S.Store conn.new) }
    ensures limit { (state S.Store conn.new).step_limit ≡ (state S.Store conn.old).step_limit }
{
    if !is_blank(conn.schema()) {
        return Ok(());
    }
    match make_tables(conn) {
        Ok(()) => Ok(()),
        Err(error) => Err(fault_of(error)),
    }
}
