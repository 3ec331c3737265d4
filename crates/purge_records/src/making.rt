//! Makes the tables of a blank file, or brings a file of form 1 to form 2, each in one transaction.
//! Each function states what its statement leads from and to, by `specs/Making`.
ghost use Rattle.std.specs.Prelude.{◌≡◌, ◌≢◌, ◌⊎◌, false, OnOk, Err};
ghost use Rattle.sqlite.specs.State.{HasCleanDisk, Survives};
ghost use Rattle.sqlite.specs.Held.{state};
ghost use Rattle.sqlite_trees.specs.Tree.{Trees};
ghost use Rattle.purge_tables.specs.Tables.{empty_schema};
ghost use Rattle.purge_tables.specs.Making.{IsBlank, IsFormed, Makes};
ghost use Rattle.purge_tables.specs.Rows.{HasVersion};
ghost use Rattle.purge_rules.specs.Purges.{no_purges};
ghost use Rattle.purge_records.specs.Tables.{purges_in};
ghost use Rattle.purge_records.specs.Making.{HasFirst, HasLast, HasPending, HasTables, IsFormOne};
ghost use Rattle.purge_records.specs.Making.{IsMade, IsUnadmitted, IsUnused, LeavesNoOther};
ghost use Rattle.purge_records.specs.Making.{no_rows};

use crate::fault::fault_of;
use purge_rules::PurgeFault;
use purge_tables::{create_form, is_blank};
use sqlite::{Alter, Connection, Error, Transaction};

/// Makes the table `last`.
fn create_last<S: Alter>(tx: &mut Transaction<'_, S>) -> Result<usize, Error>
    ensures same_reference { tx.new.conn.ghost_name ≡ tx.old.conn.ghost_name }
    ensures made { OnOk result (HasCleanDisk (state S.Store tx.new.conn.now) →
        Makes IsFormed HasLast (state S.Store tx.old.conn.now)
        (state S.Store tx.new.conn.now)) }
    ensures survives { Survives (state S.Store tx.old.conn.now) (state S.Store tx.new.conn.now)
        (λ _. ⊥) }
{
    tx.execute(
        "CREATE TABLE last (id INTEGER PRIMARY KEY CHECK (id = 1), number INTEGER NOT NULL) STRICT",
        &[],
    )
}

/// Makes the table `pending`.
fn create_pending<S: Alter>(tx: &mut Transaction<'_, S>) -> Result<usize, Error>
    ensures same_reference { tx.new.conn.ghost_name ≡ tx.old.conn.ghost_name }
    ensures made { OnOk result (HasCleanDisk (state S.Store tx.new.conn.now) →
        Makes HasLast HasPending (state S.Store tx.old.conn.now)
        (state S.Store tx.new.conn.now)) }
    ensures survives { Survives (state S.Store tx.old.conn.now) (state S.Store tx.new.conn.now)
        (λ _. ⊥) }
{
    tx.execute(
        "CREATE TABLE pending (number INTEGER PRIMARY KEY, url TEXT NOT NULL) STRICT",
        &[],
    )
}

/// Makes the table `acks`.
fn create_acks<S: Alter>(tx: &mut Transaction<'_, S>) -> Result<usize, Error>
    ensures same_reference { tx.new.conn.ghost_name ≡ tx.old.conn.ghost_name }
    ensures made { OnOk result (HasCleanDisk (state S.Store tx.new.conn.now) →
        Makes HasPending (HasFirst no_rows) (state S.Store tx.old.conn.now)
        (state S.Store tx.new.conn.now)) }
    ensures survives { Survives (state S.Store tx.old.conn.now) (state S.Store tx.new.conn.now)
        (λ _. ⊥) }
{
    tx.execute(
        "CREATE TABLE acks (number INTEGER NOT NULL, member INTEGER NOT NULL, PRIMARY KEY (number, member)) STRICT",
        &[],
    )
}

/// Makes the table `admitted`.
fn create_admitted<S: Alter>(tx: &mut Transaction<'_, S>) -> Result<usize, Error>
    ensures same_reference { tx.new.conn.ghost_name ≡ tx.old.conn.ghost_name }
    ensures made { OnOk result (HasCleanDisk (state S.Store tx.new.conn.now) → (rows : Trees) →
        Makes (HasFirst rows) (HasTables rows) (state S.Store tx.old.conn.now)
        (state S.Store tx.new.conn.now)) }
    ensures survives { Survives (state S.Store tx.old.conn.now) (state S.Store tx.new.conn.now)
        (λ _. ⊥) }
{
    tx.execute(
        "CREATE TABLE admitted (member INTEGER PRIMARY KEY CHECK (member >= 1 AND member <= 16), number INTEGER NOT NULL UNIQUE, done INTEGER NOT NULL CHECK (done = 0 OR done = 1)) STRICT",
        &[],
    )
}

/// Writes the one row of `form`, the version 2.
fn name_version<S: Alter>(tx: &mut Transaction<'_, S>) -> Result<usize, Error>
    ensures same_reference { tx.new.conn.ghost_name ≡ tx.old.conn.ghost_name }
    ensures made { OnOk result (HasCleanDisk (state S.Store tx.new.conn.now) →
        Makes (HasTables no_rows) (IsUnadmitted no_rows) (state S.Store tx.old.conn.now)
        (state S.Store tx.new.conn.now)) }
    ensures survives { Survives (state S.Store tx.old.conn.now) (state S.Store tx.new.conn.now)
        (λ _. ⊥) }
{
    tx.execute("INSERT INTO form (version) VALUES (2)", &[])
}

/// Sets the version 2 in the one row of `form`.
fn set_version<S: Alter>(tx: &mut Transaction<'_, S>) -> Result<usize, Error>
    ensures same_reference { tx.new.conn.ghost_name ≡ tx.old.conn.ghost_name }
    ensures made { OnOk result (HasCleanDisk (state S.Store tx.new.conn.now) → (rows : Trees) →
        HasVersion 1 (rows 0) → Makes (HasTables rows) (IsUnadmitted rows)
        (state S.Store tx.old.conn.now) (state S.Store tx.new.conn.now)) }
    ensures survives { Survives (state S.Store tx.old.conn.now) (state S.Store tx.new.conn.now)
        (λ _. ⊥) }
{
    tx.execute("UPDATE form SET version = 2", &[])
}

/// Writes the one row of `last`, the number 0.
fn start_numbers<S: Alter>(tx: &mut Transaction<'_, S>) -> Result<usize, Error>
    ensures same_reference { tx.new.conn.ghost_name ≡ tx.old.conn.ghost_name }
    ensures made { OnOk result (HasCleanDisk (state S.Store tx.new.conn.now) →
        Makes (IsUnadmitted no_rows) IsUnused (state S.Store tx.old.conn.now)
        (state S.Store tx.new.conn.now)) }
    ensures survives { Survives (state S.Store tx.old.conn.now) (state S.Store tx.new.conn.now)
        (λ _. ⊥) }
{
    tx.execute("INSERT INTO last (id, number) VALUES (1, 0)", &[])
}

/// Makes `form`, `last`, `pending` and `acks`.
fn make_first<S: Alter>(tx: &mut Transaction<'_, S>) -> Result<(), Error>
    ensures same_reference { tx.new.conn.ghost_name ≡ tx.old.conn.ghost_name }
    ensures made { OnOk result (HasCleanDisk (state S.Store tx.new.conn.now) →
        Makes IsBlank (HasFirst no_rows) (state S.Store tx.old.conn.now)
        (state S.Store tx.new.conn.now)) }
    ensures survives { Survives (state S.Store tx.old.conn.now) (state S.Store tx.new.conn.now)
        (λ _. ⊥) }
{
    create_form(tx)?;
    create_last(tx)?;
    create_pending(tx)?;
    create_acks(tx)?;
    Ok(())
}

/// Makes `admitted`, and the rows of a new file.
fn make_rest<S: Alter>(tx: &mut Transaction<'_, S>) -> Result<(), Error>
    ensures same_reference { tx.new.conn.ghost_name ≡ tx.old.conn.ghost_name }
    ensures made { OnOk result (HasCleanDisk (state S.Store tx.new.conn.now) →
        Makes (HasFirst no_rows) IsUnused (state S.Store tx.old.conn.now)
        (state S.Store tx.new.conn.now)) }
    ensures survives { Survives (state S.Store tx.old.conn.now) (state S.Store tx.new.conn.now)
        (λ _. ⊥) }
{
    create_admitted(tx)?;
    name_version(tx)?;
    start_numbers(tx)?;
    Ok(())
}

/// Makes a master's tables with the version 2, the last number 0, no purge and no admission, in the
/// open transaction.
fn fill<S: Alter>(tx: &mut Transaction<'_, S>) -> Result<(), Error>
    ensures same_reference { tx.new.conn.ghost_name ≡ tx.old.conn.ghost_name }
    ensures made { OnOk result (HasCleanDisk (state S.Store tx.new.conn.now) →
        Makes IsBlank IsUnused (state S.Store tx.old.conn.now)
        (state S.Store tx.new.conn.now)) }
    ensures survives { Survives (state S.Store tx.old.conn.now) (state S.Store tx.new.conn.now)
        (λ _. ⊥) }
{
    make_first(tx)?;
    make_rest(tx)
}

/// Adds the table `admitted`, without a row, to a file of form 1, and names the version 2, in the
/// open transaction.
fn add_admitted<S: Alter>(tx: &mut Transaction<'_, S>) -> Result<(), Error>
    ensures same_reference { tx.new.conn.ghost_name ≡ tx.old.conn.ghost_name }
    ensures made { OnOk result (HasCleanDisk (state S.Store tx.new.conn.now) → (rows : Trees) →
        HasVersion 1 (rows 0) → Makes (HasFirst rows) (IsUnadmitted rows)
        (state S.Store tx.old.conn.now) (state S.Store tx.new.conn.now)) }
    ensures survives { Survives (state S.Store tx.old.conn.now) (state S.Store tx.new.conn.now)
        (λ _. ⊥) }
{
    create_admitted(tx)?;
    set_version(tx)?;
    Ok(())
}

/// Makes the tables and commits them, in one transaction.
fn make_tables<S: Alter>(conn: &mut Connection<S>) -> Result<(), Error>
    ensures made { OnOk result (HasCleanDisk (state S.Store conn.new) →
        IsBlank (state S.Store conn.old).now → IsMade IsUnused (state S.Store conn.new)) }
    ensures survives { Survives (state S.Store conn.old) (state S.Store conn.new) (λ trees.
        (state S.Store conn.old).now.schema ≡ empty_schema → purges_in trees ≡ no_purges) }
{
    if !conn.is_autocommit() {
        return Err(Error::InvalidQuery);
    }
    let mut tx = conn.transaction();
    fill(&mut tx)?;
    tx.commit()
}

/// Brings a file of form 1 to form 2 and commits it, in one transaction. The rows stay.
pub(crate) fn bring_over<S: Alter>(conn: &mut Connection<S>) -> Result<(), Error>
    ensures made { OnOk result (HasCleanDisk (state S.Store conn.new) →
        IsFormOne (state S.Store conn.old).now →
        IsMade (IsUnadmitted (state S.Store conn.old).now.trees) (state S.Store conn.new)) }
    ensures survives { Survives (state S.Store conn.old) (state S.Store conn.new) (λ trees.
        IsFormOne (state S.Store conn.old).now →
        purges_in trees ≡ purges_in (state S.Store conn.old).now.trees) }
{
    if !conn.is_autocommit() {
        return Err(Error::InvalidQuery);
    }
    let mut tx = conn.transaction();
    add_admitted(&mut tx)?;
    tx.commit()
}

/// Makes the tables if the file is blank; else does nothing.
pub(crate) fn make_where_blank<S: Alter>(conn: &mut Connection<S>) -> Result<(), PurgeFault>
    requires { (state S.Store conn.old).in_transaction ≡ false }
    ensures done { OnOk result ((IsBlank (state S.Store conn.old).now
        × (HasCleanDisk (state S.Store conn.new) → IsMade IsUnused (state S.Store conn.new)))
        ⊎ ((¬ IsBlank (state S.Store conn.old).now) × (conn.new ≡ conn.old))) }
    ensures named { result ≢ Err PurgeFault.BadTable }
    ensures crash { LeavesNoOther (state S.Store conn.old) (state S.Store conn.new) }
    ensures limit { (state S.Store conn.new).step_limit ≡ (state S.Store conn.old).step_limit }
{
    if !is_blank(conn.schema()) {
        return Ok(());
    }
    match make_tables(conn) {
        Ok(()) => Ok(()),
        Err(error) => Err(fault_of(error)),
    }
}
