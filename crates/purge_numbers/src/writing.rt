//! A raise of a key or of the base: first in the file, then in the copy in memory. A row takes one
//! statement, a full table one transaction, and a raise of the base one statement.
//!
//! Functions that take a transaction state what each statement leads from and to, by
//! `specs/Writing`.
ghost use Rattle.std.specs.Prelude.{◌≡◌, ◌≢◌, ◌⊎◌, ◌≤◌, [], List, IsTrue, IfErr, OnOk, Ok, Err};
ghost use Rattle.sqlite.specs.State.{HasCleanDisk, Survives, Executes, ExecutesInside};
ghost use Rattle.sqlite.specs.Held.{state};
ghost use Rattle.sqlite_value.specs.Order.{Row as Values};
ghost use Rattle.floor_rules.specs.Floors.{FloorTable, raised, with_base, with_row, base_only};
ghost use Rattle.floor_rules.specs.Raising.{after};
ghost use Rattle.floor_rules.specs.Store.{IsBeforeOrAfter, IsBeforeOrAfterBase};
ghost use Rattle.purge_tables.specs.Making.{Makes};
ghost use Rattle.purge_numbers.specs.Making.{HasForm, HasNoFloors, HasNode};
ghost use Rattle.purge_numbers.specs.Put.{FailsAmong, FailsInside, FailsToRebase, FailsToWrite};
ghost use Rattle.purge_numbers.specs.Put.{FailsToRaise, FailsToRaiseBase, Rebases, RunsAll};
ghost use Rattle.purge_numbers.specs.Put.{base_params, base_text, clear_texts, drop_base_text};
ghost use Rattle.purge_numbers.specs.Put.{drop_floors_text, put_params};
ghost use Rattle.purge_numbers.specs.Put.{put_text};
ghost use Rattle.purge_numbers.specs.Store.{IsReady, IsNode, AreIn, committed_floors, MayFind};
ghost use Rattle.purge_numbers.specs.Tables.{floors_in};
ghost use Rattle.purge_numbers.specs.Writing.{HasNoRows, Holds, Commits};

use crate::fault::fault_of;
use crate::making::{create_base, create_floors, start_base};
use floor_rules::{FloorFault, Floors, Raising};
use sqlite::types::ToSql;
use sqlite::{Alter, Connection, Error, Transaction};
use sqlite_value::value::ValueRef;
use std::alloc::Global;
use url_key::Key;

/// Sets the number of the url in the file, in one statement that commits by itself.
fn put<S: Alter>(conn: &mut Connection<S>, url: &[u8], number: u32) -> Result<usize, Error>
    requires { HasCleanDisk (state S.Store conn.old) → IsReady (state S.Store conn.old) }
    ensures honest { HasCleanDisk (state S.Store conn.new) → HasCleanDisk (state S.Store conn.old) }
    ensures ready { OnOk result (HasCleanDisk (state S.Store conn.new) →
        IsReady (state S.Store conn.new)) }
    ensures put { OnOk result (HasCleanDisk (state S.Store conn.new) →
        committed_floors (state S.Store conn.new)
        ≡ with_row (committed_floors (state S.Store conn.old)) url.now number) }
    ensures failed { IfErr result (λ e. HasCleanDisk (state S.Store conn.new) →
        Executes put_text (put_params url.now number) (state S.Store conn.old)
        (state S.Store conn.new) (Err e)) }
    ensures crash { HasCleanDisk (state S.Store conn.new) → (floors : FloorTable) →
        MayFind (state S.Store conn.new) floors
        → (floors ≡ committed_floors (state S.Store conn.old))
        ⊎ (floors ≡ with_row (committed_floors (state S.Store conn.old)) url.now number) }
{
    conn.execute(
        "INSERT INTO floors (url, number) VALUES (?1, ?2) ON CONFLICT (url) DO UPDATE SET number = excluded.number",
        &[ValueRef::Text(url), number.to_sql()],
    )
}

/// Drops the table `floors`, with its index.
fn drop_floors<S: Alter>(tx: &mut Transaction<'_, S>) -> Result<usize, Error>
    ensures same_reference { tx.new.conn.ghost_name ≡ tx.old.conn.ghost_name }
    ensures made { OnOk result (HasCleanDisk (state S.Store tx.new.conn.now) →
        (versions : List Values) → Makes (HasNode versions) (HasNoFloors versions)
        (state S.Store tx.old.conn.now) (state S.Store tx.new.conn.now)) }
    ensures runs { HasCleanDisk (state S.Store tx.new.conn.now) →
        IsTrue (state S.Store tx.old.conn.now).in_transaction →
        ExecutesInside 0 drop_floors_text [] (state S.Store tx.old.conn.now)
        (state S.Store tx.new.conn.now) result }
    ensures survives { Survives (state S.Store tx.old.conn.now) (state S.Store tx.new.conn.now)
        (λ _. ⊥) }
{
    tx.execute("DROP TABLE floors", &[])
}

/// Drops the table `base`, where there is no `floors`.
fn drop_base<S: Alter>(tx: &mut Transaction<'_, S>) -> Result<usize, Error>
    ensures same_reference { tx.new.conn.ghost_name ≡ tx.old.conn.ghost_name }
    ensures made { OnOk result (HasCleanDisk (state S.Store tx.new.conn.now) →
        (versions : List Values) → Makes (HasNoFloors versions) (HasForm versions)
        (state S.Store tx.old.conn.now) (state S.Store tx.new.conn.now)) }
    ensures runs { HasCleanDisk (state S.Store tx.new.conn.now) →
        IsTrue (state S.Store tx.old.conn.now).in_transaction →
        ExecutesInside 0 drop_base_text [] (state S.Store tx.old.conn.now)
        (state S.Store tx.new.conn.now) result }
    ensures survives { Survives (state S.Store tx.old.conn.now) (state S.Store tx.new.conn.now)
        (λ _. ⊥) }
{
    tx.execute("DROP TABLE base", &[])
}

/// Drops all rows. A DELETE takes each row by itself, from the table and from its index; so both
/// tables are dropped and made anew, in the order that an open asks for.
fn clear<S: Alter>(tx: &mut Transaction<'_, S>) -> Result<(), Error>
    ensures same_reference { tx.new.conn.ghost_name ≡ tx.old.conn.ghost_name }
    ensures made { OnOk result (HasCleanDisk (state S.Store tx.new.conn.now) →
        Makes IsNode HasNoRows (state S.Store tx.old.conn.now)
        (state S.Store tx.new.conn.now)) }
    ensures ran { OnOk result (HasCleanDisk (state S.Store tx.new.conn.now) →
        IsTrue (state S.Store tx.old.conn.now).in_transaction →
        RunsAll S.Store clear_texts tx.old.conn.now tx.new.conn.now
        × IsTrue (state S.Store tx.new.conn.now).in_transaction) }
    ensures failed { IfErr result (λ e. HasCleanDisk (state S.Store tx.new.conn.now) →
        IsTrue (state S.Store tx.old.conn.now).in_transaction →
        FailsAmong S.Store clear_texts tx.old.conn.now tx.new.conn.now e) }
    ensures survives { Survives (state S.Store tx.old.conn.now) (state S.Store tx.new.conn.now)
        (λ _. ⊥) }
{
    drop_floors(tx)?;
    drop_base(tx)?;
    create_floors(tx)?;
    create_base(tx)?;
    start_base(tx)?;
    Ok(())
}

/// Sets the base, where there are no rows.
fn set_base<S: Alter>(tx: &mut Transaction<'_, S>, number: u32) -> Result<usize, Error>
    ensures same_reference { tx.new.conn.ghost_name ≡ tx.old.conn.ghost_name }
    ensures made { OnOk result (HasCleanDisk (state S.Store tx.new.conn.now) →
        Makes HasNoRows (Holds (base_only number)) (state S.Store tx.old.conn.now)
        (state S.Store tx.new.conn.now)) }
    ensures runs { HasCleanDisk (state S.Store tx.new.conn.now) →
        IsTrue (state S.Store tx.old.conn.now).in_transaction →
        ExecutesInside 0 base_text (base_params number) (state S.Store tx.old.conn.now)
        (state S.Store tx.new.conn.now) result }
    ensures survives { Survives (state S.Store tx.old.conn.now) (state S.Store tx.new.conn.now)
        (λ _. ⊥) }
{
    tx.execute("UPDATE base SET number = ?1", &[number.to_sql()])
}

/// Drops all rows and sets the base, in the open transaction.
fn replace<S: Alter>(tx: &mut Transaction<'_, S>, number: u32) -> Result<(), Error>
    ensures same_reference { tx.new.conn.ghost_name ≡ tx.old.conn.ghost_name }
    ensures made { OnOk result (HasCleanDisk (state S.Store tx.new.conn.now) →
        Makes IsNode (Holds (base_only number)) (state S.Store tx.old.conn.now)
        (state S.Store tx.new.conn.now)) }
    ensures ran { OnOk result (HasCleanDisk (state S.Store tx.new.conn.now) →
        IsTrue (state S.Store tx.old.conn.now).in_transaction →
        Rebases S.Store tx.old.conn.now tx.new.conn.now number) }
    ensures failed { IfErr result (λ e. HasCleanDisk (state S.Store tx.new.conn.now) →
        IsTrue (state S.Store tx.old.conn.now).in_transaction →
        FailsInside S.Store tx.old.conn.now tx.new.conn.now number e) }
    ensures survives { Survives (state S.Store tx.old.conn.now) (state S.Store tx.new.conn.now)
        (λ _. ⊥) }
{
    clear(tx)?;
    set_base(tx, number)?;
    Ok(())
}

/// Drops all rows and sets the base, and commits that, in one transaction.
fn rebase<S: Alter>(conn: &mut Connection<S>, number: u32) -> Result<(), Error>
    ensures made { OnOk result (HasCleanDisk (state S.Store conn.new) →
        IsNode (state S.Store conn.old).now →
        Commits (base_only number) (state S.Store conn.new)) }
    ensures failed { IfErr result (λ e. HasCleanDisk (state S.Store conn.new) →
        IsReady (state S.Store conn.old) → FailsToRebase S.Store conn.old conn.new number e) }
    ensures survives { Survives (state S.Store conn.old) (state S.Store conn.new) (λ trees.
        IsNode (state S.Store conn.old).now → floors_in trees ≡ base_only number) }
{
    if !conn.is_autocommit() {
        return Err(Error::InvalidQuery);
    }
    let mut tx = conn.transaction();
    replace(&mut tx, number)?;
    tx.commit()
}

/// Writes what a raise makes of the floors: nothing, a row by one statement, or the base by one
/// transaction.
fn write<S: Alter>(conn: &mut Connection<S>, url: &[u8], raising: Raising) -> Result<(), Error>
    requires { HasCleanDisk (state S.Store conn.old) → IsReady (state S.Store conn.old) }
    ensures honest { HasCleanDisk (state S.Store conn.new) → HasCleanDisk (state S.Store conn.old) }
    ensures ready { OnOk result (HasCleanDisk (state S.Store conn.new) →
        IsReady (state S.Store conn.new)) }
    ensures written { OnOk result (HasCleanDisk (state S.Store conn.new) →
        committed_floors (state S.Store conn.new)
        ≡ after raising (committed_floors (state S.Store conn.old)) url.now) }
    ensures failed { IfErr result (λ e. HasCleanDisk (state S.Store conn.new) →
        FailsToWrite S.Store conn.old conn.new url.now raising e) }
    ensures crash { HasCleanDisk (state S.Store conn.new) → (floors : FloorTable) →
        MayFind (state S.Store conn.new) floors
        → (floors ≡ committed_floors (state S.Store conn.old))
        ⊎ (floors ≡ after raising (committed_floors (state S.Store conn.old)) url.now) }
{
    match raising {
        Raising::Nothing => Ok(()),
        Raising::Row(number) => {
            put(conn, url, number)?;
            Ok(())
        }
        Raising::Base(number) => rebase(conn, number),
    }
}

/// Raises the key's floor to this number, first in the file and then in the copy in memory.
///
/// Runs no statement if nothing changes. `NoMemory` may come after the commit, if the copy cannot
/// grow.
pub(crate) fn raise<S: Alter>(
    conn: &mut Connection<S>,
    floors: &mut Floors,
    alloc: Global,
    key: &Key,
    number: u32,
) -> Result<(), FloorFault>
    requires held { HasCleanDisk (state S.Store conn.old) →
        AreIn (state S.Store conn.old) floors.old }
    ensures honest { HasCleanDisk (state S.Store conn.new) → HasCleanDisk (state S.Store conn.old) }
    ensures kept { OnOk result (HasCleanDisk (state S.Store conn.new) →
        AreIn (state S.Store conn.new) floors.new) }
    ensures raised { OnOk result (HasCleanDisk (state S.Store conn.new) →
        committed_floors (state S.Store conn.new)
        ≡ raised (committed_floors (state S.Store conn.old)) key.now number) }
    ensures crash { HasCleanDisk (state S.Store conn.new) → (left : FloorTable) →
        MayFind (state S.Store conn.new) left
        → IsBeforeOrAfter (committed_floors (state S.Store conn.old)) key.now number left }
    ensures cause { result ≡ Err FloorFault.StoreFault → HasCleanDisk (state S.Store conn.new) →
        FailsToRaise S.Store conn.old conn.new key.now number }
    ensures named { result ≢ Err FloorFault.BadTable }
{
    let raising = floors.raising(key, number);
    if let Err(error) = write(conn, key.text(), raising) {
        return Err(fault_of(error));
    }
    floors.raise(alloc, key, number)?;
    Ok(())
}

/// Sets the base in the file, where it does not fall, in one statement that commits by itself. The
/// rows stay.
fn put_base<S: Alter>(conn: &mut Connection<S>, number: u32) -> Result<usize, Error>
    requires ready { HasCleanDisk (state S.Store conn.old) → IsReady (state S.Store conn.old) }
    requires above { HasCleanDisk (state S.Store conn.old) →
        (committed_floors (state S.Store conn.old)).base ≤ number }
    ensures honest { HasCleanDisk (state S.Store conn.new) → HasCleanDisk (state S.Store conn.old) }
    ensures ready { OnOk result (HasCleanDisk (state S.Store conn.new) →
        IsReady (state S.Store conn.new)) }
    ensures put { OnOk result (HasCleanDisk (state S.Store conn.new) →
        committed_floors (state S.Store conn.new)
        ≡ with_base (committed_floors (state S.Store conn.old)) number) }
    ensures failed { IfErr result (λ e. HasCleanDisk (state S.Store conn.new) →
        Executes base_text (base_params number) (state S.Store conn.old)
        (state S.Store conn.new) (Err e)) }
    ensures crash { HasCleanDisk (state S.Store conn.new) → (floors : FloorTable) →
        MayFind (state S.Store conn.new) floors
        → IsBeforeOrAfterBase (committed_floors (state S.Store conn.old)) number floors }
{
    conn.execute("UPDATE base SET number = ?1", &[number.to_sql()])
}

/// Raises the base to this number, first in the file and then in the copy in memory. The rows stay.
///
/// Runs no statement if the base is no less.
pub(crate) fn raise_base<S: Alter>(
    conn: &mut Connection<S>,
    floors: &mut Floors,
    number: u32,
) -> Result<(), FloorFault>
    requires held { HasCleanDisk (state S.Store conn.old) →
        AreIn (state S.Store conn.old) floors.old }
    ensures honest { HasCleanDisk (state S.Store conn.new) → HasCleanDisk (state S.Store conn.old) }
    ensures kept { OnOk result (HasCleanDisk (state S.Store conn.new) →
        AreIn (state S.Store conn.new) floors.new) }
    ensures raised { OnOk result (HasCleanDisk (state S.Store conn.new) →
        committed_floors (state S.Store conn.new)
        ≡ with_base (committed_floors (state S.Store conn.old)) number) }
    ensures crash { HasCleanDisk (state S.Store conn.new) → (left : FloorTable) →
        MayFind (state S.Store conn.new) left
        → IsBeforeOrAfterBase (committed_floors (state S.Store conn.old)) number left }
    ensures cause { result ≡ Err FloorFault.StoreFault → HasCleanDisk (state S.Store conn.new) →
        FailsToRaiseBase S.Store conn.old conn.new number }
    ensures named { result ≢ Err FloorFault.BadTable }
{
    if number <= floors.base() {
        return Ok(());
    }
    if let Err(error) = put_base(conn, number) {
        return Err(fault_of(error));
    }
    floors.raise_base(number);
    Ok(())
}
