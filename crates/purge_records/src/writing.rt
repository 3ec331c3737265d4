//! The writes: `add`, `admit`, `mark` and `finish`, in the copy in memory and then in the file.
//!
//! Functions that take a transaction state what each statement leads from and to, by
//! `specs/Writing`.
ghost use Rattle.std.specs.Prelude.{◌≡◌, ◌≢◌, ◌≤◌, ◌<◌, false, OnOk, Err};
ghost use Rattle.sqlite.specs.State.{HasCleanDisk, Survives};
ghost use Rattle.sqlite.specs.Held.{state};
ghost use Rattle.url_key.specs.Key.{IsKey};
ghost use Rattle.purge_tables.specs.Making.{Makes};
ghost use Rattle.purge_rules.specs.Purges.{PurgeList, is_admitted, with_admission, with_done};
ghost use Rattle.purge_rules.specs.Purges.{with_mark, with_purge};
ghost use Rattle.purge_rules.specs.Places.{with_ended, without_purge};
ghost use Rattle.purge_rules.specs.Store.{IsEither, Misses};
ghost use Rattle.purge_records.specs.Tables.{purges_in};
ghost use Rattle.purge_records.specs.Store.{AreIn, IsReady, committed_purges, MayFind};
ghost use Rattle.purge_records.specs.Writing.{Holds, HasGiven, HasNoAcks, Commits};

use crate::fault::fault_of;
use crate::rows::is_missed;
use purge_rules::{PurgeFault, Purges};
use sqlite::types::ToSql;
use sqlite::{Alter, Connection, Error, Transaction};
use sqlite_value::value::ValueRef;
use std::alloc::Global;
use url_key::Key;

/// Sets the number in `last`.
fn give_number<S: Alter>(tx: &mut Transaction<'_, S>, number: u32) -> Result<usize, Error>
    ensures same_reference { tx.new.conn.ghost_name ≡ tx.old.conn.ghost_name }
    ensures made { OnOk result (HasCleanDisk (state S.Store tx.new.conn.now) →
        (before : PurgeList) → before.last < number →
        Makes (Holds before) (HasGiven before number) (state S.Store tx.old.conn.now)
        (state S.Store tx.new.conn.now)) }
    ensures survives { Survives (state S.Store tx.old.conn.now) (state S.Store tx.new.conn.now)
        (λ _. ⊥) }
{
    tx.execute("UPDATE last SET number = ?1", &[number.to_sql()])
}

/// Inserts the row of the purge, whose number is the last one.
fn put_purge<S: Alter>(tx: &mut Transaction<'_, S>, number: u32, url: &[u8]) -> Result<usize, Error>
    ensures same_reference { tx.new.conn.ghost_name ≡ tx.old.conn.ghost_name }
    ensures made { OnOk result (HasCleanDisk (state S.Store tx.new.conn.now) →
        (before : PurgeList) → 1 ≤ number → IsKey url.now →
        Makes (HasGiven before number) (Holds (with_purge before number url.now))
        (state S.Store tx.old.conn.now) (state S.Store tx.new.conn.now)) }
    ensures survives { Survives (state S.Store tx.old.conn.now) (state S.Store tx.new.conn.now)
        (λ _. ⊥) }
{
    tx.execute(
        "INSERT INTO pending (number, url) VALUES (?1, ?2)",
        &[number.to_sql(), ValueRef::Text(url)],
    )
}

/// Adds a purge of the url under the number, in the open transaction.
fn write_purge<S: Alter>(tx: &mut Transaction<'_, S>, number: u32, url: &[u8]) -> Result<(), Error>
    ensures same_reference { tx.new.conn.ghost_name ≡ tx.old.conn.ghost_name }
    ensures made { OnOk result (HasCleanDisk (state S.Store tx.new.conn.now) →
        (before : PurgeList) → before.last < number → IsKey url.now →
        Makes (Holds before) (Holds (with_purge before number url.now))
        (state S.Store tx.old.conn.now) (state S.Store tx.new.conn.now)) }
    ensures survives { Survives (state S.Store tx.old.conn.now) (state S.Store tx.new.conn.now)
        (λ _. ⊥) }
{
    give_number(tx, number)?;
    put_purge(tx, number, url)?;
    Ok(())
}

/// Adds a purge of the url under the number and commits it, in one transaction.
fn add_purge<S: Alter>(conn: &mut Connection<S>, number: u32, url: &[u8]) -> Result<(), Error>
    ensures made { OnOk result (HasCleanDisk (state S.Store conn.new) → (before : PurgeList) →
        before.last < number → IsKey url.now → Holds before (state S.Store conn.old).now →
        Commits (with_purge before number url.now) (state S.Store conn.new)) }
    ensures survives { Survives (state S.Store conn.old) (state S.Store conn.new) (λ trees.
        (before : PurgeList) → before.last < number → IsKey url.now →
        Holds before (state S.Store conn.old).now →
        purges_in trees ≡ with_purge before number url.now) }
{
    if !conn.is_autocommit() {
        return Err(Error::InvalidQuery);
    }
    let mut tx = conn.transaction();
    write_purge(&mut tx, number, url)?;
    tx.commit()
}

/// Inserts the row of an admission, whose number is the last one, and which is not done.
fn put_admission<S: Alter>(
    tx: &mut Transaction<'_, S>,
    number: u32,
    member: u8,
) -> Result<usize, Error>
    requires { (1 ≤ member) × (member ≤ 16) }
    ensures same_reference { tx.new.conn.ghost_name ≡ tx.old.conn.ghost_name }
    ensures made { OnOk result (HasCleanDisk (state S.Store tx.new.conn.now) →
        (before : PurgeList) → 1 ≤ number →
        Makes (HasGiven before number) (Holds (with_admission before number member))
        (state S.Store tx.old.conn.now) (state S.Store tx.new.conn.now)) }
    ensures survives { Survives (state S.Store tx.old.conn.now) (state S.Store tx.new.conn.now)
        (λ _. ⊥) }
{
    tx.execute(
        "INSERT INTO admitted (member, number, done) VALUES (?1, ?2, 0)",
        &[u32::from(member).to_sql(), number.to_sql()],
    )
}

/// Admits the member under the number, in the open transaction.
fn write_admission<S: Alter>(
    tx: &mut Transaction<'_, S>,
    number: u32,
    member: u8,
) -> Result<(), Error>
    requires { (1 ≤ member) × (member ≤ 16) }
    ensures same_reference { tx.new.conn.ghost_name ≡ tx.old.conn.ghost_name }
    ensures made { OnOk result (HasCleanDisk (state S.Store tx.new.conn.now) →
        (before : PurgeList) → before.last < number →
        Makes (Holds before) (Holds (with_admission before number member))
        (state S.Store tx.old.conn.now) (state S.Store tx.new.conn.now)) }
    ensures survives { Survives (state S.Store tx.old.conn.now) (state S.Store tx.new.conn.now)
        (λ _. ⊥) }
{
    give_number(tx, number)?;
    put_admission(tx, number, member)?;
    Ok(())
}

/// Admits the member under the number and commits it, in one transaction.
fn add_admission<S: Alter>(conn: &mut Connection<S>, number: u32, member: u8) -> Result<(), Error>
    requires { (1 ≤ member) × (member ≤ 16) }
    ensures made { OnOk result (HasCleanDisk (state S.Store conn.new) → (before : PurgeList) →
        before.last < number → Holds before (state S.Store conn.old).now →
        Commits (with_admission before number member) (state S.Store conn.new)) }
    ensures survives { Survives (state S.Store conn.old) (state S.Store conn.new) (λ trees.
        (before : PurgeList) → before.last < number → Holds before (state S.Store conn.old).now →
        purges_in trees ≡ with_admission before number member) }
{
    if !conn.is_autocommit() {
        return Err(Error::InvalidQuery);
    }
    let mut tx = conn.transaction();
    write_admission(&mut tx, number, member)?;
    tx.commit()
}

/// Inserts the acknowledgement, in one statement that commits by itself.
fn put_mark<S: Alter>(conn: &mut Connection<S>, number: u32, member: u8) -> Result<usize, Error>
    requires ready { HasCleanDisk (state S.Store conn.old) → IsReady (state S.Store conn.old) }
    requires missing { HasCleanDisk (state S.Store conn.old) →
        Misses (committed_purges (state S.Store conn.old)) number member }
    requires id { (1 ≤ member) × (member ≤ 16) }
    ensures honest { HasCleanDisk (state S.Store conn.new) → HasCleanDisk (state S.Store conn.old) }
    ensures ready { OnOk result (HasCleanDisk (state S.Store conn.new) →
        IsReady (state S.Store conn.new)) }
    ensures marked { OnOk result (HasCleanDisk (state S.Store conn.new) →
        committed_purges (state S.Store conn.new)
        ≡ with_mark (committed_purges (state S.Store conn.old)) number member) }
    ensures crash { HasCleanDisk (state S.Store conn.new) → (found : PurgeList) →
        MayFind (state S.Store conn.new) found
        → IsEither (committed_purges (state S.Store conn.old))
        (with_mark (committed_purges (state S.Store conn.old)) number member) found }
{
    conn.execute(
        "INSERT INTO acks (number, member) VALUES (?1, ?2)",
        &[number.to_sql(), u32::from(member).to_sql()],
    )
}

/// Deletes the acknowledgements of the purge.
fn clear_acks<S: Alter>(tx: &mut Transaction<'_, S>, number: u32) -> Result<usize, Error>
    ensures same_reference { tx.new.conn.ghost_name ≡ tx.old.conn.ghost_name }
    ensures made { OnOk result (HasCleanDisk (state S.Store tx.new.conn.now) →
        (before : PurgeList) → Makes (Holds before) (HasNoAcks before number)
        (state S.Store tx.old.conn.now) (state S.Store tx.new.conn.now)) }
    ensures survives { Survives (state S.Store tx.old.conn.now) (state S.Store tx.new.conn.now)
        (λ _. ⊥) }
{
    tx.execute("DELETE FROM acks WHERE number = ?1", &[number.to_sql()])
}

/// Deletes the row of the purge, which has no acknowledgement any more.
fn drop_purge<S: Alter>(tx: &mut Transaction<'_, S>, number: u32) -> Result<usize, Error>
    ensures same_reference { tx.new.conn.ghost_name ≡ tx.old.conn.ghost_name }
    ensures made { OnOk result (HasCleanDisk (state S.Store tx.new.conn.now) →
        (before : PurgeList) → Makes (HasNoAcks before number)
        (Holds (without_purge before number)) (state S.Store tx.old.conn.now)
        (state S.Store tx.new.conn.now)) }
    ensures survives { Survives (state S.Store tx.old.conn.now) (state S.Store tx.new.conn.now)
        (λ _. ⊥) }
{
    tx.execute("DELETE FROM pending WHERE number = ?1", &[number.to_sql()])
}

/// Sets the admission of the number to done.
fn end_admission<S: Alter>(tx: &mut Transaction<'_, S>, number: u32) -> Result<usize, Error>
    ensures same_reference { tx.new.conn.ghost_name ≡ tx.old.conn.ghost_name }
    ensures made { OnOk result (HasCleanDisk (state S.Store tx.new.conn.now) →
        (before : PurgeList) → Makes (Holds before) (Holds (with_ended before number))
        (state S.Store tx.old.conn.now) (state S.Store tx.new.conn.now)) }
    ensures survives { Survives (state S.Store tx.old.conn.now) (state S.Store tx.new.conn.now)
        (λ _. ⊥) }
{
    tx.execute(
        "UPDATE admitted SET done = 1 WHERE number = ?1",
        &[number.to_sql()],
    )
}

/// Deletes the purge of the number with its acknowledgements, or ends the admission, in the open
/// transaction.
fn end<S: Alter>(tx: &mut Transaction<'_, S>, number: u32) -> Result<(), Error>
    ensures same_reference { tx.new.conn.ghost_name ≡ tx.old.conn.ghost_name }
    ensures made { OnOk result (HasCleanDisk (state S.Store tx.new.conn.now) →
        (before : PurgeList) → Makes (Holds before) (Holds (with_done before number))
        (state S.Store tx.old.conn.now) (state S.Store tx.new.conn.now)) }
    ensures survives { Survives (state S.Store tx.old.conn.now) (state S.Store tx.new.conn.now)
        (λ _. ⊥) }
{
    clear_acks(tx, number)?;
    drop_purge(tx, number)?;
    end_admission(tx, number)?;
    Ok(())
}

/// Deletes the purge of the number with its acknowledgements, or ends the admission, and commits
/// that, in one transaction.
fn end_number<S: Alter>(conn: &mut Connection<S>, number: u32) -> Result<(), Error>
    ensures made { OnOk result (HasCleanDisk (state S.Store conn.new) → (before : PurgeList) →
        Holds before (state S.Store conn.old).now →
        Commits (with_done before number) (state S.Store conn.new)) }
    ensures survives { Survives (state S.Store conn.old) (state S.Store conn.new) (λ trees.
        (before : PurgeList) → Holds before (state S.Store conn.old).now →
        purges_in trees ≡ with_done before number) }
{
    if !conn.is_autocommit() {
        return Err(Error::InvalidQuery);
    }
    let mut tx = conn.transaction();
    end(&mut tx, number)?;
    tx.commit()
}

/// Adds the purge to the copy and to the file. `StoreFault` if the number is not above the last one
/// in the copy, which on an honest disk cannot be.
pub(crate) fn add<S: Alter>(
    conn: &mut Connection<S>,
    purges: &mut Purges,
    alloc: Global,
    number: u32,
    key: &Key,
) -> Result<(), PurgeFault>
    requires held { HasCleanDisk (state S.Store conn.old) →
        AreIn (state S.Store conn.old) purges.old }
    requires above { HasCleanDisk (state S.Store conn.old) →
        (committed_purges (state S.Store conn.old)).last < number }
    ensures honest { HasCleanDisk (state S.Store conn.new) → HasCleanDisk (state S.Store conn.old) }
    ensures kept { OnOk result (HasCleanDisk (state S.Store conn.new) →
        AreIn (state S.Store conn.new) purges.new) }
    ensures added { OnOk result (HasCleanDisk (state S.Store conn.new) →
        committed_purges (state S.Store conn.new)
        ≡ with_purge (committed_purges (state S.Store conn.old)) number key.now) }
    ensures crash { HasCleanDisk (state S.Store conn.new) → (found : PurgeList) →
        MayFind (state S.Store conn.new) found
        → IsEither (committed_purges (state S.Store conn.old))
        (with_purge (committed_purges (state S.Store conn.old)) number key.now) found }
    ensures named { result ≢ Err PurgeFault.BadTable }
{
    if number <= purges.last() {
        return Err(PurgeFault::StoreFault);
    }
    purges.add(alloc, number, key)?;
    match add_purge(conn, number, key.text()) {
        Ok(()) => Ok(()),
        Err(error) => Err(fault_of(error)),
    }
}

/// Adds the admission to the copy and to the file. `StoreFault` if the number is not above the last
/// one in the copy, or the member is admitted there, which on an honest disk cannot be.
pub(crate) fn admit<S: Alter>(
    conn: &mut Connection<S>,
    purges: &mut Purges,
    number: u32,
    member: u8,
) -> Result<(), PurgeFault>
    requires held { HasCleanDisk (state S.Store conn.old) →
        AreIn (state S.Store conn.old) purges.old }
    requires above { HasCleanDisk (state S.Store conn.old) →
        (committed_purges (state S.Store conn.old)).last < number }
    requires new { HasCleanDisk (state S.Store conn.old) →
        is_admitted (committed_purges (state S.Store conn.old)) member ≡ false }
    requires id { (1 ≤ member) × (member ≤ 16) }
    ensures honest { HasCleanDisk (state S.Store conn.new) → HasCleanDisk (state S.Store conn.old) }
    ensures kept { OnOk result (HasCleanDisk (state S.Store conn.new) →
        AreIn (state S.Store conn.new) purges.new) }
    ensures admitted { OnOk result (HasCleanDisk (state S.Store conn.new) →
        committed_purges (state S.Store conn.new)
        ≡ with_admission (committed_purges (state S.Store conn.old)) number member) }
    ensures crash { HasCleanDisk (state S.Store conn.new) → (found : PurgeList) →
        MayFind (state S.Store conn.new) found
        → IsEither (committed_purges (state S.Store conn.old))
        (with_admission (committed_purges (state S.Store conn.old)) number member) found }
    ensures named { result ≢ Err PurgeFault.BadTable }
{
    if number <= purges.last() || purges.is_admitted(member) {
        return Err(PurgeFault::StoreFault);
    }
    purges.admit(number, member)?;
    match add_admission(conn, number, member) {
        Ok(()) => Ok(()),
        Err(error) => Err(fault_of(error)),
    }
}

/// Marks the purge in the copy and in the file. `StoreFault` if the copy has no such purge or the
/// member is marked, which on an honest disk cannot be.
pub(crate) fn mark<S: Alter>(
    conn: &mut Connection<S>,
    purges: &mut Purges,
    number: u32,
    member: u8,
) -> Result<(), PurgeFault>
    requires held { HasCleanDisk (state S.Store conn.old) →
        AreIn (state S.Store conn.old) purges.old }
    requires missing { HasCleanDisk (state S.Store conn.old) →
        Misses (committed_purges (state S.Store conn.old)) number member }
    requires id { (1 ≤ member) × (member ≤ 16) }
    ensures honest { HasCleanDisk (state S.Store conn.new) → HasCleanDisk (state S.Store conn.old) }
    ensures kept { OnOk result (HasCleanDisk (state S.Store conn.new) →
        AreIn (state S.Store conn.new) purges.new) }
    ensures marked { OnOk result (HasCleanDisk (state S.Store conn.new) →
        committed_purges (state S.Store conn.new)
        ≡ with_mark (committed_purges (state S.Store conn.old)) number member) }
    ensures crash { HasCleanDisk (state S.Store conn.new) → (found : PurgeList) →
        MayFind (state S.Store conn.new) found
        → IsEither (committed_purges (state S.Store conn.old))
        (with_mark (committed_purges (state S.Store conn.old)) number member) found }
    ensures named { result ≢ Err PurgeFault.BadTable }
{
    if !is_missed(purges, number, member) {
        return Err(PurgeFault::StoreFault);
    }
    purges.mark(number, member);
    match put_mark(conn, number, member) {
        Ok(_) => Ok(()),
        Err(error) => Err(fault_of(error)),
    }
}

/// Takes the purge of the number out of the copy and of the file, or ends the admission in both.
pub(crate) fn finish<S: Alter>(
    conn: &mut Connection<S>,
    purges: &mut Purges,
    number: u32,
) -> Result<(), PurgeFault>
    requires held { HasCleanDisk (state S.Store conn.old) →
        AreIn (state S.Store conn.old) purges.old }
    ensures honest { HasCleanDisk (state S.Store conn.new) → HasCleanDisk (state S.Store conn.old) }
    ensures kept { OnOk result (HasCleanDisk (state S.Store conn.new) →
        AreIn (state S.Store conn.new) purges.new) }
    ensures finished { OnOk result (HasCleanDisk (state S.Store conn.new) →
        committed_purges (state S.Store conn.new)
        ≡ with_done (committed_purges (state S.Store conn.old)) number) }
    ensures crash { HasCleanDisk (state S.Store conn.new) → (found : PurgeList) →
        MayFind (state S.Store conn.new) found
        → IsEither (committed_purges (state S.Store conn.old))
        (with_done (committed_purges (state S.Store conn.old)) number) found }
    ensures named { result ≢ Err PurgeFault.BadTable }
{
    purges.finish(number);
    match end_number(conn, number) {
        Ok(()) => Ok(()),
        Err(error) => Err(fault_of(error)),
    }
}
