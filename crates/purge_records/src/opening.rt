//! Opens a master's file: has its tables made if it is blank, checks schema and version, reads the
//! rows, and has a file of form 1 brought to form 2.
ghost use Rattle.std.specs.Prelude.{◌≡◌, ◌≢◌, ◌≤◌, ◌∷◌, [], ℕ, false, pos, map, IsPermutation};
ghost use Rattle.std.specs.Prelude.{IsTrue, IfOk, IfSome, OnOk, None, Err};
ghost use Rattle.sqlite.specs.State.{HasCleanDisk, Survives, IsUnchanged};
ghost use Rattle.sqlite.specs.Held.{state};
ghost use Rattle.sqlite.specs.declared.types.Value.TheVariants.{Int};
ghost use Rattle.purge_tables.specs.Making.{IsBlank};
ghost use Rattle.purge_tables.specs.Rows.{HasVersion, shown_version};
ghost use Rattle.purge_rules.specs.Purges.{PurgeList};
ghost use Rattle.purge_records.specs.Making.{IsFileOf, IsFormOne, IsFormTwo, IsMasterFile};
ghost use Rattle.purge_records.specs.Making.{LeavesNoOther, OpensWith};
ghost use Rattle.purge_records.specs.Rows.{HasAdded, HasAdmitted, HasMarked, HasUnmarked, IsRead};
ghost use Rattle.purge_records.specs.Rows.{IsWhole, RisesBy, RisesFrom};
ghost use Rattle.purge_records.specs.Rows.{shown_pending, shown_ack, shown_admitted};
ghost use Rattle.purge_records.specs.Store.{AreIn, committed_purges};
ghost use Rattle.purge_records.specs.Tables.{AreAdmitted, AreRows, IsLast, IsMasterSchema};
ghost use Rattle.purge_records.specs.Tables.{first_schema, last_in, master_schema, purges_of};
ghost use Rattle.purge_records.specs.Tables.{shown_last};

use crate::fault::fault_of;
use crate::making::{bring_over, make_where_blank};
use crate::rows::{admit_all, mark_all, number_in, purges_of};
use crate::tables::{is_first_schema, is_master_schema};
use purge_rules::{MOST_PENDING, PurgeFault, Purges};
use purge_tables::is_version;
use sqlite::{Alter, Connection, Error, Row};
use sqlite_value::value::ValueRef;
use std::alloc::Global;

/// All rows of `form`.
fn version_rows<S: Alter>(conn: &mut Connection<S>) -> Result<Vec<Row>, Error>
    requires { HasCleanDisk (state S.Store conn.old) →
        IsMasterSchema (state S.Store conn.old).now.schema }
    ensures rows { IfOk result (λ rows. HasCleanDisk (state S.Store conn.new) →
        IsPermutation (map shown_version ((state S.Store conn.old).now.trees 0)) rows.items) }
    ensures same { OnOk result (HasCleanDisk (state S.Store conn.new) →
        IsUnchanged (state S.Store conn.old) (state S.Store conn.new)) }
    ensures survives { Survives (state S.Store conn.old) (state S.Store conn.new) (λ _. ⊥) }
{
    conn.query_all("SELECT version FROM form", &[])
}

/// All rows of `last`.
fn last_rows<S: Alter>(conn: &mut Connection<S>) -> Result<Vec<Row>, Error>
    requires { HasCleanDisk (state S.Store conn.old) →
        IsMasterSchema (state S.Store conn.old).now.schema }
    ensures rows { IfOk result (λ rows. HasCleanDisk (state S.Store conn.new) →
        IsPermutation (map shown_last ((state S.Store conn.old).now.trees 1)) rows.items) }
    ensures same { OnOk result (HasCleanDisk (state S.Store conn.new) →
        IsUnchanged (state S.Store conn.old) (state S.Store conn.new)) }
    ensures survives { Survives (state S.Store conn.old) (state S.Store conn.new) (λ _. ⊥) }
{
    conn.query_all("SELECT id, number FROM last", &[])
}

/// All rows of `pending`, by number.
fn pending_rows<S: Alter>(conn: &mut Connection<S>) -> Result<Vec<Row>, Error>
    requires { HasCleanDisk (state S.Store conn.old) →
        IsMasterSchema (state S.Store conn.old).now.schema }
    ensures rows { IfOk result (λ rows. HasCleanDisk (state S.Store conn.new) →
        RisesFrom (map shown_pending ((state S.Store conn.old).now.trees 2)) rows.items) }
    ensures same { OnOk result (HasCleanDisk (state S.Store conn.new) →
        IsUnchanged (state S.Store conn.old) (state S.Store conn.new)) }
    ensures survives { Survives (state S.Store conn.old) (state S.Store conn.new) (λ _. ⊥) }
{
    conn.query_all(
        "SELECT rowid, number, url FROM pending ORDER BY number",
        &[],
    )
}

/// All rows of `acks`, by rowid.
fn ack_rows<S: Alter>(conn: &mut Connection<S>) -> Result<Vec<Row>, Error>
    requires { HasCleanDisk (state S.Store conn.old) →
        IsMasterSchema (state S.Store conn.old).now.schema }
    ensures rows { IfOk result (λ rows. HasCleanDisk (state S.Store conn.new) →
        RisesFrom (map shown_ack ((state S.Store conn.old).now.trees 3)) rows.items) }
    ensures same { OnOk result (HasCleanDisk (state S.Store conn.new) →
        IsUnchanged (state S.Store conn.old) (state S.Store conn.new)) }
    ensures survives { Survives (state S.Store conn.old) (state S.Store conn.new) (λ _. ⊥) }
{
    conn.query_all("SELECT rowid, number, member FROM acks ORDER BY rowid", &[])
}

/// All rows of `admitted`, by number.
fn admitted_rows<S: Alter>(conn: &mut Connection<S>) -> Result<Vec<Row>, Error>
    requires { HasCleanDisk (state S.Store conn.old) →
        (state S.Store conn.old).now.schema ≡ master_schema }
    ensures rows { IfOk result (λ rows. HasCleanDisk (state S.Store conn.new) →
        RisesBy 2 (map shown_admitted ((state S.Store conn.old).now.trees 5)) rows.items) }
    ensures same { OnOk result (HasCleanDisk (state S.Store conn.new) →
        IsUnchanged (state S.Store conn.old) (state S.Store conn.new)) }
    ensures survives { Survives (state S.Store conn.old) (state S.Store conn.new) (λ _. ⊥) }
{
    conn.query_all(
        "SELECT rowid, member, number, done FROM admitted ORDER BY number",
        &[],
    )
}

/// The number, of 32 bits, if these rows are one row of id 1.
fn last_of(rows: &[Row]) -> Option<u32>
    ensures some { IfSome result (λ number. rows.now ≡ (Int (pos 1) ∷ Int (pos number) ∷ []) ∷ []) }
    ensures none { result ≡ None → (number : ℕ) → number ≤ 4294967295 →
        rows.now ≢ (Int (pos 1) ∷ Int (pos number) ∷ []) ∷ [] }
{
    let [row] = rows else {
        return None;
    };
    if row.column_count() != 2 {
        return None;
    }
    match row.get_ref(0) {
        Ok(ValueRef::Int(1)) => number_in(row, 1),
        _ => None,
    }
}

/// Refuses a file unless `form` has one row, this version.
fn check_version<S: Alter>(conn: &mut Connection<S>, version: u32) -> Result<(), PurgeFault>
    requires { HasCleanDisk (state S.Store conn.old) →
        IsMasterSchema (state S.Store conn.old).now.schema }
    ensures version { OnOk result (HasCleanDisk (state S.Store conn.new) →
        HasVersion version ((state S.Store conn.old).now.trees 0)) }
    ensures bad { result ≡ Err PurgeFault.BadTable → HasCleanDisk (state S.Store conn.new) →
        ¬ HasVersion version ((state S.Store conn.old).now.trees 0) }
    ensures same { OnOk result (HasCleanDisk (state S.Store conn.new) →
        IsUnchanged (state S.Store conn.old) (state S.Store conn.new)) }
    ensures survives { Survives (state S.Store conn.old) (state S.Store conn.new) (λ _. ⊥) }
{
    match version_rows(conn) {
        Ok(rows) if is_version(&rows, version) => Ok(()),
        Ok(_) => Err(PurgeFault::BadTable),
        Err(error) => Err(fault_of(error)),
    }
}

/// Reads the last number. `BadTable` unless `last` has one row, of id 1 with a number of 32 bits.
fn read_last<S: Alter>(conn: &mut Connection<S>) -> Result<u32, PurgeFault>
    requires { HasCleanDisk (state S.Store conn.old) →
        IsMasterSchema (state S.Store conn.old).now.schema }
    ensures last { IfOk result (λ number. HasCleanDisk (state S.Store conn.new) →
        IsLast number ((state S.Store conn.old).now.trees 1)) }
    ensures bad { result ≡ Err PurgeFault.BadTable → HasCleanDisk (state S.Store conn.new) →
        (number : ℕ) → number ≤ 4294967295 →
        ¬ IsLast number ((state S.Store conn.old).now.trees 1) }
    ensures same { OnOk result (HasCleanDisk (state S.Store conn.new) →
        IsUnchanged (state S.Store conn.old) (state S.Store conn.new)) }
    ensures survives { Survives (state S.Store conn.old) (state S.Store conn.new) (λ _. ⊥) }
{
    match last_rows(conn) {
        Ok(rows) => match last_of(&rows) {
            Some(last) => Ok(last),
            None => Err(PurgeFault::BadTable),
        },
        Err(error) => Err(fault_of(error)),
    }
}

/// Reads the pending purges, with no member marked yet.
fn read_pending<S: Alter>(conn: &mut Connection<S>, alloc: Global) -> Result<Purges, PurgeFault>
    requires { HasCleanDisk (state S.Store conn.old) →
        IsMasterSchema (state S.Store conn.old).now.schema }
    ensures added { IfOk result (λ purges. HasCleanDisk (state S.Store conn.new) →
        HasAdded ((state S.Store conn.old).now.trees 2) purges) }
    ensures bad { result ≡ Err PurgeFault.BadTable → HasCleanDisk (state S.Store conn.new) →
        ¬ IsMasterFile (state S.Store conn.old) }
    ensures same { OnOk result (HasCleanDisk (state S.Store conn.new) →
        IsUnchanged (state S.Store conn.old) (state S.Store conn.new)) }
    ensures survives { Survives (state S.Store conn.old) (state S.Store conn.new) (λ _. ⊥) }
{
    match pending_rows(conn) {
        Ok(rows) if rows.len() <= MOST_PENDING => purges_of(alloc, &rows),
        Ok(_) => Err(PurgeFault::BadTable),
        Err(error) => Err(fault_of(error)),
    }
}

/// Reads the last number and the pending purges, with no member marked yet. A purge above the last
/// number is `BadTable`.
fn read_unmarked<S: Alter>(conn: &mut Connection<S>, alloc: Global) -> Result<Purges, PurgeFault>
    requires { HasCleanDisk (state S.Store conn.old) →
        IsMasterSchema (state S.Store conn.old).now.schema }
    ensures unmarked { IfOk result (λ purges. HasCleanDisk (state S.Store conn.new) →
        HasUnmarked (state S.Store conn.old).now.trees purges) }
    ensures bad { result ≡ Err PurgeFault.BadTable → HasCleanDisk (state S.Store conn.new) →
        ¬ IsMasterFile (state S.Store conn.old) }
    ensures same { OnOk result (HasCleanDisk (state S.Store conn.new) →
        IsUnchanged (state S.Store conn.old) (state S.Store conn.new)) }
    ensures survives { Survives (state S.Store conn.old) (state S.Store conn.new) (λ _. ⊥) }
{
    let last = read_last(conn)?;
    let mut purges = read_pending(conn, alloc)?;
    if last < purges.last() {
        return Err(PurgeFault::BadTable);
    }
    purges.give(last);
    Ok(purges)
}

/// Reads the acknowledgements, and marks the purges by them.
fn read_acks<S: Alter>(conn: &mut Connection<S>, purges: &mut Purges) -> Result<(), PurgeFault>
    requires { HasCleanDisk (state S.Store conn.old) →
        IsMasterSchema (state S.Store conn.old).now.schema }
    ensures marked { OnOk result (HasCleanDisk (state S.Store conn.new) →
        HasMarked ((state S.Store conn.old).now.trees 3) purges.old purges.new) }
    ensures bad { result ≡ Err PurgeFault.BadTable → HasCleanDisk (state S.Store conn.new) →
        AreRows ((state S.Store conn.old).now.trees 1) ((state S.Store conn.old).now.trees 2)
        ((state S.Store conn.old).now.trees 3)
        → purges.old ≢ purges_of ((state S.Store conn.old).now.trees 1)
        ((state S.Store conn.old).now.trees 2) [] }
    ensures same { OnOk result (HasCleanDisk (state S.Store conn.new) →
        IsUnchanged (state S.Store conn.old) (state S.Store conn.new)) }
    ensures survives { Survives (state S.Store conn.old) (state S.Store conn.new) (λ _. ⊥) }
{
    match ack_rows(conn) {
        Ok(rows) => mark_all(purges, &rows),
        Err(error) => Err(fault_of(error)),
    }
}

/// Reads `last`, `pending` and `acks`.
fn read_purges<S: Alter>(conn: &mut Connection<S>, alloc: Global) -> Result<Purges, PurgeFault>
    requires { HasCleanDisk (state S.Store conn.old) →
        IsMasterSchema (state S.Store conn.old).now.schema }
    ensures read { IfOk result (λ purges. HasCleanDisk (state S.Store conn.new) →
        IsRead (state S.Store conn.old).now.trees purges) }
    ensures bad { result ≡ Err PurgeFault.BadTable → HasCleanDisk (state S.Store conn.new) →
        ¬ IsMasterFile (state S.Store conn.old) }
    ensures same { OnOk result (HasCleanDisk (state S.Store conn.new) →
        IsUnchanged (state S.Store conn.old) (state S.Store conn.new)) }
    ensures survives { Survives (state S.Store conn.old) (state S.Store conn.new) (λ _. ⊥) }
{
    let mut purges = read_unmarked(conn, alloc)?;
    read_acks(conn, &mut purges)?;
    Ok(purges)
}

/// Reads the admissions, and sets those of the purges to them.
fn read_admitted<S: Alter>(
    conn: &mut Connection<S>,
    alloc: Global,
    purges: &mut Purges,
) -> Result<(), PurgeFault>
    requires { HasCleanDisk (state S.Store conn.old) →
        (state S.Store conn.old).now.schema ≡ master_schema }
    ensures admitted { OnOk result (HasCleanDisk (state S.Store conn.new) →
        HasAdmitted ((state S.Store conn.old).now.trees 5) purges.old purges.new) }
    ensures bad { result ≡ Err PurgeFault.BadTable → HasCleanDisk (state S.Store conn.new) →
        AreAdmitted (last_in ((state S.Store conn.old).now.trees 1))
        ((state S.Store conn.old).now.trees 2) ((state S.Store conn.old).now.trees 5)
        → purges.old ≢ purges_of ((state S.Store conn.old).now.trees 1)
        ((state S.Store conn.old).now.trees 2) ((state S.Store conn.old).now.trees 3) }
    ensures same { OnOk result (HasCleanDisk (state S.Store conn.new) →
        IsUnchanged (state S.Store conn.old) (state S.Store conn.new)) }
    ensures survives { Survives (state S.Store conn.old) (state S.Store conn.new) (λ _. ⊥) }
{
    match admitted_rows(conn) {
        Ok(rows) => admit_all(purges, alloc, &rows),
        Err(error) => Err(fault_of(error)),
    }
}

/// Checks the version of form 1, and reads the purges. The caller has checked the schema.
fn read_first<S: Alter>(conn: &mut Connection<S>, alloc: Global) -> Result<Purges, PurgeFault>
    requires { (state S.Store conn.old).now.schema ≡ first_schema }
    ensures read { IfOk result (λ purges. HasCleanDisk (state S.Store conn.new) →
        IsFormOne (state S.Store conn.old).now × IsRead (state S.Store conn.old).now.trees purges) }
    ensures bad { result ≡ Err PurgeFault.BadTable → HasCleanDisk (state S.Store conn.new) →
        ¬ IsMasterFile (state S.Store conn.old) }
    ensures same { OnOk result (HasCleanDisk (state S.Store conn.new) →
        IsUnchanged (state S.Store conn.old) (state S.Store conn.new)) }
    ensures survives { Survives (state S.Store conn.old) (state S.Store conn.new) (λ _. ⊥) }
{
    check_version(conn, 1)?;
    read_purges(conn, alloc)
}

/// Reads purges and admissions. The caller has checked schema and version.
fn read_second<S: Alter>(conn: &mut Connection<S>, alloc: Global) -> Result<Purges, PurgeFault>
    requires { HasCleanDisk (state S.Store conn.old) → IsFormTwo (state S.Store conn.old).now }
    ensures read { IfOk result (λ purges. HasCleanDisk (state S.Store conn.new) →
        IsFormTwo (state S.Store conn.old).now
        × IsWhole (state S.Store conn.old).now.trees purges) }
    ensures bad { result ≡ Err PurgeFault.BadTable → HasCleanDisk (state S.Store conn.new) →
        ¬ IsMasterFile (state S.Store conn.old) }
    ensures same { OnOk result (HasCleanDisk (state S.Store conn.new) →
        IsUnchanged (state S.Store conn.old) (state S.Store conn.new)) }
    ensures survives { Survives (state S.Store conn.old) (state S.Store conn.new) (λ _. ⊥) }
{
    let mut purges = read_purges(conn, alloc)?;
    read_admitted(conn, alloc, &mut purges)?;
    Ok(purges)
}

/// Checks the version of form 2, and reads purges and admissions. The caller has checked the
/// schema.
fn read_tables<S: Alter>(conn: &mut Connection<S>, alloc: Global) -> Result<Purges, PurgeFault>
    requires { (state S.Store conn.old).now.schema ≡ master_schema }
    ensures read { IfOk result (λ purges. HasCleanDisk (state S.Store conn.new) →
        IsFormTwo (state S.Store conn.old).now
        × IsWhole (state S.Store conn.old).now.trees purges) }
    ensures bad { result ≡ Err PurgeFault.BadTable → HasCleanDisk (state S.Store conn.new) →
        ¬ IsMasterFile (state S.Store conn.old) }
    ensures same { OnOk result (HasCleanDisk (state S.Store conn.new) →
        IsUnchanged (state S.Store conn.old) (state S.Store conn.new)) }
    ensures survives { Survives (state S.Store conn.old) (state S.Store conn.new) (λ _. ⊥) }
{
    check_version(conn, 2)?;
    read_second(conn, alloc)
}

/// Reads a file of form 1 and brings it to form 2. A file that is refused is not written.
fn open_first<S: Alter>(conn: &mut Connection<S>, alloc: Global) -> Result<Purges, PurgeFault>
    requires schema { (state S.Store conn.old).now.schema ≡ first_schema }
    requires autocommit { (state S.Store conn.old).in_transaction ≡ false }
    requires settled { IsTrue (state S.Store conn.old).is_open →
        (state S.Store conn.old).now ≡ (state S.Store conn.old).committed }
    ensures kept { IfOk result (λ purges. HasCleanDisk (state S.Store conn.new) →
        AreIn (state S.Store conn.new) purges) }
    ensures found { OnOk result (HasCleanDisk (state S.Store conn.new) →
        OpensWith (state S.Store conn.old) (committed_purges (state S.Store conn.new))) }
    ensures master { OnOk result (HasCleanDisk (state S.Store conn.new) →
        IsFileOf IsFormTwo (state S.Store conn.new)) }
    ensures bad { result ≡ Err PurgeFault.BadTable → HasCleanDisk (state S.Store conn.new) →
        ¬ IsMasterFile (state S.Store conn.old) }
    ensures crash { LeavesNoOther (state S.Store conn.old) (state S.Store conn.new) }
    ensures honest { HasCleanDisk (state S.Store conn.new) → HasCleanDisk (state S.Store conn.old) }
    ensures limit { (state S.Store conn.new).step_limit ≡ (state S.Store conn.old).step_limit }
{
    let purges = read_first(conn, alloc)?;
    match bring_over(conn) {
        Ok(()) => Ok(purges),
        Err(error) => Err(fault_of(error)),
    }
}

/// Checks schema and version, and reads the purges; brings a file of form 1 to form 2.
fn read_file<S: Alter>(conn: &mut Connection<S>, alloc: Global) -> Result<Purges, PurgeFault>
    ensures kept { IfOk result (λ purges. HasCleanDisk (state S.Store conn.new) →
        AreIn (state S.Store conn.new) purges) }
    ensures found { OnOk result (HasCleanDisk (state S.Store conn.new) →
        IsMasterFile (state S.Store conn.old)
        × OpensWith (state S.Store conn.old) (committed_purges (state S.Store conn.new))) }
    ensures master { OnOk result (HasCleanDisk (state S.Store conn.new) →
        IsFileOf IsFormTwo (state S.Store conn.new)) }
    ensures bad { result ≡ Err PurgeFault.BadTable → HasCleanDisk (state S.Store conn.new) →
        ¬ IsMasterFile (state S.Store conn.old) }
    ensures crash { LeavesNoOther (state S.Store conn.old) (state S.Store conn.new) }
    ensures honest { HasCleanDisk (state S.Store conn.new) → HasCleanDisk (state S.Store conn.old) }
    ensures limit { (state S.Store conn.new).step_limit ≡ (state S.Store conn.old).step_limit }
{
    if !conn.is_autocommit() {
        return Err(PurgeFault::BadTable);
    }
    if is_first_schema(conn.schema()) {
        return open_first(conn, alloc);
    }
    if !is_master_schema(conn.schema()) {
        return Err(PurgeFault::BadTable);
    }
    read_tables(conn, alloc)
}

/// Opens the file: lifts the step limit, refuses an open transaction, makes the tables if the file
/// is blank, and reads the purges.
pub(crate) fn open_file<S: Alter>(
    conn: &mut Connection<S>,
    alloc: Global,
) -> Result<Purges, PurgeFault>
    ensures kept { IfOk result (λ purges. HasCleanDisk (state S.Store conn.new) →
        AreIn (state S.Store conn.new) purges) }
    ensures found { OnOk result (HasCleanDisk (state S.Store conn.new) →
        OpensWith (state S.Store conn.old) (committed_purges (state S.Store conn.new))) }
    ensures master { OnOk result (HasCleanDisk (state S.Store conn.new) →
        IsFileOf IsFormTwo (state S.Store conn.new)) }
    ensures bad { result ≡ Err PurgeFault.BadTable → HasCleanDisk (state S.Store conn.new) →
        ¬ IsMasterFile (state S.Store conn.old) }
    ensures blank { IsBlank (state S.Store conn.old).now →
        (state S.Store conn.old).in_transaction ≡ false → HasCleanDisk (state S.Store conn.new) →
        result ≢ Err PurgeFault.BadTable }
    ensures crash { LeavesNoOther (state S.Store conn.old) (state S.Store conn.new) }
    ensures unlimited { (state S.Store conn.new).step_limit ≡ None }
{
    conn.set_step_limit(None);
    if !conn.is_autocommit() {
        return Err(PurgeFault::BadTable);
    }
    make_where_blank(conn)?;
    read_file(conn, alloc)
}
