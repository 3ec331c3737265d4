//! Opens a node's file: has its tables made if it is blank, checks schema and version, reads the
//! rows, and has a file of form 1 brought to form 2.
ghost use Rattle.std.specs.Prelude.{◌≡◌, ◌≢◌, ◌⊎◌, ◌<◌, false, map, IsPermutation, IsTrue, IfOk};
ghost use Rattle.std.specs.Prelude.{OnOk, None, Err};
ghost use Rattle.sqlite.specs.State.{HasCleanDisk, Survives, IsUnchanged};
ghost use Rattle.sqlite.specs.Held.{state};
ghost use Rattle.purge_tables.specs.Making.{IsBlank};
ghost use Rattle.purge_tables.specs.Rows.{HasVersion, shown_version};
ghost use Rattle.purge_numbers.specs.Making.{IsFileOf, IsFormOne, IsFormTwo, IsNodeFile};
ghost use Rattle.purge_numbers.specs.Making.{LeavesNoOther, OpensWith};
ghost use Rattle.purge_numbers.specs.Rows.{AreFloors, IsRead, shown_row};
ghost use Rattle.purge_numbers.specs.Store.{AreIn, committed_floors};
ghost use Rattle.purge_numbers.specs.Tables.{first_schema, node_schema, floors_in, shown_base};
ghost use Rattle.purge_numbers.specs.Tables.{IsBase, HasBase};

use crate::fault::fault_of;
use crate::making::{bring_over, make_where_blank};
use crate::rows::{base_of, floors_of};
use crate::tables::{is_first_schema, is_node_schema};
use floor_rules::{FloorFault, Floors, MOST_ROWS};
use purge_tables::is_version;
use sqlite::{Alter, Connection, Error, Row};
use std::alloc::Global;

/// All rows of the table `form`.
fn version_rows<S: Alter>(conn: &mut Connection<S>) -> Result<Vec<Row>, Error>
    requires { ((state S.Store conn.old).now.schema ≡ first_schema)
        ⊎ ((state S.Store conn.old).now.schema ≡ node_schema) }
    ensures rows { IfOk result (λ rows. HasCleanDisk (state S.Store conn.new) →
        IsPermutation (map shown_version ((state S.Store conn.old).now.trees 0)) rows.items) }
    ensures same { OnOk result (HasCleanDisk (state S.Store conn.new) →
        IsUnchanged (state S.Store conn.old) (state S.Store conn.new)) }
    ensures survives { Survives (state S.Store conn.old) (state S.Store conn.new) (λ _. ⊥) }
{
    conn.query_all("SELECT version FROM form", &[])
}

/// All rows of the table `floors`, in any order.
fn floor_rows<S: Alter>(conn: &mut Connection<S>) -> Result<Vec<Row>, Error>
    requires { HasCleanDisk (state S.Store conn.old) →
        ((state S.Store conn.old).now.schema ≡ first_schema)
        ⊎ ((state S.Store conn.old).now.schema ≡ node_schema) }
    ensures rows { IfOk result (λ rows. HasCleanDisk (state S.Store conn.new) →
        IsPermutation (map shown_row ((state S.Store conn.old).now.trees 1)) rows.items) }
    ensures same { OnOk result (HasCleanDisk (state S.Store conn.new) →
        IsUnchanged (state S.Store conn.old) (state S.Store conn.new)) }
    ensures survives { Survives (state S.Store conn.old) (state S.Store conn.new) (λ _. ⊥) }
{
    conn.query_all("SELECT rowid, url, number FROM floors", &[])
}

/// All rows of the table `base`.
fn base_rows<S: Alter>(conn: &mut Connection<S>) -> Result<Vec<Row>, Error>
    requires { HasCleanDisk (state S.Store conn.old) →
        (state S.Store conn.old).now.schema ≡ node_schema }
    ensures rows { IfOk result (λ rows. HasCleanDisk (state S.Store conn.new) →
        IsPermutation (map shown_base ((state S.Store conn.old).now.trees 3)) rows.items) }
    ensures same { OnOk result (HasCleanDisk (state S.Store conn.new) →
        IsUnchanged (state S.Store conn.old) (state S.Store conn.new)) }
    ensures survives { Survives (state S.Store conn.old) (state S.Store conn.new) (λ _. ⊥) }
{
    conn.query_all("SELECT id, number FROM base", &[])
}

/// Refuses a file unless `form` has one row, this version.
fn check_version<S: Alter>(conn: &mut Connection<S>, version: u32) -> Result<(), FloorFault>
    requires { ((state S.Store conn.old).now.schema ≡ first_schema)
        ⊎ ((state S.Store conn.old).now.schema ≡ node_schema) }
    ensures version { OnOk result (HasCleanDisk (state S.Store conn.new) →
        HasVersion version ((state S.Store conn.old).now.trees 0)) }
    ensures bad { result ≡ Err FloorFault.BadTable → HasCleanDisk (state S.Store conn.new) →
        ¬ HasVersion version ((state S.Store conn.old).now.trees 0) }
    ensures same { OnOk result (HasCleanDisk (state S.Store conn.new) →
        IsUnchanged (state S.Store conn.old) (state S.Store conn.new)) }
    ensures survives { Survives (state S.Store conn.old) (state S.Store conn.new) (λ _. ⊥) }
{
    match version_rows(conn) {
        Ok(rows) if is_version(&rows, version) => Ok(()),
        Ok(_) => Err(FloorFault::BadTable),
        Err(error) => Err(fault_of(error)),
    }
}

/// Reads the base. `BadTable` unless `base` has one row, of id 1 with a number of 32 bits.
fn read_base<S: Alter>(conn: &mut Connection<S>) -> Result<u32, FloorFault>
    requires { HasCleanDisk (state S.Store conn.old) →
        (state S.Store conn.old).now.schema ≡ node_schema }
    ensures base { IfOk result (λ number. HasCleanDisk (state S.Store conn.new) →
        IsBase number ((state S.Store conn.old).now.trees 3)) }
    ensures bad { result ≡ Err FloorFault.BadTable → HasCleanDisk (state S.Store conn.new) →
        ¬ HasBase ((state S.Store conn.old).now.trees 3) }
    ensures same { OnOk result (HasCleanDisk (state S.Store conn.new) →
        IsUnchanged (state S.Store conn.old) (state S.Store conn.new)) }
    ensures survives { Survives (state S.Store conn.old) (state S.Store conn.new) (λ _. ⊥) }
{
    match base_rows(conn) {
        Ok(rows) => match base_of(&rows) {
            Some(base) => Ok(base),
            None => Err(FloorFault::BadTable),
        },
        Err(error) => Err(fault_of(error)),
    }
}

/// Reads the rows of `floors`, with the base 0.
fn read_floors<S: Alter>(conn: &mut Connection<S>, alloc: Global) -> Result<Floors, FloorFault>
    requires { HasCleanDisk (state S.Store conn.old) →
        ((state S.Store conn.old).now.schema ≡ first_schema)
        ⊎ ((state S.Store conn.old).now.schema ≡ node_schema) }
    ensures read { IfOk result (λ floors. HasCleanDisk (state S.Store conn.new) →
        IsRead ((state S.Store conn.old).now.trees 1) floors) }
    ensures bad { result ≡ Err FloorFault.BadTable → HasCleanDisk (state S.Store conn.new) →
        ¬ AreFloors ((state S.Store conn.old).now.trees 1) }
    ensures same { OnOk result (HasCleanDisk (state S.Store conn.new) →
        IsUnchanged (state S.Store conn.old) (state S.Store conn.new)) }
    ensures survives { Survives (state S.Store conn.old) (state S.Store conn.new) (λ _. ⊥) }
{
    match floor_rows(conn) {
        Ok(rows) if rows.len() <= MOST_ROWS => floors_of(alloc, &rows),
        Ok(_) => Err(FloorFault::BadTable),
        Err(error) => Err(fault_of(error)),
    }
}

/// Checks the version of form 1, and reads the floors. The caller has checked the schema.
fn read_first<S: Alter>(conn: &mut Connection<S>, alloc: Global) -> Result<Floors, FloorFault>
    requires { (state S.Store conn.old).now.schema ≡ first_schema }
    ensures read { IfOk result (λ floors. HasCleanDisk (state S.Store conn.new) →
        IsFormOne (state S.Store conn.old).now × AreFloors ((state S.Store conn.old).now.trees 1)
        × (floors ≡ floors_in (state S.Store conn.old).now.trees)) }
    ensures bad { result ≡ Err FloorFault.BadTable → HasCleanDisk (state S.Store conn.new) →
        ¬ IsNodeFile (state S.Store conn.old) }
    ensures same { OnOk result (HasCleanDisk (state S.Store conn.new) →
        IsUnchanged (state S.Store conn.old) (state S.Store conn.new)) }
    ensures survives { Survives (state S.Store conn.old) (state S.Store conn.new) (λ _. ⊥) }
{
    check_version(conn, 1)?;
    read_floors(conn, alloc)
}

/// Reads base and floors. The caller has checked schema and version.
fn read_second<S: Alter>(conn: &mut Connection<S>, alloc: Global) -> Result<Floors, FloorFault>
    requires { HasCleanDisk (state S.Store conn.old) →
        ((state S.Store conn.old).now.schema ≡ node_schema)
        × HasVersion 2 ((state S.Store conn.old).now.trees 0) }
    ensures read { IfOk result (λ floors. HasCleanDisk (state S.Store conn.new) →
        IsFormTwo (state S.Store conn.old).now × AreFloors ((state S.Store conn.old).now.trees 1)
        × (floors ≡ floors_in (state S.Store conn.old).now.trees)) }
    ensures bad { result ≡ Err FloorFault.BadTable → HasCleanDisk (state S.Store conn.new) →
        ¬ IsNodeFile (state S.Store conn.old) }
    ensures same { OnOk result (HasCleanDisk (state S.Store conn.new) →
        IsUnchanged (state S.Store conn.old) (state S.Store conn.new)) }
    ensures survives { Survives (state S.Store conn.old) (state S.Store conn.new) (λ _. ⊥) }
{
    let base = read_base(conn)?;
    let mut floors = read_floors(conn, alloc)?;
    floors.raise_base(base);
    Ok(floors)
}

/// Checks the version of form 2, and reads base and floors. The caller has checked the schema.
fn read_tables<S: Alter>(conn: &mut Connection<S>, alloc: Global) -> Result<Floors, FloorFault>
    requires { (state S.Store conn.old).now.schema ≡ node_schema }
    ensures read { IfOk result (λ floors. HasCleanDisk (state S.Store conn.new) →
        IsFormTwo (state S.Store conn.old).now × AreFloors ((state S.Store conn.old).now.trees 1)
        × (floors ≡ floors_in (state S.Store conn.old).now.trees)) }
    ensures bad { result ≡ Err FloorFault.BadTable → HasCleanDisk (state S.Store conn.new) →
        ¬ IsNodeFile (state S.Store conn.old) }
    ensures same { OnOk result (HasCleanDisk (state S.Store conn.new) →
        IsUnchanged (state S.Store conn.old) (state S.Store conn.new)) }
    ensures survives { Survives (state S.Store conn.old) (state S.Store conn.new) (λ _. ⊥) }
{
    check_version(conn, 2)?;
    read_second(conn, alloc)
}

/// Reads a file of form 1 and brings it to form 2. A file that is refused is not written.
fn open_first<S: Alter>(conn: &mut Connection<S>, alloc: Global) -> Result<Floors, FloorFault>
    requires schema { (state S.Store conn.old).now.schema ≡ first_schema }
    requires autocommit { (state S.Store conn.old).in_transaction ≡ false }
    requires settled { IsTrue (state S.Store conn.old).is_open →
        (state S.Store conn.old).now ≡ (state S.Store conn.old).committed }
    ensures kept { IfOk result (λ floors. HasCleanDisk (state S.Store conn.new) →
        AreIn (state S.Store conn.new) floors) }
    ensures found { OnOk result (HasCleanDisk (state S.Store conn.new) →
        OpensWith (state S.Store conn.old) (committed_floors (state S.Store conn.new))) }
    ensures node { OnOk result (HasCleanDisk (state S.Store conn.new) →
        IsFileOf IsFormTwo (state S.Store conn.new)) }
    ensures bad { result ≡ Err FloorFault.BadTable → HasCleanDisk (state S.Store conn.new) →
        ¬ IsNodeFile (state S.Store conn.old) }
    ensures crash { LeavesNoOther (state S.Store conn.old) (state S.Store conn.new) }
    ensures honest { HasCleanDisk (state S.Store conn.new) → HasCleanDisk (state S.Store conn.old) }
    ensures limit { (state S.Store conn.new).step_limit ≡ (state S.Store conn.old).step_limit }
{
    let floors = read_first(conn, alloc)?;
    match bring_over(conn) {
        Ok(()) => Ok(floors),
        Err(error) => Err(fault_of(error)),
    }
}

/// Checks schema and version, and reads the floors; brings a file of form 1 to form 2.
fn read_file<S: Alter>(conn: &mut Connection<S>, alloc: Global) -> Result<Floors, FloorFault>
    ensures kept { IfOk result (λ floors. HasCleanDisk (state S.Store conn.new) →
        AreIn (state S.Store conn.new) floors) }
    ensures found { OnOk result (HasCleanDisk (state S.Store conn.new) →
        IsNodeFile (state S.Store conn.old)
        × OpensWith (state S.Store conn.old) (committed_floors (state S.Store conn.new))) }
    ensures node { OnOk result (HasCleanDisk (state S.Store conn.new) →
        IsFileOf IsFormTwo (state S.Store conn.new)) }
    ensures bad { result ≡ Err FloorFault.BadTable → HasCleanDisk (state S.Store conn.new) →
        ¬ IsNodeFile (state S.Store conn.old) }
    ensures crash { LeavesNoOther (state S.Store conn.old) (state S.Store conn.new) }
    ensures honest { HasCleanDisk (state S.Store conn.new) → HasCleanDisk (state S.Store conn.old) }
    ensures limit { (state S.Store conn.new).step_limit ≡ (state S.Store conn.old).step_limit }
{
    if !conn.is_autocommit() {
        return Err(FloorFault::BadTable);
    }
    if is_first_schema(conn.schema()) {
        return open_first(conn, alloc);
    }
    if !is_node_schema(conn.schema()) {
        return Err(FloorFault::BadTable);
    }
    read_tables(conn, alloc)
}

/// Opens the file: lifts the step limit, refuses an open transaction, makes the tables if the file
/// is blank, and reads the floors.
pub(crate) fn open_file<S: Alter>(
    conn: &mut Connection<S>,
    alloc: Global,
) -> Result<Floors, FloorFault>
    ensures kept { IfOk result (λ floors. HasCleanDisk (state S.Store conn.new) →
        AreIn (state S.Store conn.new) floors) }
    ensures found { OnOk result (HasCleanDisk (state S.Store conn.new) →
        OpensWith (state S.Store conn.old) (committed_floors (state S.Store conn.new))) }
    ensures node { OnOk result (HasCleanDisk (state S.Store conn.new) →
        IsFileOf IsFormTwo (state S.Store conn.new)) }
    ensures bad { result ≡ Err FloorFault.BadTable → HasCleanDisk (state S.Store conn.new) →
        ¬ IsNodeFile (state S.Store conn.old) }
    ensures blank { IsBlank (state S.Store conn.old).now →
        (state S.Store conn.old).in_transaction ≡ false → HasCleanDisk (state S.Store conn.new) →
        result ≢ Err FloorFault.BadTable }
    ensures crash { LeavesNoOther (state S.Store conn.old) (state S.Store conn.new) }
    ensures unlimited { (state S.Store conn.new).step_limit ≡ None }
{
    conn.set_step_limit(None);
    if !conn.is_autocommit() {
        return Err(FloorFault::BadTable);
    }
    make_where_blank(conn)?;
    read_file(conn, alloc)
}
