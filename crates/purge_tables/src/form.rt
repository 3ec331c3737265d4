//! The table `form` (`form_table` of `specs/Tables`): makes it, and compares a schema and rows with
//! it.
ghost use Rattle.std.specs.Prelude.{◌≡◌, ◌≢◌, ◌∷◌, [], false, pos, IsTrue, OnOk};
ghost use Rattle.sqlite.specs.State.{HasCleanDisk, Survives};
ghost use Rattle.sqlite.specs.Held.{state};
ghost use Rattle.sqlite.specs.declared.types.Value.TheVariants.{Int};
ghost use Rattle.purge_tables.specs.Making.{IsBlank, IsFormed, Makes};
ghost use Rattle.purge_tables.specs.Tables.{form_table, empty_schema};

use crate::parts::{has_no_terms, has_rowid_key, is_column, is_named, is_plain};
use sqlite::{Alter, Error, Row, Transaction};
use sqlite_items::Items;
use sqlite_schema::schema::{Column, Kind, Schema, Table};
use sqlite_value::value::ValueRef;

/// Makes the table `form` in a blank file.
pub fn create_form<S: Alter>(tx: &mut Transaction<'_, S>) -> Result<usize, Error>
    ensures same_reference { tx.new.conn.ghost_name ≡ tx.old.conn.ghost_name }
    ensures made { OnOk result (HasCleanDisk (state S.Store tx.new.conn.now) →
        Makes IsBlank IsFormed (state S.Store tx.old.conn.now)
        (state S.Store tx.new.conn.now)) }
    ensures survives { Survives (state S.Store tx.old.conn.now) (state S.Store tx.new.conn.now)
        (λ _. ⊥) }
{
    tx.execute(
        "CREATE TABLE form (version INTEGER PRIMARY KEY) STRICT",
        &[],
    )
}

/// Whether there is no table, no index and no view.
pub fn is_blank(schema: &Schema) -> bool
    ensures yes { IsTrue result → schema.now ≡ empty_schema }
    ensures no { result ≡ false → schema.now ≢ empty_schema }
{
    schema.tables.is_empty() && schema.indexes.is_empty() && schema.views.is_empty()
}

/// Whether the column is that of `form`: `version`.
fn has_version_column(columns: &Items<Column>) -> bool
    ensures yes { IsTrue result → columns.now ≡ form_table.columns }
    ensures no { result ≡ false → ¬ (columns.now ≡ form_table.columns) }
{
    let [version] = columns.as_slice() else {
        return false;
    };
    is_column(version, b"version".as_slice(), Kind::Integer, false)
}

/// Whether this is the table `form`, the first of its file.
pub fn is_form(table: &Table) -> bool
    ensures yes { IsTrue result → table.now ≡ form_table }
    ensures no { result ≡ false → ¬ (table.now ≡ form_table) }
{
    if !is_named(&table.name, b"form".as_slice()) || table.tree != 0 {
        return false;
    }
    if !has_version_column(&table.columns) || !has_rowid_key(table) {
        return false;
    }
    has_no_terms(&table.checks) && is_plain(table)
}

/// Whether these rows, as a query shows them, are one row with this version.
pub fn is_version(rows: &[Row], wanted: u32) -> bool
    ensures yes { IsTrue result → rows.now ≡ (Int (pos wanted) ∷ []) ∷ [] }
    ensures no { result ≡ false → rows.now ≢ (Int (pos wanted) ∷ []) ∷ [] }
{
    let [row] = rows else {
        return false;
    };
    if row.column_count() != 1 {
        return false;
    }
    match row.get_ref(0) {
        Ok(ValueRef::Int(version)) => version == i64::from(wanted),
        _ => false,
    }
}
