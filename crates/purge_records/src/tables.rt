//! Whether the schema of a connection is that of a master's file of form 1 or of form 2
//! (`first_schema` and `master_schema` of `specs/Tables`).
//!
//! `is_first_schema` and `is_master_schema`, the last two, are what `opening.rt` calls; the
//! functions before them compare the parts, by the tests of `purge_tables`. In keys and tests place
//! 0 of a row is its rowid, and its columns follow from place 1.
ghost use Rattle.std.specs.Prelude.{◌≡◌, ◌≢◌, ◌∷◌, [], false, None, Some, IsTrue};
ghost use Rattle.purge_records.specs.Tables.{last_table, pending_table, acks_table, ack_index};
ghost use Rattle.purge_records.specs.Tables.{admitted_table, admitted_index, first_schema};
ghost use Rattle.purge_records.specs.Tables.{master_schema, id_check, member_check, done_check};

use purge_tables::{
    has_no_terms, has_rowid, has_rowid_key, is_column, is_either_at, is_equal_at, is_form,
    is_named, is_place, is_plain, is_plain_order, is_range_at, is_unique_place,
};
use sqlite_items::Items;
use sqlite_schema::code::Terms;
use sqlite_schema::schema::{Column, Index, Kind, Schema, Table};

/// Whether the list has the first two columns alone.
fn is_pair(places: &Items<usize>) -> bool
    ensures yes { IsTrue result → places.now ≡ 1 ∷ 2 ∷ [] }
    ensures no { result ≡ false → ¬ (places.now ≡ 1 ∷ 2 ∷ []) }
{
    places.as_slice() == [1usize, 2].as_slice()
}

/// Whether there is one UNIQUE, of the first two columns.
fn is_unique_pair(uniques: &Items<Items<usize>>) -> bool
    ensures yes { IsTrue result → uniques.now ≡ (1 ∷ 2 ∷ []) ∷ [] }
    ensures no { result ≡ false → ¬ (uniques.now ≡ (1 ∷ 2 ∷ []) ∷ []) }
{
    let [places] = uniques.as_slice() else {
        return false;
    };
    is_pair(places)
}

/// Whether there is one CHECK, that the id is 1.
fn is_id_check(terms: &Terms) -> bool
    ensures yes { IsTrue result → terms.now ≡ id_check ∷ [] }
    ensures no { result ≡ false → terms.now ≢ id_check ∷ [] }
{
    let [root] = terms.roots.as_slice() else {
        return false;
    };
    is_equal_at(terms.nodes.as_slice(), *root, 0, 1)
}

/// Whether the columns are those of `last`: `id` and `number`.
fn has_last_columns(columns: &Items<Column>) -> bool
    ensures yes { IsTrue result → columns.now ≡ last_table.columns }
    ensures no { result ≡ false → ¬ (columns.now ≡ last_table.columns) }
{
    let [id, number] = columns.as_slice() else {
        return false;
    };
    is_column(id, b"id".as_slice(), Kind::Integer, false)
        && is_column(number, b"number".as_slice(), Kind::Integer, true)
}

/// Whether this is the table `last`.
fn is_last(table: &Table) -> bool
    ensures yes { IsTrue result → table.now ≡ last_table }
    ensures no { result ≡ false → ¬ (table.now ≡ last_table) }
{
    if !is_named(&table.name, b"last".as_slice()) || table.tree != 1 {
        return false;
    }
    if !has_last_columns(&table.columns) || !has_rowid_key(table) {
        return false;
    }
    is_id_check(&table.checks) && is_plain(table)
}

/// Whether the columns are those of `pending`: `number` and `url`.
fn has_pending_columns(columns: &Items<Column>) -> bool
    ensures yes { IsTrue result → columns.now ≡ pending_table.columns }
    ensures no { result ≡ false → ¬ (columns.now ≡ pending_table.columns) }
{
    let [number, url] = columns.as_slice() else {
        return false;
    };
    is_column(number, b"number".as_slice(), Kind::Integer, false)
        && is_column(url, b"url".as_slice(), Kind::Text, true)
}

/// Whether this is the table `pending`.
fn is_pending(table: &Table) -> bool
    ensures yes { IsTrue result → table.now ≡ pending_table }
    ensures no { result ≡ false → ¬ (table.now ≡ pending_table) }
{
    if !is_named(&table.name, b"pending".as_slice()) || table.tree != 2 {
        return false;
    }
    if !has_pending_columns(&table.columns) || !has_rowid_key(table) {
        return false;
    }
    has_no_terms(&table.checks) && is_plain(table)
}

/// Whether the columns are those of `acks`: `number` and `member`.
fn has_ack_columns(columns: &Items<Column>) -> bool
    ensures yes { IsTrue result → columns.now ≡ acks_table.columns }
    ensures no { result ≡ false → ¬ (columns.now ≡ acks_table.columns) }
{
    let [number, member] = columns.as_slice() else {
        return false;
    };
    is_column(number, b"number".as_slice(), Kind::Integer, true)
        && is_column(member, b"member".as_slice(), Kind::Integer, true)
}

/// Whether the rows have a rowid of their own, and both columns are the primary key.
fn has_pair_key(table: &Table) -> bool
    ensures yes { IsTrue result → (table.now.key ≡ None) × (table.now.primary ≡ 1 ∷ 2 ∷ [])
        × (table.now.uniques ≡ (1 ∷ 2 ∷ []) ∷ [])
        × (table.now.orders ≡ record { digits = 0 } ∷ []) }
    ensures no { result ≡ false → ¬ ((table.now.key ≡ None) × (table.now.primary ≡ 1 ∷ 2 ∷ [])
        × (table.now.uniques ≡ (1 ∷ 2 ∷ []) ∷ [])
        × (table.now.orders ≡ record { digits = 0 } ∷ [])) }
{
    table.key.is_none()
        && is_pair(&table.primary)
        && is_unique_pair(&table.uniques)
        && is_plain_order(&table.orders)
}

/// Whether this is the table `acks`.
fn is_acks(table: &Table) -> bool
    ensures yes { IsTrue result → table.now ≡ acks_table }
    ensures no { result ≡ false → ¬ (table.now ≡ acks_table) }
{
    if !is_named(&table.name, b"acks".as_slice()) || table.tree != 3 {
        return false;
    }
    if !has_ack_columns(&table.columns) || !has_pair_key(table) {
        return false;
    }
    has_no_terms(&table.checks) && is_plain(table)
}

/// Whether this is the index that SQLite makes for the primary key of `acks` (SQLite, "Database
/// File Format", on internal indexes).
fn is_ack_index(index: &Index) -> bool
    ensures yes { IsTrue result → index.now ≡ ack_index }
    ensures no { result ≡ false → ¬ (index.now ≡ ack_index) }
{
    if !is_named(&index.name, b"sqlite_autoindex_acks_1".as_slice()) {
        return false;
    }
    if !is_pair(&index.columns) {
        return false;
    }
    if index.tree != 4 || index.table != 3 || index.order.digits != 0 {
        return false;
    }
    index.is_unique
}

/// Whether the columns are those of `admitted`: `member`, `number` and `done`.
fn has_admitted_columns(columns: &Items<Column>) -> bool
    ensures yes { IsTrue result → columns.now ≡ admitted_table.columns }
    ensures no { result ≡ false → ¬ (columns.now ≡ admitted_table.columns) }
{
    let [member, number, done] = columns.as_slice() else {
        return false;
    };
    is_column(member, b"member".as_slice(), Kind::Integer, false)
        && is_column(number, b"number".as_slice(), Kind::Integer, true)
        && is_column(done, b"done".as_slice(), Kind::Integer, true)
}

/// Whether the first column is the rowid and the primary key, and the second is UNIQUE.
fn has_member_key(table: &Table) -> bool
    ensures yes { IsTrue result → (table.now.key ≡ Some 0) × (table.now.primary ≡ 0 ∷ [])
        × (table.now.uniques ≡ (2 ∷ []) ∷ []) × (table.now.orders ≡ record { digits = 0 } ∷ []) }
    ensures no { result ≡ false → ¬ ((table.now.key ≡ Some 0) × (table.now.primary ≡ 0 ∷ [])
        × (table.now.uniques ≡ (2 ∷ []) ∷ [])
        × (table.now.orders ≡ record { digits = 0 } ∷ [])) }
{
    has_rowid(table) && is_unique_place(&table.uniques, 2) && is_plain_order(&table.orders)
}

/// Whether there are two CHECKs: that the member is 1 to 16, and that `done` is 0 or 1.
fn has_admitted_checks(terms: &Terms) -> bool
    ensures yes { IsTrue result → terms.now ≡ member_check ∷ done_check ∷ [] }
    ensures no { result ≡ false → terms.now ≢ member_check ∷ done_check ∷ [] }
{
    let [member, done] = terms.roots.as_slice() else {
        return false;
    };
    let nodes = terms.nodes.as_slice();
    is_range_at(nodes, *member, 0, 1, 16) && is_either_at(nodes, *done, 3, 0, 1)
}

/// Whether this is the table `admitted`.
fn is_admitted(table: &Table) -> bool
    ensures yes { IsTrue result → table.now ≡ admitted_table }
    ensures no { result ≡ false → ¬ (table.now ≡ admitted_table) }
{
    if !is_named(&table.name, b"admitted".as_slice()) || table.tree != 5 {
        return false;
    }
    if !has_admitted_columns(&table.columns) || !has_member_key(table) {
        return false;
    }
    has_admitted_checks(&table.checks) && is_plain(table)
}

/// Whether this is the index that SQLite makes for the UNIQUE of `admitted`.
fn is_admitted_index(index: &Index) -> bool
    ensures yes { IsTrue result → index.now ≡ admitted_index }
    ensures no { result ≡ false → ¬ (index.now ≡ admitted_index) }
{
    if !is_named(&index.name, b"sqlite_autoindex_admitted_1".as_slice()) {
        return false;
    }
    if !is_place(&index.columns, 2) {
        return false;
    }
    if index.tree != 6 || index.table != 5 || index.order.digits != 0 {
        return false;
    }
    index.is_unique
}

/// Whether the schema has the tables of form 1 and their index, and nothing else.
pub(crate) fn is_first_schema(schema: &Schema) -> bool
    ensures yes { IsTrue result → schema.now ≡ first_schema }
    ensures no { result ≡ false → ¬ (schema.now ≡ first_schema) }
{
    let [form, last, pending, acks] = schema.tables.as_slice() else {
        return false;
    };
    let [index] = schema.indexes.as_slice() else {
        return false;
    };
    if !is_form(form) || !is_last(last) {
        return false;
    }
    if !is_pending(pending) || !is_acks(acks) {
        return false;
    }
    schema.views.is_empty() && is_ack_index(index)
}

/// Whether the schema has the tables of form 2 and their indexes, and nothing else.
pub(crate) fn is_master_schema(schema: &Schema) -> bool
    ensures yes { IsTrue result → schema.now ≡ master_schema }
    ensures no { result ≡ false → ¬ (schema.now ≡ master_schema) }
{
    let [form, last, pending, acks, admitted] = schema.tables.as_slice() else {
        return false;
    };
    let [ack, number] = schema.indexes.as_slice() else {
        return false;
    };
    if !is_form(form) || !is_last(last) {
        return false;
    }
    if !is_pending(pending) || !is_acks(acks) {
        return false;
    }
    if !is_admitted(admitted) || !is_ack_index(ack) {
        return false;
    }
    schema.views.is_empty() && is_admitted_index(number)
}
