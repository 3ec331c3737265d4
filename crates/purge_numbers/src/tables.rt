//! Whether the schema of a connection is that of a node's file of form 1 or of form 2
//! (`first_schema` and `node_schema` of `specs/Tables`).
//!
//! `is_first_schema` and `is_node_schema`, the last two, are what `opening.rt` calls; the functions
//! before them compare the parts, by the tests of `purge_tables`. In keys and tests place 0 of a
//! row is its rowid, and its columns follow from place 1.
ghost use Rattle.std.specs.Prelude.{◌≡◌, ◌≢◌, pos, ◌∷◌, [], false, None, IsTrue};
ghost use Rattle.purge_numbers.specs.Tables.{base_table, floors_table, url_index, first_schema};
ghost use Rattle.purge_numbers.specs.Tables.{node_schema, id_check, number_check};

use purge_tables::{
    has_rowid_key, is_column, is_equal_at, is_form, is_named, is_place, is_plain, is_plain_order,
    is_range_at, is_unique_place,
};
use sqlite_items::Items;
use sqlite_schema::code::Terms;
use sqlite_schema::schema::{Column, Index, Kind, Schema, Table};

/// Whether there is one CHECK, that `number` is 1 to 4294967295.
fn is_number_check(terms: &Terms) -> bool
    ensures yes { IsTrue result → terms.now ≡ number_check (pos 1) ∷ [] }
    ensures no { result ≡ false → terms.now ≢ number_check (pos 1) ∷ [] }
{
    let [root] = terms.roots.as_slice() else {
        return false;
    };
    is_range_at(terms.nodes.as_slice(), *root, 2, 1, 4294967295)
}

/// Whether there are two CHECKs: that the id is 1, and that `number` is 0 to 4294967295.
fn has_base_checks(terms: &Terms) -> bool
    ensures yes { IsTrue result → terms.now ≡ id_check ∷ number_check (pos 0) ∷ [] }
    ensures no { result ≡ false → terms.now ≢ id_check ∷ number_check (pos 0) ∷ [] }
{
    let [id, number] = terms.roots.as_slice() else {
        return false;
    };
    let nodes = terms.nodes.as_slice();
    is_equal_at(nodes, *id, 0, 1) && is_range_at(nodes, *number, 2, 0, 4294967295)
}

/// Whether the columns are those of `floors`: `url` and `number`.
fn has_floor_columns(columns: &Items<Column>) -> bool
    ensures yes { IsTrue result → columns.now ≡ floors_table.columns }
    ensures no { result ≡ false → ¬ (columns.now ≡ floors_table.columns) }
{
    let [url, number] = columns.as_slice() else {
        return false;
    };
    is_column(url, b"url".as_slice(), Kind::Text, true)
        && is_column(number, b"number".as_slice(), Kind::Integer, true)
}

/// Whether the rows have a rowid of their own, and the first column is the primary key.
fn has_url_key(table: &Table) -> bool
    ensures yes { IsTrue result → (table.now.key ≡ None) × (table.now.primary ≡ 1 ∷ [])
        × (table.now.uniques ≡ (1 ∷ []) ∷ []) × (table.now.orders ≡ record { digits = 0 } ∷ []) }
    ensures no { result ≡ false → ¬ ((table.now.key ≡ None) × (table.now.primary ≡ 1 ∷ [])
        × (table.now.uniques ≡ (1 ∷ []) ∷ [])
        × (table.now.orders ≡ record { digits = 0 } ∷ [])) }
{
    table.key.is_none()
        && is_place(&table.primary, 1)
        && is_unique_place(&table.uniques, 1)
        && is_plain_order(&table.orders)
}

/// Whether this is the table `floors`.
fn is_floors(table: &Table) -> bool
    ensures yes { IsTrue result → table.now ≡ floors_table }
    ensures no { result ≡ false → ¬ (table.now ≡ floors_table) }
{
    if !is_named(&table.name, b"floors".as_slice()) || table.tree != 1 {
        return false;
    }
    if !has_floor_columns(&table.columns) || !has_url_key(table) {
        return false;
    }
    is_number_check(&table.checks) && is_plain(table)
}

/// Whether the columns are those of `base`: `id` and `number`.
fn has_base_columns(columns: &Items<Column>) -> bool
    ensures yes { IsTrue result → columns.now ≡ base_table.columns }
    ensures no { result ≡ false → ¬ (columns.now ≡ base_table.columns) }
{
    let [id, number] = columns.as_slice() else {
        return false;
    };
    is_column(id, b"id".as_slice(), Kind::Integer, false)
        && is_column(number, b"number".as_slice(), Kind::Integer, true)
}

/// Whether this is the table `base`.
fn is_base(table: &Table) -> bool
    ensures yes { IsTrue result → table.now ≡ base_table }
    ensures no { result ≡ false → ¬ (table.now ≡ base_table) }
{
    if !is_named(&table.name, b"base".as_slice()) || table.tree != 3 {
        return false;
    }
    if !has_base_columns(&table.columns) || !has_rowid_key(table) {
        return false;
    }
    has_base_checks(&table.checks) && is_plain(table)
}

/// Whether this is the index that SQLite makes for the primary key of `floors` (SQLite, "Database
/// File Format", on internal indexes).
fn is_url_index(index: &Index) -> bool
    ensures yes { IsTrue result → index.now ≡ url_index }
    ensures no { result ≡ false → ¬ (index.now ≡ url_index) }
{
    if !is_named(&index.name, b"sqlite_autoindex_floors_1".as_slice()) {
        return false;
    }
    if !is_place(&index.columns, 1) {
        return false;
    }
    if index.tree != 2 || index.table != 1 || index.order.digits != 0 {
        return false;
    }
    index.is_unique
}

/// Whether the schema has the tables of form 1 and their index, and nothing else.
pub(crate) fn is_first_schema(schema: &Schema) -> bool
    ensures yes { IsTrue result → schema.now ≡ first_schema }
    ensures no { result ≡ false → ¬ (schema.now ≡ first_schema) }
{
    let [form, floors] = schema.tables.as_slice() else {
        return false;
    };
    let [url] = schema.indexes.as_slice() else {
        return false;
    };
    schema.views.is_empty() && is_form(form) && is_floors(floors) && is_url_index(url)
}

/// Whether the schema has the tables of form 2 and their index, and nothing else.
pub(crate) fn is_node_schema(schema: &Schema) -> bool
    ensures yes { IsTrue result → schema.now ≡ node_schema }
    ensures no { result ≡ false → ¬ (schema.now ≡ node_schema) }
{
    let [form, floors, base] = schema.tables.as_slice() else {
        return false;
    };
    let [url] = schema.indexes.as_slice() else {
        return false;
    };
    if !schema.views.is_empty() || !is_url_index(url) {
        return false;
    }
    is_form(form) && is_floors(floors) && is_base(base)
}
