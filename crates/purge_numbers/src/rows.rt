//! Reads the rows of `floors` and of `base`.
ghost use Rattle.std.specs.Prelude.{◌≡◌, ◌≢◌, ◌≤◌, ◌∷◌, [], ℕ, ℤ, pos, false, None, Err, IsTrue};
ghost use Rattle.std.specs.Prelude.{IfOk, IfSome, OnOk};
ghost use Rattle.std.specs.FinMap.{empty, get, insert};
ghost use Rattle.sqlite.specs.declared.types.Value.TheVariants.{Int, Text as Words};
ghost use Rattle.sqlite_value.specs.Order.{column};
ghost use Rattle.sqlite_trees.specs.Tree.{rowid};
ghost use Rattle.url_key.specs.Key.{IsKey};
ghost use Rattle.purge_numbers.specs.Tables.{floor_entry};
ghost use Rattle.purge_numbers.specs.Rows.{IsUrl, IsNumber, IsFloor, IsReadFault, Adds};
ghost use Rattle.floor_rules.specs.Floors.{FloorRows, with_row};

use floor_rules::{FloorFault, Floors};
use sqlite::Row;
use sqlite_value::value::ValueRef;
use std::alloc::Global;
use url_key::{Key, KeyFault};

/// The key of a text. A text that is not its own key is `BadTable`.
fn own_key(alloc: Global, text: &[u8]) -> Result<Key, FloorFault>
    ensures ok { IfOk result (λ key. (key ≡ text.now) × IsKey text.now) }
    ensures bad { result ≡ Err FloorFault.BadTable → ¬ IsKey text.now }
    ensures named { IsReadFault result }
{
    match Key::read(alloc, text) {
        Ok(key) if key.text() == text => Ok(key),
        Err(KeyFault::NoMemory) => Err(FloorFault::NoMemory),
        _ => Err(FloorFault::BadTable),
    }
}

/// The key in the column `url`, the second of the query.
fn key_in(alloc: Global, row: &Row) -> Result<Key, FloorFault>
    ensures ok { IfOk result (λ key. IsUrl row.now × ((floor_entry row.now).0 ≡ key)) }
    ensures bad { result ≡ Err FloorFault.BadTable → ¬ IsUrl row.now }
    ensures named { IsReadFault result }
{
    match row.get_ref(1) {
        Ok(ValueRef::Text(text)) => own_key(alloc, text),
        _ => Err(FloorFault::BadTable),
    }
}

/// The floor in the column `number`, the third of the query: 1 to 4294967295.
fn number_in(row: &Row) -> Result<u32, FloorFault>
    ensures ok { IfOk result (λ number. IsNumber row.now × ((floor_entry row.now).1 ≡ number)) }
    ensures bad { result ≡ Err FloorFault.BadTable → ¬ IsNumber row.now }
    ensures named { IsReadFault result }
{
    let Ok(ValueRef::Int(number)) = row.get_ref(2) else {
        return Err(FloorFault::BadTable);
    };
    match u32::try_from(number) {
        Ok(number) if number > 0 => Ok(number),
        _ => Err(FloorFault::BadTable),
    }
}

/// Whether the first column of the query is an integer, as a rowid is.
fn has_rowid(row: &Row) -> bool
    ensures yes { IsTrue result → (id : ℤ) × (rowid row.now ≡ Int id) }
    ensures no { result ≡ false → ¬ ((id : ℤ) × (rowid row.now ≡ Int id)) }
{
    matches!(row.get_ref(0), Ok(ValueRef::Int(_)))
}

/// Adds one row. A row that is no floor, or whose url was read before, is `BadTable`.
fn add_row(floors: &mut Floors, alloc: Global, row: &Row) -> Result<(), FloorFault>
    ensures ok { OnOk result (IsFloor row.now
        × (get floors.old.rows (floor_entry row.now).0 ≡ None)
        × (floors.new ≡ with_row floors.old (floor_entry row.now).0 (floor_entry row.now).1)) }
    ensures bad { result ≡ Err FloorFault.BadTable → IsFloor row.now →
        get floors.old.rows (floor_entry row.now).0 ≢ None }
    ensures named { IsReadFault result }
{
    if !has_rowid(row) {
        return Err(FloorFault::BadTable);
    }
    let key = key_in(alloc, row)?;
    let number = number_in(row)?;
    if !floors.add(alloc, &key, number)? {
        return Err(FloorFault::BadTable);
    }
    Ok(())
}

/// The floors of all rows, each added in turn, and the base 0.
pub(crate) fn floors_of(alloc: Global, rows: &[Row]) -> Result<Floors, FloorFault>
    ensures ok { IfOk result (λ floors. Adds empty rows.now floors.rows × (floors.base ≡ 0)) }
    ensures bad { result ≡ Err FloorFault.BadTable → (all : FloorRows) → ¬ Adds empty rows.now all }
    ensures named { IsReadFault result }
{
    let mut floors = Floors::new(alloc);
    for row in rows {
        add_row(&mut floors, alloc, row)?;
    }
    Ok(floors)
}

/// The number in this column, if it is one of 0 to 4294967295.
fn whole_number(row: &Row, at: usize) -> Option<u32>
    ensures some { IfSome result (λ number. column row.now at ≡ Int (pos number)) }
    ensures none { result ≡ None → (number : ℕ) → number ≤ 4294967295 →
        column row.now at ≢ Int (pos number) }
{
    match row.get_ref(at) {
        Ok(ValueRef::Int(number)) => u32::try_from(number).ok(),
        _ => None,
    }
}

/// The number of 32 bits, if these rows are one row of id 1, as a query of `base` shows it.
pub(crate) fn base_of(rows: &[Row]) -> Option<u32>
    ensures some { IfSome result (λ number.
        rows.now ≡ (Int (pos 1) ∷ Int (pos number) ∷ []) ∷ []) }
    ensures none { result ≡ None → (number : ℕ) → number ≤ 4294967295 →
        rows.now ≢ (Int (pos 1) ∷ Int (pos number) ∷ []) ∷ [] }
{
    let [row] = rows else {
        return None;
    };
    if row.column_count() != 2 {
        return None;
    }
    match row.get_ref(0) {
        Ok(ValueRef::Int(1)) => whole_number(row, 1),
        _ => None,
    }
}
