//! The parts of a table, each compared with the wanted one. In keys place 0 of a row is its rowid,
//! and its columns follow from place 1.
ghost use Rattle.std.specs.Prelude.{◌≡◌, ◌∷◌, [], true, false, not, Some, IsTrue};
ghost use Rattle.sqlite.specs.declared.types.Value.TheVariants.{Null};
ghost use Rattle.sqlite.specs.Collation.TheVariants.{Binary};

use sqlite_items::Items;
use sqlite_schema::code::Terms;
use sqlite_schema::schema::{Column, Kind, Table};
use sqlite_value::keys::{Collation, Order};
use sqlite_value::value::{Bytes, Value};

/// Whether the name is this one, octet by octet.
pub fn is_named(name: &Bytes, wanted: &[u8]) -> bool
    ensures yes { IsTrue result → name.now ≡ wanted.now }
    ensures no { result ≡ false → ¬ (name.now ≡ wanted.now) }
{
    name.as_slice() == wanted
}

/// Whether the list has this column alone.
pub fn is_place(places: &Items<usize>, wanted: usize) -> bool
    ensures yes { IsTrue result → places.now ≡ wanted ∷ [] }
    ensures no { result ≡ false → ¬ (places.now ≡ wanted ∷ []) }
{
    places.as_slice() == [wanted].as_slice()
}

/// Whether there is one UNIQUE, of this column alone.
pub fn is_unique_place(uniques: &Items<Items<usize>>, wanted: usize) -> bool
    ensures yes { IsTrue result → uniques.now ≡ (wanted ∷ []) ∷ [] }
    ensures no { result ≡ false → ¬ (uniques.now ≡ (wanted ∷ []) ∷ []) }
{
    let [places] = uniques.as_slice() else {
        return false;
    };
    is_place(places, wanted)
}

/// Whether this is such a column of a STRICT table, with no default and in the order of plain
/// octets.
pub fn is_column(column: &Column, name: &[u8], kind: Kind, not_null: bool) -> bool
    ensures yes { IsTrue result → column.now
        ≡ record {
          name = name.now;
          kind = kind;
          is_strict = true;
          not_null = not_null;
          default =
              Null;
          collation = Binary;
        } }
    ensures no { result ≡ false → ¬
        (column.now ≡ record {
          name = name.now;
          kind = kind;
          is_strict = true;
          not_null =
              not_null;
          default = Null;
          collation = Binary;
        }) }
{
    let has_no_default = matches!(column.default, Value::Null);
    is_named(&column.name, name)
        && column.kind == kind
        && column.is_strict
        && column.not_null == not_null
        && has_no_default
        && column.collation == Collation::Binary
}

/// Whether the table has no foreign key, no computed default, no default that reads the time and no
/// AUTOINCREMENT.
pub fn is_plain(table: &Table) -> bool
    ensures yes { IsTrue result → (table.now.references ≡ []) × (table.now.computed ≡ [])
        × (table.now.stamps ≡ record { places = []; terms = []; formats = [] })
        × IsTrue (not table.now.is_counted) }
    ensures no { result ≡ false → ¬ ((table.now.references ≡ []) × (table.now.computed ≡ [])
        × (table.now.stamps ≡ record { places = []; terms = []; formats = [] })
        × IsTrue (not table.now.is_counted)) }
{
    table.references.is_empty()
        && table.computed.is_empty()
        && table.stamps.places.is_empty()
        && has_no_terms(&table.stamps.terms)
        && table.stamps.formats.is_empty()
        && !table.is_counted
}

/// Whether there is no expression.
pub fn has_no_terms(terms: &Terms) -> bool
    ensures yes { IsTrue result → terms.now ≡ [] }
    ensures no { result ≡ false → ¬ (terms.now ≡ []) }
{
    terms.roots.is_empty()
}

/// Whether the first column is the rowid and the primary key, and there is no UNIQUE.
pub fn has_rowid_key(table: &Table) -> bool
    ensures yes { IsTrue result → (table.now.key ≡ Some 0) × (table.now.primary ≡ 0 ∷ [])
        × (table.now.uniques ≡ []) × (table.now.orders ≡ []) }
    ensures no { result ≡ false → ¬ ((table.now.key ≡ Some 0) × (table.now.primary ≡ 0 ∷ [])
        × (table.now.uniques ≡ []) × (table.now.orders ≡ [])) }
{
    has_rowid(table) && table.uniques.is_empty() && table.orders.is_empty()
}

/// Whether the first column is the rowid and the primary key.
pub fn has_rowid(table: &Table) -> bool
    ensures yes { IsTrue result → (table.now.key ≡ Some 0) × (table.now.primary ≡ 0 ∷ []) }
    ensures no { result ≡ false → ¬ ((table.now.key ≡ Some 0)
        × (table.now.primary ≡ 0 ∷ [])) }
{
    is_rowid(table.key) && is_place(&table.primary, 0)
}

/// Whether the first column is the rowid (INTEGER PRIMARY KEY).
fn is_rowid(key: Option<usize>) -> bool
    ensures yes { IsTrue result → key ≡ Some 0 }
    ensures no { result ≡ false → ¬ (key ≡ Some 0) }
{
    matches!(key, Some(0))
}

/// Whether there is one order, that of plain octets.
pub fn is_plain_order(orders: &Items<Order>) -> bool
    ensures yes { IsTrue result → orders.now ≡ record { digits = 0 } ∷ [] }
    ensures no { result ≡ false → ¬ (orders.now ≡ record { digits = 0 } ∷ []) }
{
    let [order] = orders.as_slice() else {
        return false;
    };
    order.digits == 0
}
