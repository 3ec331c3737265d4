//! The numbers of keys.
ghost use Rattle.std.specs.Prelude.{◌≡◌, ◌↔◌, ◌≤◌, IsTrue, IfOk, OnOk, OnErr};
ghost use Rattle.std.specs.FinMap.{empty, get, insert, len};
ghost use Rattle.floor_rules.specs.Floors.{greatest_row, row};

use std::alloc::{AllocError, Global};
use std::collections::BTreeMap;
use std::marker::Model;
use url_key::Key;

/// The number of each key that has one.
///
/// A contract sees a finite map from the text of a key to its number.
#[derive(Debug, Drop)]
pub(crate) struct Rows {
    // the number of each key, by the key's text
    rows: BTreeMap<Vec<u8>, u32>,
    // the greatest of these numbers, or 0
    greatest: u32,
}

impl Model for Rows {
    ghost use Rattle.std.specs.Prelude.{◌≡◌, map};
    ghost use Rattle.std.specs.Coded.{coded_list, coded_ℕ};
    ghost use Rattle.std.specs.FinMap.{code, from_entries};
    ghost use Rattle.floor_rules.specs.Floors.{FloorRows, greatest_row as greatest_of};

    ghost Value = { FloorRows };

    ghost coded = { code (coded_list coded_ℕ) coded_ℕ };

    ghost view = { λ rows. from_entries
        (map (λ entry. (entry.0.items, entry.1)) rows.rows.entries) };

    ghost invariant = { λ rows. rows.greatest
        ≡ greatest_of (from_entries (map (λ entry. (entry.0.items, entry.1)) rows.rows.entries)) };
}

impl Rows {
    /// No rows. Allocates nothing.
    pub(crate) fn new(alloc: Global) -> Rows
        ensures { result ≡ empty }
    {
        Rows {
            rows: BTreeMap::new(alloc),
            greatest: 0,
        }
    }

    /// The key's number, if it has one. Searches the tree.
    pub(crate) fn get(&self, key: &Key) -> Option<u32>
        ensures { result ≡ get self.now key.now }
    {
        match self.rows.get(key.text()) {
            Some(number) => Some(*number),
            None => None,
        }
    }

    /// The key's number, or 0 if it has none. Searches the tree.
    pub(crate) fn number(&self, key: &Key) -> u32
        ensures { result ≡ row self.now key.now }
    {
        self.get(key).unwrap_or(0)
    }

    /// The greatest number of all rows, or 0 if there is none. Searches nothing.
    pub(crate) fn greatest(&self) -> u32
        ensures { result ≡ greatest_row self.now }
    {
        self.greatest
    }

    /// How many rows there are.
    pub(crate) fn len(&self) -> usize
        ensures { result ≡ len self.now }
    {
        self.rows.len()
    }

    /// Whether the same keys have the same numbers in both. Allocates nothing.
    pub(crate) fn same(&self, other: &Rows) -> bool
        ensures { IsTrue result ↔ (self.now ≡ other.now) }
    {
        self.rows.len() == other.rows.len() && self.rows == other.rows
    }

    /// A second copy of the rows.
    pub(crate) fn copy(&self) -> Result<Rows, AllocError>
        ensures { IfOk result (λ rows. rows ≡ self.now) }
    {
        Ok(Rows {
            rows: self.rows.clone()?,
            greatest: self.greatest,
        })
    }

    /// Sets the key's row to this number, which is no less than its number now. If an
    /// allocation fails, nothing changes.
    pub(crate) fn set(&mut self, alloc: Global, key: &Key, number: u32) -> Result<(), AllocError>
        requires { row self.old key.now ≤ number }
        ensures ok { OnOk result (self.new ≡ insert self.old key.now number) }
        ensures err { OnErr result (self.new ≡ self.old) }
    {
        let text = Vec::from_slice(alloc, key.text())?;
        self.rows.insert(text, number)?;
        self.greatest = self.greatest.max(number);
        Ok(())
    }
}
