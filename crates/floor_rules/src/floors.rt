//! The floors of all keys.
ghost use Rattle.std.specs.Prelude.{◌≡◌, ◌≢◌, ◌↔◌, ◌≤◌, ◌<◌, false, None, IsTrue, IfOk, OnOk};
ghost use Rattle.std.specs.Prelude.{OnErr};
ghost use Rattle.std.specs.FinMap.{get, len};
ghost use Rattle.floor_rules.specs.Floors.{base_only, floor, new_base, no_floors, raised, row};
ghost use Rattle.floor_rules.specs.Floors.{seen, with_base, with_row};
ghost use Rattle.floor_rules.specs.Raising.{LowersNone, after};

use crate::rows::Rows;
use std::alloc::{AllocError, Global};
use std::marker::Model;
use url_key::Key;

/// The most rows of a table of floors.
pub const MOST_ROWS: usize = 65536;

/// What a raise makes of a table of floors.
#[derive(Clone, Copy, Debug, PartialEq, Eq)]
pub enum Raising {
    /// Nothing changes.
    Nothing,
    /// The key's row gets this number.
    Row(u32),
    /// All rows are dropped, and this is the base.
    Base(u32),
}

/// The floors of all keys: the numbers of those keys that have rows, and a base.
#[derive(Debug, Drop)]
pub struct Floors {
    /// The numbers of keys.
    rows: Rows,
    /// What the floor of every key is at least.
    base: u32,
}

impl Model for Floors {
    ghost use Rattle.floor_rules.specs.Coded.{floors_code};
    ghost use Rattle.floor_rules.specs.Floors.{FloorTable};

    ghost Value = { FloorTable };

    ghost coded = { floors_code };

    ghost view = { λ floors. record { rows = floors.rows; base = floors.base } };
}

impl Floors {
    /// The floor of every key is 0. Allocates nothing.
    pub fn new(alloc: Global) -> Floors
        ensures { result ≡ no_floors }
    {
        Floors {
            rows: Rows::new(alloc),
            base: 0,
        }
    }

    /// The key's floor: the greater of its number, 0 if it has no row, and the base. Searches the
    /// tree.
    pub fn floor(&self, key: &Key) -> u32
        ensures { result ≡ floor self.now key.now }
    {
        self.rows.number(key).max(self.base)
    }

    /// The base: no floor is less. Takes no memory.
    pub fn base(&self) -> u32
        ensures { result ≡ self.now.base }
    {
        self.base
    }

    /// The greatest floor: of all rows and the base. Searches nothing.
    pub fn seen(&self) -> u32
        ensures { result ≡ seen self.now }
    {
        self.rows.greatest().max(self.base)
    }

    /// How many keys have rows.
    pub fn rows(&self) -> usize
        ensures { result ≡ len self.now.rows }
    {
        self.rows.len()
    }

    /// Whether both have the same rows and the same base. Allocates nothing.
    pub fn same(&self, other: &Floors) -> bool
        ensures { IsTrue result ↔ (self.now ≡ other.now) }
    {
        self.base == other.base && self.rows.same(&other.rows)
    }

    /// A second copy of the floors.
    pub fn copy(&self) -> Result<Floors, AllocError>
        ensures { IfOk result (λ floors. floors ≡ self.now) }
    {
        Ok(Floors {
            rows: self.rows.copy()?,
            base: self.base,
        })
    }

    /// What a raise of the key to this number makes of the floors: see [`Raising`]. A row that is
    /// no less stays. A key without a row gets one, unless the base is no less than the number;
    /// where there are 65,536 rows, the base becomes the greater of the number and the greatest
    /// floor. Takes no memory.
    pub fn raising(&self, key: &Key, number: u32) -> Raising
        ensures after { raised self.now key.now number ≡ after result self.now key.now }
        ensures row { LowersNone (row self.now.rows key.now) result }
    {
        match self.rows.get(key) {
            Some(row) if number <= row => Raising::Nothing,
            Some(_) => Raising::Row(number),
            None if number <= self.base => Raising::Nothing,
            None if self.rows.len() < MOST_ROWS => Raising::Row(number),
            None => Raising::Base(number.max(self.seen())),
        }
    }

    /// The base after a raise of the key to this number, where it rises, else 0. If it rises, no
    /// row is left. Takes no memory.
    pub fn new_base(&self, key: &Key, number: u32) -> u32
        ensures value { result ≡ new_base self.now key.now number }
        ensures rises { 0 < result → raised self.now key.now number ≡ base_only result }
    {
        match self.raising(key, number) {
            Raising::Base(base) if self.base < base => base,
            _ => 0,
        }
    }

    /// Adds a row for a key that has none, whatever the base is. `false` if the key has a row; then
    /// nothing changes, as if an allocation fails.
    pub fn add(&mut self, alloc: Global, key: &Key, number: u32) -> Result<bool, AllocError>
        ensures added { IfOk result (λ is_new. IsTrue is_new →
            (get self.old.rows key.now ≡ None) × (self.new ≡ with_row self.old key.now number)) }
        ensures there { IfOk result (λ is_new. is_new ≡ false →
            (get self.old.rows key.now ≢ None) × (self.new ≡ self.old)) }
        ensures err { OnErr result (self.new ≡ self.old) }
    {
        if self.rows.get(key).is_some() {
            return Ok(false);
        }
        self.rows.set(alloc, key, number)?;
        Ok(true)
    }

    /// Raises the base to this number at least. Rows stay. Takes no memory.
    pub fn raise_base(&mut self, number: u32)
        ensures { self.new ≡ with_base self.old number }
    {
        self.base = self.base.max(number);
    }

    /// Drops all rows, and makes this the base. Takes no memory.
    pub fn rebase(&mut self, alloc: Global, base: u32)
        ensures { self.new ≡ base_only base }
    {
        self.rows = Rows::new(alloc);
        self.base = base;
    }

    /// Raises the key's floor to this number at least, as [`Floors::raising`] says. If an
    /// allocation fails, nothing changes.
    pub fn raise(&mut self, alloc: Global, key: &Key, number: u32) -> Result<(), AllocError>
        ensures ok { OnOk result (self.new ≡ raised self.old key.now number) }
        ensures err { OnErr result (self.new ≡ self.old) }
    {
        match self.raising(key, number) {
            Raising::Nothing => Ok(()),
            Raising::Row(number) => self.rows.set(alloc, key, number),
            Raising::Base(base) => {
                self.rebase(alloc, base);
                Ok(())
            }
        }
    }
}
