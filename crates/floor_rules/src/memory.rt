//! A store of floors in memory, for the world and for tests.
ghost use Rattle.std.specs.Prelude.{◌≡◌, ⊤, true};
ghost use Rattle.floor_rules.specs.Floors.{no_floors};

use crate::fault::FloorFault;
use crate::floors::Floors;
use crate::store::FloorStore;
use std::alloc::Global;
use std::marker::Model;
use url_key::Key;

/// A store of floors in memory. No crash changes it, and no call returns `StoreFault`.
///
/// A contract sees a table of floors.
#[derive(Debug, Drop)]
pub struct MemoryFloors {
    floors: Floors,
}

impl Model for MemoryFloors {
    ghost use Rattle.floor_rules.specs.Coded.{floors_code};
    ghost use Rattle.floor_rules.specs.Floors.{FloorTable};

    ghost Value = { FloorTable };

    ghost coded = { floors_code };

    ghost view = { λ store. store.floors };
}

impl MemoryFloors {
    /// No key has a floor. Allocates nothing.
    pub fn new(alloc: Global) -> MemoryFloors
        ensures { result ≡ no_floors }
    {
        MemoryFloors {
            floors: Floors::new(alloc),
        }
    }
}

impl FloorStore for MemoryFloors {
    ghost content = { λ floors. floors };

    ghost may_find = { λ floors found. found ≡ floors };

    ghost is_honest = { λ _. Unit {0} };

    ghost is_usable = { λ _. true };

    ghost failed = { λ _. 0 };

    ghost has_cause = { λ _ _ _ _. ⊥ };

    ghost has_base_cause = { λ _ _ _. ⊥ };

    fn load(&mut self, _alloc: Global) -> Result<Floors, FloorFault> {
        Ok(self.floors.copy()?)
    }

    fn raise(&mut self, alloc: Global, key: &Key, number: u32) -> Result<(), FloorFault> {
        self.floors.raise(alloc, key, number)?;
        Ok(())
    }

    fn raise_base(&mut self, number: u32) -> Result<(), FloorFault> {
        self.floors.raise_base(number);
        Ok(())
    }

    fn failures(&self) -> u64 {
        0
    }
}
