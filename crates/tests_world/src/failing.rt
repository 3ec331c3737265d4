//! Floors in a store that fails.
ghost use Rattle.std.specs.Prelude.{◌≡◌, ◌==◌};

use floor_rules::{FloorFault, FloorStore, Floors};
use std::alloc::Global;
use url_key::Key;

/// Floors in memory whose store takes so many raises, and then fails for good.
#[derive(Drop)]
pub(crate) struct FailingFloors {
    floors: Floors,
    raises_left: u32,
    failures: u64,
}

impl FailingFloors {
    pub(crate) fn new(alloc: Global, raises: u32) -> FailingFloors {
        FailingFloors::over(Floors::new(alloc), raises)
    }

    /// The same that begins with these floors.
    pub(crate) fn over(floors: Floors, raises: u32) -> FailingFloors {
        FailingFloors {
            floors,
            raises_left: raises,
            failures: 0,
        }
    }

    /// How many rows the store has, and the base.
    pub(crate) fn rows_and_base(&self) -> (usize, u32) {
        (self.floors.rows(), self.floors.base())
    }
}

impl FloorStore for FailingFloors {
    ghost content = { λ store. store.floors };

    ghost may_find = { λ store found. found ≡ store.floors };

    ghost is_honest = { λ _. Unit {0} };

    ghost is_usable = { λ store. store.failures == 0 };

    ghost failed = { λ store. store.failures };

    ghost has_cause = { λ _ _ _ _. Unit {0} };

    ghost has_base_cause = { λ _ _ _. Unit {0} };

    fn load(&mut self, _alloc: Global) -> Result<Floors, FloorFault> {
        if self.failures != 0 {
            self.failures = self.failures.saturating_add(1);
            return Err(FloorFault::StoreFault);
        }
        Ok(self.floors.copy()?)
    }

    fn raise(&mut self, alloc: Global, key: &Key, number: u32) -> Result<(), FloorFault> {
        if self.failures != 0 || self.raises_left == 0 {
            self.failures = self.failures.saturating_add(1);
            return Err(FloorFault::StoreFault);
        }
        self.floors.raise(alloc, key, number)?;
        self.raises_left -= 1;
        Ok(())
    }

    fn raise_base(&mut self, number: u32) -> Result<(), FloorFault> {
        if self.failures != 0 || self.raises_left == 0 {
            self.failures = self.failures.saturating_add(1);
            return Err(FloorFault::StoreFault);
        }
        self.floors.raise_base(number);
        self.raises_left -= 1;
        Ok(())
    }

    fn failures(&self) -> u64 {
        self.failures
    }
}
