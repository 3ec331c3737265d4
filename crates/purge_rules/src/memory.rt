//! A store of purges in memory, for the world and for tests.
ghost use Rattle.std.specs.Prelude.{◌≡◌, true};
ghost use Rattle.purge_rules.specs.Purges.{no_purges};

use crate::{PurgeFault, PurgeStore, Purges};
use std::alloc::Global;
use std::marker::Model;
use url_key::Key;

/// A store of purges in memory. No crash changes it, and no call returns `StoreFault`.
///
/// A contract sees the last number, the pending purges and the admissions (`PurgeList`).
#[derive(Debug, Drop)]
pub struct MemoryPurges {
    purges: Purges,
}

impl Model for MemoryPurges {
    ghost use Rattle.purge_rules.specs.Purges.{PurgeList};

    ghost Value = { PurgeList };

    ghost view = { λ store. store.purges };
}

impl MemoryPurges {
    /// No number was given. Allocates nothing.
    pub fn new(alloc: Global) -> MemoryPurges
        ensures { result ≡ no_purges }
    {
        MemoryPurges {
            purges: Purges::new(alloc),
        }
    }
}

impl PurgeStore for MemoryPurges {
    ghost content = { λ purges. purges };

    ghost may_find = { λ purges found. found ≡ purges };

    ghost is_honest = { λ _. Unit {0} };

    ghost is_usable = { λ _. true };

    ghost failed = { λ _. 0 };

    fn load(&mut self, alloc: Global) -> Result<Purges, PurgeFault> {
        Ok(self.purges.copy(alloc)?)
    }

    fn add(&mut self, alloc: Global, number: u32, key: &Key) -> Result<(), PurgeFault> {
        self.purges.add(alloc, number, key)?;
        Ok(())
    }

    fn admit(&mut self, _alloc: Global, number: u32, member: u8) -> Result<(), PurgeFault> {
        self.purges.admit(number, member)?;
        Ok(())
    }

    fn mark(&mut self, _alloc: Global, number: u32, member: u8) -> Result<(), PurgeFault> {
        self.purges.mark(number, member);
        Ok(())
    }

    fn finish(&mut self, _alloc: Global, number: u32) -> Result<(), PurgeFault> {
        self.purges.finish(number);
        Ok(())
    }

    fn failures(&self) -> u64 {
        0
    }
}
