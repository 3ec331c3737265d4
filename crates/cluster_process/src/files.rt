//! The stores of a cluster, as types of their own: each is the store of `purge_numbers` or
//! `purge_records` over a file, and each call is a call of that.
use floor_rules::{FloorFault, FloorStore, Floors};
use purge_numbers::SqliteFloors;
use purge_records::SqlitePurges;
use purge_rules::{PurgeFault, PurgeStore, Purges};
use sqlite::{File, FileStore};
use std::alloc::Global;
use url_key::Key;

/// The floors of a member, in its file.
#[derive(Drop)]
pub(crate) struct NodeStore {
    pub(crate) floors: SqliteFloors<FileStore<File>>,
}

impl FloorStore for NodeStore {
    ghost content = { λ it. ⟦<SqliteFloors<FileStore<File>> as FloorStore>⟧.content it.floors };

    ghost may_find = { λ it. ⟦<SqliteFloors<FileStore<File>> as FloorStore>⟧.may_find it.floors };

    ghost is_honest = { λ it. ⟦<SqliteFloors<FileStore<File>> as FloorStore>⟧.is_honest it.floors };

    ghost is_usable = { λ it. ⟦<SqliteFloors<FileStore<File>> as FloorStore>⟧.is_usable it.floors };

    ghost failed = { λ it. ⟦<SqliteFloors<FileStore<File>> as FloorStore>⟧.failed it.floors };

    ghost has_cause = { λ old new key number.
        ⟦<SqliteFloors<FileStore<File>> as FloorStore>⟧.has_cause
        old.floors new.floors key number };

    ghost has_base_cause = { λ old new number.
        ⟦<SqliteFloors<FileStore<File>> as FloorStore>⟧.has_base_cause
        old.floors new.floors number };

    fn load(&mut self, alloc: Global) -> Result<Floors, FloorFault> {
        self.floors.load(alloc)
    }

    fn raise(&mut self, alloc: Global, key: &Key, number: u32) -> Result<(), FloorFault> {
        self.floors.raise(alloc, key, number)
    }

    fn raise_base(&mut self, number: u32) -> Result<(), FloorFault> {
        self.floors.raise_base(number)
    }

    fn failures(&self) -> u64 {
        self.floors.failures()
    }
}

/// The purges of the master, in its file.
#[derive(Drop)]
pub(crate) struct MasterStore {
    pub(crate) purges: SqlitePurges<FileStore<File>>,
}

impl PurgeStore for MasterStore {
    ghost content = { λ it. ⟦<SqlitePurges<FileStore<File>> as PurgeStore>⟧.content it.purges };

    ghost may_find = { λ it. ⟦<SqlitePurges<FileStore<File>> as PurgeStore>⟧.may_find it.purges };

    ghost is_honest = { λ it. ⟦<SqlitePurges<FileStore<File>> as PurgeStore>⟧.is_honest it.purges };

    ghost is_usable = { λ it. ⟦<SqlitePurges<FileStore<File>> as PurgeStore>⟧.is_usable it.purges };

    ghost failed = { λ it. ⟦<SqlitePurges<FileStore<File>> as PurgeStore>⟧.failed it.purges };

    fn load(&mut self, alloc: Global) -> Result<Purges, PurgeFault> {
        self.purges.load(alloc)
    }

    fn add(&mut self, alloc: Global, number: u32, key: &Key) -> Result<(), PurgeFault> {
        self.purges.add(alloc, number, key)
    }

    fn admit(&mut self, alloc: Global, number: u32, member: u8) -> Result<(), PurgeFault> {
        self.purges.admit(alloc, number, member)
    }

    fn mark(&mut self, alloc: Global, number: u32, member: u8) -> Result<(), PurgeFault> {
        self.purges.mark(alloc, number, member)
    }

    fn finish(&mut self, alloc: Global, number: u32) -> Result<(), PurgeFault> {
        self.purges.finish(alloc, number)
    }

    fn failures(&self) -> u64 {
        self.purges.failures()
    }
}
