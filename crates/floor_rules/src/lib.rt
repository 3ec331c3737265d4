//! Floors, and the contract of a store that keeps them.
//!
//! A *floor* is the greatest purge number of a key at a node, 0 if the key was never purged, or the
//! *base*, if that is greater. A node serves no copy whose stamp is below its key's floor.
//!
//! - `Floors`: the rows of keys and the base in memory, for look-ups.
//! - `FloorStore`: the contract of a store whose floors outlive a restart: `load`, `raise`,
//!   `raise_base`, `failures`. A node knows its store by this contract alone, so no proof of a node
//!   reads a database.
//! - `MemoryFloors`: a store in memory, for the world and for tests. The store in a file is
//!   `purge_numbers`.
//! - `FloorFault`: why a call on a store fails.
//!
//! Read in this order:
//!
//! 1. `specs/Floors.antt`: the table, a raise of a key or of the base, and what becomes of 65,536
//!    rows.
//! 2. `src/store.rt`: the contract, in the words of `specs/Store.antt`.
//! 3. `src/floors.rt`: the table as code, over the rows of `src/rows.rt`. `src/memory.rt`: the
//!    store in memory.
//! 4. `src/fault.rt`, `specs/Fault.antt`: the faults and their names.
//! 5. `proofs/Urls.antt`, `proofs/MapLemmas.antt`, `proofs/SameRows.antt`: why a tree of texts and
//!    numbers is a map.
//!
//! A contract sees `Floors` and `MemoryFloors` as a table (`FloorTable`): a finite map of rows, and
//! the base. The crate touches no file, socket, clock or thread.
//!
//! Not promised: what a store returns after `NoMemory` from a raise. The contract says so only
//! after `StoreFault`.
#![tactic(auto)]

mod fault;
mod floors;
mod memory;
mod rows;
mod store;

pub use fault::FloorFault;
pub use floors::{Floors, MOST_ROWS, Raising};
pub use memory::MemoryFloors;
pub use store::FloorStore;
