//! The floors of a member, with the greatest of them.
ghost use Rattle.std.specs.Prelude.{◌≡◌, IfOk};
ghost use Rattle.floor_rules.specs.Floors.{seen as greatest_of};

use floor_rules::{FloorFault, FloorStore};
use std::alloc::Global;

/// A member's floors, in a store.
#[derive(Drop)]
pub(crate) struct NodeFloors<F: FloorStore> {
    /// The member's id.
    pub(crate) id: u8,
    /// Its floors.
    pub(crate) floors: F,
    /// The greatest of them, or 0.
    pub(crate) seen: u32,
    pub(crate) ghost greatest: { F.is_honest floors → seen ≡ greatest_of (F.content floors) },
}

impl<F: FloorStore + Drop> NodeFloors<F> {
    /// The floors of member `id`, which are loaded to see the greatest of them. The fault is that
    /// of the load.
    pub(crate) fn of(alloc: Global, id: u8, mut floors: F) -> Result<NodeFloors<F>, FloorFault>
        ensures { IfOk result (λ node. node.id ≡ id) }
    {
        let seen = floors.load(alloc)?.seen();
        Ok(NodeFloors { id, floors, seen })
    }
}
