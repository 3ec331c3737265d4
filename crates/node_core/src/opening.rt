//! How a node is opened, and gives its store back.
ghost use Rattle.std.specs.Prelude.{◌≡◌, ◌≢◌, ◌≤◌, [], true, false, IfOk, Ok, Err};
ghost use Rattle.roster.specs.Lookups.{is_member as is_member_of};
ghost use Rattle.node_rules.specs.State.{opened};
ghost use Rattle.node_core.specs.Names.{open_fault_name};

use crate::Node;
use floor_rules::{FloorFault, FloorStore};
use node_waiting::PendingList;
use object_store::Store;
use roster::{Limits, Roster};
use std::alloc::{AllocError, Global};
use std::hash::RandomState;
use thiserror::Error;

/// Why a node was not opened.
#[derive(Clone, Copy, Debug, PartialEq, Eq, Error)]
pub enum OpenFault {
    /// The roster has no member with this id.
    #[error("no member has this id")]
    NoSuchNode,
    /// The store of floors did not load: an earlier call of it had failed, or an allocation failed.
    #[error("the floors were not read")]
    Floors(FloorFault),
    /// An allocation failed.
    #[error("there was no memory")]
    NoMemory,
}

impl From<AllocError> for OpenFault {
    ghost use Rattle.std.specs.Prelude.{◌≡◌};
    ghost use Rattle.node_core.specs.declared.opening.OpenFault.TheVariants.{NoMemory};

    ghost from_gives = { λ _ fault. fault ≡ NoMemory };

    fn from(_: AllocError) -> OpenFault {
        OpenFault::NoMemory
    }
}

impl OpenFault {
    /// The fault's name, as scripts print it: that of the store's fault, if the store did not load.
    pub const fn name(self) -> &'static str
        ensures { result.now ≡ open_fault_name self }
    {
        match self {
            OpenFault::NoSuchNode => "NoSuchNode",
            OpenFault::Floors(fault) => fault.name(),
            OpenFault::NoMemory => "NoMemory",
        }
    }
}

/// A store without copies, within these limits. With keys, it hashes by them.
fn empty_store<T>(
    alloc: Global,
    limits: Limits,
    keys: Option<RandomState>,
) -> Result<Store<T>, AllocError>
    requires count { 1 ≤ limits.copies }
    requires bytes { 1 ≤ limits.bytes }
    ensures { IfOk result (λ store. store ≡ record {
      limit_count = limits.copies;
      limit_bytes = limits.bytes;
      copies = [];
    }) }
{
    let count = limits.copies as usize;
    match keys {
        Some(keys) => Store::with_random_keys(alloc, count, limits.bytes, keys),
        None => Store::new(alloc, count, limits.bytes),
    }
}

impl<T, S: FloorStore + Drop> Node<T, S> {
    /// Opens the node of a member, with the floors of its store and nothing else: no copy, no
    /// pending request, and block 1 next. [Node 4]
    ///
    /// It finds copies by hashes with fixed keys. Use `open_with_random_keys` if strangers choose
    /// the URLs.
    ///
    /// Faults: `NoSuchNode` if the roster has no member with this id; `Floors` if the store does
    /// not load; `NoMemory`. The store is dropped then and must be opened again.
    pub fn open(alloc: Global, roster: Roster, id: u8, store: S) -> Result<Node<T, S>, OpenFault>
        ensures member { IfOk result (λ node. (node.roster ≡ roster) × (node.id ≡ id)) }
        ensures no_such { is_member_of roster id ≡ false → result ≡ Err OpenFault.NoSuchNode }
        ensures such { is_member_of roster id ≡ true → result ≢ Err OpenFault.NoSuchNode }
        ensures fresh { IfOk result (λ node. node.state ≡ opened node.state.floors) }
        ensures state { IfOk result (λ node. S.is_honest node.store →
            node.state ≡ opened (S.content store)) }
        ensures store { IfOk result (λ node. node.store ≡ store) }
        ensures cause { result ≡ Err (OpenFault.Floors FloorFault.StoreFault) →
            S.is_usable store ≡ false }
        ensures named { result ≢ Err (OpenFault.Floors FloorFault.BadTable) }
    {
        Node::open_over(alloc, roster, id, store, None)
    }

    /// Opens a node as `open` does, for URLs that strangers choose. It finds copies by hashes with
    /// these random keys; as long as they stay secret, nobody can choose URLs that are slow to look
    /// up. Nodes may share the keys.
    pub fn open_with_random_keys(
        alloc: Global,
        roster: Roster,
        id: u8,
        store: S,
        keys: RandomState,
    ) -> Result<Node<T, S>, OpenFault>
        ensures member { IfOk result (λ node. (node.roster ≡ roster) × (node.id ≡ id)) }
        ensures no_such { is_member_of roster id ≡ false → result ≡ Err OpenFault.NoSuchNode }
        ensures such { is_member_of roster id ≡ true → result ≢ Err OpenFault.NoSuchNode }
        ensures fresh { IfOk result (λ node. node.state ≡ opened node.state.floors) }
        ensures state { IfOk result (λ node. S.is_honest node.store →
            node.state ≡ opened (S.content store)) }
        ensures store { IfOk result (λ node. node.store ≡ store) }
        ensures cause { result ≡ Err (OpenFault.Floors FloorFault.StoreFault) →
            S.is_usable store ≡ false }
        ensures named { result ≢ Err (OpenFault.Floors FloorFault.BadTable) }
    {
        Node::open_over(alloc, roster, id, store, Some(keys))
    }

    /// Opens the node, with the random keys if there are any.
    fn open_over(
        alloc: Global,
        roster: Roster,
        id: u8,
        mut store: S,
        keys: Option<RandomState>,
    ) -> Result<Node<T, S>, OpenFault>
        ensures member { IfOk result (λ node. (node.roster ≡ roster) × (node.id ≡ id)) }
        ensures no_such { is_member_of roster id ≡ false → result ≡ Err OpenFault.NoSuchNode }
        ensures such { is_member_of roster id ≡ true → result ≢ Err OpenFault.NoSuchNode }
        ensures fresh { IfOk result (λ node. node.state ≡ opened node.state.floors) }
        ensures state { IfOk result (λ node. S.is_honest node.store →
            node.state ≡ opened (S.content store)) }
        ensures store { IfOk result (λ node. node.store ≡ store) }
        ensures cause { result ≡ Err (OpenFault.Floors FloorFault.StoreFault) →
            S.is_usable store ≡ false }
        ensures named { result ≢ Err (OpenFault.Floors FloorFault.BadTable) }
    {
        if !roster.is_member(id) {
            return Err(OpenFault::NoSuchNode);
        }
        let floors = match store.load(alloc) {
            Ok(floors) => floors,
            Err(fault) => return Err(OpenFault::Floors(fault)),
        };
        let copies = empty_store(alloc, roster.limits(), keys)?;
        Ok(Node {
            alloc,
            roster,
            id,
            store,
            floors,
            copies,
            pending: PendingList::new(alloc),
            next: 1,
            closed: false,
        })
    }
}

impl<T: Drop, S: FloorStore> Node<T, S> {
    /// Gives the store of floors back, also that of a closed node. Allocates nothing.
    pub fn into_floors(self) -> S
        ensures { result ≡ self.store }
    {
        self.into_store()
    }
}
