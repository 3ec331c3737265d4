//! The standing of a node: what is known of it.
ghost use Rattle.std.specs.Prelude.{◌≡◌, true, IfOk};
ghost use Rattle.roster.specs.Lookups.{is_member};
ghost use Rattle.node_rules.specs.State.{opened};
ghost use Rattle.run_rules.specs.Board.{Open};
ghost use Rattle.run_check.specs.Held.{standing_of, IsSound};

use floor_rules::MemoryFloors;
use node_core::Node;
use object_store::WebCopy;
use roster::{Listed, Roster};
use std::alloc::{AllocError, Global};
use std::hash::RandomState;

/// A closed node. Nothing is pending at it.
#[derive(Drop)]
pub(crate) struct ClosedNode {
    /// The floors that are stored, which may not be those in its memory.
    pub(crate) floors: MemoryFloors,
    /// The copies that it held once it had closed, the most recent first.
    pub(crate) copies: Listed<WebCopy<()>>,
    /// The next block, as it closed.
    pub(crate) next: u32,
}

/// The standing of a node.
#[derive(Drop)]
pub(crate) enum Standing {
    /// It has no record yet, and holds nothing, not even a floor.
    New,
    /// It is open.
    Open(Node<(), MemoryFloors>),
    /// It is closed.
    Shut(ClosedNode),
    /// Its record opened in a state that the run does not allow; nothing is known of it.
    Astray,
}

/// A node that opens with these floors. `keys` are the keys of the hashes that find its copies.
pub(crate) fn opened_with(
    alloc: Global,
    keys: RandomState,
    roster: &Roster,
    id: u8,
    floors: MemoryFloors,
) -> Result<Standing, AllocError>
    requires { is_member roster.now id ≡ true }
    ensures standing { IfOk result (λ standing. standing_of standing ≡ Open (opened floors)) }
    ensures sound { IfOk result (IsSound roster.now id) }
{
    let copy = roster.copy(alloc)?;
    match Node::open_with_random_keys(alloc, copy, id, floors, keys) {
        Ok(node) => Ok(Standing::Open(node)),
        Err(_) => Err(AllocError),
    }
}
