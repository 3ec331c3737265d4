//! The parts of a world: its state as code.
ghost use Rattle.std.specs.Prelude.{◌≡◌, ◌==◌, option_map};
ghost use Rattle.world_rules.specs.World.{item as item_of};

use crate::network::{Datagram, PeerAnswer, PeerAsk, Waiting};
use floor_rules::MemoryFloors;
use node_core::Node;
use purge_master::Master;
use purge_rules::MemoryPurges;
use roster::Roster;
use std::alloc::Global;

/// The parts of a world.
pub(crate) struct Parts {
    pub alloc: Global,
    /// The members, their addresses and peers, and the master.
    pub roster: Roster,
    /// The members' nodes, in the roster's order.
    pub nodes: Vec<Node<u64, MemoryFloors>>,
    /// The master of purges.
    pub master: Master<MemoryPurges>,
    /// The time, in seconds.
    pub clock: u64,
    /// All datagrams ever sent.
    pub datagrams: Vec<Datagram>,
    /// All requests that members ever sent to members.
    pub asks: Vec<PeerAsk>,
    /// All responses that members ever sent to members.
    pub answers: Vec<PeerAnswer>,
    /// The members' requests that have begun to wait at a node, since it last started.
    pub waiting: Vec<Waiting>,
    /// The place of the next event, from 1; 0 if no place is left.
    pub place: u64,
}

impl Drop for Parts {
    fn drop(self) {
        let Parts {
            alloc: _,
            roster: _,
            nodes: _,
            master: _,
            clock: _,
            datagrams: _,
            asks: _,
            answers: _,
            waiting: _,
            place: _,
        } = self;
    }
}

/// Returns the item with this number, counted from 1.
pub(crate) fn item<T>(items: &[T], number: u64) -> Option<&T>
    ensures { option_map (λ i. i.now) result ≡ item_of items.now number }
{
    if number == 0 {
        None
    } else {
        items.get((number - 1) as usize)
    }
}
