//! A seat: one thread's right to call a node, with what the thread knows of the node's history.
ghost use Rattle.std.specs.Prelude.{◌≡◌};

use node_book::NodeEntry;
use std::marker::{Brand, Model};
use values_history::{Front, Run};

/// Which run of which node it is, and how its history begins.
pub trait NodeRun: Run {
    ghost use Rattle.std.specs.Prelude.{Option};
    ghost use Rattle.node_seats.specs.Beginning.{Beginning};

    ghost beginning: { Option Beginning };
}

impl NodeRun for Brand {
    ghost use Rattle.std.specs.Prelude.{None};

    ghost beginning = { None };
}

/// The right of one thread to call a node. The thread owns it, and no other thread can use it.
///
/// A contract sees its number, and the node's history as far as the thread knows it. That history
/// is a beginning of the one history of the node, and its entries are steps by the rules, from the
/// node's beginning on. In memory a seat is three numbers.
#[derive(Drop)]
pub struct Seat<J: NodeRun> {
    /// Its number, from 0.
    pub(crate) number: u8,
    /// How many calls were made by it.
    pub(crate) calls: u64,
    /// What it knows of the history.
    pub(crate) front: Front<NodeEntry, J>,
}

impl<J: NodeRun> Model for Seat<J> {
    ghost use Rattle.std.specs.Prelude.{◌≡◌, length};
    ghost use Rattle.node_seats.specs.Beginning.{IsHistory};
    ghost use Rattle.node_seats.specs.Seats.{SeatView, entries_of};

    ghost Value = { SeatView };

    ghost view = { λ seat. record { number = seat.number; seen = seat.front } };

    ghost invariant = { λ seat. (seat.calls ≡ length (entries_of seat.number seat.front))
        × IsHistory J.beginning seat.front };
}
