//! The whole history of a node, which what has the node keeps beside it.
ghost use Rattle.std.specs.Prelude.{◌≡◌, ◌++◌, ◌∷◌, [], length, IsTrue, IsFalse, IfOk};
ghost use Rattle.node_seats.specs.Beginning.{IsHistory};
ghost use Rattle.node_seats.specs.Seats.{Adds, IsNext};

use crate::seat::{NodeRun, Seat};
use node_book::NodeEntry;
use std::alloc::{AllocError, Global};
use std::marker::Model;
use values_history::{Entry, Front, Head};

/// The whole history of a node, and how many entries of it each seat has.
///
/// A contract sees its entries.
pub(crate) struct Whole<J: NodeRun> {
    head: Head<NodeEntry, J>,
    front: Front<NodeEntry, J>,
    /// The number of entries of each seat, by the seat's number.
    counts: Vec<u64>,
}

impl<J: NodeRun> Drop for Whole<J> {
    fn drop(self) {
        let Whole {
            head: _,
            front: _,
            counts: _,
        } = self;
    }
}

impl<J: NodeRun> Model for Whole<J> {
    ghost use Rattle.std.specs.Prelude.{List};
    ghost use Rattle.node_book.specs.declared.book.NodeEntry.{NodeEntry};
    ghost use Rattle.node_seats.specs.Seats.{AreCounts};

    ghost Value = { List NodeEntry };

    ghost view = { λ whole. whole.front };

    ghost invariant = { λ whole. AreCounts whole.counts.items whole.front };
}

impl<J: NodeRun> Whole<J> {
    /// A history without entries, for this many seats.
    pub(crate) fn new(
        alloc: Global,
        head: Head<NodeEntry, J>,
        front: Front<NodeEntry, J>,
        seats: u8,
    ) -> Result<Whole<J>, AllocError>
        requires { front ≡ [] }
        ensures { IfOk result (λ whole. whole ≡ []) }
    {
        let mut counts = Vec::new(alloc);
        counts.resize(usize::from(seats), 0)?;
        Ok(Whole {
            head,
            front,
            counts,
        })
    }

    /// A seat by which no call was made.
    pub(crate) fn new_seat(&self, number: u8) -> Seat<J>
        requires { self.now ≡ [] }
        ensures { result ≡ record { number = number; seen = [] } }
    {
        Seat {
            number,
            calls: 0,
            front: self.front.again(),
        }
    }

    /// Whether the history goes on from what the seat knows by entries of other seats alone. It is
    /// so for each seat of the node.
    pub(crate) fn is_next(&self, seat: &Seat<J>) -> bool
        ensures { IsTrue result → IsNext self.now seat.now }
    {
        let place = usize::from(seat.number);
        if place >= self.counts.len() || self.counts[place] != seat.calls {
            return false;
        }
        seat.front.begins(&self.front)
    }

    /// Adds the entry of a value, made by this seat, which knows the whole history then. Returns
    /// whether it did; else nothing is changed, which never happens.
    pub(crate) fn add<X, M: Entry<X, NodeEntry>>(&mut self, seat: &mut Seat<J>, value: &X) -> bool
        requires next { IsNext self.old seat.old }
        requires own { (M.of value.now).seat ≡ seat.old.number }
        requires history { IsHistory J.beginning (self.old ++ M.of value.now ∷ []) }
        ensures added { IsTrue result → (self.new ≡ self.old ++ M.of value.now ∷ [])
            × Adds seat.old (M.of value.now) seat.new }
        ensures same { IsFalse result → (self.new ≡ self.old) × (seat.new ≡ seat.old) }
    {
        let place = usize::from(seat.number);
        if place >= self.counts.len() || !self.front.add_as::<X, M>(&self.head, value) {
            return false;
        }
        self.counts[place] += 1;
        seat.calls += 1;
        seat.front = self.front.again();
        true
    }
}
