//! The node that threads share.
ghost use Rattle.std.specs.Prelude.{◌≡◌, [], Some, IfOk, IfSome, OnErr};
ghost use Rattle.node_bytes.specs.Stepping.{AnswersAsk};
ghost use Rattle.node_seats.specs.Beginning.{beginning_of};
ghost use Rattle.node_seats.specs.Desks.{AreNewSeats};
ghost use Rattle.node_seats.specs.Records.{IsEndOf, IsPart, taken_from};
ghost use Rattle.node_seats.specs.Seats.{Called};

use crate::desk::Desk;
use crate::places::Places;
use crate::retention::Retention;
use crate::seat::{NodeRun, Seat};
use crate::whole::Whole;
use floor_rules::FloorStore;
use node_book::{NodeEntry, Record};
use node_core::Node;
use node_rules::{Event, Reply, StepFault};
use std::alloc::{AllocError, Global};
use std::marker::Model;
use std::sync::{Mutex, MutexGuard, Wait};
use values_history::{Front, Head};

/// A node that threads share, under one lock.
#[derive(Drop)]
pub struct SharedNode<S: FloorStore, J: NodeRun> {
    desk: Mutex<Desk<S, J>>,
}

impl<S: FloorStore + Drop, J: NodeRun> SharedNode<S, J> {
    /// Shares a node among this many seats, which come back by their numbers from 0. `head` and
    /// `front` are those of a new history. Where there is no memory, the node is dropped.
    pub fn open(
        alloc: Global,
        node: Node<(), S>,
        seats: u8,
        retention: Retention,
        head: Head<NodeEntry, J>,
        front: Front<NodeEntry, J>,
        places: Places,
    ) -> Result<(SharedNode<S, J>, Vec<Seat<J>>), AllocError>
        requires none { front ≡ [] }
        requires beginning { J.beginning ≡ Some (beginning_of node) }
        ensures { IfOk result (λ opened. AreNewSeats seats opened.1.items) }
    {
        let whole = Whole::new(alloc, head, front, seats)?;
        let row = new_seats(alloc, &whole, seats)?;
        let desk = Mutex::new(Desk::new(alloc, node, whole, places, retention)?);
        Ok((SharedNode { desk }, row))
    }

    /// Makes one call by a seat. The entry of the call is then the last one that the seat knows of
    /// the history. Where no step was taken, the seat stays as it was. A request that is answered
    /// is served at once, and nothing else is done then; or it waits for what begins with it.
    ///
    /// Exactly the outcome of the entry is returned. Where there is no memory for a copy of its
    /// reply, the record is dropped and none is kept from then on, and the entry's own is returned.
    ///
    /// Faults: those of the step. `NoMemory` also comes where there is no memory for the entry, and
    /// no step is taken then.
    pub fn call<R: Wait>(
        &self,
        rt: &R,
        seat: &mut Seat<J>,
        event: Event<()>,
    ) -> Result<Reply<()>, StepFault>
        ensures called { Called seat.old event result seat.new }
        ensures asks { IfOk result (AnswersAsk event) }
    {
        self.desk.lock(rt).call(seat, event)
    }

    /// Holds the node: no call is made until what is returned is dropped.
    pub fn hold<R: Wait>(&self, rt: &R) -> Held<'_, S, J> {
        Held {
            desk: self.desk.lock(rt),
        }
    }
}

/// The seats of a node, by their numbers from 0.
fn new_seats<J: NodeRun>(
    alloc: Global,
    whole: &Whole<J>,
    seats: u8,
) -> Result<Vec<Seat<J>>, AllocError>
    requires { whole.now ≡ [] }
    ensures { IfOk result (λ row. AreNewSeats seats row.items) }
{
    let mut row = Vec::new(alloc);
    for number in 0..seats {
        row.push(whole.new_seat(number))?;
    }
    Ok(row)
}

/// A node that is held.
///
/// A contract sees its whole history, and the record that is kept of the history's end: the steps
/// since the last record was taken; or that none is kept.
#[derive(Drop)]
pub struct Held<'n, S: FloorStore, J: NodeRun> {
    desk: MutexGuard<'n, Desk<S, J>>,
}

impl<'n, S: FloorStore, J: NodeRun> Model for Held<'n, S, J> {
    ghost use Rattle.std.specs.Coded.{codes};
    ghost use Rattle.floor_rules.specs.Coded.{floors_code};
    ghost use Rattle.node_seats.specs.Desks.{held_of};
    ghost use Rattle.node_seats.specs.Records.{HeldView};

    ghost Value = { HeldView };

    ghost coded = { Prim.hlevel (codes, floors_code) };

    ghost view = { λ held. held_of held.desk.value };
}

impl<S: FloorStore + Drop, J: NodeRun> Held<'_, S, J> {
    /// Takes out the record that is kept, which has all steps since the last time, and begins the
    /// next one, which opens where this one closes; or takes none, exactly where none is kept. The
    /// record is the end of the node's history. Where there is no memory for that, nothing changes.
    pub fn take_record(&mut self) -> Result<Option<Record>, AllocError>
        ensures taken { IfOk result (λ taken. taken ≡ self.old.kept) }
        ensures next { IfOk result (λ _. self.new ≡ taken_from self.old) }
        ensures end { IfOk result (λ taken. IfSome taken (IsEndOf J.beginning self.old.log)) }
        ensures part { IfOk result (λ taken. IfSome taken (IsPart J.beginning)) }
        ensures same { OnErr result (self.new ≡ self.old) }
    {
        self.desk.take_record()
    }
}
