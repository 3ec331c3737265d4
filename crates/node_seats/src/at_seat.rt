//! The steps of a shared node by one of its seats.
use crate::seat::{NodeRun, Seat};
use crate::shared::SharedNode;
use floor_rules::FloorStore;
use node_bytes::Stepper;
use node_rules::{Event, Reply, StepFault};
use std::sync::Wait;

/// A node that other threads use too, as the thread that owns this seat takes its steps. The node's
/// lock is held for one call.
#[derive(Drop)]
pub struct AtSeat<'n, S: FloorStore, J: NodeRun, R: Wait> {
    /// The clock and the locks of the system.
    pub rt: &'n R,
    /// The node.
    pub node: &'n SharedNode<S, J>,
    /// The seat.
    pub seat: Seat<J>,
}

impl<S: FloorStore + Drop, J: NodeRun, R: Wait> Stepper for AtSeat<'_, S, J, R> {
    ghost use Rattle.node_seats.specs.Seats.{Called};

    ghost takes = { λ before event told after. Called before.seat event told after.seat };

    /// Makes one call of [`SharedNode::call`].
    fn step(&mut self, event: Event<()>) -> Result<Reply<()>, StepFault> {
        self.node.call(self.rt, &mut self.seat, event)
    }
}
