//! A node that threads share: each thread has a seat, and what it is told stands in one history.
//!
//! [`SharedNode`] is a node under one lock. A thread calls it by a [`Seat`], which it owns; a call
//! holds the lock for one step. The node's history is the list of all its steps, which only grows
//! and which only proofs see (`values_history`). A seat knows a beginning of it. After a call the
//! last entry that the seat knows is that call with its outcome; it comes after all that the seat
//! knew before, and is the seat's only new one. So no reply is invented, no call is made twice, and
//! what two threads were told are places of one history that the rules allow. [`AtSeat`] takes a
//! node's steps that way, as a [`Stepper`](node_bytes::Stepper).
//!
//! For a check of the run the steps are recorded as well ([`Retention`]), on pages: a page has
//! space for 4,096 steps, and until their events have brought 4 MiB along ([`octets_of`]). A full
//! page ends within a call, which copies nothing and takes no longer for it. [`SharedNode::hold`]
//! holds the node while its record, that of all pages, is taken. Where none is kept, no step is
//! kept and no state of the node is copied. [`Places`] is the counter from which each call draws
//! its place; all nodes of a run share it.
//!
//! Order of reading: `specs/Beginning.antt` and `specs/Seats.antt` (what a call does to its seat),
//! `specs/Records.antt` (what a record is), `specs/Desks.antt`, `specs/Weight.antt` (what an
//! event brings along); `src/seat.rt`, `src/shared.rt` (the call), `src/desk.rt` (the call inside
//! the lock), `src/entering.rt` (the step and its entry), `src/whole.rt` (the history),
//! `src/kept.rt` (a value that only proofs see), `src/at_seat.rt`, `src/retention.rt`,
//! `src/steps.rt`, `src/weight.rt`, `src/places.rt`; `specs/Kept.antt`; `proofs/Lib.antt`.
//!
//! The crate waits at its own lock. It touches no socket, clock or thread; files are touched by the
//! node's store of floors, which is passed in with the node.
//!
//! What it does not promise: which places are drawn (the check of a run tests them); that memory
//! suffices. A call of a seat may answer `Closed` at once, since the node is under the lock: tests
//! show that calls take steps.
#![tactic(auto)]

mod at_seat;
mod desk;
mod entering;
mod kept;
mod places;
mod retention;
mod seat;
mod shared;
mod steps;
mod weight;
mod whole;

pub use at_seat::AtSeat;
pub use places::Places;
pub use retention::Retention;
pub use seat::{NodeRun, Seat};
pub use shared::{Held, SharedNode};
pub use weight::octets_of;
