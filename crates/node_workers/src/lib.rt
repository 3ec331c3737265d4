//! A node that runs: its sockets and its threads.
//!
//! [`Workers::start`] opens a node's sockets and starts the node's thread. That thread starts 2 to
//! 8 workers. It then polls the [`NodeLoop`](cluster_sockets::NodeLoop) until the node is stopped,
//! and queues a timer for each round of queries that has waited for the roster's `query_wait`. A
//! step at the end of a round or a fetch that found no memory is queued again, one at each poll.
//! `cluster_service` says what a worker does with a job, and the event loop with a question.
//! Workers leave fetches, and responses that clients do not take at once, to the event loop, which
//! waits for all of them together. So no worker waits for a client, a peer or an origin.
//!
//! Each thread owns a seat of the node (`node_seats`) and takes its steps by it. The node's lock is
//! held for one step, and no lock is held while a socket is waited for. A page of its record that
//! is full ends within a step, and nobody waits for it. [`Workers::stop`] ends the threads, and
//! answers 503 to those who wait.
//!
//! To read the record of a running node, hold it first ([`Workers::hold`]): its thread takes the
//! node's lock and keeps it, so no step is taken until [`Workers::resume`]. Meanwhile
//! [`Workers::record`] hands out the record. Where several nodes are held before the first gives
//! its record, the records end at one moment.
//!
//! Order of reading: `src/workers.rt` (the calls, and the start); `src/threads.rt` (what each
//! thread does); `src/node.rt` (the node's thread from start to end); `src/signals.rt` with
//! `src/report.rt` (how the start went) and `src/halt.rt` (the hold); `src/fault.rt`,
//! `specs/Names.antt`.
//!
//! The crate opens sockets, starts threads, reads the clock, and waits at locks. Files are touched
//! by the store of floors, which is passed in ([`Ground`]).
//!
//! Contracts say that each `Workers` is of a member of the roster, and which faults a start may
//! have. What a step does is said in the crates of the node and of its seats. No contract says what
//! a thread does with it over sockets: tests show it.
#![tactic(auto)]

mod fault;
mod halt;
mod node;
mod report;
mod signals;
mod threads;
mod workers;

pub use cluster_service::{CloseCause, Closing, Gate, NoGate, milliseconds};
pub use cluster_sockets::LoopFault;
pub use cluster_waiting::AskedPeer;
pub use fault::{StartFault, StopFault};
pub use workers::{Ground, Workers};
