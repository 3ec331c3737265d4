//! The bounded queue of jobs between a node's event loop and its workers.
//!
//! The thread of the event loop puts each [`Job`]: a datagram, a connection whose request head has
//! come, the timeout of a round of queries, or a fetch that has ended or failed. Workers take the
//! jobs. [`Jobs`] is first in, first out: a queue of `crossbeam_queue` that lies under one lock,
//! with the one pass that its rule admits. Each [`Lane`] has room for 256 jobs of its own
//! ([`CAPACITY`]): what comes from the master, from peers and from anybody else waits apart, and so
//! do connections, timers and fetches. So a flood of one kind drops no job of another.
//! [`Jobs::put`] does not wait for space: where a lane is full it gives the job back.
//! [`Jobs::take`] does not wait for a job: where none is there it gives none; [`Jobs::wait`] waits
//! for one. The places of all lanes are allocated when the queue is made: no put or take allocates.
//!
//! Each thread carries a [`Pass`]. A contract sees it as what the thread knows: the puts and takes
//! that it has seen (`seen`), in the order in which they happened, and its own among them (`own`).
//! [`Jobs::split`] gives another thread a pass, and [`Jobs::join`] puts two together.
//!
//! The rule stands in `specs/Order.antt`: one history has all puts and takes, and at every moment
//! the jobs taken are a prefix of the jobs put. So no job is taken twice, and none is lost. After a
//! call the pass has seen the whole history up to that moment: where `take` gave none, no job
//! waited then; where `put` gave the job back, its lane held 256 then.
//!
//! Order of reading: `specs/Order.antt`, `specs/Lanes.antt`; `src/job.rt` (what a job is);
//! `src/backlog.rt` (the jobs under the lock); `src/jobs.rt` (the calls); `src/order.rt` (the types
//! that contracts speak of; no value of them is made); `proofs/Lib.antt`.
//!
//! The crate opens no socket, file or thread. The streams in its jobs are passed through.
//!
//! What it does not promise: how soon a job is taken, and that a thread that waits is woken; tests
//! show it. Contracts see a stream as its number alone.
#![tactic(auto)]

mod backlog;
mod job;
mod jobs;
pub mod order;

pub use backlog::CAPACITY;
pub use job::{Job, Lane, Sender};
pub use jobs::{Jobs, Pass};
pub use values_history::{NewHistory, Run};
