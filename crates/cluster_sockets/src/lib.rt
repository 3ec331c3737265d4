//! The event loop of a node: one thread that polls the node's sockets and queues a job for what
//! comes.
//!
//! A [`NodeLoop`] has the node's two UDP sockets (ICP and HTCP), its HTTP listener, the fetches
//! that are under way, and the responses that their clients have not taken whole.
//! [`NodeLoop::poll_once`] polls and waits for a limited time. Then it does this, and a limited
//! share of each:
//!
//! - It reads the datagrams that are ready, 256 of each protocol, and puts a job for each. One that
//!   an [`AtOnce`] answers on this thread needs no job.
//! - It accepts 256 connections, and puts a job for each whose request a worker can read without
//!   waiting for its client: once its head has come whole, is as long as a head may be (16,384
//!   octets), or its client sends no more, or once five seconds have passed since it was accepted
//!   (RFC 9112, section 9.5). Until then the connection waits in the loop, so slow and silent
//!   clients occupy no worker. A connection of which nothing has come by then is closed.
//! - It takes errands from the [`Inbox`]: a [`FetchRequest`](cluster_fetch::FetchRequest) to begin,
//!   a [`Delivery`] to write on. It goes on with fetches, 1,024 at once and 64 to one address, each
//!   for five seconds, and puts a job for each that has ended. It writes responses on as clients
//!   take them. After at most 256 of them the connection lingers, for five seconds or until its
//!   client closes it.
//!
//! In a flood nothing grows. A datagram whose lane of the queue is full is dropped. A connection
//! whose lane is full is told 503, and so is the one that has waited longest where 1,024 wait, or
//! 128 from one address; where 1,024 wait and 128 of them are from the newcomer's address, the one
//! of that address. [`Senders`] send on the same UDP sockets from any thread.
//!
//! Order of reading: `specs/Polls.antt` (what a poll does to the queue); `src/node_loop.rt` (the
//! poll); `src/datagrams.rt`, `src/streams.rt`, `src/fetches.rt` and `src/deliveries.rt` (its
//! parts); `src/heads.rt` (a connection whose head has not come whole); `src/delivery.rt` and
//! `src/outgoing.rt` (a response under way); `src/inbox.rt`; `src/putting.rt` (how a job is put);
//! `src/per_address.rt`, `src/lingering.rt`, `src/at_once.rt`, `src/sockets.rt`, `src/fault.rt`;
//! `proofs/Puts.antt` (puts add up over a poll).
//!
//! The crate opens sockets and connections, polls them, and reads the clock. It starts no thread.
//!
//! A contract says of a poll only what it does to the queue: it puts datagrams, streams and
//! fetches, puts no timer, and takes nothing. That what comes to a socket is put, and when, is
//! tested. That a poll goes on at once with what the one before it left concerns speed alone.
#![tactic(auto)]

mod at_once;
mod datagrams;
mod deliveries;
mod delivery;
mod fault;
mod fetches;
mod heads;
mod inbox;
mod lingering;
mod node_loop;
mod outgoing;
mod per_address;
mod putting;
mod sockets;
mod streams;

pub use at_once::{AtOnce, Never};
pub use delivery::{Delivered, Delivery};
pub use fault::LoopFault;
pub use inbox::{Errand, Inbox};
pub use node_loop::NodeLoop;
pub use sockets::Senders;
