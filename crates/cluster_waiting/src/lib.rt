//! What the threads of a node share beside the node: waiting clients, early answers, waiting
//! rounds, the deadlines of requests, steps that are owed, how its peers answer, and queues of
//! errands.
//!
//! One thread may take a request and another take the step that serves it. [`WaitingClients`] is
//! where the two meet: the client is left there under the block of serials of its request, the
//! answer comes under the same block, and whichever is second gets the other. [`Rounds`] has the
//! rounds of queries that wait for replies, in the order of their deadlines; the deadlines of
//! requests are kept in the same way, by their blocks. [`Outstanding`] says which peers each round
//! waits for, and [`Peers`] which of them are thought dead. [`OwedSteps`] has the steps at the ends
//! of rounds and fetches that found no memory, to be taken again: until then their requests keep
//! their places. [`WaitTables`] has all of it but the peers, each part under a lock of its own;
//! [`PeerTable`] has the peers under a lock. [`Queue`] holds what one thread leaves to another.
//!
//! Order of reading: `specs/Waiting.antt`, `specs/Peers.antt`, `specs/Owed.antt` (all definitions);
//! `src/clients.rt`, `src/rounds.rt`, `src/outstanding.rt`, `src/owed.rt`, `src/peers.rt`,
//! `src/queue.rt` (the types that contracts see); `src/wait_tables.rt`, `src/peer_table.rt` (the
//! tables under their locks); `src/fault.rt`.
//!
//! The crate waits at its own locks, and touches no socket, file or clock: its caller passes
//! moments in.
//!
//! A contract sees no value under a lock. So everything is said of `WaitingClients`, `Rounds`,
//! `Outstanding`, `OwedSteps`, `Peers` and `Queue`, and each function of `WaitTables` is one call
//! of theirs under the lock, or two, each under its own. No contract says that memory is there, so
//! a body that always answers `NoMemory` although it is there meets the contracts; that calls
//! succeed with ample memory is tested.
#![tactic(auto)]

mod clients;
mod fault;
mod outstanding;
mod owed;
mod peer_table;
mod peers;
mod queue;
mod rounds;
mod wait_tables;

pub use clients::{MOST_WAITING, WaitingClients};
pub use fault::{HandedBack, TableFault};
pub use outstanding::Outstanding;
pub use owed::{Ends, MOST_OWED, OwedStep, OwedSteps};
pub use peer_table::PeerTable;
pub use peers::{AskedPeer, MOST_PEERS, MOST_UNANSWERED, Peers};
pub use queue::Queue;
pub use rounds::{MOST_ROUNDS, Rounds, WaitingRound};
pub use wait_tables::{WaitTables, Waits};
