//! The model of the hierarchy as code: the real nodes of all members and the real master, with a
//! simulated network between them. `world_rules` defines the model and proves purges safe in it;
//! here the same holds of code. `cache world` runs it.
//!
//! `World` is the main type. `World::new` makes a world of a roster. `World::apply` applies one
//! event and returns its `Outcome`; its contract (`applied`) says that the event may happen so in
//! the model. `World::run` applies a list of events to a new world; its contract (`run`) says that
//! the run is one of the model, and that purges are safe in it. `World::datagrams` lists what was
//! sent (`Datagram`). Nodes are those of `node_core` and the master that of `purge_master`, with
//! floors and purges in memory, so no store ever fails. A datagram reaches a node as octets, by the
//! codecs of `node_bytes`. The crate touches no file, socket, clock or thread.
//!
//! A contract sees a `World` as a `WorldView`: the roster, the place of the next event, whether an
//! allocation has failed (`spoilt`), and the world of the model. After a failed allocation nothing
//! is promised of that world, and each further `apply` returns `NoMemory` while a place is left.
//! No outcome tells of a step that lacked memory or met a failing store.
//!
//! Not promised: that memory is there. Nothing is said here of real sockets and files.
//!
//! Read first `specs/View` (what callers see), `specs/Runs` (what a run is) and `src/playing.rt`
//! (`World`). Then the parts of a world:
//!
//! - `src/parts.rt`: `Parts`, the nodes, the master, the clock and the network; `specs/Parts` says
//!   what holds of them and what an event does.
//! - `src/following.rt`: one event, and which function below takes it.
//! - `src/arriving.rt`: what arrives at a member or at the master; faults and restarts.
//! - `src/members.rt`: a member's node steps, closes or restarts.
//! - `src/posting.rt` and `specs/Posted`: what a step sends.
//! - `src/purging.rt`: the master's calls, and their CLRs.
//! - `src/telling.rt` and `specs/Outcomes`: the outcome of an event.
//! - `src/network.rt`: the items of the network.
//!
//! `proofs/Lib` gives the order of reading of the proofs.
#![tactic(auto)]

mod arriving;
mod following;
mod members;
mod network;
mod parts;
mod playing;
mod posting;
mod purging;
mod telling;

pub use network::{Datagram, PeerAnswer, PeerAsk, Waiting};
pub use playing::World;
