//! A node: what it holds, and the code of its step. The step is proved to be the one that
//! `node_rules` defines.
//!
//! [`Node::step`] takes an event and a mark, and returns a reply: what to serve, which datagrams to
//! send, what to begin. The main type is [`Node`]. [`Node::open`] makes one from a roster, a
//! member's id and a store of floors; [`Node::into_floors`] gives the store back. [`Node::state`]
//! copies its state; [`Node::place`] puts a copy into it by hand, for scripts.
//!
//! # Which file takes which event
//!
//! - `src/step.rt`: `step` refuses events at a closed node and hands each other event on
//! - `src/asks.rt`: `Client`, `PeerAsk`
//! - `src/arrivals.rt`: `PeerAnswer`, `ForeignAnswer`, `OriginAnswer`, `FetchFailed`, `Expired`
//! - `src/datagrams.rt`: `Datagram`. It answers NOP and unknown opcodes, and hands on the rest:
//!   - `src/questions.rt`: QUERY and TST, and replies of peers to a round
//!   - `src/purges.rt`: CLR; `src/admissions.rt`: one that tells a base
//!
//! They use `src/going_on.rt` (where a pending request goes next), `src/copies.rt` (which copy may
//! be served, which is stored) and `src/replies.rt` (makes a reply). `src/node.rt` has the type,
//! `src/opening.rt` opening, `src/placing.rt` copies by hand.
//!
//! # How a step fails
//!
//! Each method does whatever may fail before it changes anything: it copies, and makes its
//! messages, first. So a failed allocation (`NoMemory`) leaves the node as it was.
//!
//! Purges and admissions alone write to the store. The order of a purge, in `purge` of
//! `src/purges.rt`:
//!
//! 1. where the base of the floors is to rise, drop all copies below the new base;
//! 2. raise the floor in memory;
//! 3. raise it in the store, which commits it;
//! 4. drop an older copy of the key;
//! 5. make and return the response, so the acknowledgement leaves only after the commit.
//!
//! An admission, in `rebase` of `src/admissions.rt`, does the same but for 4: all copies below its
//! number go at 1, and 2 and 3 raise the base.
//!
//! If the store fails at 3, even for lack of memory, the node closes: it drops its pending requests
//! and answers `Closed` from then on. The store then has the floors from before the raise or from
//! after it, and the copies that 2 dropped are gone.
//!
//! # What contracts see
//!
//! A `Node` is a `NodeText` (`specs/View`): roster, id, state, store. While it is open, no call of
//! its store has failed, and an honest store has committed the node's floors (`IsTied`, its
//! invariant).
//!
//! The contract of `step` has four clauses:
//!
//! - `same`: roster and id stay
//! - `store`: what the store has after the step, also after a crash (`specs/Closing`)
//! - `cause`: over an honest store, `StoreFault` comes only if the store counted a failure, or can
//!   count no further
//! - `steps`: state and outcome are those of `Steps` of `node_rules`, for every function that gives
//!   the keys of texts
//!
//! Each method that carries out a rule says so by `Leads` or `MayClose` of `specs/Leads`.
//! `specs/SaidWithStamp`, `specs/Names` and `specs/Placed` have the words for answers to a round,
//! names of faults, and copies by hand. `proofs/Lib` gives an order for the proofs.
//!
//! # What it touches, and does not promise
//!
//! Its only side effect is a call of the store that it was given. Octets, clock, timers and sockets
//! are the caller's. It does not say that memory suffices, and no contract says that only the
//! store's `NoMemory` closes a node.
#![tactic(auto)]

mod admissions;
mod arrivals;
mod asks;
mod copies;
mod datagrams;
mod going_on;
mod node;
mod opening;
mod placing;
mod purges;
mod questions;
mod replies;
mod step;

pub use node::Node;
pub use opening::OpenFault;
pub use placing::{PlaceFault, Placed};
