//! The pending requests of a node, as a list that is found by serials.
//!
//! The main type is [`PendingList`]: the requests in the order of their blocks of serials
//! (`Pending` and `NodeState` of `node_rules`). It finds a request by the serial of its round
//! ([`PendingList::of_round`]) or of its last fetch ([`PendingList::of_fetch`]) with one binary
//! search, and finds a block for a new one ([`PendingList::free_block`]). It changes a request
//! where it stands by a [`Progress`], the parts of a request that change, and takes it out when it
//! ends.
//!
//! Block b has the serials 32b to 32b + 31, so a serial tells its block by `serial / 32`. That is
//! enough because no request begins more than 26 fetches: one for each of at most 23 replies to its
//! round, and three origin reads. Each request in a `PendingList` *can go on*: its block has a
//! serial for each fetch that it may still begin.
//!
//! Where to read:
//!
//! - `specs/CanGoOn`: why the serials of a block suffice; `specs/InOrder`: the invariant of
//!   `PendingList`
//! - `specs/Found`, `specs/Changed`: what is found, and what a change leaves
//! - `src/waiting.rt`: the calls; `src/progress.rt`: `Progress`
//! - `src/laws.rt`: a request can still go on after all that the rules of a node do to it
//! - `proofs/Finding`, `proofs/Changing`, `proofs/Counting`: proofs of finding, changing, and the
//!   count of fetches
//!
//! A contract sees a `PendingList` as the list of its requests. Pure: no IO and no clock; only
//! [`PendingList::add`] allocates.
#![tactic(auto)]

pub mod laws;
mod progress;
mod waiting;

pub use progress::Progress;
pub use waiting::{PendingList, block_after};
