//! Chooses where a member gets what it does not hold: from a peer or from the origin, by what its
//! peers answered to a query (RFC 2187, section 5).
//!
//! The main type is [`Round`]: one set of queries for one request. [`Round::start`] lists the peers
//! to query, [`Round::answer`] records a peer's first reply, [`Round::expire`] ends the waiting,
//! and [`Round::next`] chooses. The choice is a [`Source`]:
//!
//! 1. the first peer to answer that it has a copy, unless it told a stamp below the floor;
//! 2. else `Wait`, while a peer has not answered and the round has not expired;
//! 3. else the first parent to answer that it has no copy;
//! 4. else the origin.
//!
//! A peer that was tried already is passed over. A sibling is asked with `only-if-cached`, a parent
//! without. A foreign cache is asked, and chosen, only at floor 0: it takes no part in purges.
//!
//! Where to read:
//!
//! - `specs/Round`: who is asked, and whose answers count; what contracts see of a `Round`
//! - `specs/Choice`: the choice, as the function `choice`
//! - `specs/Laws`: what holds of every choice; `src/laws.rt` states it as a contract
//! - `src/said.rt`: the replies of peers and the sources, as types
//! - `src/round.rt`: the calls; `src/choosing.rt`: the choice over slices
//! - `proofs/Choices`: the laws; `proofs/Rooms` and `proofs/Few`: why the arrays are long enough
//!
//! A contract sees a `Round` as a `RoundText`: the peers asked, their first replies in order of
//! arrival, and whether the round has expired.
//!
//! This crate is pure: it sends nothing, has no clock, and allocates nothing (a `Round` holds two
//! arrays of 23 elements). The caller sends the queries and says when the time is over.
#![tactic(auto)]

mod choosing;
mod laws;
mod round;
mod said;

pub use laws::choices_follow_answers;
pub use round::Round;
pub use said::{FirstAnswer, Said, Source};
