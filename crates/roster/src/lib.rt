//! Rosters: the configuration of a hierarchy of caches. A roster says who takes part, who asks
//! whom, and at which addresses they are.
//!
//! - [`Roster`]: `Roster::read` reads the tables of a text with `values_tables` and judges whether
//!   they fit together. Crates above look up members, peers, origins and the master in it, and
//!   never see the text. Look-ups allocate nothing.
//! - [`RosterFault`], in the order of the tests, and [`RosterError`]: a fault and its
//!   [`TextPlace`], which prints as a sentence.
//! - [`LAST_MEMBER`], [`is_foreign`], [`address_by`]: of ids, and of a cache. The types of the
//!   tables are those of `values_tables`.
//!
//! A contract sees a `Roster` as its `Tables`. The invariant `IsRoster` holds of each:
//!
//! - at most 16 members, 8 foreign caches, 23 peers of a member and 256 origins, and at least one
//!   founding member;
//! - no two equal ids, names, UDP addresses (ICP, HTCP and the master's together), HTTP addresses,
//!   or origins of one host and port;
//! - each peer is another cache of the roster, and no member names one twice;
//! - no chain of parents leads back to where it began;
//! - a member is found by its own HTCP address, and none has the master's address.
//!
//! To read, in this order:
//!
//! 1. `specs/Judged.antt`: which tables are a roster (`IsRoster`, `FitTogether`).
//!    `specs/Faults.antt`: the order of the faults.
//! 2. `specs/Lookups.antt`: what each look-up gives.
//! 3. `src/roster.rt`: `Roster`. `src/judge.rt`: the tests, with `src/doubles.rt` and
//!    `src/loops.rt` (and `specs/Among.antt`). `src/copying.rt`: a duplicate. `src/fault.rt`:
//!    faults and their sentences.
//! 4. `proofs/Circles.antt`: cycles of parents. `proofs/Addresses.antt`: members by their
//!    addresses.
//!
//! No contract says where an error is said to be, nor its sentence: a `Display` that
//! writes nothing would pass. Tests show both. The crate reads no file and touches no socket.
#![tactic(auto)]

mod copying;
mod doubles;
mod fault;
mod judge;
mod loops;
mod roster;

pub use crate::fault::{RosterError, RosterFault};
pub use crate::roster::{LAST_MEMBER, Roster, address_by, is_foreign};
pub use values_plain::{Address, Listed, Udp};
pub use values_tables::{Cache, Limits, Member, Origin, Peer, Role, TableKind, TextPlace};
