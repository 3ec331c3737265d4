//! A bounded store of copies of responses, the most recent first, in memory.
//!
//! - [`Store`] holds at most one [`WebCopy`] of each key, within two limits: the number of copies,
//!   and their octets together ([`size`]). Where a put goes over a limit, the least recent copies
//!   go.
//! - [`WebCopy`] is a stored response with its key, stamp, moment of the request and lifetime. The
//!   stamp is the purge number known when the read from the origin began, so a purge can tell
//!   which copies are older. A put never replaces a copy by one with a lesser stamp ([`Put`]).
//! - [`laws`] has one law of the definitions: a store keeps the longest front of its copies within
//!   both limits.
//!
//! Contracts see a store as its limits and the list of its copies (`Held` of `specs/Held`). Each
//! call does to that list what the functions of `specs/Listed` say. The store judges neither
//! freshness nor floors; its caller does.
//!
//! In memory, the copies lie in a hash map with a linked list (`lru`), hashed by SipHash
//! (`src/hashing.rt`). Only `copies` and `clear_all_below` go over all copies. For keys that
//! strangers choose, make the store by `Store::with_random_keys`; the results are the same. Time
//! is not part of any contract.
//!
//! Read first `specs/Held` and `specs/Listed`, then `src/store.rt` (the calls) and `src/cached.rt`
//! (what they do with the map). `specs/Counted` and `specs/Cached` are the invariant. The comment
//! of `proofs/Lib` gives the order of the proofs. Tests compare the store with a plain list over
//! random calls (`tests_store`).
#![tactic(auto)]

mod cached;
mod copy;
mod hashing;
pub mod laws;
mod store;

pub use copy::{WebCopy, size};
// A crate can name a store in a contract only if the types of its fields are exported.
#[doc(hidden)]
pub use hashing::Hashing;
pub use store::{Put, Store};
