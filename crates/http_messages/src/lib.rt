//! HTTP requests and responses as values, as caches hold them (RFC 9110).
//!
//! - [`Ask`]: a request, a GET of one URL, with the directives and the member number that caches
//!   send.
//! - [`Answer`]: a final response: status, kept fields, age, purge stamp and body. [`Answer::new`]
//!   makes one only of parts that can be written and read back, so every `Answer` is within the
//!   limits there.
//! - [`Field`] and [`Fields`]: one header field, and the list of those that a response keeps.
//! - [`Body`]: the octets of a response's content.
//! - [`FetchFault`]: why a message was not read or written.
//! - [`MOST_FIELDS`] of a head, [`MOST_KEPT_FIELDS`] of a response and [`LONGEST_BODY`]: limits.
//!
//! Duplicates of a response share its body and its fields, in stores, in replies and in recorded
//! runs: one more raises two counts of owners and duplicates no octet. Contracts promise only that
//! it is equal.
//!
//! Contracts see an `Answer` as the record `AnswerText` of `specs/Answer`, a field as `FieldText`
//! of `specs/Field`, and a body as the list of its octets.
//!
//! `http_reading` reads these values, `http_writing` writes them, and `peer_fetch` exports all
//! three. Whether a response may be stored, and for how long it is fresh, is `reuse_rules`' to
//! say.
//!
//! Read first `src/ask.rt` and `src/answer.rt`, then `specs/Field` (which fields are kept) and
//! `specs/Answer` (`is_writable`), then `src/fault.rt`. The only proofs of weight are loops over
//! fields (`proofs/FieldLemmas`).
#![tactic(auto)]

mod answer;
mod ask;
mod body;
mod fault;
mod fields;

pub use answer::{Answer, LONGEST_BODY, MOST_KEPT_FIELDS, is_trimmed};
pub use ask::Ask;
pub use body::Body;
pub use fault::FetchFault;
pub use fields::{Field, Fields, MOST_FIELDS};
