//! The parts of a node's step that need no state: look-ups in the roster, and the messages that a
//! node sends (RFC 2186, RFC 2756).
//!
//! Each call is a definition of `node_rules` as code. What it sends is a `Sent`, a message that can
//! be encoded; so each message is built with the proof that it can.
//!
//! - `src/known.rt`: who a node knows ([`is_known`]), which peer of a round a sender is
//!   ([`peer_at`]), whether the roster has an origin ([`has_origin`]). The definitions are in
//!   `specs/Known` of `node_rules`.
//! - `src/replies.rt`: responses to datagrams, by ICP and HTCP. The definitions are in
//!   `specs/Messages` and `specs/Datagrams` there; `specs/Answers` has one word for TST responses.
//! - `src/questions.rt`: the queries of a round ([`queries`]). Their definition is `question_to` of
//!   `specs/Asks` there.
//! - `proofs/Sendable`: why each message can be encoded; `proofs/OneMore`: one query more in the
//!   list of queries
//!
//! Pure: it sends nothing. Calls that take an allocator and return a `Result` may fail with
//! `AllocError`, and with nothing else.
#![tactic(auto)]

mod known;
mod questions;
mod replies;

pub use known::{has_origin, is_known, peer_at};
pub use questions::queries;
pub use replies::{clr_answer, icp_answer, nop_answer, overall_answer, tst_answer};
