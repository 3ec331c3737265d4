//! The codec of HTCP/0.0 (RFC 2756): the messages by which caches ask what others hold, and clear
//! it. What a node does with them is in `node_rules`, what the master of purges does in
//! `purge_rules`.
//!
//! - [`Htcp`]: a message with MINOR, TRANS-ID and its [`Content`]: requests and responses of NOP,
//!   TST and CLR with what they say, all others by their numbers. Contracts see its fields, and the
//!   texts as lists of octets.
//! - [`decode`]: the message of a datagram, or its first fault ([`HtcpFault`]).
//! - [`is_test`]: whether a datagram begins like a TST request, before it is decoded.
//! - [`fits`], [`encode`]: whether a message can be written, and its octets.
//! - [`number_in`]: the number in a private header line, `X-Purge-Number`, `X-Purge-Stamp` or
//!   `X-Purge-Base` ([`HeaderKind`]).
//! - [`grammar_is_exact`], [`decoded_is_exact`], [`written_is_spelled`], [`lines_are_exact`]: laws.
//!   A datagram spells exactly one message or has a fault; the function `decoded` gives that
//!   message; what `encode` writes, `decode` reads back; a text has exactly the lines in which
//!   `number_in` looks.
//!
//! What is not read: the content of MON and SET, signatures in AUTH, octets behind AUTH, and octets
//! of OP-DATA behind what the opcode needs. So nothing here authenticates a message. Written
//! messages have an empty AUTH.
//!
//! To read, in this order:
//!
//! 1. `specs/Grammar.antt`: which octets spell which message (`Spells`), by HEADER, DATA and AUTH;
//!    `IsContent` says which DATA a content has.
//! 2. `specs/Reading.antt`: what is at which offset. `specs/Faults.antt`: the first fault of a
//!    datagram (`first_fault`). `specs/Decoded.antt`: its message as a function (`decoded`).
//!    `specs/Questions.antt`: which octets begin like a TST request.
//! 3. `specs/Written.antt`: the octets that are written, and of which messages (`Fits`).
//! 4. `specs/Numbers.antt`, `specs/Lines.antt`: the number of a header line, and the lines of a
//!    text. `specs/Clearing.antt`: which responses to CLR acknowledge a purge.
//! 5. `specs/Laws.antt`, `src/laws.rt` and `src/decoding.rt`: the laws. `specs/Names.antt`: names
//!    that scripts print.
//!    `specs/Cut.antt`: contents whose texts are still in the datagram.
//! 6. `src/message.rt`, `src/fault.rt`, `src/reading.rt`, `src/cut.rt`, `src/questions.rt`,
//!    `src/writing.rt`, `src/numbers.rt`.
//! 7. `proofs/Decided.antt`, and before it what it is built on, in the order of `proofs/Lib.antt`.
//!
//! It touches no file, socket, clock or thread.
#![tactic(auto)]

mod cut;
mod decoding;
mod fault;
mod laws;
mod message;
mod numbers;
mod questions;
mod reading;
mod writing;

pub use decoding::decoded_is_exact;
pub use fault::HtcpFault;
pub use laws::{grammar_is_exact, lines_are_exact, written_is_spelled};
pub use message::{
    CLR, Content, Detail, Htcp, LONGEST_WRITTEN, NOT_ALLOWED, NOT_IMPLEMENTED, Specifier, TST,
};
pub use numbers::{HeaderKind, number_in};
pub use questions::{is_response, is_test, trans_in};
pub use reading::decode;
pub use writing::{encode, fits};
