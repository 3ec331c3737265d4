//! The codec of ICP version 2 (RFC 2186): the messages by which caches ask each other for a URL.
//! What a node does with them (RFC 2187) is in `node_rules`.
//!
//! - [`Icp`]: a message with its [`IcpOp`], request number, URL and object. Contracts see its
//!   fields, and the texts as lists of octets.
//! - [`decode`]: the message of a datagram, or its first fault ([`IcpFault`]).
//! - [`is_query`]: whether a datagram begins like a QUERY, before it is decoded.
//! - [`fits`], [`encode`]: whether a message can be written, and its octets.
//! - [`grammar_is_exact`], [`decoded_is_exact`], [`written_is_spelled`]: laws. A datagram spells
//!   exactly one message or has a fault; the function `decoded` gives that message; what `encode`
//!   writes, `decode` reads back.
//!
//! The codec reads opcodes 1 to 4 and 21 to 23 (RFC 2186, "ICP Opcodes"); SECHO and DECHO are
//! `BadOpcode`. It reads a HIT_OBJ but never writes one. It ignores options, option data and
//! addresses when it reads, and writes them as zero.
//!
//! To read, in this order:
//!
//! 1. `specs/Grammar.antt`: which octets spell which message (`Spells`).
//! 2. `specs/Reading.antt`: what is at which offset. `specs/Faults.antt`: the first fault of a
//!    datagram (`first_fault`). `specs/Decoded.antt`: its message as a function (`decoded`).
//!    `specs/Questions.antt`: which octets begin like a QUERY.
//! 3. `specs/Written.antt`: the octets that are written, and of which messages (`Fits`).
//! 4. `specs/Laws.antt`, `src/laws.rt` and `src/decoding.rt`: the laws. `specs/Names.antt`: names
//!    that scripts print.
//! 5. `src/message.rt`, `src/fault.rt`, `src/reading.rt`, `src/questions.rt`, `src/writing.rt`.
//! 6. `proofs/Decided.antt`, and before it what it is built on, in the order of `proofs/Lib.antt`.
//!
//! It touches no file, socket, clock or thread.
#![tactic(auto)]

mod decoding;
mod fault;
mod laws;
mod message;
mod questions;
mod reading;
mod writing;

pub use decoding::decoded_is_exact;
pub use fault::IcpFault;
pub use laws::{grammar_is_exact, written_is_spelled};
pub use message::{Icp, IcpOp, LONGEST_MESSAGE};
pub use questions::{is_query, number_in};
pub use reading::decode;
pub use writing::{encode, fits};
