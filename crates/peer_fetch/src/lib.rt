//! HTTP requests and responses of caches (RFC 9112): the values, how they are written and how they
//! are read, from one crate.
//!
//! It exports the types of `http_messages`, the calls of `http_writing` for requests and
//! responses, and those of `http_reading`. What a cache serves (`write_served`, `write_status`) is
//! in `http_writing` alone.
//!
//! Its own part is [`laws`], which join writing and reading:
//!
//! - the text that is written spells the request or the response that was to be written;
//! - no request is a proper front of another; neither is a response, unless its body goes up to
//!   the end of the input;
//! - an input that begins with a written text is read as that message, in any pieces and whatever
//!   follows, wherever at most 70,000 calls of the reader give all of the text. Reading may instead
//!   fail with `Io` or `NoMemory`, and with `TooManyTurns` where 70,000 calls gave only a part of
//!   the text of a response.
//!
//! They speak of readers whose octets contracts know. `specs/Writable` says of which requests and
//! responses they speak: a request whose key is that of some URL and whose member is 1 to 16 or
//! none, and every `Answer`. `specs/Reading` says how reading may still fail.
//!
//! The crate has laws and exports only, no code of its own, so it has no must-fail edits. Read
//! first `src/laws.rt`; the comment of `proofs/Lib` gives the order of the proofs.
#![tactic(auto)]

pub mod laws;

pub use http_messages::{Answer, Ask, Body, FetchFault, Field, Fields};
pub use http_reading::{read_answer, read_ask};
pub use http_writing::{AskForm, is_name, write_answer, write_ask};
