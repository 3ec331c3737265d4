//! The scripts of `cache answer` and `cache wire`.
//!
//! - [`run_answer`]: one node, which is given copies and datagrams line by line. It answers each
//!   line of its input by the rules of a node (`LineAnswers` of `specs/Answer.antt`). It begins
//!   with member 1 of a small roster of its own (`src/first.rt`), at second 0, with floors in
//!   memory.
//! - [`run_wire`]: datagrams in hex are decoded and shown, line by line. Each line is answered by
//!   what the datagram says, or by its fault.
//!
//! Order of reading: `specs/Answer.antt` (lines and their answers), `specs/Answered.antt` (a whole
//! run); `src/first.rt`, `src/answer.rt`. For `cache wire`: `specs/Wire.antt` (how each message is
//! shown), `src/wire.rt` (the lines), `src/wire/icp.rt`, `src/wire/htcp.rt`.
//!
//! The crate touches only the reader and the writer that are passed in.
//!
//! What it does not promise: a `first_node` that answers `NoFirstNode` at once passes the
//! contracts, since no clause knows that the roster is read and gives a node. Each script test of
//! `cache answer` shows it.
#![tactic(auto)]

mod answer;
mod first;
mod wire;

pub use answer::run_answer;
pub use wire::run_wire;
