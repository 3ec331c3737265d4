//! The lines of `cache cluster`, which purge, admit members and query a running hierarchy.
//!
//! [`answer_lines`] answers the lines of an input before its first line `quit`. What judges the run
//! is passed in, as a [`Checker`].
//!
//! Order of reading: `specs/Command.antt` and `src/line.rt` (what a line asks for);
//! `specs/Shown.antt` and `src/show.rt` (how an answer reads); `specs/Checked.antt` and
//! `src/check.rt` (what is said of a run); `specs/Played.antt` and `src/play.rt` (which text may
//! answer a line, and who is asked); `proofs/Lib.antt`.
//!
//! `get` opens a connection to a member and polls it; `purge` and `admit` send on the master's
//! socket. The crate reads the clock, and waits at the master's lock. It starts no thread.
//!
//! No contract knows what the master or a member answers, so a clause names every answer that may
//! come. A body that purges or asks for another URL, or admits another member, passes the contracts
//! here; tests on a running hierarchy show which it is.
#![tactic(auto)]

mod check;
mod input;
mod line;
mod play;
mod show;

pub use check::{Checked, Checker, DeadPeer, MemberState};
pub use play::{Ended, answer_lines};
