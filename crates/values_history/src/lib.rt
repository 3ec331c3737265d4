//! One history that threads share. Only proofs see it: no code keeps a list of it.
//!
//! A history is a list of entries that only grows, such as all steps that a node has taken. What is
//! under a lock has the [`Head`] of the history and a [`Front`] that is the whole of it;
//! [`Front::add`] adds an entry. Each thread has a front of its own: the beginning of the history
//! that it knows. So what a thread was told stands at a place of one history, which all threads
//! share.
//!
//! [`Own`] is such a list that one owner keeps for itself. An [`Entry`] says which entry stands for
//! a value, so that a history can tell of values that are moved on.
//!
//! At run time a history is one number, its length.
//!
//! Order of reading: `specs/Rules.antt` (what the number and the history have to do with each
//! other); `src/law.rt`, `src/history.rt`; `proofs/Adding.antt`, `proofs/Fronts.antt`.
//!
//! The crate waits for nothing, and touches no file, socket, clock or thread. It takes no memory.
//!
//! What it does not promise: that [`Front::add`] ever adds. It refuses where the history is longer
//! than the front, which never comes where one lock guards both.
#![tactic(auto)]

mod history;
mod law;

pub use history::{Front, Head, NewHistory, Own, Run};
pub use law::{Entry, Itself};
