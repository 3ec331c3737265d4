//! A node with a book of its steps: each step is entered with its outcome, in order, so that a run
//! can be checked later.
//!
//! The main type is [`NodeBook`]. [`NodeBook::open`] takes a node; [`NodeBook::apply`] takes a step
//! and enters it as a [`NodeEntry`]; [`NodeBook::close`] gives the node back, with a [`Record`] of
//! its steps. The entries stand on pages of 4,096 at most, and a full page is filed by
//! [`NodeBook::file_page`], which copies nothing. [`NodeBook::end_record`] makes a record of all
//! pages and goes on without entries.
//!
//! Where to read:
//!
//! - `specs/Book`: what a replay of entries is, the invariant of a book, and what one call does
//! - `specs/Closed`: what a record is
//! - `src/book.rt`: the calls; `src/record.rt`: the record
//! - `proofs/Replaying`: one step more is one entry more of a replay
//!
//! A contract sees a `NodeBook` as the node, the state that it had when the book was opened, and
//! the entries. At every moment the entries lead from that state to the node's state, each by the
//! rules of a step (its invariant).
//!
//! An entry shares the fields and bodies of its responses with the node's copies, so a book takes
//! memory for its entries and not for the bodies. Seat and place of an entry are the caller's
//! numbers; nothing is said of them here.
//!
//! Its only side effect is that of a step: a commit to the node's store. `apply` needs memory for
//! the entry before the step. If it lacks memory for a copy of the reply after the step, the step
//! stands, and only the last entry has the reply (`ReplyLost`). [`NodeBook::into_node_and_last`]
//! gives up the book, and gives that reply without a copy.
#![tactic(auto)]

mod book;
mod record;

pub use book::{BookFault, MOST_ENTRIES, NodeBook, NodeEntry};
pub use record::Record;
