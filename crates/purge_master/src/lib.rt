//! The master of purges, as code: it numbers purges and admissions, makes their CLRs, counts
//! acknowledgements, and reports a number done once no member that it needs is missing.
//!
//! - `Master`: the calls that `purge_rules` defines, over any store of purges (`PurgeStore`). A
//!   call reserves memory first; then the store commits; then it returns. If the store fails,
//!   what was added in memory is undone, and the master is closed.
//! - `MasterBook`: a master that enters each call with its place and what it returned, up to 4,096
//!   entries, for a later check (`run_check`).
//! - `MasterOpenFault`: why a master was not opened.
//!
//! `Master::message` gives the CLR of a pending number. The caller sends it to each member that the
//! number needs, repeats it as `due` says, and passes each response to `acknowledge`.
//!
//! Read in this order:
//!
//! 1. `specs/Needed.antt` and `specs/Calls.antt` of `purge_rules`: which members a number needs,
//!    and what each call returns and leaves.
//! 2. `src/master.rt`: the calls. `src/opening.rt`: how a master begins and ends.
//! 3. `src/news.rt` with `specs/News.antt`: what an acknowledgement changes.
//! 4. `specs/View.antt`: a master as contracts see it. `specs/Store.antt`: what a call leaves of
//!    the store (`KeepsStore`). `specs/Names.antt`: the names of the faults of an open.
//! 5. `src/book.rt` with `specs/Book.antt`: the book. `src/twice.rt`: each answer twice, for the
//!    caller and for the book.
//! 6. `proofs/NewsLemmas.antt`: why an acknowledgement changes just that.
//!
//! A contract sees a `Master` as its nodes, its state (purges, and whether it is closed) and its
//! store; a `MasterBook` as its master and its entries. The crate touches its store alone: no
//! socket, clock or thread.
//!
//! Not promised: that a write leaves the master open if an allocation of its own fails, not of the
//! store, though this code does; nor that `StoreFault` has its cause in the database.
#![tactic(auto)]

mod book;
mod master;
mod news;
mod opening;
mod twice;

pub use book::{MOST_ENTRIES, MasterBook, MasterEntry};
pub use master::Master;
pub use opening::MasterOpenFault;
