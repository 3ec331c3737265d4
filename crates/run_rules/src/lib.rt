//! When what a running hierarchy recorded is a run of the model of `world_rules`, and the verdict
//! on it. The crate has definitions, laws and the types `Verdict` and `Cause`, and no code that
//! runs; `run_check` computes the verdict. It touches no file, socket, clock or thread.
//!
//! A run leaves the records of its members (`Record` of `node_book`) and the entries of its master
//! (`MasterEntry` of `purge_master`). Each entry has a place: its number in a count that all
//! members and the master share.
//!
//! Read in this order:
//!
//! - `specs/Notes`: cuts records and entries into notes (a record opens, a step, a record closes, a
//!   master's call), and puts all notes into the one order of their places.
//! - `specs/Sent`: what was sent so far. `specs/Board`: the state of the run after some notes.
//!   `specs/Stored`: which floors are stored after a purge has failed.
//! - `specs/Judging`: whether a note may follow in that state, or which flaw it has.
//! - `specs/Verdict`: judged in this order, the verdict is `Yes`, or the first flaw that is met
//!   (`IsVerdictOn`). `specs/First`: the verdict names the first of all flaws, by the least place
//!   and then by the cause (`IsFirstOn`).
//! - `specs/Recorded`: what it means that records and entries are a run of the model
//!   (`IsRecordedRun`).
//! - `src/laws.rt` joins the two: a run with the verdict `Yes` is a run of the model
//!   (`flawless_runs_are_runs_of_the_world`), and purges are safe in each such run
//!   (`recorded_runs_are_safe`). `run_laws` says the latter of the entries themselves.
//!
//! `proofs/Lib` gives the order of reading of the proofs.
//!
//! Not promised: that what was recorded is all that was done, or that an origin's response is the
//! one to the read under which it was entered. The converse is not proved either: that each run of
//! the model would get `Yes`.
#![tactic(auto)]

pub mod laws;
mod verdict;

pub use verdict::{Cause, Verdict};
