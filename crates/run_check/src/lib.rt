//! The checker of recorded runs. `check_run` decides whether the records of members and the entries
//! of the master are a run of the model, in which purges are safe; if not, it names the least place
//! of all flaws and the first cause there. `run_rules` defines this verdict (`IsFirstOn`) and
//! proves what `Yes` means; the contract of `check_run` says that it returns exactly that verdict.
//! `cache cluster` calls it for its line `check`.
//!
//! The checker takes the notes of the run one after another (`run_notes`). It replays each on a
//! node of its own (`Node` of `node_core`) or on the master's purges, and compares outcomes and
//! states with those recorded. What a note received from a member or from the master it looks up in
//! what was sent so far (`run_network`). The crate touches no file, socket, clock or thread. Its
//! one fault is lack of memory, which is never a verdict.
//!
//! Not promised: how long a check takes, or that what was recorded is all that was done.
//!
//! Read `src/check.rt` first (the loop over the notes), then `src/alone.rt` (records without
//! entries) and `src/board.rt` (the state of the run, and one note). A node's part:
//! `src/standing.rt` (what is known of it), `opening.rt` (its records open and close),
//! `stepping.rt` (an entry is replayed), with `purging.rt` (the purge that an event brings),
//! `reaching.rt` (responses from outside) and `states.rt` (equality of states). The master's part:
//! `src/ledger.rt`. `specs/Held`, `specs/Boards` and `specs/First` relate all this to `run_rules`.
//! `proofs/Lib` gives the order of reading of the proofs.
#![tactic(auto)]

mod alone;
mod board;
mod check;
mod ledger;
mod opening;
mod purging;
mod reaching;
mod standing;
mod states;
mod stepping;

pub use check::check_run;
pub use run_rules::{Cause, Verdict};
