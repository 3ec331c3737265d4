//! The command line of `cache`: which words ask for which task, the texts of help, and the version.
//!
//! [`task_of`] makes a [`Task`] of the words of a command line. [`status_of`] is the status with
//! which the process ends where they ask for none. The kit's `clap` parses the words.
//!
//! Order of reading: `src/commands.rt` (the version, the commands, their arguments and texts of
//! help), `src/task.rt` (what they ask for); `specs/Tasks.antt`, `specs/Statuses.antt`.
//!
//! The crate touches nothing but the words that are passed in.
//!
//! Contracts say what the numbers of a task keep to, and the status. Which words ask for which task
//! is not proved: script tests show it, word by word.
#![tactic(auto)]

mod commands;
mod task;

pub use task::{Scripted, Task, status_of, task_of};
