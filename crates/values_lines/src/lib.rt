//! Scripts: reads lines from any reader, answers each, and writes the answers to any writer, one
//! line for each.
//!
//! - [`Script`]: what answers a line. `cli_answer`, `cli_world` and
//!   `cluster_console` implement it.
//! - [`play`]: answers all lines. [`play_until`]: answers the lines before the first that is a
//!   given text, such as `quit`.
//! - [`RunFault`]: why a run stopped.
//! - [`split_word`], [`words_of`], [`is_word`], [`decimal_u8`] to [`decimal_u64`]: the words and
//!   numbers of a line.
//!
//! Limits: 140,000 octets for a line, and 70,000 reads that give octets for an input. Answers are
//! written before more is read, so a person who types a line sees its answer at once.
//!
//! To read, in this order:
//!
//! 1. `specs/Lines.antt`: the lines of an input.
//! 2. `specs/Script.antt`: what a run writes (`HasPlayedBefore`, by `PlaysAll` and `PlaysSome`).
//! 3. `src/script.rt`: the loop. `src/lines.rt` takes lines from a reader, with
//!    `specs/Reading.antt`. `src/write.rt` writes.
//! 4. `src/words.rt`, `src/decimal.rt`, with `specs/Words.antt`. `src/fault.rt`, with
//!    `specs/Fault.antt`.
//! 5. `specs/Playing.antt`, the invariant of the loop, with `proofs/PlayLemmas.antt`;
//!    `proofs/LineLemmas.antt`, for the lines that are taken.
//!
//! Three wrong bodies would meet the contracts. `write_text` could give `Io` at once, since no
//! clause knows whether a writer failed; tests show that `Io` comes only then.
//! `LineReader::holds_line` could be wrong: it decides when answers are written, not which.
//! `play_before` could read on behind the last line, since no clause says how much of an input is
//! read; tests show that it does not.
//!
//! It touches only the reader and the writer that are passed in.
#![tactic(auto)]

mod decimal;
mod fault;
mod lines;
mod script;
mod words;
mod write;

pub use decimal::{decimal_u8, decimal_u16, decimal_u32, decimal_u64};
pub use fault::RunFault;
pub use script::{Script, play, play_until};
pub use words::{is_word, split_word, words_of};
