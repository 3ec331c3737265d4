//! The notes of a recorded run, one after another in the order of their places. `run_rules` defines
//! the notes, their tracks (one for each member, one for the master) and their order (`specs/Notes`
//! there); this crate computes them, without copying a record or an entry.
//!
//! `Notes::new` makes the tracks from the records of the members and the entries of the master.
//! `Notes::take` returns the next note as an `OrderedNote`: the `Note`, and the doubled place that
//! is found there, if any. A take looks only at the first note of each track, so its time does not
//! grow with the number of notes. The crate touches no file, socket, clock or thread.
//!
//! A contract sees `Notes` as the list of notes that are left (`order_in` of `specs/Held`).
//!
//! Read `src/note.rt` (`Note`), `src/tracks.rt` (tracks from records and entries), `src/order.rt`
//! (`Notes`: which note is next), `src/falls.rt` (the least place that does not rise in its track),
//! and `specs/Held` (how tracks are held). The proofs in the same order: `proofs/Stacks` and
//! `Building`, `Taking`, `Falling`.
#![tactic(auto)]

mod falls;
mod note;
mod order;
mod tracks;

pub use note::Note;
pub use order::{Notes, OrderedNote};
