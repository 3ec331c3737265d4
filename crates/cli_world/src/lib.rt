//! The script of `cache world`: each line is an event of a simulated hierarchy, and is answered by
//! what the event does.
//!
//! [`run_world`] plays the lines over a new world of a roster: its members, its master and the
//! network between them (`hierarchy_world`). No socket or clock is used; the script says what
//! comes, and when.
//!
//! Order of reading: `specs/Command.antt` and `src/line.rt` (what a line asks for);
//! `specs/Event.antt` and `src/event.rt` (which event that is); `specs/Shown.antt` and
//! `src/show.rt` (how an outcome reads); `specs/Played.antt` and `src/play.rt` (a whole run);
//! `proofs/Long.antt`.
//!
//! The crate touches only the reader and the writer that are passed in.
#![tactic(auto)]

mod event;
mod line;
mod play;
mod show;

pub use play::run_world;
