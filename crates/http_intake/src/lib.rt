//! Reads the octets of one HTTP/1.1 message from any reader (RFC 9112).
//!
//! An [`Intake`] keeps the octets read so far. Its calls find heads and take bodies:
//!
//! - `read_request_head` and `read_response_head` read until a head is whole and give the offsets
//!   of its parts. Heads may stand one after another: each call takes the offset where its head
//!   begins.
//! - `read_body_of` reads a body with a length, `read_to_end` one up to the end of the input,
//!   `read_chunked_body` a chunked one with its trailer.
//!
//! Limits: a head has at most 16,384 octets and 64 fields, and a trailer too; a body at most
//! 65,536 octets; a chunk's line at most 256. The reader is called at most 70,000 times for one
//! message, and each call but the last gives at least one octet, so reading ends. The crate knows
//! no clock: a call lasts as long as its reader blocks.
//!
//! [`HeadEnd`] finds the empty line that ends a head which comes in pieces. [`HeadWatch`] says when
//! the octets of such a head are parsed again, so that a slow head is not parsed at each read.
//!
//! Contracts see an `Intake` as the octets read and the number of calls that gave them (`Held` of
//! `specs/Reading`). Each call says what it took from the reader and by how many calls (`Takes`
//! there), what it found, and for each fault what held of the octets: `TooManyTurns` comes only
//! after 70,000 calls that gave octets. Of a reader whose octets contracts do not know, they say
//! only what was kept.
//!
//! Not promised: the trait of reading counts no calls and no failures. So a body that always
//! returned `Io` would meet each contract, and that a call which is counted is one call of the
//! reader is seen in `src/piece.rt`, where the only function stands that calls one. Tests show that
//! `Io` comes only where a call failed, that 70,000 calls are made and no more, and what a slow
//! head costs.
//!
//! Read first `specs/Reading` and `specs/Heads`, then `src/intake.rt` (`src/heads.rt`: the verdict
//! of the parser; `src/head_end.rt` and `src/head_watch.rt`: when it is asked; `src/piece.rt`: one
//! call of the reader). Bodies: `specs/Bodies` and `src/bodies.rt` (with `src/fill.rt`),
//! `specs/Chunks` and `src/chunks.rt`, `specs/Trailer` and `src/trailer.rt`. `http_reading` says
//! what fields mean and joins both.
#![tactic(auto)]

mod bodies;
mod chunks;
mod fill;
mod head_end;
mod head_watch;
mod heads;
mod intake;
mod piece;
mod trailer;

pub use head_end::{HeadEnd, LONGEST_HEAD};
pub use head_watch::HeadWatch;
pub use intake::Intake;
