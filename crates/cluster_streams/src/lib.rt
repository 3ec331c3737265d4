//! TCP streams that a thread reads and writes with one deadline for a whole message.
//!
//! A thread polls its streams, those of its clients, its peers and the origins, with a
//! [`StreamPoll`], one stream at a time. A [`Timed`] stream implements `Read` and `Write`. It tries
//! each call at once and polls only where the system would block. Its deadline is that of the whole
//! message and not of one call, so a client or a peer that sends octet by octet occupies the thread
//! no longer than one that sends nothing. After the deadline each call that would block fails with
//! `TimedOut`. What is written is kept, up to 16,384 octets, until there is no space for the next
//! piece or the caller calls `flush`.
//!
//! Order of reading: `src/timed.rt` (reading and writing until a deadline), `src/stream_poll.rt`
//! (the poll of one thread).
//!
//! The crate uses sockets that are passed in, opens a poll instance, and reads the clock.
//!
//! A contract says of a `Timed` stream what it says of any `Read` and `Write`: it keeps within its
//! buffers. So a body of `read`, `write` or `flush` passes that fails at once, that reads or writes
//! nothing, or that says it sent what it did not. What is sent, and how long it waits, is tested.
#![tactic(auto)]

mod stream_poll;
mod timed;

pub use stream_poll::{PATIENCE, StreamPoll, StreamPolls};
pub use timed::Timed;
