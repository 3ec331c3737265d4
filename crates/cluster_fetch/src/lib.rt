//! One fetch of a node: it asks a peer or an origin over HTTP, and makes an event of what came of
//! it.
//!
//! [`exchange`] connects, writes a request and reads its response, over a connection of its own and
//! within five seconds in all. [`fetched`] is the event that the node gets then: the response, or
//! that the fetch failed. A peer's 502, 503 or 504 counts as a failure (RFC 9110, sections 15.6.3
//! to 15.6.5), and so does a member's response without a purge stamp, since nobody knows how old
//! its content is.
//!
//! Order of reading: `specs/Fetched.antt` (which event), `src/events.rt`, `src/asking.rt` (the
//! exchange).
//!
//! `exchange` opens a TCP connection, polls it on the caller's thread, and reads the clock.
//!
//! No contract says that `exchange` connects, asks, or waits for five seconds at most: tests do.
#![tactic(auto)]

mod asking;
mod ended;
mod events;
mod received;
mod under_way;

pub use asking::exchange;
pub use ended::Fetched;
pub use events::{ResponseSource, fetched};
pub use under_way::{FetchRequest, Fetching, Unbegun, is_want_of_descriptors};
