//! The edge of a node in octets: from a datagram to an event, and from a reply to datagrams (RFC
//! 2186, RFC 2756).
//!
//! - [`on_datagram`] is the whole way: octets that arrive take one step, and what to do after it
//!   comes back as a [`Turn`], in octets. Octets that are no message take no step.
//! - [`event_of`] decodes a datagram by the protocol at whose address it arrived; [`read_icp`] and
//!   [`read_htcp`] do so by one protocol. [`encode`] and [`octets_of`] encode a message.
//! - [`Stepper`] is what takes a step: a node, or a handle on a node that threads share. The same
//!   code serves both.
//! - [`master_call_of`] decodes what arrives at the master's address: an acknowledgement, or
//!   nothing.
//!
//! Where to read:
//!
//! - `specs/Bytes`: which octets and which message belong together, by either protocol
//! - `specs/Turns`: what `on_datagram` does; `src/turns.rt`
//! - `specs/Nodes`: what a node promises of its step as a `Stepper`; `src/stepper.rt`
//! - `specs/Stepping`: what a step makes of a request; `src/laws.rt` proves it of the rules
//! - `specs/Calls`: the master's calls; `src/calls.rt`
//! - `src/reading.rt`, `src/writing.rt`: the codecs of `icp_wire` and `htcp_wire` as a node uses
//!   them
//! - `proofs/Decoding`: the codecs' laws for either protocol; `proofs/Asks`: the law on requests
//!
//! Pure: no socket and no clock; the caller passes octets, sender and time. A contract sees a
//! `Stepper` by its own relation `takes`. Any other call that allocates may fail with `NoMemory` or
//! `AllocError`; `Turn::of` then sends none of the datagrams. No contract says that memory
//! suffices.
#![tactic(auto)]

mod calls;
pub mod laws;
mod reading;
mod stepper;
mod turns;
mod writing;

pub use calls::master_call_of;
pub use reading::{event_of, read_htcp, read_icp};
pub use stepper::Stepper;
pub use turns::{Packet, Turn, on_datagram};
pub use writing::{encode, octets_of};
