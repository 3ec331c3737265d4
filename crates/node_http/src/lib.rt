//! The edge of a node over HTTP (RFC 9112): reads a request, takes one step with it, and writes
//! what is served.
//!
//! - [`take_ask`] reads a request and takes its step. It returns [`Taken`]: what is served now, or
//!   that the request waits. [`status_for`] is the status of a refusal.
//! - [`serve_ask`] is the whole way. It returns [`Asked`]: the response is written, or the request
//!   waits as the pending request of a block, with a `Turn` to carry out until then.
//! - [`finish`] of `node_serving` writes what a later step serves to a client that waited.
//! - [`name_of`] gives the name of a member, which stands in `via`.
//! - [`ServeFault`] says why a request was not served.
//!
//! What takes the step is a `Stepper` of `node_bytes`: a node, or a handle on one that threads
//! share.
//!
//! Where to read:
//!
//! - `specs/Asking`: what becomes of a request, in order from reading to writing; `src/taking.rt`,
//!   `src/asking.rt`
//! - `specs/Serving` of `node_serving`: the octets of a response
//! - `specs/Statuses`: the status of each refusal; `src/refusing.rt`
//! - `src/roster_names.rt`: which member sends a request, and names; `src/fault.rt`: the fault
//! - `proofs/Asks`, `proofs/Names`: what a reply to a request leads to; every member's name may
//!   stand in `via`
//!
//! A request that names a member of the roster other than the node counts as that member's; each
//! other one is a client's. A stamp is told to members only.
//!
//! It opens no socket and has no clock: reader, writer and time are passed in. No contract counts
//! the failures of a reader or a writer, so a body that returned `Io` at once, or left out the text
//! of a refusal, would meet the contracts. Tests show that `Io` comes only where the reader or the
//! writer failed, and that a refusal is written whole.
#![tactic(auto)]

mod asking;
mod fault;
mod refusing;
mod roster_names;
mod taking;

pub use asking::{Asked, serve_ask};
pub use fault::ServeFault;
pub use node_serving::finish;
pub use refusing::status_for;
pub use roster_names::name_of;
pub use taking::{Taken, take_ask};
