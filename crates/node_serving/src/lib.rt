//! How a node writes what it serves (RFC 9112).
//!
//! [`finish`] writes a copy with its age, or a bare status. `node_http` gives it on, and writes with
//! it what is served at once. The event loop of a node (`cluster_sockets`) writes with it to clients
//! that waited.
//!
//! Where to read: `specs/Serving`, the octets of a response; `src/serving.rt`.
//!
//! A stamp is told to members only.
//!
//! It touches only the writer that is passed in. No contract counts a writer's failures, so a body
//! that returned `Io` at once would meet the contract. Tests show that `Io` comes only where the
//! writer failed.
#![tactic(auto)]

mod serving;

pub use serving::finish;
