//! What the threads of a node do with datagrams, requests, timers and fetches.
//!
//! - A [`Worker`] does jobs. It hands a datagram, an HTTP request, a timer or the end of a fetch to
//!   the node, sends the datagrams that the step asks for, and answers its client or leaves it in
//!   the tables. It writes what a client takes at once. The rest of a response it leaves to the
//!   event loop, and so does it with each fetch. So no worker waits for a client, a peer or an
//!   origin.
//! - [`Questions`] answers ICP queries and HTCP TST requests on the thread of the event loop,
//!   without a job. It also tells the loop whose a datagram is, and whether a client still waits
//!   for a fetch.
//!
//! Both take the node's steps through a [`Stepper`](node_bytes::Stepper), so this crate does not
//! stand on the seats. They share a [`Station`]: the tables, the roster, the senders and the loop's
//! inbox. A [`Gate`] (a trait) is called before an origin is read. No lock is held while a socket
//! is waited for. A request may take the roster's `ask_wait`; then its client is told 504
//! ([`tell_late`]). Where the step at the end of a round or a fetch finds no memory, it is owed: it
//! is noted in the tables, and taken again by a job ([`again`]). So its request gives its place at
//! the node back.
//!
//! Order of reading: `specs/Steps.antt` (which steps each thread takes), `specs/Questions.antt`,
//! `specs/Owed.antt`, `specs/Addresses.antt`; `src/station.rt` (what is shared); `src/worker.rt`,
//! `src/questions.rt`; `src/seated.rt` (what workers do with a step); `src/owed.rt`;
//! `src/telling.rt`, `src/client.rt` (how a client is answered); `src/closing.rt`; `src/gate.rt`;
//! `proofs/Steps.antt` (what steps add up to).
//!
//! The crate reads and writes sockets without waiting, reads the clock, and waits at the station's
//! locks. It starts no thread and opens no listener or connection.
//!
//! Contracts say which steps are taken, with which events, and that what is done next is what the
//! step before it asks for. They also say which octets are a question (`is_question`), whom a fetch
//! asks, and where (`fetch_of`), and which steps are owed (`owed_by`) and by which job they are
//! taken again. No contract says what is done over sockets, at which time, or what the tables under
//! their locks hold, so also not that a step is noted: tests show it.
#![tactic(auto)]

mod client;
mod closing;
mod gate;
mod owed;
mod peers;
mod questions;
mod seated;
mod station;
mod telling;
mod worker;

pub use client::Client;
pub use closing::{CloseCause, Closing};
pub use gate::{Gate, NoGate};
pub use owed::again;
pub use peers::peers_of;
pub use questions::Questions;
pub use seated::Seated;
pub use station::{Station, milliseconds};
pub use telling::{refuse_all, refuse_job, tell_late};
pub use worker::Worker;
