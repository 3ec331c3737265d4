//! What members and the master sent each other in a recorded run, held so that the checker finds it
//! fast. `run_rules` defines what was sent as lists, and whether what a note received is in them
//! (`specs/Sent` there). `Network` answers the same question by hashes.
//!
//! Each item has a print: a hash of parts of its contents. Items are held by their prints, and what
//! shares a print is then compared octet by octet, so a collision never changes an answer.
//! Datagrams have prints of sender, receiver, number and URL; requests of sender, receiver and URL;
//! responses of all that is written of them. Responses to CLRs are held by their TRANS-ID. What is
//! sent twice is held once.
//!
//! The calls: `Network::is_sent` and `is_call_sent` say whether what a note received was sent
//! before, true exactly if `run_rules` says so. `send` and `clear` add what a node's reply or the
//! master's answer sends; `forget` drops what waits at a node. The crate touches no file, socket,
//! clock or thread. A contract sees which list-shaped network is held, by `Holds` of `specs/Held`.
//!
//! Not promised: how long a look-up takes. With random keys nobody can pick texts whose prints
//! collide.
//!
//! Read `src/network.rt` first. Then `src/letters.rt` (datagrams), `asks.rt` (requests),
//! `answers.rt` (responses), `waits.rt` (requests that wait), `prints.rt` and `bags.rt` (hashes,
//! and lists by hash), `written.rt` (what is written of a response). In `specs/`: `Held`, with
//! `Bags`, `Prints` and `Written`. In `proofs/`: `Finding` (looking an item up), then `Sending`,
//! `Lists`, `Waiting` (adding to each kind), `Clears`, `Posting` and `Printing`.
#![tactic(auto)]

mod answers;
mod asks;
mod bags;
mod letters;
mod network;
mod prints;
mod waits;
mod written;

// A crate can name a network in a contract only if the types of its fields are exported.
#[doc(hidden)]
pub use answers::{Answers, SentAnswer};
#[doc(hidden)]
pub use asks::{Asks, SentAsk};
#[doc(hidden)]
pub use bags::Bags;
#[doc(hidden)]
pub use letters::{Acknowledgement, Letter, Letters};
pub use network::Network;
#[doc(hidden)]
pub use waits::Waits;
