//! Duplicates of a node's events, replies and messages, and comparisons of replies, messages and their
//! parts.
//!
//! - `src/events.rt`: [`copy_of_event`]
//! - `src/replies.rt`: [`copy_of_reply`]
//! - `src/messages.rt`: [`copy_of_received`], [`copy_of_sent`]
//! - `src/same_replies.rt`: [`same_outcome`], [`same_reply`], [`same_served`]
//! - `src/same_messages.rt`: [`same_message`]
//! - `src/parts.rt`: [`same_key`], [`same_ask`], [`same_answer`], [`same_fields`], [`same_copy`]
//!
//! A duplicate is equal to the original, and shares the bodies and fields of its responses.
//! `AllocError` is the only fault. Tags must be `Copy`.
//!
//! A comparison returns true exactly if its two arguments are equal as contracts see them, octet by
//! octet. The order of the arguments does not matter. Tags are `()`: only a running node's values
//! are compared. It allocates nothing.
//!
//! A node's book uses the duplicates (`node_book`): it keeps one of each event and hands out one of
//! each reply. The check of recorded runs uses both, to compare a record with a replay. The crate
//! touches no file, socket, clock or thread.
#![tactic(auto)]

mod events;
mod messages;
mod parts;
mod replies;
mod same_messages;
mod same_replies;

pub use events::copy_of_event;
pub use messages::{copy_of_received, copy_of_sent};
pub use parts::{same_answer, same_ask, same_copy, same_fields, same_key};
pub use replies::copy_of_reply;
pub use same_messages::same_message;
pub use same_replies::{same_outcome, same_reply, same_served};
