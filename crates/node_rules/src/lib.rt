//! What a node does: the types of its state, events and replies, and the one definition of its
//! step.
//!
//! This crate runs no node. `node_core` has the code of the step, and its contract cites the
//! definition here; so do the world of the safety proof and the rules of recorded runs.
//!
//! # Types
//!
//! - [`Event`] is the input of a step: a request, a datagram, a response, a failed fetch, or the
//!   end of a round. It bears the time, in seconds.
//! - [`NodeState`] is the state: floors, copies, pending requests ([`Pending`]), the next block of
//!   serials, and whether the node is closed.
//! - [`Raise`] is what a CLR of the master raises: the floor of a key, or the base.
//! - [`Reply`] is the output: what to serve ([`Serve`]), which datagrams to send ([`Outgoing`]),
//!   what to begin ([`Begin`]). A step that is refused gives a [`StepFault`] instead.
//! - [`Received`] is a message that octets spell, so it can be answered; [`Sent`] is one that can
//!   be encoded. Their types say so, and no step has to check it again.
//!
//! # The definition: `specs/`, in this order
//!
//! 1. `Names`, `Texts`, `Messages`, `Spelled`: names of faults; messages that can be encoded; the
//!    messages that a node sends; the message that octets spell
//! 2. `Known`: which cache, sender and origin a node knows
//! 3. `State`: `Setting`, what a step leads to (`Stepped`), and the words for both, such as
//!    `is_good` (a copy may be served)
//! 4. `Raises`: what a purge and an admission make of floors and copies
//! 5. `Fetching`: where a pending request goes next: a peer, the origin, or its end
//! 6. `Asks`: a client's or a member's request arrives
//! 7. `Arrivals`: a response arrives, a fetch fails, a round expires
//! 8. `Datagrams`: an ICP or HTCP message arrives, purges and admissions included
//! 9. `Step`: the step as a function `step` of the setting, a state, an event and a mark; it gives
//!    the next state and the outcome
//! 10. `Relation`: the step as a relation, `Steps`. It adds what only a running node meets: an
//!     allocation that fails, and a floor store that fails
//!
//! The rest states laws. `Questions`: a sibling's request begins nothing. `Effect`: what a step may
//! do to floors and copies. `Lawful`: what each step keeps. `Good`: what stays true of an open
//! node. `Tags`: a state with other tags.
//!
//! **Setting.** A `Setting` stays the same through all steps of a node: the roster, the node's id,
//! and `key_of`, which gives the key of a text. The grammar of URLs is a relation, so `key_of` is a
//! parameter: with it the step is a function that can be evaluated. `values_keys` has the one that
//! computes keys (`setting` of `State` uses it).
//!
//! **Tags and marks.** Each copy carries a *tag*, and each origin read the *mark* of the step that
//! began it; the mark becomes the tag of the copy that is read. They let the safety proof say which
//! read a copy comes from. No rule looks at them ([`laws::nodes_never_look_at_tags`]). A running
//! node uses `()` for both.
//!
//! **Outside.** A node whose entry joins, and whose base is 0, is outside: the master has not
//! admitted it (`is_outside` of `State`). It serves no copy and begins nothing
//! ([`laws::outside_nodes_serve_nothing`]).
//!
//! **Effect and Lawful.** A step of the function has one of six effects on floors and copies: they
//! stay, a held copy is served, a response becomes a copy, a purge raises a floor, an admission
//! raises the base, or a copy is dropped (`Effect`). From these, and from what a fault leaves,
//! follows `Lawful`: all that the safety of purges needs to know of a step. The proof that purges
//! are safe uses `Lawful` and looks at no rule again.
//!
//! # Where the rest stands
//!
//! - `src/event.rt`, `src/state.rt`, `src/reply.rt`: the types
//! - `src/message.rt`: messages, with [`fits`]
//! - `src/gateway.rt`: [`is_gateway_fault`], of a response's status
//! - `src/laws.rt`: the laws as contracts; start here to see what is proved of the definition
//! - `proofs/Lib` gives an order for the proofs
//!
//! Nothing here touches a file, socket, clock or thread.
#![tactic(auto)]

mod event;
mod gateway;
pub mod laws;
mod message;
mod raising;
mod reply;
mod state;

pub use event::Event;
pub use gateway::is_gateway_fault;
pub use message::{Message, Outgoing, Received, Sent, fits};
pub use raising::Raise;
pub use reply::{Begin, Reply, Serve, Served, StepFault};
pub use state::{Fetch, NodeState, Pending, SERIALS};
