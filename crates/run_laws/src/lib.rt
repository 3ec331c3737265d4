//! Laws that no other crate uses. Each is a function without a body: its contract states the law.
//!
//! - [`entries_are_safe`] in `src/entries.rt`: the safety of purges in the words of what a running
//!   hierarchy recorded, the entries of its members and of its master. Once an entry of the master
//!   reports a purge done, each copy of its key that a later entry of a member begins to serve was
//!   read from its origin after the purge was issued. And no entry of a sibling's request begins
//!   anything. This holds for each run that is a run of the model (`IsRecordedRun` of `run_rules`),
//!   which the verdict `Yes` of `run_check` shows.
//! - [`members_are_written_what_the_world_sends`] in `src/edge.rt`: `node_serving` says which octets
//!   a member is written; `world_rules` says which response the world sends to a member. The two
//!   agree.
//! - [`steps_of_other_tags_are_steps`] in `src/tags.rt`: a node that carries other tags takes no
//!   step that it would not take with its own. That each step stays a step with other tags is a law
//!   of `node_rules` ([`nodes_never_look_at_tags`](node_rules::laws::nodes_never_look_at_tags)).
//!   Both together say that no rule looks at tags. The law tells less of a closed state: only that
//!   it is closed, its floors, and that no request is pending, since the rules say no more of it.
//!
//! To read: `specs/Entries` (when an entry issues a purge, reports it done, or begins to serve a
//! copy; its last definitions are the law), then `proofs/Lib.antt` in its order. `Placing` finds
//! where the events of a note stand in the run, `Reporting` that a report of the master's book is
//! one of the world, `Serving` that a copy is served there with its mark; `Reading` joins them with
//! the safety of `world_rules`; `Siblings` is the other clause; `Rows` has worked examples.
//! `specs/Tagged` and `proofs/Backward` are of tags, `proofs/Written` of the edge.
//!
//! Nothing runs here. The crate touches no file, socket, clock or thread.
#![tactic(auto)]

mod edge;
mod entries;
mod tags;

pub use edge::members_are_written_what_the_world_sends;
pub use entries::entries_are_safe;
pub use tags::steps_of_other_tags_are_steps;
