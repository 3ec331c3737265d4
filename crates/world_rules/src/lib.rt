//! The model of a hierarchy of caches, and the proof that purges are safe in it: once the master
//! reports the purge of a URL done, no member begins to serve a copy of that URL whose reading from
//! the origin began before the purge was issued; and a request to a sibling never makes it ask an
//! origin or another cache. This is the law `laws::purges_are_safe`.
//!
//! The crate has definitions, laws and proofs. Its code is little more than the types of events
//! (`WorldEvent`) and outcomes (`Outcome`, `ActorFault`, `WorldFault`), which contracts see field
//! by field. It touches no file, socket, clock or thread. `hierarchy_world` is the model as code;
//! `run_rules` compares the model with what a running cluster recorded.
//!
//! The model: a world has a node for each member, the master's purges, and a clock. It also has
//! lists of all datagrams that members and the master ever sent, and of all requests and responses
//! that members ever sent to members. An event is one act of one actor: a client sends a request,
//! an item of a list arrives, an origin or a foreign cache responds, the clock is set, something
//! fails, or somebody restarts. An item stays in its list, so it may arrive late, again, in any
//! order, or never. What a node does is one step of `node_rules`; memory or its floor store may
//! fail in it. What the master does is one call as `purge_rules` defines it. An event's number in
//! the run is its place, and is the mark of the origin read that the event begins. An event that
//! names nothing that exists is refused: it changes nothing and has no place. A list of events is
//! then an interleaving of the actors' steps, and the laws hold for every list.
//!
//! Four premises are built into the definitions. Nothing else is assumed of the network:
//!
//! - What is stored outlives a restart. `Restart` opens a node with the floors that it had
//!   (`specs/Consequence`) and nothing else. The master's purges are the same after
//!   `RestartMaster`.
//! - What comes from the address of a member or of the master was sent by it. `Datagram`, `Ask` and
//!   `Answer` deliver only items of the lists. `Strange` delivers any octets, and is refused if its
//!   sender has such an address.
//! - An origin's response reaches the read that asked for it, and no connection outlives its node's
//!   restart. `Origin` and `Foreign` reach only a read or fetch that is pending now, and a restart
//!   or a fault leaves none pending.
//! - The roster stays the same, also after restarts. Members that join stand in it from the first
//!   place on.
//!
//! A member that joins is outside until the master admits it: its base is 0, and it serves and
//! begins nothing. A purge needs the founding members and those that were admitted under lesser
//! numbers; an admission needs the member that it admits. Until then that member keeps the promise
//! since it serves nothing; from then on its base is at least the number of its admission, and
//! covers all purges before.
//!
//! The laws (`src/laws.rt`):
//!
//! - `purges_are_safe`: the safety of purges, and the invariant that it rests on (`lineage`).
//! - `copies_have_sources`: which response each served copy comes from, and its age.
//! - `nodes_answer_what_is_asked`: a step answers the request of its event or one that waits.
//! - `noise_changes_nothing`: octets of a stranger that spell no message change nothing.
//! - `applied_events_happen`, `each_list_is_played`: the function `apply` agrees with the model,
//!   and every list of events has a run, so the laws above are not vacuous.
//!
//! `served` and `lineage` of the first law need a roster that can be read (`IsRoster`). An event
//! that issues a purge needs the key of a URL (`IsKey`). Which key a text has is `values_keys`'s
//! definition.
//!
//! Read first `specs/Safety` (the promise), then `specs/Run` (what a run is, and when a purge is
//! issued, reported done, or a copy served), `specs/World` (the state) and `specs/Consequence`
//! (what each event does). Then `specs/Lineage` (the invariant for stamps and floors),
//! `specs/Asked`, `specs/Provenance` (sources and ages), `specs/Sources` (the invariant for them),
//! `specs/Noise` (octets that say nothing), `specs/Apply` (one event as a function, and its
//! outcome) and `specs/Names` (the names of faults). The proof of safety ends in `proofs/Safe`;
//! `proofs/Lib` gives the order of reading. `docs/SAFETY.md` explains all this without the
//! definitions.
//!
//! Not promised: that a purge is ever done, that anything arrives, or that nothing old is served
//! before the report. A wrong body cannot test the laws, since laws have no bodies; nor can it test
//! a definition.
#![tactic(auto)]

mod event;
pub mod laws;
mod outcome;

pub use event::WorldEvent;
pub use outcome::{ActorFault, Outcome, WorldFault};
