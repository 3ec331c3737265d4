//! A step of a node, and a copy of its state.
ghost use Rattle.std.specs.Prelude.{◌≡◌, ℕ, List, Option, IfOk, Err, false};
ghost use Rattle.node_rules.specs.Relation.{Steps};
ghost use Rattle.values_keys.specs.KeyOf.{GivesKeys};
ghost use Rattle.node_core.specs.View.{IsSameMember, setting_of};
ghost use Rattle.floor_rules.specs.Store.{HaveRisen};
ghost use Rattle.node_core.specs.Closing.{KeepsStore, FailsWithCause};

use crate::Node;
use crate::arrivals::{same_fetch, same_peers, same_round};
use floor_rules::FloorStore;
use node_rules::{Event, NodeState, Pending, Reply, StepFault};
use roster::Listed;
use std::alloc::{AllocError, Global};

/// Copies a pending request.
fn same_ask<T: Copy>(alloc: Global, ask: &Pending<T>) -> Result<Pending<T>, AllocError>
    ensures { IfOk result (λ made. made ≡ ask.now) }
{
    Ok(Pending {
        block: ask.block,
        asker: ask.asker,
        ask: ask.ask.copy(alloc)?,
        round: same_round(&ask.round),
        tried: same_peers(alloc, ask.tried.as_slice())?,
        fetches: ask.fetches,
        reads: ask.reads,
        fetch: same_fetch(&ask.fetch),
    })
}

impl<T: Copy + Drop, S: FloorStore> Node<T, S> {
    /// Copies the pending requests.
    fn same_asks(&self) -> Result<Vec<Pending<T>>, AllocError>
        ensures { IfOk result (λ made. made.items ≡ self.now.state.pending) }
    {
        let mut made = Vec::with_capacity(self.alloc, self.pending.len())?;
        for place in 0..self.pending.len() {
            made.push(same_ask(self.alloc, self.pending.ask(place))?)?;
        }
        Ok(made)
    }

    /// Copies the node's state. Responses in it share their octets with those of the node.
    pub fn state(&self) -> Result<NodeState<T>, AllocError>
        ensures { IfOk result (λ state. state ≡ self.now.state) }
    {
        Ok(NodeState {
            floors: self.floors.copy()?,
            copies: Listed::new(self.copies.copies(self.alloc)?),
            pending: Listed::new(self.same_asks()?),
            next: self.next,
            closed: self.closed,
        })
    }

    /// Takes a step: what to serve, send and begin for an event. An origin read that the step
    /// begins bears the mark.
    ///
    /// These faults change nothing: `Closed` (the node is closed), `UnknownSerial` (no pending
    /// request waits at this serial, with this key and this source), `Busy` (1,024 requests are
    /// pending). `StoreFault` (the floor store failed) closes the node. `NoMemory` (an allocation
    /// failed) changes nothing, but closes the node if the floor store gave it. A node that closes
    /// has no pending request left. It keeps its next block and its copies, but those below a base
    /// that was to rise.
    #[tactic(auto, using(crate::proofs::Outcomes::closed_steps))]
    pub fn step(&mut self, event: Event<T>, mark: T) -> Result<Reply<T>, StepFault>
        ensures same { IsSameMember self.old self.new }
        ensures store { KeepsStore (S.is_honest self.new.store)
            (S.may_find self.new.store) self.old self.new result }
        ensures cause { FailsWithCause (S.is_honest self.new.store)
            (HaveRisen (S.failed self.old.store) (S.failed self.new.store)) result }
        ensures steps { (key_of : List ℕ → Option (List ℕ)) → GivesKeys key_of →
            Steps (setting_of self.old key_of) self.old.state event mark result self.new.state }
    {
        if self.closed {
            return Err(StepFault::Closed);
        }
        self.open_step(event, mark)
    }

    /// The step of an open node.
    #[tactic(auto, unfolding(node_rules::specs::Step::open_step), using(crate::proofs::Outcomes::steps, crate::proofs::Outcomes::steps_may_close, crate::proofs::Outcomes::without_fault, crate::proofs::Outcomes::without_fault_by))]
    fn open_step(&mut self, event: Event<T>, mark: T) -> Result<Reply<T>, StepFault>
        requires { self.old.state.closed ≡ false }
        ensures same { IsSameMember self.old self.new }
        ensures store { KeepsStore (S.is_honest self.new.store)
            (S.may_find self.new.store) self.old self.new result }
        ensures cause { FailsWithCause (S.is_honest self.new.store)
            (HaveRisen (S.failed self.old.store) (S.failed self.new.store)) result }
        ensures steps { (key_of : List ℕ → Option (List ℕ)) → GivesKeys key_of →
            Steps (setting_of self.old key_of) self.old.state event mark result self.new.state }
    {
        match event {
            Event::Client { ask, now } => self.ask(None, ask, now, mark),
            Event::Datagram { from, message, now } => self.datagram(from, message, now, mark),
            Event::PeerAsk { asker, ask, now } => self.ask(Some(asker), ask, now, mark),
            Event::PeerAnswer {
                serial,
                peer,
                key,
                answer,
                tag,
                now,
            } => { self.peer_answer(serial, peer, &key, answer, tag, now, mark) }
            Event::OriginAnswer {
                serial,
                key,
                answer,
                now,
            } => { self.origin_answer(serial, &key, answer, now, mark) }
            Event::ForeignAnswer {
                serial,
                peer,
                key,
                answer,
                tag,
                now,
            } => { self.foreign_answer(serial, peer, &key, answer, tag, now, mark) }
            Event::FetchFailed { serial, now } => self.fetch_failed(serial, now, mark),
            Event::Expired { serial, now } => self.round_expired(serial, now, mark),
        }
    }
}
