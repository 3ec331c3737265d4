//! The members' nodes: a step, a closing, a restart.
ghost use Rattle.std.specs.Prelude.{◌≡◌, ◌<◌, ◌==◌, not, true, false, length, map, filter, IfOk};
ghost use Rattle.std.specs.Prelude.{IfErr, IfSome, MatchOption, OnOk};
ghost use Rattle.roster.specs.Lookups.{is_member};
ghost use Rattle.node_rules.specs.State.{opened, closed_node};
ghost use Rattle.world_rules.specs.declared.outcome.WorldFault.TheVariants.{NoMemory};
ghost use Rattle.world_rules.specs.World.{World, node_at};
ghost use Rattle.world_rules.specs.Consequence.{with_member_state};
ghost use Rattle.hierarchy_world.specs.Parts.{IsSound, IsStored, IsStep, HasStepped, IsPlace};
ghost use Rattle.hierarchy_world.specs.Parts.{place_of as place_of_id, world_of, IsMemberChanged};

use crate::parts::Parts;
use floor_rules::MemoryFloors;
use node_core::Node;
use node_rules::{Event, Reply, StepFault};
use std::alloc::AllocError;
use world_rules::WorldFault;

/// A node takes a step. The only fault is `NoMemory`; nothing is promised of the node then.
#[tactic(auto, using(crate::proofs::Steps::is_step))]
fn step_of(
    node: &mut Node<u64, MemoryFloors>,
    event: Event<u64>,
    mark: u64,
) -> Result<Result<Reply<u64>, StepFault>, WorldFault>
    requires { IsStored node.old }
    ensures stepped { IfOk result (λ outcome. IsStep node.old mark event outcome node.new) }
    ensures fault { IfErr result (λ fault. fault ≡ NoMemory) }
{
    let outcome = node.step(event, mark);
    let _closed = node.is_closed();
    if let Err(StepFault::NoMemory) = &outcome {
        return Err(WorldFault::NoMemory);
    }
    Ok(outcome)
}

/// The index of the node with this id, if there is one.
fn place_in(nodes: &[Node<u64, MemoryFloors>], id: u8) -> Option<usize>
    ensures place { result ≡ place_of_id id (map (λ n. n.id) nodes.now) }
    ensures below { IfSome result (λ place. place < length nodes.now) }
{
    match nodes {
        [] => None,
        [first, rest @ ..] => {
            if first.id() == id {
                return Some(0);
            }
            match place_in(rest, id) {
                Some(place) => Some(place + 1),
                None => None,
            }
        }
    }
}

impl Parts {
    /// The index of the node with this id, if it is a member's.
    #[tactic(auto, using(crate::proofs::MemberNodes::member_place))]
    pub(crate) fn place_of(&self, id: u8) -> Option<usize>
        requires { IsSound self.now }
        ensures place { MatchOption result (is_member self.now.roster id ≡ false) (λ place.
            (is_member self.now.roster id ≡ true) × IsPlace self.now.nodes.items id place) }
        ensures below { IfSome result (λ place. place < length self.now.nodes.items) }
    {
        place_in(self.nodes.as_slice(), id)
    }

    /// Drops the members' requests that waited at this node.
    fn forget(&mut self, id: u8)
        ensures same { IsMemberChanged self.old self.new self.old.nodes.items
            (filter (λ w. not (w.node == id)) self.old.waiting.items) }
    {
        self.waiting.retain(|waiting| waiting.node != id);
    }

    /// The node at an index, which is this member's, takes a step. Nothing is sent yet. The only
    /// fault is `NoMemory`; nothing is promised of the parts then.
    #[tactic(auto, using(crate::proofs::Taking::has_stepped))]
    pub(crate) fn step_at(
        &mut self,
        place: usize,
        id: u8,
        event: Event<u64>,
    ) -> Result<Result<Reply<u64>, StepFault>, WorldFault>
        requires sound { IsSound self.old }
        requires place { IsPlace self.old.nodes.items id place }
        requires below { place < length self.old.nodes.items }
        ensures stepped { IfOk result (λ outcome. HasStepped self.old id event outcome self.new) }
        ensures fault { IfErr result (λ fault. fault ≡ NoMemory) }
    {
        let mark = self.place;
        step_of(&mut self.nodes[place], event, mark)
    }

    /// The node at an index, which is this member's, closes.
    pub(crate) fn close_at(&mut self, place: usize, id: u8)
        requires sound { IsSound self.old }
        requires place { IsPlace self.old.nodes.items id place }
        requires below { place < length self.old.nodes.items }
        ensures sound { IsSound self.new }
        ensures roster { self.new.roster ≡ self.old.roster }
        ensures place { self.new.place ≡ self.old.place }
        ensures world { world_of self.new
            ≡ with_member_state (world_of self.old) id
            (closed_node (node_at (world_of self.old).states id)) }
    {
        self.nodes[place].close();
        self.forget(id);
    }

    /// The node at an index, which is this member's, restarts with what its floor store kept.
    pub(crate) fn restart_at(&mut self, place: usize, id: u8) -> Result<(), AllocError>
        requires sound { IsSound self.old }
        requires place { IsPlace self.old.nodes.items id place }
        requires below { place < length self.old.nodes.items }
        ensures sound { OnOk result (IsSound self.new) }
        ensures roster { OnOk result (self.new.roster ≡ self.old.roster) }
        ensures place { OnOk result (self.new.place ≡ self.old.place) }
        ensures world { OnOk result (world_of self.new
            ≡ with_member_state (world_of self.old) id
            (opened (node_at (world_of self.old).states id).floors)) }
    {
        let roster = self.roster.copy(self.alloc)?;
        let store = self.nodes.remove(place).into_floors();
        let Ok(node) = Node::open(self.alloc, roster, id, store) else {
            return Err(AllocError);
        };
        if self.nodes.insert(place, node).is_err() {
            return Err(AllocError);
        }
        self.forget(id);
        Ok(())
    }
}
