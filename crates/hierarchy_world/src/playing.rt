//! `World`, and whole runs of it.
ghost use Rattle.std.specs.Prelude.{◌≡◌, ◌≢◌, ◌↔◌, ◌^◌, map, true, false, IsTrue, IfOk, IfErr};
ghost use Rattle.std.specs.Prelude.{OnOk, Err};
ghost use Rattle.world_rules.specs.declared.outcome.WorldFault.TheVariants.{NoMemory, PlacesSpent};
ghost use Rattle.world_rules.specs.World.{new_world};
ghost use Rattle.world_rules.specs.Noise.{IsNoise};
ghost use Rattle.node_rules.specs.State.{opened};
ghost use Rattle.floor_rules.specs.Floors.{no_floors};
ghost use Rattle.roster.specs.Judged.{IsRoster};
ghost use Rattle.hierarchy_world.specs.View.{IsApplied, TellsNoLack};
ghost use Rattle.hierarchy_world.specs.Runs.{HasRun, HasStopped};
ghost use Rattle.hierarchy_world.specs.Parts.{IsSound, world_of};

use crate::network::Datagram;
use crate::parts::Parts;
use floor_rules::MemoryFloors;
use node_core::Node;
use purge_master::Master;
use purge_rules::MemoryPurges;
use roster::{Listed, Roster};
use std::alloc::Global;
use std::marker::Model;
use world_rules::{Outcome, WorldEvent, WorldFault};

/// A hierarchy: each member's node, the master, a clock, and the network, which is all that was
/// ever sent.
///
/// A contract sees the roster, the place of the next event (2^64 if none is left), whether an
/// allocation has failed (`spoilt`), and the world of `world_rules`.
#[derive(Drop)]
pub struct World {
    parts: Parts,
    spoilt: bool,
}

impl Model for World {
    ghost use Rattle.std.specs.Prelude.{◌≡◌, false};
    ghost use Rattle.std.specs.Coded.{codes};
    ghost use Rattle.floor_rules.specs.Coded.{floors_code};
    ghost use Rattle.hierarchy_world.specs.View.{WorldView};
    ghost use Rattle.hierarchy_world.specs.Parts.{IsSound, world_of, next_place};

    ghost Value = { WorldView };

    ghost coded = { Prim.hlevel (codes, floors_code) };

    ghost view = { λ w. record {
      roster = w.parts.roster;
      place = next_place w.parts.place;
      spoilt = w.spoilt;
      world = world_of w.parts;
    } };

    ghost invariant = { λ w. w.spoilt ≡ false → IsSound w.parts };
}

/// Whether an allocation failed.
fn is_spoiling(answer: &Result<Outcome, WorldFault>) -> bool
    ensures { IsTrue result ↔ (answer.now ≡ Err NoMemory) }
{
    matches!(answer, Err(WorldFault::NoMemory))
}

/// A new node of a member, which holds nothing.
fn new_node(alloc: Global, roster: &Roster, id: u8) -> Result<Node<u64, MemoryFloors>, WorldFault>
    ensures made { IfOk result (λ node.
        node
        ≡ record { roster = roster.now; id = id; state = opened no_floors; store = no_floors }) }
    ensures fault { IfErr result (λ fault. fault ≡ NoMemory) }
{
    let copy = roster.copy(alloc)?;
    match Node::open(alloc, copy, id, MemoryFloors::new(alloc)) {
        Ok(node) => Ok(node),
        Err(_) => Err(WorldFault::NoMemory),
    }
}

/// A new node for each member.
fn new_nodes(alloc: Global, roster: &Roster) -> Result<Vec<Node<u64, MemoryFloors>>, WorldFault>
    ensures made { IfOk result (λ nodes.
        nodes.items ≡ map (λ m. record {
          roster = roster.now;
          id = m.cache.id;
          state =
              opened no_floors;
          store = no_floors;
        }) roster.now.members) }
    ensures fault { IfErr result (λ fault. fault ≡ NoMemory) }
{
    let members = roster.members();
    let mut nodes = Vec::with_capacity(alloc, members.len())?;
    for member in members {
        let node = new_node(alloc, roster, member.cache.id)?;
        if nodes.push(node).is_err() {
            return Err(WorldFault::NoMemory);
        }
    }
    Ok(nodes)
}

/// The parts of a new world: nothing is stored and nothing was sent.
fn new_parts(alloc: Global, roster: &Roster) -> Result<Parts, WorldFault>
    ensures sound { IfOk result IsSound }
    ensures roster { IfOk result (λ parts. (parts.roster ≡ roster.now) × (parts.place ≡ 1)) }
    ensures valid { IfOk result (λ parts. IsRoster parts.roster) }
    ensures world { IfOk result (λ parts. world_of parts ≡ new_world roster.now) }
    ensures fault { IfErr result (λ fault. fault ≡ NoMemory) }
{
    let nodes = new_nodes(alloc, roster)?;
    let Ok(master) = Master::open(alloc, roster, MemoryPurges::new(alloc)) else {
        return Err(WorldFault::NoMemory);
    };
    Ok(Parts {
        alloc,
        roster: roster.copy(alloc)?,
        nodes,
        master,
        clock: 0,
        datagrams: Vec::new(alloc),
        asks: Vec::new(alloc),
        answers: Vec::new(alloc),
        waiting: Vec::new(alloc),
        place: 1,
    })
}

impl World {
    /// A new world: nothing is stored, nothing was sent, and the time is 0. The next place is 1.
    ///
    /// Faults: only `NoMemory`.
    pub fn new(alloc: Global, roster: &Roster) -> Result<World, WorldFault>
        ensures made { IfOk result (λ w.
            w ≡ record {
              roster = roster.now;
              place = 1;
              spoilt = false;
              world =
                  new_world roster.now;
            }) }
        ensures valid { IfOk result (λ w. IsRoster w.roster) }
        ensures fault { IfErr result (λ fault. fault ≡ NoMemory) }
    {
        Ok(World {
            parts: new_parts(alloc, roster)?,
            spoilt: false,
        })
    }

    /// Applies an event at the next place: one act of one actor, or a change of the clock.
    ///
    /// Faults, of which only `NoMemory` changes anything:
    ///
    /// - `PlacesSpent`, before all others: no place is left. This is so after 2^64 - 1 events.
    /// - `NoSuchPacket`: the event names something that does not exist.
    /// - `NotPending`: no such read or fetch is pending.
    /// - `NoMemory`: an allocation failed. The world must be made anew; it returns `NoMemory` from
    ///   then on.
    pub fn apply(&mut self, event: WorldEvent) -> Result<Outcome, WorldFault>
        ensures applied { IsApplied self.old event result self.new }
        ensures spent { self.old.place ≡ 2 ^ 64 → result ≡ Err PlacesSpent }
        ensures spoilt { self.old.spoilt ≡ true → (self.new ≡ self.old)
            × (self.old.place ≢ 2 ^ 64 → result ≡ Err NoMemory) }
        ensures spoils { result ≡ Err NoMemory → self.new.spoilt ≡ true }
        ensures usable { OnOk result (self.new.spoilt ≡ false) }
        ensures lack { IfOk result TellsNoLack }
        // Octets of a stranger that spell no message change no state, and nothing is sent.
        ensures noise { IsNoise self.old.roster event →
            OnOk result (self.new.world ≡ self.old.world) }
    {
        if self.parts.place == 0 {
            return Err(WorldFault::PlacesSpent);
        }
        if self.spoilt {
            return Err(WorldFault::NoMemory);
        }
        let answer = self.parts.happen(event);
        self.spoilt = is_spoiling(&answer);
        answer
    }

    /// All datagrams ever sent, in order: the first has the number 1.
    pub fn datagrams(&self) -> &[Datagram]
        ensures { result.now ≡ self.now.world.datagrams }
    {
        self.parts.datagrams.as_slice()
    }

    /// Applies these events to a new world. Returns the world after them, and the outcome of each.
    ///
    /// Such a run is safe: once a purge is reported done nothing old is served, and no request to a
    /// sibling begins anything. If an event has a fault, the run stops there and returns that
    /// fault.
    pub fn run(
        alloc: Global,
        roster: &Roster,
        events: Vec<WorldEvent>,
    ) -> Result<(World, Listed<Outcome>), WorldFault>
        ensures run { IfOk result (λ done. HasRun roster.now events.items done.0 done.1) }
        ensures stopped { IfErr result (HasStopped roster.now events.items) }
    {
        let mut world = World::new(alloc, roster)?;
        let mut outcomes = Vec::with_capacity(alloc, events.len())?;
        for event in events {
            let outcome = world.apply(event)?;
            if outcomes.push(outcome).is_err() {
                return Err(WorldFault::NoMemory);
            }
        }
        Ok((world, Listed::new(outcomes)))
    }
}
