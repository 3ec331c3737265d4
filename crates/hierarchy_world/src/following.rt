//! One event of a world.
ghost use Rattle.std.specs.Prelude.{◌≡◌, ◌≢◌};
ghost use Rattle.world_rules.specs.Consequence.{consequence as consequence_of};
ghost use Rattle.hierarchy_world.specs.Parts.{IsSound, IsTaken, world_of, IsKeyed, IsMade};
ghost use Rattle.hierarchy_world.specs.Outcomes.{AreCounts};

use crate::parts::Parts;
use crate::telling::{Counts, Seen, tell};
use world_rules::{Outcome, WorldEvent, WorldFault};

impl Parts {
    /// How many items were sent so far.
    fn counts(&self) -> Counts
        ensures { AreCounts (world_of self.now) result }
    {
        Counts {
            datagrams: self.datagrams.len() as u64,
            asks: self.asks.len() as u64,
            answers: self.answers.len() as u64,
        }
    }

    /// Takes the consequence of an event.
    fn follow(&mut self, event: WorldEvent) -> Result<Seen, WorldFault>
        requires { IsSound self.old }
        ensures taken { IsTaken self.old
            (consequence_of self.old.roster (world_of self.old) event) result self.new }
        ensures key { IsKeyed event result }
    {
        match event {
            WorldEvent::Clock { now } => {
                self.clock = now;
                Ok(Seen::Nothing)
            }
            WorldEvent::Client { node, ask } => self.client(node, ask),
            WorldEvent::Datagram { number } => self.datagram(number),
            WorldEvent::Ask { number } => self.peer_ask(number),
            WorldEvent::Answer { number, serial } => self.peer_answer(number, serial),
            WorldEvent::Origin {
                node,
                serial,
                answer,
            } => self.origin(node, serial, answer),
            WorldEvent::Foreign {
                node,
                serial,
                answer,
            } => self.foreign(node, serial, answer),
            WorldEvent::Strange { to, from, octets } => self.strange(to, from, octets.as_slice()),
            WorldEvent::Fail { node, serial } => self.fail(node, serial),
            WorldEvent::Expire { node, serial } => self.expire(node, serial),
            WorldEvent::Fault { node } => self.fault(node),
            WorldEvent::Restart { node } => self.restart(node),
            WorldEvent::Issue { key } => self.issue(&key),
            WorldEvent::Admit { node } => self.admit(node),
            WorldEvent::Resend => self.resend(),
            WorldEvent::Status { number } => Ok(self.status(number)),
            WorldEvent::RestartMaster => self.restart_master(),
        }
    }

    /// Applies an event at the next place, if one is left. After place 2^64 - 1 none is.
    pub(crate) fn happen(&mut self, event: WorldEvent) -> Result<Outcome, WorldFault>
        requires sound { IsSound self.old }
        requires place { self.old.place ≢ 0 }
        ensures { IsMade self.old event result self.new }
    {
        let before = self.counts();
        let seen = self.follow(event)?;
        let outcome = tell(self.alloc, before, self.counts(), seen)?;
        self.place = self.place.wrapping_add(1);
        Ok(outcome)
    }
}
