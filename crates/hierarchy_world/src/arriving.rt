//! What arrives at a member or at the master, and a member's faults and restarts. Each function
//! returns `NoSuchPacket` if what the event names does not exist.
ghost use Rattle.std.specs.Prelude.{◌≡◌, true};
ghost use Rattle.node_rules.specs.declared.event.Event.TheVariants as events;
ghost use Rattle.node_rules.specs.Spelled.{decoded_by};
ghost use Rattle.node_rules.specs.State.{opened, closed_node};
ghost use Rattle.roster.specs.Lookups.{is_member};
ghost use Rattle.world_rules.specs.World.{item as item_of, node_at};
ghost use Rattle.world_rules.specs.Consequence as consequences;
ghost use Rattle.hierarchy_world.specs.Parts.{IsSound, IsTaken, world_of};

use crate::network::Arrived;
use crate::parts::{Parts, item};
use crate::telling::Seen;
use http_messages::{Answer, Ask};
use node_bytes::{encode, event_of};
use node_rules::{Event, Fetch};
use roster::{Address, Udp, is_foreign};
use world_rules::WorldFault;

impl Parts {
    /// A client sends a request to a member.
    pub(crate) fn client(&mut self, id: u8, ask: Ask) -> Result<Seen, WorldFault>
        requires { IsSound self.old }
        ensures { IsTaken self.old (consequences.at_member self.old.roster id
            (consequences.NodeSteps id (events.Client ask self.old.clock) 0)) result self.new }
    {
        let Some(place) = self.place_of(id) else {
            return Err(WorldFault::NoSuchPacket);
        };
        let now = self.clock;
        self.step(place, id, Event::Client { ask, now }, None)
    }

    /// Octets reach a member by a protocol. If they spell a message, the member's node takes a step
    /// with it; else nothing changes.
    fn hear(&mut self, id: u8, by: Udp, from: Address, octets: &[u8]) -> Result<Seen, WorldFault>
        requires sound { IsSound self.old }
        requires member { is_member self.old.roster id ≡ true }
        ensures { IsTaken self.old (consequences.octets_reach (world_of self.old) from id
            (decoded_by by octets.now)) result self.new }
    {
        let Some(place) = self.place_of(id) else {
            return Err(WorldFault::NoSuchPacket);
        };
        match event_of(self.alloc, by, from, octets, self.clock)? {
            Some(event) => self.step(place, id, event, None),
            None => Ok(Seen::Nothing),
        }
    }

    /// A datagram that was sent arrives at the master, or at the member that answers its protocol.
    #[tactic(auto, using(crate::proofs::MemberNodes::reached_member))]
    pub(crate) fn datagram(&mut self, number: u64) -> Result<Seen, WorldFault>
        requires { IsSound self.old }
        ensures { IsTaken self.old (consequences.delivered self.old.roster (world_of self.old)
            (item_of self.old.datagrams.items number)) result self.new }
    {
        let Some(datagram) = item(self.datagrams.as_slice(), number) else {
            return Err(WorldFault::NoSuchPacket);
        };
        let sender = datagram.sender;
        let message = datagram.message.message();
        if self.roster.is_master(datagram.receiver) {
            let answer = message.clear_answer();
            return self.master_hears(sender, answer);
        }
        let by = message.protocol();
        let Some(id) = self.roster.member_at(datagram.receiver, by) else {
            return Err(WorldFault::NoSuchPacket);
        };
        let octets = encode(self.alloc, &datagram.message)?;
        self.hear(id, by, sender, octets.as_slice())
    }

    /// Octets arrive at a member from an address that is neither a member's nor the master's. They
    /// are read by the protocol of the member's address.
    #[tactic(auto, using(crate::proofs::MemberNodes::reached_member))]
    pub(crate) fn strange(
        &mut self,
        to: Address,
        from: Address,
        octets: &[u8],
    ) -> Result<Seen, WorldFault>
        requires { IsSound self.old }
        ensures { IsTaken self.old (consequences.strange_comes self.old.roster
            (world_of self.old) to from octets.now) result self.new }
    {
        if self.roster.is_own(from) {
            return Err(WorldFault::NoSuchPacket);
        }
        if let Some(id) = self.roster.member_at(to, Udp::Icp) {
            return self.hear(id, Udp::Icp, from, octets);
        }
        match self.roster.member_at(to, Udp::Htcp) {
            Some(id) => self.hear(id, Udp::Htcp, from, octets),
            None => Err(WorldFault::NoSuchPacket),
        }
    }

    /// A request that a member sent to a member arrives.
    pub(crate) fn peer_ask(&mut self, number: u64) -> Result<Seen, WorldFault>
        requires { IsSound self.old }
        ensures { IsTaken self.old (consequences.ask_delivered self.old.roster (world_of self.old)
            (item_of self.old.asks.items number)) result self.new }
    {
        let Some(sent) = item(self.asks.as_slice(), number) else {
            return Err(WorldFault::NoSuchPacket);
        };
        let id = sent.receiver;
        let Some(place) = self.place_of(id) else {
            return Err(WorldFault::NoSuchPacket);
        };
        let asked = Arrived {
            serial: sent.serial,
            key: sent.ask.key.copy(self.alloc)?,
        };
        let event = Event::PeerAsk {
            asker: sent.sender,
            ask: sent.ask.copy(self.alloc)?,
            now: self.clock,
        };
        self.step(place, id, event, Some(asked))
    }

    /// A response that a member sent to a member arrives, under this serial or else under that of
    /// its request.
    pub(crate) fn peer_answer(
        &mut self,
        number: u64,
        serial: Option<u32>,
    ) -> Result<Seen, WorldFault>
        requires { IsSound self.old }
        ensures { IsTaken self.old (consequences.answer_delivered self.old.roster
            (world_of self.old) serial (item_of self.old.answers.items number))
            result self.new }
    {
        let Some(sent) = item(self.answers.as_slice(), number) else {
            return Err(WorldFault::NoSuchPacket);
        };
        let id = sent.receiver;
        let Some(place) = self.place_of(id) else {
            return Err(WorldFault::NoSuchPacket);
        };
        let event = Event::PeerAnswer {
            serial: serial.unwrap_or(sent.serial),
            peer: sent.sender,
            key: sent.key.copy(self.alloc)?,
            answer: sent.answer.copy()?,
            tag: sent.mark,
            now: self.clock,
        };
        self.step(place, id, event, None)
    }

    /// The origin responds to a read. `NotPending`: no read is pending under the serial.
    pub(crate) fn origin(&mut self, id: u8, serial: u32, answer: Answer) -> Result<Seen, WorldFault>
        requires { IsSound self.old }
        ensures { IsTaken self.old (consequences.at_member self.old.roster id
            (consequences.origin_to (world_of self.old) id serial answer
            (consequences.fetching_at (world_of self.old) id serial))) result self.new }
    {
        let Some(place) = self.place_of(id) else {
            return Err(WorldFault::NoSuchPacket);
        };
        let Some(pending) = self.nodes[place].fetching(serial) else {
            return Err(WorldFault::NotPending);
        };
        let key = match &pending.fetch {
            Fetch::AtOrigin { .. } => pending.ask.key.copy(self.alloc)?,
            _ => return Err(WorldFault::NotPending),
        };
        let now = self.clock;
        let event = Event::OriginAnswer {
            serial,
            key,
            answer,
            now,
        };
        self.step(place, id, event, None)
    }

    /// A foreign cache responds to a fetch. `NotPending`: no fetch from a foreign cache is pending
    /// under the serial.
    pub(crate) fn foreign(
        &mut self,
        id: u8,
        serial: u32,
        answer: Answer,
    ) -> Result<Seen, WorldFault>
        requires { IsSound self.old }
        ensures { IsTaken self.old (consequences.at_member self.old.roster id
            (consequences.foreign_to (world_of self.old) id serial answer
            (consequences.fetching_at (world_of self.old) id serial))) result self.new }
    {
        let Some(place) = self.place_of(id) else {
            return Err(WorldFault::NoSuchPacket);
        };
        let Some(pending) = self.nodes[place].fetching(serial) else {
            return Err(WorldFault::NotPending);
        };
        let peer = match &pending.fetch {
            Fetch::AtPeer { peer, .. } if is_foreign(*peer) => *peer,
            _ => return Err(WorldFault::NotPending),
        };
        let key = pending.ask.key.copy(self.alloc)?;
        let event = Event::ForeignAnswer {
            serial,
            peer,
            key,
            answer,
            tag: 0,
            now: self.clock,
        };
        self.step(place, id, event, None)
    }

    /// A member's fetch fails.
    pub(crate) fn fail(&mut self, id: u8, serial: u32) -> Result<Seen, WorldFault>
        requires { IsSound self.old }
        ensures { IsTaken self.old (consequences.at_member self.old.roster id
            (consequences.NodeSteps id (events.FetchFailed serial self.old.clock) 0))
            result self.new }
    {
        let Some(place) = self.place_of(id) else {
            return Err(WorldFault::NoSuchPacket);
        };
        let now = self.clock;
        self.step(place, id, Event::FetchFailed { serial, now }, None)
    }

    /// The waiting time of a member's round is over.
    pub(crate) fn expire(&mut self, id: u8, serial: u32) -> Result<Seen, WorldFault>
        requires { IsSound self.old }
        ensures { IsTaken self.old (consequences.at_member self.old.roster id
            (consequences.NodeSteps id (events.Expired serial self.old.clock) 0)) result self.new }
    {
        let Some(place) = self.place_of(id) else {
            return Err(WorldFault::NoSuchPacket);
        };
        let now = self.clock;
        self.step(place, id, Event::Expired { serial, now }, None)
    }

    /// A member's floor store fails, and the member closes.
    pub(crate) fn fault(&mut self, id: u8) -> Result<Seen, WorldFault>
        requires { IsSound self.old }
        ensures { IsTaken self.old (consequences.at_member self.old.roster id
            (consequences.Ends consequences.Nothing
            (consequences.with_member_state (world_of self.old) id
            (closed_node (node_at (world_of self.old).states id))))) result self.new }
    {
        let Some(place) = self.place_of(id) else {
            return Err(WorldFault::NoSuchPacket);
        };
        self.close_at(place, id);
        Ok(Seen::Nothing)
    }

    /// A member restarts, with its floors and nothing else.
    pub(crate) fn restart(&mut self, id: u8) -> Result<Seen, WorldFault>
        requires { IsSound self.old }
        ensures { IsTaken self.old (consequences.at_member self.old.roster id
            (consequences.Ends consequences.Nothing
            (consequences.with_member_state (world_of self.old) id
            (opened (node_at (world_of self.old).states id).floors)))) result self.new }
    {
        let Some(place) = self.place_of(id) else {
            return Err(WorldFault::NoSuchPacket);
        };
        self.restart_at(place, id)?;
        Ok(Seen::Nothing)
    }
}
