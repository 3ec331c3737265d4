//! ICP queries and HTCP TST requests, which are answered on the thread of the event loop.
ghost use Rattle.std.specs.Prelude.{◌≡◌, []};
ghost use Rattle.node_rules.specs.declared.message.Message.{Message};
ghost use Rattle.node_rules.specs.Questions.{is_question as asks};
ghost use Rattle.node_bytes.specs.Bytes.{SpellsBy};
ghost use Rattle.cluster_service.specs.Questions.{begins_question};
ghost use Rattle.cluster_service.specs.Steps.{Holds, CarriesOut, DealsWith};

use crate::gate::Gate;
use crate::station::{Station, seconds};
use cluster_jobs::Sender;
use cluster_sockets::AtOnce;
use node_bytes::{Stepper, Turn, on_datagram};
use node_rules::SERIALS;
use roster::{Address, Roster, Udp, address_by};
use std::marker::Model;
use std::sync::Wait;
use std::time::Clock;

/// How many responses are held back at most, so that the first waits for no more than 32 steps.
const MOST_HELD: usize = 32;

/// Answers ICP queries and HTCP TST requests as they come. The step of such a question begins
/// nothing and serves no client. So it waits for no fetch and no client, only for the node's lock,
/// and no worker is woken.
///
/// Responses to questions that came together are sent together: the first one wakes the receiver,
/// and the others mostly find it awake.
///
/// A contract sees what takes the steps, and the turns that are held back.
#[derive(Drop)]
pub struct Questions<'a, N: Stepper + Drop, G: Gate + Drop> {
    station: &'a Station<G>,
    node: N,
    held: Vec<Turn>,
}

impl<'a, N: Stepper + Drop, G: Gate + Drop> Model for Questions<'a, N, G> {
    ghost use Rattle.cluster_service.specs.Steps.{QuestionsView};

    ghost Value = { QuestionsView N };

    ghost view = { λ questions. record { node = questions.node; held = questions.held.items } };
}

impl<'a, N: Stepper + Drop, G: Gate + Drop> Questions<'a, N, G> {
    /// Questions to this node, none of which is held back.
    pub fn new(station: &'a Station<G>, node: N) -> Questions<'a, N, G>
        ensures { result ≡ record { node = node; held = [] } }
    {
        Questions {
            station,
            node,
            held: Vec::new(station.alloc),
        }
    }
}

impl<N: Stepper + Drop, G: Gate + Drop> Questions<'_, N, G> {
    /// Sends the responses that are held back, in the order of their questions.
    fn send_held(&mut self)
        ensures { self.new ≡ record { node = self.old.node; held = [] } }
    {
        for turn in self.held.as_slice() {
            self.station.send_all(turn.send.as_slice());
        }
        self.held.clear();
    }

    /// Holds a response back until the loop has read what is ready, or 32 are held. Where there is
    /// no memory to hold it, it is sent now, after those that are held.
    fn hold(&mut self, turn: Turn)
        ensures node { self.new.node ≡ self.old.node }
        ensures held { Holds self.old.held turn self.new.held }
    {
        if self.held.len() >= MOST_HELD {
            self.send_held();
        }
        if self.held.reserve(1).is_ok() {
            self.held.push_reserved(turn);
        } else {
            self.send_held();
            self.station.send_all(turn.send.as_slice());
        }
    }

    /// Has what a step asks for sent. What a question never asks for (to serve a client, or to
    /// begin a fetch) is carried out at once, without the others.
    fn carry_out<R: Wait + Clock>(&mut self, rt: &R, turn: Turn)
        ensures node { self.new.node ≡ self.old.node }
        ensures held { CarriesOut turn.serve turn.begin self.old.held turn self.new.held }
    {
        if turn.serve.is_none() && turn.begin.is_none() {
            self.hold(turn);
        } else {
            self.station.carry_out(rt, turn);
        }
    }
}

/// Whose a datagram is: the master's, which sends HTCP, a peer's, or a stranger's.
fn sender_in(roster: &Roster, udp: Udp, from: Address) -> Sender {
    let is_peer = roster.member_at(from, udp).is_some()
        || roster
            .foreign()
            .iter()
            .any(|cache| address_by(udp, cache) == from);
    match udp {
        Udp::Htcp if roster.is_master(from) => Sender::Master,
        _ if is_peer => Sender::Peer,
        _ => Sender::Stranger,
    }
}

/// Whether octets are a question, if they are a message at all: an ICP QUERY or an HTCP TST
/// request, as the codecs say before they decode.
fn is_question(udp: Udp, octets: &[u8]) -> bool
    // The octets begin like one.
    ensures begins { result ≡ begins_question udp octets.now }
    // If the octets spell a message, this says whether it is a question, whose step begins nothing.
    ensures spelled { (message : Message) → SpellsBy udp octets.now message →
        result ≡ asks message }
{
    match udp {
        Udp::Icp => icp_wire::is_query(octets),
        Udp::Htcp => htcp_wire::is_test(octets),
    }
}

impl<N: Stepper + Drop, G: Gate + Drop> AtOnce for Questions<'_, N, G> {
    fn deals_with<R: Wait + Clock>(
        &mut self,
        rt: &R,
        udp: Udp,
        from: Address,
        octets: &[u8],
    ) -> bool
        ensures { DealsWith N.takes udp from octets.now self.old result self.new }
    {
        if !is_question(udp, octets) {
            return false;
        }
        let now = seconds(rt);
        match on_datagram(self.station.alloc, &mut self.node, udp, from, octets, now) {
            Ok(turn) => {
                self.carry_out(rt, turn);
                true
            }
            // (no step was taken, or it was refused: a worker tries again, and answers those who
            // wait if the node has closed)
            Err(_) => false,
        }
    }

    fn sender_of(&self, udp: Udp, from: Address) -> Sender {
        sender_in(&self.station.roster, udp, from)
    }

    fn is_wanted<R: Wait>(&self, rt: &R, serial: u32) -> bool {
        self.station.tables.is_awaited(rt, serial / SERIALS)
    }

    fn is_there<R: Wait>(&self, rt: &R, serial: u32) -> bool {
        self.station.tables.is_there(rt, serial / SERIALS)
    }

    fn finish(&mut self)
        ensures { self.new ≡ record { node = self.old.node; held = [] } }
    {
        if !self.held.is_empty() {
            self.send_held();
        }
    }
}
