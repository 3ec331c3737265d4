//! What workers do with the steps of a node.
ghost use Rattle.std.specs.Prelude.{◌≡◌};
ghost use Rattle.cluster_service.specs.Steps.{TakesOne, BeginsAtMost, BeginsRound, EndsRound};
ghost use Rattle.cluster_service.specs.Steps.{FailsFetch};

use crate::client::Client;
use crate::gate::Gate;
use crate::owed::owed_by;
use crate::station::{Station, milliseconds, seconds};
use crate::telling::{refuse_all, tell, tell_client};
use cluster_waiting::OwedStep;
use mio::net::TcpStream;
use node_bytes::{Stepper, Turn};
use node_rules::{Begin, Event, Serve, StepFault};
use std::sync::Wait;
use std::time::Clock;

/// How many steps follow the first step of a job at most: one for the failure of each of the 26
/// fetches of a request, and one for a round whose time is over at once.
pub(crate) const MOST_FURTHER_STEPS: u32 = 31;

/// A thread that takes the steps of a node by a seat of its own, with what it needs to do what they
/// ask for.
#[derive(Drop)]
pub struct Seated<'a, N: Stepper + Drop, G: Gate + Drop, R> {
    /// The clock, the network and the locks of the system.
    pub rt: &'a R,
    /// What it shares with the other threads of the node.
    pub station: &'a Station<G>,
    /// What takes its steps.
    pub node: N,
    /// Where short pieces of a response are kept while it is written: a buffer that has room for
    /// them from the start, so that a client is answered also where there is no memory.
    pub kept: Vec<u8>,
}

impl<N: Stepper + Drop, G: Gate + Drop, R: Wait + Clock> Seated<'_, N, G, R> {
    /// Takes a step, and returns what is to be done then. Where the step at the end of a round or a
    /// fetch finds no memory, it is owed.
    pub(crate) fn step(&mut self, event: Event<()>) -> Option<Turn>
        ensures { TakesOne N.takes event self.old.node self.new.node result }
    {
        let owed = owed_by(&event);
        match self.node.step(event) {
            Ok(reply) => Some(Turn::of(self.station.alloc, reply)),
            Err(fault) => {
                self.owe(fault, owed);
                self.note(fault);
                None
            }
        }
    }

    /// Notes a step that found no memory, so that it is taken again. Until then its request keeps
    /// its place among those that are pending.
    fn owe(&self, fault: StepFault, owed: Option<OwedStep>) {
        if fault != StepFault::NoMemory {
            return;
        }
        if let Some(step) = owed {
            self.station.tables.note_owed(self.rt, step);
        }
    }

    /// Notes a fault of a step. Where the node has closed, those who wait get 503.
    pub(crate) fn note(&mut self, fault: StepFault)
        ensures { self.new.node ≡ self.old.node }
    {
        if fault == StepFault::Closed || fault == StepFault::StoreFault {
            self.station.closing.note(fault);
            self.refuse_all();
        }
    }

    /// Answers 503 to all who wait.
    pub(crate) fn refuse_all(&mut self)
        ensures { self.new.node ≡ self.old.node }
    {
        refuse_all(self.rt, self.station, &mut self.kept);
    }

    /// Writes what a client is served. `lingers` where it may still send.
    pub(crate) fn tell(&mut self, stream: TcpStream, serve: Serve<()>, lingers: bool)
        ensures { self.new.node ≡ self.old.node }
    {
        tell(
            self.rt,
            self.station,
            &mut self.kept,
            stream,
            serve,
            lingers,
        );
    }

    /// Writes what a client that waits is served.
    pub(crate) fn tell_client(&mut self, client: Client, serve: Serve<()>)
        ensures { self.new.node ≡ self.old.node }
    {
        tell_client(self.rt, self.station, &mut self.kept, client, serve);
    }

    /// Notes whom the round waits for that begins with a turn, and how long, if one begins. It is
    /// called before the turn is carried out, so that no answer comes earlier. Returns false where
    /// the round cannot wait. A round whose questions found no memory has none to send. So it waits
    /// for no peer, and its time is over at once ([`Seated::begin_round`]).
    pub(crate) fn prepare(&self, turn: &Turn) -> bool {
        match &turn.begin {
            Some(Begin::Round { serial }) => {
                self.station.ask(self.rt, *serial, turn.send.as_slice())
            }
            _ => true,
        }
    }

    /// Sends and serves what a step asks for, and returns what it begins. At a node that is to
    /// stop, nothing more begins.
    pub(crate) fn carry_out(&mut self, turn: Turn) -> Option<Begin>
        ensures node { self.new.node ≡ self.old.node }
        ensures begins { BeginsAtMost turn result }
    {
        let Turn { serve, send, begin } = turn;
        self.station.send_all(send.as_slice());
        if let Some(serve) = serve {
            self.serve(serve);
        }
        if self.station.is_stopped() {
            return None;
        }
        begin
    }

    /// Answers the client whose request is served, or keeps the answer until that client comes to
    /// the tables.
    fn serve(&mut self, serve: Serve<()>)
        ensures { self.new.node ≡ self.old.node }
    {
        if let Some((client, serve)) = self.station.answer(self.rt, serve) {
            self.tell_client(client, serve);
        }
    }

    /// Leaves a round waiting whose questions were sent. Where it cannot wait, or all its peers are
    /// thought dead, its time is over at once.
    pub(crate) fn begin_round(&mut self, serial: u32, can_wait: bool) -> Option<Turn>
        ensures { BeginsRound N.takes serial self.old.node self.new.node result }
    {
        if !can_wait || self.station.tables.waits_for_none(self.rt, serial) {
            return self.end_round(serial);
        }
        None
    }

    /// Takes the step of a round whose deadline has come. The peers that it still waited for have
    /// left a question unanswered.
    pub(crate) fn expire(&mut self, serial: u32) -> Option<Turn>
        ensures { EndsRound N.takes serial self.old.node self.new.node result }
    {
        let peers = self.station.tables.left(self.rt, serial);
        self.station
            .peers
            .missed(self.rt, peers, milliseconds(self.rt));
        self.end_round(serial)
    }

    /// Takes the step of a round whose time is over (RFC 2187, section 5.3.3).
    pub(crate) fn end_round(&mut self, serial: u32) -> Option<Turn>
        ensures { EndsRound N.takes serial self.old.node self.new.node result }
    {
        self.station.tables.end(self.rt, serial);
        let now = seconds(self.rt);
        self.step(Event::Expired { serial, now })
    }

    /// Takes the step of a fetch that failed.
    pub(crate) fn fail(&mut self, serial: u32) -> Option<Turn>
        ensures { FailsFetch N.takes serial self.old.node self.new.node result }
    {
        let now = seconds(self.rt);
        self.step(Event::FetchFailed { serial, now })
    }
}
