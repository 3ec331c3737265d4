//! What a worker does with a job.
ghost use Rattle.std.specs.Prelude.{◌≡◌, true};
ghost use Rattle.roster.specs.Lookups.{is_member};
ghost use Rattle.node_rules.specs.State.{serial_of as serial_begun};
ghost use Rattle.cluster_service.specs.Steps.{AsksOnce, EndsFetch, TakesDatagram, TakesMessage};
ghost use Rattle.cluster_service.specs.Steps.{TakesRequest, TakesJob, DoesJob, GoesOn, GivesUp};
ghost use Rattle.cluster_service.specs.Steps.{CarriesOn, HandsOver, begun_in};

use crate::client::Client;
use crate::gate::Gate;
use crate::seated::{MOST_FURTHER_STEPS, Seated};
use crate::station::{Station, milliseconds, seconds};
use crate::telling::{begin_ask, status};
use cluster_fetch::{Fetched, ResponseSource};
use cluster_jobs::Job;
use mio::net::TcpStream;
use node_bytes::{Stepper, Turn, on_datagram};
use node_http::{ServeFault, Taken, status_for, take_ask};
use node_rules::Begin;
use roster::{Address, Udp};
use std::io::Read;
use std::sync::Wait;
use std::time::Clock;

/// A thread that takes jobs from the queue.
#[derive(Drop)]
pub struct Worker<'a, N: Stepper + Drop, G: Gate + Drop, R> {
    /// Its seat at the node, and what it needs to do what steps ask for.
    pub seated: Seated<'a, N, G, R>,
}

/// Takes one step with a request, of which these octets were read.
fn ask<N: Stepper, G: Gate + Drop, C: Clock>(
    clock: &C,
    station: &Station<G>,
    node: &mut N,
    stream: &mut TcpStream,
    octets: &[u8],
) -> Result<Taken, ServeFault>
    ensures { AsksOnce N.takes station.now.roster station.now.id node.old node.new result }
{
    let now = seconds(clock);
    let mut reader = octets.chain(stream);
    take_ask(
        station.alloc,
        &station.roster,
        station.id,
        node,
        &mut reader,
        now,
    )
}

/// The serial of the round or fetch that begins.
fn serial_of(begin: &Begin) -> u32
    ensures { result ≡ serial_begun begin.now }
{
    match begin {
        Begin::Round { serial } | Begin::Peer { serial, .. } | Begin::Read { serial, .. } => {
            *serial
        }
    }
}

impl<N: Stepper + Drop, G: Gate + Drop, R: Wait + Clock> Worker<'_, N, G, R> {
    /// Does a job. A fetch that a step begins is left to the event loop.
    pub fn do_job(&mut self, job: Job)
        ensures { DoesJob N.takes self.old.seated.station.now.roster self.old.seated.station.now.id
            job self.old.seated.node self.new.seated.node }
    {
        let turn = self.take(job);
        self.go_on(turn);
    }

    /// Takes the first step of a job, and returns what is to be done then.
    fn take(&mut self, job: Job) -> Option<Turn>
        ensures { TakesJob N.takes self.old.seated.station.now.roster self.old.seated.station.now.id
            job self.old.seated.node self.new.seated.node result }
    {
        match job {
            Job::Datagram {
                udp,
                from,
                octets,
                ..
            } => self.take_message(udp, from, octets.as_slice()),
            Job::Stream { stream, octets, .. } => self.take_stream(stream, octets.as_slice()),
            Job::Timer { serial } => self.seated.expire(serial),
            Job::Fetched(fetched) => self.take_fetched(fetched),
            Job::Failed { serial } => self.seated.fail(serial),
        }
    }

    /// Does what a step asks for, and what the steps after it ask for.
    fn go_on(&mut self, turn: Option<Turn>)
        ensures { GoesOn N.takes GivesUp (begun_in turn) self.old.seated.node self.new.seated.node }
    {
        let mut next = turn;
        for _ in 0..MOST_FURTHER_STEPS {
            let Some(turn) = next else {
                break;
            };
            next = self.follow(turn);
        }
    }

    /// Takes the step of a datagram.
    fn take_datagram(&mut self, udp: Udp, from: Address, octets: &[u8]) -> Option<Turn>
        ensures { TakesDatagram N.takes udp from octets.now self.old.seated.node
            self.new.seated.node result }
    {
        let station = self.seated.station;
        let now = seconds(self.seated.rt);
        match on_datagram(station.alloc, &mut self.seated.node, udp, from, octets, now) {
            Ok(turn) => Some(turn),
            Err(fault) => {
                self.seated.note(fault);
                None
            }
        }
    }

    /// Takes the step of a datagram. Where a round waits for no living peer after it, takes the
    /// step of that round, whose time is over then.
    fn take_message(&mut self, udp: Udp, from: Address, octets: &[u8]) -> Option<Turn>
        ensures { TakesMessage N.takes udp from octets.now self.old.seated.node
            self.new.seated.node result }
    {
        let turn = self.take_datagram(udp, from, octets)?;
        let station = self.seated.station;
        match station.hear(self.seated.rt, udp, from, octets, &turn) {
            Some(serial) => {
                station.send_all(turn.send.as_slice());
                self.seated.end_round(serial)
            }
            None => Some(turn),
        }
    }

    /// Has a peer to which no connection could be made be thought dead.
    fn note_failure(&self, fetched: &Fetched) {
        let id = match fetched.source {
            ResponseSource::Member(id) | ResponseSource::Foreign(id) => id,
            ResponseSource::Origin => return,
        };
        let (rt, station) = (self.seated.rt, self.seated.station);
        if fetched.is_unreached {
            station.peers.failed(rt, id, milliseconds(rt));
        }
    }

    /// Takes the step of a fetch that has ended.
    fn take_fetched(&mut self, fetched: Fetched) -> Option<Turn>
        ensures { EndsFetch N.takes fetched self.old.seated.node self.new.seated.node result }
    {
        self.note_failure(&fetched);
        let now = seconds(self.seated.rt);
        self.seated.step(fetched.into_event(now))
    }

    /// Reads and answers the request of a connection, or leaves its client in the table.
    fn take_stream(&mut self, stream: TcpStream, octets: &[u8]) -> Option<Turn>
        ensures { TakesRequest N.takes self.old.seated.station.now.roster
            self.old.seated.station.now.id self.old.seated.node self.new.seated.node result }
    {
        let mut stream = stream;
        let seated = &mut self.seated;
        let since = seated.station.next();
        match ask(
            seated.rt,
            seated.station,
            &mut seated.node,
            &mut stream,
            octets,
        ) {
            Ok(Taken::Serves(serve)) => {
                self.seated.tell(stream, serve, false);
                None
            }
            Ok(Taken::Waits(block, turn)) => {
                self.leave(block, stream, since);
                Some(turn)
            }
            Err(fault) => {
                self.refuse(stream, fault);
                None
            }
        }
    }

    /// Refuses a request that was not served. Its client may still send, since its request may not
    /// have been read to the end.
    fn refuse(&mut self, stream: TcpStream, fault: ServeFault)
        ensures { self.new.seated.node ≡ self.old.seated.node }
    {
        if let Some(code) = status_for(fault) {
            self.seated.tell(stream, status(code), true);
        }
        if let ServeFault::Step(fault) = fault {
            self.seated.note(fault);
        }
    }

    /// Leaves a client in the table until its request is served, or answers it where that has
    /// happened since its step began. One that stands there under the block has lost its answer,
    /// and gets 503. Where the node has closed meanwhile, all who wait get 503.
    fn leave(&mut self, block: u32, stream: TcpStream, since: u64)
        ensures { self.new.seated.node ≡ self.old.seated.node }
    {
        let station = self.seated.station;
        if let Some(lost) = station.tables.take(self.seated.rt, block) {
            self.seated.tell_client(lost, status(503));
        }
        let client = Client::Waiting(stream);
        match station.leave(self.seated.rt, block, client, since) {
            Ok(Some((client, serve))) => self.seated.tell_client(client, serve),
            Ok(None) => {
                begin_ask(self.seated.rt, station, block);
                if station.closing.is_closed() {
                    self.seated.refuse_all();
                }
            }
            Err(client) => self.seated.tell_client(client, status(503)),
        }
    }

    /// Does what a step asks for. Another step follows only where what begins can neither wait nor
    /// be left to the event loop.
    fn follow(&mut self, turn: Turn) -> Option<Turn>
        ensures { CarriesOn N.takes GivesUp turn self.old.seated.node self.new.seated.node result }
    {
        let can_wait = self.seated.prepare(&turn);
        match self.seated.carry_out(turn)? {
            Begin::Round { serial } => self.seated.begin_round(serial, can_wait),
            fetch => self.hand_over(fetch),
        }
    }

    /// Leaves a fetch to the event loop, after the gate if it reads an origin. Where the roster has
    /// no such peer or origin, or there is no memory for it, the fetch has failed.
    fn hand_over(&mut self, begin: Begin) -> Option<Turn>
        ensures { HandsOver N.takes begin self.old.seated.node self.new.seated.node result }
    {
        let station = self.seated.station;
        let serial = serial_of(&begin);
        if let Begin::Read { serial, .. } = &begin {
            station.gate.before_read(self.seated.rt, *serial);
        }
        if station.leave_fetch(self.seated.rt, begin) {
            return None;
        }
        self.seated.fail(serial)
    }
}
