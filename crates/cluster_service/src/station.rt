//! What the threads of a node share beside the node itself.
ghost use Rattle.std.specs.Prelude.{◌≡◌, ◌==◌, true, find, option_map, IfSome, Some, None};
ghost use Rattle.roster.specs.Lookups.{is_member};
ghost use Rattle.cluster_service.specs.Addresses.{fetch_at, fetch_for, peer_source};

use crate::client::Client;
use crate::closing::Closing;
use crate::gate::Gate;
use crate::owed::end_of;
use cluster_fetch::{FetchRequest, ResponseSource};
use cluster_sockets::{Delivery, Errand, Inbox, Senders};
use cluster_waiting::{PeerTable, WaitTables};
use htcp_wire::{Content, HtcpFault, TST};
use http_messages::Ask;
use icp_wire::IcpFault;
use node_bytes::{Packet, Turn};
use node_rules::{Begin, Serve, Served};
use roster::{Address, Cache, Roster, Udp};
use std::alloc::{AllocError, Global};
use std::sync::atomic::{AtomicBool, AtomicU64, Ordering};
use std::sync::{Arc, Wait};
use std::time::{Clock, Duration, Instant};

/// The response of a request that waits, with its number among all such responses of the node.
#[derive(Drop)]
pub struct Numbered {
    /// Its number.
    pub(crate) number: u64,
    /// What is served.
    pub(crate) serve: Serve<()>,
}

/// What the threads of a node share beside the node itself.
pub struct Station<G: Drop> {
    /// The clients that wait, the answers that came before their clients, the rounds that wait, and
    /// the steps that are owed.
    pub tables: WaitTables<Client, Numbered>,
    /// The number of the next response of a request that waits.
    pub(crate) next: AtomicU64,
    /// How the node's peers answer.
    pub peers: Arc<PeerTable, Global>,
    /// What is left to the event loop.
    pub(crate) inbox: Arc<Inbox, Global>,
    pub(crate) alloc: Global,
    /// Who takes part.
    pub roster: Roster,
    /// The member's id.
    pub id: u8,
    /// The node's UDP sockets, for sending.
    pub(crate) senders: Senders,
    /// Whether the node is closed, and why.
    pub(crate) closing: Arc<Closing, Global>,
    /// Whether the node is to stop.
    pub(crate) is_stopped: Arc<AtomicBool, Global>,
    /// How many requests were refused: counted once for each response of status 503 that the
    /// member gives of itself. A response of that status that an origin or a peer gave is a copy,
    /// and is not counted.
    refused: Arc<AtomicU64, Global>,
    /// What is told of each read of an origin.
    pub(crate) gate: Arc<G, Global>,
    pub(crate) ghost has_node: { is_member roster id ≡ true },
}

impl<G: Drop> Drop for Station<G> {
    fn drop(self) {
        let Station {
            tables: _,
            next: _,
            peers: _,
            inbox: _,
            alloc: _,
            roster: _,
            id: _,
            senders: _,
            closing: _,
            is_stopped: _,
            refused: _,
            gate: _,
        } = self;
    }
}

/// The time now, in seconds since 1970; 0 where the system does not tell it.
pub(crate) fn seconds<C: Clock>(clock: &C) -> u64 {
    match clock.since_1970() {
        Ok(since) => since.as_secs(),
        Err(_) => 0,
    }
}

/// The time now for the deadlines of rounds, in milliseconds of a clock that never goes back; 0
/// where the system does not tell it.
pub fn milliseconds<C: Clock>(clock: &C) -> u64 {
    match clock.monotonic() {
        Ok(since) => u64::try_from(since.as_millis()).unwrap_or(u64::MAX),
        Err(_) => 0,
    }
}

/// Whether octets spell a message of ICP. Those that need memory to be read do.
fn is_spelled(alloc: Global, octets: &[u8]) -> bool {
    match icp_wire::decode(alloc, octets) {
        Ok(_) => true,
        Err(fault) => fault == IcpFault::NoMemory,
    }
}

/// Whether octets spell a response to TST (RFC 2756, "TST"). Where there is no memory to read them,
/// any response of HTCP counts as one, so that want of memory makes no peer dead.
fn is_of_test(alloc: Global, octets: &[u8]) -> bool {
    match htcp_wire::decode(alloc, octets) {
        Ok(message) => match message.content {
            Content::TstHit { .. } | Content::TstMiss { .. } => true,
            Content::Overall { opcode, .. } | Content::OtherAnswer { opcode, .. } => opcode == TST,
            _ => false,
        },
        Err(fault) => fault == HtcpFault::NoMemory,
    }
}

/// The request number or TRANS-ID of the question that octets answer, if they spell an answer.
fn number_in(alloc: Global, udp: Udp, octets: &[u8]) -> Option<u32> {
    match udp {
        Udp::Icp if !icp_wire::is_query(octets) && is_spelled(alloc, octets) => {
            icp_wire::number_in(octets)
        }
        Udp::Htcp if htcp_wire::is_response(octets) && is_of_test(alloc, octets) => {
            htcp_wire::trans_in(octets)
        }
        _ => None,
    }
}

/// The cache of this id.
pub(crate) fn cache_in(caches: &[Cache], id: u8) -> Option<&Cache>
    ensures { option_map (λ c. c.now) result ≡ find (λ c. c.id == id) caches.now }
{
    caches.iter().find(|cache| cache.id == id)
}

/// What a peer is, a member or a foreign cache, and where it serves HTTP.
pub(crate) fn source_of(roster: &Roster, peer: u8) -> Option<(ResponseSource, Address)>
    ensures { result ≡ peer_source roster.now peer }
{
    match roster.member(peer) {
        Some(member) => Some((ResponseSource::Member(peer), member.cache.http)),
        None => match cache_in(roster.foreign(), peer) {
            Some(cache) => Some((ResponseSource::Foreign(peer), cache.http)),
            None => None,
        },
    }
}

/// The fetch that begins: whom it asks, and where. None begins with a round, nor where the roster
/// has no such peer or origin.
pub(crate) fn fetch_of(roster: &Roster, begin: Begin) -> Option<FetchRequest>
    ensures { result ≡ fetch_for roster.now begin }
{
    match begin {
        Begin::Round { .. } => None,
        Begin::Peer { serial, peer, ask } => fetch_from(source_of(roster, peer)?, serial, ask),
        Begin::Read { serial, ask } => {
            let at = roster.origin(ask.key.host(), ask.key.port())?;
            fetch_from((ResponseSource::Origin, at), serial, ask)
        }
    }
}

/// A fetch from this source at this address.
fn fetch_from(from: (ResponseSource, Address), serial: u32, ask: Ask) -> Option<FetchRequest>
    ensures { result ≡ Some (fetch_at from serial ask) }
{
    let (source, at) = from;
    Some(FetchRequest {
        source,
        serial,
        at,
        ask,
    })
}

impl<G: Gate + Drop> Station<G> {
    /// The station of a member of the roster, with its peers, the senders of its sockets and the
    /// inbox of its event loop; nobody waits yet. `is_stopped` is set once the node is to stop.
    /// `refused` counts the requests that are refused here: each response of status 503 that the
    /// member gives of itself, once, as it is told to its client or left to the event loop. Those
    /// of an origin or a peer are not counted, nor are connections that the loop refuses.
    /// `closing` is told of a fault that closes the node, and `gate` of each read of an origin.
    /// `AllocError` comes where there is no memory for the steps that may be owed.
    pub fn new(
        alloc: Global,
        roster: Roster,
        id: u8,
        peers: Arc<PeerTable, Global>,
        senders: Senders,
        inbox: Arc<Inbox, Global>,
        is_stopped: Arc<AtomicBool, Global>,
        refused: Arc<AtomicU64, Global>,
        closing: Arc<Closing, Global>,
        gate: Arc<G, Global>,
    ) -> Result<Station<G>, AllocError>
        requires { is_member roster id ≡ true }
    {
        Ok(Station {
            tables: WaitTables::new(alloc)?,
            next: AtomicU64::new(0),
            peers,
            inbox,
            alloc,
            roster,
            id,
            senders,
            closing,
            is_stopped,
            refused,
            gate,
        })
    }
}

impl<G: Drop> Station<G> {
    /// After which time a client that is too slow is given up: the roster's `answer_wait`.
    pub(crate) fn patience(&self) -> Duration {
        Duration::from_millis(self.roster.limits().answer_wait)
    }

    /// Notes whom a round waits for, before it sends these questions: its peers that are not
    /// thought dead. Where there is no memory for the note, the round waits for all. Has it wait
    /// for `query_wait` milliseconds (of the roster), and returns whether it can wait.
    pub(crate) fn ask<R: Wait + Clock>(&self, rt: &R, serial: u32, questions: &[Packet]) -> bool {
        let mut peers = 0;
        for question in questions {
            peers |= self.peers.waits_for(rt, question.by, question.to);
        }
        match self.tables.ask(rt, serial, peers) {
            Ok(()) | Err(_) => {}
        }
        self.begin_wait(rt, serial)
    }

    /// Has a round wait for `query_wait` milliseconds (of the roster). Returns whether it can wait.
    fn begin_wait<R: Wait + Clock>(&self, rt: &R, serial: u32) -> bool {
        let until = milliseconds(rt).saturating_add(self.roster.limits().query_wait);
        self.tables.begin(rt, until, serial).is_ok()
    }

    /// Notes what a peer has sent by this protocol from this address, after the step that these
    /// octets led to. Returns the round that still waits, but for no peer that is not thought dead.
    pub(crate) fn hear<R: Wait>(
        &self,
        rt: &R,
        udp: Udp,
        from: Address,
        octets: &[u8],
        turn: &Turn,
    ) -> Option<u32>
        ensures { IfSome result (λ serial. (turn.now.begin ≡ None) × (turn.now.serve ≡ None)) }
    {
        let serial = number_in(self.alloc, udp, octets)?;
        let peer = self.peers.answered(rt, udp, from)?;
        if turn.begin.is_some() || turn.serve.is_some() {
            self.tables.end(rt, serial);
            return None;
        }
        if self.tables.heard(rt, serial, !peer) {
            Some(serial)
        } else {
            None
        }
    }

    /// Sends datagrams on the node's sockets.
    pub(crate) fn send_all(&self, packets: &[Packet]) {
        for packet in packets {
            // (what the system does not take is lost, as any datagram may be lost on its way)
            let _ = self
                .senders
                .send(packet.by, packet.to, packet.octets.as_slice());
        }
    }

    /// Sends, serves and begins what a turn asks for, on the thread of the event loop: a round
    /// waits, a fetch is left in the inbox, and so is a response. Where one of the first two cannot
    /// begin, its end is owed. A response for which there is no memory is lost.
    pub(crate) fn carry_out<R: Wait + Clock>(&self, rt: &R, turn: Turn) {
        let Turn { serve, send, begin } = turn;
        self.send_all(send.as_slice());
        if let Some(serve) = serve {
            self.leave_response(rt, serve);
        }
        if let Some(begin) = begin {
            self.leave_begin(rt, begin);
        }
    }

    /// The number of the next response. One that has a lesser number answers no request whose step
    /// is yet to begin.
    pub(crate) fn next(&self) -> u64 {
        self.next.load(Ordering::SeqCst)
    }

    /// Gives a response to the client that waits for it, or keeps it until that client comes.
    pub(crate) fn answer<R: Wait>(&self, rt: &R, serve: Serve<()>) -> Option<(Client, Serve<()>)> {
        let block = serve.waiter?;
        let number = self.next.fetch_add(1, Ordering::SeqCst);
        match self.tables.answer(rt, block, Numbered { number, serve }) {
            Ok(Some((client, numbered))) => {
                self.tables.end_ask(rt, block);
                Some((client, numbered.serve))
            }
            Ok(None) | Err(_) => None,
        }
    }

    /// Has a client wait until its request is served, or gives its response where that has come
    /// already. A response of a number below `since`, that of the next response as the request's
    /// step began, is dropped: it is another request's, which had the block before. A client that
    /// is refused comes back.
    pub(crate) fn leave<R: Wait>(
        &self,
        rt: &R,
        block: u32,
        client: Client,
        since: u64,
    ) -> Result<Option<(Client, Serve<()>)>, Client> {
        let (client, numbered) = match self.tables.leave(rt, block, client) {
            Ok(Some(both)) => both,
            Ok(None) => return Ok(None),
            Err(handed_back) => return Err(handed_back.back),
        };
        if numbered.number >= since {
            return Ok(Some((client, numbered.serve)));
        }
        match self.tables.leave(rt, block, client) {
            Ok(Some((client, numbered))) => Ok(Some((client, numbered.serve))),
            Ok(None) => Ok(None),
            Err(handed_back) => Err(handed_back.back),
        }
    }

    /// Counts a response that is about to be given, if it is a status 503 of the member itself.
    pub(crate) fn count_refusal(&self, serve: &Serve<()>) {
        if matches!(serve.served, Served::Status(503)) {
            let _ = self.refused.fetch_add(1, Ordering::SeqCst);
        }
    }

    /// Leaves the response of a client that waits in the inbox.
    fn leave_response<R: Wait + Clock>(&self, rt: &R, serve: Serve<()>) {
        let Ok(now) = Instant::now(rt) else {
            return;
        };
        if let Some((Client::Waiting(stream), serve)) = self.answer(rt, serve) {
            self.count_refusal(&serve);
            let delivery = Delivery::new(stream, serve, false, self.patience(), now);
            let _ = self.inbox.put(rt, Errand::Deliver(delivery));
        }
    }

    /// Has a round wait, or leaves a fetch in the inbox. Where it cannot, the end of that is owed:
    /// no step is taken here.
    fn leave_begin<R: Wait + Clock>(&self, rt: &R, begin: Begin) {
        let end = end_of(&begin);
        let is_left = match begin {
            Begin::Round { serial } => self.begin_wait(rt, serial),
            fetch => self.leave_fetch(rt, fetch),
        };
        if !is_left {
            self.tables.note_owed(rt, end);
        }
    }

    /// Leaves a fetch in the inbox. Returns whether it is left: not where the roster has no such
    /// peer or origin, or where there is no memory for it.
    pub(crate) fn leave_fetch<R: Wait>(&self, rt: &R, begin: Begin) -> bool {
        match fetch_of(&self.roster, begin) {
            Some(fetch) => self.inbox.put(rt, Errand::Fetch(fetch)).is_ok(),
            None => false,
        }
    }

    /// Whether the node is to stop.
    pub fn is_stopped(&self) -> bool {
        self.is_stopped.load(Ordering::SeqCst)
    }
}
