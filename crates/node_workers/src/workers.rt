//! A running node, from outside.
ghost use Rattle.std.specs.Prelude.{◌≡◌, ◌≢◌, ◌≤◌, ◌<◌, true, false, OnOk, IfErr};
ghost use Rattle.roster.specs.Lookups.{is_member};
ghost use Rattle.floor_rules.specs.declared.fault.FloorFault.TheVariants as storing;
ghost use Rattle.node_core.specs.declared.opening.OpenFault.TheVariants as opening;
ghost use Rattle.node_workers.specs.declared.fault.StartFault.TheVariants as starting;

use crate::fault::{StartFault, StopFault, Unready};
use crate::node::{Edge, Start, run_node};
use crate::signals::Signals;
use cluster_service::{CloseCause, Closing, Gate, Station};
use cluster_sockets::{Delivery, Inbox, NodeLoop, Senders};
use cluster_waiting::AskedPeer;
use floor_rules::FloorStore;
use node_book::Record;
use node_core::{Node, OpenFault};
use node_http::name_of;
use node_seats::{Places, Retention};
use roster::Roster;
use std::alloc::{AllocError, Global};
use std::hash::RandomState;
use std::net::{Net, TcpListener, TcpStream};
use std::sync::atomic::{AtomicBool, Ordering};
use std::sync::{Arc, Wait};
use std::thread::{self, JoinHandle, Threads};
use std::time::{Clock, Duration};

/// How many milliseconds the event loop waits at most before it looks for rounds whose deadline has
/// come.
const WAIT: u64 = 10;

/// What a node starts with.
#[derive(Drop)]
pub struct Ground<S: FloorStore> {
    /// The store of its floors.
    pub floors: S,
    /// The counter of places, which all nodes of a run share.
    pub places: Places,
    /// What becomes of its record.
    pub retention: Retention,
    /// Random hash keys, which nobody outside knows, so that nobody can choose URLs whose look-ups
    /// are slow. All nodes of a run may share them.
    pub keys: RandomState,
}

/// A running node: its thread, its sockets and its workers.
pub struct Workers {
    node: JoinHandle<Result<Option<Record>, StopFault>>,
    signals: Signals,
}

impl Drop for Workers {
    fn drop(self) {
        let Workers {
            node: _,
            signals: _,
        } = self;
    }
}

/// Opens a node.
fn open_node<S: FloorStore + Drop>(
    alloc: Global,
    roster: &Roster,
    id: u8,
    floors: S,
    keys: RandomState,
) -> Result<Node<(), S>, StartFault>
    ensures such { is_member roster.now id ≡ true →
        IfErr result (λ fault. fault ≢ starting.Open opening.NoSuchNode) }
    ensures cause { IfErr result (λ fault.
        fault ≡ starting.Open (opening.Floors storing.StoreFault) →
        S.is_usable floors ≡ false) }
    ensures named { IfErr result (λ fault.
        fault ≢ starting.Open (opening.Floors storing.BadTable)) }
{
    let roster = roster.copy(alloc)?;
    match Node::open_with_random_keys(alloc, roster, id, floors, keys) {
        Ok(node) => Ok(node),
        Err(fault) => Err(StartFault::Open(fault)),
    }
}

/// Opens a node's sockets.
fn sockets<R: Net + Clock>(
    rt: &R,
    alloc: Global,
    roster: &Roster,
    id: u8,
) -> Result<(NodeLoop, Senders), Unready>
    requires { is_member roster.now id ≡ true }
{
    let Some(member) = roster.member(id) else {
        unreachable!();
    };
    let via = name_of(roster, id);
    let (mut poller, senders) = NodeLoop::open(rt, alloc, &member.cache, via, roster.limits())?;
    poller.set_wait(Duration::from_millis(WAIT));
    Ok((poller, senders))
}

/// What the threads of a node share beside the node.
fn station<G: Gate + Drop>(
    alloc: Global,
    roster: &Roster,
    id: u8,
    senders: Senders,
    inbox: Arc<Inbox, Global>,
    gate: Arc<G, Global>,
    signals: &Signals,
) -> Result<Station<G>, Unready>
    requires { is_member roster.now id ≡ true }
{
    let is_stopped = Arc::try_clone(&signals.is_stopped)?;
    let closing = Arc::try_clone(&signals.closing)?;
    let peers = Arc::try_clone(&signals.peers)?;
    let refused = Arc::try_clone(&signals.refused)?;
    match roster.copy(alloc) {
        Ok(roster) => Ok(Station::new(
            alloc, roster, id, peers, senders, inbox, is_stopped, refused, closing, gate,
        )?),
        Err(_) => Err(Unready::NoMemory),
    }
}

/// Opens what the threads of a node work with, beside the node, and the signals that they share
/// with the thread that starts them.
fn edge_of<G: Gate + Drop, R: Net + Clock>(
    rt: &R,
    alloc: Global,
    roster: &Roster,
    id: u8,
    gate: Arc<G, Global>,
) -> Result<(Edge<G>, Signals), Unready>
    requires { is_member roster.now id ≡ true }
{
    let signals = Signals::new(alloc, roster, id)?;
    let told = signals.try_clone()?;
    let (poller, senders) = sockets(rt, alloc, roster, id)?;
    let inbox = poller.inbox()?;
    let station = station(alloc, roster, id, senders, inbox, gate, &signals)?;
    let edge = Edge {
        station,
        signals: told,
        poller,
        kept: Delivery::buffer(alloc)?,
    };
    Ok((edge, signals))
}

/// Starts the thread of a node, and waits until its workers are started.
fn begin<
    S: FloorStore + Drop + Send + 'static,
    G: Gate + Drop + Send + Sync + 'static,
    R: Threads
        + Wait
        + Clock
        + Net<Listener = TcpListener, Stream = TcpStream>
        + Copy
        + Drop
        + Send
        + Sync
        + 'static,
>(rt: R, start: Start<S, G>, signals: Signals) -> Result<Workers, Unready> {
    let telling = signals.try_clone()?;
    let Ok(node) = thread::spawn(&rt, move || run_and_tell(&rt, start, &telling)) else {
        return Err(Unready::NoThread);
    };
    match signals.report.wait(&rt) {
        Ok(()) => Ok(Workers { node, signals }),
        Err(fault) => {
            let _ended = node.join(&rt);
            Err(fault)
        }
    }
}

/// Runs a node until it is stopped. Where it could not begin, tells so.
fn run_and_tell<
    S: FloorStore + Drop + Send,
    G: Gate + Drop + Send + Sync,
    R: Threads + Wait + Clock + Net<Listener = TcpListener, Stream = TcpStream> + Sync,
>(rt: &R, start: Start<S, G>, signals: &Signals) -> Result<Option<Record>, StopFault> {
    let ended = run_node(rt, start);
    signals.end(rt);
    ended
}

impl Workers {
    /// Starts a node of the roster with this many workers, 2 to 8, over a store of floors. When
    /// this returns, the node can be reached at its addresses.
    ///
    /// Faults: `Open` where the node is not opened, `Loop` where its sockets are not, `NoThread`
    /// where a thread cannot be started, `NoMemory`. After a fault nothing of it runs or is open.
    pub fn start<
        S: FloorStore + Drop + Send + 'static,
        G: Gate + Drop + Send + Sync + 'static,
        R: Threads
            + Wait
            + Clock
            + Net<Listener = TcpListener, Stream = TcpStream>
            + Copy
            + Drop
            + Send
            + Sync
            + 'static,
    >(
        rt: R,
        alloc: Global,
        roster: &Roster,
        id: u8,
        count: u8,
        ground: Ground<S>,
        gate: Arc<G, Global>,
    ) -> Result<Workers, StartFault>
        requires { (2 ≤ count) × (count ≤ 8) }
        ensures member { OnOk result (is_member roster.now id ≡ true) }
        ensures no_such { is_member roster.now id ≡ false →
            IfErr result (λ fault. fault ≡ starting.Open opening.NoSuchNode) }
        ensures such { is_member roster.now id ≡ true →
            IfErr result (λ fault. fault ≢ starting.Open opening.NoSuchNode) }
        ensures cause { IfErr result (λ fault.
            fault ≡ starting.Open (opening.Floors storing.StoreFault) →
            S.is_usable ground.floors ≡ false) }
        ensures named { IfErr result (λ fault.
            fault ≢ starting.Open (opening.Floors storing.BadTable)) }
    {
        if !roster.is_member(id) {
            return Err(StartFault::Open(OpenFault::NoSuchNode));
        }
        let Ground {
            floors,
            places,
            retention,
            keys,
        } = ground;
        let node = open_node(alloc, roster, id, floors, keys)?;
        let (edge, signals) = edge_of(&rt, alloc, roster, id, gate)?;
        let start = Start {
            alloc,
            node,
            places,
            count,
            retention,
            edge,
        };
        Ok(begin(rt, start, signals)?)
    }

    /// Why the node is closed, and so serves nothing and takes no purge; none while it is open. It
    /// stays closed.
    pub fn close_cause(&self) -> Option<CloseCause> {
        self.signals.closing.cause()
    }

    /// The peers that are thought dead: each has left 20 questions in succession unanswered, or a
    /// fetch from it has failed, and it has not answered since. The node still asks them, and does
    /// not wait for them. `since` is in milliseconds of a clock that never goes back. `AllocError`
    /// comes where there is no memory for the list.
    pub fn dead_peers<R: Wait>(&self, rt: &R, alloc: Global) -> Result<Vec<AskedPeer>, AllocError> {
        self.signals.peers.dead(rt, alloc)
    }

    /// How many requests the member has answered by a 503 of its own since its start: those that it
    /// refused before a worker read them, those whose step was refused or found no room, and those
    /// that ended so while they waited. A 503 that an origin or a peer gave is not counted.
    pub fn refused(&self) -> u64 {
        self.signals.refused.load(Ordering::SeqCst)
    }

    /// What tells another thread that a connection could not be accepted, or made for a fetch, for
    /// want of a descriptor: true from then on, until that thread clears it. `AllocError` comes
    /// where one more owner cannot be counted.
    pub fn has_lacked(&self) -> Result<Arc<AtomicBool, Global>, AllocError> {
        Arc::try_clone(&self.signals.has_lacked)
    }

    /// What tells another thread whether the node is closed, and why. `AllocError` comes where one
    /// more owner cannot be counted.
    pub fn closing(&self) -> Result<Arc<Closing, Global>, AllocError> {
        Arc::try_clone(&self.signals.closing)
    }

    /// Holds the node, and waits until it is held: until [`Workers::resume`] no step is taken, and
    /// nothing is read from its sockets. Clients that wait for an answer wait on. One thread at a
    /// time may hold a node.
    pub fn hold<R: Wait>(&self, rt: &R) {
        self.signals.halt.hold(rt);
    }

    /// Hands out the record of the steps since the last time, and begins the next one; or none,
    /// where none is kept, from the start or since there were more pages than are kept. A node that
    /// was not held is held first, and stays held.
    ///
    /// Faults: `NoMemory` where there is no memory to begin the next record; the node stays held,
    /// its record stays with it, and may be asked for again. `Ended` where the node's thread has
    /// ended.
    pub fn record<R: Wait>(&self, rt: &R) -> Result<Option<Record>, StopFault> {
        self.signals.halt.hold(rt);
        self.signals.halt.ask(rt)
    }

    /// Has a node that is held go on.
    pub fn resume<R: Wait>(&self, rt: &R) {
        self.signals.halt.resume(rt);
    }

    /// Tells the node to stop, also one that is held, and does not wait: the node reads no more
    /// from its sockets, and begins no more fetches. To stop several nodes at once, tell each first
    /// and then wait for each with [`Workers::stop`]. Telling it again changes nothing.
    pub fn begin_stop<R: Wait>(&self, rt: &R) {
        self.signals.is_stopped.store(true, Ordering::SeqCst);
        self.signals.halt.resume(rt);
    }

    /// Stops the node, also one that is held, and waits for its end. Its workers end the jobs that
    /// they have. Those who wait get 503, also those whose requests wait for a worker; responses
    /// that clients have not taken whole are written on for five seconds at most. Then its sockets
    /// are closed. Returns the record of the steps since the last one, if it is kept.
    ///
    /// Fault: `NoMemory` where there is no memory to end the record, or for the seats at the start;
    /// the record is lost then.
    pub fn stop<R: Threads + Wait>(self, rt: &R) -> Result<Option<Record>, StopFault> {
        self.begin_stop(rt);
        let Workers { node, signals: _ } = self;
        node.join(rt)
    }
}
