//! The thread of a node, from start to end.
ghost use Rattle.std.specs.Prelude.{◌≡◌, ◌<◌, Some};
ghost use Rattle.node_seats.specs.Beginning.{beginning_of};

use crate::fault::StopFault;
use crate::signals::Signals;
use crate::threads::{Shared, run_threads};
use cluster_jobs::order::Step;
use cluster_jobs::{Jobs, Pass, Run};
use cluster_service::{Gate, Station, refuse_all};
use cluster_sockets::NodeLoop;
use floor_rules::FloorStore;
use node_book::{NodeEntry, Record};
use node_core::Node;
use node_seats::{NodeRun, Places, Retention, Seat, SharedNode};
use std::alloc::Global;
use std::marker::Brand;
use std::net::{Net, TcpListener, TcpStream};
use std::sync::Wait;
use std::thread::Threads;
use std::time::Clock;
use values_history::NewHistory;

/// What the thread of a node begins with: a node that is opened, and what its threads work with.
#[derive(Drop)]
pub(crate) struct Start<S: FloorStore, G: Drop> {
    pub(crate) alloc: Global,
    /// The node.
    pub(crate) node: Node<(), S>,
    /// Where each call draws its place.
    pub(crate) places: Places,
    /// How many workers.
    pub(crate) count: u8,
    /// What becomes of its record.
    pub(crate) retention: Retention,
    /// What its threads share beside the node.
    pub(crate) edge: Edge<G>,
    pub(crate) ghost some_seat: { 0 < count },
}

/// What the threads of a node work with, beside the node.
#[derive(Drop)]
pub(crate) struct Edge<G: Drop> {
    /// What they share beside the node.
    pub(crate) station: Station<G>,
    /// What they share with the thread that started the node.
    pub(crate) signals: Signals,
    /// The event loop.
    pub(crate) poller: NodeLoop,
    /// Where the node's thread keeps short pieces of a response while it is written.
    pub(crate) kept: Vec<u8>,
}

/// Runs the threads of a node until it is stopped. Then answers 503 to those who still wait, and
/// writes the responses that are under way on, for five seconds at most.
fn run_edge<
    Q: Run + Send + Sync,
    J: NodeRun + Send + Sync,
    S: FloorStore + Drop + Send,
    G: Gate + Drop + Send + Sync,
    R: Threads + Wait + Clock + Net<Listener = TcpListener, Stream = TcpStream> + Sync,
>(
    rt: &R,
    count: u8,
    edge: Edge<G>,
    node: &SharedNode<S, J>,
    seats: Vec<Seat<J>>,
    queue: (Jobs<Q>, Pass<Q>),
    alloc: Global,
) {
    let Edge {
        station,
        signals,
        mut poller,
        mut kept,
    } = edge;
    let (jobs, pass) = queue;
    let shared = Shared {
        alloc,
        rt,
        station: &station,
        signals: &signals,
        jobs: &jobs,
        node,
    };
    run_threads(&shared, count, seats, &mut poller, &mut kept, pass);
    refuse_all(rt, &station, &mut kept);
    poller.finish(rt);
}

/// The record of a node that is stopped.
fn record_of<S: FloorStore + Drop, J: NodeRun, R: Wait>(
    rt: &R,
    node: &SharedNode<S, J>,
) -> Result<Option<Record>, StopFault> {
    match node.hold(rt).take_record() {
        Ok(record) => Ok(record),
        Err(_) => Err(StopFault::NoMemory),
    }
}

/// Runs a node under the names of its queue and of its history.
fn run_named<
    Q: Run + Send + Sync,
    J: NodeRun + Send + Sync,
    S: FloorStore + Drop + Send,
    G: Gate + Drop + Send + Sync,
    R: Threads + Wait + Clock + Net<Listener = TcpListener, Stream = TcpStream> + Sync,
>(
    rt: &R,
    start: Start<S, G>,
    steps: NewHistory<Step>,
    history: NewHistory<NodeEntry>,
) -> Result<Option<Record>, StopFault>
    requires queue { steps.seen.book ≡ Q.book }
    requires book { history.seen.book ≡ J.book }
    requires beginning { J.beginning ≡ Some (beginning_of start.node) }
{
    let Start {
        alloc,
        node,
        places,
        count,
        retention,
        edge,
    } = start;
    // (one seat for each worker, and one for the thread of the event loop)
    let seats = count.saturating_add(1);
    let (head, front) = history.named::<J>();
    let Ok(queue) = Jobs::<Q>::new(alloc, steps) else {
        return Err(StopFault::NoMemory);
    };
    match SharedNode::<S, J>::open(alloc, node, seats, retention, head, front, places) {
        Ok((node, seats)) => {
            run_edge::<Q, J, S, G, R>(rt, count, edge, &node, seats, queue, alloc);
            record_of(rt, &node)
        }
        Err(_) => Err(StopFault::NoMemory),
    }
}

/// Runs a node until it is stopped, and gives its record, if one is kept. Those who still wait get
/// 503.
pub(crate) fn run_node<
    S: FloorStore + Drop + Send,
    G: Gate + Drop + Send + Sync,
    R: Threads + Wait + Clock + Net<Listener = TcpListener, Stream = TcpStream> + Sync,
>(rt: &R, start: Start<S, G>) -> Result<Option<Record>, StopFault> {
    run_named::<Brand, Brand, S, G, R>(rt, start, NewHistory::new(), NewHistory::new())
}
