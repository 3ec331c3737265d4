//! A hierarchy that runs in one process.
ghost use Rattle.std.specs.Prelude.{◌≡◌, ◌≤◌, ◌&&◌, nat_le, IfOk};
ghost use Rattle.node_workers.specs.Names.{start_fault_name};
ghost use Rattle.cluster_process.specs.Kept.{HasRun};
ghost use Rattle.cluster_process.specs.Names.{cluster_fault_name};

use crate::fault::ClusterFault;
use crate::judge::Judge;
use crate::kept::{Memory, RecordedRun};
use crate::master_thread::MasterThread;
use crate::node_floors::NodeFloors;
use crate::stores::Stores;
use crate::watch::Watch;
use cluster_console::{Ended, answer_lines};
use cluster_streams::StreamPoll;
use floor_rules::FloorStore;
use node_seats::{Places, Retention};
use node_workers::{Ground, LoopFault, NoGate, StartFault, Workers};
use purge_rules::PurgeStore;
use roster::Roster;
use std::alloc::Global;
use std::hash::RandomState;
use std::io::{Read, Write};
use std::net::{Net, TcpListener, TcpStream};
use std::random::RandomSource;
use std::sync::{Arc, Wait};
use std::thread::Threads;
use std::time::Clock;

/// Whether a member may have this many workers: 2 to 8.
pub fn is_worker_count(workers: u8) -> bool
    ensures { result ≡ nat_le 2 workers && nat_le workers 8 }
{
    2 <= workers && workers <= 8
}

/// A member that runs.
#[derive(Drop)]
pub(crate) struct Running {
    pub(crate) id: u8,
    pub(crate) workers: Workers,
}

/// What all members start with.
#[derive(Drop)]
struct Common<'a> {
    roster: &'a Roster,
    workers: u8,
    history: u32,
    places: &'a Places,
    ghost enough: { 2 ≤ workers },
    ghost few: { workers ≤ 8 },
}

/// Runs the hierarchy of a roster in this process, over stores that
/// [`open_stores`](crate::open_stores) has opened, until the input ends, cannot be read, or has a
/// line `quit`: one thread for the master, and `workers` workers for each member.
///
/// The lines are those of [`answer_lines`](cluster_console::answer_lines). Once the members run,
/// the master sends afresh what is pending, and a thread says on standard error which members
/// close. Where the input has no line, standard error says so.
///
/// For `check`, what the members and the master did is kept in memory: `history` pages of each
/// member and of the master, of 4,096 steps or calls each. A page is shorter where a member's
/// events have brought 4 MiB along, or the calls of the master weigh 4,096: each call as one, and
/// 1,024 octets of its URL or list as one more. All that is kept may together not be more than the
/// steps and calls of these pages. Four floors, copies or pending requests in the opening or
/// closing state of a record count as one, and so do 1,024 octets that events, URLs and lists have
/// brought along. Where there would be more, all of it is dropped, and `check` prints `forgotten`
/// from then on. With 0 only the open page of the master is kept.
///
/// What is kept at the end is returned, if it is all that was done until then; each verdict that
/// was printed is the one on a front of it, which was gathered when that line came.
///
/// Faults, the first that comes: those of the master's purges, its socket and its thread; of the
/// members' floors, sockets and threads, by ascending id, and of the thread that watches them;
/// `Input` where the input could not be read, and `Output` where some answer could not be written,
/// once each line was answered. After any of them every socket and store is closed, and every
/// thread has ended, but for the one that watches the members where standard error has taken
/// nothing for a second: it has none of them, and ends with the process.
pub fn run_cluster<
    R: Threads
        + Wait
        + Clock
        + RandomSource
        + Eprint
        + Net<Listener = TcpListener, Stream = TcpStream>
        + Copy
        + Drop
        + Send
        + Sync
        + 'static,
    I: Read + Drop,
    O: Write,
>(
    rt: R,
    alloc: Global,
    roster: &Roster,
    stores: Stores,
    workers: u8,
    history: u32,
    input: I,
    output: &mut O,
) -> Result<Option<RecordedRun>, ClusterFault>
    requires { (2 ≤ workers) × (workers ≤ 8) }
    ensures { IfOk result (HasRun roster.now history (I.remaining input) (O.contents output.old)
        (O.contents output.new)) }
{
    let places = Places::new(alloc)?;
    let Stores { nodes, purges } = stores;
    let master = MasterThread::start(rt, alloc, roster, purges, places.copy()?, history)?;
    let common = Common {
        roster,
        workers,
        history,
        places: &places,
    };
    let ended = run_nodes(rt, alloc, common, nodes, &master, input, output);
    master.stop(&rt);
    ended
}

/// Starts the members beside the master, answers the lines, and stops the members. Returns what is
/// kept of the run.
fn run_nodes<
    F: FloorStore + Drop + Send + 'static,
    P: PurgeStore,
    R: Threads
        + Wait
        + Clock
        + RandomSource
        + Eprint
        + Net<Listener = TcpListener, Stream = TcpStream>
        + Copy
        + Drop
        + Send
        + Sync
        + 'static,
    I: Read + Drop,
    O: Write,
>(
    rt: R,
    alloc: Global,
    common: Common<'_>,
    nodes: Vec<NodeFloors<F>>,
    master: &MasterThread<P>,
    input: I,
    output: &mut O,
) -> Result<Option<RecordedRun>, ClusterFault>
    ensures { IfOk result (HasRun common.entry.roster.now common.entry.history
        (I.remaining input) (O.contents output.old) (O.contents output.new)) }
{
    let mut running = Vec::with_capacity(alloc, nodes.len())?;
    let ended = match start_nodes(rt, alloc, &common, nodes, &mut running) {
        Ok(()) => answer_watched(rt, alloc, &common, &running, master, input, output),
        Err(fault) => Err(fault),
    };
    let stopped = stop_nodes(&rt, running);
    let kept = ended?;
    stopped?;
    Ok(kept)
}

/// Has the master begin to send, and answers the lines while the members are watched.
fn answer_watched<
    P: PurgeStore,
    R: Threads + Wait + Clock + RandomSource + Eprint + Net + Copy + Drop + Send + Sync + 'static,
    I: Read + Drop,
    O: Write,
>(
    rt: R,
    alloc: Global,
    common: &Common<'_>,
    running: &[Running],
    master: &MasterThread<P>,
    input: I,
    output: &mut O,
) -> Result<Option<RecordedRun>, ClusterFault>
    ensures { IfOk result (HasRun common.now.roster.now common.now.history (I.remaining input)
        (O.contents output.old) (O.contents output.new)) }
{
    // (what was sent to members before they ran is lost)
    master.sender.send_afresh(&rt, master.last(&rt));
    let watch = Watch::start(rt, alloc, running)?;
    let ended = answer(&rt, alloc, common, running, master, &watch, input, output);
    begin_stop(&rt, running);
    watch.stop(&rt);
    ended
}

/// Starts the members in the order of their stores. Those that run are in the row, also after a
/// fault.
fn start_nodes<
    F: FloorStore + Drop + Send + 'static,
    R: Threads
        + Wait
        + Clock
        + RandomSource
        + Net<Listener = TcpListener, Stream = TcpStream>
        + Copy
        + Drop
        + Send
        + Sync
        + 'static,
>(
    rt: R,
    alloc: Global,
    common: &Common<'_>,
    nodes: Vec<NodeFloors<F>>,
    running: &mut Vec<Running>,
) -> Result<(), ClusterFault> {
    for NodeFloors { id, floors, .. } in nodes {
        running.reserve(1)?;
        let workers = start_node(rt, alloc, common, id, floors)?;
        if running.push(Running { id, workers }).is_err() {
            return Err(ClusterFault::NoMemory);
        }
    }
    Ok(())
}

/// What becomes of the steps of a member of which this many pages are kept.
fn retention_of(most: u32) -> Retention {
    if most == 0 {
        Retention::Dropped
    } else {
        Retention::UpTo(most)
    }
}

/// Starts one member.
fn start_node<
    S: FloorStore + Drop + Send + 'static,
    R: Threads
        + Wait
        + Clock
        + RandomSource
        + Net<Listener = TcpListener, Stream = TcpStream>
        + Copy
        + Drop
        + Send
        + Sync
        + 'static,
>(rt: R, alloc: Global, common: &Common<'_>, id: u8, floors: S) -> Result<Workers, ClusterFault> {
    let Ok(keys) = RandomState::new(&rt) else {
        return Err(ClusterFault::System);
    };
    let ground = Ground {
        floors,
        places: common.places.copy()?,
        retention: retention_of(common.history),
        keys,
    };
    let Ok(gate) = Arc::new(alloc, NoGate) else {
        return Err(ClusterFault::NoMemory);
    };
    match Workers::start(rt, alloc, common.roster, id, common.workers, ground, gate) {
        Ok(workers) => Ok(workers),
        Err(fault) => Err(start_fault(common.roster, id, fault)),
    }
}

/// Why a member is not started, with its ports where a socket is at fault.
fn start_fault(roster: &Roster, id: u8, fault: StartFault) -> ClusterFault
    ensures { cluster_fault_name result ≡ start_fault_name fault }
{
    match (fault, roster.member(id)) {
        (StartFault::Loop(LoopFault::Io), Some(member)) => ClusterFault::Ports {
            id,
            http: member.cache.http.port,
            icp: member.cache.icp.port,
            htcp: member.cache.htcp.port,
        },
        (fault, _) => ClusterFault::Node { id, fault },
    }
}

/// Tells each member to stop, so that all end at the same time.
fn begin_stop<R: Wait>(rt: &R, running: &[Running]) {
    for node in running {
        node.workers.begin_stop(rt);
    }
}

/// Stops the members, and waits for each of them. Returns the first fault.
fn stop_nodes<R: Threads + Wait>(rt: &R, running: Vec<Running>) -> Result<(), ClusterFault> {
    begin_stop(rt, running.as_slice());
    let mut stopped = Ok(());
    for Running { id, workers } in running {
        if let Err(fault) = workers.stop(rt) {
            stopped = stopped.and(Err(ClusterFault::Stop { id, fault }));
        }
    }
    stopped
}

/// Answers the lines of the input, and returns what is kept of the run.
fn answer<I: Read + Drop, O: Write, S: PurgeStore, R: Wait + Clock + RandomSource + Net>(
    rt: &R,
    alloc: Global,
    common: &Common<'_>,
    nodes: &[Running],
    running: &MasterThread<S>,
    watch: &Watch,
    input: I,
    output: &mut O,
) -> Result<Option<RecordedRun>, ClusterFault>
    ensures { IfOk result (HasRun common.now.roster.now common.now.history (I.remaining input)
        (O.contents output.old) (O.contents output.new)) }
{
    let (Ok(poll), Ok(keys)) = (StreamPoll::new(rt, alloc), RandomState::new(rt)) else {
        return Err(ClusterFault::System);
    };
    let MasterThread { master, sender, .. } = running;
    let roster = common.roster;
    let judge = Judge {
        nodes,
        master,
        memory: Memory::new(alloc, nodes.len(), common.history),
        keys,
    };
    let (judge, ended) = answer_lines(
        rt, alloc, roster, master, sender, judge, poll, input, output,
    );
    match ended {
        Ended::Answered => Ok(judge.into_kept(rt)),
        Ended::NoLine => {
            watch.say_no_line();
            Ok(judge.into_kept(rt))
        }
        Ended::NoMemory => Err(ClusterFault::NoMemory),
        Ended::OutputFailed => Err(ClusterFault::Output),
        Ended::InputFailed => Err(ClusterFault::Input),
    }
}
