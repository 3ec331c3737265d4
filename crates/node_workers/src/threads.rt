//! The threads of a node: its workers, and its event loop.
ghost use Rattle.std.specs.Thread.{IsSend};

use crate::fault::{StopFault, Unready};
use crate::halt::{Halt, TakenRecord};
use crate::signals::Signals;
use cluster_jobs::{Job, Jobs, Pass, Run};
use cluster_service::{
    Gate, Questions, Seated, Station, Worker, again, milliseconds, refuse_job, tell_late,
};
use cluster_sockets::{Delivery, NodeLoop};
use floor_rules::FloorStore;
use node_bytes::Stepper;
use node_seats::{AtSeat, Held, NodeRun, Seat, SharedNode};
use std::alloc::Global;
use std::net::{Net, TcpListener, TcpStream};
use std::sync::Wait;
use std::sync::atomic::Ordering;
use std::thread::{self, Scope, Threads};
use std::time::Clock;
use std::vec::IntoIter;

/// How many timers are queued before one poll of the loop at most.
const MOST_TIMERS: u32 = 256;

/// What the threads of a node share.
#[derive(Drop)]
pub(crate) struct Shared<'a, Q: Run, S: FloorStore + Drop, J: NodeRun, G: Gate + Drop, R> {
    /// The allocator.
    pub(crate) alloc: Global,
    /// The clock, the network and the locks of the system.
    pub(crate) rt: &'a R,
    /// What is shared beside the node.
    pub(crate) station: &'a Station<G>,
    /// What is shared with the thread that started the node.
    pub(crate) signals: &'a Signals,
    /// The job queue.
    pub(crate) jobs: &'a Jobs<Q>,
    /// The node, under its lock.
    pub(crate) node: &'a SharedNode<S, J>,
}

/// What takes the steps of a node by this seat, for the thread that owns it. `kept` is where short
/// pieces of a response are kept.
fn seated<'a, Q: Run, S: FloorStore + Drop, J: NodeRun, G: Gate + Drop, R: Wait>(
    shared: &Shared<'a, Q, S, J, G, R>,
    seat: Seat<J>,
    kept: Vec<u8>,
) -> Seated<'a, AtSeat<'a, S, J, R>, G, R> {
    Seated {
        rt: shared.rt,
        station: shared.station,
        node: AtSeat {
            rt: shared.rt,
            node: shared.node,
            seat,
        },
        kept,
    }
}

/// Has a worker do jobs until the node is stopped.
fn do_jobs<N: Stepper + Drop, Q: Run, G: Gate + Drop, R: Wait + Clock>(
    worker: &mut Worker<'_, N, G, R>,
    jobs: &Jobs<Q>,
    mut pass: Pass<Q>,
) {
    let (rt, station) = (worker.seated.rt, worker.seated.station);
    for _ in rt.forever() {
        if station.is_stopped() {
            break;
        }
        let (after, job) = jobs.take(rt, pass);
        pass = after;
        match job {
            Some(job) => worker.do_job(job),
            None => {
                if !jobs.wait(rt) {
                    break;
                }
            }
        }
    }
}

/// Runs the thread of a worker, which owns this seat and this buffer.
fn work<Q: Run, S: FloorStore + Drop, J: NodeRun, G: Gate + Drop, R: Wait + Clock>(
    shared: &Shared<'_, Q, S, J, G, R>,
    seat: Seat<J>,
    kept: Vec<u8>,
    pass: Pass<Q>,
) {
    let mut worker = Worker {
        seated: seated(shared, seat, kept),
    };
    do_jobs(&mut worker, shared.jobs, pass);
}

/// Starts this many workers, each with a seat, a pass and a buffer of its own. Returns the pass
/// that is left, and why not all were started, if so.
fn start_workers<
    's,
    E,
    Q: Run + Send + Sync,
    S: FloorStore + Drop + Send,
    J: NodeRun + Send + Sync,
    G: Gate + Drop + Send + Sync,
    R: Threads + Wait + Clock + Net<Listener = TcpListener, Stream = TcpStream> + Sync,
>(
    scope: &Scope<'s, E>,
    shared: &'s Shared<'s, Q, S, J, G, R>,
    count: u8,
    seats: &mut IntoIter<Seat<J>>,
    mut pass: Pass<Q>,
) -> (Pass<Q>, Result<(), Unready>) {
    let mut started = Ok(());
    for _number in 0..count {
        let Some(seat) = seats.next() else {
            return (pass, Err(Unready::NoThread));
        };
        let Ok(kept) = Delivery::buffer(shared.alloc) else {
            return (pass, Err(Unready::NoMemory));
        };
        let (left, own) = shared.jobs.split(shared.rt, pass);
        pass = left;
        let spawned = scope.spawn(move || work(shared, seat, kept, own));
        if spawned.is_err() {
            started = Err(Unready::NoThread);
        }
    }
    (pass, started)
}

/// Queues one of the steps that found no memory, to be taken again; one that finds its lane full is
/// noted again. It is called once at each pass of the loop, and an idle loop passes every 10 ms. So
/// within about ten seconds after memory is back the steps of all 1,024 requests that may be
/// pending are taken, and they give back their places as others do. While memory lacks, one step a
/// pass is tried in vain.
fn put_owed<Q: Run, G: Drop, R: Wait>(
    rt: &R,
    station: &Station<G>,
    jobs: &Jobs<Q>,
    pass: Pass<Q>,
) -> Pass<Q> {
    let Some(step) = station.tables.take_owed(rt) else {
        return pass;
    };
    let (pass, put) = jobs.put(rt, pass, again(step));
    if put.is_err() {
        station.tables.note_owed(rt, step);
    }
    pass
}

/// Queues a timer for each round whose deadline has come, 256 at most. A timer that finds its lane
/// full is late: it is put first the next time.
fn put_due<Q: Run, G: Drop, R: Wait + Clock>(
    rt: &R,
    station: &Station<G>,
    jobs: &Jobs<Q>,
    mut pass: Pass<Q>,
    late: &mut Option<u32>,
) -> Pass<Q> {
    let now = milliseconds(rt);
    for _ in 0..MOST_TIMERS {
        let Some(serial) = late.take().or_else(|| station.tables.due(rt, now)) else {
            break;
        };
        let (after, put) = jobs.put(rt, pass, Job::Timer { serial });
        pass = after;
        if put.is_err() {
            *late = Some(serial);
            break;
        }
    }
    pass
}

/// Takes out the record of a node that is held.
fn record_of<S: FloorStore + Drop, J: NodeRun>(held: &mut Held<'_, S, J>) -> TakenRecord {
    match held.take_record() {
        Ok(record) => Ok(record),
        Err(_) => Err(StopFault::NoMemory),
    }
}

/// Holds the node under its lock until it is to go on, and gives its record whenever it is asked
/// for.
fn hold<S: FloorStore + Drop, J: NodeRun, R: Wait>(rt: &R, halt: &Halt, node: &SharedNode<S, J>) {
    let mut held = node.hold(rt);
    for _ in rt.forever() {
        if !halt.stand_by(rt) {
            break;
        }
        halt.give(rt, record_of(&mut held));
    }
}

/// Answers 503 to the clients whose requests wait for a worker, at a node that is to stop: no
/// worker takes them. Nothing is put any more, so this ends.
fn refuse_rest<Q: Run, G: Gate + Drop, R: Wait + Clock>(
    rt: &R,
    station: &Station<G>,
    jobs: &Jobs<Q>,
    mut pass: Pass<Q>,
    kept: &mut Vec<u8>,
) {
    for _ in rt.forever() {
        let (after, job) = jobs.take(rt, pass);
        pass = after;
        match job {
            Some(job) => refuse_job(rt, station, kept, job),
            None => break,
        }
    }
}

/// Polls the event loop until the node is to stop, and holds the node whenever that is wanted. Then
/// answers 503 to the clients whose requests wait for a worker.
fn poll_until_stopped<
    Q: Run,
    S: FloorStore + Drop,
    J: NodeRun,
    G: Gate + Drop,
    R: Net + Wait + Clock,
>(
    shared: &Shared<'_, Q, S, J, G, R>,
    seat: Seat<J>,
    poller: &mut NodeLoop,
    kept: &mut Vec<u8>,
    mut pass: Pass<Q>,
) {
    let (rt, station, jobs) = (shared.rt, shared.station, shared.jobs);
    let halt = &shared.signals.halt;
    let node = shared.node;
    let mut questions = Questions::new(station, AtSeat { rt, node, seat });
    let mut late = None;
    for _ in rt.forever() {
        if station.is_stopped() {
            break;
        }
        if halt.is_wanted(rt) {
            hold(rt, halt, shared.node);
        }
        let (after, _) = poller.poll_once(rt, jobs, pass, &mut questions);
        // (what came before a deadline is queued before it)
        let after = put_due(rt, station, jobs, after, &mut late);
        pass = put_owed(rt, station, jobs, after);
        tell_late(rt, station, kept);
        if poller.has_lacked_descriptors() {
            shared.signals.has_lacked.store(true, Ordering::SeqCst);
        }
        let refused = poller.take_refused();
        if refused > 0 {
            let _ = shared.signals.refused.fetch_add(refused, Ordering::SeqCst);
        }
    }
    refuse_rest(rt, station, jobs, pass, kept);
}

/// Runs the workers and the event loop until the node is to stop. First tells whether all threads
/// were started; where one was not, the others end at once. `count` is the number of workers. Each
/// thread owns one of the seats: the first are the workers', and the last is the event loop's.
/// `kept` is where the thread of the event loop keeps short pieces of a response.
pub(crate) fn run_threads<
    Q: Run + Send + Sync,
    S: FloorStore + Drop + Send,
    J: NodeRun + Send + Sync,
    G: Gate + Drop + Send + Sync,
    R: Threads + Wait + Clock + Net<Listener = TcpListener, Stream = TcpStream> + Sync,
>(
    shared: &Shared<'_, Q, S, J, G, R>,
    count: u8,
    seats: Vec<Seat<J>>,
    poller: &mut NodeLoop,
    kept: &mut Vec<u8>,
    pass: Pass<Q>,
) {
    let (rt, jobs) = (shared.rt, shared.jobs);
    let report = &shared.signals.report;
    let mut seats = seats.into_iter();
    thread::scope(
        thread::scope_env(),
        rt,
        move |scope|
            requires { IsSend Q.row × IsSend S.row × IsSend J.row × IsSend G.row }
        {
            let (pass, started) = start_workers(scope, shared, count, &mut seats, pass);
            match (started, seats.next()) {
                (Ok(()), Some(seat)) => {
                    report.tell(rt, Ok(()));
                    poll_until_stopped(shared, seat, poller, kept, pass);
                }
                (Ok(()), None) => report.tell(rt, Err(Unready::NoThread)),
                (Err(fault), _) => report.tell(rt, Err(fault)),
            }
            jobs.end(rt);
        },
    );
}
