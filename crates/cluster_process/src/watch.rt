//! The thread that writes standard error: which members have closed, which lack descriptors, and
//! that the input was at its end from the start.
use crate::cluster::Running;
use crate::fault::ClusterFault;
use crate::master_thread::flag;
use node_workers::{CloseCause, Closing};
use std::alloc::Global;
use std::sync::atomic::{AtomicBool, Ordering};
use std::sync::{Arc, Wait};
use std::thread::{self, JoinHandle, Threads};
use std::time::{Clock, Duration};

/// How many milliseconds pass from one look at the members to the next.
const PAUSE: u64 = 100;

/// How many looks pass at least between two lines on a member's want of descriptors: a second.
const LOOKS: u32 = 10;

/// How many milliseconds pass from one look at the thread that is to end to the next.
const STEP: u64 = 10;

/// How many of these looks are made: for a second.
const STEPS: u32 = 100;

/// A member that is watched.
struct Watched {
    id: u8,
    closing: Arc<Closing, Global>,
    /// Whether it was closed at an earlier look.
    was_closed: bool,
    is_told: bool,
    /// Whether a connection could not be accepted, or made for a fetch, for want of a descriptor.
    has_lacked: Arc<AtomicBool, Global>,
    /// How many looks pass until want of descriptors is told again.
    looks: u32,
}

impl Drop for Watched {
    fn drop(self) {
        let Watched {
            id: _,
            closing: _,
            was_closed: _,
            is_told: _,
            has_lacked: _,
            looks: _,
        } = self;
    }
}

/// What the thread has.
struct Watching {
    members: Vec<Watched>,
    /// Whether the input was at its end from the start, and that was not said yet.
    has_no_line: Arc<AtomicBool, Global>,
    is_stopped: Arc<AtomicBool, Global>,
    is_over: Arc<AtomicBool, Global>,
}

impl Drop for Watching {
    fn drop(self) {
        let Watching {
            members: _,
            has_no_line: _,
            is_stopped: _,
            is_over: _,
        } = self;
    }
}

/// A thread that watches the members.
pub(crate) struct Watch {
    has_no_line: Arc<AtomicBool, Global>,
    is_stopped: Arc<AtomicBool, Global>,
    /// Whether the thread writes no more.
    is_over: Arc<AtomicBool, Global>,
    thread: JoinHandle<()>,
}

impl Drop for Watch {
    fn drop(self) {
        let Watch {
            has_no_line: _,
            is_stopped: _,
            is_over: _,
            thread: _,
        } = self;
    }
}

/// The name of the cause.
fn cause_name(cause: CloseCause) -> &'static str {
    match cause {
        CloseCause::StoreFault => "StoreFault",
        CloseCause::NoMemory => "NoMemory",
    }
}

impl Watched {
    /// Says that the member has closed, and why, unless it is open or that was said. It is said at
    /// the second look, since the thread that met the cause may note it after one that only met a
    /// closed node; at the last look it is said at once.
    fn tell<R: Eprint>(&mut self, rt: &R, is_last: bool) {
        if self.is_told {
            return;
        }
        let is_due = is_last || self.was_closed;
        self.was_closed = self.closing.is_closed();
        if let (true, Some(cause)) = (is_due, self.closing.cause()) {
            self.is_told = true;
            // (a standard error that takes nothing ends nothing)
            let _ = eprintln!(rt; "node {} has closed: {}", self.id, cause_name(cause));
        }
    }

    /// Says that connections of the member wait, or its fetches fail, for want of descriptors, once
    /// a second at most.
    fn tell_want<R: Eprint>(&mut self, rt: &R) {
        if 0 < self.looks {
            self.looks -= 1;
        } else if self.has_lacked.swap(false, Ordering::SeqCst) {
            self.looks = LOOKS;
            // (a standard error that takes nothing ends nothing)
            let _ = eprintln!(rt;
                "node {} lacks descriptors: connections wait, fetches fail",
                self.id
            );
        }
    }
}

impl Watching {
    /// Says that the input was at its end from the start, once.
    fn tell_no_line<R: Eprint>(&self, rt: &R) {
        if self.has_no_line.swap(false, Ordering::SeqCst) {
            // (a standard error that takes nothing ends nothing)
            let _ = eprintln!(rt; "the input was at its end from the start: the cluster stops");
        }
    }

    /// Looks at the members again and again until it is told to stop. It waits while standard error
    /// takes nothing.
    fn run<R: Wait + Clock + Eprint>(mut self, rt: &R) {
        for _ in rt.forever() {
            let is_last = self.is_stopped.load(Ordering::SeqCst);
            for member in &mut self.members {
                member.tell(rt, is_last);
                member.tell_want(rt);
            }
            self.tell_no_line(rt);
            if is_last {
                self.is_over.store(true, Ordering::SeqCst);
                return;
            }
            thread::sleep(rt, Duration::from_millis(PAUSE));
        }
    }
}

/// What is watched of the members that run.
fn members_of(alloc: Global, running: &[Running]) -> Result<Vec<Watched>, ClusterFault> {
    let mut members = Vec::with_capacity(alloc, running.len())?;
    for node in running {
        let member = Watched {
            id: node.id,
            closing: node.workers.closing()?,
            was_closed: false,
            is_told: false,
            has_lacked: node.workers.has_lacked()?,
            looks: 0,
        };
        if members.push(member).is_err() {
            return Err(ClusterFault::NoMemory);
        }
    }
    Ok(members)
}

impl Watch {
    /// Starts the thread. Faults: `NoThread` and `NoMemory`.
    pub(crate) fn start<R: Threads + Wait + Clock + Eprint + Copy + Drop + Send + Sync + 'static>(
        rt: R,
        alloc: Global,
        running: &[Running],
    ) -> Result<Watch, ClusterFault> {
        let (is_stopped, is_over, has_no_line) = (flag(alloc)?, flag(alloc)?, flag(alloc)?);
        let watching = Watching {
            members: members_of(alloc, running)?,
            has_no_line: Arc::try_clone(&has_no_line)?,
            is_stopped: Arc::try_clone(&is_stopped)?,
            is_over: Arc::try_clone(&is_over)?,
        };
        match thread::spawn(&rt, move || watching.run(&rt)) {
            Ok(thread) => Ok(Watch {
                has_no_line,
                is_stopped,
                is_over,
                thread,
            }),
            Err(_) => Err(ClusterFault::NoThread),
        }
    }

    /// Has the thread say that the input was at its end from the start.
    pub(crate) fn say_no_line(&self) {
        self.has_no_line.store(true, Ordering::SeqCst);
    }

    /// Whether the thread writes no more within a second.
    fn is_soon_over<R: Wait + Clock>(&self, rt: &R) -> bool {
        for _ in 0..STEPS {
            if self.is_over.load(Ordering::SeqCst) {
                return true;
            }
            thread::sleep(rt, Duration::from_millis(STEP));
        }
        false
    }

    /// Tells the thread to stop, which it does within 100 milliseconds, and waits for its end. A
    /// thread that is not over after a second waits for standard error, which takes nothing: it is
    /// left, and ends with the process.
    pub(crate) fn stop<R: Threads + Wait + Clock>(self, rt: &R) {
        self.is_stopped.store(true, Ordering::SeqCst);
        if self.is_soon_over(rt) {
            let Watch {
                has_no_line: _,
                is_stopped: _,
                is_over: _,
                thread,
            } = self;
            thread.join(rt);
        }
    }
}
