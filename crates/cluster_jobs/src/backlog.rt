//! The jobs that wait, under the queue's lock.
ghost use Rattle.std.specs.Prelude.{◌≡◌, ◌++◌, ◌∷◌, [], IfOk, MatchOption, MatchResult, IsTrue};
ghost use Rattle.std.specs.Prelude.{true, false};
ghost use Rattle.cluster_jobs.specs.Lanes.{lane_of};
ghost use Rattle.cluster_jobs.specs.Order.{put, took, sight_of, Adds, IsEmpty, IsFull, IsInOrder};

use crate::job::{Job, LANES};
use crate::order::{Exact, Puts, Step, Takes, Waiting};
use crossbeam_queue::RuledArrayQueue;
use std::alloc::{AllocError, Global};
use std::marker::Model;
use std::sync::Wait;
use values_history::{Entry, Front, Head, Own, Run};

/// How many jobs each lane holds at most.
pub const CAPACITY: usize = 256;

/// How many jobs all lanes hold at most.
const MOST_JOBS: usize = LANES * CAPACITY;

/// The jobs that wait, first in, first out, with the history of all steps. A contract sees the
/// steps, and whether the queue is ended.
pub(crate) struct Backlog<Q: Run> {
    jobs: RuledArrayQueue<Job, Waiting, Exact>,
    /// The one pass of these jobs.
    pass: crossbeam_queue::Pass<Job, Waiting>,
    /// How many jobs of each lane wait, by the lane's place.
    counts: Vec<usize>,
    head: Head<Step, Q>,
    front: Front<Step, Q>,
    is_over: bool,
}

impl<Q: Run> Drop for Backlog<Q> {
    fn drop(self) {
        let Backlog {
            jobs: _,
            pass: _,
            counts: _,
            head: _,
            front: _,
            is_over: _,
        } = self;
    }
}

impl<Q: Run> Model for Backlog<Q> {
    ghost use Rattle.std.specs.Prelude.{◌≡◌};
    ghost use Rattle.crossbeam_queue.specs.Passes.{view as known, ruled_capacity, IsPassOf};
    ghost use Rattle.cluster_jobs.specs.Order.{BacklogView, IsInOrder, Leaves};
    ghost use Rattle.cluster_jobs.specs.Lanes.{AreCounts};

    ghost Value = { BacklogView };

    ghost view = { λ b. record { seen = b.front; over = b.is_over } };

    ghost invariant = { λ b. IsInOrder b.front × Leaves b.front (known b.pass)
        × AreCounts b.counts.items (known b.pass) × IsPassOf b.jobs b.pass
        × (ruled_capacity b.jobs ≡ 1536) };
}

/// Adds the step of a job to the history, of which the front is the whole, and to the own steps of
/// a pass.
fn add<M: Entry<Job, Step>, Q: Run, R: Wait>(
    rt: &R,
    head: &Head<Step, Q>,
    front: &mut Front<Step, Q>,
    own: &mut Own<Step>,
    job: &Job,
)
    ensures seen { front.new ≡ front.old ++ M.of job.now ∷ [] }
    ensures own { own.new ≡ own.old ++ M.of job.now ∷ [] }
{
    add_to_own::<M, R>(rt, own, job);
    // (it is added at once, since one lock guards the head and the front)
    for _ in rt.forever() {
        if front.add_as::<Job, M>(head, job) {
            return;
        }
    }
    unreachable!()
}

/// Adds the step of a job to the own steps of a pass.
fn add_to_own<M: Entry<Job, Step>, R: Wait>(rt: &R, own: &mut Own<Step>, job: &Job)
    ensures { own.new ≡ own.old ++ M.of job.now ∷ [] }
{
    // (it is added at once, unless there are 2^64 - 1)
    for _ in rt.forever() {
        if own.add_as::<Job, M>(job) {
            return;
        }
    }
    unreachable!()
}

impl<Q: Run> Backlog<Q> {
    /// A queue in which nothing was put yet. `AllocError` comes where there is no memory for 256
    /// jobs of each lane.
    pub(crate) fn new(
        alloc: Global,
        head: Head<Step, Q>,
        front: Front<Step, Q>,
    ) -> Result<Backlog<Q>, AllocError>
        requires { front ≡ [] }
        ensures { IfOk result (λ b. b ≡ record { seen = []; over = false }) }
    {
        let mut counts = Vec::new(alloc);
        counts.resize(LANES, 0)?;
        let (jobs, pass) = RuledArrayQueue::ruled(alloc, MOST_JOBS)?;
        Ok(Backlog {
            jobs,
            pass,
            counts,
            head,
            front,
            is_over: false,
        })
    }

    /// All steps so far.
    pub(crate) fn seen(&self) -> Front<Step, Q>
        ensures all { result ≡ self.now.seen }
        ensures order { IsInOrder result }
    {
        self.front.again()
    }

    /// Puts a job behind those that wait. The job comes back, and nothing changes, exactly where
    /// its lane holds 256 jobs.
    pub(crate) fn put<R: Wait>(&mut self, rt: &R, own: &mut Own<Step>, job: Job) -> Result<(), Job>
        ensures { MatchResult result
            (λ _. Adds (put job) self.old own.old self.new own.new)
            (λ back. (back ≡ job) × (self.new ≡ self.old) × (own.new ≡ own.old)
            × IsFull (lane_of (sight_of job)) self.old.seen) }
    {
        let place = job.lane().place();
        if self.counts[place] >= CAPACITY {
            return Err(job);
        }
        add::<Puts, Q, R>(rt, &self.head, &mut self.front, own, &job);
        self.counts[place] += 1;
        // (there is room, since this lane has fewer than 256 and no other has more)
        match self.jobs.push_as::<Puts, R>(rt, &mut self.pass, job) {
            Ok(()) => Ok(()),
            Err(_) => unreachable!(),
        }
    }

    /// Takes out the job that has waited longest. There is none, and nothing changes, exactly where
    /// no job waits.
    pub(crate) fn take<R: Wait>(&mut self, rt: &R, own: &mut Own<Step>) -> Option<Job>
        ensures { MatchOption result
            ((self.new ≡ self.old) × (own.new ≡ own.old) × IsEmpty self.old.seen)
            (λ job. Adds (took job) self.old own.old self.new own.new) }
    {
        let job = self.jobs.pop_as::<Takes, R>(rt, &mut self.pass)?;
        add::<Takes, Q, R>(rt, &self.head, &mut self.front, own, &job);
        self.counts[job.lane().place()] -= 1;
        Some(job)
    }

    /// Ends the queue: threads that wait for a job wait no more.
    pub(crate) fn end(&mut self)
        ensures { self.new ≡ record { seen = self.old.seen; over = true } }
    {
        self.is_over = true;
    }

    /// Whether the queue is ended.
    pub(crate) fn is_over(&self) -> bool
        ensures { result ≡ self.now.over }
    {
        self.is_over
    }

    /// Whether a thread that wants a job has to wait: none is there, and the queue is not ended.
    pub(crate) fn waits(&mut self) -> bool
        ensures same { self.new ≡ self.old }
        ensures none { IsTrue result → IsEmpty self.old.seen × (self.old.over ≡ false) }
    {
        self.jobs.is_empty_as::<Takes>(&mut self.pass) && !self.is_over
    }
}
