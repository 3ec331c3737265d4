//! The queue, and the pass that a thread carries to use it.
ghost use Rattle.std.specs.Prelude.{◌≡◌, [], IfOk, MatchOption, MatchResult};
ghost use Rattle.cluster_jobs.specs.Lanes.{lane_of};
ghost use Rattle.cluster_jobs.specs.Order.{cut, joined, newcomer, put, sight_of, took, Finds};
ghost use Rattle.cluster_jobs.specs.Order.{Follows, IsEmpty, IsFull};

use crate::backlog::Backlog;
use crate::job::Job;
use crate::order::Step;
use std::alloc::{AllocError, Global};
use std::marker::Model;
use std::sync::{Condvar, Mutex, Wait};
use values_history::{Front, NewHistory, Own, Run};

/// The queue of jobs that the type `Q` names.
#[derive(Drop)]
pub struct Jobs<Q: Run> {
    backlog: Mutex<Backlog<Q>>,
    has_job: Condvar,
}

/// The right of one thread to use the queue that the type `Q` names. A contract sees it as what the
/// thread knows of the queue's steps (`View`).
#[derive(Drop)]
pub struct Pass<Q: Run> {
    front: Front<Step, Q>,
    own: Own<Step>,
}

impl<Q: Run> Model for Pass<Q> {
    ghost use Rattle.cluster_jobs.specs.declared.order.View.{View};

    ghost Value = { View };

    ghost view = { λ pass. record { seen = pass.front; own = pass.own } };
}

impl<Q: Run> Jobs<Q> {
    /// An empty queue and its first pass, which has seen no step. `history` is a new history, by
    /// which the queue has its name. `AllocError` comes where there is no memory for 256 jobs of
    /// each lane.
    pub fn new(alloc: Global, history: NewHistory<Step>) -> Result<(Jobs<Q>, Pass<Q>), AllocError>
        requires { history.seen.book ≡ Q.book }
        ensures { IfOk result (λ made. made.1 ≡ newcomer) }
    {
        let (head, front) = history.named::<Q>();
        let pass = Pass {
            front: front.again(),
            own: Own::new(),
        };
        let jobs = Jobs {
            backlog: Mutex::new(Backlog::new(alloc, head, front)?),
            has_job: Condvar::new(),
        };
        Ok((jobs, pass))
    }

    /// Puts a job behind those that wait, and wakes a thread that waits for one. The job comes back
    /// exactly where its lane holds 256 jobs. The pass has then seen all steps up to that moment.
    pub fn put<R: Wait>(&self, rt: &R, pass: Pass<Q>, job: Job) -> (Pass<Q>, Result<(), Job>)
        ensures { MatchResult result.1
            (λ _. Follows pass (put job) result.0)
            (λ back. (back ≡ job) × Finds pass (IsFull (lane_of (sight_of job))) result.0) }
    {
        let Pass { front, mut own } = pass;
        // (what a pass has seen is a beginning of all steps, so this is done once)
        for _ in rt.forever() {
            let mut backlog = self.backlog.lock(rt);
            if front.begins(&backlog.seen()) {
                let put = backlog.put(rt, &mut own, job);
                let front = backlog.seen();
                self.has_job.notify_one();
                return (Pass { front, own }, put);
            }
        }
        unreachable!()
    }

    /// Takes out the job that has waited longest. There is none exactly where no job waits. The
    /// pass has then seen all steps up to that moment.
    pub fn take<R: Wait>(&self, rt: &R, pass: Pass<Q>) -> (Pass<Q>, Option<Job>)
        ensures { MatchOption result.1
            (Finds pass IsEmpty result.0)
            (λ job. Follows pass (took job) result.0) }
    {
        let Pass { front, mut own } = pass;
        // (what a pass has seen is a beginning of all steps, so this is done once)
        for _ in rt.forever() {
            let mut backlog = self.backlog.lock(rt);
            if front.begins(&backlog.seen()) {
                let job = backlog.take(rt, &mut own);
                let front = backlog.seen();
                return (Pass { front, own }, job);
            }
        }
        unreachable!()
    }

    /// Waits until there is a job, or the queue is ended. Returns whether it is not ended.
    pub fn wait<R: Wait>(&self, rt: &R) -> bool {
        let backlog = self
            .has_job
            .wait_while(rt, self.backlog.lock(rt), |backlog| backlog.waits());
        !backlog.is_over()
    }

    /// Ends the queue: nobody waits for a job any more.
    pub fn end<R: Wait>(&self, rt: &R) {
        self.backlog.lock(rt).end();
        self.has_job.notify_all();
    }

    /// Makes two passes of one; each has seen what the pass had seen. The second has no steps of
    /// its own.
    pub fn split<R: Wait>(&self, _rt: &R, pass: Pass<Q>) -> (Pass<Q>, Pass<Q>)
        ensures left { result.0 ≡ pass }
        ensures right { result.1 ≡ cut pass }
    {
        let front = pass.front.again();
        let own = Own::new();
        (pass, Pass { front, own })
    }

    /// Makes one pass of two. It has seen what either had seen, and has the first one's own steps.
    pub fn join<R: Wait>(&self, _rt: &R, pass: Pass<Q>, other: Pass<Q>) -> Pass<Q>
        ensures { result ≡ joined pass other }
    {
        let Pass { front, own } = pass;
        let front = if front.begins(&other.front) {
            other.front
        } else {
            front
        };
        Pass { front, own }
    }
}
