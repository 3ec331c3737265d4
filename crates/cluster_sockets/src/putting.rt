//! How a job is put into the queue.
ghost use Rattle.std.specs.Prelude.{◌≡◌, IfSome};
ghost use Rattle.cluster_jobs.specs.Order.{sight_of};
ghost use Rattle.cluster_sockets.specs.Polls.{HasCome, HasPut};

use cluster_jobs::{Job, Jobs, Pass, Run};
use std::sync::Wait;

/// What one read of a socket, or one accept, gave.
pub(crate) enum Come {
    /// Something came, with its job if it has one. A connection whose request is not there yet has
    /// none, nor has a datagram that was answered at once.
    Taken(Option<Job>),
    /// Nothing is there.
    Nothing,
}

/// Puts a job that came over a socket, if there is one. Where its lane is full it comes back.
pub(crate) fn put<Q: Run, R: Wait>(
    rt: &R,
    jobs: &Jobs<Q>,
    pass: Pass<Q>,
    job: Option<Job>,
) -> (Pass<Q>, Option<Job>)
    requires { IfSome job (λ job. HasCome (sight_of job)) }
    ensures put { HasPut pass result.0 }
    ensures back { IfSome result.1 (λ job. HasCome (sight_of job)) }
{
    match job {
        Some(job) => put_one(rt, jobs, pass, job),
        None => (pass, None),
    }
}

/// Puts a job that came over a socket, if there is one. Where its lane is full it is dropped.
pub(crate) fn put_or_drop<Q: Run, R: Wait>(
    rt: &R,
    jobs: &Jobs<Q>,
    pass: Pass<Q>,
    job: Option<Job>,
) -> Pass<Q>
    requires { IfSome job (λ job. HasCome (sight_of job)) }
    ensures { HasPut pass result }
{
    let (pass, _) = put(rt, jobs, pass, job);
    pass
}

/// Puts one job. Where its lane is full it comes back.
pub(crate) fn put_one<Q: Run, R: Wait>(
    rt: &R,
    jobs: &Jobs<Q>,
    pass: Pass<Q>,
    job: Job,
) -> (Pass<Q>, Option<Job>)
    requires { HasCome (sight_of job) }
    ensures put { HasPut pass result.0 }
    ensures back { IfSome result.1 (λ back. back ≡ job) }
{
    let (pass, answer) = jobs.put(rt, pass, job);
    (pass, answer.err())
}
