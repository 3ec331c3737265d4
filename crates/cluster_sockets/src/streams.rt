//! From the listener into the job queue.
ghost use Rattle.std.specs.Prelude.{IfOk, IfSome};
ghost use Rattle.cluster_jobs.specs.Order.{sight_of};
ghost use Rattle.cluster_sockets.specs.Polls.{HasCome, HasPut, IsSound};

use crate::fault::LoopFault;
use crate::heads::{HeadReading, Reading};
use crate::per_address::PerAddress;
use crate::putting::{Come, put};
use cluster_fetch::is_want_of_descriptors;
use cluster_jobs::{Job, Jobs, Pass, Run};
use mio::Registry;
use mio::net::{TcpListener, TcpStream};
use slab::Slab;
use std::alloc::{AllocError, Global};
use std::collections::VecDeque;
use std::io::ErrorKind;
use std::mem::replace;
use std::sync::Wait;
use std::time::Instant;
use values_plain::Address;

/// How many connections wait in the loop at most.
const MOST_HEADS: usize = 1024;

/// How many connections a poll accepts at most, so that each source gets its share of a poll.
const MOST_ACCEPTED: usize = 256;

/// How many connections whose five seconds have passed are put at one look, so that the queue keeps
/// room for others.
const MOST_LATE: usize = 64;

/// How many milliseconds pass between two looks for connections whose five seconds have passed.
const BETWEEN_LOOKS: u128 = 100;

/// Accepts a node's connections, and keeps those whose requests have not come.
pub(crate) struct Streams {
    alloc: Global,
    listener: TcpListener,
    is_ready: bool,
    heads: Slab<HeadReading>,
    per_address: PerAddress,
    most_of_address: u32,
    came: Vec<usize>,
    number: u64,
    looked: Instant,
    refused: VecDeque<(TcpStream, bool)>,
    has_lacked: bool,
}

impl Drop for Streams {
    fn drop(self) {
        let Streams {
            alloc: _,
            listener: _,
            is_ready: _,
            heads: _,
            per_address: _,
            most_of_address: _,
            came: _,
            number: _,
            looked: _,
            refused: _,
            has_lacked: _,
        } = self;
    }
}

impl Streams {
    /// Accepts from this listener. At most `most_of_address` connections of one address wait, and
    /// more while the oldest are younger than a second. `AllocError` comes where there is no memory
    /// for 1,024 waiting connections.
    pub(crate) fn new(
        alloc: Global,
        listener: TcpListener,
        most_of_address: u32,
        now: Instant,
    ) -> Result<Streams, AllocError> {
        Ok(Streams {
            alloc,
            listener,
            is_ready: true,
            heads: Slab::with_capacity(alloc, MOST_HEADS)?,
            per_address: PerAddress::new(alloc),
            most_of_address,
            came: Vec::with_capacity(alloc, MOST_HEADS)?,
            number: 0,
            looked: now,
            refused: VecDeque::new(alloc),
            has_lacked: false,
        })
    }

    /// Notes that the listener may have connections to accept.
    pub(crate) fn set_ready(&mut self) {
        self.is_ready = true;
    }

    /// Notes that more has come of the connection under this key. `AllocError` comes where there is
    /// no room to note it; the connection then waits for more octets, or for its five seconds.
    pub(crate) fn note(&mut self, key: usize) -> Result<(), AllocError> {
        Ok(self.came.push(key)?)
    }

    /// Puts the job of a connection, if there is one. Where its lane is full the connection is
    /// refused.
    fn put_job<Q: Run, R: Wait>(
        &mut self,
        rt: &R,
        jobs: &Jobs<Q>,
        pass: Pass<Q>,
        job: Option<Job>,
    ) -> Pass<Q>
        requires { IfSome job (λ job. HasCome (sight_of job)) }
        ensures { HasPut pass result }
    {
        let (pass, back) = put(rt, jobs, pass, job);
        if let Some(job) = back {
            self.refuse_job(job);
        }
        pass
    }

    /// Keeps the connection of a job that is refused until it is told so.
    fn refuse_job(&mut self, job: Job) {
        match job {
            Job::Stream { stream, .. } => self.refuse(stream, true),
            Job::Datagram { .. } | Job::Timer { .. } | Job::Fetched(_) | Job::Failed { .. } => {}
        }
    }

    /// Keeps a connection that is refused until it is told so. `lingers` where its client has sent
    /// something. Where there is no memory for it, it is closed.
    fn refuse(&mut self, stream: TcpStream, lingers: bool) {
        let _ = self.refused.push_back((stream, lingers));
    }

    /// Whether a connection could not be accepted for want of a descriptor since this was last
    /// called.
    pub(crate) fn has_lacked(&mut self) -> bool {
        replace(&mut self.has_lacked, false)
    }

    /// Whether a connection that is refused has not been told so.
    pub(crate) fn has_refused(&self) -> bool {
        !self.refused.is_empty()
    }

    /// Takes out a connection that is refused, and that has not been told so, and whether its
    /// client has sent something.
    pub(crate) fn next_refused(&mut self) -> Option<(TcpStream, bool)> {
        self.refused.pop_front()
    }

    /// Takes out the connection under this key, if it waits.
    fn remove(&mut self, key: usize) -> Option<HeadReading> {
        let head = self.heads.try_remove(key)?;
        self.per_address.remove(head.ip());
        Some(head)
    }

    /// The key of the connection that has waited longest for its request: of those from an IPv4
    /// address, or of all.
    fn oldest(&self, ip: Option<u32>) -> Option<usize> {
        self.heads
            .iter()
            .filter(|(_, head)| match ip {
                Some(ip) => head.ip() == ip,
                None => true,
            })
            .min_by_key(|(_, head)| head.number())
            .map(|(key, _)| key)
    }

    /// Refuses the connection under this key.
    fn refuse_at(&mut self, registry: &Registry, key: usize) {
        if let Some(mut head) = self.remove(key) {
            head.deregister(registry);
            let lingers = !head.is_silent();
            self.refuse(head.into_stream(), lingers);
        }
    }

    /// Takes out the connection under this key, as a job.
    fn take(&mut self, registry: &Registry, key: usize) -> Option<Job>
        ensures { IfSome result (λ job. HasCome (sight_of job)) }
    {
        let mut head = self.remove(key)?;
        head.deregister(registry);
        Some(head.into_job())
    }

    /// Reads what has come of the connection under this key. Returns its job, if a worker can have
    /// it.
    fn read_on(&mut self, registry: &Registry, key: usize) -> Option<Job>
        ensures { IfSome result (λ job. HasCome (sight_of job)) }
    {
        let reading = match self.heads.get_mut(key) {
            Some(head) => head.read(),
            None => Reading::Waits,
        };
        match reading {
            Reading::Waits => None,
            Reading::Came => self.take(registry, key),
            Reading::Gone => {
                let _ = self.remove(key);
                None
            }
        }
    }

    /// Puts the connections that were noted and whose requests have come.
    pub(crate) fn put_noted<Q: Run, R: Wait>(
        &mut self,
        rt: &R,
        registry: &Registry,
        jobs: &Jobs<Q>,
        mut pass: Pass<Q>,
    ) -> Pass<Q>
        ensures { HasPut pass result }
    {
        for place in 0..self.came.len() {
            let Some(key) = self.came.get(place).copied() else {
                break;
            };
            let job = self.read_on(registry, key);
            pass = self.put_job(rt, jobs, pass, job);
        }
        self.came.clear();
        pass
    }

    /// The job of the connection under this key, if its five seconds have passed; no more is read
    /// of it than has come by then. A connection of which nothing has come is closed.
    fn take_late(&mut self, registry: &Registry, key: usize, now: Instant) -> Option<Job>
        ensures { IfSome result (λ job. HasCome (sight_of job)) }
    {
        let is_silent = match self.heads.get_mut(key) {
            Some(head) if head.is_late(now) => {
                head.end();
                head.is_silent()
            }
            _ => return None,
        };
        if is_silent {
            let _ = self.remove(key);
            return None;
        }
        self.take(registry, key)
    }

    /// Puts the connections whose five seconds have passed, 64 at most, at intervals of 100
    /// milliseconds.
    pub(crate) fn put_late<Q: Run, R: Wait>(
        &mut self,
        rt: &R,
        registry: &Registry,
        jobs: &Jobs<Q>,
        mut pass: Pass<Q>,
        now: Instant,
    ) -> Pass<Q>
        ensures { HasPut pass result }
    {
        let since = now.saturating_duration_since(self.looked).as_millis();
        if self.heads.is_empty() || since < BETWEEN_LOOKS {
            return pass;
        }
        self.looked = now;
        let mut late = 0usize;
        for key in 0..MOST_HEADS {
            let job = self.take_late(registry, key, now);
            late = late.saturating_add(usize::from(job.is_some()));
            pass = self.put_job(rt, jobs, pass, job);
            if late >= MOST_LATE {
                break;
            }
        }
        pass
    }

    /// Whether the connection under this key has waited for a second.
    fn has_waited(&self, key: usize, now: Instant) -> bool {
        match self.heads.get(key) {
            Some(head) => head.has_waited(now),
            None => false,
        }
    }

    /// Refuses those connections from an IPv4 address that have waited longest, two at most, if
    /// they have waited for a second.
    fn refuse_idle(&mut self, registry: &Registry, ip: u32, now: Instant) {
        for _ in 0..2 {
            match self.oldest(Some(ip)) {
                Some(key) if self.has_waited(key, now) => self.refuse_at(registry, key),
                _ => break,
            }
        }
    }

    /// Makes room for a connection that is to wait. Where 1,024 wait, the one that has waited
    /// longest is refused: of its address, if as many wait from there as may, or else of all. Where
    /// as many wait from its address as may, two that have waited for a second are: requests of
    /// connections that come at once may take a moment.
    fn make_room(&mut self, registry: &Registry, ip: u32, now: Instant) {
        if self.heads.len() >= MOST_HEADS {
            let whose = self.per_address.goes_first(self.most_of_address, ip);
            if let Some(key) = self.oldest(whose) {
                self.refuse_at(registry, key);
            }
        }
        if self.per_address.count(ip) >= self.most_of_address {
            self.refuse_idle(registry, ip, now);
        }
    }

    /// Keeps a connection until more has come of it. It is closed where the poll does not take it,
    /// and refused where there is no memory to count it.
    fn keep(&mut self, registry: &Registry, head: HeadReading, now: Instant) {
        let ip = head.ip();
        self.make_room(registry, ip, now);
        if !self.per_address.add(ip) {
            let lingers = !head.is_silent();
            self.refuse(head.into_stream(), lingers);
            return;
        }
        let Ok(key) = self.heads.insert(head) else {
            self.per_address.remove(ip);
            return;
        };
        let is_told = match self.heads.get_mut(key) {
            Some(head) => head.register(registry, key).is_ok(),
            None => true,
        };
        if !is_told {
            let _ = self.remove(key);
        }
    }

    /// Reads a connection that was just accepted. Returns its job, if its request is there.
    fn begin(
        &mut self,
        registry: &Registry,
        stream: TcpStream,
        from: Address,
        now: Instant,
    ) -> Option<Job>
        ensures { IfSome result (λ job. HasCome (sight_of job)) }
    {
        let mut head = HeadReading::new(self.alloc, self.number, from.ip, stream, now);
        self.number = self.number.wrapping_add(1);
        match head.read() {
            Reading::Came => Some(head.into_job()),
            Reading::Waits => {
                self.keep(registry, head, now);
                None
            }
            Reading::Gone => None,
        }
    }

    /// Accepts a connection, if there is one.
    fn accept(&mut self, registry: &Registry, now: Instant) -> Result<Come, LoopFault>
        ensures { IfOk result IsSound }
    {
        match self.listener.accept() {
            Ok((stream, from)) => {
                let from = Address::of_socket(from);
                Ok(Come::Taken(self.begin(registry, stream, from, now)))
            }
            Err(error) if error.kind() == ErrorKind::WouldBlock => Ok(Come::Nothing),
            Err(error) if error.kind() == ErrorKind::ConnectionAborted => Ok(Come::Taken(None)),
            Err(error) => {
                self.has_lacked = self.has_lacked || is_want_of_descriptors(&error);
                Err(LoopFault::Io)
            }
        }
    }

    /// Accepts what is there, 256 connections at most, and puts those whose requests have come.
    /// Returns whether there may be more.
    pub(crate) fn put_accepted<Q: Run, R: Wait>(
        &mut self,
        rt: &R,
        registry: &Registry,
        jobs: &Jobs<Q>,
        mut pass: Pass<Q>,
        now: Instant,
    ) -> (Pass<Q>, Result<bool, LoopFault>)
        ensures { HasPut pass result.0 }
    {
        if !self.is_ready {
            return (pass, Ok(false));
        }
        for _ in 0..MOST_ACCEPTED {
            match self.accept(registry, now) {
                Ok(Come::Taken(job)) => pass = self.put_job(rt, jobs, pass, job),
                Ok(Come::Nothing) => {
                    self.is_ready = false;
                    return (pass, Ok(false));
                }
                Err(fault) => return (pass, Err(fault)),
            }
        }
        (pass, Ok(true))
    }
}
