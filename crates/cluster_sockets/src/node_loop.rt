//! The event loop of a node.
ghost use Rattle.std.specs.Prelude.{◌≡◌, IsTrue};
ghost use Rattle.http_writing.specs.Name.{is_name as names_cache};
ghost use Rattle.cluster_sockets.specs.Polls.{HasPut};

use crate::at_once::AtOnce;
use crate::datagrams::Datagrams;
use crate::deliveries::Deliveries;
use crate::fault::LoopFault;
use crate::fetches::Fetches;
use crate::inbox::{Errand, Inbox};
use crate::putting::put_one;
use crate::sockets::{Senders, Sockets};
use crate::streams::Streams;
use cluster_fetch::Fetched;
use cluster_jobs::{Job, Jobs, Pass, Run};
use mio::net::TcpListener;
use mio::{Events, Interest, Poll, Registry, Token, Waker};
use std::alloc::{AllocError, Global};
use std::net::Net;
use std::sync::{Arc, Wait};
use std::time::{Clock, Duration, Instant};
use values_plain::Udp;
use values_tables::{Cache, Limits};

/// The poll tokens of the node's own sockets. The token of a connection whose request has not come
/// is its key, which is less than 1,024.
const ICP: Token = Token(usize::MAX);

/// See `ICP`.
const HTCP: Token = Token(usize::MAX - 1);

/// See `ICP`.
const LISTENER: Token = Token(usize::MAX - 2);

/// The token by which the inbox wakes the loop.
const WAKER: Token = Token(usize::MAX - 3);

/// The first token of a fetch; the others follow.
const FETCHES: usize = 1 << 20;

/// The first token of a response under way; the others follow.
const DELIVERIES: usize = 1 << 21;

/// How many events one poll tells at most.
const MOST_EVENTS: usize = 1024;

/// How many milliseconds a poll waits at most, unless `set_wait` says otherwise.
const WAIT: u64 = 100;

/// How many milliseconds a poll waits at most where a fetch has ended and its job finds no room.
const OWED_WAIT: u64 = 1;

/// How many milliseconds pass between two looks for connections whose time is over.
const BETWEEN_LOOKS: u128 = 100;

/// How many errands, and how many ended fetches, a poll deals with at most.
const MOST_ERRANDS: usize = 256;

/// How many seconds responses are written on at the end of a node.
const LAST: u64 = 5;

/// How many polls, and how many errands of each, there are at the end of a node at most.
const MOST_LAST_POLLS: usize = 100_000;

/// The event loop of a node. One thread has it.
pub struct NodeLoop {
    poll: Poll,
    events: Events,
    datagrams: Datagrams,
    streams: Streams,
    inbox: Arc<Inbox, Global>,
    deliveries: Deliveries,
    fetches: Fetches,
    /// A fetch that has ended, whose job has found no room yet.
    owed: Option<Fetched>,
    /// Whether the last poll may have left errands in the inbox, or fetches that have ended.
    has_errands: bool,
    looked: Instant,
    /// The node's name, as it stands in `via`.
    via: Vec<u8>,
    wait: Duration,
    has_more: bool,
    ghost named: { IsTrue (names_cache via.items) },
}

impl Drop for NodeLoop {
    fn drop(self) {
        let NodeLoop {
            poll: _,
            events: _,
            datagrams: _,
            streams: _,
            inbox: _,
            deliveries: _,
            fetches: _,
            owed: _,
            has_errands: _,
            looked: _,
            via: _,
            wait: _,
            has_more: _,
        } = self;
    }
}

/// Opens the UDP sockets of a member, for ICP and for HTCP.
fn datagrams_at<N: Net>(
    rt: &N,
    alloc: Global,
    registry: &Registry,
    cache: &Cache,
) -> Result<(Datagrams, Senders), LoopFault> {
    let sockets = shared(alloc, Sockets::open(rt, registry, cache, (ICP, HTCP))?)?;
    let senders = Senders::of(Arc::try_clone(&sockets)?);
    Ok((Datagrams::new(alloc, sockets)?, senders))
}

/// Opens the listener of a member for HTTP.
fn streams_at<N: Net>(
    rt: &N,
    alloc: Global,
    registry: &Registry,
    cache: &Cache,
    limits: Limits,
    now: Instant,
) -> Result<Streams, LoopFault> {
    let mut listener = TcpListener::bind(rt, cache.http.socket())?;
    registry.register(&mut listener, LISTENER, Interest::READABLE)?;
    let most_of_address = u32::try_from(limits.clients_per_address).unwrap_or(u32::MAX);
    Ok(Streams::new(alloc, listener, most_of_address, now)?)
}

/// An inbox, which wakes the poll.
fn inbox_at(alloc: Global, registry: &Registry) -> Result<Arc<Inbox, Global>, LoopFault> {
    Ok(shared(alloc, Inbox::new(alloc, Waker::new(registry, WAKER)?))?)
}

impl NodeLoop {
    /// Opens the sockets of a member at its addresses: UDP for ICP and for HTCP, and a listener for
    /// HTTP. `via` is its name, as it stands in requests and responses. `limits` has its times and
    /// the numbers of its connections. `Io` comes where an address is in use or is not this
    /// machine's, or the system refuses in another way. `NoMemory` comes where there is no memory.
    /// After a fault nothing is open.
    pub fn open<N: Net + Clock>(
        rt: &N,
        alloc: Global,
        cache: &Cache,
        via: &[u8],
        limits: Limits,
    ) -> Result<(NodeLoop, Senders), LoopFault>
        requires { IsTrue (names_cache via.now) }
    {
        let now = Instant::now(rt)?;
        let poll = Poll::new(rt)?;
        let (datagrams, senders) = datagrams_at(rt, alloc, poll.registry(), cache)?;
        let streams = streams_at(rt, alloc, poll.registry(), cache, limits, now)?;
        let inbox = inbox_at(alloc, poll.registry())?;
        let patience = Duration::from_millis(limits.answer_wait);
        let deliveries = Deliveries::new(alloc, DELIVERIES, patience)?;
        let events = Events::with_capacity(alloc, MOST_EVENTS)?;
        let opened = NodeLoop {
            poll,
            events,
            datagrams,
            streams,
            inbox,
            deliveries,
            fetches: Fetches::new(alloc, FETCHES, limits),
            owed: None,
            has_errands: false,
            looked: now,
            via: via.to_vec(alloc)?,
            wait: Duration::from_millis(WAIT),
            has_more: true,
        };
        Ok((opened, senders))
    }

    /// Where other threads leave errands to the loop. `AllocError` comes where one more owner
    /// cannot be counted.
    pub fn inbox(&self) -> Result<Arc<Inbox, Global>, AllocError> {
        Arc::try_clone(&self.inbox)
    }

    /// Sets how long a poll waits at most; 100 milliseconds if this is never called.
    pub fn set_wait(&mut self, most: Duration) {
        self.wait = most;
    }

    /// Whether a connection could not be accepted, or made for a fetch, for want of a descriptor
    /// since this was last called. One that could not be accepted waits in the listener's line
    /// until there is one; the fetch has failed.
    pub fn has_lacked_descriptors(&mut self) -> bool {
        let has_fetch_lacked = self.fetches.has_lacked();
        self.streams.has_lacked() || has_fetch_lacked
    }

    /// How many connections the loop has told 503 since this was last called: those that it
    /// refused. No job has such a connection.
    pub fn take_refused(&mut self) -> u64 {
        self.deliveries.take_refused()
    }

    /// How long a poll waits at most now.
    fn most_wait(&self) -> Duration {
        if self.has_more {
            Duration::ZERO
        } else if self.owed.is_some() {
            Duration::from_millis(OWED_WAIT).min(self.wait)
        } else {
            self.wait
        }
    }

    /// Polls until something is ready, for the time of a poll at most, and notes what is ready.
    fn wait_for_sockets(&mut self) -> Result<(), LoopFault> {
        let most = self.most_wait();
        self.poll.poll(&mut self.events, Some(most))?;
        let mut noted = Ok(());
        for event in &self.events {
            let one = match event.token() {
                ICP => Ok(self.datagrams.set_ready(Udp::Icp, true)),
                HTCP => Ok(self.datagrams.set_ready(Udp::Htcp, true)),
                LISTENER => Ok(self.streams.set_ready()),
                WAKER => Ok(()),
                Token(key) if key >= DELIVERIES => self.deliveries.note(key - DELIVERIES),
                Token(key) if key >= FETCHES => self.fetches.note(key - FETCHES),
                Token(key) => self.streams.note(key),
            };
            noted = noted.and(one);
        }
        Ok(noted?)
    }

    /// Polls until something is ready, for the time of a poll at most. Then puts a job for each
    /// datagram that is not answered at once, for each connection whose request has come, and for
    /// each fetch that has ended; begins the fetches that were left in the inbox; and writes
    /// responses on as their clients take them. It takes a limited share of each source, and leaves
    /// the rest to the next poll.
    ///
    /// `Io` comes where the system refuses the clock, a poll, a read or an accept, and `NoMemory`
    /// where there is no memory for what was read, which is then lost. The other sources have been
    /// read all the same, and a later poll reads what is still ready.
    pub fn poll_once<Q: Run, A: AtOnce, R: Net + Wait + Clock>(
        &mut self,
        rt: &R,
        jobs: &Jobs<Q>,
        pass: Pass<Q>,
        at_once: &mut A,
    ) -> (Pass<Q>, Result<(), LoopFault>)
        ensures { HasPut pass result.0 }
    {
        let waited = self.wait_for_sockets();
        let (pass, icp) = self.datagrams.put_ready(rt, jobs, pass, Udp::Icp, at_once);
        let (pass, htcp) = self.datagrams.put_ready(rt, jobs, pass, Udp::Htcp, at_once);
        at_once.finish();
        let (pass, streams) = self.put_rest(rt, jobs, pass, at_once);
        self.has_more = icp == Ok(true)
            || htcp == Ok(true)
            || streams == Ok(true)
            || self.has_rest();
        (
            pass,
            waited
                .and(icp.map(|_| ()))
                .and(htcp.map(|_| ()))
                .and(streams.map(|_| ())),
        )
    }

    /// Puts the connections whose requests have come and the fetches that have ended, and writes
    /// responses on. Returns whether there may be more.
    fn put_rest<Q: Run, A: AtOnce, R: Net + Wait + Clock>(
        &mut self,
        rt: &R,
        jobs: &Jobs<Q>,
        pass: Pass<Q>,
        at_once: &A,
    ) -> (Pass<Q>, Result<bool, LoopFault>)
        ensures { HasPut pass result.0 }
    {
        match Instant::now(rt) {
            Ok(now) => {
                let (pass, streams) = self.put_streams(rt, jobs, pass, now);
                self.go_on(now);
                let pass = self.put_fetches(rt, jobs, pass, at_once, now);
                (pass, streams)
            }
            Err(_) => (pass, Err(LoopFault::Io)),
        }
    }

    /// Whether there may be more to do that no poll tells of: refused connections, responses,
    /// errands and fetches.
    fn has_rest(&self) -> bool {
        let has_fetches = self.has_errands || self.fetches.has_more();
        self.streams.has_refused()
            || self.deliveries.has_more()
            || (self.owed.is_none() && has_fetches)
    }

    /// Puts the connections whose requests have come. Returns whether there may be more to accept.
    fn put_streams<Q: Run, R: Wait>(
        &mut self,
        rt: &R,
        jobs: &Jobs<Q>,
        pass: Pass<Q>,
        now: Instant,
    ) -> (Pass<Q>, Result<bool, LoopFault>)
        ensures { HasPut pass result.0 }
    {
        let registry = self.poll.registry();
        let pass = self.streams.put_noted(rt, registry, jobs, pass);
        let pass = self.streams.put_late(rt, registry, jobs, pass, now);
        self.streams.put_accepted(rt, registry, jobs, pass, now)
    }

    /// Tells those whose connections are refused, writes responses on, and ends those that are
    /// taken too slowly.
    fn go_on(&mut self, now: Instant) {
        let registry = self.poll.registry();
        let via = self.via.as_slice();
        self.deliveries
            .refuse_all(registry, &mut self.streams, via, now);
        self.deliveries.go_on_ready(via);
        let since = now.saturating_duration_since(self.looked).as_millis();
        if since >= BETWEEN_LOOKS {
            self.looked = now;
            self.deliveries.end_late(now);
            self.fetches.begin_look();
        }
    }

    /// Deals with the next errand. Returns a fetch that has failed at once, and whether there was
    /// an errand.
    fn do_errand<A: AtOnce, R: Net + Wait>(
        &mut self,
        rt: &R,
        at_once: &A,
        now: Instant,
    ) -> (Option<Fetched>, bool) {
        let registry = self.poll.registry();
        let via = self.via.as_slice();
        match self.inbox.take(rt) {
            Some(Errand::Deliver(delivery)) => {
                self.deliveries.add(registry, delivery, via);
                (None, true)
            }
            Some(Errand::Fetch(fetch)) => {
                let failed = self.fetches.add(rt, registry, at_once, fetch, via, now);
                (failed, true)
            }
            None => (None, false),
        }
    }

    /// The next fetch that has ended, if there is one.
    fn next_ended<A: AtOnce, R: Net + Wait>(
        &mut self,
        rt: &R,
        at_once: &A,
        now: Instant,
    ) -> Option<Fetched> {
        if let Some(owed) = self.owed.take() {
            return Some(owed);
        }
        let registry = self.poll.registry();
        let via = self.via.as_slice();
        match self.fetches.next_ended(rt, registry, at_once, via, now) {
            None => self.fetches.next_found(rt, registry, at_once, now),
            ended => ended,
        }
    }

    /// Deals with what is in the inbox, and puts the fetches that have ended. One that finds no
    /// room is owed: it is put first the next time.
    fn put_fetches<Q: Run, A: AtOnce, R: Net + Wait>(
        &mut self,
        rt: &R,
        jobs: &Jobs<Q>,
        mut pass: Pass<Q>,
        at_once: &A,
        now: Instant,
    ) -> Pass<Q>
        ensures { HasPut pass result }
    {
        self.has_errands = true;
        for _ in 0..MOST_ERRANDS {
            let ended = match self.next_ended(rt, at_once, now) {
                None => {
                    let (failed, was_there) = self.do_errand(rt, at_once, now);
                    if !was_there {
                        self.has_errands = false;
                        break;
                    }
                    failed
                }
                ended => ended,
            };
            let Some(fetched) = ended else {
                continue;
            };
            let (after, back) = put_one(rt, jobs, pass, Job::Fetched(fetched));
            pass = after;
            if let Some(Job::Fetched(fetched)) = back {
                self.owed = Some(fetched);
                break;
            }
        }
        pass
    }

    /// Writes the responses that are under way or in the inbox on, and has their connections linger
    /// where their clients may still send, for five seconds at most in all, and does nothing else.
    /// Ends once none is left.
    pub fn finish<R: Wait + Clock>(&mut self, rt: &R) {
        let Ok(begun) = Instant::now(rt) else {
            return;
        };
        for _ in 0..MOST_LAST_POLLS {
            self.take_deliveries(rt);
            let is_over = match Instant::now(rt) {
                Ok(now) => now.saturating_duration_since(begun).as_secs() >= LAST,
                Err(_) => true,
            };
            if is_over || self.deliveries.is_empty() || self.wait_for_sockets().is_err() {
                break;
            }
            self.deliveries.go_on_ready(self.via.as_slice());
        }
    }

    /// Takes the responses out of the inbox, and drops the fetches.
    fn take_deliveries<R: Wait>(&mut self, rt: &R) {
        self.has_more = false;
        let registry = self.poll.registry();
        let via = self.via.as_slice();
        for _ in 0..MOST_LAST_POLLS {
            match self.inbox.take(rt) {
                Some(Errand::Deliver(delivery)) => self.deliveries.add(registry, delivery, via),
                Some(Errand::Fetch(_fetch)) => {}
                None => break,
            }
        }
    }
}

/// A value for several owners.
fn shared<T: Drop>(alloc: Global, value: T) -> Result<Arc<T, Global>, LoopFault> {
    match Arc::new(alloc, value) {
        Ok(value) => Ok(value),
        Err(_) => Err(LoopFault::NoMemory),
    }
}
