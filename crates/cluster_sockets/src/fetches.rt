//! The fetches that are under way, and those that wait for their turn.
ghost use Rattle.std.specs.Prelude.{◌≡◌, IsTrue};
ghost use Rattle.http_writing.specs.Name.{is_name as names_cache};
ghost use Rattle.cluster_sockets.specs.Counts.{gets_place as may_have_one};

use crate::at_once::AtOnce;
use cluster_fetch::{FetchRequest, Fetched, Fetching};
use http_messages::Answer;
use mio::{Registry, Token};
use slab::Slab;
use std::alloc::{AllocError, Global};
use std::collections::VecDeque;
use std::mem::replace;
use std::net::Net;
use std::sync::Wait;
use std::time::{Duration, Instant};
use values_plain::Address;
use values_tables::Limits;

/// How many fetches are under way at most.
pub(crate) const MOST_FETCHES: usize = 1024;

/// How many fetches wait for their turn at one address at most. Further ones fail at once, so that
/// an address that does not answer leaves room for the requests of others.
const MOST_IN_QUEUE: usize = 512;

/// The fetches from one address: how many are under way, and those that wait for their turn.
#[derive(Drop)]
struct AddressQueue {
    at: Address,
    under_way: u64,
    waiting: VecDeque<FetchRequest>,
}

/// A fetch under way, and the place of its queue.
#[derive(Drop)]
struct Placed {
    fetching: Fetching,
    queue: usize,
}

/// Whether an address gets one place more that has this many: fewer than it may have at most, and
/// fewer than are free. So each address leaves half of the places that it finds to others.
pub(crate) fn gets_place(most: u64, free: u64, own: u64) -> bool
    ensures { result ≡ may_have_one most free own }
{
    own < most.min(free)
}

/// The fetches of a node. Each address has a queue of its own, so one that does not answer holds up
/// its own fetches alone. Of the 1,024 places an address gets one more only while more are free
/// than it has. The queues take turns.
pub(crate) struct Fetches {
    alloc: Global,
    under_way: Slab<Placed>,
    queues: Vec<AddressQueue>,
    ready: VecDeque<usize>,
    /// Whether a queue in which fetches wait may have room.
    may_begin: bool,
    /// The place of the queue whose turn is next.
    turn: usize,
    /// Where the look for late fetches goes on.
    looked: usize,
    /// The queue at which the look for fetches that nobody waits for goes on.
    combed: usize,
    first_token: usize,
    /// Whether a fetch lacked a descriptor since this was last asked.
    has_lacked: bool,
    /// How many connections to one address are open at most.
    most_of_address: u64,
    /// How long a fetch may take, from the moment at which it begins to connect.
    patience: Duration,
}

impl Drop for Fetches {
    fn drop(self) {
        let Fetches {
            alloc: _,
            under_way: _,
            queues: _,
            ready: _,
            may_begin: _,
            turn: _,
            looked: _,
            combed: _,
            first_token: _,
            has_lacked: _,
            most_of_address: _,
            patience: _,
        } = self;
    }
}

impl Fetches {
    /// No fetches yet. Their tokens are `first_token` and up. The limits are the roster's. It takes
    /// no memory.
    pub(crate) fn new(alloc: Global, first_token: usize, limits: Limits) -> Fetches {
        Fetches {
            alloc,
            under_way: Slab::new(alloc),
            queues: Vec::new(alloc),
            ready: VecDeque::new(alloc),
            may_begin: false,
            turn: 0,
            looked: MOST_FETCHES,
            combed: 0,
            first_token,
            has_lacked: false,
            most_of_address: limits.fetches_per_address,
            patience: Duration::from_millis(limits.fetch_wait),
        }
    }

    /// Notes that the fetch under this key may go on. `AllocError` comes where there is no room to
    /// note it; the fetch then waits for the next look.
    pub(crate) fn note(&mut self, key: usize) -> Result<(), AllocError> {
        self.ready.push_back(key)?;
        Ok(())
    }

    /// Whether a fetch failed for want of a descriptor since this was last called.
    pub(crate) fn has_lacked(&mut self) -> bool {
        replace(&mut self.has_lacked, false)
    }

    /// Whether some may go on without waiting.
    pub(crate) fn has_more(&self) -> bool {
        let looks = self.looked < MOST_FETCHES || self.combed < self.queues.len();
        self.may_begin || !self.ready.is_empty() || looks
    }

    /// Begins a look at all fetches, which `next_found` goes on with.
    pub(crate) fn begin_look(&mut self) {
        self.looked = 0;
        self.combed = 0;
    }

    /// The place of the queue of an address.
    fn queue_of(&mut self, at: Address) -> Result<usize, AllocError> {
        if let Some(place) = self.queues.iter().position(|queue| queue.at == at) {
            return Ok(place);
        }
        self.queues.push(AddressQueue {
            at,
            under_way: 0,
            waiting: VecDeque::new(self.alloc),
        })?;
        Ok(self.queues.len().saturating_sub(1))
    }

    /// Begins a fetch, or has it wait for its turn. It comes back as one that has ended where it
    /// failed at once, its client was told that it took too long, 512 wait for their turn at its
    /// address, or there is no memory.
    pub(crate) fn add<A: AtOnce, R: Net + Wait>(
        &mut self,
        rt: &R,
        registry: &Registry,
        at_once: &A,
        fetch: FetchRequest,
        via: &[u8],
        now: Instant,
    ) -> Option<Fetched>
        requires { IsTrue (names_cache via.now) }
    {
        if !at_once.is_wanted(rt, fetch.serial) {
            return Some(fetch.into_failed());
        }
        let Ok(place) = self.queue_of(fetch.at) else {
            return Some(fetch.into_failed());
        };
        if self.has_room(place) {
            return self.begin(rt, registry, place, fetch, via, now);
        }
        match self.queues.get_mut(place) {
            Some(queue) if queue.waiting.len() >= MOST_IN_QUEUE => Some(fetch.into_failed()),
            Some(queue) => match queue.waiting.push_back(fetch) {
                Ok(()) => None,
                Err(failed) => Some(failed.value.into_failed()),
            },
            None => Some(fetch.into_failed()),
        }
    }

    /// Whether one more connection may be opened to the address of this queue.
    fn has_room(&self, place: usize) -> bool {
        let free = MOST_FETCHES.saturating_sub(self.under_way.len()) as u64;
        match self.queues.get(place) {
            Some(queue) => gets_place(self.most_of_address, free, queue.under_way),
            None => false,
        }
    }

    /// Begins a fetch of this queue.
    fn begin<R: Net>(
        &mut self,
        net: &R,
        registry: &Registry,
        queue: usize,
        fetch: FetchRequest,
        via: &[u8],
        now: Instant,
    ) -> Option<Fetched>
        requires { IsTrue (names_cache via.now) }
    {
        let until = now.checked_add(self.patience).unwrap_or(now);
        match Fetching::begin(net, self.alloc, fetch, via, until) {
            Ok(fetching) => self.keep(registry, Placed { fetching, queue }),
            Err(failed) => {
                self.has_lacked = self.has_lacked || failed.lacks_descriptor;
                Some(failed.fetched)
            }
        }
    }

    /// Keeps a fetch that has begun. It comes back as one that has failed, by no fault of the other
    /// side, where the poll does not take it, or there is no memory.
    fn keep(&mut self, registry: &Registry, mut placed: Placed) -> Option<Fetched> {
        let token = Token(self.first_token.saturating_add(self.under_way.vacant_key()));
        let queue = placed.queue;
        if placed.fetching.register(registry, token).is_err() {
            return Some(placed.fetching.into_lacked());
        }
        match self.under_way.insert(placed) {
            Ok(_) => {
                if let Some(queue) = self.queues.get_mut(queue) {
                    queue.under_way = queue.under_way.saturating_add(1);
                }
                None
            }
            Err(failed) => Some(failed.value.fetching.into_lacked()),
        }
    }

    /// Takes out the fetch under this key, which has ended.
    fn end(&mut self, registry: &Registry, key: usize, answer: Option<Answer>) -> Option<Fetched> {
        let Placed {
            mut fetching,
            queue,
        } = self.under_way.try_remove(key)?;
        fetching.deregister(registry);
        if let Some(queue) = self.queues.get_mut(queue) {
            queue.under_way = queue.under_way.saturating_sub(1);
        }
        self.may_begin = true;
        Some(fetching.into_fetched(answer))
    }

    /// Goes on with the fetch under this key.
    fn go_on(&mut self, registry: &Registry, key: usize) -> Option<Fetched> {
        let answer = self.under_way.get_mut(key)?.fetching.go_on(self.alloc)?;
        self.end(registry, key, answer)
    }

    /// Whether a fetch waits in this queue, and there is room for it.
    fn is_due(&self, place: usize) -> bool {
        match self.queues.get(place) {
            Some(queue) => !queue.waiting.is_empty() && self.has_room(place),
            None => false,
        }
    }

    /// Takes out the next fetch that waits and for which there is room, with the place of its
    /// queue. The queues take turns.
    fn next_turn(&mut self) -> Option<(usize, FetchRequest)> {
        if !self.may_begin {
            return None;
        }
        let count = self.queues.len();
        let first = self.turn.min(count);
        let Some(place) = (first..count)
            .chain(0..first)
            .find(|place| self.is_due(*place))
        else {
            self.may_begin = false;
            return None;
        };
        self.turn = place.saturating_add(1);
        let fetch = self.queues.get_mut(place)?.waiting.pop_front()?;
        Some((place, fetch))
    }

    /// Begins a fetch that has waited for its turn. One whose client no longer waits, or has gone
    /// away, has failed instead.
    fn begin_next<A: AtOnce, R: Net + Wait>(
        &mut self,
        rt: &R,
        registry: &Registry,
        at_once: &A,
        next: (usize, FetchRequest),
        via: &[u8],
        now: Instant,
    ) -> Option<Fetched>
        requires { IsTrue (names_cache via.now) }
    {
        let (place, fetch) = next;
        if !at_once.is_there(rt, fetch.serial) {
            return Some(fetch.into_failed());
        }
        self.begin(rt, registry, place, fetch, via, now)
    }

    /// Goes on with what may go on, until a fetch has ended, and gives that one. There is none
    /// where all wait.
    pub(crate) fn next_ended<A: AtOnce, R: Net + Wait>(
        &mut self,
        rt: &R,
        registry: &Registry,
        at_once: &A,
        via: &[u8],
        now: Instant,
    ) -> Option<Fetched>
        requires { IsTrue (names_cache via.now) }
    {
        for _ in 0..MOST_FETCHES {
            let ended = match self.next_turn() {
                Some(next) => self.begin_next(rt, registry, at_once, next, via, now),
                None => {
                    let key = self.ready.pop_front()?;
                    self.go_on(registry, key)
                }
            };
            if ended.is_some() {
                return ended;
            }
        }
        None
    }

    /// Goes on with a look: gives the next fetch that it finds to have ended. First are those under
    /// way, and then those that are first in their queues and that nobody waits for.
    pub(crate) fn next_found<A: AtOnce, R: Wait>(
        &mut self,
        rt: &R,
        registry: &Registry,
        at_once: &A,
        now: Instant,
    ) -> Option<Fetched> {
        match self.next_late(registry, now) {
            None => self.next_unwanted(rt, at_once),
            late => late,
        }
    }

    /// Takes out the next fetch that is the first in its queue and whose client no longer waits, or
    /// has gone away. It has failed.
    fn next_unwanted<A: AtOnce, R: Wait>(&mut self, rt: &R, at_once: &A) -> Option<Fetched> {
        for place in self.combed..self.queues.len() {
            self.combed = place;
            let waiting = &mut self.queues.get_mut(place)?.waiting;
            match waiting.front() {
                Some(fetch) if !at_once.is_there(rt, fetch.serial) => {
                    return Some(waiting.pop_front()?.into_failed());
                }
                _ => {}
            }
        }
        self.combed = self.queues.len();
        None
    }

    /// Goes on with a look: gives the next fetch under way whose time is over, or whose response
    /// has come whole since it was last read.
    fn next_late(&mut self, registry: &Registry, now: Instant) -> Option<Fetched> {
        for key in self.looked..MOST_FETCHES {
            self.looked = key.saturating_add(1);
            let answer = match self.under_way.get_mut(key) {
                Some(placed) => match placed.fetching.look(self.alloc) {
                    None if placed.fetching.is_late(now) => Some(None),
                    answer => answer,
                },
                None => None,
            };
            if let Some(answer) = answer {
                return self.end(registry, key, answer);
            }
        }
        None
    }
}
