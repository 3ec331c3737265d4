//! The responses that the loop writes on as their clients take them.
ghost use Rattle.std.specs.Prelude.{IsTrue};
ghost use Rattle.http_writing.specs.Name.{is_name as names_cache};

use crate::delivery::{Delivered, Delivery};
use crate::fetches::gets_place;
use crate::lingering::Lingering;
use crate::per_address::PerAddress;
use crate::streams::Streams;
use mio::{Registry, Token};
use node_rules::{Serve, Served};
use slab::Slab;
use std::alloc::{AllocError, Global};
use std::mem::{replace, swap};
use std::time::{Duration, Instant};

/// How many responses are under way in the loop at most.
pub(crate) const MOST_DELIVERIES: usize = 4096;

/// How many responses are noted without a need for memory.
const MOST_NOTED: usize = 1024;

/// How many connections are told at a poll at most that they are refused.
const MOST_REFUSED: usize = 256;

/// A response under way, and the IPv4 address of its client.
#[derive(Drop)]
struct Placed {
    delivery: Delivery,
    ip: u32,
}

/// The responses under way, each under a key. An address gets one more of their 4,096 places only
/// while more are free than it has, so one address leaves half of the places to others.
pub(crate) struct Deliveries {
    under_way: Slab<Placed>,
    per_address: PerAddress,
    /// How many of them linger, or will once they are written.
    lingering: Lingering,
    ready: Vec<usize>,
    /// Those that may go on at once after they have gone on.
    again: Vec<usize>,
    kept: Vec<u8>,
    first_token: usize,
    patience: Duration,
    /// How many connections were told 503 since this was last taken.
    refused: u64,
}

impl Drop for Deliveries {
    fn drop(self) {
        let Deliveries {
            under_way: _,
            per_address: _,
            lingering: _,
            ready: _,
            again: _,
            kept: _,
            first_token: _,
            patience: _,
            refused: _,
        } = self;
    }
}

impl Deliveries {
    /// No responses yet. Their tokens are `first_token` and up. `patience` is the time of a client
    /// that is refused. `AllocError` comes where there is no memory for the buffer.
    pub(crate) fn new(
        alloc: Global,
        first_token: usize,
        patience: Duration,
    ) -> Result<Deliveries, AllocError> {
        Ok(Deliveries {
            under_way: Slab::new(alloc),
            per_address: PerAddress::new(alloc),
            lingering: Lingering::new(),
            ready: Vec::with_capacity(alloc, MOST_NOTED)?,
            again: Vec::new(alloc),
            kept: Delivery::buffer(alloc)?,
            first_token,
            patience,
            refused: 0,
        })
    }

    /// Notes that the response under this key may go on. `AllocError` comes where there is no room
    /// to note it; the response then waits for its deadline.
    pub(crate) fn note(&mut self, key: usize) -> Result<(), AllocError> {
        Ok(self.ready.push(key)?)
    }

    /// Goes on with a response, and keeps it until its client takes more. Where 4,096 are under
    /// way, as many to its client's address as places are free, or there is no memory, its
    /// connection is closed. One that would linger behind 256 others is closed once it is written,
    /// also where a worker has written it.
    pub(crate) fn add(&mut self, registry: &Registry, mut delivery: Delivery, via: &[u8])
        requires { IsTrue (names_cache via.now) }
    {
        if delivery.lingers() && !self.lingering.begin() {
            delivery.set_short();
        }
        let lingers = delivery.lingers();
        let delivered = delivery.go_on(&mut self.kept, via);
        let is_kept = delivered != Delivered::Ended && self.keep(registry, delivery, delivered);
        if lingers && !is_kept {
            self.lingering.end();
        }
    }

    /// Whether one more response to this IPv4 address may be kept.
    fn has_room(&self, ip: u32) -> bool {
        let free = MOST_DELIVERIES.saturating_sub(self.under_way.len()) as u64;
        let own = u64::from(self.per_address.count(ip));
        gets_place(MOST_DELIVERIES as u64, free, own)
    }

    /// Keeps a response until its client takes more. Returns whether it is kept: it is closed where
    /// its client's address gets no place, the client has gone, the poll does not take it, or there
    /// is no memory.
    fn keep(&mut self, registry: &Registry, mut delivery: Delivery, delivered: Delivered) -> bool {
        let token = Token(self.first_token.saturating_add(self.under_way.vacant_key()));
        let Some(ip) = delivery.ip() else {
            return false;
        };
        if !self.has_room(ip) || delivery.register(registry, token).is_err() {
            return false;
        }
        if !self.per_address.add(ip) {
            return false;
        }
        match self.under_way.insert(Placed { delivery, ip }) {
            Ok(key) => {
                self.note_more(key, delivered);
                true
            }
            Err(_) => {
                self.per_address.remove(ip);
                false
            }
        }
    }

    /// Closes the connection of the response under this key.
    fn remove(&mut self, key: usize) {
        if let Some(placed) = self.under_way.try_remove(key) {
            self.per_address.remove(placed.ip);
            if placed.delivery.lingers() {
                self.lingering.end();
            }
        }
    }

    /// Notes a response that may go on at once. Where there is no room to note it, it waits for its
    /// deadline.
    fn note_more(&mut self, key: usize, delivered: Delivered) {
        if delivered == Delivered::More {
            let _ = self.again.push(key);
        }
    }

    /// Whether some may go on without waiting.
    pub(crate) fn has_more(&self) -> bool {
        !self.ready.is_empty()
    }

    /// How many connections were told 503 since this was last called.
    pub(crate) fn take_refused(&mut self) -> u64 {
        replace(&mut self.refused, 0)
    }

    /// Tells 503 to those whose connections are refused, and counts them.
    pub(crate) fn refuse_all(
        &mut self,
        registry: &Registry,
        streams: &mut Streams,
        via: &[u8],
        now: Instant,
    )
        requires { IsTrue (names_cache via.now) }
    {
        for _ in 0..MOST_REFUSED {
            let Some((stream, lingers)) = streams.next_refused() else {
                break;
            };
            self.refused = self.refused.saturating_add(1);
            self.add(
                registry,
                Delivery::new(stream, unavailable(), lingers, self.patience, now),
                via,
            );
        }
    }

    /// Goes on with the response under this key.
    fn go_on(&mut self, key: usize, via: &[u8])
        requires { IsTrue (names_cache via.now) }
    {
        let delivered = match self.under_way.get_mut(key) {
            Some(placed) => placed.delivery.go_on(&mut self.kept, via),
            None => return,
        };
        if delivered == Delivered::Ended {
            self.remove(key);
        }
        self.note_more(key, delivered);
    }

    /// Goes on with the responses that were noted.
    pub(crate) fn go_on_ready(&mut self, via: &[u8])
        requires { IsTrue (names_cache via.now) }
    {
        for place in 0..self.ready.len() {
            let Some(key) = self.ready.get(place).copied() else {
                break;
            };
            self.go_on(key, via);
        }
        self.ready.clear();
        swap(&mut self.ready, &mut self.again);
    }

    /// Closes the connections whose clients take too little, and those that have lingered for five
    /// seconds.
    pub(crate) fn end_late(&mut self, now: Instant) {
        if self.under_way.is_empty() {
            return;
        }
        for key in 0..MOST_DELIVERIES {
            let is_late = match self.under_way.get_mut(key) {
                Some(placed) => placed.delivery.is_late(now),
                None => false,
            };
            if is_late {
                self.remove(key);
            }
        }
    }

    /// Whether none is under way.
    pub(crate) fn is_empty(&self) -> bool {
        self.under_way.is_empty()
    }
}

/// The status of a connection that is refused (RFC 9110, section 15.6.4).
fn unavailable() -> Serve<()> {
    Serve {
        waiter: None,
        asker: None,
        served: Served::Status(503),
    }
}
