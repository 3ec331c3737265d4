//! A response that its client has not taken whole.
ghost use Rattle.std.specs.Prelude.{◌≡◌, ◌≤◌, [], IsTrue, IfOk};
ghost use Rattle.std.specs.Vec.{vec_capacity};
ghost use Rattle.http_writing.specs.Name.{is_name as names_cache};

use crate::outgoing::{KEPT, Outgoing};
use mio::net::TcpStream;
use mio::{Interest, Registry, Token};
use node_rules::Serve;
use node_serving::finish;
use std::alloc::{AllocError, Global};
use std::io::{self, ErrorKind, Read, Write};
use std::net::Shutdown;
use std::time::{Duration, Instant};
use values_plain::Address;

/// How many octets of its response a client has to take in each second, on an average.
const LEAST: u128 = 1024;

/// How many pieces of what a client sends after its request are read, and dropped, at once.
const MOST_DROPPED: u32 = 64;

/// How many seconds a connection lingers at most.
const MOST_LINGERED: u64 = 5;

/// How a delivery stands.
#[derive(Clone, Copy, Debug, PartialEq, Eq)]
pub enum Delivered {
    /// The client has not taken all of it yet.
    Waits,
    /// It may go on at once.
    More,
    /// It is done, or cannot be: the connection is to be closed.
    Ended,
}

/// A response on its way to its client, on a connection of its own.
pub struct Delivery {
    stream: TcpStream,
    serve: Serve<()>,
    sent: usize,
    lingers: bool,
    is_written: bool,
    /// Since when it has lingered, as far as a look for late ones has found.
    lingers_since: Option<Instant>,
    patience: Duration,
    until: Instant,
    sent_before: usize,
}

impl Drop for Delivery {
    fn drop(self) {
        let Delivery {
            stream: _,
            serve: _,
            sent: _,
            lingers: _,
            is_written: _,
            lingers_since: _,
            patience: _,
            until: _,
            sent_before: _,
        } = self;
    }
}

impl Delivery {
    /// A buffer for the short pieces of one response at a time. It has room for all that is kept at
    /// once, so that writing takes no more memory. `AllocError` comes where there is none for it.
    pub fn buffer(alloc: Global) -> Result<Vec<u8>, AllocError>
        ensures empty { IfOk result (λ buffer. buffer.items ≡ []) }
        ensures room { IfOk result (λ buffer. 16384 ≤ vec_capacity buffer) }
    {
        Vec::with_capacity(alloc, KEPT)
    }

    /// A response from its beginning, which begins at this moment. `lingers` where its client may
    /// still send, since its request was not read to the end. After `patience`, and again after
    /// each such time, a client that has taken fewer than 1,024 octets a second of it is given up.
    pub fn new(
        stream: TcpStream,
        serve: Serve<()>,
        lingers: bool,
        patience: Duration,
        now: Instant,
    ) -> Delivery {
        // (where the system refuses this, a short piece may wait until the one before it is
        // acknowledged)
        match stream.set_nodelay(true) {
            Ok(()) | Err(_) => {}
        }
        Delivery {
            stream,
            serve,
            sent: 0,
            lingers,
            is_written: false,
            lingers_since: None,
            patience,
            until: now.checked_add(patience).unwrap_or(now),
            sent_before: 0,
        }
    }

    /// Writes what the client takes now, without waiting, by the cache whose name stands in `via`.
    /// `kept` is where short pieces are kept meanwhile.
    ///
    /// Once all is written it has ended. But where the client may still send, the sending side is
    /// closed first, and what comes is read and dropped until the client closes its side, for five
    /// seconds at most: if the connection were closed while it sends, it might lose the response
    /// (RFC 9112, section 9.6).
    pub fn go_on(&mut self, kept: &mut Vec<u8>, via: &[u8]) -> Delivered
        requires { IsTrue (names_cache via.now) }
    {
        if self.is_written {
            return self.drop_rest();
        }
        let mut outgoing = Outgoing::new(&mut self.stream, kept, self.sent);
        let is_done = finish(&mut outgoing, &self.serve, via).is_ok() && outgoing.flush().is_ok();
        let is_blocked = outgoing.is_blocked();
        self.sent = outgoing.sent();
        match (is_done, is_blocked) {
            (true, _) => self.end(),
            (false, true) => Delivered::Waits,
            (false, false) => Delivered::Ended,
        }
    }

    /// Ends a response that is written whole: closes the sending side, where the client may still
    /// send.
    fn end(&mut self) -> Delivered {
        self.is_written = true;
        if self.lingers && self.stream.shutdown(Shutdown::Write).is_err() {
            return Delivered::Ended;
        }
        self.drop_rest()
    }

    /// Reads and drops what the client still sends, where the connection lingers.
    fn drop_rest(&mut self) -> Delivered {
        if !self.lingers {
            return Delivered::Ended;
        }
        let mut piece = [0; 1024];
        for _ in 0..MOST_DROPPED {
            match self.stream.read(&mut piece) {
                Ok(0) => return Delivered::Ended,
                Ok(_) => {}
                Err(error) if error.kind() == ErrorKind::WouldBlock => return Delivered::Waits,
                Err(error) if error.kind() == ErrorKind::Interrupted => {}
                Err(_) => return Delivered::Ended,
            }
        }
        Delivered::More
    }

    /// Whether the connection stays open behind the response until the client closes its side.
    pub(crate) fn lingers(&self) -> bool {
        self.lingers
    }

    /// Has the connection be closed once the response is written, also where it is written already.
    pub(crate) fn set_short(&mut self) {
        self.lingers = false;
    }

    /// The IPv4 address of its client; none where the client has gone.
    pub(crate) fn ip(&self) -> Option<u32> {
        match self.stream.peer_addr() {
            Ok(from) => Some(Address::of_socket(from).ip),
            Err(_) => None,
        }
    }

    /// Has a poll tell, under this token, when it may go on.
    pub(crate) fn register(&mut self, registry: &Registry, token: Token) -> io::Result<()> {
        let interest = Interest::READABLE | Interest::WRITABLE;
        registry.register(&mut self.stream, token, interest)
    }

    /// Whether its connection has lingered for five seconds since this was first asked.
    fn has_lingered(&mut self, now: Instant) -> bool {
        let since = self.lingers_since.unwrap_or(now);
        self.lingers_since = Some(since);
        now.saturating_duration_since(since).as_secs() >= MOST_LINGERED
    }

    /// Whether its client takes it too slowly at this moment: the time for it has passed, since it
    /// began or since it was last late, in which fewer than 1,024 octets a second were taken. Once
    /// it is written: whether its connection has lingered for five seconds.
    pub(crate) fn is_late(&mut self, now: Instant) -> bool {
        if self.is_written {
            return self.has_lingered(now);
        }
        if now < self.until {
            return false;
        }
        let taken = self.sent.saturating_sub(self.sent_before) as u128;
        let least = self.patience.as_millis().saturating_mul(LEAST) / 1000;
        self.sent_before = self.sent;
        self.until = now.checked_add(self.patience).unwrap_or(now);
        taken < least
    }
}
