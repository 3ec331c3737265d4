//! Connections whose request head has not come whole.
ghost use Rattle.std.specs.Prelude.{IfSome};
ghost use Rattle.cluster_jobs.specs.Order.{sight_of};
ghost use Rattle.cluster_sockets.specs.Polls.{HasCome};

use cluster_jobs::Job;
use cluster_streams::PATIENCE;
use http_intake::{HeadEnd, LONGEST_HEAD};
use http_reading::lower_version;
use mio::net::TcpStream;
use mio::{Interest, Registry, Token};
use std::alloc::{AllocError, Global};
use std::io::{self, ErrorKind, Read};
use std::net::Shutdown;
use std::time::Instant;

/// What became of a connection that was read.
pub(crate) enum Reading {
    /// More of the head has to come.
    Waits,
    /// A worker can read the request without waiting for the head.
    Came,
    /// It failed, or ended before anything came, or there was no memory for what came.
    Gone,
}

/// A connection, and what was read of it.
pub(crate) struct HeadReading {
    number: u64,
    ip: u32,
    stream: TcpStream,
    octets: Vec<u8>,
    end: HeadEnd,
    since: Instant,
}

impl Drop for HeadReading {
    fn drop(self) {
        let HeadReading {
            number: _,
            ip: _,
            stream: _,
            octets: _,
            end: _,
            since: _,
        } = self;
    }
}

impl HeadReading {
    /// A connection from an IPv4 address that was accepted at this moment, before anything is read
    /// of it.
    pub(crate) fn new(
        alloc: Global,
        number: u64,
        ip: u32,
        stream: TcpStream,
        since: Instant,
    ) -> HeadReading {
        HeadReading {
            number,
            ip,
            stream,
            octets: Vec::new(alloc),
            end: HeadEnd::new(0, true),
            since,
        }
    }

    /// Adds octets that came. Returns whether the head has come whole, or is too long.
    fn take_in(&mut self, piece: &[u8]) -> Result<bool, AllocError> {
        self.octets.extend_from_slice(piece)?;
        let has_come = self.end.has_come(self.octets.as_slice());
        Ok(has_come || self.octets.len() >= LONGEST_HEAD)
    }

    /// Reads what is there, without waiting, until the head has come whole.
    pub(crate) fn read(&mut self) -> Reading {
        let mut piece = [0; 2048];
        for _ in 0..LONGEST_HEAD {
            match self.stream.read(&mut piece) {
                Ok(0) if self.is_silent() => return Reading::Gone,
                Ok(0) => return Reading::Came,
                Ok(count) => match self.take_in(&piece[..count]) {
                    Ok(true) => return Reading::Came,
                    Ok(false) => {}
                    Err(_) => return Reading::Gone,
                },
                Err(error) if error.kind() == ErrorKind::WouldBlock => return Reading::Waits,
                Err(error) if error.kind() == ErrorKind::Interrupted => {}
                Err(_) => return Reading::Gone,
            }
        }
        Reading::Came
    }

    /// Has the poll tell, under this key, when more has come.
    pub(crate) fn register(&mut self, registry: &Registry, key: usize) -> io::Result<()> {
        registry.register(&mut self.stream, Token(key), Interest::READABLE)
    }

    /// Whether nothing has come of it.
    pub(crate) fn is_silent(&self) -> bool {
        self.octets.is_empty()
    }

    /// Whether its five seconds have passed.
    pub(crate) fn is_late(&self, now: Instant) -> bool {
        now.saturating_duration_since(self.since).as_secs() >= PATIENCE
    }

    /// Whether it has waited for a second.
    pub(crate) fn has_waited(&self, now: Instant) -> bool {
        now.saturating_duration_since(self.since).as_secs() >= 1
    }

    /// Shuts down its reading side: a worker reads no more of it than has come by now.
    pub(crate) fn end(&mut self) {
        // (a stream that its client has reset cannot be shut down; it has ended anyway)
        let _ = self.stream.shutdown(Shutdown::Read);
    }

    /// Takes it out of the poll.
    pub(crate) fn deregister(&mut self, registry: &Registry) {
        // (where this fails, the poll forgets the stream once it is closed; until then it may tell
        // of a key under which none waits)
        let _ = registry.deregister(&mut self.stream);
    }

    /// How many connections were accepted before it.
    pub(crate) fn number(&self) -> u64 {
        self.number
    }

    /// The IPv4 address that it comes from.
    pub(crate) fn ip(&self) -> u32 {
        self.ip
    }

    /// The connection alone.
    pub(crate) fn into_stream(self) -> TcpStream {
        let HeadReading {
            number: _,
            ip: _,
            stream,
            octets: _,
            end: _,
            since: _,
        } = self;
        stream
    }

    /// Makes it a job for a worker, which reads a request of HTTP/1.2 to HTTP/1.9 as one of
    /// HTTP/1.1 (RFC 9110, section 6.2).
    pub(crate) fn into_job(self) -> Job
        ensures { HasCome (sight_of result) }
    {
        let HeadReading {
            number,
            ip: _,
            stream,
            mut octets,
            end: _,
            since: _,
        } = self;
        lower_version(octets.as_mut_slice());
        Job::Stream {
            number,
            stream,
            octets,
        }
    }
}
