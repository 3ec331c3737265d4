//! The poll instance of a thread.
ghost use Rattle.std.specs.Prelude.{◌≤◌};

use mio::net::TcpStream;
use mio::{Events, Interest, Poll, Token};
use std::alloc::Global;
use std::io;
use std::net::Net;
use std::time::Duration;

/// How many octets are kept at most before they are sent.
const KEPT: usize = 16_384;

/// How many seconds a whole message may take on a connection.
pub const PATIENCE: u64 = 5;

/// What one thread polls for its streams, one stream at a time, and the buffer where it keeps what
/// is written to one of them.
pub struct StreamPoll {
    poll: Poll,
    events: Events,
    /// What is written and not sent yet, 16,384 octets at most.
    pub(crate) kept: Vec<u8>,
}

impl Drop for StreamPoll {
    fn drop(self) {
        let StreamPoll {
            poll: _,
            events: _,
            kept: _,
        } = self;
    }
}

impl StreamPoll {
    /// The poll of a thread. An error comes where the system gives no poll instance, or there is
    /// no memory.
    pub fn new<N: Net>(net: &N, alloc: Global) -> io::Result<StreamPoll> {
        Ok(StreamPoll {
            poll: Poll::new(net)?,
            events: Events::with_capacity(alloc, 1)?,
            kept: Vec::with_capacity(alloc, KEPT)?,
        })
    }

    /// Whether this many octets have room beside those that are kept.
    pub(crate) fn has_room(&self, count: usize) -> bool {
        count <= KEPT.saturating_sub(self.kept.len())
    }

    /// Polls until the stream may be ready, for this long at most.
    pub(crate) fn wait(
        &mut self,
        stream: &mut TcpStream,
        interest: Interest,
        most: Duration,
    ) -> io::Result<()> {
        self.poll.registry().register(stream, Token(0), interest)?;
        let waited = self.poll.poll(&mut self.events, Some(most));
        let ended = self.poll.registry().deregister(stream);
        waited?;
        ended
    }
}

/// What one thread polls for the streams that it reads, and for those that it writes. They are two,
/// so that a response can be written while its request is still read.
#[derive(Drop)]
pub struct StreamPolls {
    /// For a stream that is read.
    pub reading: StreamPoll,
    /// For a stream that is written.
    pub writing: StreamPoll,
}

impl StreamPolls {
    /// The two polls of a thread. An error comes where the system gives no poll instance, or there
    /// is no memory.
    pub fn new<N: Net>(net: &N, alloc: Global) -> io::Result<StreamPolls> {
        Ok(StreamPolls {
            reading: StreamPoll::new(net, alloc)?,
            writing: StreamPoll::new(net, alloc)?,
        })
    }
}
