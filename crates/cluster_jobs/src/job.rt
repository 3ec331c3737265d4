//! What a worker is to do next.
ghost use Rattle.std.specs.Prelude.{◌≡◌};
ghost use Rattle.cluster_jobs.specs.Lanes.{lane_of, place_of};
ghost use Rattle.cluster_jobs.specs.Order.{sight_of};

use cluster_fetch::Fetched;
use mio::net::TcpStream;
use values_plain::{Address, Udp};

/// Whose a datagram is, by the address that it came from.
#[derive(Clone, Copy, Debug, PartialEq, Eq)]
pub enum Sender {
    /// The master's, which sends purges.
    Master,
    /// A peer's: a member's or a foreign cache's.
    Peer,
    /// Anybody else's.
    Stranger,
}

/// A datagram, a connection whose request head has come, a round of queries whose time is over, or
/// a fetch that has ended or failed.
#[derive(Drop)]
pub enum Job {
    /// A datagram that came over one of the two UDP sockets.
    Datagram {
        /// Whose it is.
        sender: Sender,
        /// The protocol of the socket that it came over.
        udp: Udp,
        /// The address and port of its sender.
        from: Address,
        /// The octets of the datagram.
        octets: Vec<u8>,
    },
    /// A connection that a client opened.
    Stream {
        /// How many connections were accepted before it; after 2^64 - 1 comes 0.
        number: u64,
        /// The connection itself.
        stream: TcpStream,
        /// The octets that were read from it so far.
        octets: Vec<u8>,
    },
    /// The time for answers to a round of queries is over (RFC 2187, section 5.3.3).
    Timer {
        /// The serial of the round.
        serial: u32,
    },
    /// A fetch that has ended.
    Fetched(Fetched),
    /// A fetch has failed: it was not begun, or the step at its end was refused, for want of
    /// memory.
    Failed {
        /// The serial of the fetch.
        serial: u32,
    },
}

/// The lanes of the queue. Each has room for 256 jobs of its own, so that a flood of one kind drops
/// no job of another.
#[derive(Clone, Copy, Debug, PartialEq, Eq)]
pub enum Lane {
    /// Datagrams of the master.
    Purges,
    /// Datagrams of peers.
    Peers,
    /// Datagrams of anybody else.
    Strangers,
    /// Connections.
    Streams,
    /// Timers.
    Timers,
    /// Fetches that have ended or failed.
    Fetches,
}

/// How many lanes there are.
pub(crate) const LANES: usize = 6;

impl Lane {
    /// Its place among the lanes, from 0.
    pub(crate) fn place(self) -> usize
        ensures { result ≡ place_of self }
    {
        match self {
            Lane::Purges => 0,
            Lane::Peers => 1,
            Lane::Strangers => 2,
            Lane::Streams => 3,
            Lane::Timers => 4,
            Lane::Fetches => 5,
        }
    }
}

impl Job {
    /// The lane that it waits in.
    pub fn lane(&self) -> Lane
        ensures { result ≡ lane_of (sight_of self.now) }
    {
        match self {
            Job::Datagram { sender, .. } => match sender {
                Sender::Master => Lane::Purges,
                Sender::Peer => Lane::Peers,
                Sender::Stranger => Lane::Strangers,
            },
            Job::Stream { .. } => Lane::Streams,
            Job::Timer { .. } => Lane::Timers,
            Job::Fetched(_) | Job::Failed { .. } => Lane::Fetches,
        }
    }
}
