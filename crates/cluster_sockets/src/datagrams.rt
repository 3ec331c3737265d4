//! From the UDP sockets into the job queue.
ghost use Rattle.std.specs.Prelude.{IfOk};
ghost use Rattle.cluster_sockets.specs.Polls.{HasPut, IsSound};

use crate::at_once::AtOnce;
use crate::fault::LoopFault;
use crate::putting::{Come, put_or_drop};
use crate::sockets::Sockets;
use cluster_jobs::{Job, Jobs, Pass, Run};
use std::alloc::{AllocError, Global};
use std::io::ErrorKind;
use std::sync::{Arc, Wait};
use std::time::Clock;
use values_plain::{Address, Udp};

/// The size of the receive buffer in octets. No datagram of IPv4 is longer.
const LONGEST_DATAGRAM: usize = 65_536;

/// How many datagrams of one protocol a poll reads at most, so that each socket gets its share of a
/// poll.
const MOST_DATAGRAMS: usize = 256;

/// Reads the datagrams of a node.
pub(crate) struct Datagrams {
    alloc: Global,
    sockets: Arc<Sockets, Global>,
    buffer: Vec<u8>,
    icp_is_ready: bool,
    htcp_is_ready: bool,
}

impl Drop for Datagrams {
    fn drop(self) {
        let Datagrams {
            alloc: _,
            sockets: _,
            buffer: _,
            icp_is_ready: _,
            htcp_is_ready: _,
        } = self;
    }
}

impl Datagrams {
    /// Reads these sockets, from the first poll on. `AllocError` comes where there is no
    /// memory for the receive buffer.
    pub(crate) fn new(
        alloc: Global,
        sockets: Arc<Sockets, Global>,
    ) -> Result<Datagrams, AllocError> {
        Ok(Datagrams {
            alloc,
            sockets,
            buffer: vec![in alloc; 0; LONGEST_DATAGRAM]?,
            icp_is_ready: true,
            htcp_is_ready: true,
        })
    }

    /// Notes whether the socket of a protocol may have datagrams to read.
    pub(crate) fn set_ready(&mut self, udp: Udp, is_ready: bool) {
        match udp {
            Udp::Icp => self.icp_is_ready = is_ready,
            Udp::Htcp => self.htcp_is_ready = is_ready,
        }
    }

    /// Whether the socket of a protocol may have datagrams to read.
    fn is_ready(&self, udp: Udp) -> bool {
        match udp {
            Udp::Icp => self.icp_is_ready,
            Udp::Htcp => self.htcp_is_ready,
        }
    }

    /// Reads the next datagram of a protocol, if one is there. It is answered at once, or has a
    /// job. Where there is no memory for its octets it is lost.
    fn next<A: AtOnce, R: Wait + Clock>(
        &mut self,
        rt: &R,
        udp: Udp,
        at_once: &mut A,
    ) -> Result<Come, LoopFault>
        ensures { IfOk result IsSound }
    {
        match self.sockets.by(udp).recv_from(self.buffer.as_mut_slice()) {
            Ok((length, from)) => {
                let (from, came) = (Address::of_socket(from), &self.buffer.as_slice()[..length]);
                if at_once.deals_with(rt, udp, from, came) {
                    return Ok(Come::Taken(None));
                }
                let mut octets = Vec::with_capacity(self.alloc, length)?;
                octets.extend_from_slice(came)?;
                let sender = at_once.sender_of(udp, from);
                Ok(Come::Taken(Some(Job::Datagram {
                    sender,
                    udp,
                    from,
                    octets,
                })))
            }
            Err(error) if error.kind() == ErrorKind::WouldBlock => Ok(Come::Nothing),
            Err(_) => Err(LoopFault::Io),
        }
    }

    /// Reads what is ready of a protocol, 256 datagrams at most, and puts the jobs. Returns whether
    /// there may be more.
    pub(crate) fn put_ready<Q: Run, A: AtOnce, R: Wait + Clock>(
        &mut self,
        rt: &R,
        jobs: &Jobs<Q>,
        mut pass: Pass<Q>,
        udp: Udp,
        at_once: &mut A,
    ) -> (Pass<Q>, Result<bool, LoopFault>)
        ensures { HasPut pass result.0 }
    {
        if !self.is_ready(udp) {
            return (pass, Ok(false));
        }
        for _ in 0..MOST_DATAGRAMS {
            match self.next(rt, udp, at_once) {
                Ok(Come::Taken(job)) => pass = put_or_drop(rt, jobs, pass, job),
                Ok(Come::Nothing) => {
                    self.set_ready(udp, false);
                    return (pass, Ok(false));
                }
                Err(fault) => return (pass, Err(fault)),
            }
        }
        (pass, Ok(true))
    }
}
