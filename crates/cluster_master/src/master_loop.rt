//! The master's event loop.
ghost use Rattle.std.specs.Prelude.{IfErr};
ghost use Rattle.cluster_master.specs.Names.{IsAtPort};

use crate::fault::MasterStartFault;
use crate::schedule::Schedule;
use crate::sending::{MasterSender, MasterShared, moment};
use crate::shared::SharedMaster;
use mio::net::UdpSocket;
use mio::{Events, Interest, Poll, Token, Waker};
use node_bytes::master_call_of;
use purge_rules::PurgeStore;
use roster::{Address, Roster};
use std::alloc::{AllocError, Global};
use std::io::{self, ErrorKind};
use std::net::Net;
use std::sync::atomic::{AtomicBool, Ordering};
use std::sync::{Arc, Mutex, Wait};
use std::thread;
use std::time::{Clock, Duration};

/// The poll token of the master's socket.
const SOCKET: Token = Token(0);

/// The poll token of what ends a poll once a number was given.
const WAKER: Token = Token(1);

/// How many events one poll tells at most.
const MOST_EVENTS: usize = 16;

/// The size of the receive buffer in octets. No datagram of IPv4 is longer.
const LONGEST_DATAGRAM: usize = 65_536;

/// How many datagrams a poll reads at most, so that sending gets its share of a poll.
const MOST_DATAGRAMS: usize = 256;

/// How many milliseconds a poll waits at most, and how long the loop pauses after a poll that
/// failed.
const WAIT: u64 = 100;

/// A socket at the master's address.
fn bound<N: Net>(net: &N, address: Address) -> Result<UdpSocket, MasterStartFault>
    ensures { IfErr result (IsAtPort address.port) }
{
    match UdpSocket::bind(net, address.socket()) {
        Ok(socket) => Ok(socket),
        Err(error) => match error.kind() {
            ErrorKind::AddrInUse | ErrorKind::AddrNotAvailable => {
                Err(MasterStartFault::Port(address.port))
            }
            _ => Err(MasterStartFault::Io),
        },
    }
}

/// Reads the master's socket, and sends what is due. One thread has it.
pub struct MasterLoop {
    alloc: Global,
    poll: Poll,
    events: Events,
    sender: MasterSender,
    buffer: Vec<u8>,
    is_ready: bool,
}

impl Drop for MasterLoop {
    fn drop(self) {
        let MasterLoop {
            alloc: _,
            poll: _,
            events: _,
            sender: _,
            buffer: _,
            is_ready: _,
        } = self;
    }
}

impl MasterLoop {
    /// Opens the master's UDP socket, at the roster's address.
    ///
    /// Faults: `Port` with the roster's port where it is in use, or the address is not this
    /// machine's; `Io` where the system refuses in another way; `NoMemory`. After a fault nothing
    /// is open.
    pub fn open<N: Net + Clock>(
        rt: &N,
        alloc: Global,
        roster: &Roster,
    ) -> Result<MasterLoop, MasterStartFault>
        ensures { IfErr result (IsAtPort roster.now.master.port) }
    {
        let mut socket = bound(rt, roster.master())?;
        let poll = Poll::new(rt)?;
        poll.registry()
            .register(&mut socket, SOCKET, Interest::READABLE)?;
        let shared = MasterShared {
            socket,
            waker: Waker::new(poll.registry(), WAKER)?,
            schedule: Mutex::new(Schedule::new(alloc)),
        };
        let shared = match Arc::new(alloc, shared) {
            Ok(shared) => shared,
            Err(_) => return Err(MasterStartFault::NoMemory),
        };
        Ok(MasterLoop {
            alloc,
            poll,
            events: Events::with_capacity(alloc, MOST_EVENTS)?,
            sender: MasterSender::of(alloc, shared),
            buffer: vec![in alloc; 0; LONGEST_DATAGRAM]?,
            is_ready: true,
        })
    }

    /// A sender on this socket, for another thread. `AllocError` comes where one more owner cannot
    /// be counted.
    pub fn sender(&self) -> Result<MasterSender, AllocError> {
        self.sender.try_clone()
    }

    /// How many milliseconds a poll waits at most: until something is to be sent again.
    fn most_wait<R: Wait + Clock>(&self, rt: &R) -> u64 {
        if self.is_ready {
            return 0;
        }
        match moment(rt) {
            Ok(now) => self.sender.earliest(rt).saturating_sub(now).min(WAIT),
            Err(_) => WAIT,
        }
    }

    /// Polls until the socket is ready, a number was given, or something is to be sent again, for
    /// 100 milliseconds at most.
    fn wait_for_datagrams<R: Wait + Clock>(&mut self, rt: &R) -> io::Result<()> {
        let most = Duration::from_millis(self.most_wait(rt));
        self.poll.poll(&mut self.events, Some(most))?;
        self.is_ready = self.is_ready || !self.events.is_empty();
        Ok(())
    }

    /// Makes the calls of the datagrams that are there, 256 datagrams at most.
    fn take_datagrams<S: PurgeStore, R: Wait>(
        &mut self,
        rt: &R,
        roster: &Roster,
        master: &SharedMaster<S>,
    ) -> io::Result<()> {
        if !self.is_ready {
            return Ok(());
        }
        for _ in 0..MOST_DATAGRAMS {
            match self.sender.socket().recv_from(self.buffer.as_mut_slice()) {
                Ok((length, from)) => {
                    let octets = &self.buffer.as_slice()[..length];
                    let from = Address::of_socket(from);
                    take_in(rt, self.alloc, roster, master, from, octets);
                }
                Err(error) if error.kind() == ErrorKind::WouldBlock => {
                    self.is_ready = false;
                    return Ok(());
                }
                Err(error) => return Err(error),
            }
        }
        Ok(())
    }

    /// Sends what is to be sent again by now.
    fn send_again<S: PurgeStore, R: Wait + Clock>(
        &mut self,
        rt: &R,
        roster: &Roster,
        master: &SharedMaster<S>,
    ) -> io::Result<()> {
        let now = moment(rt)?;
        if self.sender.earliest(rt) <= now {
            self.sender.send_due(rt, roster, master, now);
        }
        Ok(())
    }

    /// Polls until the socket is ready, a number was given, or something is to be sent again, for
    /// 100 milliseconds at most. Then makes the calls of the datagrams that are there, 256 at most;
    /// the rest is for the next poll. Then sends the CLR of a pending number again to each member
    /// that it needs and that has not acknowledged it: 20 milliseconds after it was given, and from
    /// then on after about twice the time, up to a second; about 256 CLRs each 10 milliseconds at
    /// most.
    ///
    /// An error is the system's refusal of a poll, a read or the clock. What can be done all the
    /// same is done, and a later poll goes on. Where there is no memory for a call, it is lost, as
    /// its datagram may be; the member is told again, and answers again.
    pub fn poll_once<S: PurgeStore, R: Wait + Clock>(
        &mut self,
        rt: &R,
        roster: &Roster,
        master: &SharedMaster<S>,
    ) -> io::Result<()> {
        let waited = self.wait_for_datagrams(rt);
        let taken = self.take_datagrams(rt, roster, master);
        let sent = self.send_again(rt, roster, master);
        waited.and(taken).and(sent)
    }

    /// Polls again and again until it is told to stop, which it sees after 100 milliseconds and a
    /// poll at most. After a poll that failed it pauses for 100 milliseconds and goes on.
    pub fn run_until<S: PurgeStore, R: Wait + Clock>(
        &mut self,
        rt: &R,
        roster: &Roster,
        master: &SharedMaster<S>,
        stop: &AtomicBool,
    ) {
        for _ in rt.forever() {
            if stop.load(Ordering::SeqCst) {
                return;
            }
            if self.poll_once(rt, roster, master).is_err() {
                thread::sleep(rt, Duration::from_millis(WAIT));
            }
        }
    }
}

/// Makes the call of a datagram, if it is one. The answer stands in the book.
fn take_in<S: PurgeStore, R: Wait>(
    rt: &R,
    alloc: Global,
    roster: &Roster,
    master: &SharedMaster<S>,
    from: Address,
    octets: &[u8],
) {
    if let Ok(Some(call)) = master_call_of(alloc, roster, from, octets) {
        let _ = master.call(rt, call);
    }
}
