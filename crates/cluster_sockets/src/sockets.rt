//! A node's UDP sockets.
use crate::fault::LoopFault;
use mio::net::UdpSocket;
use mio::{Interest, Registry, Token};
use std::alloc::{AllocError, Global};
use std::io;
use std::net::Net;
use std::sync::Arc;
use values_plain::{Address, Udp};
use values_tables::Cache;

/// The two UDP sockets of a node.
#[derive(Drop)]
pub(crate) struct Sockets {
    icp: UdpSocket,
    htcp: UdpSocket,
}

impl Sockets {
    /// Binds the sockets at a cache's addresses, and has them polled under these tokens.
    pub(crate) fn open<N: Net>(
        net: &N,
        registry: &Registry,
        cache: &Cache,
        tokens: (Token, Token),
    ) -> io::Result<Sockets> {
        let mut icp = UdpSocket::bind(net, cache.icp.socket())?;
        let mut htcp = UdpSocket::bind(net, cache.htcp.socket())?;
        registry.register(&mut icp, tokens.0, Interest::READABLE)?;
        registry.register(&mut htcp, tokens.1, Interest::READABLE)?;
        Ok(Sockets { icp, htcp })
    }

    /// The socket of a protocol.
    pub(crate) fn by(&self, udp: Udp) -> &UdpSocket {
        match udp {
            Udp::Icp => &self.icp,
            Udp::Htcp => &self.htcp,
        }
    }
}

/// Sends datagrams on the loop's UDP sockets, from any thread.
#[derive(Drop)]
pub struct Senders {
    sockets: Arc<Sockets, Global>,
}

impl Senders {
    /// Senders on these sockets.
    pub(crate) fn of(sockets: Arc<Sockets, Global>) -> Senders {
        Senders { sockets }
    }

    /// The same senders for another thread. `AllocError` comes where one more owner cannot be
    /// counted.
    pub fn try_clone(&self) -> Result<Senders, AllocError> {
        Ok(Senders::of(Arc::try_clone(&self.sockets)?))
    }

    /// Sends a datagram by a protocol, without waiting. `Io` comes where the system does not take
    /// it whole; it is then lost, as any datagram may be lost on its way.
    pub fn send(&self, udp: Udp, to: Address, octets: &[u8]) -> Result<(), LoopFault> {
        let count = self.sockets.by(udp).send_to(octets, to.socket())?;
        if count == octets.len() {
            Ok(())
        } else {
            Err(LoopFault::Io)
        }
    }
}
