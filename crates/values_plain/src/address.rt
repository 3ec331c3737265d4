ghost use Rattle.std.specs.Prelude.{◌≡◌};
ghost use Rattle.std.specs.Net.Socket.{socket_port};
ghost use Rattle.values_plain.specs.Sockets.{IsIpOf, ip_of};

use std::net::{Ipv4Addr, SocketAddr};

/// An IPv4 address and a port, of TCP or of UDP.
#[derive(Clone, Copy, Debug, PartialEq, Eq)]
pub struct Address {
    /// The four octets as one number, the first octet highest.
    pub ip: u32,
    /// The port, from 1.
    pub port: u16,
}

impl Address {
    /// The address as the calls of the system take it.
    pub fn socket(self) -> SocketAddr
        ensures ip { IsIpOf result self.ip }
        ensures port { socket_port result ≡ self.port }
    {
        SocketAddr::from((Ipv4Addr::from(self.ip), self.port))
    }

    /// The address of a sender as the system gives it. An IPv6 address, which an IPv4 socket never
    /// has, is given as 0.0.0.0.
    pub fn of_socket(from: SocketAddr) -> Address
        ensures ip { result.ip ≡ ip_of from }
        ensures port { result.port ≡ socket_port from }
    {
        match from {
            SocketAddr::V4(from) => Address {
                ip: u32::from(*from.ip()),
                port: from.port(),
            },
            SocketAddr::V6(from) => Address {
                ip: 0,
                port: from.port(),
            },
        }
    }
}

/// A protocol over UDP.
#[derive(Clone, Copy, Debug, PartialEq, Eq)]
pub enum Udp {
    /// ICP version 2 (RFC 2186).
    Icp,
    /// HTCP/0.0 (RFC 2756).
    Htcp,
}
