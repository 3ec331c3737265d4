//! Addresses of this machine.
use std::net::{Ipv4Addr, SocketAddr};
use values_plain::Address;

/// A port of 127.0.0.1, as rosters and messages have it.
pub fn address_at(port: u16) -> Address {
    Address {
        ip: 0x7f00_0001,
        port,
    }
}

/// A port of 127.0.0.1, as sockets have it.
pub fn socket_at(port: u16) -> SocketAddr {
    SocketAddr::from((Ipv4Addr::LOCALHOST, port))
}
