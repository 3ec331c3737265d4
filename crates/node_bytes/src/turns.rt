//! What to do after a step, in octets.
ghost use Rattle.std.specs.Prelude.{◌≡◌, IfOk, map};
ghost use Rattle.node_bytes.specs.Turns.{packet_of, IsTurnOf, idle, MeetsOctets};

use crate::{Stepper, event_of, octets_of};
use node_rules::{Begin, Outgoing, Reply, Serve, StepFault};
use roster::{Address, Listed, Udp};
use std::alloc::{AllocError, Global};
use values_plain::Octets;

/// A datagram to send.
#[derive(Debug, Drop)]
pub struct Packet {
    /// The protocol that carries it.
    pub by: Udp,
    /// The receiver's address.
    pub to: Address,
    /// Its octets.
    pub octets: Octets,
}

/// What to do after a step.
#[derive(Drop)]
pub struct Turn {
    /// What to serve, if anything.
    pub serve: Option<Serve<()>>,
    /// The datagrams to send, in order.
    pub send: Listed<Packet>,
    /// What to begin, if anything.
    pub begin: Option<Begin>,
}

impl Turn {
    /// A turn in which nothing is to be done. Allocates nothing.
    pub fn idle(alloc: Global) -> Turn
        ensures { result ≡ idle }
    {
        Turn {
            serve: None,
            send: Listed::new(Vec::new(alloc)),
            begin: None,
        }
    }

    /// Makes the turn of a reply: its messages as octets with their addresses, in order, and its
    /// serve and its begin as they are.
    ///
    /// If memory for the datagrams is lacking, none of them is sent, as any datagram may be lost on
    /// its way. What is served and begun is never lost.
    pub fn of(alloc: Global, reply: Reply<()>) -> Turn
        ensures { IsTurnOf reply result }
    {
        let send = match packets_of(alloc, reply.send.as_slice()) {
            Ok(packets) => packets,
            Err(_) => Listed::new(Vec::new(alloc)),
        };
        Turn {
            serve: reply.serve,
            send,
            begin: reply.begin,
        }
    }
}

/// Encodes one message.
fn packet_of(alloc: Global, sent: &Outgoing) -> Result<Packet, AllocError>
    ensures { IfOk result (λ packet. packet ≡ packet_of sent.now) }
{
    Ok(Packet {
        by: sent.message.message().protocol(),
        to: sent.to,
        octets: Octets::from_vec(octets_of(alloc, sent)?),
    })
}

/// Encodes messages, in order. One alone takes no memory beside its octets.
fn packets_of(alloc: Global, messages: &[Outgoing]) -> Result<Listed<Packet>, AllocError>
    ensures { IfOk result (λ packets. packets ≡ map packet_of messages.now) }
{
    match messages {
        [sent] => Ok(Listed::one(packet_of(alloc, sent)?)),
        _ => Ok(Listed::new(any_packets_of(alloc, messages)?)),
    }
}

/// Encodes any number of messages, in order.
fn any_packets_of(alloc: Global, messages: &[Outgoing]) -> Result<Vec<Packet>, AllocError>
    ensures { IfOk result (λ packets. packets.items ≡ map packet_of messages.now) }
{
    let mut packets = Vec::with_capacity(alloc, messages.len())?;
    for sent in messages {
        packets.push(packet_of(alloc, sent)?)?;
    }
    Ok(packets)
}

/// Takes the step of octets that arrived from an address by a protocol, at a time in seconds, and
/// returns what to do then. Octets that are no message take no step, and leave nothing to do.
///
/// Faults are those of the step. `NoMemory` may also come before the step, only if the octets are a
/// message: no step is taken then. After a step that stands no fault comes: if memory for its
/// datagrams is lacking, none of them is sent, and what it serves and begins is told
/// ([`Turn::of`]).
pub fn on_datagram<N: Stepper>(
    alloc: Global,
    node: &mut N,
    by: Udp,
    from: Address,
    octets: &[u8],
    now: u64,
) -> Result<Turn, StepFault>
    ensures { MeetsOctets N.takes by from octets.now now node.old node.new result }
{
    match event_of(alloc, by, from, octets, now)? {
        Some(event) => {
            let reply = node.step(event)?;
            Ok(Turn::of(alloc, reply))
        }
        None => Ok(Turn::idle(alloc)),
    }
}
