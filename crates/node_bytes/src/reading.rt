//! Decodes datagrams.
ghost use Rattle.std.specs.Prelude.{◌≡◌, ◌≢◌, Some, IfOk, IfErr};
ghost use Rattle.icp_wire.specs.Faults as icp_faults;
ghost use Rattle.htcp_wire.specs.Faults as htcp_faults;
ghost use Rattle.values_plain.specs.declared.address.Udp.TheVariants as udp;
ghost use Rattle.node_rules.specs.Spelled.{decoded_by};
ghost use Rattle.node_bytes.specs.Bytes.{IsIcp, IsHtcp, HasFault, IsEventOf, event_in};

use htcp_wire::HtcpFault;
use icp_wire::IcpFault;
use node_rules::{Event, Message, Received};
use roster::{Address, Udp};
use std::alloc::{AllocError, Global};

/// Decodes an ICP message (RFC 2186), or gives the first fault of the octets.
///
/// `NoMemory` comes only if the octets spell a message.
pub fn read_icp(alloc: Global, octets: &[u8]) -> Result<Received, IcpFault>
    ensures ok { IfOk result (IsIcp octets.now) }
    ensures decoded { IfOk result (λ message. decoded_by udp.Icp octets.now ≡ Some message) }
    ensures err { IfErr result (λ fault. fault ≢ IcpFault.NoMemory →
        icp_faults.first_fault octets.now ≡ Some fault) }
    ensures memory { result ≡ Err IcpFault.NoMemory → icp_faults.first_fault octets.now ≡ None }
{
    match icp_wire::decode(alloc, octets) {
        Ok(message) => Ok(Received::new(Message::Icp(message))),
        Err(fault) => Err(fault),
    }
}

/// Decodes an HTCP message (RFC 2756), or gives the first fault of the octets.
///
/// `NoMemory` comes only if the octets spell a message.
pub fn read_htcp(alloc: Global, octets: &[u8]) -> Result<Received, HtcpFault>
    ensures ok { IfOk result (IsHtcp octets.now) }
    ensures decoded { IfOk result (λ message. decoded_by udp.Htcp octets.now ≡ Some message) }
    ensures err { IfErr result (λ fault. fault ≢ HtcpFault.NoMemory →
        htcp_faults.first_fault octets.now ≡ Some fault) }
    ensures memory { result ≡ Err HtcpFault.NoMemory → htcp_faults.first_fault octets.now ≡ None }
{
    match htcp_wire::decode(alloc, octets) {
        Ok(message) => Ok(Received::new(Message::Htcp(message))),
        Err(fault) => Err(fault),
    }
}

/// Makes the event of octets that arrived from an address by a protocol, at a time in seconds. None
/// if the protocol's codec refuses them.
///
/// `AllocError` comes only if the octets spell a message.
pub fn event_of<T>(
    alloc: Global,
    by: Udp,
    from: Address,
    octets: &[u8],
    now: u64,
) -> Result<Option<Event<T>>, AllocError>
    ensures event { IfOk result (IsEventOf by from octets.now now) }
    ensures decoded { IfOk result (λ event. event ≡ event_in by from octets.now now) }
    ensures memory { IfErr result (λ _. HasFault by octets.now → ⊥) }
{
    let message = match by {
        Udp::Icp => match read_icp(alloc, octets) {
            Ok(message) => message,
            Err(IcpFault::NoMemory) => return Err(AllocError),
            Err(_) => return Ok(None),
        },
        Udp::Htcp => match read_htcp(alloc, octets) {
            Ok(message) => message,
            Err(HtcpFault::NoMemory) => return Err(AllocError),
            Err(_) => return Ok(None),
        },
    };
    Ok(Some(Event::Datagram { from, message, now }))
}
