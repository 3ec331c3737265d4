//! What datagrams tell the master of purges.
ghost use Rattle.std.specs.Prelude.{◌≡◌, IfOk, IfErr, IsSome};
ghost use Rattle.roster.specs.Lookups.{member_at as member_by_address};
ghost use Rattle.values_plain.specs.declared.address.Udp.TheVariants as udp;
ghost use Rattle.node_bytes.specs.Bytes.{HasFault};
ghost use Rattle.node_bytes.specs.Calls.{IsCallFrom};

use htcp_wire::{Content, HtcpFault};
use purge_rules::MasterCall;
use roster::{Address, Roster, Udp};
use std::alloc::{AllocError, Global};

/// The call of the master that a datagram makes, as it arrives at the master's HTCP address.
///
/// A response to a CLR from a member's HTCP address is an acknowledgement, with its TRANS-ID and
/// code (RFC 2756, "CLR"). Any other message, octets that are none, and everything from another
/// address make no call.
///
/// Only a datagram from a member allocates; `AllocError` comes only if its octets are a message.
pub fn master_call_of(
    alloc: Global,
    roster: &Roster,
    from: Address,
    octets: &[u8],
) -> Result<Option<MasterCall>, AllocError>
    ensures call { IfOk result (IsCallFrom roster.now from octets.now) }
    ensures memory { IfErr result (λ _. IsSome (member_by_address roster.now from udp.Htcp)) }
    ensures spelled { IfErr result (λ _. HasFault udp.Htcp octets.now → ⊥) }
{
    let Some(member) = roster.member_at(from, Udp::Htcp) else {
        return Ok(None);
    };
    match htcp_wire::decode(alloc, octets) {
        Ok(message) => Ok(match message.content {
            Content::ClrAnswer { code } => Some(MasterCall::Acknowledge {
                member,
                trans: message.trans,
                code,
            }),
            _ => None,
        }),
        Err(HtcpFault::NoMemory) => Err(AllocError),
        Err(_) => Ok(None),
    }
}
