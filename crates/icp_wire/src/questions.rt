ghost use Rattle.std.specs.Prelude.{◌≡◌, ◌↔◌, IsTrue, Some};
ghost use Rattle.icp_wire.specs.Grammar.{Spells};
ghost use Rattle.icp_wire.specs.Questions.{begins_query};

use crate::{Icp, IcpOp};
use byteorder::{BigEndian, ByteOrder};

/// Whether octets begin like a QUERY (RFC 2186, "ICP_OP_QUERY"): by the opcode, which is the first
/// octet. Nothing else is read, so they may be no message at all. Allocates nothing.
pub fn is_query(octets: &[u8]) -> bool
    // The opcode is there, and is that of a QUERY.
    ensures opcode { result ≡ begins_query octets.now }
    // If the octets spell a message, which `decode` gives, it is a QUERY exactly if this is true.
    ensures spelled { (message : Icp) → Spells octets.now message →
        IsTrue result ↔ (message.op ≡ IcpOp.Query) }
{
    match octets {
        [code, ..] => *code == IcpOp::Query as u8,
        [] => false,
    }
}

/// The request number (RFC 2186, "Request Number") of octets that are long enough to have one: the
/// fifth to the eighth. Nothing else is read, so they may be no message at all. Allocates nothing.
pub fn number_in(octets: &[u8]) -> Option<u32>
    // If the octets spell a message, which `decode` gives, this is its number.
    ensures { (message : Icp) → Spells octets.now message → result ≡ Some message.number }
{
    if octets.len() < 8 {
        return None;
    }
    Some(BigEndian::read_u32(&octets[4..]))
}
