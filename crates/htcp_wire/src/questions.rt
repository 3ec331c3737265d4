ghost use Rattle.std.specs.Prelude.{◌≡◌, Some};
ghost use Rattle.htcp_wire.specs.Grammar.{Spells};
ghost use Rattle.htcp_wire.specs.Questions.{begins_response, begins_test, is_tst_ask, trans_at};

use crate::{Htcp, TST};
use byteorder::{BigEndian, ByteOrder};

/// Whether octets begin like a TST request (RFC 2756, "DATA" and "TST"): OPCODE, the high four bits
/// of the seventh octet, is that of TST, and RR, the lowest bit of the eighth, is clear. Nothing
/// else is read, so they may be no message at all. Allocates nothing.
pub fn is_test(octets: &[u8]) -> bool
    // OPCODE and RR are there; OPCODE is that of TST, and RR is clear.
    ensures opcode { result ≡ begins_test octets.now }
    // If the octets spell a message, which `decode` gives, this says whether it is a TST request.
    ensures spelled { (message : Htcp) → Spells octets.now message →
        result ≡ is_tst_ask message.content }
{
    match octets {
        [_, _, _, _, _, _, code, flags, ..] => code / 16 == TST && flags % 2 == 0,
        _ => false,
    }
}

/// Whether octets begin like a response (RFC 2756, "DATA"): RR, the lowest bit of the eighth, is
/// set. Nothing else is read, so they may be no message at all. Allocates nothing.
pub fn is_response(octets: &[u8]) -> bool
    ensures { result ≡ begins_response octets.now }
{
    match octets.get(7) {
        Some(flags) => flags % 2 == 1,
        None => false,
    }
}

/// TRANS-ID (RFC 2756, "DATA") of octets that are long enough to have one: the ninth to the
/// twelfth. Nothing else is read, so they may be no message at all. Allocates nothing.
pub fn trans_in(octets: &[u8]) -> Option<u32>
    // The field, if it is there.
    ensures field { result ≡ trans_at octets.now }
    // If the octets spell a message, which `decode` gives, this is its TRANS-ID.
    ensures spelled { (message : Htcp) → Spells octets.now message → result ≡ Some message.trans }
{
    trans(octets)
}

/// TRANS-ID, if it is there.
fn trans(octets: &[u8]) -> Option<u32>
    ensures { result ≡ trans_at octets.now }
{
    if octets.len() < 12 {
        return None;
    }
    Some(BigEndian::read_u32(&octets[8..]))
}
