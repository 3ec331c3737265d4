ghost use Rattle.std.specs.Prelude.{◌≡◌, ◌+◌, ◌∷◌, ◌++◌, ◌↔◌, length, IsTrue, MatchResult};
ghost use Rattle.byteorder.specs.Endian.{big_bytes};
ghost use Rattle.icp_wire.specs.Grammar.{header_length, opcode, version};
ghost use Rattle.icp_wire.specs.Written.{Fits, unset, written, written_payload};

use crate::message::{ADDRESS_LENGTH, HEADER_LENGTH, LONGEST_MESSAGE, VERSION};
use crate::{Icp, IcpFault, IcpOp};
use byteorder::{BigEndian, ByteOrder};
use std::alloc::Global;

/// Whether a message can be written: any but a HIT_OBJ, without an object, without a zero octet in
/// its URL, of at most 16,384 octets in all. Allocates nothing.
pub fn fits(message: &Icp) -> bool
    ensures { IsTrue result ↔ Fits message.now }
{
    let url = message.url.as_slice();
    message.op != IcpOp::HitObj
        && message.object.is_empty()
        && !url.contains(&0)
        && written_length(message.op, url) <= LONGEST_MESSAGE
}

/// The octets of a message that [`fits`]. Options, option data and addresses are zero.
///
/// The only fault is `NoMemory`, of the one allocation.
pub fn encode(alloc: Global, message: &Icp) -> Result<Vec<u8>, IcpFault>
    requires { Fits message.now }
    ensures { MatchResult result
        (λ octets. octets.items ≡ written message.now) (λ fault. fault ≡ IcpFault.NoMemory) }
{
    let url = message.url.as_slice();
    let length = written_length(message.op, url);
    let mut octets = Vec::with_capacity(alloc, length)?;
    octets.extend_from_slice(&header(message.op, length as u16, message.number))?;
    if message.op == IcpOp::Query {
        octets.extend_from_slice(&[0; ADDRESS_LENGTH])?;
    }
    octets.extend_from_slice(url)?;
    octets.extend_from_slice(b"\0")?;
    Ok(octets)
}

/// The length in octets of a written message.
fn written_length(op: IcpOp, url: &[u8]) -> usize
    ensures { result ≡ header_length + length (written_payload op url.now) }
{
    match op {
        IcpOp::Query => HEADER_LENGTH + ADDRESS_LENGTH + url.len() + 1,
        _ => HEADER_LENGTH + url.len() + 1,
    }
}

/// A header with zero options, option data and sender host address.
fn header(op: IcpOp, length: u16, number: u32) -> [u8; HEADER_LENGTH]
    ensures { result ≡ opcode op ∷ version
        ∷ (big_bytes 2 length ++ big_bytes 4 number ++ unset ++ unset ++ unset) }
{
    let mut header = [0; HEADER_LENGTH];
    header[0] = opcode_of(op);
    header[1] = VERSION;
    BigEndian::write_u16(&mut header[2..], length);
    BigEndian::write_u32(&mut header[4..], number);
    header
}

/// The number of an opcode.
fn opcode_of(op: IcpOp) -> u8
    ensures { result ≡ opcode op }
{
    op as u8
}
