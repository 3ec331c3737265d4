ghost use Rattle.std.specs.Prelude.{◌≡◌, ◌≢◌, ◌⊎◌, ◌≤◌, length, Some, None, IfOk, IfErr};
ghost use Rattle.std.specs.Prelude.{MatchResult};
ghost use Rattle.std.specs.Option.{option_map};
ghost use Rattle.htcp_wire.specs.Cut.{content_seen, data_seen};
ghost use Rattle.htcp_wire.specs.Grammar.{Spells};
ghost use Rattle.htcp_wire.specs.Faults.{first_fault, is_bad_auth as has_bad_auth, fault_behind};
ghost use Rattle.htcp_wire.specs.Reading.{Holds, content_at, minor_field, trans_field, data_field};
ghost use Rattle.htcp_wire.specs.Reading.{auth_field};

use crate::cut::{ContentCut, cut_answer, cut_ask};
use crate::{Content, Htcp, HtcpFault};
use byteorder::{BigEndian, ByteOrder};
use std::alloc::Global;

/// The length in octets of HEADER, DATA without OP-DATA, and LENGTH of AUTH.
const SHORTEST_MESSAGE: usize = 14;

/// The length in octets of DATA without OP-DATA, its LENGTH included.
const SHORTEST_DATA: usize = 8;

/// The message that a datagram spells, or its first fault, in the order of [`HtcpFault`].
///
/// Only the texts are allocated, once the datagram has no fault. So `NoMemory` means that the
/// octets spell a message.
pub fn decode(alloc: Global, octets: &[u8]) -> Result<Htcp, HtcpFault>
    // The octets spell the message that is given.
    ensures spelled { IfOk result (λ message. Spells octets.now message) }
    // If the octets spell a message, it is given, unless memory runs out.
    ensures read { (message : Htcp) → Spells octets.now message →
        MatchResult result (λ found. found ≡ message) (λ fault. fault ≡ HtcpFault.NoMemory) }
    // A fault that is given is the first of the octets.
    ensures refused { IfErr result (λ fault. fault ≢ HtcpFault.NoMemory →
        first_fault octets.now ≡ Some fault) }
    // `NoMemory` comes only if the octets have no fault.
    ensures memory { result ≡ Err HtcpFault.NoMemory → first_fault octets.now ≡ None }
{
    read(alloc, octets)
}

/// The message at the offsets of a datagram, if it has no fault.
fn read(alloc: Global, octets: &[u8]) -> Result<Htcp, HtcpFault>
    ensures ok { IfOk result (λ message. (first_fault octets.now ≡ None)
        × Holds octets.now message) }
    ensures err { IfErr result (λ fault. (first_fault octets.now ≡ Some fault)
        ⊎ ((first_fault octets.now ≡ None) × (fault ≡ HtcpFault.NoMemory))) }
{
    let parts = split_parts(octets)?;
    let content = cut_content(&parts.section).ok_or(HtcpFault::BadString)?;
    if is_bad_auth(parts.auth) {
        return Err(HtcpFault::BadAuth);
    }
    Ok(Htcp {
        minor: parts.minor,
        trans: parts.trans,
        content: content.copied(alloc)?,
    })
}

/// DATA without LENGTH, RESERVED and TRANS-ID.
#[derive(Drop)]
struct DataCut<'a> {
    opcode: u8,
    response: u8,
    f1: bool,
    rr: bool,
    op_data: &'a [u8],
}

/// What a message needs of HEADER and DATA, and the octets from AUTH on.
#[derive(Drop)]
struct Parts<'a> {
    minor: u8,
    trans: u32,
    section: DataCut<'a>,
    auth: &'a [u8],
}

/// The parts of a datagram, or the first fault of HEADER and of LENGTH of DATA.
#[tactic(auto, unfolding(crate::specs::Faults::first_fault))]
fn split_parts(octets: &[u8]) -> Result<Parts<'_>, HtcpFault>
    ensures { MatchResult result
        (λ parts. (2 ≤ length parts.auth.now) × (parts.minor ≡ minor_field octets.now)
        × (parts.trans ≡ trans_field octets.now)
        × (data_seen parts.section ≡ data_field octets.now)
        × (parts.auth.now ≡ auth_field octets.now)
        × (first_fault octets.now ≡ fault_behind (data_field octets.now) (auth_field octets.now)))
        (λ fault. first_fault octets.now ≡ Some fault) }
{
    if octets.len() < SHORTEST_MESSAGE {
        return Err(HtcpFault::Short);
    }
    if BigEndian::read_u16(octets) as usize != octets.len() {
        return Err(HtcpFault::BadLength);
    }
    if octets[2] != 0 {
        return Err(HtcpFault::BadMajor);
    }
    let length = BigEndian::read_u16(&octets[4..]) as usize;
    if length < SHORTEST_DATA || octets.len() < 4 + length + 2 {
        return Err(HtcpFault::BadData);
    }
    Ok(Parts {
        minor: octets[3],
        trans: BigEndian::read_u32(&octets[8..]),
        section: DataCut {
            opcode: octets[6] / 16,
            response: octets[6] % 16,
            f1: octets[7] / 2 % 2 == 1,
            rr: octets[7] % 2 == 1,
            op_data: &octets[12..][..length - SHORTEST_DATA],
        },
        auth: &octets[4 + length..],
    })
}

/// The content of DATA. `None` if OP-DATA lacks what it needs.
#[tactic(auto, unfolding(crate::specs::Reading::content_at))]
fn cut_content<'a>(section: &DataCut<'a>) -> Option<ContentCut<'a>>
    ensures { option_map content_seen result ≡ content_at (data_seen section.now) }
{
    if !section.rr {
        cut_ask(section.opcode, section.f1, section.op_data)
    } else if section.f1 {
        Some(ContentCut::Plain(Content::Overall {
            opcode: section.opcode,
            code: section.response,
        }))
    } else {
        cut_answer(section.opcode, section.response, section.op_data)
    }
}

/// Whether LENGTH of AUTH is under 2, or greater than the number of octets left.
fn is_bad_auth(left: &[u8]) -> bool
    requires { 2 ≤ length left.now }
    ensures { result ≡ has_bad_auth left.now }
{
    let length = BigEndian::read_u16(left) as usize;
    length < 2 || left.len() < length
}
