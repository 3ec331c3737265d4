ghost use Rattle.std.specs.Prelude.{◌≡◌, ◌≢◌, ◌⊎◌, Some, None, IfOk, IfErr, IsSome, MatchOption};
ghost use Rattle.std.specs.Prelude.{MatchResult, position};
ghost use Rattle.std.specs.List.{before_first, after_first};
ghost use Rattle.icp_wire.specs.Grammar.{Spells};
ghost use Rattle.icp_wire.specs.Faults.{first_fault, payload_fault, rest_fault};
ghost use Rattle.icp_wire.specs.Reading.{is_zero, op_of as op_of_code, opcode_field, number_field};
ghost use Rattle.icp_wire.specs.Reading.{payload_field, from_url as url_onwards, Holds, url_in};
ghost use Rattle.icp_wire.specs.Reading.{object_in, object_behind};

use crate::message::{ADDRESS_LENGTH, HEADER_LENGTH, LONGEST_MESSAGE, VERSION};
use crate::{Icp, IcpFault, IcpOp};
use byteorder::{BigEndian, ByteOrder};
use memchr::memchr;
use std::alloc::Global;
use values_plain::{Octets, split_counted};

/// The message that a datagram spells, or its first fault, in the order of [`IcpFault`].
///
/// Only the URL and the object are allocated, once the datagram has no fault. So `NoMemory` means
/// that the octets spell a message.
pub fn decode(alloc: Global, octets: &[u8]) -> Result<Icp, IcpFault>
    // The octets spell the message that is given.
    ensures spelled { IfOk result (λ message. Spells octets.now message) }
    // If the octets spell a message, it is given, unless memory runs out.
    ensures read { (message : Icp) → Spells octets.now message →
        MatchResult result (λ found. found ≡ message) (λ fault. fault ≡ IcpFault.NoMemory) }
    // A fault that is given is the first of the octets.
    ensures refused { IfErr result (λ fault. fault ≢ IcpFault.NoMemory →
        first_fault octets.now ≡ Some fault) }
    // `NoMemory` comes only if the octets have no fault.
    ensures memory { result ≡ Err IcpFault.NoMemory → first_fault octets.now ≡ None }
{
    read(alloc, octets)
}

/// The message at the offsets of a datagram, if it has no fault.
fn read(alloc: Global, octets: &[u8]) -> Result<Icp, IcpFault>
    ensures ok { IfOk result (λ message. (first_fault octets.now ≡ None)
        × Holds octets.now message) }
    ensures err { IfErr result (λ fault. (first_fault octets.now ≡ Some fault)
        ⊎ ((first_fault octets.now ≡ None) × (fault ≡ IcpFault.NoMemory))) }
{
    let Header {
        op,
        number,
        payload,
    } = split_header(octets)?;
    let (url, object) = split_payload(op, payload)?;
    Ok(Icp {
        op,
        number,
        url: Octets::from_slice(alloc, url)?,
        object: Octets::from_slice(alloc, object)?,
    })
}

/// What a message needs of a header, and the payload that follows it.
struct Header<'a> {
    op: IcpOp,
    number: u32,
    payload: &'a [u8],
}

/// The header of a datagram, or the first fault of it.
#[tactic(auto, unfolding(crate::specs::Faults::first_fault))]
fn split_header(octets: &[u8]) -> Result<Header<'_>, IcpFault>
    ensures { MatchResult result
        (λ header. (op_of_code (opcode_field octets.now) ≡ Some header.op)
        × (header.number ≡ number_field octets.now)
        × (header.payload.now ≡ payload_field octets.now)
        × (first_fault octets.now ≡ payload_fault header.op header.payload.now))
        (λ fault. first_fault octets.now ≡ Some fault) }
{
    if octets.len() < HEADER_LENGTH {
        return Err(IcpFault::Short);
    }
    if octets.len() > LONGEST_MESSAGE {
        return Err(IcpFault::TooLong);
    }
    if octets[1] != VERSION {
        return Err(IcpFault::BadVersion);
    }
    if BigEndian::read_u16(&octets[2..]) as usize != octets.len() {
        return Err(IcpFault::BadLength);
    }
    match op_of(octets[0]) {
        Some(op) => Ok(Header {
            op,
            number: BigEndian::read_u32(&octets[4..]),
            payload: &octets[HEADER_LENGTH..],
        }),
        None => Err(IcpFault::BadOpcode),
    }
}

/// The opcode of a number, if it is read.
fn op_of(code: u8) -> Option<IcpOp>
    ensures { result ≡ op_of_code code }
{
    match code {
        1 => Some(IcpOp::Query),
        2 => Some(IcpOp::Hit),
        3 => Some(IcpOp::Miss),
        4 => Some(IcpOp::Error),
        21 => Some(IcpOp::MissNoFetch),
        22 => Some(IcpOp::Denied),
        23 => Some(IcpOp::HitObj),
        _ => None,
    }
}

/// The URL and the object of a payload, or its first fault.
#[tactic(auto, unfolding(crate::specs::Faults::payload_fault))]
fn split_payload(op: IcpOp, payload: &[u8]) -> Result<(&[u8], &[u8]), IcpFault>
    ensures { MatchResult result
        (λ parts. (payload_fault op payload.now ≡ None)
        × (parts.0.now ≡ url_in op payload.now) × (parts.1.now ≡ object_in op payload.now))
        (λ fault. payload_fault op payload.now ≡ Some fault) }
{
    let (url, rest) = split_url(from_url(op, payload)).ok_or(IcpFault::NoZero)?;
    let object = object_of(op, rest)?;
    Ok((url, object))
}

/// The payload from the URL on. In a QUERY the requester's address stands before the URL.
fn from_url(op: IcpOp, payload: &[u8]) -> &[u8]
    ensures { result.now ≡ url_onwards op payload.now }
{
    match op {
        IcpOp::Query => payload.get(ADDRESS_LENGTH..).unwrap_or(&[]),
        _ => payload,
    }
}

/// What is before the first zero octet, and what is behind it. `None` if there is none.
fn split_url(text: &[u8]) -> Option<(&[u8], &[u8])>
    ensures { MatchOption result (position is_zero text.now ≡ None)
        (λ parts. IsSome (position is_zero text.now)
        × (parts.0.now ≡ before_first is_zero text.now)
        × (parts.1.now ≡ after_first is_zero text.now)) }
{
    let end = first_zero(text)?;
    Some((&text[..end], &text[end + 1..]))
}

/// The index of the first zero octet.
fn first_zero(text: &[u8]) -> Option<usize>
    ensures { result ≡ position is_zero text.now }
{
    memchr(0, text)
}

/// The object behind the zero octet: empty in all but a HIT_OBJ.
fn object_of(op: IcpOp, rest: &[u8]) -> Result<&[u8], IcpFault>
    ensures { MatchResult result
        (λ object. (rest_fault op rest.now ≡ None) × (object.now ≡ object_behind op rest.now))
        (λ fault. rest_fault op rest.now ≡ Some fault) }
{
    match op {
        IcpOp::HitObj => match split_counted(rest) {
            Some((object, [])) => Ok(object),
            _ => Err(IcpFault::BadObject),
        },
        _ if rest.is_empty() => Ok(rest),
        _ => Err(IcpFault::Trailing),
    }
}
