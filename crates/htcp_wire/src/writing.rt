ghost use Rattle.std.specs.Prelude.{◌≡◌, ℕ, ◌+◌, ◌-◌, ◌*◌, ◌^◌, ◌<◌, ◌≤◌, ◌↔◌, ◌∷◌, ◌++◌, length};
ghost use Rattle.std.specs.Prelude.{min, IsTrue, OnOk, MatchResult};
ghost use Rattle.byteorder.specs.Endian.{big_bytes};
ghost use Rattle.values_plain.specs.Counted.{counted};
ghost use Rattle.htcp_wire.specs.Grammar.{bit, header, specifier, detail as detail_text};
ghost use Rattle.htcp_wire.specs.Written.{Fits, InRange, written, written_data};

use crate::message::{CLR, LONGEST_WRITTEN, NOP, TST};
use crate::{Content, Detail, Htcp, HtcpFault, Specifier};
use byteorder::{BigEndian, ByteOrder};
use std::alloc::{AllocError, Global};
use values_plain::Octets;

/// The length in octets of a written message without OP-DATA.
const FRAME_LENGTH: usize = 14;

/// The length in octets of HEADER, and of DATA up to OP-DATA.
const HEAD_LENGTH: usize = 12;

/// Whether a message can be written: MINOR is 0, the content is no `OtherAnswer`, its numbers are
/// in range, and it has at most 16,384 octets in all. Allocates nothing.
pub fn fits(message: &Htcp) -> bool
    ensures { IsTrue result ↔ Fits message.now }
{
    message.minor == 0
        && is_in_range(&message.content)
        && op_data_length(&message.content) <= LONGEST_WRITTEN - FRAME_LENGTH
}

/// The octets of a message that [`fits`].
///
/// The only fault is `NoMemory`, of the one allocation.
pub fn encode(alloc: Global, message: &Htcp) -> Result<Vec<u8>, HtcpFault>
    requires { Fits message.now }
    ensures { MatchResult result
        (λ octets. octets.items ≡ written message.now) (λ fault. fault ≡ HtcpFault.NoMemory) }
{
    let content = &message.content;
    let length = FRAME_LENGTH + op_data_length(content);
    let mut octets = Vec::with_capacity(alloc, length)?;
    octets.extend_from_slice(&head(content, length as u16, message.trans))?;
    push_op_data(&mut octets, content)?;
    octets.extend_from_slice(&[0, 2])?;
    Ok(octets)
}

/// Whether the numbers of a content are in the range that is written.
fn is_in_range(content: &Content) -> bool
    ensures { IsTrue result ↔ InRange content.now }
{
    match content {
        Content::ClrAsk { reason, .. } => *reason < 16,
        Content::ClrAnswer { code } => *code <= 2,
        Content::Other { opcode, .. } => *opcode < 16 && !matches!(*opcode, NOP | TST | CLR),
        Content::Overall { opcode, code } => *opcode < 16 && *code < 16,
        Content::OtherAnswer { .. } => false,
        _ => true,
    }
}

/// The length of OP-DATA in octets, or the greatest `usize` if it is more.
fn op_data_length(content: &Content) -> usize
    ensures { result ≡ min (length (written_data content.now).op_data) (2 ^ 64 - 1) }
{
    match content {
        Content::TstAsk { spec, .. } => specifier_length(spec),
        Content::TstHit { detail } => detail_length(detail),
        Content::TstMiss { cache } => counted_length(cache),
        Content::ClrAsk { spec, .. } => specifier_length(spec).saturating_add(2),
        _ => 0,
    }
}

/// The same of a specifier.
fn specifier_length(spec: &Specifier) -> usize
    ensures { result ≡ min (length (specifier spec.now)) (2 ^ 64 - 1) }
{
    counted_length(&spec.method)
        .saturating_add(counted_length(&spec.uri))
        .saturating_add(counted_length(&spec.version))
        .saturating_add(counted_length(&spec.request_headers))
}

/// The same of a detail.
fn detail_length(detail: &Detail) -> usize
    ensures { result ≡ min (length (detail_text detail.now)) (2 ^ 64 - 1) }
{
    counted_length(&detail.response_headers)
        .saturating_add(counted_length(&detail.entity_headers))
        .saturating_add(counted_length(&detail.cache_headers))
}

/// The length in octets of a counted text.
fn counted_length(text: &Octets) -> usize
    ensures value { result ≡ length (counted text.now) }
    ensures small { result < 2 ^ 64 }
{
    text.as_slice().len() + 2
}

/// HEADER and DATA up to OP-DATA, for a message of `length` octets.
fn head(content: &Content, length: u16, trans: u32) -> [u8; HEAD_LENGTH]
    requires range { InRange content.now }
    requires long { 14 ≤ length }
    ensures { let section = written_data content.now in
        result ≡ header length 0 ++ (big_bytes 2 (length - 6)
        ++ (section.opcode * 16 + section.response) ∷ (0 * 4 + bit section.f1 * 2 + bit section.rr)
        ∷ big_bytes 4 trans) }
{
    let mut head = [0; HEAD_LENGTH];
    BigEndian::write_u16(&mut head, length);
    BigEndian::write_u16(&mut head[4..], length - 6);
    head[6] = code_octet(content);
    head[7] = flags_octet(content);
    BigEndian::write_u32(&mut head[8..], trans);
    head
}

/// OPCODE and RESPONSE, which is 0 in a request.
fn code_octet(content: &Content) -> u8
    requires { InRange content.now }
    ensures { let section = written_data content.now in result
        ≡ section.opcode * 16 + section.response }
{
    match content {
        Content::NopAsk { .. } | Content::NopAnswer => NOP * 16,
        Content::TstAsk { .. } | Content::TstHit { .. } => TST * 16,
        Content::TstMiss { .. } => TST * 16 + 1,
        Content::ClrAsk { .. } => CLR * 16,
        Content::ClrAnswer { code } => CLR * 16 + *code,
        Content::Other { opcode, .. } => *opcode * 16,
        Content::Overall { opcode, code } | Content::OtherAnswer { opcode, code } => {
            *opcode * 16 + *code
        }
    }
}

/// RESERVED, which is 0, F1 and RR.
fn flags_octet(content: &Content) -> u8
    ensures { let section = written_data content.now in result
        ≡ 0 * 4 + bit section.f1 * 2 + bit section.rr }
{
    match content {
        Content::NopAsk { desired }
        | Content::TstAsk { desired, .. }
        | Content::ClrAsk { desired, .. }
        | Content::Other { desired, .. } => u8::from(*desired) * 2,
        Content::Overall { .. } => 3,
        _ => 1,
    }
}

/// Appends OP-DATA.
fn push_op_data(out: &mut Vec<u8>, content: &Content) -> Result<(), AllocError>
    requires { length (written_data content.now).op_data < 2 ^ 16 }
    ensures { OnOk result (out.new.items ≡ out.old.items ++ (written_data content.now).op_data) }
{
    match content {
        Content::TstAsk { spec, .. } => push_specifier(out, spec),
        Content::TstHit { detail } => push_detail(out, detail),
        Content::TstMiss { cache } => push_counted(out, cache),
        Content::ClrAsk { reason, spec, .. } => {
            out.extend_from_slice(&[0, *reason])?;
            push_specifier(out, spec)
        }
        _ => Ok(()),
    }
}

/// Appends a specifier.
fn push_specifier(out: &mut Vec<u8>, spec: &Specifier) -> Result<(), AllocError>
    requires { length (specifier spec.now) < 2 ^ 16 }
    ensures { OnOk result (out.new.items ≡ out.old.items ++ specifier spec.now) }
{
    push_counted(out, &spec.method)?;
    push_counted(out, &spec.uri)?;
    push_counted(out, &spec.version)?;
    push_counted(out, &spec.request_headers)
}

/// Appends a detail.
fn push_detail(out: &mut Vec<u8>, detail: &Detail) -> Result<(), AllocError>
    requires { length (detail_text detail.now) < 2 ^ 16 }
    ensures { OnOk result (out.new.items ≡ out.old.items ++ detail_text detail.now) }
{
    push_counted(out, &detail.response_headers)?;
    push_counted(out, &detail.entity_headers)?;
    push_counted(out, &detail.cache_headers)
}

/// Appends a counted text.
fn push_counted(out: &mut Vec<u8>, text: &Octets) -> Result<(), AllocError>
    requires { length text.now < 2 ^ 16 }
    ensures { OnOk result (out.new.items ≡ out.old.items ++ counted text.now) }
{
    out.extend_from_slice(&(text.len() as u16).to_be_bytes())?;
    out.extend_from_slice(text.as_slice())
}
