//! How HTCP datagrams are shown.
ghost use Rattle.std.specs.Prelude.{◌≡◌, ℕ, List, ◌++◌, OnOk, Ok};
ghost use Rattle.hex.specs.Hex.{decode_of};
ghost use Rattle.cli_answer.specs.Wire.{number_shown, flag_shown, text_shown, specifier_shown};
ghost use Rattle.cli_answer.specs.Wire.{detail_shown, content_shown, htcp_shown, HtcpShows};

use crate::wire::show_octets;
use hex::FromHexError;
use htcp_wire::{Content, Detail, Htcp, HtcpFault, Specifier, decode};
use itoa::Buffer;
use std::alloc::{AllocError, Global};

/// Shows an HTCP datagram in hex.
pub(crate) fn show_hex(alloc: Global, hex: &[u8], text: &mut Vec<u8>) -> Result<(), AllocError>
    ensures { OnOk result ((answer : List ℕ) × HtcpShows (decode_of hex.now) answer
        × (text.new.items ≡ text.old.items ++ answer)) }
{
    match hex::decode(alloc, hex) {
        Ok(octets) => show_datagram(alloc, &octets, text),
        Err(FromHexError::OutOfMemory) => Err(AllocError),
        Err(_) => text.extend_from_slice(b"bad hex"),
    }
}

/// Shows an HTCP datagram.
fn show_datagram(alloc: Global, octets: &[u8], text: &mut Vec<u8>) -> Result<(), AllocError>
    ensures { OnOk result ((answer : List ℕ) × HtcpShows (Ok octets.now) answer
        × (text.new.items ≡ text.old.items ++ answer)) }
{
    match decode(alloc, octets) {
        Ok(message) => show_message(alloc, &message, text),
        Err(HtcpFault::NoMemory) => Err(AllocError),
        Err(fault) => text.extend_from_slice(fault.name().as_bytes()),
    }
}

/// Shows an HTCP message.
fn show_message(alloc: Global, message: &Htcp, text: &mut Vec<u8>) -> Result<(), AllocError>
    ensures { OnOk result (text.new.items ≡ text.old.items ++ htcp_shown message.now) }
{
    text.extend_from_slice(message.content.name().as_bytes())?;
    show_number(message.trans, text)?;
    show_content(alloc, &message.content, text)
}

/// Shows the fields of a content.
fn show_content(alloc: Global, content: &Content, text: &mut Vec<u8>) -> Result<(), AllocError>
    ensures { OnOk result (text.new.items ≡ text.old.items ++ content_shown content.now) }
{
    match content {
        Content::NopAsk { desired } => show_flag(*desired, text),
        Content::NopAnswer => Ok(()),
        Content::TstAsk { desired, spec } => {
            show_flag(*desired, text)?;
            show_specifier(alloc, spec, text)
        }
        Content::TstHit { detail } => show_detail(alloc, detail, text),
        Content::TstMiss { cache } => show_text(alloc, cache.as_slice(), text),
        Content::ClrAsk {
            desired,
            reason,
            spec,
        } => {
            show_flag(*desired, text)?;
            show_number(u32::from(*reason), text)?;
            show_specifier(alloc, spec, text)
        }
        Content::ClrAnswer { code } => show_number(u32::from(*code), text),
        Content::Other { opcode, desired } => {
            show_number(u32::from(*opcode), text)?;
            show_flag(*desired, text)
        }
        Content::Overall { opcode, code } | Content::OtherAnswer { opcode, code } => {
            show_number(u32::from(*opcode), text)?;
            show_number(u32::from(*code), text)
        }
    }
}

/// Shows a SPECIFIER (RFC 2756): method, URI, version and request headers.
fn show_specifier(alloc: Global, spec: &Specifier, text: &mut Vec<u8>) -> Result<(), AllocError>
    ensures { OnOk result (text.new.items ≡ text.old.items ++ specifier_shown spec.now) }
{
    show_text(alloc, spec.method.as_slice(), text)?;
    show_text(alloc, spec.uri.as_slice(), text)?;
    show_text(alloc, spec.version.as_slice(), text)?;
    show_text(alloc, spec.request_headers.as_slice(), text)
}

/// Shows a DETAIL (RFC 2756): response, entity and cache headers.
fn show_detail(alloc: Global, detail: &Detail, text: &mut Vec<u8>) -> Result<(), AllocError>
    ensures { OnOk result (text.new.items ≡ text.old.items ++ detail_shown detail.now) }
{
    show_text(alloc, detail.response_headers.as_slice(), text)?;
    show_text(alloc, detail.entity_headers.as_slice(), text)?;
    show_text(alloc, detail.cache_headers.as_slice(), text)
}

/// Shows a text after a space.
fn show_text(alloc: Global, octets: &[u8], text: &mut Vec<u8>) -> Result<(), AllocError>
    ensures { OnOk result (text.new.items ≡ text.old.items ++ text_shown octets.now) }
{
    text.extend_from_slice(b" ")?;
    show_octets(alloc, octets, text)
}

/// Shows a number after a space.
fn show_number(number: u32, text: &mut Vec<u8>) -> Result<(), AllocError>
    ensures { OnOk result (text.new.items ≡ text.old.items ++ number_shown number) }
{
    let mut buffer = Buffer::new();
    text.extend_from_slice(b" ")?;
    text.extend_from_slice(buffer.format(number).as_bytes())
}

/// Shows a flag after a space, 1 where it is set and 0 where not.
fn show_flag(flag: bool, text: &mut Vec<u8>) -> Result<(), AllocError>
    ensures { OnOk result (text.new.items ≡ text.old.items ++ flag_shown flag) }
{
    text.extend_from_slice(if flag { b" 1" } else { b" 0" })
}
