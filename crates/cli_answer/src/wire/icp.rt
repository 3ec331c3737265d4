//! How ICP datagrams are shown.
ghost use Rattle.std.specs.Prelude.{◌≡◌, ℕ, List, ◌++◌, OnOk, Ok};
ghost use Rattle.hex.specs.Hex.{decode_of};
ghost use Rattle.cli_answer.specs.Wire.{object_shown, icp_shown, IcpShows};

use crate::wire::show_octets;
use hex::FromHexError;
use icp_wire::{Icp, IcpFault, IcpOp, decode};
use itoa::Buffer;
use std::alloc::{AllocError, Global};

/// Shows an ICP datagram in hex.
pub(crate) fn show_hex(alloc: Global, hex: &[u8], text: &mut Vec<u8>) -> Result<(), AllocError>
    ensures { OnOk result ((answer : List ℕ) × IcpShows (decode_of hex.now) answer
        × (text.new.items ≡ text.old.items ++ answer)) }
{
    match hex::decode(alloc, hex) {
        Ok(octets) => show_datagram(alloc, &octets, text),
        Err(FromHexError::OutOfMemory) => Err(AllocError),
        Err(_) => text.extend_from_slice(b"bad hex"),
    }
}

/// Shows an ICP datagram.
fn show_datagram(alloc: Global, octets: &[u8], text: &mut Vec<u8>) -> Result<(), AllocError>
    ensures { OnOk result ((answer : List ℕ) × IcpShows (Ok octets.now) answer
        × (text.new.items ≡ text.old.items ++ answer)) }
{
    match decode(alloc, octets) {
        Ok(message) => show_message(alloc, &message, text),
        Err(IcpFault::NoMemory) => Err(AllocError),
        Err(fault) => text.extend_from_slice(fault.name().as_bytes()),
    }
}

/// Shows an ICP message.
fn show_message(alloc: Global, message: &Icp, text: &mut Vec<u8>) -> Result<(), AllocError>
    ensures { OnOk result (text.new.items ≡ text.old.items ++ icp_shown message.now) }
{
    let mut number = Buffer::new();
    text.extend_from_slice(message.op.name().as_bytes())?;
    text.extend_from_slice(b" ")?;
    text.extend_from_slice(number.format(message.number).as_bytes())?;
    text.extend_from_slice(b" ")?;
    show_octets(alloc, message.url.as_slice(), text)?;
    show_object(alloc, message, text)
}

/// Shows the object of a HIT_OBJ after a space.
fn show_object(alloc: Global, message: &Icp, text: &mut Vec<u8>) -> Result<(), AllocError>
    ensures { OnOk result (text.new.items ≡ text.old.items
        ++ object_shown message.now.op message.now.object) }
{
    match message.op {
        IcpOp::HitObj => {
            text.extend_from_slice(b" ")?;
            show_octets(alloc, message.object.as_slice(), text)
        }
        _ => Ok(()),
    }
}
