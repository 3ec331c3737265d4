//! The lines of `cache wire`, and their answers.
mod htcp;
mod icp;

ghost use Rattle.std.specs.Prelude.{◌≡◌, ◌++◌, OnOk};
ghost use Rattle.values_lines.specs.Script.{HasPlayed};
ghost use Rattle.cli_answer.specs.Wire.{shown, WireAnswers};
ghost use Rattle.values_plain.specs.declared.address.Udp.{Udp as Protocol};

use std::alloc::{AllocError, Global};
use std::io::{Read, Write};
use std::marker::Model;
use values_lines::{RunFault, Script, is_word, play};
use values_plain::Udp;

/// What answers the lines of `cache wire`. A contract sees it as its protocol.
#[derive(Drop)]
struct WireLines {
    by: Udp,
}

impl Model for WireLines {
    ghost use Rattle.values_plain.specs.declared.address.Udp.{Udp as Protocol};

    ghost Value = { Protocol };

    ghost view = { λ lines. lines.by };
}

/// Answers each line of the input, one word in hex, by what the datagram of this protocol says, by
/// its fault, by `bad hex`, or, where it is not one word, by `bad line`. An ICP message is shown as
/// `OP NUMBER URL`, and after a HIT_OBJ also its object; an HTCP message as the name of its
/// content, its TRANS-ID, and the fields of the content. Texts are in hex, and `-` where they are
/// empty.
///
/// Where the reader or the writer fails, a line has more than 140,000 octets, 70,000 reads are not
/// enough, or there is no memory, a front of the answers is written.
pub fn run_wire<R: Read, W: Write>(
    alloc: Global,
    by: Udp,
    reader: &mut R,
    writer: &mut W,
) -> Result<(), RunFault>
    ensures { (end : Protocol) × HasPlayed WireAnswers by (R.remaining reader.old)
        (W.contents writer.old) (W.contents writer.new) result end }
{
    play(alloc, &mut WireLines { by }, reader, writer)
}

impl Script for WireLines {
    ghost answers = { WireAnswers };

    fn answer(&mut self, alloc: Global, line: &[u8], text: &mut Vec<u8>) -> Result<(), AllocError> {
        if !is_word(line) {
            return text.extend_from_slice(b"bad line");
        }
        match self.by {
            Udp::Icp => icp::show_hex(alloc, line, text),
            Udp::Htcp => htcp::show_hex(alloc, line, text),
        }
    }
}

/// Shows octets in hex, and `-` where there are none.
pub(crate) fn show_octets(
    alloc: Global,
    octets: &[u8],
    text: &mut Vec<u8>,
) -> Result<(), AllocError>
    ensures { OnOk result (text.new.items ≡ text.old.items ++ shown octets.now) }
{
    if octets.is_empty() {
        text.extend_from_slice(b"-")
    } else {
        text.extend_from_slice(hex::encode(alloc, octets)?.as_bytes())
    }
}
