//! Reading into a buffer until it is full.
ghost use Rattle.std.specs.Prelude.{◌+◌, ◌*◌, ◌≤◌, length, take, OnOk, IfErr};
ghost use Rattle.http_messages.specs.Answer.{longest_body};
ghost use Rattle.http_intake.specs.Reading.{Grows, most_turns};
ghost use Rattle.http_intake.specs.Bodies.{FillsShort};

use crate::piece::call;
use http_messages::FetchFault;
use std::io::Read;

/// Reads into `buffer`, of at most 65,536 octets, from place `from` on until it is full; `turns`
/// calls of the reader gave octets before.
///
/// `EndOfInput`: the input ended first. `TooManyTurns`: 70,000 calls gave octets, and not all that
/// were wanted. `Io`: a call failed.
pub(crate) fn fill<R: Read>(
    buffer: &mut [u8],
    from: usize,
    turns: &mut u32,
    reader: &mut R,
) -> Result<(), FetchFault>
    requires from { from ≤ length buffer.old }
    requires short { length buffer.old ≤ longest_body }
    requires turns { turns.old ≤ most_turns }
    ensures filled { OnOk result
        (Grows (R.remaining reader.old) (R.remaining reader.new)
        (take from buffer.old) buffer.new) }
    ensures few { turns.new ≤ most_turns }
    ensures each { OnOk result (turns.new + from ≤ turns.old + length buffer.new) }
    ensures most { OnOk result
        (length buffer.new + 65536 * turns.old ≤ from + 65536 * turns.new) }
    ensures stopped { IfErr result (FillsShort (R.remaining reader.old) (R.remaining reader.new)
        turns.old turns.new from (take from buffer.old) buffer.new) }
{
    let mut at = from;
    'calls: while at < buffer.len() {
        match call(reader, turns, &mut buffer[at..]) {
            Ok(count) => at += count,
            Err(fault) => return Err(fault),
        }
    }
    Ok(())
}
