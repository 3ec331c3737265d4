//! One call of a reader: no other function of this crate calls one.
ghost use Rattle.std.specs.Prelude.{◌≡◌, ◌+◌, ◌*◌, ◌<◌, ◌≤◌, length, take, vec_len, IfOk, OnOk};
ghost use Rattle.std.specs.Prelude.{OnErr, IfErr, IsErrOf};
ghost use Rattle.std.specs.Io.KnownBytes.{Consumes, IsAtEnd, Keeps};
ghost use Rattle.http_intake.specs.Reading.{Grows, most_turns, calls_made, IsReadFault};

use http_messages::FetchFault;
use std::io::Read;

/// The most calls of the reader for one message.
pub(crate) const MOST_TURNS: u32 = 70000;

/// The most octets that one call requests from the reader.
const PIECE_LEN: usize = 4096;

/// Calls the reader once into a buffer that has room, and counts the call where it gave octets.
/// Gives how many they are; they stand at the front of the buffer.
///
/// `TooManyTurns`: 70,000 calls gave octets, so the reader is not called. `EndOfInput`: the input
/// has ended. `Io`: the call failed.
pub(crate) fn call<R: Read>(
    reader: &mut R,
    turns: &mut u32,
    buffer: &mut [u8],
) -> Result<usize, FetchFault>
    requires room { 0 < length buffer.old }
    requires few { turns.old ≤ most_turns }
    ensures given { IfOk result (λ count. Consumes (R.remaining reader.old)
        (R.remaining reader.new) (take count buffer.new)) }
    ensures some { IfOk result (λ count. 0 < count) }
    ensures within { IfOk result (λ count. count ≤ length buffer.new) }
    ensures kept { OnErr result (Keeps (R.remaining reader.old) (R.remaining reader.new)) }
    ensures turn { OnOk result (turns.new ≡ turns.old + 1) }
    ensures no_turn { OnErr result (turns.new ≡ turns.old) }
    ensures few_turns { turns.new ≤ most_turns }
    ensures last { IfErr result (λ fault. calls_made fault turns.new ≤ most_turns) }
    ensures spent { IsErrOf result FetchFault.TooManyTurns → turns.new ≡ most_turns }
    ensures ended { IsErrOf result FetchFault.EndOfInput → IsAtEnd (R.remaining reader.new) }
    ensures faults { IfErr result IsReadFault }
{
    if *turns >= MOST_TURNS {
        return Err(FetchFault::TooManyTurns);
    }
    match reader.read(buffer) {
        Ok(0) => Err(FetchFault::EndOfInput),
        Ok(count) => {
            *turns += 1;
            Ok(count)
        }
        Err(_) => Err(FetchFault::Io),
    }
}

/// Calls the reader once, counts the call where it gave octets, and appends them.
///
/// `TooManyTurns`: 70,000 calls gave octets, so the reader is not called. `NoMemory`: there was no
/// memory for a piece, so the reader is not called. `EndOfInput`: the input has ended. `Io`: the
/// call failed.
pub(crate) fn read_piece<R: Read>(
    octets: &mut Vec<u8>,
    turns: &mut u32,
    reader: &mut R,
) -> Result<(), FetchFault>
    requires { turns.old ≤ most_turns }
    ensures taken { Grows (R.remaining reader.old)
        (R.remaining reader.new) octets.old.items octets.new.items }
    ensures kept { OnErr result (octets.new.items ≡ octets.old.items) }
    ensures turn { OnOk result (turns.new ≡ turns.old + 1) }
    ensures no_turn { OnErr result (turns.new ≡ turns.old) }
    ensures few_turns { turns.new ≤ most_turns }
    ensures counted { turns.new + vec_len octets.old ≤ turns.old + vec_len octets.new }
    ensures grown { OnOk result (vec_len octets.old < vec_len octets.new) }
    ensures short { vec_len octets.new + 4096 * turns.old ≤ vec_len octets.old + 4096 * turns.new }
    ensures piece { vec_len octets.new ≤ vec_len octets.old + 4096 }
    ensures last { IfErr result (λ fault. calls_made fault turns.new ≤ most_turns) }
    ensures spent { IsErrOf result FetchFault.TooManyTurns → turns.new ≡ most_turns }
    ensures ended { IsErrOf result FetchFault.EndOfInput → IsAtEnd (R.remaining reader.new) }
    ensures faults { IfErr result IsReadFault }
{
    if octets.reserve(PIECE_LEN).is_err() {
        return Err(FetchFault::NoMemory);
    }
    let mut piece = [0u8; PIECE_LEN];
    let count = call(reader, turns, &mut piece)?;
    match octets.extend_from_slice(&piece[..count]) {
        Ok(()) => Ok(()),
        Err(_) => Err(FetchFault::NoMemory),
    }
}
