//! Takes the lines of an input, one after another. There may be any number of them.
ghost use Rattle.std.specs.Prelude.{◌≡◌, ◌≤◌, vec_capacity, IfOk};
ghost use Rattle.cluster_console.specs.Taking.{TakesOctet, TakesLine, IsLength, IsLast};

use std::io::{ErrorKind, Read};
use std::sync::Wait;
use std::thread;
use std::time::{Clock, Duration};

/// The greatest length of a line in octets, its end not counted.
pub(crate) const LONGEST_LINE: usize = 140_000;

/// How many milliseconds pass until a read that the system put off is made again.
const PAUSE: u64 = 10;

/// An input that cannot be read any more.
#[derive(Clone, Copy, Debug)]
pub(crate) struct InputFailed;

/// What was taken from an input.
#[derive(Clone, Copy)]
pub(crate) enum LineRead {
    /// A line of at most 140,000 octets.
    Line,
    /// A line of more octets. None of it is left.
    TooLong,
    /// Nothing: the input is at its end.
    End,
}

/// Whether a read that failed so may go well later: it was interrupted, or nothing is there yet.
fn is_put_off(kind: ErrorKind) -> bool {
    matches!(kind, ErrorKind::Interrupted | ErrorKind::WouldBlock)
}

/// Takes the next octet. None where the input is at its end. A read that is put off is made again
/// after 10 milliseconds.
fn next_octet<R: Wait + Clock, I: Read>(rt: &R, input: &mut I) -> Result<Option<u8>, InputFailed>
    ensures { IfOk result (λ found. TakesOctet (I.remaining input.old) (I.remaining input.new)
        found) }
{
    let mut octets = [0u8];
    'reads: for _ in rt.forever() {
        match input.read(&mut octets) {
            Ok(0) => return Ok(None),
            Ok(_) => return Ok(Some(octets[0])),
            Err(error) => {
                if !is_put_off(error.kind()) {
                    return Err(InputFailed);
                }
                thread::sleep(rt, Duration::from_millis(PAUSE));
            }
        }
    }
    unreachable!()
}

/// What a line is that began with these octets: the whole line, or 140,001 octets of it.
fn taken_of(line: &[u8]) -> LineRead
    ensures { IsLength line.now result }
{
    if LONGEST_LINE < line.len() {
        LineRead::TooLong
    } else {
        LineRead::Line
    }
}

/// What is left at the end of an input: these octets of a line, if there are any.
fn last_of(line: &[u8]) -> LineRead
    ensures { IsLast line.now result }
{
    if line.is_empty() {
        LineRead::End
    } else {
        taken_of(line)
    }
}

/// Takes the next line into `line`, without its end. Of a line that is too long, 140,001 octets are
/// kept there. `line` does not grow.
pub(crate) fn next_line<R: Wait + Clock, I: Read>(
    rt: &R,
    input: &mut I,
    line: &mut Vec<u8>,
) -> Result<LineRead, InputFailed>
    requires { 140001 ≤ vec_capacity line.old }
    ensures capacity { vec_capacity line.new ≡ vec_capacity line.old }
    ensures taken { IfOk result (λ taken. TakesLine (I.remaining input.old)
        (I.remaining input.new) taken line.new.items) }
{
    line.clear();
    'octets: for _ in rt.forever() {
        let Some(octet) = next_octet(rt, input)? else {
            return Ok(last_of(line.as_slice()));
        };
        if octet == b'\n' {
            return Ok(taken_of(line.as_slice()));
        }
        if line.len() <= LONGEST_LINE {
            line.push_reserved(octet);
        }
    }
    unreachable!()
}
