//! Takes the lines of an input from any reader, one after another.
ghost use Rattle.std.specs.Prelude.{◌≡◌, ◌+◌, ◌<◌, ◌≤◌, ◌≢◌, ℕ, vec_len, vec_capacity, [], drop};
ghost use Rattle.std.specs.Prelude.{take, length, OnOk, IfOk, IfErr, IsTrue, MatchOption};
ghost use Rattle.std.specs.Prelude.{MatchBool, Some, None, Err, true, false};
ghost use Rattle.std.specs.Io.KnownBytes.{IsAtEnd};
ghost use Rattle.values_lines.specs.Reading.{Takes, HasNoEnd, EndsAt, TakesLine, TakesNone};
ghost use Rattle.values_lines.specs.Reading.{FailsToTake, IsCounted, most_left};

use crate::fault::RunFault;
use memchr::memchr;
use std::alloc::{AllocError, Global};
use std::io::Read;

/// The greatest length of a line in octets, its end not counted.
const LONGEST_LINE: usize = 140_000;

/// The greatest number of reads of one input that give octets.
const MOST_TURNS: u32 = 70_000;

/// How many octets one read asks for.
const PIECE_LENGTH: usize = 65_536;

/// What was read of an input and not yet taken: `held` from index `next` on. `turns` counts the
/// reads that gave octets.
#[derive(Drop)]
pub(crate) struct LineReader {
    held: Vec<u8>,
    next: usize,
    piece: Vec<u8>,
    turns: u32,
    ghost within: { next ≤ vec_len held },
    ghost few: { turns ≤ 70000 },
    ghost whole: { vec_len piece ≡ 65536 },
}

impl LineReader {
    /// A reader of lines that has read nothing.
    pub(crate) fn new(alloc: Global) -> Result<LineReader, AllocError>
        ensures { IfOk result (λ made. (made.next ≡ 0) × (made.held.items ≡ [])
            × (made.turns ≡ 0)) }
    {
        Ok(LineReader {
            held: Vec::new(alloc),
            next: 0,
            piece: vec![in alloc; 0; PIECE_LENGTH]?,
            turns: 0,
        })
    }

    /// Whether a line with its end is held, so that the next line needs no read.
    pub(crate) fn holds_line(&self) -> bool {
        match self.end_of_line() {
            Some(length) => length <= LONGEST_LINE,
            None => false,
        }
    }

    /// The length of the next line, if its end is held.
    fn end_of_line(&self) -> Option<usize>
        ensures { let rest = drop self.now.next self.now.held.items in
            MatchOption result (HasNoEnd (length rest) rest) (λ length. EndsAt length rest) }
    {
        let (_, rest) = self.held.as_slice().split_at(self.next);
        memchr(b'\n', rest)
    }

    /// Takes the next line into `line`, without its end. `false` if there is none.
    pub(crate) fn next_line<R: Read>(
        &mut self,
        reader: &mut R,
        line: &mut Vec<u8>,
    ) -> Result<bool, RunFault>
        ensures ok { IfOk result (λ found. MatchBool found
            (TakesLine (drop self.old.next self.old.held.items) (R.remaining reader.old)
            (drop self.new.next self.new.held.items)
            (R.remaining reader.new) line.new.items)
            (TakesNone (drop self.old.next self.old.held.items) (R.remaining reader.old))) }
        ensures err { IfErr result (FailsToTake (drop self.old.next self.old.held.items)
            (R.remaining reader.old)) }
        ensures fewer { IfOk result (λ found. IsTrue found →
            most_left self.new.turns (drop self.new.next self.new.held.items)
            < most_left self.old.turns (drop self.old.next self.old.held.items)) }
        ensures counted { IsCounted self.old.turns (R.remaining reader.old) self.new.turns
            (R.remaining reader.new) }
        ensures spent { result ≡ Err RunFault.TooManyTurns → self.new.turns ≡ 70000 }
    {
        'pieces: loop {
            match self.end_of_line() {
                Some(length) => return self.take_line(length, line),
                None => {}
            }
            if self.held.len() - self.next > LONGEST_LINE {
                return Err(RunFault::LineTooLong);
            }
            match self.read_more(reader) {
                Ok(true) => {}
                Ok(false) => return self.take_rest(line),
                Err(fault) => return Err(fault),
            }
        }
    }

    /// Takes a line of `length` octets, whose end is held.
    fn take_line(&mut self, length: usize, line: &mut Vec<u8>) -> Result<bool, RunFault>
        requires { EndsAt length (drop self.old.next self.old.held.items) }
        ensures ok { IfOk result (λ found. (found ≡ true) × (length ≤ 140000)
            × (line.new.items ≡ take length (drop self.old.next self.old.held.items))
            × (drop self.new.next self.new.held.items
            ≡ drop (length + 1) (drop self.old.next self.old.held.items))) }
        ensures turns { self.new.turns ≡ self.old.turns }
        ensures err { IfErr result (λ fault. (fault ≡ RunFault.LineTooLong → 140000 < length)) }
        ensures faults { result ≢ Err RunFault.TooManyTurns }
    {
        if length > LONGEST_LINE {
            return Err(RunFault::LineTooLong);
        }
        let end = self.next + length;
        line.clear();
        line.extend_from_slice(&self.held[self.next..end])?;
        self.next = end + 1;
        Ok(true)
    }

    /// Takes what is held as the last line. `false` if nothing is held.
    fn take_rest(&mut self, line: &mut Vec<u8>) -> Result<bool, RunFault>
        ensures ok { IfOk result (λ found. MatchBool found
            ((line.new.items ≡ drop self.old.next self.old.held.items)
            × (drop self.old.next self.old.held.items ≢ [])
            × (drop self.new.next self.new.held.items ≡ []))
            (drop self.old.next self.old.held.items ≡ [])) }
        ensures turns { self.new.turns ≡ self.old.turns }
        ensures err { IfErr result (λ fault. fault ≡ RunFault.NoMemory) }
    {
        if self.next == self.held.len() {
            return Ok(false);
        }
        line.clear();
        line.extend_from_slice(&self.held[self.next..])?;
        self.next = self.held.len();
        Ok(true)
    }

    /// Reads once, and keeps what came. `false` if the input is at its end.
    fn read_more<R: Read>(&mut self, reader: &mut R) -> Result<bool, RunFault>
        ensures taken { Takes (drop self.old.next self.old.held.items) (R.remaining reader.old)
            (drop self.new.next self.new.held.items) (R.remaining reader.new) }
        ensures more { IfOk result (λ more. MatchBool more (self.new.turns ≡ self.old.turns + 1)
            (IsAtEnd (R.remaining reader.new)
            × (drop self.new.next self.new.held.items
            ≡ drop self.old.next self.old.held.items))) }
        ensures fewer { most_left self.new.turns (drop self.new.next self.new.held.items)
            ≤ most_left self.old.turns (drop self.old.next self.old.held.items) }
        ensures counted { IsCounted self.old.turns (R.remaining reader.old) self.new.turns
            (R.remaining reader.new) }
        ensures spent { result ≡ Err RunFault.TooManyTurns → self.new.turns ≡ 70000 }
        ensures faults { IfErr result (λ fault. fault ≢ RunFault.LineTooLong) }
    {
        if self.turns >= MOST_TURNS {
            return Err(RunFault::TooManyTurns);
        }
        match self.make_room() {
            Ok(()) => {}
            Err(_) => return Err(RunFault::NoMemory),
        }
        match reader.read(self.piece.as_mut_slice()) {
            Ok(0) => Ok(false),
            Ok(count) => {
                self.turns += 1;
                match self.held.extend_from_slice(&self.piece[..count]) {
                    Ok(()) => Ok(true),
                    Err(_) => Err(RunFault::NoMemory),
                }
            }
            Err(_) => Err(RunFault::Io),
        }
    }

    /// Drops what was taken, and makes room for one read.
    fn make_room(&mut self) -> Result<(), AllocError>
        ensures rest { drop self.new.next self.new.held.items
            ≡ drop self.old.next self.old.held.items }
        ensures turns { self.new.turns ≡ self.old.turns }
        ensures room { OnOk result (vec_len self.new.held + 65536 ≤ vec_capacity self.new.held) }
        ensures piece { self.new.piece ≡ self.old.piece }
    {
        drop_front(&mut self.held, self.next);
        self.next = 0;
        self.held.reserve(PIECE_LENGTH)
    }
}

/// Drops the first `count` octets.
fn drop_front(octets: &mut Vec<u8>, count: usize)
    requires { count ≤ vec_len octets.old }
    ensures { octets.new.items ≡ drop count octets.old.items }
{
    let rest = octets.len() - count;
    octets.as_mut_slice().copy_within(count.., 0);
    octets.truncate(rest);
}
