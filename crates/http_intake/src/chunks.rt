//! The chunks of a chunked body (RFC 9112, section 7.1).
ghost use Rattle.std.specs.Prelude.{◌≡◌, ◌≤◌, length, drop, vec_len, OnErr, IfOk, IfErr};
ghost use Rattle.httparse.specs.Outcome.{IfComplete, OnPartial};
ghost use Rattle.http_intake.specs.Reading.{Takes, most_turns, calls_made};
ghost use Rattle.http_messages.specs.Answer.{longest_body};
ghost use Rattle.http_intake.specs.Chunks.{longest_line, HasLine, HasBadLine, IsOpenLine, IsStep};
ghost use Rattle.http_intake.specs.Chunks.{RefusesStep, HoldsChunks, StopsInChunks};

use crate::Intake;
use http_messages::{FetchFault, LONGEST_BODY};
use httparse::{Status, parse_chunk_size};
use std::alloc::Global;
use std::io::Read;

/// The most octets that a chunk's line has, with CRLF.
const LONGEST_CHUNK_LINE: usize = 256;

/// What stands at a place among the chunks.
#[derive(Clone, Copy, Debug, PartialEq, Eq)]
pub(crate) enum ChunkStep {
    /// A chunk that is not whole yet.
    More,
    /// A whole chunk, which ends at this place.
    Chunk(usize),
    /// The line of the last chunk, which ends at this place.
    Last(usize),
}

impl Intake {
    /// Reads the chunks that begin at `start`. Gives their octets, and the place where the trailer
    /// begins.
    pub(crate) fn read_chunks<R: Read>(
        &mut self,
        alloc: Global,
        reader: &mut R,
        start: usize,
    ) -> Result<(Vec<u8>, usize), FetchFault>
        requires { start ≤ length self.old.octets }
        ensures taken { Takes (R.remaining reader.old) (R.remaining reader.new) self.old self.new }
        ensures few { self.new.calls ≤ most_turns }
        ensures last { IfErr result (λ fault. calls_made fault self.new.calls ≤ most_turns) }
        ensures chunks { IfOk result (λ found.
            HoldsChunks self.new.octets start found.1 found.0.items) }
        ensures short { IfOk result (λ found. vec_len found.0 ≤ longest_body) }
        ensures stopped { IfErr result (StopsInChunks (R.remaining reader.new) self.new start) }
    {
        let mut body = Vec::new(alloc);
        let mut at = start;
        'chunks: loop {
            match take_chunk(self.octets(), at, &mut body) {
                Ok(ChunkStep::Last(end)) => return Ok((body, end)),
                Ok(ChunkStep::Chunk(next)) => at = next,
                Ok(ChunkStep::More) => match self.read_more(reader) {
                    Ok(()) => {}
                    Err(fault) => return Err(fault),
                },
                Err(fault) => return Err(fault),
            }
        }
    }
}

/// The length of the chunk's line at the front, and the number of octets that it announces.
/// `Partial`: the line is not whole yet. `BadBody`: it is malformed, or longer than 256 octets.
fn chunk_line(rest: &[u8]) -> Result<Status<(usize, u64)>, FetchFault>
    ensures line { IfComplete result (λ line. HasLine rest.now line.0 line.1) }
    ensures short { IfComplete result (λ line. line.0 ≤ longest_line) }
    ensures open { OnPartial result (IsOpenLine rest.now) }
    ensures bad { IfErr result (λ fault. HasBadLine rest.now × (fault ≡ FetchFault.BadBody)) }
{
    match parse_chunk_size(rest) {
        Ok(Status::Complete((len, size))) if len <= LONGEST_CHUNK_LINE => {
            Ok(Status::Complete((len, size)))
        }
        Ok(Status::Partial) if rest.len() < LONGEST_CHUNK_LINE => Ok(Status::Partial),
        _ => Err(FetchFault::BadBody),
    }
}

/// Takes the chunk that stands at `at`, if it is whole, and appends its octets to the body.
///
/// `BadBody`: the line is bad, or no CRLF follows the chunk's octets. `BodyTooLong`: the line
/// announces more octets than the body may still gain. `NoMemory`: the body could not grow. After
/// a fault the body is as before.
fn take_chunk(octets: &[u8], at: usize, body: &mut Vec<u8>) -> Result<ChunkStep, FetchFault>
    requires at { at ≤ length octets.now }
    requires body { vec_len body.old ≤ longest_body }
    ensures step { IfOk result (IsStep octets.now at body.old.items body.new.items) }
    ensures short { vec_len body.new ≤ longest_body }
    ensures refused { IfErr result (RefusesStep (drop at octets.now) (vec_len body.old)) }
    ensures kept { OnErr result (body.new.items ≡ body.old.items) }
{
    let (_, rest) = octets.split_at(at);
    let (line_len, size) = match chunk_line(rest) {
        Ok(Status::Complete(line)) => line,
        Ok(Status::Partial) => return Ok(ChunkStep::More),
        Err(fault) => return Err(fault),
    };
    if size == 0 {
        return Ok(ChunkStep::Last(at + line_len));
    }
    if size > (LONGEST_BODY - body.len()) as u64 {
        return Err(FetchFault::BodyTooLong);
    }
    let size = size as usize;
    let (_, after_line) = rest.split_at(line_len);
    if after_line.len() < size + 2 {
        return Ok(ChunkStep::More);
    }
    let (chunk, behind) = after_line.split_at(size);
    if behind[0] != b'\r' || behind[1] != b'\n' {
        return Err(FetchFault::BadBody);
    }
    match body.extend_from_slice(chunk) {
        Ok(()) => Ok(ChunkStep::Chunk(at + line_len + size + 2)),
        Err(_) => Err(FetchFault::NoMemory),
    }
}
