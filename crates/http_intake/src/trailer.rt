//! The trailer after the last chunk, and a whole chunked body (RFC 9112, sections 7.1 and 7.1.2).
ghost use Rattle.std.specs.Prelude.{◌≡◌, ◌+◌, ◌<◌, ◌≤◌, ◌⊎◌, length, drop, vec_len, IfOk, IfErr};
ghost use Rattle.httparse.specs.Outcome.{IfComplete, OnPartial};
ghost use Rattle.http_intake.specs.Reading.{Takes, most_turns, calls_made, IsReadFault};
ghost use Rattle.http_intake.specs.Heads.{longest_head, head_window};
ghost use Rattle.http_messages.specs.Answer.{longest_body};
ghost use Rattle.http_intake.specs.Trailer.{HoldsTrailer, IsOpenTrailer, RefusesTrailer};
ghost use Rattle.http_intake.specs.Trailer.{StopsInTrailer, HoldsChunkedBody, StopsInChunkedBody};

use crate::Intake;
use crate::head_end::LONGEST_HEAD;
use crate::head_watch::HeadWatch;
use http_messages::{FetchFault, MOST_FIELDS};
use httparse::spans::{EMPTY_HEADER_SPAN, parse_headers};
use httparse::{Error, Status};
use std::alloc::Global;
use std::io::Read;

impl Intake {
    /// Reads the chunked body that begins at `start`. Gives its octets, and the place where its
    /// trailer ends, which is the end of the message. It copies the octets of the chunks and
    /// ignores the fields of the trailer.
    ///
    /// A chunk's line has at most 256 octets, a body at most 65,536, and a trailer at most 16,384
    /// octets and 64 fields.
    ///
    /// Errors:
    ///
    /// - `BadBody`: a chunk's line, its end or the trailer is malformed, whatever octets follow,
    ///   or a line is longer than 256 octets;
    /// - `BodyTooLong`: a chunk's line announces more octets than the body may still gain;
    /// - `HeadTooLong`: the trailer has more than 16,384 octets or 64 fields;
    /// - `EndOfInput`: the input ended before the trailer did;
    /// - `TooManyTurns`: the body would need a call beyond 70,000;
    /// - `Io`: a call failed;
    /// - `NoMemory`: there was no memory for more octets.
    pub fn read_chunked_body<R: Read>(
        &mut self,
        alloc: Global,
        reader: &mut R,
        start: usize,
    ) -> Result<(Vec<u8>, usize), FetchFault>
        requires { start ≤ length self.old.octets }
        ensures taken { Takes (R.remaining reader.old) (R.remaining reader.new) self.old self.new }
        ensures few { self.new.calls ≤ most_turns }
        ensures last { IfErr result (λ fault. calls_made fault self.new.calls ≤ most_turns) }
        ensures body { IfOk result (λ found.
            HoldsChunkedBody self.new.octets start found.1 found.0.items) }
        ensures short { IfOk result (λ found. vec_len found.0 ≤ longest_body) }
        ensures stopped { IfErr result
            (StopsInChunkedBody (R.remaining reader.new) self.new start) }
    {
        let (body, trailer) = match self.read_chunks(alloc, reader, start) {
            Ok(found) => found,
            Err(fault) => return Err(fault),
        };
        match self.read_trailer(reader, trailer) {
            Ok(end) => Ok((body, end)),
            Err(fault) => Err(fault),
        }
    }

    /// Reads until the trailer that begins at `start` is whole. Gives the place where it ends.
    fn read_trailer<R: Read>(&mut self, reader: &mut R, start: usize) -> Result<usize, FetchFault>
        requires { start ≤ length self.old.octets }
        ensures taken { Takes (R.remaining reader.old) (R.remaining reader.new) self.old self.new }
        ensures few { self.new.calls ≤ most_turns }
        ensures last { IfErr result (λ fault. calls_made fault self.new.calls ≤ most_turns) }
        ensures section { IfOk result (HoldsTrailer self.new.octets start) }
        ensures stopped { IfErr result (StopsInTrailer (R.remaining reader.new) self.new start) }
    {
        let mut watch = HeadWatch::new(self.window(start).len(), false);
        'parses: loop {
            match judge_trailer(self.window(start)) {
                Ok(Status::Complete(len)) => return Ok(start + len),
                Ok(Status::Partial) => {}
                Err(fault) => return Err(fault),
            }
            match self.read_until_due(reader, start, &mut watch) {
                Ok(()) => {}
                Err(fault) => return self.judge_cut_trailer(start, fault),
            }
        }
    }

    /// The result for a trailer where reading failed with `fault`: its end if the octets hold one,
    /// a refusal of the parser, or `fault`.
    fn judge_cut_trailer(&self, start: usize, fault: FetchFault) -> Result<usize, FetchFault>
        requires start { start ≤ length self.now.octets }
        requires fault { IsReadFault fault }
        ensures section { IfOk result (HoldsTrailer self.now.octets start) }
        ensures cut { IfErr result (λ other.
            RefusesTrailer (head_window start self.now.octets) other
            ⊎ ((other ≡ fault) × IsOpenTrailer (drop start self.now.octets))) }
    {
        match judge_trailer(self.window(start)) {
            Ok(Status::Complete(len)) => Ok(start + len),
            Ok(Status::Partial) => Err(fault),
            Err(refusal) => Err(refusal),
        }
    }
}

/// The length of the trailer at the front of the window. `Partial`: it is not whole yet, and more
/// octets may come. `BadBody`: it is malformed. `HeadTooLong`: it has more than 64 fields, or the
/// window is full.
fn judge_trailer(window: &[u8]) -> Result<Status<usize>, FetchFault>
    requires { length window.now ≤ longest_head }
    ensures section { IfComplete result (HoldsTrailer window.now 0) }
    ensures unfinished { OnPartial result (IsOpenTrailer window.now) }
    ensures refused { IfErr result (RefusesTrailer window.now) }
{
    let mut headers = [EMPTY_HEADER_SPAN; MOST_FIELDS];
    match parse_headers(window, &mut headers) {
        Ok(Status::Complete((len, _))) => Ok(Status::Complete(len)),
        Ok(Status::Partial) if window.len() < LONGEST_HEAD => Ok(Status::Partial),
        Ok(Status::Partial) | Err(Error::TooManyHeaders) => Err(FetchFault::HeadTooLong),
        Err(_) => Err(FetchFault::BadBody),
    }
}
