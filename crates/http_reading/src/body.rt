//! Reading the body of a response.
ghost use Rattle.std.specs.Prelude.{◌≡◌, ◌≤◌, length, MatchResult, Some, Err};
ghost use Rattle.http_intake.specs.Reading.{most_turns};
ghost use Rattle.http_reading.specs.Answers.{ReadsBody};

use crate::Framing;
use http_intake::Intake;
use http_messages::{Body, FetchFault};
use std::alloc::Global;
use std::io::Read;

/// Reads the body that begins at `start` and ends as `framing` says. `None`: there is no body, and
/// nothing is read.
pub(crate) fn read_body<R: Read>(
    alloc: Global,
    reader: &mut R,
    intake: Intake,
    start: usize,
    framing: Option<Framing>,
) -> Result<Body, FetchFault>
    requires start { start ≤ length intake.octets }
    requires few { intake.calls ≤ most_turns }
    ensures { ReadsBody framing (R.remaining reader.old)
        (R.remaining reader.new) intake start result }
{
    match framing {
        None => Ok(Body::empty()),
        Some(framing) => read_framed(alloc, reader, intake, start, framing),
    }
}

/// Reads the body that begins at `start` and ends as `framing` says.
fn read_framed<R: Read>(
    alloc: Global,
    reader: &mut R,
    mut intake: Intake,
    start: usize,
    framing: Framing,
) -> Result<Body, FetchFault>
    requires start { start ≤ length intake.octets }
    requires few { intake.calls ≤ most_turns }
    ensures { ReadsBody (Some framing) (R.remaining reader.old)
        (R.remaining reader.new) intake start result }
{
    match framing {
        Framing::Length(length) => held(intake.read_body_of(alloc, reader, start, length)),
        Framing::ToEnd => held(intake.read_to_end(alloc, reader, start)),
        Framing::Chunked => match intake.read_chunked_body(alloc, reader, start) {
            Ok((octets, _end)) => held(Ok(octets)),
            Err(fault) => Err(fault),
        },
    }
}

/// The octets that were read, as a body. `NoMemory`: there was no memory for the count of its
/// owners.
fn held(read: Result<Vec<u8>, FetchFault>) -> Result<Body, FetchFault>
    ensures { MatchResult read
        (λ octets. MatchResult result (λ body. body ≡ octets.items) (λ fault.
        fault ≡ FetchFault.NoMemory))
        (λ fault. result ≡ Err fault) }
{
    match read {
        Ok(octets) => match Body::from_vec(octets) {
            Ok(body) => Ok(body),
            Err(_) => Err(FetchFault::NoMemory),
        },
        Err(fault) => Err(fault),
    }
}
