//! One request, answered or refused.
ghost use Rattle.cluster_origin.specs.Serving.{AnswersAsk, ServesNext};

use crate::answering::answer_to;
use crate::refusing::refuse;
use http_messages::{Ask, FetchFault};
use http_reading::read_ask;
use http_writing::write_answer;
use std::alloc::Global;
use std::io::{Read, Write};

/// The name of the origin in `via` (RFC 9110, section 7.6.3).
pub(crate) const OWN_NAME: &[u8] = b"origin";

/// Reads a request and writes its response, as the `count`th that is answered. `Ok` means that the
/// whole text of the response is written. The writer is not flushed.
///
/// Faults, each of which is answered with a status alone where it comes before the response: those
/// of `read_ask` (414 for a target that is too long, 400 for `BadHead`, any other `BadTarget` and
/// `BadBody`, 413 for `BodyTooLong`, 431 for `HeadTooLong`, 501 for `MethodNotServed` and
/// `Credentials`, 503 for `NoMemory`; nothing is written for `Io`, `EndOfInput` and
/// `TooManyTurns`); `NoMemory` where there is no memory for the response (503); and `Io` where the
/// writer failed in the response, a front of which is written.
pub fn serve_next<R: Read, W: Write>(
    alloc: Global,
    reader: &mut R,
    writer: &mut W,
    count: u32,
) -> Result<(), FetchFault>
    ensures { ServesNext count (R.remaining reader.old) (R.remaining reader.new)
        (W.contents writer.old) (W.contents writer.new) result }
{
    match read_ask(alloc, reader) {
        Ok(ask) => answer_ask(alloc, &ask, writer, count),
        Err(fault) => {
            refuse(writer, fault);
            Err(fault)
        }
    }
}

/// Writes the response to a request, or a 503 where there is no memory for it.
fn answer_ask<W: Write>(
    alloc: Global,
    ask: &Ask,
    writer: &mut W,
    count: u32,
) -> Result<(), FetchFault>
    ensures { AnswersAsk (W.contents writer.old) (W.contents writer.new) ask.now count result }
{
    match answer_to(alloc, ask, count) {
        Ok(answer) => write_answer(writer, &answer, OWN_NAME),
        Err(_) => {
            refuse(writer, FetchFault::NoMemory);
            Err(FetchFault::NoMemory)
        }
    }
}
