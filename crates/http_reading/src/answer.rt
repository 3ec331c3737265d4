//! Reading responses.
ghost use Rattle.std.specs.Prelude.{◌≡◌, ◌≤◌, ◌+◌, false, length, IsTrue, IfOk, IfErr};
ghost use Rattle.httparse.specs.Spans.{IsResponseWithin, IsResponseOf};
ghost use Rattle.http_messages.specs.Answer.{is_writable};
ghost use Rattle.http_intake.specs.Reading.{most_turns};
ghost use Rattle.http_intake.specs.Heads.{head_window, most_fields};
ghost use Rattle.http_reading.specs.AnswerHead as head_rules;
ghost use Rattle.http_reading.specs.AnswerHead.{told_text, is_fit};
ghost use Rattle.http_reading.specs.Answers.{PassesInterim, ReadsAnswer, ReadsOn, ReadsRest};
ghost use Rattle.http_reading.specs.Answers.{most_interim};
ghost use Rattle.http_reading.specs.Answers.{answer_of as answer_text_of};

use crate::body::read_body;
use crate::told::{FinalHead, is_interim, tell};
use http_intake::Intake;
use http_messages::{Answer, Body, FetchFault, Fields, MOST_FIELDS};
use httparse::spans::{EMPTY_HEADER_SPAN, HeaderSpan, ResponseSpans};
use std::alloc::Global;
use std::io::Read;

/// The most octets that interim heads have together.
const MOST_INTERIM: usize = 65_536;

/// Reads a final response (RFC 9112, sections 4 to 7), and passes over interim ones (RFC 9110,
/// section 15.2), 65,536 octets of them at most. Octets after it may be taken from the reader too,
/// and are lost.
///
/// Faults while a head is read:
///
/// - `BadHead`: no octets that follow can make it a head;
/// - `HeadTooLong`: it has more than 16,384 octets or 64 fields, or the interim heads have more
///   than 65,536 octets together;
/// - `EndOfInput`: the input ended first;
/// - `TooManyTurns`: 70,000 calls of the reader, the most that are made, gave octets, and not the
///   whole message;
/// - `Io`: the reader failed;
/// - `NoMemory`: there was no memory.
///
/// Faults of a whole head, in this order:
///
/// - `BadHead`: the status is 101, below 100 or above 599;
/// - `HeadTooLong`: more than 56 fields are kept, or their lines have more than 16,000 octets
///   together;
/// - `BadBody` or `BodyTooLong`: the fields give no valid length of the body, or one over 65,536
///   octets; or a response of HTTP/1.0 names a transfer coding. With status 204 or 304 there is no
///   body, whatever the fields say.
///
/// Then come the faults of reading the body: `BadBody`, `BodyTooLong`, `HeadTooLong` (of a
/// trailer), and those of the reader. `NoMemory` may come at any point.
pub fn read_answer<R: Read>(alloc: Global, reader: &mut R) -> Result<Answer, FetchFault>
    ensures { ReadsAnswer (R.remaining reader.old) (R.remaining reader.new) result }
{
    let mut intake = Intake::new(alloc);
    let mut headers = [EMPTY_HEADER_SPAN; MOST_FIELDS];
    let mut start = 0;
    'heads: loop {
        match intake.read_response_head(reader, start, headers.as_mut_slice()) {
            Ok(head) if is_interim(head.code) => {
                start += head.len;
                if start > MOST_INTERIM {
                    return Err(FetchFault::HeadTooLong);
                }
            }
            Ok(head) => return read_final(alloc, reader, intake, start, head, headers.as_slice()),
            Err(fault) => return Err(fault),
        }
    }
}

/// Judges the final head that stands at `start`, and reads the rest of the response.
fn read_final<R: Read>(
    alloc: Global,
    reader: &mut R,
    intake: Intake,
    start: usize,
    head: ResponseSpans,
    headers: &[HeaderSpan],
) -> Result<Answer, FetchFault>
    requires start { start ≤ length intake.octets }
    requires within { IsResponseWithin (head_window start intake.octets) headers.now head }
    requires head { IsResponseOf (head_window start intake.octets) headers.now head }
    requires inside { start + head.len ≤ length intake.octets }
    requires last { head_rules.is_interim head.code ≡ false }
    requires room { length headers.now ≡ most_fields }
    requires few { start ≤ most_interim }
    ensures { PassesInterim intake.octets start →
        ReadsOn (R.remaining reader.old) (R.remaining reader.new) intake result }
{
    match tell(alloc, intake.window(start), head, headers) {
        Ok(told) => read_told(alloc, reader, intake, start + head.len, told),
        Err(fault) => Err(fault),
    }
}

/// Reads the body that begins at `start`, after a head that said `told`, and makes the response.
fn read_told<R: Read>(
    alloc: Global,
    reader: &mut R,
    intake: Intake,
    start: usize,
    told: FinalHead,
) -> Result<Answer, FetchFault>
    requires start { start ≤ length intake.octets }
    requires few { intake.calls ≤ most_turns }
    requires fit { IsTrue (is_fit (told_text told)) }
    ensures { ReadsRest (told_text told) (R.remaining reader.old)
        (R.remaining reader.new) intake start result }
{
    match read_body(alloc, reader, intake, start, told.framing) {
        Ok(body) => answer_of(alloc, told, body),
        Err(fault) => Err(fault),
    }
}

/// The response of a head and a body. `NoMemory`: there was no memory for the list of fields.
fn answer_of(alloc: Global, told: FinalHead, body: Body) -> Result<Answer, FetchFault>
    requires { IsTrue (is_writable (answer_text_of (told_text told) body)) }
    ensures ok { IfOk result (λ answer. answer ≡ answer_text_of (told_text told) body) }
    ensures err { IfErr result (λ fault. fault ≡ FetchFault.NoMemory) }
{
    let fields = match Fields::new(alloc, told.fields) {
        Ok(fields) => fields,
        Err(_) => return Err(FetchFault::NoMemory),
    };
    match Answer::new(told.status, fields, told.age, told.stamp, body) {
        Some(answer) => Ok(answer),
        None => unreachable!(),
    }
}
