//! The parser's verdict on the octets where a head may stand.
ghost use Rattle.std.specs.Prelude.{◌≡◌, ◌<◌, ◌≤◌, length, IfErr, IsErrOf};
ghost use Rattle.httparse.specs.Grammar.{NeverHasRequest, NeverHasResponse};
ghost use Rattle.httparse.specs.Outcome.{IfComplete, OnPartial};
ghost use Rattle.httparse.specs.Spans.{IsRequestOf, IsRequestWithin, IsResponseOf};
ghost use Rattle.httparse.specs.Spans.{IsResponseWithin};
ghost use Rattle.http_intake.specs.Heads.{most_fields, longest_head, IsLongRequest, IsLongResponse};
ghost use Rattle.http_intake.specs.Heads.{IsOpenRequest, IsOpenResponse, IsHeadRefusal};

use crate::head_end::LONGEST_HEAD;
use http_messages::FetchFault;
use httparse::spans::{HeaderSpan, RequestSpans, ResponseSpans, parse_request, parse_response};
use httparse::{Error, Status};

/// Whether the head of a request stands at the front of the window. `Partial`: not yet, and more
/// octets may come. `BadHead`: no octets that follow can make it one. `HeadTooLong`: it has more
/// than 64 fields, or the window is full.
pub(crate) fn judge_request(
    window: &[u8],
    headers: &mut [HeaderSpan],
) -> Result<Status<RequestSpans>, FetchFault>
    requires room { length headers.old ≡ most_fields }
    requires window { length window.now ≤ longest_head }
    ensures head { IfComplete result (IsRequestOf window.now headers.new) }
    ensures within { IfComplete result (IsRequestWithin window.now headers.new) }
    ensures unfinished { OnPartial result (IsOpenRequest window.now) }
    ensures bad { IsErrOf result FetchFault.BadHead → NeverHasRequest window.now }
    ensures long { IsErrOf result FetchFault.HeadTooLong → IsLongRequest window.now }
    ensures faults { IfErr result IsHeadRefusal }
{
    match parse_request(window, headers) {
        Ok(Status::Complete(head)) => Ok(Status::Complete(head)),
        Ok(Status::Partial) if window.len() < LONGEST_HEAD => Ok(Status::Partial),
        Ok(Status::Partial) | Err(Error::TooManyHeaders) => Err(FetchFault::HeadTooLong),
        Err(_) => Err(FetchFault::BadHead),
    }
}

/// Whether the head of a response stands at the front of the window. `Partial`: not yet, and more
/// octets may come. `BadHead`: no octets that follow can make it one. `HeadTooLong`: it has more
/// than 64 fields, or the window is full.
pub(crate) fn judge_response(
    window: &[u8],
    headers: &mut [HeaderSpan],
) -> Result<Status<ResponseSpans>, FetchFault>
    requires room { length headers.old ≡ most_fields }
    requires window { length window.now ≤ longest_head }
    ensures head { IfComplete result (IsResponseOf window.now headers.new) }
    ensures within { IfComplete result (IsResponseWithin window.now headers.new) }
    ensures unfinished { OnPartial result (IsOpenResponse window.now) }
    ensures bad { IsErrOf result FetchFault.BadHead → NeverHasResponse window.now }
    ensures long { IsErrOf result FetchFault.HeadTooLong → IsLongResponse window.now }
    ensures faults { IfErr result IsHeadRefusal }
{
    match parse_response(window, headers) {
        Ok(Status::Complete(head)) => Ok(Status::Complete(head)),
        Ok(Status::Partial) if window.len() < LONGEST_HEAD => Ok(Status::Partial),
        Ok(Status::Partial) | Err(Error::TooManyHeaders) => Err(FetchFault::HeadTooLong),
        Err(_) => Err(FetchFault::BadHead),
    }
}
