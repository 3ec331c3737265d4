//! What the head of a final response says.
ghost use Rattle.std.specs.Prelude.{◌≡◌, ◌⊎◌, IsTrue, IfOk, MatchResult, Ok, Err};
ghost use Rattle.httparse.specs.Spans.{IsResponseWithin, IsResponseOf};
ghost use Rattle.http_reading.specs.Fields.{fields_of};
ghost use Rattle.http_reading.specs.AnswerHead as head_rules;
ghost use Rattle.http_reading.specs.AnswerHead.{head_at, told_text};

use crate::{Framing, age, count_named, framing_of, kept_fields, stamp};
use http_messages::{FetchFault, Field};
use httparse::spans::{HeaderSpan, ResponseSpans};
use std::alloc::Global;

/// What the head of a final response says, apart from its body. The age is in seconds.
#[derive(Drop)]
pub(crate) struct FinalHead {
    pub(crate) status: u16,
    pub(crate) fields: Vec<Field>,
    pub(crate) age: Option<u32>,
    pub(crate) stamp: Option<u32>,
    /// Where its body ends. `None`: it has no body.
    pub(crate) framing: Option<Framing>,
}

/// Whether the status is that of an interim response, which another response follows (RFC 9110,
/// section 15.2). 101 is not: it would change the protocol.
pub(crate) fn is_interim(status: u16) -> bool
    ensures { result ≡ head_rules.is_interim status }
{
    100 <= status && status < 200 && status != 101
}

/// What a head says, or its first fault: `BadHead` by its status, `HeadTooLong` by the limits of
/// kept fields, `BadBody` or `BodyTooLong` by the length of its body. `NoMemory` may come with the
/// fields.
pub(crate) fn tell(
    alloc: Global,
    window: &[u8],
    head: ResponseSpans,
    headers: &[HeaderSpan],
) -> Result<FinalHead, FetchFault>
    requires within { IsResponseWithin window.now headers.now head }
    requires head { IsResponseOf window.now headers.now head }
    ensures says { MatchResult result
        (λ it. head_rules.told (head_at window.now headers.now head) ≡ Ok (told_text it))
        (λ fault. (fault ≡ FetchFault.NoMemory)
        ⊎ (head_rules.told (head_at window.now headers.now head) ≡ Err fault)) }
    ensures fit { IfOk result (λ it. IsTrue (head_rules.is_fit (told_text it))) }
{
    let (headers, _) = headers.split_at(head.headers);
    if head.code < 200 || head.code > 599 {
        return Err(FetchFault::BadHead);
    }
    let fields = kept_fields(alloc, window, headers)?;
    let framing = framing_by(head.code, head.version, window, headers)?;
    Ok(FinalHead {
        status: head.code,
        fields,
        age: age(window, headers),
        stamp: stamp(window, headers),
        framing,
    })
}

/// Where the body of a response with this status and minor version ends. `None`: it has no body, as
/// with 204 and 304 (RFC 9112, section 6.3).
fn framing_by(
    status: u16,
    minor: u8,
    window: &[u8],
    headers: &[HeaderSpan],
) -> Result<Option<Framing>, FetchFault>
    ensures { result ≡ head_rules.framing_by status minor (fields_of window.now headers.now) }
{
    if matches!(status, 204 | 304) {
        return Ok(None);
    }
    match framing_in(minor, window, headers) {
        Ok(framing) => Ok(Some(framing)),
        Err(fault) => Err(fault),
    }
}

/// Where the body of a response of this minor version ends. `BadBody` also: it is of HTTP/1.0, and
/// names a transfer coding (RFC 9112, section 6.1).
fn framing_in(minor: u8, window: &[u8], headers: &[HeaderSpan]) -> Result<Framing, FetchFault>
    ensures { result ≡ head_rules.framing_in minor (fields_of window.now headers.now) }
{
    if minor == 0 && count_named(window, headers, b"transfer-encoding") > 0 {
        return Err(FetchFault::BadBody);
    }
    framing_of(window, headers)
}
