//! Refusals of requests.
ghost use Rattle.std.specs.Prelude.{◌≡◌, IsTrue};
ghost use Rattle.values_plain.specs.Writing.{AppendsFront};
ghost use Rattle.http_writing.specs.Name.{is_name as names_cache};
ghost use Rattle.node_http.specs.Statuses.{refusal_of as status_refusing};
ghost use Rattle.node_http.specs.Statuses.{status_for as status_told};
ghost use Rattle.node_serving.specs.Serving.{refusal_text};

use crate::fault::ServeFault;
use http_messages::FetchFault;
use http_writing::write_status;
use std::io::Write;
use url_key::KeyFault;

/// The status if a step was refused (RFC 9110, section 15.6.4).
const UNAVAILABLE: u16 = 503;

/// The status for a request that was not read (RFC 9110, section 15; 414: RFC 9112, section 3; 431:
/// RFC 6585, section 5).
/// None if nothing is written. `read_ask` never gives `BodyTooLong`.
fn refusal_of(fault: FetchFault) -> Option<u16>
    ensures { result ≡ status_refusing fault }
{
    match fault {
        FetchFault::Io | FetchFault::EndOfInput | FetchFault::TooManyTurns => None,
        FetchFault::BadTarget(KeyFault::TooLong) => Some(414),
        FetchFault::BadHead | FetchFault::BadTarget(_) | FetchFault::BadBody => Some(400),
        FetchFault::HeadTooLong => Some(431),
        FetchFault::MethodNotServed | FetchFault::Credentials => Some(501),
        FetchFault::BodyTooLong => Some(413),
        FetchFault::NoMemory => Some(503),
    }
}

/// The status for a request that was not served; none if nothing is written.
///
/// - of `Fetch`: 414 for a URL that is too long; 400 for `BadHead`, any other `BadTarget` and
///   `BadBody`; 413 for `BodyTooLong`; 431 for `HeadTooLong`; 501 for `MethodNotServed` and
///   `Credentials`; 503 for `NoMemory`; none for `Io`, `EndOfInput` and `TooManyTurns`
/// - of `Step`: 503
pub fn status_for(fault: ServeFault) -> Option<u16>
    ensures { result ≡ status_told fault }
{
    match fault {
        ServeFault::Fetch(fault) => refusal_of(fault),
        ServeFault::Step(_) => Some(UNAVAILABLE),
    }
}

/// Writes a status without a body, if there is one; a front of it if the writer fails. Allocates
/// nothing.
pub(crate) fn refuse<W: Write>(writer: &mut W, status: Option<u16>, via: &[u8])
    requires { IsTrue (names_cache via.now) }
    ensures { AppendsFront (W.contents writer.old) (W.contents writer.new)
        (refusal_text status via.now) }
{
    if let Some(status) = status {
        // The caller returns the fault of the request, whether or not the status was written.
        match write_status(writer, status, via) {
            Ok(()) | Err(_) => {}
        }
    }
}
