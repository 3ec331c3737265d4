//! Refusals of requests.
ghost use Rattle.std.specs.Prelude.{◌≡◌};
ghost use Rattle.values_plain.specs.Writing.{AppendsFront};
ghost use Rattle.cluster_origin.specs.Statuses.{refusal_of as status_refusing};
ghost use Rattle.cluster_origin.specs.Serving.{refusal};

use crate::serving::OWN_NAME;
use http_messages::FetchFault;
use http_writing::write_status;
use std::io::Write;
use url_key::KeyFault;

/// The status for a request that was not read (RFC 9110, section 15; 414: RFC 9112, section 3; 431:
/// RFC 6585, section 5), if the client is told anything.
fn refusal_of(fault: FetchFault) -> Option<u16>
    ensures { result ≡ status_refusing fault }
{
    match fault {
        FetchFault::Io | FetchFault::EndOfInput | FetchFault::TooManyTurns => None,
        FetchFault::BadTarget(KeyFault::TooLong) => Some(414),
        FetchFault::BadHead | FetchFault::BadTarget(_) | FetchFault::BadBody => Some(400),
        FetchFault::HeadTooLong => Some(431),
        FetchFault::MethodNotServed | FetchFault::Credentials => Some(501),
        FetchFault::BodyTooLong => Some(413),
        FetchFault::NoMemory => Some(503),
    }
}

/// Writes the refusal of a request with this fault, if there is one; or a front of it, where the
/// writer fails. It takes no memory.
pub(crate) fn refuse<W: Write>(writer: &mut W, fault: FetchFault)
    ensures { AppendsFront (W.contents writer.old) (W.contents writer.new) (refusal fault) }
{
    if let Some(status) = refusal_of(fault) {
        // The fault of the request is the result, whether or not its client could be told.
        match write_status(writer, status, OWN_NAME) {
            Ok(()) | Err(_) => {}
        }
    }
}
