//! Host, credentials and member number of a request.

ghost use Rattle.std.specs.Prelude.{◌≡◌};
ghost use Rattle.http_reading.specs.AskFields as spec;
ghost use Rattle.http_reading.specs.Fields.{fields_of};

use crate::decimal::plain_number;
use crate::fields::{all_named, count_named, only_named};
use httparse::spans::HeaderSpan;

/// What the `host` fields of a request say (RFC 9112, section 3.2).
#[derive(Clone, Copy, Debug, PartialEq, Eq)]
pub enum Host<'w> {
    /// There is no such field.
    Absent,
    /// There is one, with this value. It may be empty.
    One(&'w [u8]),
    /// There are several.
    Several,
}

/// What the `host` fields of a request say (RFC 9112, section 3.2). It does not judge the value.
pub fn host_of<'w>(window: &'w [u8], headers: &[HeaderSpan]) -> Host<'w>
    ensures { spec.host_text result ≡ spec.host (fields_of window.now headers.now) }
{
    let mut values = all_named(window, headers, b"host");
    match (values.next(), values.next()) {
        (None, _) => Host::Absent,
        (Some(value), None) => Host::One(value),
        (Some(_), Some(_)) => Host::Several,
    }
}

/// Whether a request has credentials: an `authorization` or a `proxy-authorization` field,
/// whatever its value (RFC 9110, sections 11.6.2 and 11.7.2).
pub fn has_credentials(window: &[u8], headers: &[HeaderSpan]) -> bool
    ensures { result ≡ spec.has_credentials (fields_of window.now headers.now) }
{
    count_named(window, headers, b"authorization") > 0
        || count_named(window, headers, b"proxy-authorization") > 0
}

/// The number of the member that sent a request: the number of its only `x-purge-member` field, 1
/// to 16 in decimal without leading zeros. `None`: there is no such field, there are several, or
/// its value is anything else.
pub fn member(window: &[u8], headers: &[HeaderSpan]) -> Option<u8>
    ensures { result ≡ spec.member (fields_of window.now headers.now) }
{
    let value = only_named(window, headers, b"x-purge-member")?;
    let number = plain_number(1, 16, value)?;
    Some(number as u8)
}
