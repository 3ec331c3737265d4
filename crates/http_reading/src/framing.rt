//! The length of the body after a head (RFC 9112, section 6).

ghost use Rattle.std.specs.Prelude.{◌≡◌, ◌&&◌, not, bytes_eq, codes, IsTrue, Some};
ghost use Rattle.std.specs.List.{list_all, list_any};
ghost use Rattle.std.specs.Str.Parse.{digits_value};
ghost use Rattle.http_reading.specs.Fields.{fields_of, values_named};
ghost use Rattle.http_reading.specs.Left.{values_left};
ghost use Rattle.http_reading.specs.Framing as spec;

use crate::codings::{Codings, codings_left};
use crate::decimal::number_up_to;
use crate::fields::{Values, all_named, count_named};
use http_messages::{FetchFault, LONGEST_BODY};
use httparse::spans::HeaderSpan;
use thiserror::Error;

/// The most digits of a `content-length`; a number of 19 digits fits 64 bits.
const MOST_DIGITS: usize = 19;

/// Where the body of a response ends (RFC 9112, section 6.3).
#[derive(Clone, Copy, Debug, PartialEq, Eq)]
pub enum Framing {
    /// After this many octets, at most 65,536.
    Length(u64),
    /// After the last chunk and the trailer (RFC 9112, section 7.1).
    Chunked,
    /// Where the connection is closed.
    ToEnd,
}

/// The `content-length` fields do not give one length (RFC 9112, section 6.3).
#[derive(Clone, Copy, Debug, PartialEq, Eq, Error)]
#[error("the content-length fields do not tell one length")]
pub struct BadLength;

/// The `transfer-encoding` fields do not list `chunked` alone (RFC 9112, section 6.1).
#[derive(Clone, Copy, Debug, PartialEq, Eq, Error)]
#[error("the transfer-encoding fields do not list chunked alone")]
pub struct BadCoding;

/// The length in octets that the `content-length` fields give (RFC 9110, section 8.6). `None`:
/// there is no such field.
///
/// `BadLength`: the fields do not all have the same text of 1 to 19 digits. `03` and `3` are not
/// the same text, and neither are `3` and `3, 3`.
pub fn content_length(window: &[u8], headers: &[HeaderSpan]) -> Result<Option<u64>, BadLength>
    ensures { result ≡ spec.content_length (fields_of window.now headers.now) }
{
    let mut values = all_named(window, headers, b"content-length");
    let Some(value) = values.next() else {
        return Ok(None);
    };
    let length = length_of(value).ok_or(BadLength)?;
    if are_all(values, value) {
        Ok(Some(length))
    } else {
        Err(BadLength)
    }
}

/// The number that 1 to 19 digits write. `None`: the value is not that.
fn length_of(value: &[u8]) -> Option<u64>
    ensures { result ≡ spec.length_of value.now }
{
    if value.len() > MOST_DIGITS {
        return None;
    }
    number_up_to(u64::MAX, value)
}

/// Whether all values that are left are this one.
fn are_all(mut values: Values<'_, '_>, same: &[u8]) -> bool
    ensures { result ≡ list_all (λ other. bytes_eq other same.now) (values_left values.entry) }
{
    values.all(|value| value == same)
}

/// Whether the body is chunked (RFC 9112, section 7.1). `false`: there is no `transfer-encoding`
/// field.
///
/// Several such fields are one list (RFC 9110, section 5.3), and empty members of a list are
/// ignored (section 5.6.1.2): `, chunked` is `chunked`.
///
/// `BadCoding`: there is such a field, and they do not list `chunked` (ignoring case) once and
/// nothing else.
pub fn is_chunked(window: &[u8], headers: &[HeaderSpan]) -> Result<bool, BadCoding>
    ensures { result ≡ spec.is_chunked (fields_of window.now headers.now) }
{
    if count_named(window, headers, b"transfer-encoding") == 0 {
        return Ok(false);
    }
    match codings_left(all_named(window, headers, b"transfer-encoding")) {
        Codings::OneChunked => Ok(true),
        Codings::Nothing | Codings::Other => Err(BadCoding),
    }
}

/// Where the body of a response ends (RFC 9112, section 6.3).
///
/// `BadBody`: the `transfer-encoding` or the `content-length` fields are bad, or both are there,
/// as in request smuggling (RFC 9112, sections 6.1 and 11.2). `BodyTooLong`: else, the length is
/// over 65,536.
pub fn framing_of(window: &[u8], headers: &[HeaderSpan]) -> Result<Framing, FetchFault>
    ensures { result ≡ spec.framing (fields_of window.now headers.now) }
{
    let chunked = is_chunked(window, headers);
    let length = content_length(window, headers);
    match (chunked, length) {
        (Ok(false), Ok(Some(length))) if length > LONGEST_BODY as u64 => {
            Err(FetchFault::BodyTooLong)
        }
        (Ok(false), Ok(Some(length))) => Ok(Framing::Length(length)),
        (Ok(false), Ok(None)) => Ok(Framing::ToEnd),
        (Ok(true), Ok(None)) => Ok(Framing::Chunked),
        _ => Err(FetchFault::BadBody),
    }
}

/// Whether a request has a body: a `transfer-encoding` field, or a `content-length` field that is
/// not 0, written in one digit or more (RFC 9112, section 6).
pub fn ask_has_body(window: &[u8], headers: &[HeaderSpan]) -> bool
    ensures { result ≡ spec.ask_has_body (fields_of window.now headers.now) }
{
    count_named(window, headers, b"transfer-encoding") > 0 || has_length(window, headers)
}

/// Whether a `content-length` field is not 0.
fn has_length(window: &[u8], headers: &[HeaderSpan]) -> bool
    ensures { result ≡ list_any (λ value. not (spec.is_zero value))
        (values_named (codes "content-length") (fields_of window.now headers.now)) }
{
    all_named(window, headers, b"content-length").any(|value| !is_zero(value))
}

/// Whether the value is one or more digits that write 0.
fn is_zero(value: &[u8]) -> bool
    ensures { result ≡ spec.is_zero value.now }
{
    number_up_to(1, value) == Some(0)
}
