//! The fields that a response keeps (RFC 9110, section 7.6.1).

ghost use Rattle.std.specs.Prelude.{◌≡◌, ◌-◌, ◌≤◌, ◌↔◌, ◌⊎◌, ◌&&◌, false, length, map, List, All};
ghost use Rattle.std.specs.Prelude.{IsTrue, IfOk, IfErr, IsErrOf, SomeIff, bytes_eq, take, drop};
ghost use Rattle.std.specs.Prelude.{if◌then◌else◌};
ghost use Rattle.std.specs.List.{list_all, list_any};
ghost use Rattle.httparse.specs.Grammar as grammar;
ghost use Rattle.httparse.specs.Spans.{header_bytes, name_and_value};
ghost use Rattle.http_header.specs.FieldName.{IsFieldName};
ghost use Rattle.http_header.specs.FieldValue.{IsFieldValue};
ghost use Rattle.http_header.specs.Token.{lowercase};
ghost use Rattle.http_messages.specs.Field.{field_text, dropped_names};
ghost use Rattle.http_messages.specs.Field.{is_dropped_name as is_dropped, is_kept_field};
ghost use Rattle.http_messages.specs.Field.{are_few_fields, line_length};
ghost use Rattle.http_messages.specs.Field.{is_trimmed as has_no_blank_end};
ghost use Rattle.http_reading.specs.Fields.{fields_of};
ghost use Rattle.http_reading.specs.Kept as spec;

use crate::fields::{all_named, octets_at};
use http_header::{HeaderName, HeaderNameError, HeaderValue, HeaderValueError};
use http_lists::trim;
use http_messages::{FetchFault, Field, MOST_KEPT_FIELDS, is_trimmed};
use httparse::spans::HeaderSpan;
use std::alloc::{AllocError, Global};

/// The most octets that the lines of the kept fields have together.
const MOST_OCTETS: usize = 16_000;

/// The octets of the line `cache-control: no-store`.
const NO_STORE_LINE: usize = 25;

/// The fields that a response keeps, in order, with their names in lower case.
///
/// Where a `connection` field names `cache-control`, `expires` or `vary`, by which storing is
/// judged (RFC 9111, section 3), `cache-control: no-store` stands before them.
///
/// It drops the fields that concern one connection: `connection`, those that a `connection` field
/// names (ignoring case, between commas, with blanks around them), `keep-alive`,
/// `proxy-connection`, `proxy-authenticate`, `proxy-authentication-info`, `te`, `trailer`,
/// `transfer-encoding`, `upgrade` and `close` (RFC 9110, section 7.6.1). It also drops what a
/// response holds apart or not at all: `content-length`, `age`, `via` and `x-purge-stamp`.
///
/// Errors: `HeadTooLong` comes first, exactly where more than 56 fields are kept, or their lines
/// (name, value and 4 octets each) have more than 16,000 octets together. Then, field by field:
///
/// - `BadHead`: a kept field cannot be held (`CanBeHeld` of `specs/Kept`). In a head of the
///   parser's grammar every kept field can be held (`of_head`);
/// - `NoMemory`: there was no memory for a name, a value or the list.
pub fn kept_fields(
    alloc: Global,
    window: &[u8],
    headers: &[HeaderSpan],
) -> Result<Vec<Field>, FetchFault>
    ensures kept { IfOk result (λ made. map field_text made.items
        ≡ spec.kept (fields_of window.now headers.now)) }
    // A response may hold all of them.
    ensures writable { IfOk result (λ made.
        IsTrue (list_all is_kept_field (map field_text made.items)
        && are_few_fields (map field_text made.items))) }
    ensures too_long { IsErrOf result FetchFault.HeadTooLong
        ↔ (are_few_fields (spec.kept (fields_of window.now headers.now)) ≡ false) }
    ensures bad_head { IsErrOf result FetchFault.BadHead
        → ¬ (spec.CanBeKept (fields_of window.now headers.now)) }
    // A head of the parser's grammar is never bad.
    ensures of_head { (head : List grammar.Field) → All grammar.IsField head
        → fields_of window.now headers.now ≡ map name_and_value head
        → ¬ (IsErrOf result FetchFault.BadHead) }
    ensures faults { IfErr result spec.IsFaultOfKept }
{
    if !are_few_kept(window, headers) {
        return Err(FetchFault::HeadTooLong);
    }
    let mut fields = marks(alloc, window, headers)?;
    for header in headers {
        if is_kept(window, headers, header) {
            let field = field_at(alloc, window, header)?;
            fields.push(field).map_err(AllocError::from)?;
        }
    }
    Ok(fields)
}

/// What stands before the kept fields: `no-store`, where a field by which storing is judged is not
/// kept.
fn marks(alloc: Global, window: &[u8], headers: &[HeaderSpan]) -> Result<Vec<Field>, AllocError>
    ensures marks { IfOk result (λ made. map field_text made.items
        ≡ spec.marks_by (spec.options_of (fields_of window.now headers.now))) }
    ensures held { IfOk result (λ made.
        IsTrue (list_all is_kept_field (map field_text made.items))) }
{
    let mut marks = Vec::new(alloc);
    if hides_judging(window, headers) {
        marks.push(no_store())?;
    }
    Ok(marks)
}

/// Whether a `connection` field names a field by which storing is judged.
fn hides_judging(window: &[u8], headers: &[HeaderSpan]) -> bool
    ensures { result
        ≡ spec.hides_judging (spec.options_of (fields_of window.now headers.now)) }
{
    is_of_connection(window, headers, b"cache-control")
        || is_of_connection(window, headers, b"expires")
        || is_of_connection(window, headers, b"vary")
}

/// The field `cache-control: no-store`.
fn no_store() -> Field
    ensures { field_text result ≡ spec.no_store }
{
    Field {
        name: HeaderName::from_static("cache-control"),
        value: HeaderValue::from_static("no-store"),
    }
}

/// Whether at most 56 fields are kept, with at most 16,000 octets in their lines.
fn are_few_kept(window: &[u8], headers: &[HeaderSpan]) -> bool
    ensures { result ≡ are_few_fields (spec.kept (fields_of window.now headers.now)) }
{
    let mut room = Room::behind_marks(window, headers);
    for header in headers {
        if is_kept(window, headers, header) {
            match room.after(window, header) {
                Some(left) => room = left,
                None => return false,
            }
        }
    }
    true
}

/// The room that is left for kept fields.
#[derive(Clone, Copy)]
struct Room {
    /// How many more fields may be kept.
    fields: usize,
    /// How many octets their lines may have.
    octets: usize,
}

impl Room {
    /// The room for kept fields behind what stands before them.
    fn behind_marks(window: &[u8], headers: &[HeaderSpan]) -> Room
        ensures fields { result.fields ≡ (if spec.hides_judging (spec.options_of
            (fields_of window.now headers.now)) then 55 else 56) }
        ensures octets { result.octets ≡ (if spec.hides_judging (spec.options_of
            (fields_of window.now headers.now)) then 15975 else 16000) }
    {
        if hides_judging(window, headers) {
            Room {
                fields: MOST_KEPT_FIELDS - 1,
                octets: MOST_OCTETS - NO_STORE_LINE,
            }
        } else {
            Room {
                fields: MOST_KEPT_FIELDS,
                octets: MOST_OCTETS,
            }
        }
    }

    /// The room after one more field. `None`: the field does not fit.
    fn after(self, window: &[u8], header: &HeaderSpan) -> Option<Room>
        ensures { let line = line_length (spec.kept_text (header_bytes window.now header.now))
            in SomeIff result ((1 ≤ self.fields) × (line ≤ self.octets))
            (record { fields = self.fields - 1; octets = self.octets - line }) }
    {
        let fields = self.fields.checked_sub(1)?;
        let octets = self
            .octets
            .checked_sub(octets_at(window, header.name).len())?;
        let octets = octets.checked_sub(octets_at(window, header.value).len())?;
        let octets = octets.checked_sub(4)?;
        Some(Room { fields, octets })
    }
}

/// Whether a response keeps the field of a head.
fn is_kept(window: &[u8], headers: &[HeaderSpan], header: &HeaderSpan) -> bool
    ensures { result ≡ spec.is_kept (spec.options_of (fields_of window.now headers.now))
        (header_bytes window.now header.now) }
{
    let name = octets_at(window, header.name);
    !is_dropped_name(name) && !is_of_connection(window, headers, name)
}

/// Whether fields with this name are dropped, whatever the `connection` fields say.
fn is_dropped_name(name: &[u8]) -> bool
    ensures { result ≡ is_dropped (lowercase name.now) }
{
    is_of_one_connection(name) || is_held_apart(name)
}

/// Whether fields with this name concern one connection (RFC 9110, section 7.6.1).
fn is_of_one_connection(name: &[u8]) -> bool
    ensures { result ≡ list_any (bytes_eq (lowercase name.now)) (take 10 dropped_names) }
{
    name.eq_ignore_ascii_case(b"connection")
        || name.eq_ignore_ascii_case(b"keep-alive")
        || name.eq_ignore_ascii_case(b"proxy-connection")
        || name.eq_ignore_ascii_case(b"proxy-authenticate")
        || name.eq_ignore_ascii_case(b"proxy-authentication-info")
        || name.eq_ignore_ascii_case(b"te")
        || name.eq_ignore_ascii_case(b"trailer")
        || name.eq_ignore_ascii_case(b"transfer-encoding")
        || name.eq_ignore_ascii_case(b"upgrade")
        || name.eq_ignore_ascii_case(b"close")
}

/// Whether a response holds what fields with this name say apart from its fields, or not at all.
fn is_held_apart(name: &[u8]) -> bool
    ensures { result ≡ list_any (bytes_eq (lowercase name.now)) (drop 10 dropped_names) }
{
    name.eq_ignore_ascii_case(b"content-length")
        || name.eq_ignore_ascii_case(b"age")
        || name.eq_ignore_ascii_case(b"via")
        || name.eq_ignore_ascii_case(b"x-purge-stamp")
}

/// Whether a `connection` field names the field.
fn is_of_connection(window: &[u8], headers: &[HeaderSpan], name: &[u8]) -> bool
    ensures { result ≡ spec.is_of_connection
        (spec.options_of (fields_of window.now headers.now)) name.now }
{
    all_named(window, headers, b"connection").any(|value| is_listed_in(value, name))
}

/// Whether a part of the value between commas is this name, ignoring case, with blanks around it.
fn is_listed_in(value: &[u8], name: &[u8]) -> bool
    ensures { result ≡ spec.is_listed_in name.now value.now }
{
    value
        .split(|octet| *octet == b',')
        .any(|part| trim(part).eq_ignore_ascii_case(name))
}

/// The field at a place, with its name in lower case. `BadHead`: a response cannot hold it.
/// `NoMemory`: there was no memory.
fn field_at(alloc: Global, window: &[u8], header: &HeaderSpan) -> Result<Field, FetchFault>
    ensures field { IfOk result (λ field. field_text field
        ≡ spec.kept_text (header_bytes window.now header.now)) }
    ensures trimmed { IfOk result (λ field. IsTrue (has_no_blank_end
        (header_bytes window.now header.now).1)) }
    ensures bad_head { IsErrOf result FetchFault.BadHead
        → ¬ (spec.CanBeHeld (header_bytes window.now header.now)) }
    ensures faults { IfErr result (λ fault. (fault ≡ FetchFault.BadHead)
        ⊎ (fault ≡ FetchFault.NoMemory)) }
{
    let name = name_of(alloc, octets_at(window, header.name))?;
    let value = value_of(alloc, octets_at(window, header.value))?;
    Ok(Field { name, value })
}

/// The name of a field, in lower case. `BadHead`: it is not a token, or it is longer than 65,535
/// octets.
fn name_of(alloc: Global, octets: &[u8]) -> Result<HeaderName, FetchFault>
    ensures name { IfOk result (λ name. name ≡ lowercase octets.now) }
    ensures bad_head { IsErrOf result FetchFault.BadHead → ¬ (IsFieldName octets.now) }
    ensures faults { IfErr result (λ fault. (fault ≡ FetchFault.BadHead)
        ⊎ (fault ≡ FetchFault.NoMemory)) }
{
    match HeaderName::from_bytes(alloc, octets) {
        Ok(name) => Ok(name),
        Err(HeaderNameError::Invalid) => Err(FetchFault::BadHead),
        Err(HeaderNameError::OutOfMemory) => Err(FetchFault::NoMemory),
    }
}

/// The value of a field. `BadHead`: it has a space or a tab at an end, or a control octet other
/// than the tab.
fn value_of(alloc: Global, octets: &[u8]) -> Result<HeaderValue, FetchFault>
    ensures value { IfOk result (λ value. value.bytes ≡ octets.now) }
    ensures trimmed { IfOk result (λ value. IsTrue (has_no_blank_end octets.now)) }
    ensures bad_head { IsErrOf result FetchFault.BadHead
        → ¬ (IsFieldValue octets.now × IsTrue (has_no_blank_end octets.now)) }
    ensures faults { IfErr result (λ fault. (fault ≡ FetchFault.BadHead)
        ⊎ (fault ≡ FetchFault.NoMemory)) }
{
    if !is_trimmed(octets) {
        return Err(FetchFault::BadHead);
    }
    match HeaderValue::from_bytes(alloc, octets) {
        Ok(value) => Ok(value),
        Err(HeaderValueError::Invalid) => Err(FetchFault::BadHead),
        Err(HeaderValueError::OutOfMemory) => Err(FetchFault::NoMemory),
    }
}
