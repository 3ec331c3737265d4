//! The fields of one name, and their values.

ghost use Rattle.std.specs.Prelude.{◌≡◌, length, option_copied};
ghost use Rattle.httparse.specs.Spans.{span_bytes, header_bytes};
ghost use Rattle.http_reading.specs.Fields as spec;
ghost use Rattle.http_reading.specs.Fields.{fields_of, values_named, first_of, only_of};
ghost use Rattle.http_reading.specs.Left.{values_left};

use httparse::spans::{HeaderSpan, Span};

/// The number of fields with this name, ignoring case (RFC 9110, section 5.1).
///
/// `headers` are the places of a head's fields in the octets `window`, as `httparse::spans` finds
/// them. Of a place that reaches beyond the octets, the part within them counts; a place that ends
/// before it starts is empty. This holds for all functions of this crate.
pub fn count_named(window: &[u8], headers: &[HeaderSpan], name: &[u8]) -> usize
    ensures { result ≡ length (values_named name.now (fields_of window.now headers.now)) }
{
    headers
        .iter()
        .filter(|header| is_named(window, header, name))
        .count()
}

/// The value of the first field with this name, ignoring case. `None`: there is no such field.
pub fn first_named<'w>(window: &'w [u8], headers: &[HeaderSpan], name: &[u8]) -> Option<&'w [u8]>
    ensures { option_copied result
        ≡ first_of (values_named name.now (fields_of window.now headers.now)) }
{
    all_named(window, headers, name).next()
}

/// The value of the only field with this name, ignoring case. `None`: there is no such field, or
/// there are several.
pub fn only_named<'w>(window: &'w [u8], headers: &[HeaderSpan], name: &[u8]) -> Option<&'w [u8]>
    ensures { option_copied result
        ≡ only_of (values_named name.now (fields_of window.now headers.now)) }
{
    let mut values = all_named(window, headers, name);
    let value = values.next()?;
    match values.next() {
        Some(_) => None,
        None => Some(value),
    }
}

/// The values of the fields with this name, ignoring case, in order.
pub(crate) fn all_named<'w, 'h>(
    window: &'w [u8],
    headers: &'h [HeaderSpan],
    name: &'h [u8],
) -> Values<'w, 'h>
    ensures { values_left result ≡ values_named name.now (fields_of window.now headers.now) }
{
    Values {
        window,
        headers,
        name,
    }
}

/// An iterator over the values of the fields with one name. Contracts see the values that it has
/// still to give (`values_left` of `specs/Left`).
#[derive(Clone, Copy)]
pub(crate) struct Values<'w, 'h> {
    window: &'w [u8],
    headers: &'h [HeaderSpan],
    name: &'h [u8],
}

impl<'w, 'h> Iterator for Values<'w, 'h> {
    ghost use Rattle.std.specs.Iterator.{YieldsFirstBy, item_count};
    ghost use Rattle.http_reading.specs.Left.{values_left};

    type Item = &'w [u8];

    ghost next_gives = { YieldsFirstBy (λ value. value.now) values_left };

    ghost remaining = { item_count values_left };

    fn next(&mut self) -> Option<&'w [u8]> {
        while let Some((header, others)) = self.headers.split_first() {
            self.headers = others;
            if is_named(self.window, header, self.name) {
                return Some(octets_at(self.window, header.value));
            }
        }
        None
    }
}

/// Whether the field has this name, ignoring case.
fn is_named(window: &[u8], header: &HeaderSpan, name: &[u8]) -> bool
    ensures { result ≡ spec.is_named name.now (header_bytes window.now header.now) }
{
    octets_at(window, header.name).eq_ignore_ascii_case(name)
}

/// The octets at a place; where it reaches beyond the octets, the part within them.
pub(crate) fn octets_at(window: &[u8], place: Span) -> &[u8]
    ensures { result.now ≡ span_bytes window.now place }
{
    let rest = &window[place.start.min(window.len())..];
    let length = place.end.saturating_sub(place.start);
    &rest[..length.min(rest.len())]
}
