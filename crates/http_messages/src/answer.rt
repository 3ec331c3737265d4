ghost use Rattle.std.specs.Prelude.{◌≡◌, ◌-◌, ◌≤◌, length, nat_le, IfOk, IsTrue, map, Some, None};
ghost use Rattle.std.specs.Prelude.{SomeIff, if◌then◌else◌};
ghost use Rattle.std.specs.List.{list_all};
ghost use Rattle.http_messages.specs.Field.{FieldText, field_text, is_dropped_name as is_dropped};
ghost use Rattle.http_messages.specs.Field.{is_trimmed as has_no_blank_end};
ghost use Rattle.http_messages.specs.Field.{is_kept_field as may_be_kept};
ghost use Rattle.http_messages.specs.Field.{are_few_fields as have_room, line_length, lines_length};
ghost use Rattle.http_messages.specs.Answer.{AnswerText, is_writable as has_text};
ghost use Rattle.http_messages.specs.Answer.{is_body_of as fits_status, answer_size};

use crate::{Body, Field, Fields};
use std::alloc::AllocError;
use std::marker::Model;

/// The most fields that a response keeps.
pub const MOST_KEPT_FIELDS: usize = 56;

/// The most octets that the lines of a response's fields have together.
const MOST_LINES: usize = 16_000;

/// The greatest age of a response, in seconds (RFC 9111, section 1.2.2).
const GREATEST_AGE: u32 = 2_147_483_648;

/// The most octets that a body has.
pub const LONGEST_BODY: usize = 65_536;

/// A final response that can be written and read back as the same response.
///
/// The invariant of the type is `is_writable` of `specs/Answer`; the laws of `peer_fetch` rest on
/// it. A contract sees the status, fields, age, stamp and body (`AnswerText`).
pub struct Answer {
    status: u16,
    fields: Fields,
    age: Option<u32>,
    stamp: Option<u32>,
    body: Body,
}

impl Drop for Answer {
    fn drop(self) {
        let Answer {
            status: _,
            fields: _,
            age: _,
            stamp: _,
            body: _,
        } = self;
    }
}

impl Model for Answer {
    ghost use Rattle.std.specs.Prelude.{IsTrue};
    ghost use Rattle.http_messages.specs.Answer.{AnswerText, is_writable};

    ghost Value = { AnswerText };

    ghost view = { λ a. record {
      status = a.status;
      fields = a.fields;
      age = a.age;
      stamp = a.stamp;
      body = a.body;
    } };

    ghost invariant = { λ a. IsTrue (is_writable (record {
      status = a.status;
      fields = a.fields;
      age = a.age;
      stamp = a.stamp;
      body = a.body;
    })) };
}

impl Answer {
    /// The response of these parts. It does not allocate. `None` in these cases, and in no others:
    ///
    /// - the status is not 200 to 599 (RFC 9110, section 15);
    /// - a field is not one that a response keeps: its name is one that concerns one connection,
    ///   or one that this type holds apart (`dropped_names` of `specs/Field`), or its value begins
    ///   or ends with a space or a tab;
    /// - there are more than 56 fields, or their lines (name, value and 4 octets each) have more
    ///   than 16,000 octets together;
    /// - the age is over 2,147,483,648 seconds (RFC 9111, section 1.2.2);
    /// - the body has more than 65,536 octets, or has any octet with status 204 or 304 (RFC 9112,
    ///   section 6.3).
    pub fn new(
        status: u16,
        fields: Fields,
        age: Option<u32>,
        stamp: Option<u32>,
        body: Body,
    ) -> Option<Answer>
        ensures { let answer : AnswerText = record {
          status = status;
          fields = fields;
          age = age;
          stamp = stamp;
          body = body;
        } in result ≡ (if has_text answer then Some answer else None) }
    {
        if is_writable(status, fields.as_slice(), age, body.as_slice()) {
            Some(Answer {
                status,
                fields,
                age,
                stamp,
                body,
            })
        } else {
            None
        }
    }

    /// The status, 200 to 599 (RFC 9110, section 15).
    pub fn status(&self) -> u16
        ensures value { result ≡ self.now.status }
        ensures writable { IsTrue (has_text self.now) }
    {
        self.status
    }

    /// The kept fields, in order.
    pub fn fields(&self) -> &[Field]
        ensures { map field_text result.now ≡ self.now.fields }
    {
        self.fields.as_slice()
    }

    /// The age that came with the response, in seconds, at most 2,147,483,648 (RFC 9111, section
    /// 5.1). `None`: none came.
    pub fn age(&self) -> Option<u32>
        ensures { result ≡ self.now.age }
    {
        self.age
    }

    /// The purge stamp that came with the response (`x-purge-stamp`): the greatest number that the
    /// reader of the origin knew when that read began, as the sender says. `None`: none came.
    pub fn stamp(&self) -> Option<u32>
        ensures { result ≡ self.now.stamp }
    {
        self.stamp
    }

    /// The octets of the body.
    pub fn body(&self) -> &[u8]
        ensures { result.now ≡ self.now.body }
    {
        self.body.as_slice()
    }

    /// The octets that it counts in a store, at most 81,536: the body, and of each field name,
    /// value and 4.
    pub fn size(&self) -> u64
        ensures value { result ≡ answer_size self.now }
        ensures bound { result ≤ 81536 }
    {
        let lines = length_of_lines(self.fields.as_slice());
        (lines + self.body.len()) as u64
    }

    /// An equal response, which shares the fields and the body. `AllocError`: the owners could not
    /// be counted.
    pub fn copy(&self) -> Result<Answer, AllocError>
        ensures { IfOk result (λ copy. copy ≡ self.now) }
    {
        let fields = self.fields.copy()?;
        let body = self.body.copy()?;
        Ok(Answer {
            status: self.status,
            fields,
            age: self.age,
            stamp: self.stamp,
            body,
        })
    }
}

/// Whether these parts make a response, as [`Answer::new`] says. Any stamp will do.
fn is_writable(status: u16, fields: &[Field], age: Option<u32>, body: &[u8]) -> bool
    ensures { result ≡ has_text (record {
      status = status;
      fields = map field_text fields.now;
      age = age;
      stamp = None;
      body = body.now;
    }) }
{
    200 <= status
        && status <= 599
        && are_kept_fields(fields)
        && are_few_fields(fields)
        && age.unwrap_or(0) <= GREATEST_AGE
        && is_body_of(status, body)
}

/// Whether a response may keep each of the fields.
fn are_kept_fields(fields: &[Field]) -> bool
    ensures { result ≡ list_all may_be_kept (map field_text fields.now) }
{
    for field in fields {
        if !is_kept_field(field) {
            return false;
        }
    }
    true
}

/// Whether a response may keep the field.
fn is_kept_field(field: &Field) -> bool
    ensures { result ≡ may_be_kept (field_text field.now) }
{
    !is_dropped_name(field.name.as_str()) && is_trimmed(field.value.as_bytes())
}

/// Whether no kept field has this name: it concerns one connection (RFC 9110, section 7.6.1), or an
/// [`Answer`] holds what it says apart from the fields.
fn is_dropped_name(name: &str) -> bool
    ensures { result ≡ is_dropped name.now }
{
    matches!(
        name,
        "connection"
            | "keep-alive"
            | "proxy-connection"
            | "proxy-authenticate"
            | "proxy-authentication-info"
            | "te"
            | "trailer"
            | "transfer-encoding"
            | "upgrade"
            | "close"
            | "content-length"
            | "age"
            | "via"
            | "x-purge-stamp"
    )
}

/// Whether no space or tab stands at an end of the value.
pub fn is_trimmed(value: &[u8]) -> bool
    ensures { result ≡ has_no_blank_end value.now }
{
    let first = value.first().copied().unwrap_or(0);
    let last = value.last().copied().unwrap_or(0);
    !matches!(first, b' ' | b'\t') && !matches!(last, b' ' | b'\t')
}

/// Whether there are at most 56 fields, with at most 16,000 octets in their lines.
fn are_few_fields(fields: &[Field]) -> bool
    ensures { result ≡ have_room (map field_text fields.now) }
{
    fields.len() <= MOST_KEPT_FIELDS && have_short_lines(fields)
}

/// Whether the lines of the fields have at most 16,000 octets together.
fn have_short_lines(fields: &[Field]) -> bool
    ensures { result ≡ nat_le (lines_length (map field_text fields.now)) 16000 }
{
    let mut room = MOST_LINES;
    for field in fields {
        match room_after(room, field) {
            Some(left) => room = left,
            None => return false,
        }
    }
    true
}

/// The room that is left after a field's line. `None`: the line is longer than the room.
fn room_after(room: usize, field: &Field) -> Option<usize>
    ensures { SomeIff result (line_length (field_text field.now) ≤ room)
        (room - line_length (field_text field.now)) }
{
    let room = room.checked_sub(field.name.as_bytes().len())?;
    let room = room.checked_sub(field.value.len())?;
    room.checked_sub(4)
}

/// The number of octets of the fields' lines.
fn length_of_lines(fields: &[Field]) -> usize
    requires { lines_length (map field_text fields.now) ≤ 16000 }
    ensures { result ≡ lines_length (map field_text fields.now) }
{
    let mut length = 0;
    for field in fields {
        length += length_of_line(field);
    }
    length
}

/// The number of octets of a field's line: its name, its value, and 4 for `: ` and CRLF.
fn length_of_line(field: &Field) -> usize
    requires { line_length (field_text field.now) ≤ 16000 }
    ensures { result ≡ line_length (field_text field.now) }
{
    field.name.as_bytes().len() + field.value.len() + 4
}

/// Whether a response with this status may have this body.
fn is_body_of(status: u16, body: &[u8]) -> bool
    ensures { result ≡ fits_status status body.now }
{
    body.len() <= LONGEST_BODY && (!matches!(status, 204 | 304) || body.is_empty())
}
