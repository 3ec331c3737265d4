//! Writes what a cache serves: a stored response, or a status alone. Nothing here allocates or
//! copies a body.
ghost use Rattle.std.specs.Prelude.{◌≡◌, IfErr, IsTrue, [], None, map};
ghost use Rattle.values_plain.specs.Writing.{Writes};
ghost use Rattle.http_messages.specs.Field.{field_text};
ghost use Rattle.http_messages.specs.Answer.{AnswerText};
ghost use Rattle.http_writing.specs.Lines.{number_line};
ghost use Rattle.http_writing.specs.Answer.{answer_text, number_lines, told_length};
ghost use Rattle.http_writing.specs.Name.{is_name as names_cache};
ghost use Rattle.http_writing.specs.Served.{served_as, bare};

use crate::answer::write_first_lines;
use crate::lines::{write, write_field, write_last_lines, write_number};
use http_messages::{Answer, FetchFault, Field};
use itoa::Buffer;
use std::io::Write;

/// Writes a stored response as it is served: as [`crate::write_answer`] does, but with this age in
/// seconds and this stamp in place of its own. `None` as stamp writes no `x-purge-stamp`.
///
/// The age is written as it is; the caller keeps it at most 2,147,483,648 (RFC 9111, section
/// 1.2.2). `via` must pass [`crate::is_name`]. The only fault is `Io`: the writer failed, and a
/// proper front of the text was written. It does not allocate.
pub fn write_served<W: Write>(
    writer: &mut W,
    answer: &Answer,
    age: u64,
    stamp: Option<u32>,
    via: &[u8],
) -> Result<(), FetchFault>
    requires { IsTrue (names_cache via.now) }
    ensures written { Writes (W.contents writer.old) (W.contents writer.new) result
        (answer_text (served_as answer.now age stamp) via.now) }
    ensures fault { IfErr result (λ fault. fault ≡ FetchFault.Io) }
{
    write_parts(
        writer,
        answer.status(),
        answer.fields(),
        Some(age),
        stamp,
        answer.body(),
        via,
    )
}

/// Writes a response of a status alone: the status line, `content-length: 0` unless the status is
/// 204 or 304, `connection: close`, `via`, and an empty body.
///
/// The status is written as it is; the caller gives a final one, 200 to 599 (RFC 9110, section
/// 15). `via` must pass [`crate::is_name`]. The only fault is `Io`: the writer failed, and a
/// proper front of the text was written. It does not allocate.
pub fn write_status<W: Write>(writer: &mut W, status: u16, via: &[u8]) -> Result<(), FetchFault>
    requires { IsTrue (names_cache via.now) }
    ensures written { Writes (W.contents writer.old) (W.contents writer.new) result
        (answer_text (bare status) via.now) }
    ensures fault { IfErr result (λ fault. fault ≡ FetchFault.Io) }
{
    write_parts(writer, status, &[], None, None, b"", via)
}

/// Writes a response of these parts.
fn write_parts<W: Write>(
    writer: &mut W,
    status: u16,
    fields: &[Field],
    age: Option<u64>,
    stamp: Option<u32>,
    body: &[u8],
    via: &[u8],
) -> Result<(), FetchFault>
    ensures written { let answer : AnswerText = record {
      status = status;
      fields = map field_text fields.now;
      age = age;
      stamp = stamp;
      body = body.now;
    } in Writes (W.contents writer.old) (W.contents writer.new) result
        (answer_text answer via.now) }
    ensures fault { IfErr result (λ fault. fault ≡ FetchFault.Io) }
{
    write_first_lines(writer, status, fields)?;
    write_numbers(writer, age, stamp, length_told(status, body))?;
    write_last_lines(writer, via)?;
    write(writer, b"\r\n")?;
    write(writer, body)
}

/// Writes `age`, `x-purge-stamp` and `content-length`, each where there is one.
fn write_numbers<W: Write>(
    writer: &mut W,
    age: Option<u64>,
    stamp: Option<u32>,
    length: Option<u64>,
) -> Result<(), FetchFault>
    ensures written { Writes (W.contents writer.old) (W.contents writer.new) result
        (number_lines age stamp length) }
    ensures fault { IfErr result (λ fault. fault ≡ FetchFault.Io) }
{
    write_long(writer, b"age", age)?;
    write_number(writer, b"x-purge-stamp", stamp)?;
    write_long(writer, b"content-length", length)
}

/// Writes the line of a field whose value is this number of up to 64 bits; nothing where there is
/// none.
fn write_long<W: Write>(writer: &mut W, name: &[u8], number: Option<u64>) -> Result<(), FetchFault>
    ensures written { Writes (W.contents writer.old) (W.contents writer.new) result
        (number_line name.now number) }
    ensures fault { IfErr result (λ fault. fault ≡ FetchFault.Io) }
{
    match number {
        Some(number) => {
            let mut buffer = Buffer::new();
            write_field(writer, name, buffer.format(number).as_bytes())
        }
        None => Ok(()),
    }
}

/// The length of the body, as `content-length` gives it. `None`: the status is 204 or 304.
fn length_told(status: u16, body: &[u8]) -> Option<u64>
    ensures { let answer : AnswerText = record {
      status = status;
      fields = [];
      age = None;
      stamp = None;
      body = body.now;
    } in result ≡ told_length answer }
{
    match status {
        204 | 304 => None,
        _ => Some(body.len() as u64),
    }
}
