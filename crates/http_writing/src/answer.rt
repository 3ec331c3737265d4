ghost use Rattle.std.specs.Prelude.{◌≡◌, IfErr, IsTrue, map};
ghost use Rattle.values_plain.specs.Writing.{Writes};
ghost use Rattle.http_messages.specs.Field.{field_text};
ghost use Rattle.http_writing.specs.Answer.{answer_text, status_line, kept_line, kept_lines};
ghost use Rattle.http_writing.specs.Answer.{first_lines, number_lines, told_length};
ghost use Rattle.http_writing.specs.Name.{is_name as names_cache};

use crate::lines::{write, write_field, write_last_lines, write_number, write_three};
use http_messages::{Answer, FetchFault, Field};
use itoa::Buffer;
use std::io::Write;

/// Writes a response (RFC 9112, section 4): the status line with an empty reason, the kept fields
/// in order, `age` and `x-purge-stamp` where it has them, `content-length` unless its status is
/// 204 or 304, `connection: close`, `via: 1.1` with the name `via` of the cache that responds, and
/// the body.
///
/// `via` must pass [`crate::is_name`]. The only fault is `Io`: the writer failed, and a proper
/// front of the text was written. It does not allocate.
pub fn write_answer<W: Write>(writer: &mut W, answer: &Answer, via: &[u8]) -> Result<(), FetchFault>
    requires { IsTrue (names_cache via.now) }
    ensures written { Writes (W.contents writer.old) (W.contents writer.new) result
        (answer_text answer.now via.now) }
    ensures fault { IfErr result (λ fault. fault ≡ FetchFault.Io) }
{
    write_first_lines(writer, answer.status(), answer.fields())?;
    write_number_lines(
        writer,
        answer.age(),
        answer.stamp(),
        told_body_length(answer),
    )?;
    write_last_lines(writer, via)?;
    write(writer, b"\r\n")?;
    write(writer, answer.body())
}

/// Writes the status line and the kept fields.
pub(crate) fn write_first_lines<W: Write>(
    writer: &mut W,
    status: u16,
    fields: &[Field],
) -> Result<(), FetchFault>
    ensures written { Writes (W.contents writer.old) (W.contents writer.new) result
        (first_lines status (map field_text fields.now)) }
    ensures fault { IfErr result (λ fault. fault ≡ FetchFault.Io) }
{
    write_status_line(writer, status)?;
    write_fields(writer, fields)
}

/// Writes the status line.
fn write_status_line<W: Write>(writer: &mut W, status: u16) -> Result<(), FetchFault>
    ensures written { Writes (W.contents writer.old) (W.contents writer.new) result
        (status_line status) }
    ensures fault { IfErr result (λ fault. fault ≡ FetchFault.Io) }
{
    let mut buffer = Buffer::new();
    write_three(
        writer,
        b"HTTP/1.1 ",
        buffer.format(status).as_bytes(),
        b" \r\n",
    )
}

/// Writes the lines of the kept fields, in order.
fn write_fields<W: Write>(writer: &mut W, fields: &[Field]) -> Result<(), FetchFault>
    ensures written { Writes (W.contents writer.old) (W.contents writer.new) result
        (kept_lines (map field_text fields.now)) }
    ensures fault { IfErr result (λ fault. fault ≡ FetchFault.Io) }
{
    for field in fields {
        match write_kept(writer, field) {
            Ok(()) => {}
            Err(fault) => return Err(fault),
        }
    }
    Ok(())
}

/// Writes the line of a kept field.
fn write_kept<W: Write>(writer: &mut W, field: &Field) -> Result<(), FetchFault>
    ensures written { Writes (W.contents writer.old) (W.contents writer.new) result
        (kept_line (field_text field.now)) }
    ensures fault { IfErr result (λ fault. fault ≡ FetchFault.Io) }
{
    write_field(writer, field.name.as_bytes(), field.value.as_bytes())
}

/// Writes `age`, `x-purge-stamp` and `content-length`, each where there is one.
fn write_number_lines<W: Write>(
    writer: &mut W,
    age: Option<u32>,
    stamp: Option<u32>,
    length: Option<u32>,
) -> Result<(), FetchFault>
    ensures written { Writes (W.contents writer.old) (W.contents writer.new) result
        (number_lines age stamp length) }
    ensures fault { IfErr result (λ fault. fault ≡ FetchFault.Io) }
{
    write_number(writer, b"age", age)?;
    write_number(writer, b"x-purge-stamp", stamp)?;
    write_number(writer, b"content-length", length)
}

/// The length of the body, as `content-length` gives it. `None`: the status is 204 or 304.
fn told_body_length(answer: &Answer) -> Option<u32>
    ensures { result ≡ told_length answer.now }
{
    match answer.status() {
        204 | 304 => None,
        _ => Some(answer.body().len() as u32),
    }
}
