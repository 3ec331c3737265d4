//! Lines of a message's head (RFC 9112, section 5). A call that fails has written a proper front
//! of its text.
ghost use Rattle.std.specs.Prelude.{◌≡◌, ◌++◌, IfErr, decimal};
ghost use Rattle.values_plain.specs.Writing.{Writes};
ghost use Rattle.http_writing.specs.Lines.{field_line, number_line, last_lines};

use http_messages::FetchFault;
use itoa::Buffer;
use std::io::Write;
use values_plain::write_text;

/// Writes a text. `Io`: the writer failed.
pub(crate) fn write<W: Write>(writer: &mut W, text: &[u8]) -> Result<(), FetchFault>
    ensures written { Writes (W.contents writer.old) (W.contents writer.new) result text.now }
    ensures fault { IfErr result (λ fault. fault ≡ FetchFault.Io) }
{
    match write_text(writer, text) {
        Ok(()) => Ok(()),
        Err(_) => Err(FetchFault::Io),
    }
}

/// Writes three texts, one after another.
pub(crate) fn write_three<W: Write>(
    writer: &mut W,
    first: &[u8],
    second: &[u8],
    third: &[u8],
) -> Result<(), FetchFault>
    ensures written { Writes (W.contents writer.old) (W.contents writer.new) result
        (first.now ++ (second.now ++ third.now)) }
    ensures fault { IfErr result (λ fault. fault ≡ FetchFault.Io) }
{
    write(writer, first)?;
    write(writer, second)?;
    write(writer, third)
}

/// Writes a field line: name, `: `, value and CRLF.
pub(crate) fn write_field<W: Write>(
    writer: &mut W,
    name: &[u8],
    value: &[u8],
) -> Result<(), FetchFault>
    ensures written { Writes (W.contents writer.old) (W.contents writer.new) result
        (field_line name.now value.now) }
    ensures fault { IfErr result (λ fault. fault ≡ FetchFault.Io) }
{
    write(writer, name)?;
    write_three(writer, b": ", value, b"\r\n")
}

/// Writes the line of a field whose value is this number, in decimal; nothing where there is none.
pub(crate) fn write_number<W: Write>(
    writer: &mut W,
    name: &[u8],
    number: Option<u32>,
) -> Result<(), FetchFault>
    ensures written { Writes (W.contents writer.old) (W.contents writer.new) result
        (number_line name.now number) }
    ensures fault { IfErr result (λ fault. fault ≡ FetchFault.Io) }
{
    match number {
        Some(number) => {
            let mut buffer = Buffer::new();
            write_field(writer, name, buffer.format(number).as_bytes())
        }
        None => Ok(()),
    }
}

/// Writes `connection: close` (RFC 9112, section 9.6) and `via` (RFC 9110, section 7.6.3).
pub(crate) fn write_last_lines<W: Write>(writer: &mut W, via: &[u8]) -> Result<(), FetchFault>
    ensures written { Writes (W.contents writer.old) (W.contents writer.new) result
        (last_lines via.now) }
    ensures fault { IfErr result (λ fault. fault ≡ FetchFault.Io) }
{
    write_field(writer, b"connection", b"close")?;
    write_three(writer, b"via: 1.1 ", via, b"\r\n")
}
