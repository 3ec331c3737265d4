ghost use Rattle.values_plain.specs.Writing.{Writes};

use std::io::Write;
use thiserror::Error;

/// The writer failed, or took no octet of a text that was not empty. It has a front of the text,
/// and not all of it.
#[derive(Clone, Copy, Debug, PartialEq, Eq, Error)]
#[error("the writer failed")]
pub struct WriteFailed;

/// Writes the text, in as many calls as the writer needs. Each call writes one octet or more, or
/// fails the whole. Allocates nothing.
///
/// After [`WriteFailed`] a front of the text is written, and not all of it.
pub fn write_text<W: Write>(writer: &mut W, text: &[u8]) -> Result<(), WriteFailed>
    ensures { Writes (W.contents writer.old) (W.contents writer.new) result text.now }
{
    let mut rest = text;
    while !rest.is_empty() {
        match writer.write(rest) {
            Ok(0) => return Err(WriteFailed),
            Ok(count) => {
                let (_, unwritten) = rest.split_at(count);
                rest = unwritten;
            }
            Err(_) => return Err(WriteFailed),
        }
    }
    Ok(())
}
