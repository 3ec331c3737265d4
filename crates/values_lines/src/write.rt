ghost use Rattle.std.specs.Prelude.{◌≡◌, IfErr};
ghost use Rattle.values_plain.specs.Writing.{Writes};

use crate::fault::RunFault;
use std::io::Write;

/// Writes the text. After `Io` a front of it is written, and not all of it.
pub(crate) fn write_text<W: Write>(writer: &mut W, text: &[u8]) -> Result<(), RunFault>
    ensures written { Writes (W.contents writer.old) (W.contents writer.new) result text.now }
    ensures fault { IfErr result (λ fault. fault ≡ RunFault.Io) }
{
    match values_plain::write_text(writer, text) {
        Ok(()) => Ok(()),
        Err(_) => Err(RunFault::Io),
    }
}
