//! The loop over an input: each line is answered, and each answer is a line of its own.
ghost use Rattle.std.specs.Prelude.{◌≡◌, ℕ, List, [], ◌∷◌, ◌++◌, option_map, OnOk, OnErr};
ghost use Rattle.values_lines.specs.Lines.{is_last as is_last_line};
ghost use Rattle.values_lines.specs.Script.{HasPlayed, HasPlayedUntil, HasPlayedBefore};

use crate::fault::RunFault;
use crate::lines::LineReader;
use crate::write::write_text;
use std::alloc::{AllocError, Global};
use std::io::{Read, Write};

/// Answers are written once they are longer than this, in octets, even if another line is held.
const MOST_UNWRITTEN: usize = 65_536;

/// What answers the lines of a script.
pub trait Script {
    /// Whether, in the first state, the line may be answered by the text, which leaves the second
    /// state.
    ghost answers: { Self → List ℕ → List ℕ → Self → Type 0 };

    /// Appends the answer to a line to `text`, without a line end. The error is want of memory; it
    /// ends the run.
    fn answer(&mut self, alloc: Global, line: &[u8], text: &mut Vec<u8>) -> Result<(), AllocError>
        ensures { OnOk result ((answer : List ℕ) × answers self.old line.now answer self.new
            × (text.new.items ≡ text.old.items ++ answer)) };
}

/// Answers all lines of an input. Answers are written before more is read, so a person who types a
/// line sees its answer at once.
///
/// After a fault some first lines were answered, and a front of the answers was written.
/// `LineTooLong` comes only if the line after those is too long, `TooManyTurns` only after 70,000
/// reads that gave octets.
pub fn play<S: Script, R: Read, W: Write>(
    alloc: Global,
    script: &mut S,
    reader: &mut R,
    writer: &mut W,
) -> Result<(), RunFault>
    ensures { HasPlayed S.answers script.old (R.remaining reader.old) (W.contents writer.old)
        (W.contents writer.new) result script.new }
{
    play_before(alloc, script, None, reader, writer)
}

/// Answers the lines of an input before the first that is `last`, or all lines if none is. Nothing
/// is read once that line was read. Answers are written before more is read.
///
/// Faults are as of [`play`], of the lines up to the first that is `last`: what is behind it is not
/// looked at.
pub fn play_until<S: Script, R: Read, W: Write>(
    alloc: Global,
    script: &mut S,
    last: &[u8],
    reader: &mut R,
    writer: &mut W,
) -> Result<(), RunFault>
    ensures { HasPlayedUntil S.answers last.now script.old (R.remaining reader.old)
        (W.contents writer.old)
        (W.contents writer.new) result script.new }
{
    play_before(alloc, script, Some(last), reader, writer)
}

/// Answers the lines before the first that is `last`, or all if there is no `last`.
fn play_before<S: Script, R: Read, W: Write>(
    alloc: Global,
    script: &mut S,
    last: Option<&[u8]>,
    reader: &mut R,
    writer: &mut W,
) -> Result<(), RunFault>
    ensures { HasPlayedBefore S.answers (option_map (λ text. text.now) last.entry) script.old
        (R.remaining reader.old)
        (W.contents writer.old) (W.contents writer.new) result script.new }
{
    let mut source = match LineReader::new(alloc) {
        Ok(source) => source,
        Err(_) => return Err(RunFault::NoMemory),
    };
    let mut line = Vec::new(alloc);
    let mut text = Vec::new(alloc);
    'lines: loop {
        match source.next_line(reader, &mut line) {
            Ok(true) => {}
            Ok(false) => return write_text(writer, &text),
            Err(fault) => return Err(fault),
        }
        if is_last(last, &line) {
            return write_text(writer, &text);
        }
        if let Err(_) = answer_line(alloc, script, &line, &mut text) {
            return Err(RunFault::NoMemory);
        }
        let is_due = !source.holds_line() || text.len() > MOST_UNWRITTEN;
        if is_due {
            match write_text(writer, &text) {
                Ok(()) => text.clear(),
                Err(fault) => return Err(fault),
            }
        }
    }
}

/// Whether the line is `last`. False if there is no `last`.
fn is_last(last: Option<&[u8]>, line: &[u8]) -> bool
    ensures { result ≡ is_last_line (option_map (λ text. text.now) last.entry) line.now }
{
    match last {
        Some(last) => line == last,
        None => false,
    }
}

/// Appends the answer to a line, and a line end.
fn answer_line<S: Script>(
    alloc: Global,
    script: &mut S,
    line: &[u8],
    text: &mut Vec<u8>,
) -> Result<(), AllocError>
    ensures { OnOk result ((answer : List ℕ) × S.answers script.old line.now answer script.new
        × (text.new.items ≡ text.old.items ++ (answer ++ 10 ∷ []))) }
{
    script.answer(alloc, line, text)?;
    text.push(b'\n')?;
    Ok(())
}
