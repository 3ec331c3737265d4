//! Bodies with a length, and bodies up to the end of the input (RFC 9112, section 6.3).
ghost use Rattle.std.specs.Prelude.{◌≡◌, ◌≢◌, ◌≤◌, length, take, vec_len, OnOk, IfOk, IfErr};
ghost use Rattle.http_messages.specs.Answer.{longest_body};
ghost use Rattle.http_intake.specs.Bodies.{ReadsBodyOf, CutsBodyOf, ReadsToEnd, CutsToEnd};
ghost use Rattle.http_intake.specs.Reading.{IsReadFault};

use crate::Intake;
use crate::fill::fill;
use crate::piece::read_piece;
use http_messages::{FetchFault, LONGEST_BODY};
use std::alloc::{AllocError, Global};
use std::io::Read;

impl Intake {
    /// Reads the body of `len` octets that begins at `start`, after a head that gave its length.
    /// It copies the octets that came with the head, and reads the rest into place; it takes no
    /// octet after the body. The message ends here, so the call uses up the intake.
    ///
    /// Errors: `BodyTooLong`: `len` is over 65,536; nothing was read. `EndOfInput`: the input
    /// ended before the body did. `TooManyTurns`: the body would need a call beyond 70,000. `Io`:
    /// a call failed. `NoMemory`: there was no memory for the body.
    pub fn read_body_of<R: Read>(
        self,
        alloc: Global,
        reader: &mut R,
        start: usize,
        len: u64,
    ) -> Result<Vec<u8>, FetchFault>
        requires { start ≤ length self.octets }
        ensures body { IfOk result (λ body.
            ReadsBodyOf (R.remaining reader.old) (R.remaining reader.new)
            self start len body.items) }
        ensures short { IfOk result (λ body. vec_len body ≤ longest_body) }
        ensures cut { IfErr result
            (CutsBodyOf (R.remaining reader.old) (R.remaining reader.new) self start len) }
    {
        if len > LONGEST_BODY as u64 {
            return Err(FetchFault::BodyTooLong);
        }
        let (octets, mut turns) = self.into_parts();
        let (_, behind) = octets.as_slice().split_at(start);
        let came = behind.len().min(len as usize);
        let mut body = match begin_body(alloc, &behind[..came], len as usize) {
            Ok(body) => body,
            Err(_) => return Err(FetchFault::NoMemory),
        };
        match fill(&mut body, came, &mut turns, reader) {
            Ok(()) => Ok(body),
            Err(fault) => Err(fault),
        }
    }

    /// Reads the body that begins at `start` and goes up to the end of the input. It copies the
    /// octets that came with the head, and reads the rest after them. The message ends here, so
    /// the call uses up the intake.
    ///
    /// Errors: `BodyTooLong`: more than 65,536 octets came. `TooManyTurns`: the input had not
    /// ended after 70,000 calls. `Io`: a call failed. `NoMemory`: there was no memory for the
    /// body.
    pub fn read_to_end<R: Read>(
        self,
        alloc: Global,
        reader: &mut R,
        start: usize,
    ) -> Result<Vec<u8>, FetchFault>
        requires { start ≤ length self.octets }
        ensures body { IfOk result (λ body.
            ReadsToEnd (R.remaining reader.old) (R.remaining reader.new)
            self start body.items) }
        ensures stopped { IfErr result
            (CutsToEnd (R.remaining reader.old) (R.remaining reader.new) self start) }
    {
        let (octets, mut turns) = self.into_parts();
        let (_, behind) = octets.as_slice().split_at(start);
        let mut body = match Vec::from_slice(alloc, behind) {
            Ok(body) => body,
            Err(_) => return Err(FetchFault::NoMemory),
        };
        'pieces: loop {
            if body.len() > LONGEST_BODY {
                return Err(FetchFault::BodyTooLong);
            }
            match read_piece(&mut body, &mut turns, reader) {
                Ok(()) => {}
                Err(fault) => match unless_ended(fault) {
                    Ok(()) => return Ok(body),
                    Err(other) => return Err(other),
                },
            }
        }
    }
}

/// `Ok` where the fault is that the input ended, else the fault.
fn unless_ended(fault: FetchFault) -> Result<(), FetchFault>
    requires { IsReadFault fault }
    ensures ended { OnOk result (fault ≡ FetchFault.EndOfInput) }
    ensures other { IfErr result (λ other. (other ≡ fault) × (other ≢ FetchFault.EndOfInput)) }
{
    match fault {
        FetchFault::EndOfInput => Ok(()),
        other => Err(other),
    }
}

/// Memory of `len` octets that begins with `front`.
fn begin_body(alloc: Global, front: &[u8], len: usize) -> Result<Vec<u8>, AllocError>
    requires { length front.now ≤ len }
    ensures front { IfOk result (λ body. take (length front.now) body.items ≡ front.now) }
    ensures len { IfOk result (λ body. vec_len body ≡ len) }
{
    let mut body = Vec::with_capacity(alloc, len)?;
    body.extend_from_slice(front)?;
    body.resize(len, 0)?;
    Ok(body)
}
