//! The octets of a response that has come in part.
use std::io::{self, Error, ErrorKind, Read};

/// Reads octets that have come, and tells at their end that more may come, unless they have ended.
#[derive(Drop)]
pub(crate) struct Received<'r> {
    rest: &'r [u8],
    has_ended: bool,
    wants_more: bool,
}

impl<'r> Received<'r> {
    /// These octets; `has_ended` where no more come.
    pub(crate) fn new(octets: &'r [u8], has_ended: bool) -> Received<'r> {
        Received {
            rest: octets,
            has_ended,
            wants_more: false,
        }
    }

    /// Whether a call wanted octets that have not come.
    pub(crate) fn wants_more(&self) -> bool {
        self.wants_more
    }
}

impl Read for Received<'_> {
    /// Reads a front of what is left. `WouldBlock` comes where nothing is left and more may come.
    fn read(&mut self, buffer: &mut [u8]) -> io::Result<usize> {
        if self.rest.is_empty() && !self.has_ended {
            self.wants_more = true;
            return Err(Error::from(ErrorKind::WouldBlock));
        }
        self.rest.read(buffer)
    }
}
