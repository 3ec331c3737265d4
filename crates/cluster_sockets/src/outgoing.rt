//! A response on its way to a socket that may not take all of it at once.
ghost use Rattle.std.specs.Prelude.{◌≡◌};
ghost use Rattle.std.specs.Io.{WritesAtMost};

use mio::net::TcpStream;
use std::io::{self, Error, ErrorKind, Write};

/// How many octets are kept at most before they are sent.
pub(crate) const KEPT: usize = 16_384;

/// Writes a response from a place on: what was sent before is passed over. Short pieces are kept
/// and sent together. Where the socket takes no more, a call fails, and `is_blocked` tells so;
/// `sent` tells how far the response has come.
#[derive(Drop)]
pub(crate) struct Outgoing<'w> {
    stream: &'w mut TcpStream,
    kept: &'w mut Vec<u8>,
    passed: usize,
    sent: usize,
    is_blocked: bool,
}

impl<'w> Outgoing<'w> {
    /// A response of which this many octets were sent. `kept` is where short pieces are kept; what
    /// is in it is dropped.
    pub(crate) fn new(
        stream: &'w mut TcpStream,
        kept: &'w mut Vec<u8>,
        sent: usize,
    ) -> Outgoing<'w> {
        kept.clear();
        Outgoing {
            stream,
            kept,
            passed: 0,
            sent,
            is_blocked: false,
        }
    }

    /// How many octets of the response have been sent.
    pub(crate) fn sent(&self) -> usize {
        self.sent
    }

    /// Whether a call failed since the socket takes no more now.
    pub(crate) fn is_blocked(&self) -> bool {
        self.is_blocked
    }

    /// Counts what a call of the socket took, and notes whether it takes no more now.
    fn note(&mut self, written: io::Result<usize>) -> io::Result<usize>
        ensures { result ≡ written }
    {
        match &written {
            Ok(count) => self.sent = self.sent.saturating_add(*count),
            Err(error) => self.is_blocked = error.kind() == ErrorKind::WouldBlock,
        }
        written
    }

    /// Sends a front of these octets, as many as the system takes.
    fn send(&mut self, octets: &[u8]) -> io::Result<usize>
        ensures { WritesAtMost result octets.now }
    {
        let written = self.stream.write(octets);
        self.note(written)
    }

    /// Sends what is kept from this place on, as much as the system takes.
    fn send_kept_from(&mut self, place: usize) -> io::Result<usize> {
        let written = match self.kept.as_slice().get(place..) {
            Some(rest) => self.stream.write(rest),
            None => Ok(0),
        };
        self.note(written)
    }

    /// Sends all that is kept. After an error none of it is kept any more.
    fn send_kept(&mut self) -> io::Result<()> {
        let result = self.send_all_kept();
        self.kept.clear();
        result
    }

    /// Sends all that is kept.
    fn send_all_kept(&mut self) -> io::Result<()> {
        let mut place = 0usize;
        for _ in 0..=KEPT {
            if place >= self.kept.len() {
                return Ok(());
            }
            match self.send_kept_from(place)? {
                0 => return Err(Error::from(ErrorKind::WriteZero)),
                count => place = place.saturating_add(count),
            }
        }
        Ok(())
    }
}

impl Write for Outgoing<'_> {
    /// Passes over octets that were sent before, and keeps or sends the others.
    fn write(&mut self, octets: &[u8]) -> io::Result<usize> {
        let before = self.sent.saturating_add(self.kept.len());
        let skipped = before.saturating_sub(self.passed).min(octets.len());
        if skipped > 0 {
            self.passed = self.passed.saturating_add(skipped);
            return Ok(skipped);
        }
        if octets.len() > KEPT - self.kept.len().min(KEPT) {
            self.send_kept()?;
        }
        let count = if octets.len() > KEPT {
            self.send(octets)?
        } else {
            self.kept.extend_from_slice(octets)?;
            octets.len()
        };
        self.passed = self.passed.saturating_add(count);
        Ok(count)
    }

    /// Sends what is kept.
    fn flush(&mut self) -> io::Result<()> {
        self.send_kept()
    }
}
