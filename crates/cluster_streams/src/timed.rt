//! A stream with a deadline.
ghost use Rattle.std.specs.Io.{ReadsAtMost, WritesAtMost};

use crate::stream_poll::StreamPoll;
use mio::Interest;
use mio::net::TcpStream;
use std::io::{self, Error, ErrorKind, Read, Write};
use std::time::{Clock, Duration, Instant};

/// After how many polls that brought nothing a call fails with `TimedOut`, whatever the clock says.
const MOST_WAITS: u32 = 1000;

/// How many writes and polls are made at most to send what is kept. (It is greater than the number
/// of octets that are kept.)
const MOST_WRITES: u32 = 20_000;

/// A stream that is read and written until a deadline.
#[derive(Drop)]
pub struct Timed<'w, 's, C: Clock> {
    clock: &'w C,
    poll: &'w mut StreamPoll,
    stream: &'s mut TcpStream,
    until: Instant,
}

impl<'w, 's, C: Clock> Timed<'w, 's, C> {
    /// The stream, for this long from now on at most. What is written is kept and sent in large
    /// pieces, so the caller has to call `flush` after the last piece; what an earlier message left
    /// in the poll is dropped. An error comes where the system refuses the clock.
    pub fn new(
        clock: &'w C,
        poll: &'w mut StreamPoll,
        stream: &'s mut TcpStream,
        most: Duration,
    ) -> io::Result<Timed<'w, 's, C>> {
        let now = Instant::now(clock)?;
        let until = now.checked_add(most).unwrap_or(now);
        poll.kept.clear();
        // (where the system refuses this, a short piece may wait until the one before it is
        // acknowledged)
        match stream.set_nodelay(true) {
            Ok(()) | Err(_) => {}
        }
        Ok(Timed {
            clock,
            poll,
            stream,
            until,
        })
    }

    /// Polls until the stream may be ready. `TimedOut` comes where the deadline has passed.
    fn wait(&mut self, interest: Interest) -> io::Result<()> {
        let left = self
            .until
            .saturating_duration_since(Instant::now(self.clock)?);
        if left.is_zero() {
            return Err(Error::from(ErrorKind::TimedOut));
        }
        self.poll.wait(self.stream, interest, left)
    }
}

impl<C: Clock> Read for Timed<'_, '_, C> {
    /// Reads what is there, after a poll where nothing is. `TimedOut` comes at the deadline.
    fn read(&mut self, buffer: &mut [u8]) -> io::Result<usize> {
        for _ in 0..MOST_WAITS {
            match self.stream.read(buffer) {
                Err(error) if error.kind() == ErrorKind::WouldBlock => {
                    self.wait(Interest::READABLE)?;
                }
                read => return read,
            }
        }
        Err(Error::from(ErrorKind::TimedOut))
    }
}

impl<C: Clock> Timed<'_, '_, C> {
    /// Sends a front of the octets past the buffer, as many as the system takes, after a poll where
    /// it takes none.
    fn send(&mut self, octets: &[u8]) -> io::Result<usize>
        ensures { WritesAtMost result octets.now }
    {
        for _ in 0..MOST_WAITS {
            match self.stream.write(octets) {
                Err(error) if error.kind() == ErrorKind::WouldBlock => {
                    self.wait(Interest::WRITABLE)?;
                }
                written => return written,
            }
        }
        Err(Error::from(ErrorKind::TimedOut))
    }

    /// Sends what is kept. After an error none of it is kept any more.
    fn send_kept(&mut self) -> io::Result<()> {
        let sent = self.send_all_kept();
        self.poll.kept.clear();
        sent
    }

    /// Writes what is kept from this place on, as much as the system takes.
    fn send_from(&mut self, sent: usize) -> io::Result<usize> {
        match self.poll.kept.as_slice().get(sent..) {
            Some(rest) => self.stream.write(rest),
            None => Ok(0),
        }
    }

    /// Sends all that is kept, with polls where the system takes nothing.
    fn send_all_kept(&mut self) -> io::Result<()> {
        let mut sent = 0usize;
        for _ in 0..MOST_WRITES {
            if sent >= self.poll.kept.len() {
                return Ok(());
            }
            match self.send_from(sent) {
                Ok(0) => return Err(Error::from(ErrorKind::WriteZero)),
                Ok(count) => sent = sent.saturating_add(count),
                Err(error) if error.kind() == ErrorKind::WouldBlock => {
                    self.wait(Interest::WRITABLE)?;
                }
                Err(error) => return Err(error),
            }
        }
        Err(Error::from(ErrorKind::TimedOut))
    }
}

impl<C: Clock> Write for Timed<'_, '_, C> {
    /// Keeps the octets where they have room, and else first sends what is kept. A piece that is
    /// longer than 16,384 octets is sent at once, after what is kept.
    fn write(&mut self, octets: &[u8]) -> io::Result<usize> {
        if !self.poll.has_room(octets.len()) {
            self.send_kept()?;
        }
        if !self.poll.has_room(octets.len()) {
            return self.send(octets);
        }
        self.poll.kept.extend_from_slice(octets)?;
        Ok(octets.len())
    }

    /// Sends what is kept.
    fn flush(&mut self) -> io::Result<()> {
        self.send_kept()
    }
}
