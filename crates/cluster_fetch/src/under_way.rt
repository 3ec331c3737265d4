//! A fetch that is under way, on a connection that no thread waits for.
ghost use Rattle.std.specs.Prelude.{◌≡◌, Bool, false, IsTrue, IfErr, IfOk, None};
ghost use Rattle.std.specs.IoError.{error_kind, raw_os_error};
ghost use Rattle.http_writing.specs.Name.{is_name as names_cache};
ghost use Rattle.cluster_fetch.specs.UnderWay.{FetchingView, Ends, IsSameFetch, asked_by, ended_as};
ghost use Rattle.cluster_fetch.specs.UnderWay.{is_own_want as lacks_own};
ghost use Rattle.cluster_fetch.specs.UnderWay.{is_want_of_descriptors as lacks_descriptors};

use crate::ended::Fetched;
use crate::events::ResponseSource;
use crate::received::Received;
use http_messages::{Answer, Ask};
use http_reading::{lower_versions, read_answer};
use http_writing::{AskForm, write_ask};
use mio::net::TcpStream;
use mio::{Interest, Registry, Token};
use std::alloc::Global;
use std::io::{self, Error, ErrorKind, Read, Write};
use std::marker::Model;
use std::net::Net;
use std::time::Instant;
use url_key::Key;
use values_plain::Address;

/// How many octets of a response are kept at most, with its heads, chunk lines and trailer.
const MOST_OCTETS: usize = 524_288;

/// How many octets one call of the socket reads at most.
const PIECE: usize = 4096;

/// How many times a response is read at each piece that comes. From then on it is read where it has
/// grown by a quarter, and at intervals.
const MOST_TRIES: u32 = 64;

/// What is to be fetched, and from whom.
#[derive(Drop)]
pub struct FetchRequest {
    /// Whom it asks.
    pub source: ResponseSource,
    /// The serial under which the node waits for it.
    pub serial: u32,
    /// Where that one serves HTTP.
    pub at: Address,
    /// The request.
    pub ask: Ask,
}

/// A fetch that could not begin.
#[derive(Drop)]
pub struct Unbegun {
    /// The fetch, which has failed.
    pub fetched: Fetched,
    /// Whether there was no descriptor for its connection.
    pub lacks_descriptor: bool,
}

/// A fetch that is under way: its connection, what is sent and what has come.
///
/// A contract sees whom it asks, its serial and its key, and whether this machine lacked something
/// for it.
pub struct Fetching {
    source: ResponseSource,
    serial: u32,
    key: Key,
    stream: TcpStream,
    request: Vec<u8>,
    sent: usize,
    response: Vec<u8>,
    has_ended: bool,
    /// Whether it failed for want of something of this machine.
    has_lacked: bool,
    tries: u32,
    tried: usize,
    until: Instant,
}

impl Drop for Fetching {
    fn drop(self) {
        let Fetching {
            source: _,
            serial: _,
            key: _,
            stream: _,
            request: _,
            sent: _,
            response: _,
            has_ended: _,
            has_lacked: _,
            tries: _,
            tried: _,
            until: _,
        } = self;
    }
}

impl Model for Fetching {
    ghost use Rattle.cluster_fetch.specs.UnderWay.{FetchingView};

    ghost Value = { FetchingView };

    ghost view = { λ f. record {
      source = f.source;
      serial = f.serial;
      key = f.key;
      lacked = f.has_lacked;
    } };
}

/// The form of the request target: that for a proxy to a peer, that for an origin to an origin (RFC
/// 9112, section 3.2).
fn form_for(source: ResponseSource) -> AskForm {
    match source {
        ResponseSource::Member(_) | ResponseSource::Foreign(_) => AskForm::Absolute,
        ResponseSource::Origin => AskForm::Origin,
    }
}

/// The octets of a request.
fn request_of(alloc: Global, ask: &Ask, source: ResponseSource, name: &[u8]) -> io::Result<Vec<u8>>
    requires { IsTrue (names_cache name.now) }
{
    let mut octets = Vec::new(alloc);
    match write_ask(&mut octets, ask, form_for(source), name) {
        Ok(()) => Ok(octets),
        Err(_) => Err(Error::from(ErrorKind::OutOfMemory)),
    }
}

/// Whether a connection was refused by the other side, or on the way to it.
fn is_refusal(error: &Error) -> bool {
    matches!(
        error.kind(),
        ErrorKind::ConnectionRefused
            | ErrorKind::HostUnreachable
            | ErrorKind::NetworkUnreachable
            | ErrorKind::TimedOut
    )
}

/// Whether a call failed for want of something of this machine: memory (`ENOMEM`), descriptors
/// (`ENFILE`, `EMFILE`), ports (`EADDRNOTAVAIL`) or buffers (`ENOBUFS`). It tells nothing of the
/// other side.
fn is_own_want(error: &Error) -> bool
    ensures { result ≡ lacks_own (raw_os_error error.now) (error_kind error.now) }
{
    match error.raw_os_error() {
        Some(number) => matches!(number, 12 | 23 | 24 | 99 | 105),
        None => error.kind() == ErrorKind::OutOfMemory,
    }
}

/// Whether a call failed since the process, or the whole system, has no more descriptors (`EMFILE`,
/// `ENFILE`).
pub fn is_want_of_descriptors(error: &Error) -> bool
    ensures { result ≡ lacks_descriptors (raw_os_error error.now) }
{
    match error.raw_os_error() {
        Some(number) => matches!(number, 23 | 24),
        None => false,
    }
}

/// Writes the request, and begins to connect.
fn connected<R: Net>(
    rt: &R,
    alloc: Global,
    fetch: &FetchRequest,
    name: &[u8],
) -> io::Result<(TcpStream, Vec<u8>)>
    requires { IsTrue (names_cache name.now) }
{
    let request = request_of(alloc, &fetch.ask, fetch.source, name)?;
    Ok((TcpStream::connect(rt, fetch.at.socket())?, request))
}

impl FetchRequest {
    /// The fetch as one that has failed before a connection was tried.
    pub fn into_failed(self) -> Fetched
        ensures { result ≡ ended_as (asked_by self) None false }
    {
        self.into_ended(false)
    }

    /// The fetch as one that has failed. `is_unreached`: no connection could be made.
    fn into_ended(self, is_unreached: bool) -> Fetched
        ensures { result ≡ ended_as (asked_by self) None is_unreached }
    {
        Fetched {
            source: self.source,
            serial: self.serial,
            key: self.ask.key,
            answer: None,
            is_unreached,
        }
    }
}

impl Fetching {
    /// Begins to connect, under the name of the cache that asks, and waits for nothing. The fetch
    /// is late from this moment on. It fails at once where the system refuses the connection, or
    /// there is no memory.
    pub fn begin<R: Net>(
        rt: &R,
        alloc: Global,
        fetch: FetchRequest,
        name: &[u8],
        until: Instant,
    ) -> Result<Fetching, Unbegun>
        requires { IsTrue (names_cache name.now) }
        ensures begun { IfOk result (λ fetching. fetching ≡ asked_by fetch) }
        ensures failed { IfErr result (λ failed. (unreached : Bool)
            × (failed.fetched ≡ ended_as (asked_by fetch) None unreached)) }
    {
        match connected(rt, alloc, &fetch, name) {
            Ok((stream, request)) => Ok(Fetching {
                source: fetch.source,
                serial: fetch.serial,
                key: fetch.ask.key,
                stream,
                request,
                sent: 0,
                response: Vec::new(alloc),
                has_ended: false,
                has_lacked: false,
                tries: 0,
                tried: 0,
                until,
            }),
            Err(error) => Err(Unbegun {
                lacks_descriptor: is_want_of_descriptors(&error),
                fetched: fetch.into_ended(is_refusal(&error)),
            }),
        }
    }

    /// Has a poll tell, under this token, when it may go on.
    pub fn register(&mut self, registry: &Registry, token: Token) -> io::Result<()>
        ensures { self.new ≡ self.old }
    {
        let interest = Interest::READABLE | Interest::WRITABLE;
        registry.register(&mut self.stream, token, interest)
    }

    /// Takes it out of the poll.
    pub fn deregister(&mut self, registry: &Registry)
        ensures { self.new ≡ self.old }
    {
        // (where this fails, the poll forgets the stream once it is closed)
        let _ = registry.deregister(&mut self.stream);
    }

    /// Whether its time is over at this moment.
    pub fn is_late(&self, now: Instant) -> bool {
        now >= self.until
    }

    /// The fetch as one that has ended. Where it has failed, no connection was made if nothing
    /// could be sent, unless this machine lacked something.
    pub fn into_fetched(self, answer: Option<Answer>) -> Fetched
        ensures { Ends self answer result }
    {
        let Fetching {
            source,
            serial,
            key,
            stream: _,
            request: _,
            sent,
            response: _,
            has_ended: _,
            has_lacked,
            tries: _,
            tried: _,
            until: _,
        } = self;
        let is_unreached = sent == 0 && !has_lacked && answer.is_none();
        Fetched {
            source,
            serial,
            key,
            answer,
            is_unreached,
        }
    }

    /// The fetch as one that has failed for want of something of this machine.
    pub fn into_lacked(self) -> Fetched
        ensures { result ≡ ended_as self None false }
    {
        let mut lacked = self;
        lacked.has_lacked = true;
        lacked.into_fetched(None)
    }

    /// Sends and reads what can be sent and read without waiting. Returns what came of the fetch
    /// once it has ended, and nothing before: the response, or none where the connection failed, or
    /// what came is no response.
    pub fn go_on(&mut self, alloc: Global) -> Option<Option<Answer>>
        ensures { IsSameFetch self.old self.new }
    {
        if let Err(error) = self.send_and_receive() {
            self.has_lacked = is_own_want(&error);
            return self.try_at_failure(alloc);
        }
        if self.is_due() {
            return self.try_to_read(alloc);
        }
        None
    }

    /// Goes on, and reads the response again, if something came since the last time.
    pub fn look(&mut self, alloc: Global) -> Option<Option<Answer>>
        ensures { IsSameFetch self.old self.new }
    {
        match self.go_on(alloc) {
            None if self.response.len() > self.tried => self.try_to_read(alloc),
            ended => ended,
        }
    }

    /// Reads the response, where the connection has failed: it may have come whole before that.
    fn try_at_failure(&mut self, alloc: Global) -> Option<Option<Answer>>
        ensures { self.new ≡ self.old }
    {
        match self.try_to_read(alloc) {
            None => Some(None),
            ended => ended,
        }
    }

    /// Sends what the system takes of the request, and reads what has come of the response.
    fn send_and_receive(&mut self) -> io::Result<()>
        ensures { self.new ≡ self.old }
    {
        self.send()?;
        self.receive()
    }

    /// Sends what the system takes of the request.
    fn send(&mut self) -> io::Result<()>
        ensures { self.new ≡ self.old }
    {
        for _ in 0..self.request.len() {
            let Some(rest) = self.request.as_slice().get(self.sent..) else {
                break;
            };
            if rest.is_empty() {
                break;
            }
            match self.stream.write(rest) {
                Ok(0) => return Err(Error::from(ErrorKind::WriteZero)),
                Ok(count) => self.sent = self.sent.saturating_add(count),
                Err(error) if error.kind() == ErrorKind::WouldBlock => break,
                Err(error) => return Err(error),
            }
        }
        Ok(())
    }

    /// Reads what has come of the response. An error comes where the connection failed, more than
    /// 524,288 octets have come, or there is no memory for them.
    fn receive(&mut self) -> io::Result<()>
        ensures { self.new ≡ self.old }
    {
        let mut piece = [0; PIECE];
        for _ in 0..MOST_OCTETS {
            if self.has_ended {
                break;
            }
            match self.stream.read(&mut piece) {
                Ok(0) => self.has_ended = true,
                Ok(count) => self.take_in(&piece[..count])?,
                Err(error) if error.kind() == ErrorKind::WouldBlock => break,
                Err(error) if error.kind() == ErrorKind::Interrupted => {}
                Err(error) => return Err(error),
            }
        }
        Ok(())
    }

    /// Keeps octets that came.
    fn take_in(&mut self, piece: &[u8]) -> io::Result<()>
        ensures { self.new ≡ self.old }
    {
        if self.response.len() >= MOST_OCTETS {
            return Err(Error::from(ErrorKind::InvalidData));
        }
        self.response.extend_from_slice(piece)?;
        Ok(())
    }

    /// Whether the response is to be read now: at each of the first 64 pieces, then where it has
    /// grown by a quarter, and at its end.
    fn is_due(&self) -> bool {
        let grown = self.response.len() - self.tried.min(self.response.len());
        self.has_ended || (grown > 0 && (self.tries < MOST_TRIES || grown >= self.tried / 4))
    }

    /// Reads the response, if all of it has come. A later minor version of HTTP/1 is read as 1.1
    /// (RFC 9110, section 6.2).
    fn try_to_read(&mut self, alloc: Global) -> Option<Option<Answer>>
        ensures { self.new ≡ self.old }
    {
        self.tries = self.tries.saturating_add(1);
        self.tried = self.response.len();
        lower_versions(self.response.as_mut_slice());
        let mut received = Received::new(self.response.as_slice(), self.has_ended);
        let answer = read_answer(alloc, &mut received);
        if received.wants_more() {
            return None;
        }
        Some(answer.ok())
    }
}
