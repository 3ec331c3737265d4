//! A request and its response, over a connection of their own.
ghost use Rattle.std.specs.Prelude.{IsTrue};
ghost use Rattle.http_writing.specs.Name.{is_name as names_cache};

use cluster_streams::{PATIENCE, StreamPoll, Timed};
use http_messages::{Answer, Ask, FetchFault};
use http_reading::read_answer;
use http_writing::{AskForm, write_ask};
use mio::net::TcpStream;
use std::alloc::Global;
use std::io::{self, Write};
use std::net::Net;
use std::time::{Clock, Duration};
use values_plain::Address;

/// Asks whoever serves HTTP at this address, under the name of the cache that asks, and reads the
/// response: within five seconds in all, over a connection of its own. `form` is the form of the
/// request target (RFC 9112, section 3.2).
///
/// Faults: `Io` where the system refuses, the connection fails or its time is over; and those of
/// `read_answer`.
pub fn exchange<R: Net + Clock>(
    rt: &R,
    alloc: Global,
    poll: &mut StreamPoll,
    at: Address,
    ask: &Ask,
    form: AskForm,
    name: &[u8],
) -> Result<Answer, FetchFault>
    requires { IsTrue (names_cache name.now) }
{
    match connected(rt, at) {
        Ok(mut stream) => asked(rt, alloc, poll, &mut stream, ask, form, name),
        Err(_) => Err(FetchFault::Io),
    }
}

/// Begins to connect, without waiting.
fn connected<R: Net>(rt: &R, at: Address) -> io::Result<TcpStream> {
    TcpStream::connect(rt, at.socket())
}

/// Writes the request to a stream that is connected or still connecting, and reads the response.
fn asked<C: Clock>(
    clock: &C,
    alloc: Global,
    poll: &mut StreamPoll,
    stream: &mut TcpStream,
    ask: &Ask,
    form: AskForm,
    name: &[u8],
) -> Result<Answer, FetchFault>
    requires { IsTrue (names_cache name.now) }
{
    match Timed::new(clock, poll, stream, Duration::from_secs(PATIENCE)) {
        Ok(mut timed) => {
            write_ask(&mut timed, ask, form, name)?;
            if timed.flush().is_err() {
                return Err(FetchFault::Io);
            }
            read_answer(alloc, &mut timed)
        }
        Err(_) => Err(FetchFault::Io),
    }
}
