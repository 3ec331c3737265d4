//! The origin at its port.
ghost use Rattle.std.specs.Prelude.{IfErr};
ghost use Rattle.cluster_origin.specs.Names.{IsAtPort};

use crate::fault::OriginFault;
use crate::front::front_of;
use crate::refusing::refuse;
use crate::serving::serve_next;
use cluster_streams::{PATIENCE, StreamPoll, StreamPolls, Timed};
use http_messages::FetchFault;
use std::alloc::Global;
use std::io::{self, ErrorKind, Read, Write};
use std::net::{Net, TcpListener, TcpStream};
use std::time::{Clock, Duration};
use values_plain::Address;

/// Answers `count` requests at this address, one after another, and ends. A request that is not
/// read is refused and not counted; nor is one counted whose response could not be sent. A client
/// has five seconds to send its request and take its response; then its connection is closed.
/// [Origin 1]
///
/// Faults: `Port` where the address is in use or is not this machine's; `Io` where the system
/// refuses in another way (a client that left before it was accepted is passed over); `NoMemory`
/// where there is no memory to begin with (a request for which there is none is refused). After a
/// fault nothing is open, and each request so far is answered or refused.
pub fn run_origin<R: Net + Clock>(
    rt: &R,
    alloc: Global,
    at: Address,
    count: u32,
) -> Result<(), OriginFault> {
    let listener = listen(rt, at)?;
    let mut polls = StreamPolls::new(rt, alloc)?;
    for number in 1..=count {
        answer_one(rt, alloc, &listener, &mut polls, number)?;
    }
    Ok(())
}

/// A listener at this address, which waits for clients.
fn listen<N: Net>(net: &N, at: Address) -> Result<TcpListener, OriginFault>
    ensures { IfErr result (IsAtPort at.port) }
{
    let listener = match mio::net::TcpListener::bind(net, at.socket()) {
        Ok(listener) => TcpListener::from(listener),
        Err(error) => return Err(fault_of(&error, at.port)),
    };
    listener.set_nonblocking(false)?;
    Ok(listener)
}

/// Why there is no listener at this port.
fn fault_of(error: &io::Error, port: u16) -> OriginFault
    ensures { IsAtPort port result }
{
    match error.kind() {
        ErrorKind::AddrInUse | ErrorKind::AddrNotAvailable => OriginFault::Port(port),
        ErrorKind::OutOfMemory => OriginFault::NoMemory,
        _ => OriginFault::Io,
    }
}

/// Serves clients until one of them is answered, as the one with this number.
fn answer_one<C: Clock>(
    clock: &C,
    alloc: Global,
    listener: &TcpListener,
    polls: &mut StreamPolls,
    number: u32,
) -> Result<(), OriginFault> {
    for client in listener.incoming() {
        match client {
            Ok(stream) => {
                if serve(clock, alloc, polls, stream, number)? {
                    return Ok(());
                }
            }
            Err(error) if error.kind() == ErrorKind::ConnectionAborted => {}
            Err(_) => return Err(OriginFault::Io),
        }
    }
    Err(OriginFault::Io)
}

/// Serves a client, within five seconds in all. Returns whether its request was answered.
fn serve<C: Clock>(
    clock: &C,
    alloc: Global,
    polls: &mut StreamPolls,
    stream: TcpStream,
    number: u32,
) -> io::Result<bool> {
    stream.set_nonblocking(true)?;
    let outgoing = mio::net::TcpStream::from_std(stream.try_clone()?);
    let mut incoming = mio::net::TcpStream::from_std(stream);
    let StreamPolls { reading, writing } = polls;
    match Timed::new(clock, reading, &mut incoming, Duration::from_secs(PATIENCE)) {
        Ok(mut reader) => serve_reader(clock, alloc, &mut reader, writing, outgoing, number),
        Err(error) => Err(error),
    }
}

/// Serves the client at the other end of a reader and of a connection. Returns whether its request
/// was answered.
fn serve_reader<R: Read, C: Clock>(
    clock: &C,
    alloc: Global,
    reader: &mut R,
    writing: &mut StreamPoll,
    mut outgoing: mio::net::TcpStream,
    number: u32,
) -> io::Result<bool> {
    match Timed::new(clock, writing, &mut outgoing, Duration::from_secs(PATIENCE)) {
        Ok(mut writer) => {
            let served = serve_request(alloc, reader, &mut writer, number);
            let sent = writer.flush();
            Ok(served.is_ok() && sent.is_ok())
        }
        Err(error) => Err(error),
    }
}

/// Reads a request and writes its response, as `serve_next` does, but a request of HTTP/1.2 to
/// HTTP/1.9 is read as one of HTTP/1.1. Without memory for its head it is refused with a 503.
fn serve_request<R: Read, W: Write>(
    alloc: Global,
    reader: &mut R,
    writer: &mut W,
    number: u32,
) -> Result<(), FetchFault> {
    match front_of(alloc, reader) {
        Ok(front) => serve_next(alloc, &mut front.as_slice().chain(reader), writer, number),
        Err(_) => {
            refuse(writer, FetchFault::NoMemory);
            Err(FetchFault::NoMemory)
        }
    }
}
