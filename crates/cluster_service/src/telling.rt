//! How clients are answered.
use crate::client::Client;
use crate::gate::Gate;
use crate::station::{Station, milliseconds};
use cluster_jobs::Job;
use cluster_sockets::{Delivered, Delivery, Errand};
use cluster_waiting::MOST_WAITING;
use mio::net::TcpStream;
use node_http::name_of;
use node_rules::{Serve, Served};
use std::sync::Wait;
use std::time::{Clock, Instant};

/// How many clients are told at one look at most that their requests took too long.
const MOST_LATE: u32 = 256;

/// A status without a body for a client that waits.
pub(crate) fn status(status: u16) -> Serve<()> {
    Serve {
        waiter: None,
        asker: None,
        served: Served::Status(status),
    }
}

/// Writes what a client takes of its response now, and leaves the rest to the event loop. `kept` is
/// where short pieces are kept meanwhile. `lingers` where the client may still send. A 503 of the
/// member itself is counted before anything of it is written.
pub(crate) fn tell<G: Gate + Drop, R: Wait + Clock>(
    rt: &R,
    station: &Station<G>,
    kept: &mut Vec<u8>,
    stream: TcpStream,
    serve: Serve<()>,
    lingers: bool,
) {
    let Ok(now) = Instant::now(rt) else {
        return;
    };
    station.count_refusal(&serve);
    let mut delivery = Delivery::new(stream, serve, lingers, station.patience(), now);
    let via = name_of(&station.roster, station.id);
    if delivery.go_on(kept, via) != Delivered::Ended {
        // (where there is no memory for it, its connection is closed)
        let _ = station.inbox.put(rt, Errand::Deliver(delivery));
    }
}

/// Tells a client that waits; one that was told before gets nothing.
pub(crate) fn tell_client<G: Gate + Drop, R: Wait + Clock>(
    rt: &R,
    station: &Station<G>,
    kept: &mut Vec<u8>,
    client: Client,
    serve: Serve<()>,
) {
    match client {
        Client::Waiting(stream) => tell(rt, station, kept, stream, serve, false),
        Client::Told => {}
    }
}

/// Notes when the request of a block takes too long: after the roster's `ask_wait`. Where there is
/// no memory for that, it may take any time.
pub(crate) fn begin_ask<G: Gate + Drop, R: Wait + Clock>(rt: &R, station: &Station<G>, block: u32) {
    let until = milliseconds(rt).saturating_add(station.roster.limits().ask_wait);
    match station.tables.begin_ask(rt, until, block) {
        Ok(()) | Err(_) => {}
    }
}

/// Tells 504 (RFC 9110, section 15.6.5) to clients whose requests have taken the roster's
/// `ask_wait`, 256 at most. The answers to their requests, which may still come, are dropped then.
/// [HTTP 19]
pub fn tell_late<G: Gate + Drop, R: Wait + Clock>(
    rt: &R,
    station: &Station<G>,
    kept: &mut Vec<u8>,
) {
    let now = milliseconds(rt);
    for _ in 0..MOST_LATE {
        let Some(block) = station.tables.due_ask(rt, now) else {
            break;
        };
        if let Some(client) = station.tables.take(rt, block) {
            give_up(rt, station, kept, block, client);
        }
    }
}

/// Tells 504 to the client of a block, or its answer, if that came just now.
fn give_up<G: Gate + Drop, R: Wait + Clock>(
    rt: &R,
    station: &Station<G>,
    kept: &mut Vec<u8>,
    block: u32,
    client: Client,
) {
    match station.tables.leave(rt, block, Client::Told) {
        Ok(Some((_told, answer))) => tell_client(rt, station, kept, client, answer.serve),
        Ok(None) | Err(_) => tell_client(rt, station, kept, client, status(504)),
    }
}

/// Answers 503 to the client of a job that is not done any more, if it has one. The client may
/// still send, since its request was not read to the end.
pub fn refuse_job<G: Gate + Drop, R: Wait + Clock>(
    rt: &R,
    station: &Station<G>,
    kept: &mut Vec<u8>,
    job: Job,
) {
    match job {
        Job::Stream { stream, .. } => tell(rt, station, kept, stream, status(503), true),
        Job::Datagram { .. } | Job::Timer { .. } | Job::Fetched(_) | Job::Failed { .. } => {}
    }
}

/// Answers 503 to all clients that wait.
pub fn refuse_all<G: Gate + Drop, R: Wait + Clock>(
    rt: &R,
    station: &Station<G>,
    kept: &mut Vec<u8>,
) {
    for _ in 0..MOST_WAITING {
        match station.tables.take_first(rt) {
            Some(client) => tell_client(rt, station, kept, client, status(503)),
            None => break,
        }
    }
}
