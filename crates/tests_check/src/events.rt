//! What nodes meet, and what the master is called for.
use http_messages::{Answer, Body, Fields};
use icp_wire::IcpOp;
use node_bytes::encode;
use node_rules::{Event, Message, Sent, fits};
use purge_rules::{MasterCall, base_clear, clear};
use roster::Address;
use std::alloc::Global;
use std::test::Fail;
use tests_kit::{ask_of, icp_of, key_of};
use url_key::Key;

/// 127.0.0.1.
const HOST: u32 = 2130706433;

/// Where the master is.
pub(crate) const MASTER: Address = Address {
    ip: HOST,
    port: 4800,
};

/// A URL.
pub(crate) type Url = &'static [u8];

/// The URL of all runs that are made by hand.
pub(crate) const A: Url = b"http://o/a";

/// What a node meets, at moment 0.
#[derive(Clone, Copy)]
pub(crate) enum Met {
    /// A client asks.
    Client(Url),
    /// A client asks for a copy that the node has.
    Cached(Url),
    /// This member asks for a copy that the node has.
    PeerAsk(u8, Url),
    /// This member answers the fetch of this serial, with an age of 0 and this purge number, or
    /// without both.
    PeerAnswer(u8, u32, Option<u32>, Url),
    /// The origin answers the read of this serial.
    Origin(u32, Url),
    /// The fetch of this serial fails.
    Failed(u32),
    /// A datagram of ICP with this number comes from this port (RFC 2186).
    Icp(u16, IcpOp, u32, Url),
    /// The CLR of this purge comes from the master.
    Clear(u32, Url),
    /// The CLR of an admission of this number comes from the master.
    Base(u32),
}

/// What the master is called for.
#[derive(Clone, Copy)]
pub(crate) enum Called {
    /// A purge is issued.
    Issue(Url),
    /// This node is admitted.
    Admit(u8),
    /// This node acknowledges number 1 with this code.
    Acknowledge(u8, u8),
    /// This node acknowledges this number with code 2.
    Obeys(u8, u32),
    /// What is to be sent again is listed.
    Due,
    /// The status of a number is asked.
    Status(u32),
}

/// An answer of the status 200, which a member has given where it bears a purge number.
fn answer_of(alloc: Global, stamp: Option<u32>) -> Result<Answer, Fail> {
    let Ok(fields) = Fields::new(alloc, Vec::new(alloc)) else {
        return Err("the fields".into());
    };
    let body = Body::from_slice(alloc, b"page")?;
    let age = match stamp {
        Some(_) => Some(0),
        None => None,
    };
    match Answer::new(200, fields, age, stamp, body) {
        Some(answer) => Ok(answer),
        None => Err("the answer".into()),
    }
}

/// A datagram comes from a port of this machine.
fn datagram(alloc: Global, port: u16, message: Message) -> Result<Event<()>, Fail> {
    if !fits(&message) {
        return Err("the message does not fit a datagram".into());
    }
    let sent = Sent::new(message);
    let octets = encode(alloc, &sent)?;
    let by = sent.message().protocol();
    let from = Address { ip: HOST, port };
    match node_bytes::event_of(alloc, by, from, octets.as_slice(), 0)? {
        Some(event) => Ok(event),
        None => Err("the octets spell no message".into()),
    }
}

fn clear_of(alloc: Global, number: u32, url: Url) -> Result<Message, Fail> {
    let key = key_of(alloc, url)?;
    Ok(Message::Htcp(clear(alloc, number, &key)?))
}

/// The CLR of this purge, of a key, comes from the master.
pub(crate) fn clear_comes(alloc: Global, number: u32, key: &Key) -> Result<Event<()>, Fail> {
    datagram(
        alloc,
        MASTER.port,
        Message::Htcp(clear(alloc, number, key)?),
    )
}

fn peer_answer(
    alloc: Global,
    peer: u8,
    serial: u32,
    stamp: Option<u32>,
    url: Url,
) -> Result<Event<()>, Fail> {
    let key = key_of(alloc, url)?;
    Ok(Event::PeerAnswer {
        serial,
        peer,
        key,
        answer: answer_of(alloc, stamp)?,
        tag: (),
        now: 0,
    })
}

fn origin_answer(alloc: Global, serial: u32, url: Url) -> Result<Event<()>, Fail> {
    let key = key_of(alloc, url)?;
    Ok(Event::OriginAnswer {
        serial,
        key,
        answer: answer_of(alloc, None)?,
        now: 0,
    })
}

fn client(alloc: Global, url: Url, only_if_cached: bool) -> Result<Event<()>, Fail> {
    Ok(Event::Client {
        ask: ask_of(alloc, url, only_if_cached, None)?,
        now: 0,
    })
}

pub(crate) fn event_of(alloc: Global, met: Met) -> Result<Event<()>, Fail> {
    match met {
        Met::Client(url) => client(alloc, url, false),
        Met::Cached(url) => client(alloc, url, true),
        Met::PeerAsk(asker, url) => Ok(Event::PeerAsk {
            asker,
            ask: ask_of(alloc, url, true, Some(asker))?,
            now: 0,
        }),
        Met::PeerAnswer(peer, serial, stamp, url) => peer_answer(alloc, peer, serial, stamp, url),
        Met::Origin(serial, url) => origin_answer(alloc, serial, url),
        Met::Failed(serial) => Ok(Event::FetchFailed { serial, now: 0 }),
        Met::Icp(port, op, number, url) => {
            datagram(alloc, port, Message::Icp(icp_of(alloc, op, number, url)?))
        }
        Met::Clear(number, url) => datagram(alloc, MASTER.port, clear_of(alloc, number, url)?),
        Met::Base(number) => {
            let message = Message::Htcp(base_clear(alloc, number)?);
            datagram(alloc, MASTER.port, message)
        }
    }
}

pub(crate) fn call_of(alloc: Global, called: Called) -> Result<MasterCall, Fail> {
    Ok(match called {
        Called::Issue(url) => MasterCall::Issue(key_of(alloc, url)?),
        Called::Admit(id) => MasterCall::Admit(id),
        Called::Acknowledge(member, code) => MasterCall::Acknowledge {
            member,
            trans: 1,
            code,
        },
        Called::Obeys(member, trans) => MasterCall::Acknowledge {
            member,
            trans,
            code: 2,
        },
        Called::Due => MasterCall::Due,
        Called::Status(number) => MasterCall::Status(number),
    })
}
