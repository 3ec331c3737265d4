//! What the scripts of a world cannot say: strangers, foreign caches, and runs of a list of events.
use crate::setting::JOINING;
use hierarchy_world::{Datagram, World};
use htcp_wire::Content;
use icp_wire::IcpOp;
use node_bytes::encode;
use node_rules::{Message, Sent, Serve, Served, fits};
use purge_rules::Status;
use roster::Address;
use std::alloc::Global;
use std::test::Fail;
use tests_kit::{FOREIGN, ONE, answer_of, ask_of, clear_of, icp_of, key_of, roster_of};
use values_plain::Octets;
use world_rules::{Outcome, WorldEvent, WorldFault};

/// 127.0.0.1.
const HOST: u32 = 0x7f00_0001;

/// The address of no member and not of the master.
const STRANGER: u32 = 0x7f00_0009;

/// The URL of all that happens.
const URL: &[u8] = b"http://o/a";

/// What happens: all of it is about that URL, and about the first member but where it says so.
#[derive(Clone, Copy, Debug)]
enum Happens {
    /// A client asks.
    Client,
    /// A client asks the second member.
    ClientOfSecond,
    /// The origin answers read 33, with the body `one`.
    Origin,
    /// A foreign cache answers fetch 33, with the body `one`.
    Foreign,
    /// The foreign sibling has it (RFC 2186, "ICP_OP_HIT"): it answers the query of round 32.
    Hit,
    /// A CLR under the number 7 comes from this address and port.
    Clear(u32, u16),
    /// These octets come from the stranger to this port of the first member's host.
    Octets(u16, &'static [u8]),
    /// A purge is issued.
    Issue,
    /// This member is admitted.
    Admit(u8),
    /// The datagram of this number comes.
    Datagram(u64),
}

/// What is served: its status, its purge number, whether its body is `one`, and its mark, which is
/// the place of the event that began its read.
#[derive(Clone, Copy, Debug, PartialEq, Eq)]
struct Page {
    status: u16,
    stamp: u32,
    is_one: bool,
    mark: u64,
}

/// What is told of an event: how many datagrams it sent, and the number of the last.
#[derive(Clone, Copy, Debug, PartialEq, Eq)]
struct Told {
    page: Option<Page>,
    bare: Option<u16>,
    purge: Option<u32>,
    admitted: Option<u32>,
    status: Option<(u32, Status)>,
    round: Option<u32>,
    read: Option<u32>,
    sent: usize,
    last: u64,
}

/// Nothing is told.
const NOTHING: Told = Told {
    page: None,
    bare: None,
    purge: None,
    admitted: None,
    status: None,
    round: None,
    read: None,
    sent: 0,
    last: 0,
};

/// An event, and what is told of it, or why it is none.
type Step = (Happens, Result<Told, WorldFault>);

/// The page is served, of no known purge number; its mark is 0.
const THE_PAGE: Page = Page {
    status: 200,
    stamp: 0,
    is_one: true,
    mark: 0,
};

/// A CLR of a stranger is answered; one that bears the master's or a member's address is no event.
/// Then a foreign cache answers only a fetch from it, and the origin only a read.
const STRANGERS: &[Step] = &[
    (
        Happens::Clear(STRANGER, 9),
        Ok(Told {
            sent: 1,
            last: 1,
            ..NOTHING
        }),
    ),
    (Happens::Clear(HOST, 4800), Err(WorldFault::NoSuchPacket)),
    (Happens::Clear(HOST, 4101), Err(WorldFault::NoSuchPacket)),
    (Happens::Clear(HOST, 3101), Err(WorldFault::NoSuchPacket)),
    (Happens::Origin, Err(WorldFault::NotPending)),
    (
        Happens::Client,
        Ok(Told {
            read: Some(33),
            ..NOTHING
        }),
    ),
    (Happens::Foreign, Err(WorldFault::NotPending)),
    (
        Happens::Origin,
        Ok(Told {
            page: Some(Page {
                mark: 2,
                ..THE_PAGE
            }),
            ..NOTHING
        }),
    ),
];

/// A QUERY (RFC 2186, "ICP_OP_QUERY"): opcode 1, version 2, 35 octets, number 7, and the URL behind
/// five unused fields.
const QUERY: &[u8] =
    b"\x01\x02\x00\x23\x00\x00\x00\x07\0\0\0\0\0\0\0\0\0\0\0\0\0\0\0\0http://o/a\0";

/// The same with version 3.
const QUERY_3: &[u8] =
    b"\x01\x03\x00\x23\x00\x00\x00\x07\0\0\0\0\0\0\0\0\0\0\0\0\0\0\0\0http://o/a\0";

/// Octets that are no message by the protocol of their port change nothing, and have a place; a
/// QUERY is answered. None comes to the master, or to a port of nobody.
const NOISE: &[Step] = &[
    (Happens::Octets(3101, b""), Ok(NOTHING)),
    (Happens::Octets(4101, b"\0\x0d"), Ok(NOTHING)),
    (Happens::Octets(3101, QUERY_3), Ok(NOTHING)),
    (Happens::Octets(4101, QUERY), Ok(NOTHING)),
    (Happens::Octets(4800, QUERY), Err(WorldFault::NoSuchPacket)),
    (Happens::Octets(3109, QUERY), Err(WorldFault::NoSuchPacket)),
    (
        Happens::Octets(3101, QUERY),
        Ok(Told {
            sent: 1,
            last: 1,
            ..NOTHING
        }),
    ),
    (
        Happens::Client,
        Ok(Told {
            read: Some(33),
            ..NOTHING
        }),
    ),
    (
        Happens::Origin,
        Ok(Told {
            page: Some(Page {
                mark: 6,
                ..THE_PAGE
            }),
            ..NOTHING
        }),
    ),
];

/// A foreign cache that has what is asked for is asked, and its answer is served, without a mark.
const FOREIGN_ANSWERS: &[Step] = &[
    (
        Happens::Client,
        Ok(Told {
            round: Some(32),
            sent: 1,
            last: 1,
            ..NOTHING
        }),
    ),
    (Happens::Hit, Ok(NOTHING)),
    (
        Happens::Foreign,
        Ok(Told {
            page: Some(THE_PAGE),
            ..NOTHING
        }),
    ),
    (Happens::Foreign, Err(WorldFault::NotPending)),
];

/// A purge comes to the one member.
const PURGED: &[Step] = &[
    (
        Happens::Client,
        Ok(Told {
            read: Some(33),
            ..NOTHING
        }),
    ),
    (
        Happens::Origin,
        Ok(Told {
            page: Some(Page {
                mark: 1,
                ..THE_PAGE
            }),
            ..NOTHING
        }),
    ),
    (
        Happens::Issue,
        Ok(Told {
            purge: Some(1),
            sent: 1,
            last: 1,
            ..NOTHING
        }),
    ),
    (
        Happens::Datagram(1),
        Ok(Told {
            sent: 1,
            last: 2,
            ..NOTHING
        }),
    ),
];

/// Its acknowledgement comes to the master.
const ACKNOWLEDGED: &[Step] = &[(
    Happens::Datagram(2),
    Ok(Told {
        status: Some((1, Status::Done)),
        ..NOTHING
    }),
)];

/// The second member joins: it serves nothing until the number of its admission has come, and its
/// acknowledgement makes the admission done. A purge before that needs the first member alone.
const ADMITTED: &[Step] = &[
    (
        Happens::ClientOfSecond,
        Ok(Told {
            bare: Some(503),
            ..NOTHING
        }),
    ),
    (
        Happens::Client,
        Ok(Told {
            round: Some(32),
            sent: 1,
            last: 1,
            ..NOTHING
        }),
    ),
    (
        Happens::Datagram(1),
        Ok(Told {
            sent: 1,
            last: 2,
            ..NOTHING
        }),
    ),
    (
        Happens::Datagram(2),
        Ok(Told {
            read: Some(33),
            ..NOTHING
        }),
    ),
    (
        Happens::Origin,
        Ok(Told {
            page: Some(Page {
                mark: 4,
                ..THE_PAGE
            }),
            ..NOTHING
        }),
    ),
    (
        Happens::Issue,
        Ok(Told {
            purge: Some(1),
            sent: 1,
            last: 3,
            ..NOTHING
        }),
    ),
    (
        Happens::Admit(2),
        Ok(Told {
            admitted: Some(2),
            sent: 1,
            last: 4,
            ..NOTHING
        }),
    ),
    (
        Happens::Issue,
        Ok(Told {
            purge: Some(3),
            sent: 2,
            last: 6,
            ..NOTHING
        }),
    ),
    (
        Happens::Datagram(6),
        Ok(Told {
            sent: 1,
            last: 7,
            ..NOTHING
        }),
    ),
    (
        Happens::ClientOfSecond,
        Ok(Told {
            bare: Some(503),
            ..NOTHING
        }),
    ),
    (
        Happens::Datagram(4),
        Ok(Told {
            sent: 1,
            last: 8,
            ..NOTHING
        }),
    ),
    (
        Happens::Datagram(8),
        Ok(Told {
            status: Some((2, Status::Done)),
            ..NOTHING
        }),
    ),
    (
        Happens::ClientOfSecond,
        Ok(Told {
            round: Some(32),
            sent: 1,
            last: 9,
            ..NOTHING
        }),
    ),
    (
        Happens::Datagram(9),
        Ok(Told {
            sent: 1,
            last: 10,
            ..NOTHING
        }),
    ),
];

/// Events of which the first is none.
const WRONG: &[Step] = &[
    (Happens::Origin, Err(WorldFault::NotPending)),
    (
        Happens::Client,
        Ok(Told {
            read: Some(33),
            ..NOTHING
        }),
    ),
];

/// Octets come from this address to this port of the first member.
fn strange(to: u16, ip: u32, port: u16, octets: Octets) -> WorldEvent {
    WorldEvent::Strange {
        to: Address { ip: HOST, port: to },
        from: Address { ip, port },
        octets,
    }
}

fn octets_of(alloc: Global, message: Message) -> Result<Octets, Fail> {
    if !fits(&message) {
        return Err("the message does not fit a datagram".into());
    }
    Ok(Octets::from_vec(encode(alloc, &Sent::new(message))?))
}

fn event_of(alloc: Global, happens: Happens) -> Result<WorldEvent, Fail> {
    match happens {
        Happens::Client => Ok(WorldEvent::Client {
            node: 1,
            ask: ask_of(alloc, URL, false, None)?,
        }),
        Happens::ClientOfSecond => Ok(WorldEvent::Client {
            node: 2,
            ask: ask_of(alloc, URL, false, None)?,
        }),
        Happens::Origin => Ok(WorldEvent::Origin {
            node: 1,
            serial: 33,
            answer: answer_of(alloc, None)?,
        }),
        Happens::Foreign => Ok(WorldEvent::Foreign {
            node: 1,
            serial: 33,
            answer: answer_of(alloc, None)?,
        }),
        Happens::Hit => {
            let hit = icp_of(alloc, IcpOp::Hit, 32, URL)?;
            Ok(strange(3101, HOST, 3201, octets_of(alloc, Message::Icp(hit))?))
        }
        Happens::Clear(ip, port) => {
            let clear = clear_of(alloc, URL, 7)?;
            Ok(strange(4101, ip, port, octets_of(alloc, Message::Htcp(clear))?))
        }
        Happens::Octets(to, octets) => {
            Ok(strange(to, STRANGER, 9, Octets::from_slice(alloc, octets)?))
        }
        Happens::Issue => Ok(WorldEvent::Issue {
            key: key_of(alloc, URL)?,
        }),
        Happens::Admit(node) => Ok(WorldEvent::Admit { node }),
        Happens::Datagram(number) => Ok(WorldEvent::Datagram { number }),
    }
}

/// The page that is served, where it is a copy.
fn page_of(serve: &Serve<u64>) -> Option<Page> {
    match &serve.served {
        Served::Copy { copy, .. } => Some(Page {
            status: copy.answer.status(),
            stamp: copy.stamp,
            is_one: copy.answer.body() == b"one".as_slice(),
            mark: copy.tag,
        }),
        Served::Status(_) => None,
    }
}

/// The bare status that is served, where it is no copy.
fn bare_of(serve: &Serve<u64>) -> Option<u16> {
    match &serve.served {
        Served::Copy { .. } => None,
        Served::Status(status) => Some(*status),
    }
}

/// What is told of an outcome.
fn told_of(outcome: &Outcome) -> Told {
    let sent = outcome.sent.as_slice();
    Told {
        page: match &outcome.serve {
            Some(serve) => page_of(serve),
            None => None,
        },
        bare: match &outcome.serve {
            Some(serve) => bare_of(serve),
            None => None,
        },
        purge: outcome.purge,
        admitted: outcome.admitted,
        status: outcome.status,
        round: outcome.round,
        read: outcome.read,
        sent: sent.len(),
        last: match sent.last() {
            Some(last) => *last,
            None => 0,
        },
    }
}

/// What is told of an event that happens in a world.
fn told_by(world: &mut World, event: WorldEvent) -> Result<Told, WorldFault> {
    match world.apply(event) {
        Ok(outcome) => Ok(told_of(&outcome)),
        Err(fault) => Err(fault),
    }
}

/// What is told of a step in place of what is wanted.
type Other = Option<(Happens, Result<Told, WorldFault>)>;

/// The first of these steps of which something else is told than is wanted, as they happen in a
/// world.
fn first_other(alloc: Global, world: &mut World, steps: &[Step]) -> Result<Other, Fail> {
    for (happens, wanted) in steps {
        let told = told_by(world, event_of(alloc, *happens)?);
        if told != *wanted {
            return Ok(Some((*happens, told)));
        }
    }
    Ok(None)
}

/// Whether a datagram refuses a CLR of the stranger.
fn refuses_stranger(sent: &Datagram) -> bool {
    sent.receiver.ip == STRANGER
        && sent.receiver.port == 9
        && match sent.message.message() {
            Message::Htcp(answer) => matches!(
                answer.content,
                Content::Overall { opcode: 4, code: 5 }
            ),
            Message::Icp(_) => false,
        }
}

/// Whether the only datagram of a world refuses a CLR of the stranger.
fn has_refused(world: &World) -> bool {
    match world.datagrams() {
        [sent] => refuses_stranger(sent),
        _ => false,
    }
}

/// The first of these steps that goes otherwise in a new world of this roster, where a stranger is
/// refused or not.
fn other_in(alloc: Global, roster: &str, steps: &[Step], is_refusing: bool) -> Result<Other, Fail> {
    let roster = roster_of(alloc, roster)?;
    let mut world = World::new(alloc, &roster)?;
    let other = first_other(alloc, &mut world, steps)?;
    if has_refused(&world) == is_refusing {
        Ok(other)
    } else {
        Err("the refusal".into())
    }
}

/// The events of these steps.
fn events_of(alloc: Global, steps: &[Step]) -> Result<Vec<WorldEvent>, Fail> {
    let mut events = Vec::new(alloc);
    for (happens, _) in steps {
        events.push(event_of(alloc, *happens)?)?;
    }
    Ok(events)
}

/// The first of these steps of which an outcome tells something else.
fn first_untold(outcomes: &[Outcome], steps: &[Step]) -> Other {
    for at in 0..outcomes.len().min(steps.len()) {
        let told = Ok(told_of(&outcomes[at]));
        if told != steps[at].1 {
            return Some((steps[at].0, told));
        }
    }
    None
}

/// The first step that goes otherwise as a list is played whose purge comes to the one member, and
/// its acknowledgement comes to the master.
fn other_in_list(alloc: Global) -> Result<Other, Fail> {
    let roster = roster_of(alloc, ONE)?;
    let (mut world, outcomes) = World::run(alloc, &roster, events_of(alloc, PURGED)?)?;
    let outcomes = outcomes.as_slice();
    if outcomes.len() != PURGED.len() {
        return Err("as many outcomes as events".into());
    }
    match first_untold(outcomes, PURGED) {
        None => first_other(alloc, &mut world, ACKNOWLEDGED),
        other => Ok(other),
    }
}

/// The fault that stops a list.
fn fault_in_list(alloc: Global, steps: &[Step]) -> Result<Option<WorldFault>, Fail> {
    let roster = roster_of(alloc, ONE)?;
    match World::run(alloc, &roster, events_of(alloc, steps)?) {
        Ok(_) => Ok(None),
        Err(fault) => Ok(Some(fault)),
    }
}

#[test]
fn strangers_foreign_caches_and_lists(rt: HostRuntime) -> Result<(), Fail> {
    let other = other_in(rt.alloc(), ONE, STRANGERS, true)?;
    assert!(rt; other.is_none(), "strangers: {other:?}");
    let other = other_in(rt.alloc(), ONE, NOISE, false)?;
    assert!(rt; other.is_none(), "octets: {other:?}");
    let other = other_in(rt.alloc(), FOREIGN, FOREIGN_ANSWERS, false)?;
    assert!(rt; other.is_none(), "a foreign cache: {other:?}");
    let other = other_in(rt.alloc(), JOINING, ADMITTED, false)?;
    assert!(rt; other.is_none(), "an admission: {other:?}");
    let other = other_in_list(rt.alloc())?;
    assert!(rt; other.is_none(), "a list: {other:?}");
    let fault = fault_in_list(rt.alloc(), WRONG)?;
    assert_eq!(rt; fault, Some(WorldFault::NotPending));
    Ok(())
}
