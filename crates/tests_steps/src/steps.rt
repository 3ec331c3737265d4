//! Worked runs of a node, each a table of events and of what they are answered.
use floor_rules::{FloorStore, MemoryFloors};
use htcp_wire::{Content, Htcp, Specifier};
use icp_wire::IcpOp;
use node_bytes::encode;
use node_core::{Node, OpenFault};
use node_rules::{Begin, Event, Message, NodeState, Reply, Sent, Serve, Served, StepFault, fits};
use roster::Roster;
use std::alloc::Global;
use std::fmt::Write;
use std::hash::RandomState;
use std::test::Fail;
use tests_kit::{
    FOREIGN, ONE, address_at, answer_of, ask_of, clear_of, icp_of, key_of, roster_of, want,
};
use values_plain::Octets;

type Tested = Node<u64, MemoryFloors>;

/// A node that is let go as a whole.
#[derive(Drop)]
struct Held {
    node: Tested,
}

fn opened(rt: &HostRuntime, roster: Roster, id: u8) -> Result<Held, OpenFault> {
    match Node::open(rt.alloc(), roster, id, MemoryFloors::new(rt.alloc())) {
        Ok(node) => Ok(Held { node }),
        Err(fault) => Err(fault),
    }
}

/// Node 1 of this roster, over these floors.
fn over(rt: &HostRuntime, roster: Roster, floors: MemoryFloors) -> Result<Held, Fail> {
    match Node::open(rt.alloc(), roster, 1, floors) {
        Ok(node) => Ok(Held { node }),
        Err(fault) => Err(fault.name().into()),
    }
}

fn node_of(rt: &HostRuntime, text: &str) -> Result<Held, Fail> {
    match opened(rt, roster_of(rt.alloc(), text)?, 1) {
        Ok(held) => Ok(held),
        Err(fault) => Err(fault.name().into()),
    }
}

fn opened_with_keys(rt: &HostRuntime, roster: Roster, keys: RandomState) -> Result<Held, Fail> {
    let store = MemoryFloors::new(rt.alloc());
    match Node::open_with_random_keys(rt.alloc(), roster, 1, store, keys) {
        Ok(node) => Ok(Held { node }),
        Err(fault) => Err(fault.name().into()),
    }
}

/// The same node, whose store looks keys up at random.
fn node_with_keys(rt: &HostRuntime, text: &str) -> Result<Held, Fail> {
    let keys = RandomState::new(rt)?;
    opened_with_keys(rt, roster_of(rt.alloc(), text)?, keys)
}

fn client(rt: &HostRuntime, url: &str, now: u64) -> Result<Event<u64>, Fail> {
    let ask = ask_of(rt.alloc(), url.as_bytes(), false, None)?;
    Ok(Event::Client { ask, now })
}

fn origin(rt: &HostRuntime, serial: u32, url: &str, now: u64) -> Result<Event<u64>, Fail> {
    Ok(Event::OriginAnswer {
        serial,
        key: key_of(rt.alloc(), url.as_bytes())?,
        answer: answer_of(rt.alloc(), None)?,
        now,
    })
}

/// The answer of foreign cache 101 to the fetch 33, with a stamp.
fn foreign_answer(rt: &HostRuntime, url: &str, stamp: u32) -> Result<Event<u64>, Fail> {
    Ok(Event::ForeignAnswer {
        serial: 33,
        peer: 101,
        key: key_of(rt.alloc(), url.as_bytes())?,
        answer: answer_of(rt.alloc(), Some(stamp))?,
        tag: 0,
        now: 0,
    })
}

/// A message that comes from a port of 127.0.0.1.
fn came(alloc: Global, port: u16, message: Message) -> Result<Event<u64>, Fail> {
    if !fits(&message) {
        return Err("the message does not fit a datagram".into());
    }
    let sent = Sent::new(message);
    let octets = encode(alloc, &sent)?;
    let by = sent.message().protocol();
    match node_bytes::event_of(alloc, by, address_at(port), octets.as_slice(), 0)? {
        Some(event) => Ok(event),
        None => Err("the octets spell no message".into()),
    }
}

/// The master's CLR of a URL under this number (RFC 2756, "CLR").
fn purge(rt: &HostRuntime, url: &str, number: u32) -> Result<Event<u64>, Fail> {
    let clear = clear_of(rt.alloc(), url.as_bytes(), number)?;
    came(rt.alloc(), 4800, Message::Htcp(clear))
}

/// A SPECIFIER of GET with this URI and these REQ-HDRS.
fn specifier(alloc: Global, uri: &str, headers: &str) -> Result<Specifier, Fail> {
    Ok(Specifier {
        method: Octets::from_slice(alloc, b"GET")?,
        uri: Octets::from_slice(alloc, uri.as_bytes())?,
        version: Octets::from_slice(alloc, b"HTTP/1.1")?,
        request_headers: Octets::from_slice(alloc, headers.as_bytes())?,
    })
}

/// An HTCP message from this port, with this TRANS-ID and content.
fn htcp(rt: &HostRuntime, port: u16, trans: u32, content: Content) -> Result<Event<u64>, Fail> {
    let message = Htcp {
        minor: 0,
        trans,
        content,
    };
    came(rt.alloc(), port, Message::Htcp(message))
}

/// A CLR for no URL with these REQ-HDRS.
fn clear(
    rt: &HostRuntime,
    port: u16,
    trans: u32,
    desired: bool,
    headers: &str,
) -> Result<Event<u64>, Fail> {
    let content = Content::ClrAsk {
        desired,
        reason: 0,
        spec: specifier(rt.alloc(), "", headers)?,
    };
    htcp(rt, port, trans, content)
}

/// A TST of TRANS-ID 7 for a URL.
fn tst(rt: &HostRuntime, port: u16, desired: bool, url: &str) -> Result<Event<u64>, Fail> {
    let spec = specifier(rt.alloc(), url, "")?;
    htcp(rt, port, 7, Content::TstAsk { desired, spec })
}

/// Member 2 asks for a URL.
fn member(rt: &HostRuntime, url: &str) -> Result<Event<u64>, Fail> {
    let ask = ask_of(rt.alloc(), url.as_bytes(), false, Some(2))?;
    Ok(Event::PeerAsk {
        asker: 2,
        ask,
        now: 0,
    })
}

/// Member 2 answers the fetch 33.
fn member_answer(rt: &HostRuntime, url: &str, stamp: u32) -> Result<Event<u64>, Fail> {
    Ok(Event::PeerAnswer {
        serial: 33,
        peer: 2,
        key: key_of(rt.alloc(), url.as_bytes())?,
        answer: answer_of(rt.alloc(), Some(stamp))?,
        tag: 0,
        now: 0,
    })
}

/// An ICP message of this opcode, under this number, for a URL.
fn icp(rt: &HostRuntime, port: u16, op: IcpOp, number: u32, url: &str) -> Result<Event<u64>, Fail> {
    let icp = icp_of(rt.alloc(), op, number, url.as_bytes())?;
    came(rt.alloc(), port, Message::Icp(icp))
}

/// What happens at a node.
#[derive(Clone, Copy)]
enum Happens {
    /// A client asks for this URL at this second.
    Ask(&'static str, u64),
    /// The master's CLR of this URL comes under this number.
    Purge(&'static str, u32),
    /// An ICP message of this opcode comes from this port, under this number and for this URL.
    Icp(u16, IcpOp, u32, &'static str),
    /// The origin answers the read of this serial, for this URL and at this second.
    Origin(u32, &'static str, u64),
    /// Foreign cache 101 answers the fetch 33, for this URL and with this stamp.
    Foreign(&'static str, u32),
    /// Member 2 asks for this URL.
    Member(&'static str),
    /// Member 2 answers the fetch 33, for this URL and with this stamp.
    Sibling(&'static str, u32),
    /// A CLR comes from this port, with this TRANS-ID and these REQ-HDRS, and for no URL. It
    /// desires a response, or does not.
    Clear(u16, u32, bool, &'static str),
    /// A TST comes from this port, for this URL. It desires a response, or does not.
    Tst(u16, bool, &'static str),
    /// A NOP comes from this port.
    Nop(u16),
    /// The fetch of this serial fails.
    Failed(u32),
    /// The round of this serial has waited for its time.
    Expired(u32),
}

fn event_of(rt: &HostRuntime, happens: Happens) -> Result<Event<u64>, Fail> {
    match happens {
        Happens::Ask(url, now) => client(rt, url, now),
        Happens::Purge(url, number) => purge(rt, url, number),
        Happens::Icp(port, op, number, url) => icp(rt, port, op, number, url),
        Happens::Origin(serial, url, now) => origin(rt, serial, url, now),
        Happens::Foreign(url, stamp) => foreign_answer(rt, url, stamp),
        Happens::Member(url) => member(rt, url),
        Happens::Sibling(url, stamp) => member_answer(rt, url, stamp),
        Happens::Clear(port, trans, desired, headers) => clear(rt, port, trans, desired, headers),
        Happens::Tst(port, desired, url) => tst(rt, port, desired, url),
        Happens::Nop(port) => htcp(rt, port, 7, Content::NopAsk { desired: true }),
        Happens::Failed(serial) => Ok(Event::FetchFailed { serial, now: 0 }),
        Happens::Expired(serial) => Ok(Event::Expired { serial, now: 0 }),
    }
}

/// What is served says.
fn show_served(text: &mut String, serve: &Serve<u64>) -> Result<(), Fail> {
    match &serve.served {
        Served::Copy { copy, age } => {
            let (stamp, tag) = (copy.stamp, copy.tag);
            write!(text, " serve stamp {stamp} tag {tag} age {age}")?
        }
        Served::Status(status) => write!(text, " serve {status}")?,
    }
    Ok(())
}

/// What a message that is sent says.
fn show_sent(text: &mut String, message: &Message) -> Result<(), Fail> {
    match message {
        Message::Icp(message) => write!(text, " {}", message.op.name())?,
        Message::Htcp(message) => match message.content {
            Content::ClrAnswer { code } => write!(text, " clr {code}")?,
            Content::Overall { code, .. } => write!(text, " overall {code}")?,
            _ => write!(text, " {}", message.content.name())?,
        },
    }
    Ok(())
}

/// What is begun.
fn show_begun(text: &mut String, begin: &Begin) -> Result<(), Fail> {
    match begin {
        Begin::Round { serial } => write!(text, " round {serial}")?,
        Begin::Peer { serial, peer, ask } => {
            let only = if ask.only_if_cached {
                " only-if-cached"
            } else {
                ""
            };
            write!(text, " peer {peer} {serial}{only}")?
        }
        Begin::Read { serial, .. } => write!(text, " read {serial}")?,
    }
    Ok(())
}

/// What a step serves, sends and begins.
fn show_reply(text: &mut String, reply: &Reply<u64>) -> Result<(), Fail> {
    if let Some(serve) = &reply.serve {
        show_served(text, serve)?;
    }
    for sent in reply.send.as_slice() {
        show_sent(text, sent.message.message())?;
    }
    if let Some(begin) = &reply.begin {
        show_begun(text, begin)?;
    }
    Ok(())
}

fn show(rt: &HostRuntime, reply: &Reply<u64>) -> Result<String, Fail> {
    let mut text = String::new(rt.alloc());
    show_reply(&mut text, reply)?;
    Ok(text)
}

fn show_fault(rt: &HostRuntime, fault: StepFault) -> Result<String, Fail> {
    Ok(format!(in rt.alloc(); " {}", fault.name())?)
}

/// Takes a step, and shows what it is answered.
fn step<S: FloorStore>(
    rt: &HostRuntime,
    node: &mut Node<u64, S>,
    event: Event<u64>,
    mark: u64,
) -> Result<String, Fail> {
    match node.step(event, mark) {
        Ok(reply) => show(rt, &reply),
        Err(fault) => show_fault(rt, fault),
    }
}

/// Fails with what is shown of this step, where that is not what is expected.
fn expect(mark: u64, shown: &str, expected: &str) -> Result<(), Fail> {
    if shown == expected {
        Ok(())
    } else {
        Err(Fail::new(format_args!("{mark}: {shown}")))
    }
}

/// What a step under this mark is answered.
fn shown_of(
    rt: &HostRuntime,
    node: &mut Tested,
    mark: u64,
    happens: Happens,
) -> Result<String, Fail> {
    let event = event_of(rt, happens)?;
    step(rt, node, event, mark)
}

/// A step under this mark is answered as it is expected.
fn check_step(
    rt: &HostRuntime,
    node: &mut Tested,
    mark: u64,
    happens: Happens,
    expected: &str,
) -> Result<(), Fail> {
    let shown = shown_of(rt, node, mark, happens)?;
    expect(mark, shown.as_str(), expected)
}

/// Each step of a table, under the marks from 1 on, is answered as it is expected.
fn check(rt: &HostRuntime, node: &mut Tested, table: &[(Happens, &str)]) -> Result<(), Fail> {
    let mut mark = 0u64;
    for (happens, expected) in table {
        mark = u64::saturating_add(mark, 1);
        check_step(rt, node, mark, *happens, expected)?;
    }
    Ok(())
}

/// A read that a purge overtakes begins anew, and a copy bears the stamp and the mark of its own
/// read.
const OVERTAKEN: [(Happens, &str); 6] = [
    (Happens::Ask("http://o/a", 100), " read 33"),
    (Happens::Purge("http://o/a", 1), " clr 2"),
    (Happens::Origin(33, "http://o/a", 101), " read 34"),
    (Happens::Origin(33, "http://o/a", 101), " UnknownSerial"),
    (
        Happens::Origin(34, "http://o/a", 102),
        " serve stamp 1 tag 3 age 1",
    ),
    (
        Happens::Ask("http://o/a", 103),
        " serve stamp 1 tag 3 age 2",
    ),
];

/// What a foreign sibling gives bears the tag of its answer, and no stamp: the one that it tells is
/// not trusted.
const WITH_A_FOREIGN_SIBLING: [(Happens, &str); 3] = [
    (Happens::Ask("http://o/a", 0), " Query round 32"),
    (
        Happens::Icp(3201, IcpOp::Hit, 32, "http://o/a"),
        " peer 101 33 only-if-cached",
    ),
    (
        Happens::Foreign("http://o/a", 9),
        " serve stamp 0 tag 0 age 0",
    ),
];

/// The steps of a table, after which the node is open.
fn check_open(rt: &HostRuntime, node: &mut Tested, table: &[(Happens, &str)]) -> Result<(), Fail> {
    check(rt, node, table)?;
    want(!node.is_closed(), "closed")
}

/// The same at a new node of this roster.
fn run(rt: &HostRuntime, roster: &str, table: &[(Happens, &str)]) -> Result<(), Fail> {
    let mut held = node_of(rt, roster)?;
    check_open(rt, &mut held.node, table)
}

#[test]
fn copies_bear_tags_and_ages(rt: HostRuntime) -> Result<(), Fail> {
    run(&rt, ONE, &OVERTAKEN)?;
    run(&rt, FOREIGN, &WITH_A_FOREIGN_SIBLING)
}

#[test]
fn a_node_that_is_no_member(rt: HostRuntime) -> Result<(), Fail> {
    let fault = opened(&rt, roster_of(rt.alloc(), ONE)?, 2).err();
    assert!(rt; fault == Some(OpenFault::NoSuchNode));
    Ok(())
}

/// What a node tells of itself, before and after its first read begins and as it is closed.
fn tell(rt: &HostRuntime, node: &mut Tested) -> Result<(), Fail> {
    want(node.id() == 1 && node.next() == 1, "a new node")?;
    check_step(rt, node, 0, Happens::Ask("http://o/a", 0), " read 33")?;
    want(node.next() == 2, "a read")?;
    want(
        node.fetching(33).is_some() && node.fetching(34).is_none(),
        "what it fetches",
    )?;
    node.close();
    want(node.is_closed() && node.fetching(33).is_none(), "closed")
}

#[test]
fn a_node_tells_of_itself(rt: HostRuntime) -> Result<(), Fail> {
    let mut held = node_with_keys(&rt, ONE)?;
    tell(&rt, &mut held.node)
}

/// Raises a key's number in a store, which is at least 1.
fn raise(alloc: Global, floors: &mut MemoryFloors, url: &str, number: u32) -> Result<(), Fail> {
    if number == 0 {
        return Err("a number of at least 1".into());
    }
    match floors.raise(alloc, &key_of(alloc, url.as_bytes())?, number) {
        Ok(()) => Ok(()),
        Err(fault) => Err(fault.name().into()),
    }
}

/// Adds floors of 65,536 keys: `http://o/1` has the number behind this one, `http://o/2` the next,
/// and so on.
fn fill(alloc: Global, floors: &mut MemoryFloors, before: u32) -> Result<(), Fail> {
    for key in 1..=65_536u32 {
        let url = format!(in alloc; "http://o/{key}")?;
        raise(alloc, floors, url.as_str(), before.saturating_add(key))?;
    }
    Ok(())
}

/// Floors with the numbers 1 to 65,536, and the base 0.
fn full(alloc: Global) -> Result<MemoryFloors, Fail> {
    let mut floors = MemoryFloors::new(alloc);
    fill(alloc, &mut floors, 0)?;
    Ok(floors)
}

/// Floors with the numbers 74,465 to 140,000, and the base 70,000.
fn full_again(alloc: Global) -> Result<MemoryFloors, Fail> {
    let mut floors = full(alloc)?;
    raise(alloc, &mut floors, "http://o/x", 70_000)?;
    fill(alloc, &mut floors, 74_464)?;
    Ok(floors)
}

/// How many rows a node's floors have, the base, the floors of `http://o/a`, `http://o/b` and
/// `http://o/9`, the greatest floor, and how many copies it has.
type Seen = (usize, u32, [u32; 3], u32, usize);

fn seen_in(alloc: Global, state: &NodeState<u64>) -> Result<Seen, Fail> {
    let floors = &state.floors;
    let a = floors.floor(&key_of(alloc, b"http://o/a")?);
    let b = floors.floor(&key_of(alloc, b"http://o/b")?);
    let o = floors.floor(&key_of(alloc, b"http://o/9")?);
    let copies = state.copies.as_slice().len();
    Ok((
        floors.rows(),
        floors.base(),
        [a, b, o],
        floors.seen(),
        copies,
    ))
}

/// A node tells this of its floors and copies.
fn check_seen(rt: &HostRuntime, node: &Tested, wanted: Seen) -> Result<(), Fail> {
    let found = seen_in(rt.alloc(), &node.state()?)?;
    if found == wanted {
        Ok(())
    } else {
        Err(Fail::new(format_args!("{found:?}")))
    }
}

/// Steps of a node, and what is seen of it then.
type Part = (&'static [(Happens, &'static str)], Seen);

/// Node 1 of this roster over these floors, and after each part this is seen.
fn check_parts(
    rt: &HostRuntime,
    roster: &str,
    floors: MemoryFloors,
    parts: &[Part],
) -> Result<(), Fail> {
    let mut held = over(rt, roster_of(rt.alloc(), roster)?, floors)?;
    for (steps, seen) in parts {
        check_open(rt, &mut held.node, steps)?;
        check_seen(rt, &held.node, *seen)?;
    }
    Ok(())
}

/// A purge of a new key makes the base, and a copy of another key goes with it: no copy of this key
/// was held. Then rows are for what is above the base.
const NEW_KEY: &[Part] = &[
    (
        &[
            (Happens::Ask("http://o/b", 0), " read 33"),
            (
                Happens::Origin(33, "http://o/b", 1),
                " serve stamp 65536 tag 1 age 1",
            ),
        ],
        (65_536, 0, [0, 0, 9], 65_536, 1),
    ),
    (
        &[(Happens::Purge("http://o/x", 70_000), " clr 2")],
        (0, 70_000, [70_000; 3], 70_000, 0),
    ),
    (
        &[(Happens::Purge("http://o/a", 70_001), " clr 2")],
        (1, 70_000, [70_001, 70_000, 70_000], 70_001, 0),
    ),
    (
        &[(Happens::Purge("http://o/b", 60_000), " clr 2")],
        (1, 70_000, [70_001, 70_000, 70_000], 70_001, 0),
    ),
];

/// The same where the key's own copy goes.
const HELD_KEY: &[Part] = &[
    (
        &[
            (Happens::Ask("http://o/a", 0), " read 33"),
            (
                Happens::Origin(33, "http://o/a", 1),
                " serve stamp 65536 tag 1 age 1",
            ),
        ],
        (65_536, 0, [0, 0, 9], 65_536, 1),
    ),
    (
        &[(Happens::Purge("http://o/a", 70_000), " clr 0")],
        (0, 70_000, [70_000; 3], 70_000, 0),
    ),
];

/// The new base is the greatest floor, not the number of the purge. A copy that is no older than
/// that stays.
const GREATEST: &[Part] = &[
    (
        &[
            (Happens::Ask("http://o/a", 0), " read 33"),
            (
                Happens::Origin(33, "http://o/a", 1),
                " serve stamp 140000 tag 1 age 1",
            ),
        ],
        (65_536, 70_000, [70_000, 70_000, 74_473], 140_000, 1),
    ),
    (
        &[(Happens::Purge("http://o/x", 75_000), " clr 2")],
        (0, 140_000, [140_000; 3], 140_000, 1),
    ),
];

#[test]
fn a_full_table_of_floors_makes_the_base(rt: HostRuntime) -> Result<(), Fail> {
    check_parts(&rt, ONE, full(rt.alloc())?, NEW_KEY)?;
    check_parts(&rt, ONE, full(rt.alloc())?, HELD_KEY)?;
    check_parts(&rt, ONE, full_again(rt.alloc())?, GREATEST)
}

/// Two members that are siblings by ICP, of which the first joins.
const JOINING: &str = "default_lifetime = 60
copies = 1000
bytes = 1048576
query_wait = 2000

[master]
address = \"127.0.0.1\"
htcp = 4800

[[node]]
id = 1
name = \"n1\"
joins = true
address = \"127.0.0.1\"
http = 8101
icp = 3101
htcp = 4101
[[node.peer]]
id = 2
role = \"sibling\"
by = \"icp\"

[[node]]
id = 2
name = \"n2\"
address = \"127.0.0.1\"
http = 8102
icp = 3102
htcp = 4102

[[origin]]
host = \"o\"
port = 80
address = \"127.0.0.1\"
connect = 8080
";

/// A node that the master has not admitted serves no one and begins nothing. It tells of no copy,
/// whoever asks, and follows purges as any other.
const OUTSIDE: &[(Happens, &str)] = &[
    (Happens::Ask("http://o/a", 0), " serve 503"),
    (Happens::Member("http://o/a"), " serve 503"),
    (Happens::Icp(3102, IcpOp::Query, 7, "http://o/a"), " Denied"),
    (Happens::Icp(9, IcpOp::Query, 7, "http://o/a"), " Denied"),
    (Happens::Icp(3102, IcpOp::Query, 7, "a"), " Denied"),
    (Happens::Tst(4102, true, "http://o/a"), " overall 5"),
    (Happens::Tst(4102, false, "http://o/a"), ""),
    (Happens::Tst(9, true, "http://o/a"), " overall 5"),
    (Happens::Tst(9, false, "http://o/a"), ""),
    (Happens::Nop(9), " NopAnswer"),
    (Happens::Icp(3102, IcpOp::Hit, 32, "http://o/a"), ""),
    (Happens::Origin(33, "http://o/a", 1), " UnknownSerial"),
    (Happens::Foreign("http://o/a", 9), " UnknownSerial"),
    (Happens::Sibling("http://o/a", 9), " UnknownSerial"),
    (Happens::Failed(33), " UnknownSerial"),
    (Happens::Expired(32), " UnknownSerial"),
    (Happens::Purge("http://o/a", 1), " clr 2"),
    (Happens::Clear(4102, 7, true, ""), " clr 2"),
    (Happens::Clear(9, 7, true, ""), " overall 5"),
    (Happens::Ask("http://o/b", 0), " serve 503"),
];

/// An admission that is not the master's, whose number is not its TRANS-ID or is not at least 1,
/// or that is not told by one good line alone: it is refused and changes nothing.
const NO_ADMISSIONS: &[(Happens, &str)] = &[
    (
        Happens::Clear(4102, 9, true, "X-Purge-Base: 9\r\n"),
        " overall 5",
    ),
    (
        Happens::Clear(9, 9, true, "X-Purge-Base: 9\r\n"),
        " overall 5",
    ),
    (
        Happens::Clear(4800, 8, true, "X-Purge-Base: 9\r\n"),
        " overall 5",
    ),
    (
        Happens::Clear(4800, 0, true, "X-Purge-Base: 0\r\n"),
        " overall 5",
    ),
    (
        Happens::Clear(4800, 9, true, "X-Purge-Base: 09\r\n"),
        " overall 5",
    ),
    (
        Happens::Clear(4800, 9, true, "X-Purge-Base: 9\r\nx-purge-base: 9\r\n"),
        " overall 5",
    ),
    (
        Happens::Clear(4800, 9, true, "X-Purge-Number: 9\r\nX-Purge-Base: 9\r\n"),
        " overall 5",
    ),
    (
        Happens::Clear(4800, 9, true, "X-Purge-Base: 9\r\nX-Purge-Number: \r\n"),
        " overall 5",
    ),
    (Happens::Clear(4102, 9, false, "X-Purge-Base: 9\r\n"), ""),
    (Happens::Ask("http://o/a", 0), " serve 503"),
];

/// The admission, which comes again, and the queries of a node that is admitted.
const ADMISSION: &[(Happens, &str)] = &[
    (
        Happens::Clear(4800, 9, true, "X-Purge-Base: 9\r\n"),
        " clr 2",
    ),
    (Happens::Icp(3102, IcpOp::Query, 7, "http://o/a"), " Miss"),
    (Happens::Icp(9, IcpOp::Query, 7, "http://o/a"), " Denied"),
    (Happens::Tst(4102, true, "http://o/a"), " TstMiss"),
    (Happens::Tst(9, true, "http://o/a"), " overall 5"),
    (
        Happens::Clear(4800, 9, true, "x-purge-base: 9\r\n"),
        " clr 2",
    ),
    (
        Happens::Clear(4800, 5, true, "X-Purge-Base: 5\r\n"),
        " clr 2",
    ),
    (Happens::Clear(4800, 5, false, "X-Purge-Base: 5\r\n"), ""),
    (Happens::Ask("http://o/a", 0), " Query round 32"),
];

/// A node that joins, and what is seen of its floors and copies.
const JOINS: &[Part] = &[
    (OUTSIDE, (1, 0, [1, 0, 0], 1, 0)),
    (NO_ADMISSIONS, (1, 0, [1, 0, 0], 1, 0)),
    (ADMISSION, (1, 9, [9, 9, 9], 9, 0)),
];

/// The same CLR at a founding node drops copies of lesser stamps and keeps the rest. Rows stay.
const FOUNDING: &[Part] = &[
    (
        &[
            (Happens::Purge("http://o/x", 3), " clr 2"),
            (Happens::Ask("http://o/a", 0), " read 33"),
            (
                Happens::Origin(33, "http://o/a", 1),
                " serve stamp 3 tag 2 age 1",
            ),
            (
                Happens::Clear(4800, 3, true, "X-Purge-Base: 3\r\n"),
                " clr 2",
            ),
        ],
        (1, 3, [3, 3, 3], 3, 1),
    ),
    (
        &[
            (
                Happens::Clear(4800, 9, true, "X-Purge-Base: 9\r\n"),
                " clr 0",
            ),
            (
                Happens::Clear(4800, 9, true, "X-Purge-Base: 9\r\n"),
                " clr 2",
            ),
        ],
        (1, 9, [9, 9, 9], 9, 0),
    ),
    (
        &[
            (Happens::Ask("http://o/b", 0), " read 65"),
            (
                Happens::Origin(65, "http://o/b", 1),
                " serve stamp 9 tag 1 age 1",
            ),
            (Happens::Clear(4800, 9, false, "X-Purge-Base: 9\r\n"), ""),
        ],
        (1, 9, [9, 9, 9], 9, 1),
    ),
    (
        &[(Happens::Clear(4800, 10, false, "X-Purge-Base: 10\r\n"), "")],
        (1, 10, [10, 10, 10], 10, 0),
    ),
];

#[test]
fn a_node_that_joins_is_admitted(rt: HostRuntime) -> Result<(), Fail> {
    check_parts(&rt, JOINING, MemoryFloors::new(rt.alloc()), JOINS)?;
    check_parts(&rt, ONE, MemoryFloors::new(rt.alloc()), FOUNDING)
}

/// Whether node 1 of this roster is outside as it opens over these floors.
fn is_outside(rt: &HostRuntime, roster: &str, floors: MemoryFloors) -> Result<bool, Fail> {
    let held = over(rt, roster_of(rt.alloc(), roster)?, floors)?;
    Ok(held.node.is_outside())
}

/// Floors with the base 9.
fn with_base(alloc: Global) -> Result<MemoryFloors, Fail> {
    let mut floors = MemoryFloors::new(alloc);
    match floors.raise_base(9) {
        Ok(()) => Ok(floors),
        Err(fault) => Err(fault.name().into()),
    }
}

#[test]
fn a_node_with_a_base_is_admitted_as_it_opens(rt: HostRuntime) -> Result<(), Fail> {
    let alloc = rt.alloc();
    want(is_outside(&rt, JOINING, MemoryFloors::new(alloc))?, "joins")?;
    want(!is_outside(&rt, JOINING, with_base(alloc)?)?, "admitted")?;
    want(!is_outside(&rt, ONE, MemoryFloors::new(alloc))?, "founding")
}
