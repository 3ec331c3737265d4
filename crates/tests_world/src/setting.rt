//! What the tests have in common: rosters, and the messages of a master.
use htcp_wire::{Content, Htcp, encode, fits};
use node_bytes::event_of;
use node_rules::{Event, Message, Reply};
use roster::Udp;
use std::alloc::Global;
use std::test::Fail;
use tests_kit::{address_at, clear_of};

/// Members 1 and 2, the master, and the origin of `http://o/`.
pub(crate) const TWO: &str = "default_lifetime = 60
copies = 1000
bytes = 1048576
query_wait = 2000
[master]
address = \"127.0.0.1\"
htcp = 4800
[[node]]
id = 1
name = \"n1\"
address = \"127.0.0.1\"
http = 8101
icp = 3101
htcp = 4101
[[node]]
id = 2
name = \"n2\"
address = \"127.0.0.1\"
http = 8102
icp = 3102
htcp = 4102
[[origin]]
host = \"o\"
port = 80
address = \"127.0.0.1\"
connect = 8080
";

/// Two members that are siblings by ICP, of which the second joins, and the origin of `http://o/`.
pub(crate) const JOINING: &str = "default_lifetime = 60
copies = 1000
bytes = 1048576
query_wait = 2000

[master]
address = \"127.0.0.1\"
htcp = 4800

[[node]]
id = 1
name = \"n1\"
address = \"127.0.0.1\"
http = 8101
icp = 3101
htcp = 4101
[[node.peer]]
id = 2
role = \"sibling\"
by = \"icp\"

[[node]]
id = 2
name = \"n2\"
joins = true
address = \"127.0.0.1\"
http = 8102
icp = 3102
htcp = 4102
[[node.peer]]
id = 1
role = \"sibling\"
by = \"icp\"

[[origin]]
host = \"o\"
port = 80
address = \"127.0.0.1\"
connect = 8080
";

/// A message that comes from the master.
fn came(alloc: Global, message: &Htcp) -> Result<Event<()>, Fail> {
    if !fits(message) {
        return Err("the message does not fit a datagram".into());
    }
    let Ok(octets) = encode(alloc, message) else {
        return Err("no memory".into());
    };
    match event_of(alloc, Udp::Htcp, address_at(4800), octets.as_slice(), 0)? {
        Some(event) => Ok(event),
        None => Err("the octets spell no message".into()),
    }
}

/// The master's CLR of a URL under this number (RFC 2756, "CLR").
pub(crate) fn purge(alloc: Global, url: &str, number: u32) -> Result<Event<()>, Fail> {
    came(alloc, &clear_of(alloc, url.as_bytes(), number)?)
}

/// What a node answers to a CLR: the code of its answer.
#[derive(Clone, Copy, Debug, PartialEq, Eq)]
pub(crate) enum Cleared {
    Code(u8),
    Otherwise,
}

fn cleared_by_message(message: &Message) -> Cleared {
    match message {
        Message::Htcp(message) => match message.content {
            Content::ClrAnswer { code } => Cleared::Code(code),
            _ => Cleared::Otherwise,
        },
        Message::Icp(_) => Cleared::Otherwise,
    }
}

/// The one datagram of a reply, if it has nothing else.
pub(crate) fn cleared_by(reply: &Reply<()>) -> Cleared {
    if reply.serve.is_some() || reply.begin.is_some() {
        return Cleared::Otherwise;
    }
    match reply.send.as_slice() {
        [sent] => cleared_by_message(sent.message.message()),
        _ => Cleared::Otherwise,
    }
}
