//! Compares replies and outcomes.
ghost use Rattle.std.specs.Prelude.{◌≡◌, ◌↔◌, IsTrue};

use crate::parts::{same_ask, same_copy};
use crate::same_messages::same_sent;
use node_rules::{Begin, Outgoing, Reply, Serve, Served, StepFault};

/// Whether what is served is equal: a copy with its age, or a bare status.
pub fn same_served(one: &Served<()>, other: &Served<()>) -> bool
    ensures { IsTrue result ↔ (one.now ≡ other.now) }
{
    match (one, other) {
        (
            Served::Copy { copy, age },
            Served::Copy {
                copy: other,
                age: other_age,
            },
        ) => age == other_age && same_copy(copy, other),
        (Served::Status(one), Served::Status(other)) => one == other,
        _ => false,
    }
}

/// Whether the same is served to the same receiver, or nothing in both.
fn same_serve(one: &Option<Serve<()>>, other: &Option<Serve<()>>) -> bool
    ensures { IsTrue result ↔ (one.now ≡ other.now) }
{
    match (one, other) {
        (Some(one), Some(other)) => {
            one.waiter == other.waiter
                && one.asker == other.asker
                && same_served(&one.served, &other.served)
        }
        (None, None) => true,
        _ => false,
    }
}

/// Whether two datagrams have the same receiver and message.
fn same_outgoing(one: &Outgoing, other: &Outgoing) -> bool
    ensures { IsTrue result ↔ (one.now ≡ other.now) }
{
    one.to == other.to && same_sent(&one.message, &other.message)
}

/// Whether two lists have the same datagrams in the same order.
#[cycle(sends)]
fn same_sends(one: &[Outgoing], other: &[Outgoing]) -> bool
    ensures { IsTrue result ↔ (one.now ≡ other.now) }
{
    match one {
        [] => other.is_empty(),
        [first, one @ ..] => match other {
            [] => false,
            [second, other @ ..] => same_outgoing(first, second) && same_sends(one, other),
        },
    }
}

/// Whether the same begins, or nothing in both.
fn same_begin(one: &Option<Begin>, other: &Option<Begin>) -> bool
    ensures { IsTrue result ↔ (one.now ≡ other.now) }
{
    match (one, other) {
        (Some(Begin::Round { serial: one }), Some(Begin::Round { serial: other })) => one == other,
        (
            Some(Begin::Peer { serial, peer, ask }),
            Some(
                Begin::Peer {
                    serial: other_serial,
                    peer: other_peer,
                    ask: other,
                },
            ),
        ) => serial == other_serial && peer == other_peer && same_ask(ask, other),
        (
            Some(Begin::Read { serial, ask }),
            Some(
                Begin::Read {
                    serial: other_serial,
                    ask: other,
                },
            ),
        ) => serial == other_serial && same_ask(ask, other),
        (None, None) => true,
        _ => false,
    }
}

/// Whether two replies are equal: what is served to whom, each datagram to send, and what begins.
pub fn same_reply(one: &Reply<()>, other: &Reply<()>) -> bool
    ensures { IsTrue result ↔ (one.now ≡ other.now) }
{
    same_serve(&one.serve, &other.serve)
        && same_sends(one.send.as_slice(), other.send.as_slice())
        && same_begin(&one.begin, &other.begin)
}

/// Whether two outcomes of a step are equal: the same reply, or the same fault.
pub fn same_outcome(
    one: &Result<Reply<()>, StepFault>,
    other: &Result<Reply<()>, StepFault>,
) -> bool
    ensures { IsTrue result ↔ (one.now ≡ other.now) }
{
    match (one, other) {
        (Ok(one), Ok(other)) => same_reply(one, other),
        (Err(one), Err(other)) => one == other,
        _ => false,
    }
}
