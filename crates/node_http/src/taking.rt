//! A request over HTTP, from reading to the step.
ghost use Rattle.std.specs.Prelude.{◌≡◌, ℕ, Option, Ok, true};
ghost use Rattle.roster.specs.Lookups.{is_member as is_member_of};
ghost use Rattle.node_bytes.specs.Stepping.{AnswersAsker};
ghost use Rattle.node_bytes.specs.Turns.{IsTurnOf};
ghost use Rattle.node_http.specs.Asking.{IsTaken, TakesAsk, TakesFor, event_by as event_from};
ghost use Rattle.node_http.specs.Asking.{block_of as block_begun};

use crate::ServeFault;
use crate::roster_names::asker_of;
use http_messages::Ask;
use http_reading::read_ask;
use node_bytes::{Stepper, Turn};
use node_rules::{Begin, Event, Reply, SERIALS, Serve};
use roster::Roster;
use std::alloc::Global;
use std::io::Read;

/// What a request leads to, before anything is written.
#[derive(Drop)]
pub enum Taken {
    /// This is served at once. Nothing else is to be done.
    Serves(Serve<()>),
    /// The request waits as the pending request of this block, until a later step serves it. The
    /// `Turn` is to be carried out now; it serves nobody.
    Waits(u32, Turn),
}

/// Reads a request, and takes one step with it as the node `id` at a time in seconds.
///
/// A request that names a member of the roster other than the node comes from that member, each
/// other one from a client. `id` must be a member's id.
///
/// Faults ([`status_for`](crate::status_for) gives the status that is to be written then):
///
/// - a fault of `read_ask`, and no step is taken
/// - a fault of the step
///
/// A step that stands is never refused: if memory for its datagrams is lacking, the request waits
/// all the same, and none of them is sent ([`Turn::of`]).
pub fn take_ask<N: Stepper, R: Read>(
    alloc: Global,
    roster: &Roster,
    id: u8,
    node: &mut N,
    reader: &mut R,
    now: u64,
) -> Result<Taken, ServeFault>
    requires { is_member_of roster.now id ≡ true }
    ensures { TakesAsk N.takes roster.now id now node.old node.new
        (R.remaining reader.old) (R.remaining reader.new) result }
{
    match read_ask(alloc, reader) {
        Ok(ask) => {
            let asker = asker_of(roster, id, ask.member);
            step_for(alloc, node, asker, ask, now)
        }
        Err(fault) => Err(ServeFault::Fetch(fault)),
    }
}

/// Takes one step with a request.
fn step_for<N: Stepper>(
    alloc: Global,
    node: &mut N,
    asker: Option<u8>,
    ask: Ask,
    now: u64,
) -> Result<Taken, ServeFault>
    ensures { TakesFor N.takes asker ask now node.old node.new result }
{
    match node.step(event_by(asker, ask, now)) {
        Ok(reply) => Ok(taken_of(alloc, reply)),
        Err(fault) => Err(ServeFault::Step(fault)),
    }
}

/// The event of a request.
fn event_by(asker: Option<u8>, ask: Ask, now: u64) -> Event<()>
    ensures { result ≡ event_from asker ask now }
{
    match asker {
        Some(asker) => Event::PeerAsk { asker, ask, now },
        None => Event::Client { ask, now },
    }
}

/// What a reply to a request serves, or hands on.
fn taken_of(alloc: Global, reply: Reply<()>) -> Taken
    requires asks { (asker : Option ℕ) × AnswersAsker asker reply }
    ensures { (asker : Option ℕ) → AnswersAsker asker reply → IsTaken asker (Ok reply) (Ok result) }
{
    match &reply.begin {
        Some(begin) => {
            let block = block_of(begin);
            hand_on(alloc, block, reply)
        }
        None => {
            let Reply { serve, .. } = reply;
            match serve {
                Some(serve) => Taken::Serves(serve),
                None => unreachable!(),
            }
        }
    }
}

/// The block of the serial with which something begins.
fn block_of(begin: &Begin) -> u32
    ensures { result ≡ block_begun begin.now }
{
    match begin {
        Begin::Round { serial } | Begin::Peer { serial, .. } | Begin::Read { serial, .. } => {
            *serial / SERIALS
        }
    }
}

/// Hands on what a reply says is to be done.
fn hand_on(alloc: Global, block: u32, reply: Reply<()>) -> Taken
    ensures { (turn : Turn) × (result ≡ Taken.Waits block turn) × IsTurnOf reply turn }
{
    Taken::Waits(block, Turn::of(alloc, reply))
}
