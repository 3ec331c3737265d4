//! A request over HTTP, from reading to writing.
ghost use Rattle.std.specs.Prelude.{◌≡◌, true, IsTrue};
ghost use Rattle.roster.specs.Lookups.{is_member as is_member_of};
ghost use Rattle.http_writing.specs.Name.{is_name as names_cache};
ghost use Rattle.node_http.specs.Asking.{ServesAsk, Tells};

use crate::refusing::{refuse, status_for};
use crate::roster_names::name_of;
use crate::taking::{Taken, take_ask};
use crate::{ServeFault, finish};
use node_bytes::{Stepper, Turn};
use roster::Roster;
use std::alloc::Global;
use std::io::{Read, Write};

/// What became of a request.
#[derive(Drop)]
pub enum Asked {
    /// The response is written. Nothing else is to be done.
    Answered,
    /// The request waits as the pending request of this block, until a later step serves it. The
    /// `Turn` is to be carried out now; it serves nobody.
    Waits(u32, Turn),
}

/// Reads a request, takes one step with it as the node `id` at a time in seconds
/// ([`take_ask`]), and writes what is served at once.
///
/// Faults, with the status that is written:
///
/// - a fault of `read_ask`, and no step is taken: 400 for `BadHead`, `BadTarget` and `BadBody`, but
///   414 for a URL that is too long; 431 for `HeadTooLong`; 501 for `MethodNotServed` and
///   `Credentials`; 503 for `NoMemory`; nothing for `Io`, `EndOfInput` and `TooManyTurns`
/// - a fault of the step: 503
/// - `Io` if the writer failed in the response: a front of the response, and no status
pub fn serve_ask<N: Stepper, R: Read, W: Write>(
    alloc: Global,
    roster: &Roster,
    id: u8,
    node: &mut N,
    reader: &mut R,
    writer: &mut W,
    now: u64,
) -> Result<Asked, ServeFault>
    requires { is_member_of roster.now id ≡ true }
    ensures { ServesAsk N.takes roster.now id now node.old node.new
        (R.remaining reader.old) (R.remaining reader.new) (W.contents writer.old)
        (W.contents writer.new) result }
{
    let taken = take_ask(alloc, roster, id, node, reader, now);
    told(taken, writer, name_of(roster, id))
}

/// Writes what is served, or the status of a refusal.
fn told<W: Write>(
    taken: Result<Taken, ServeFault>,
    writer: &mut W,
    via: &[u8],
) -> Result<Asked, ServeFault>
    requires { IsTrue (names_cache via.now) }
    ensures { Tells (W.contents writer.old) (W.contents writer.new) via.now taken result }
{
    match taken {
        Ok(Taken::Serves(serve)) => match finish(writer, &serve, via) {
            Ok(()) => Ok(Asked::Answered),
            Err(fault) => Err(ServeFault::Fetch(fault)),
        },
        Ok(Taken::Waits(block, turn)) => Ok(Asked::Waits(block, turn)),
        Err(fault) => {
            refuse(writer, status_for(fault), via);
            Err(fault)
        }
    }
}
