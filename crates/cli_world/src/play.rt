//! A script, played over a world.
ghost use Rattle.std.specs.Prelude.{◌≡◌, ◌++◌, ℕ, List, OnOk, Err};
ghost use Rattle.cli_world.specs.Played.{LineAnswers, EventAnswers, HasPlayedWorld};

use crate::event::{Heard, heard_in};
use crate::show::{push_count, push_outcome, push_refusal};
use hierarchy_world::World;
use roster::Roster;
use std::alloc::{AllocError, Global};
use std::io::{Read, Write};
use values_lines::{RunFault, Script, play};
use world_rules::{WorldEvent, WorldFault};

/// A world, and how many lines were read.
#[derive(Drop)]
pub(crate) struct Player {
    world: World,
    lines: u64,
}

/// Plays a script: each line is an event of the world of this roster, from a new world on. It is
/// answered by its own number and by what the event does.
///
/// The lines: `clock T`, `client N URL [only-if-cached]`, `datagram K`, `ask K`, `answer K
/// [SERIAL]`, `origin N SERIAL STATUS BODY` (a response that may be kept for 60 seconds), `fail N
/// SERIAL`, `expire N SERIAL`, `fault N`, `restart N`, `issue URL`, `admit N`, `resend`, `status P`
/// and `master`. A number is decimal, without leading zeros. Datagrams, requests and responses are
/// each counted from 1 as they are sent.
///
/// The answers, as far as there is something to tell, in this order: `serve STATUS stamp S body
/// BODY` or `serve STATUS`, `answer K`, `purge P`, `admitted P`, `pending C`, `done P` or
/// `unknown`, `round SERIAL`, `send K K ..`, `ask K`, `read SERIAL`, `refused NAME`; else `-`. A
/// line that is none of these is answered by `bad line`, and so is an origin's response that has
/// no text; a URL that has no key is answered by its fault. Such a line is no event.
///
/// Where the reader or the writer fails, a line has more than 140,000 octets, 70,000 reads are not
/// enough, or there is no memory, a front of the answers is written.
pub fn run_world<R: Read, W: Write>(
    alloc: Global,
    roster: &Roster,
    reader: &mut R,
    writer: &mut W,
) -> Result<(), RunFault>
    ensures { HasPlayedWorld roster.now (R.remaining reader.old) (W.contents writer.old)
        (W.contents writer.new) result }
{
    let world = match World::new(alloc, roster) {
        Ok(world) => world,
        Err(_) => return Err(RunFault::NoMemory),
    };
    let mut player = Player { world, lines: 0 };
    play(alloc, &mut player, reader, writer)
}

impl Script for Player {
    ghost answers = { LineAnswers };

    fn answer(&mut self, alloc: Global, line: &[u8], text: &mut Vec<u8>) -> Result<(), AllocError> {
        self.lines = self.lines.saturating_add(1);
        push_count(self.lines, text)?;
        match heard_in(alloc, line)? {
            Heard::Event(event) => tell(&mut self.world, event, text),
            Heard::BadUrl(fault) => {
                text.extend_from_slice(b" ")?;
                text.extend_from_slice(fault.name().as_bytes())
            }
            Heard::Bad => text.extend_from_slice(b" bad line"),
        }
    }
}

/// Applies an event, and writes what it does, or why it is refused.
fn tell(world: &mut World, event: WorldEvent, text: &mut Vec<u8>) -> Result<(), AllocError>
    ensures { OnOk result ((answer : List ℕ) × EventAnswers world.old event answer world.new
        × (text.new.items ≡ text.old.items ++ answer)) }
{
    match world.apply(event) {
        Ok(outcome) => push_outcome(&outcome, text),
        Err(WorldFault::NoMemory) => Err(AllocError),
        Err(fault) => push_refusal(fault.name(), text),
    }
}
