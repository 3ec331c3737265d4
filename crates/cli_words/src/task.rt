//! What the command line asks for.
ghost use Rattle.std.specs.Prelude.{◌≡◌, ◌≤◌, IfOk, IfSome};
ghost use Rattle.clap.specs.Values.{kind_of};
ghost use Rattle.cli_words.specs.Statuses.{status_for};
ghost use Rattle.cli_words.specs.Tasks.{IsTask};

use crate::commands::{cache_command, origin_command};
use clap::error::ErrorKind;
use clap::{ArgMatches, Error};
use std::alloc::{AllocError, Global};
use std::net::SocketAddrV4;
use values_plain::{Address, Udp};

/// The status of a process that lacked memory.
const NO_MEMORY: u8 = 1;

/// The status of a process whose command line is wrong.
const BAD_COMMAND_LINE: u8 = 2;

/// How many workers a member has at least, and where the command line does not say.
const FEWEST_WORKERS: u8 = 2;

/// How many workers a member has at most.
const MOST_WORKERS: u8 = 8;

/// How many pages of each member are kept for `check` where the command line does not say.
const PAGES: u32 = 16;

/// A script between standard input and standard output.
#[derive(Drop)]
pub enum Scripted {
    /// `cache answer`.
    Answer,
    /// `cache wire CODEC`: datagrams of this protocol.
    Wire(Udp),
    /// `cache world FILE`, over the roster in this file.
    World(String),
}

/// What the command line asks for.
#[derive(Drop)]
pub enum Task {
    /// A script between standard input and standard output.
    Script(Scripted),
    /// `cache cluster FILE --data DIR [--workers N] [--history N]`.
    Cluster {
        /// The roster's file.
        file: String,
        /// The folder of the files of the members and of the master.
        dir: String,
        /// How many workers each member has: 2 to 8, and 2 where the words do not say.
        workers: u8,
        /// How many pages of each member are kept for `check`: 0 to 65,536, and 16 where the
        /// words do not say.
        history: u32,
    },
    /// `cache origin ADDRESS COUNT`.
    Origin {
        /// The address where it serves; the port is not 0.
        at: Address,
        /// How many requests it answers before it ends, at least 1.
        count: u32,
    },
}

/// What these words ask for; the first is the program's name.
///
/// The error is a text for a person: help, where that is asked for or no command is given; the
/// version, where that is asked for; the first word that is wrong; or that there was no memory.
/// [`status_of`] gives the status that goes with it.
pub fn task_of(alloc: Global, words: &[String]) -> Result<Task, Error>
    ensures { IfOk result IsTask }
{
    let matches = cache_command(alloc)?.try_get_matches_from(words)?;
    match matches.subcommand() {
        Some(("wire", wire)) => Ok(Task::Script(Scripted::Wire(codec_of(wire)))),
        Some(("world", world)) => {
            let file = word_of(alloc, world, "FILE")?;
            Ok(Task::Script(Scripted::World(file)))
        }
        Some(("cluster", cluster)) => cluster_of(alloc, cluster),
        Some(("origin", origin)) => origin_of(alloc, origin),
        _ => Ok(Task::Script(Scripted::Answer)),
    }
}

/// The status with which the process ends after this error: 0 after help or the version, where that
/// was asked for, 1 where there was no memory, and 2 where the words are wrong.
pub fn status_of(error: &Error) -> u8
    ensures { result ≡ status_for (kind_of error.now) }
{
    match error.kind() {
        ErrorKind::DisplayHelp | ErrorKind::DisplayVersion => 0,
        ErrorKind::OutOfMemory => NO_MEMORY,
        _ => BAD_COMMAND_LINE,
    }
}

/// The protocol that `wire` names.
fn codec_of(matches: &ArgMatches<'_>) -> Udp {
    match matches.get_str("CODEC") {
        Some("htcp") => Udp::Htcp,
        _ => Udp::Icp,
    }
}

/// The word of this argument, which is required.
fn word_of(alloc: Global, matches: &ArgMatches<'_>, name: &str) -> Result<String, AllocError> {
    String::from_str(alloc, matches.get_str(name).unwrap_or(""))
}

/// What `cluster` asks for.
fn cluster_of(alloc: Global, matches: &ArgMatches<'_>) -> Result<Task, Error>
    ensures { IfOk result IsTask }
{
    let asked = matches.get_one("workers").unwrap_or(FEWEST_WORKERS);
    Ok(Task::Cluster {
        file: word_of(alloc, matches, "FILE")?,
        dir: word_of(alloc, matches, "data")?,
        workers: workers_of(asked),
        history: matches.get_one("history").unwrap_or(PAGES),
    })
}

/// As many workers as are asked for. (`clap` lets no other number than 2 to 8 through.)
fn workers_of(asked: u8) -> u8
    ensures { (2 ≤ result) × (result ≤ 8) }
{
    if asked < FEWEST_WORKERS {
        FEWEST_WORKERS
    } else if asked > MOST_WORKERS {
        MOST_WORKERS
    } else {
        asked
    }
}

/// What `origin` asks for.
fn origin_of(alloc: Global, matches: &ArgMatches<'_>) -> Result<Task, Error>
    ensures { IfOk result IsTask }
{
    let at = matches
        .get_one::<SocketAddrV4>("ADDRESS")
        .and_then(listening_address);
    match (at, matches.get_one("COUNT")) {
        (Some(at), Some(count)) => Ok(Task::Origin { at, count }),
        _ => {
            let message =
                "ADDRESS is four decimal numbers of 0 to 255 with dots, `:` and a port of 1 to 65535";
            let mut command = origin_command(alloc)?;
            Err(command.error(ErrorKind::ValueValidation, message)?)
        }
    }
}

/// The address to listen at, unless its port is 0.
fn listening_address(address: SocketAddrV4) -> Option<Address>
    ensures { IfSome result (λ at. 1 ≤ at.port) }
{
    if address.port() == 0 {
        return None;
    }
    Some(Address {
        ip: u32::from(*address.ip()),
        port: address.port(),
    })
}
