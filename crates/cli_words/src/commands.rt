//! The commands of `cache` as the kit's `clap` takes them, with their texts of help.
use clap::{Arg, Command, value_parser};
use std::alloc::{AllocError, Global};

/// The version of the program, which is also the newest one of CHANGELOG.md.
const VERSION: &str = "0.1.0";

/// `cache` with its commands.
pub(crate) fn cache_command<'a>(alloc: Global) -> Result<Command<'a>, AllocError> {
    Command::new(alloc, "cache")
        .version(VERSION)
        .about("Sibling web caches that answer each other by ICP and purge for good")
        .subcommand_required(true)
        .arg_required_else_help(true)
        .subcommand(answer_command(alloc))?
        .subcommand(wire_command(alloc)?)?
        .subcommand(world_command(alloc)?)?
        .subcommand(cluster_command(alloc)?)?
        .subcommand(origin_command(alloc)?)
}

/// `cache answer`.
fn answer_command<'a>(alloc: Global) -> Command<'a> {
    Command::new(alloc, "answer")
        .about("Answers each line of standard input by a node, member 1 of a roster of two")
        .after_help(
            "Lines:\n  store URL [STAMP]  place an empty copy: stored, Kept, Old (purged), TooLarge, or the URL's fault\n  icp HEX            an ICP datagram from node 2\n  htcp HEX           an HTCP datagram from node 2\n  master HEX         an HTCP datagram from the master\n  stranger HEX       an HTCP datagram from an unknown address\nA datagram is answered by the reply in hex, nothing, or the datagram's fault; what is no hex by: bad hex; any other line by: bad line",
        )
}

/// `cache wire CODEC`.
fn wire_command<'a>(alloc: Global) -> Result<Command<'a>, AllocError> {
    let codec = Arg::new(alloc, "CODEC")
        .required(true)
        .value_parser(["icp", "htcp"].as_slice())
        .help("The protocol of the datagrams");
    Command::new(alloc, "wire")
        .about("Shows each datagram of standard input, one in hex a line")
        .arg(codec)
}

/// `cache world FILE`.
fn world_command<'a>(alloc: Global) -> Result<Command<'a>, AllocError> {
    let file = Arg::new(alloc, "FILE")
        .required(true)
        .help("The roster, in TOML");
    Command::new(alloc, "world")
        .about(
            "Plays a script over a world of the roster's members, its master and the network between them",
        )
        .after_help(
            "Lines:\n  clock T                           set the clock, in seconds\n  client N URL [only-if-cached]     a client asks member N\n  datagram K | ask K                what was sent comes, for the first time or again\n  answer K [SERIAL]                 a member's answer comes, under another serial if one is given\n  origin N SERIAL STATUS BODY       the origin answers a read, to be kept for 60 seconds\n  fail N SERIAL | expire N SERIAL   a fetch fails, a round has waited\n  fault N | restart N               a member's store fails, a member starts again\n  issue URL | admit N | resend      a purge is issued, a member admitted, what is due sent again\n  status P | master                 how far purge or admission P is, the master starts again\nEach line is answered by its number and what is told: serve STATUS [stamp S body BODY], answer K, purge P,\nadmitted P, pending C, done P, unknown, round SERIAL, send K .., ask K, read SERIAL, refused NAME, or -",
        )
        .arg(file)
}

/// `cache cluster FILE --data DIR`.
fn cluster_command<'a>(alloc: Global) -> Result<Command<'a>, AllocError> {
    let file = Arg::new(alloc, "FILE")
        .required(true)
        .help("The roster, in TOML");
    let data = Arg::new(alloc, "data")
        .long("data")
        .value_name("DIR")
        .required(true)
        .help(
            "The folder of the files node-N.db and master.db, which are made where they are not there",
        );
    let workers = Arg::new(alloc, "workers")
        .long("workers")
        .value_name("N")
        .value_parser(value_parser!(u8).range(2..=8))
        .default_value("2")
        .help("How many workers each member has");
    let history = Arg::new(alloc, "history")
        .long("history")
        .value_name("N")
        .value_parser(value_parser!(u32).range(0..=65536))
        .default_value("16")
        .help("How many pages of 4096 steps each member keeps in memory for check; 0 keeps none");
    Command::new(alloc, "cluster")
        .about(
            "Runs the roster's members and its master in this process, and answers each line of standard input",
        )
        .after_help(
            "Lines:\n  purge URL    issue a purge: purge P, or the fault's name\n  admit N      admit member N, which joins: admitted P, or the fault's name\n  status P     how far purge or admission P is: pending C (members are missing), done P, or unknown\n  pending      what is pending: purges C, and then C lines P URL N N .. (the members missing), or P admission N\n  members      how each member stands: members C, and then C lines N open, N outside or N closed CAUSE\n  peers        which peers a member thinks dead: peers C, and then C lines N P dead SECONDS\n  refused      how many requests each member refused by a 503 of its own: refused C, and then C lines N COUNT\n  get N URL    ask member N by HTTP: the status and the body in hex (- where empty), or the fault's name\n  check        whether all that was done so far is a run in which purges are safe: yes, no PLACE CAUSE,\n               forgotten, where there was more of it than --history keeps or memory lacked for what is\n               kept, NoMemory, where the check lacked memory, or Ended, where a member has ended\n  quit         stop, as the end of the input does\nAny other line is answered by: bad line",
        )
        .arg(file)?
        .arg(data)?
        .arg(workers)?
        .arg(history)
}

/// `cache origin ADDRESS COUNT`.
pub(crate) fn origin_command<'a>(alloc: Global) -> Result<Command<'a>, AllocError> {
    let address = Arg::new(alloc, "ADDRESS").required(true).help(
        "Where it serves: four decimal numbers with dots, `:` and a port",
    );
    let count = Arg::new(alloc, "COUNT")
        .required(true)
        .value_parser(value_parser!(u32).range(1..))
        .help("How many asks it answers before it ends");
    Command::new(alloc, "origin")
        .about(
            "Answers asks over HTTP for trials, each by the path that is asked for and the count so far",
        )
        .arg(address)?
        .arg(count)
}
