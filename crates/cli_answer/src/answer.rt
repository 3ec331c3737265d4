//! The lines of `cache answer`, and their answers.
ghost use Rattle.std.specs.Prelude.{◌≡◌, ℕ, List, ◌++◌, flat_map, OnOk};
ghost use Rattle.hex.specs.Hex.{decode_of};
ghost use Rattle.values_plain.specs.declared.address.Udp.TheVariants as udp;
ghost use Rattle.node_rules.specs.declared.event.Event.TheVariants as event;
ghost use Rattle.values_lines.specs.Words.{split_word as split_words};
ghost use Rattle.cli_answer.specs.Answer.{StoreLine, command_of, command_text};
ghost use Rattle.cli_answer.specs.Answer.{datagram_of as datagram_words, store_of, placed_text};
ghost use Rattle.cli_answer.specs.Answer.{sent_hex, sent_text, StepAnswers, OctetsAnswer};
ghost use Rattle.cli_answer.specs.Answer.{DatagramAnswers, CommandAnswers};
ghost use Rattle.cli_answer.specs.Answered.{AnswererAnswers, HasAnswered};

use crate::first::{Answering, first_node};
use hex::FromHexError;
use htcp_wire::HtcpFault;
use icp_wire::IcpFault;
use node_bytes::{octets_of, read_htcp, read_icp};
use node_core::{PlaceFault, Placed};
use node_rules::{Event, Outgoing, Received, StepFault};
use roster::{Address, Udp};
use std::alloc::{AllocError, Global};
use std::io::{Read, Write};
use url_key::{Key, KeyFault};
use values_lines::{RunFault, Script, decimal_u32, is_word, play, split_word};

/// The address that node 2 sends ICP from.
const SIBLING_BY_ICP: Address = Address {
    ip: 0x7f00_0001,
    port: 3102,
};

/// The address that node 2 sends HTCP from.
const SIBLING_BY_HTCP: Address = Address {
    ip: 0x7f00_0001,
    port: 4102,
};

/// The address that the master sends from.
const MASTER: Address = Address {
    ip: 0x7f00_0001,
    port: 4800,
};

/// An address that the roster does not have.
const STRANGER: Address = Address {
    ip: 0x7f00_0009,
    port: 9,
};

/// The node that answers the lines.
#[derive(Drop)]
struct Answerer {
    node: Answering,
}

/// A line of the input.
pub(crate) enum Line<'a> {
    /// `store URL` or `store URL STAMP`: place a copy.
    Store { url: &'a [u8], stamp: Option<u32> },
    /// `icp HEX`: an ICP datagram from node 2.
    Icp { hex: &'a [u8] },
    /// `htcp HEX`: an HTCP datagram from node 2.
    Htcp { hex: &'a [u8] },
    /// `master HEX`: an HTCP datagram from the master.
    Master { hex: &'a [u8] },
    /// `stranger HEX`: an HTCP datagram from an address that the roster does not have.
    Stranger { hex: &'a [u8] },
    /// Anything else.
    Bad,
}

/// Answers each line of the input by node 1 of a roster of two, at second 0. `store URL [STAMP]`
/// places an empty copy with this stamp, or with the greatest number that the node has seen.
/// `icp HEX` and `htcp HEX` are datagrams from node 2, `master HEX` is an HTCP datagram from the
/// master, and `stranger HEX` one from an address that the roster does not have.
///
/// Each answer is one line. For `store`: `stored`, `Kept` (a copy with a greater stamp is held),
/// `Old` (the stamp is below the floor of the key), `TooLarge`, or the fault of the URL. For a
/// datagram: what the node sends, in hex, `nothing` where it sends nothing, the fault of the
/// datagram, or `bad hex`. For any other line: `bad line`; it changes nothing.
///
/// Where the reader or the writer fails, a line has more than 140,000 octets, 70,000 reads are not
/// enough, or there is no memory, a front of the answers is written. `NoFirstNode` never comes.
pub fn run_answer<R: Read, W: Write>(
    alloc: Global,
    reader: &mut R,
    writer: &mut W,
) -> Result<(), RunFault>
    ensures { HasAnswered (R.remaining reader.old) (W.contents writer.old)
        (W.contents writer.new) result }
{
    let node = match first_node(alloc) {
        Ok(node) => node,
        Err(fault) => return Err(fault),
    };
    let mut answerer = Answerer { node };
    play(alloc, &mut answerer, reader, writer)
}

impl Script for Answerer {
    ghost answers = { AnswererAnswers };

    fn answer(&mut self, alloc: Global, line: &[u8], text: &mut Vec<u8>) -> Result<(), AllocError> {
        let node = &mut self.node;
        match line_of(line) {
            Line::Store { url, stamp } => place(alloc, node, url, stamp, text),
            Line::Icp { hex } => answer_hex(alloc, node, Udp::Icp, SIBLING_BY_ICP, hex, text),
            Line::Htcp { hex } => answer_hex(alloc, node, Udp::Htcp, SIBLING_BY_HTCP, hex, text),
            Line::Master { hex } => answer_hex(alloc, node, Udp::Htcp, MASTER, hex, text),
            Line::Stranger { hex } => answer_hex(alloc, node, Udp::Htcp, STRANGER, hex, text),
            Line::Bad => text.extend_from_slice(b"bad line"),
        }
    }
}

/// What a line asks for.
fn line_of(line: &[u8]) -> Line<'_>
    ensures { command_text result ≡ command_of line.now }
{
    let (keyword, Some(rest)) = split_word(line) else {
        return Line::Bad;
    };
    if keyword == b"store".as_slice() {
        store_line(rest)
    } else if is_word(rest) {
        datagram_line(keyword, rest)
    } else {
        Line::Bad
    }
}

/// What the words after `store` ask for: a URL, and a stamp where one is given.
fn store_line(text: &[u8]) -> Line<'_>
    ensures { command_text result ≡ store_of (split_words text.now) }
{
    let (url, stamp) = split_word(text);
    if url.is_empty() {
        return Line::Bad;
    }
    let Some(stamp) = stamp else {
        return Line::Store { url, stamp: None };
    };
    match decimal_u32(stamp) {
        Some(stamp) => Line::Store {
            url,
            stamp: Some(stamp),
        },
        None => Line::Bad,
    }
}

/// What a datagram line asks for, by the word before the hex.
fn datagram_line<'a>(keyword: &[u8], hex: &'a [u8]) -> Line<'a>
    ensures { command_text result ≡ datagram_words keyword.now hex.now }
{
    if keyword == b"icp".as_slice() {
        Line::Icp { hex }
    } else if keyword == b"htcp".as_slice() {
        Line::Htcp { hex }
    } else if keyword == b"master".as_slice() {
        Line::Master { hex }
    } else if keyword == b"stranger".as_slice() {
        Line::Stranger { hex }
    } else {
        Line::Bad
    }
}

/// Places an empty copy of the URL's key.
fn place(
    alloc: Global,
    node: &mut Answering,
    url: &[u8],
    stamp: Option<u32>,
    text: &mut Vec<u8>,
) -> Result<(), AllocError>
    ensures { OnOk result ((answer : List ℕ)
        × CommandAnswers node.old (StoreLine url.now stamp) answer node.new
        × (text.new.items ≡ text.old.items ++ answer)) }
{
    let key = match Key::read(alloc, url) {
        Ok(key) => key,
        Err(KeyFault::NoMemory) => return Err(AllocError),
        Err(fault) => return text.extend_from_slice(fault.name().as_bytes()),
    };
    match node.place(&key, stamp, ()) {
        Ok(placed) => text.extend_from_slice(placed_name(placed).as_bytes()),
        Err(PlaceFault::Closed) => text.extend_from_slice(b"Closed"),
        Err(PlaceFault::NoMemory) => Err(AllocError),
    }
}

/// The answer to a copy that was placed.
fn placed_name(placed: Placed) -> &'static str
    ensures { result.now ≡ placed_text placed }
{
    match placed {
        Placed::Old => "Old",
        Placed::TooLarge => "TooLarge",
        Placed::Kept => "Kept",
        Placed::Stored => "stored",
    }
}

/// Answers a datagram in hex.
fn answer_hex(
    alloc: Global,
    node: &mut Answering,
    by: Udp,
    from: Address,
    hex: &[u8],
    text: &mut Vec<u8>,
) -> Result<(), AllocError>
    ensures { OnOk result ((answer : List ℕ)
        × DatagramAnswers node.old by from (decode_of hex.now) answer node.new
        × (text.new.items ≡ text.old.items ++ answer)) }
{
    match hex::decode(alloc, hex) {
        Ok(octets) => answer_octets(alloc, node, by, from, &octets, text),
        Err(FromHexError::OutOfMemory) => Err(AllocError),
        Err(_) => text.extend_from_slice(b"bad hex"),
    }
}

/// Answers a datagram by its protocol.
fn answer_octets(
    alloc: Global,
    node: &mut Answering,
    by: Udp,
    from: Address,
    octets: &[u8],
    text: &mut Vec<u8>,
) -> Result<(), AllocError>
    ensures { OnOk result ((answer : List ℕ)
        × OctetsAnswer node.old by from octets.now answer node.new
        × (text.new.items ≡ text.old.items ++ answer)) }
{
    match by {
        Udp::Icp => answer_icp(alloc, node, from, octets, text),
        Udp::Htcp => answer_htcp(alloc, node, from, octets, text),
    }
}

/// Answers an ICP datagram.
fn answer_icp(
    alloc: Global,
    node: &mut Answering,
    from: Address,
    octets: &[u8],
    text: &mut Vec<u8>,
) -> Result<(), AllocError>
    ensures { OnOk result ((answer : List ℕ)
        × OctetsAnswer node.old udp.Icp from octets.now answer node.new
        × (text.new.items ≡ text.old.items ++ answer)) }
{
    match read_icp(alloc, octets) {
        Ok(message) => answer_message(alloc, node, from, message, text),
        Err(IcpFault::NoMemory) => Err(AllocError),
        Err(fault) => text.extend_from_slice(fault.name().as_bytes()),
    }
}

/// Answers an HTCP datagram.
fn answer_htcp(
    alloc: Global,
    node: &mut Answering,
    from: Address,
    octets: &[u8],
    text: &mut Vec<u8>,
) -> Result<(), AllocError>
    ensures { OnOk result ((answer : List ℕ)
        × OctetsAnswer node.old udp.Htcp from octets.now answer node.new
        × (text.new.items ≡ text.old.items ++ answer)) }
{
    match read_htcp(alloc, octets) {
        Ok(message) => answer_message(alloc, node, from, message, text),
        Err(HtcpFault::NoMemory) => Err(AllocError),
        Err(fault) => text.extend_from_slice(fault.name().as_bytes()),
    }
}

/// Answers a message that comes at second 0.
fn answer_message(
    alloc: Global,
    node: &mut Answering,
    from: Address,
    message: Received,
    text: &mut Vec<u8>,
) -> Result<(), AllocError>
    ensures { OnOk result ((answer : List ℕ)
        × StepAnswers node.old (event.Datagram from message 0) answer node.new
        × (text.new.items ≡ text.old.items ++ answer)) }
{
    let event = Event::Datagram {
        from,
        message,
        now: 0,
    };
    match node.step(event, ()) {
        Ok(reply) => push_sent(alloc, reply.send.as_slice(), text),
        Err(StepFault::NoMemory) => Err(AllocError),
        Err(fault) => text.extend_from_slice(fault.name().as_bytes()),
    }
}

/// Writes what is sent, one datagram after another in hex, or `nothing`.
fn push_sent(alloc: Global, sent: &[Outgoing], text: &mut Vec<u8>) -> Result<(), AllocError>
    ensures { OnOk result (text.new.items ≡ text.old.items ++ sent_text sent.now) }
{
    match sent {
        [] => text.extend_from_slice(b"nothing"),
        [_, ..] => push_datagrams(alloc, sent, text),
    }
}

/// Writes datagrams, one after another in hex.
fn push_datagrams(alloc: Global, sent: &[Outgoing], text: &mut Vec<u8>) -> Result<(), AllocError>
    ensures { OnOk result (text.new.items ≡ text.old.items ++ flat_map sent_hex sent.now) }
{
    for datagram in sent {
        let octets = octets_of(alloc, datagram)?;
        text.extend_from_slice(hex::encode(alloc, octets.as_slice())?.as_bytes())?;
    }
    Ok(())
}
