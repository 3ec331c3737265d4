//! The queries of a round.
ghost use Rattle.std.specs.Prelude.{◌≡◌, ◌++◌, IfOk, OnOk, option_to_list};
ghost use Rattle.std.specs.List.{filter_map};
ghost use Rattle.values_plain.specs.declared.address.Udp.TheVariants as udp;
ghost use Rattle.node_rules.specs.Messages as messages;
ghost use Rattle.node_rules.specs.Asks.{question_to};

use crate::known::cache_of;
use htcp_wire::{Content, Htcp, Specifier};
use icp_wire::{Icp, IcpOp};
use node_rules::{Message, Outgoing, Sent};
use roster::{Listed, Peer, Roster, Udp, address_by};
use std::alloc::{AllocError, Global};
use url_key::Key;
use values_plain::Octets;

/// GET of a key, as a SPECIFIER with empty REQ-HDRS (RFC 2756, "SPECIFIER").
fn get(alloc: Global, key: &[u8]) -> Result<Specifier, AllocError>
    ensures { IfOk result (λ spec. spec ≡ messages.get key.now) }
{
    Ok(Specifier {
        method: Octets::from_slice(alloc, b"GET")?,
        uri: Octets::from_slice(alloc, key)?,
        version: Octets::from_slice(alloc, b"HTTP/1.1")?,
        request_headers: Octets::new(alloc),
    })
}

/// The query whether a peer holds a copy of the key, by its protocol.
fn query(alloc: Global, by: Udp, serial: u32, key: &Key) -> Result<Sent, AllocError>
    ensures { IfOk result (λ sent. sent ≡ messages.query by serial key.now) }
{
    match by {
        Udp::Icp => icp_query(alloc, serial, key),
        Udp::Htcp => htcp_query(alloc, serial, key),
    }
}

/// A QUERY (RFC 2186, "ICP_OP_QUERY").
fn icp_query(alloc: Global, serial: u32, key: &Key) -> Result<Sent, AllocError>
    ensures { IfOk result (λ sent. sent ≡ messages.query udp.Icp serial key.now) }
{
    let message = Icp {
        op: IcpOp::Query,
        number: serial,
        url: Octets::from_slice(alloc, key.text())?,
        object: Octets::new(alloc),
    };
    Ok(Sent::new(Message::Icp(message)))
}

/// A TST (RFC 2756, "TST"). It desires a response.
fn htcp_query(alloc: Global, serial: u32, key: &Key) -> Result<Sent, AllocError>
    ensures { IfOk result (λ sent. sent ≡ messages.query udp.Htcp serial key.now) }
{
    let spec = get(alloc, key.text())?;
    let message = Htcp {
        minor: 0,
        trans: serial,
        content: Content::TstAsk {
            desired: true,
            spec,
        },
    };
    Ok(Sent::new(Message::Htcp(message)))
}

/// The query to one peer; none if the roster does not have the peer.
fn query_to(
    alloc: Global,
    roster: &Roster,
    serial: u32,
    key: &Key,
    peer: Peer,
) -> Result<Option<Outgoing>, AllocError>
    ensures { IfOk result (λ sent. sent ≡ question_to roster.now serial key.now peer) }
{
    match cache_of(roster, peer.id) {
        None => Ok(None),
        Some(cache) => {
            let message = query(alloc, peer.by, serial, key)?;
            Ok(Some(Outgoing {
                to: address_by(peer.by, cache),
                message,
            }))
        }
    }
}

/// Appends a query, if there is one.
fn push_some(sent: &mut Vec<Outgoing>, question: Option<Outgoing>) -> Result<(), AllocError>
    ensures { OnOk result (sent.new.items ≡ sent.old.items ++ option_to_list question) }
{
    if let Some(question) = question {
        sent.push(question)?;
    }
    Ok(())
}

/// Makes the queries of the round with this serial, in the order of the peers asked: whether they
/// hold a copy of the key (RFC 2186, "ICP_OP_QUERY"; RFC 2756, "TST").
///
/// The serial is the request number or the TRANS-ID.
#[tactic(auto, using(crate::proofs::OneMore::one_more))]
pub fn queries(
    alloc: Global,
    roster: &Roster,
    serial: u32,
    key: &Key,
    asked: &[Peer],
) -> Result<Listed<Outgoing>, AllocError>
    ensures { IfOk result (λ sent.
        sent ≡ filter_map (question_to roster.now serial key.now) asked.now) }
{
    let mut sent = Vec::with_capacity(alloc, asked.len())?;
    for peer in asked {
        let question = query_to(alloc, roster, serial, key, *peer)?;
        push_some(&mut sent, question)?;
    }
    Ok(Listed::new(sent))
}
