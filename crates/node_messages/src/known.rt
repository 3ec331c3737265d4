//! Look-ups in a roster: caches by their ids, senders by their addresses, origins by their keys.
ghost use Rattle.std.specs.Prelude.{◌≡◌, ◌==◌, ◌&&◌, true, find, option_map};
ghost use Rattle.roster.specs.Lookups.{is_member, same_address};
ghost use Rattle.node_rules.specs.Known as known;

use peer_chooser::Round;
use roster::{Address, Cache, Peer, Roster, Udp, address_by, is_foreign};
use url_key::Key;

/// The cache with this id, a member or a foreign cache.
pub(crate) fn cache_of(roster: &Roster, id: u8) -> Option<&Cache>
    ensures { option_map (λ c. c.now) result ≡ known.cache_of roster.now id }
{
    if is_foreign(id) {
        foreign_in(roster.foreign(), id)
    } else {
        match roster.member(id) {
            Some(member) => Some(&member.cache),
            None => None,
        }
    }
}

/// The foreign cache with this id.
fn foreign_in(caches: &[Cache], id: u8) -> Option<&Cache>
    ensures { option_map (λ c. c.now) result ≡ find (λ c. c.id == id) caches.now }
{
    caches.iter().find(|cache| cache.id == id)
}

/// Whether two addresses are equal.
fn is_same(a: Address, b: Address) -> bool
    ensures { result ≡ same_address a b }
{
    a.ip == b.ip && a.port == b.port
}

/// Whether two protocols are equal.
fn is_same_udp(a: Udp, b: Udp) -> bool
    ensures { result ≡ known.same_udp a b }
{
    match (a, b) {
        (Udp::Icp, Udp::Icp) | (Udp::Htcp, Udp::Htcp) => true,
        _ => false,
    }
}

/// Whether the peer is queried by this protocol, at this address.
fn is_peer_at(roster: &Roster, by: Udp, from: Address, peer: Peer) -> bool
    ensures { result ≡ known.is_peer_at roster.now by from peer }
{
    is_same_udp(peer.by, by) && is_at(by, from, cache_of(roster, peer.id))
}

/// Whether there is a cache, and it answers the protocol at this address.
fn is_at(by: Udp, from: Address, cache: Option<&Cache>) -> bool
    ensures { result ≡ known.is_address_of by from (option_map (λ c. c.now) cache.entry) }
{
    match cache {
        Some(cache) => is_same(from, address_by(by, cache)),
        None => false,
    }
}

/// The peer of the round that is queried by this protocol at this address.
pub fn peer_at(roster: &Roster, by: Udp, from: Address, round: &Round) -> Option<Peer>
    ensures { result ≡ find (known.is_peer_at roster.now by from) round.now.asked }
{
    peer_in(roster, by, from, round.asked()).copied()
}

/// The peer among these that is queried by this protocol at this address.
fn peer_in<'a>(roster: &Roster, by: Udp, from: Address, peers: &'a [Peer]) -> Option<&'a Peer>
    ensures { option_map (λ p. p.now) result
        ≡ find (known.is_peer_at roster.now by from) peers.now }
{
    peers
        .iter()
        .find(|peer| is_peer_at(roster, by, from, **peer))
}

/// Whether the entry of the member `of` names the cache `whom`. `of` must be a member's id.
fn names(roster: &Roster, of: u8, whom: u8) -> bool
    requires { is_member roster.now of ≡ true }
    ensures { result ≡ known.names roster.now of whom }
{
    roster.peers(of).iter().any(|peer| peer.id == whom)
}

/// Whether a member other than `id` answers the protocol at this address.
fn is_other_member(roster: &Roster, id: u8, by: Udp, from: Address) -> bool
    ensures { result ≡ known.is_other_member roster.now id by from }
{
    roster.members().iter().any(|member| member.cache.id != id
        && is_same(from, address_by(by, &member.cache)))
}

/// Whether a foreign cache that the entry of `id` names answers the protocol at this address.
fn is_foreign_peer(roster: &Roster, id: u8, by: Udp, from: Address) -> bool
    requires { is_member roster.now id ≡ true }
    ensures { result ≡ known.is_foreign_peer roster.now id by from }
{
    roster.foreign().iter().any(|cache| names(roster, id, cache.id)
        && is_same(from, address_by(by, cache)))
}

/// Whether the member `id` knows an address: another member answers the protocol there, or a
/// foreign cache that the member's entry names. `id` must be a member's id.
pub fn is_known(roster: &Roster, id: u8, by: Udp, from: Address) -> bool
    requires { is_member roster.now id ≡ true }
    ensures { result ≡ known.is_known roster.now id by from }
{
    is_other_member(roster, id, by, from) || is_foreign_peer(roster, id, by, from)
}

/// Whether the roster has the origin of the key's host and port.
pub fn has_origin(roster: &Roster, key: &Key) -> bool
    ensures { result ≡ known.has_origin roster.now key.now }
{
    roster.origin(key.host(), key.port()).is_some()
}
