//! Judges whether tables fit together.
ghost use Rattle.std.specs.Prelude.{◌≡◌, ◌==◌, ◌∷◌, length, nat_lt, true, false, map, is_some, not};
ghost use Rattle.std.specs.Prelude.{IfOk, IfErr, MatchResult, MatchOption};
ghost use Rattle.std.specs.List.{list_any};
ghost use Rattle.roster.specs.Judged.{caches_of, has_too_many, has_double_address, has_doubles};
ghost use Rattle.roster.specs.Judged.{udp_of as udp_of_caches, udp_addresses};
ghost use Rattle.roster.specs.Judged.{is_unknown as is_unknown_to, names_unknown, has_unknown_peer};
ghost use Rattle.roster.specs.Judged.{HasParentLoop, FitTogether, clashes, same_origin, same_peer};
ghost use Rattle.roster.specs.Faults.{IsFirst};
ghost use Rattle.roster.specs.Lookups.{same_address};

use crate::doubles::first_double;
use crate::fault::{RosterError, RosterFault, place};
use crate::loops::parent_loop;
use crate::{Address, Cache, Member, Peer, TableKind, TextPlace};
use std::alloc::{AllocError, Global};
use values_tables::Tables;

/// All caches: first the members, then the foreign ones.
fn caches(alloc: Global, tables: &Tables) -> Result<Vec<&Cache>, AllocError>
    ensures { IfOk result (λ caches. map (λ c. c.now) caches.items ≡ caches_of tables.now) }
{
    let mut caches = Vec::new(alloc);
    for member in tables.members.as_slice() {
        caches.push(&member.cache)?;
    }
    for cache in tables.foreign.as_slice() {
        caches.push(cache)?;
    }
    Ok(caches)
}

/// Where there are too many tables, if there are.
fn too_many(tables: &Tables) -> Option<TextPlace>
    ensures { is_some result ≡ has_too_many tables.now }
{
    if tables.members.as_slice().len() > 16 {
        Some(place(TableKind::Node, 0, ""))
    } else if tables.foreign.as_slice().len() > 8 {
        Some(place(TableKind::Foreign, 0, ""))
    } else if let Some(index) = too_many_peers(tables.members.as_slice()) {
        Some(place(TableKind::Node, index, "peer"))
    } else if tables.origins.as_slice().len() > 256 {
        Some(place(TableKind::Origin, 0, ""))
    } else {
        None
    }
}

/// Which member, from 1, has too many peers.
fn too_many_peers(members: &[Member]) -> Option<usize>
    ensures { is_some result ≡ list_any (λ m. nat_lt 23 (length m.peers)) members.now }
{
    for index in 0..members.len() {
        let member = &members[index];
        if member.peers.as_slice().len() > 23 {
            return Some(index + 1);
        }
    }
    None
}

/// The UDP addresses of the master and of the caches.
fn udp_addresses(
    alloc: Global,
    master: Address,
    caches: &[&Cache],
) -> Result<Vec<Address>, AllocError>
    ensures { IfOk result (λ all. all.items ≡ master
        ∷ udp_of_caches (map (λ c. c.now) caches.now)) }
{
    let mut all = Vec::new(alloc);
    all.push(master)?;
    for cache in caches {
        all.push(cache.icp)?;
        all.push(cache.htcp)?;
    }
    Ok(all)
}

/// The index of the first cache that clashes with one behind it, and the key by which it does.
fn double_cache(caches: &[&Cache]) -> Option<(usize, &'static str)>
    ensures { is_some result ≡ has_doubles clashes (map (λ c. c.now) caches.now) }
{
    first_double(caches)
}

/// Where an id, a name, an address or an origin is twice, if one is.
fn double_address(
    alloc: Global,
    tables: &Tables,
    caches: &[&Cache],
) -> Result<Option<TextPlace>, AllocError>
    requires { map (λ c. c.now) caches.now ≡ caches_of tables.now }
    ensures { IfOk result (λ place. is_some place ≡ has_double_address tables.now) }
{
    if let Some((index, key)) = double_cache(caches) {
        return Ok(Some(cache_place(tables, index, key)));
    }
    let udp = udp_addresses(alloc, tables.master, caches)?;
    if let Some((index, _)) = first_double(udp.as_slice()) {
        return Ok(Some(udp_place(tables, index)));
    }
    match first_double(tables.origins.as_slice()) {
        Some((index, key)) => Ok(Some(place(TableKind::Origin, index.saturating_add(1), key))),
        None => Ok(None),
    }
}

/// The place of the cache of this index in `caches`.
fn cache_place(tables: &Tables, index: usize, key: &'static str) -> TextPlace {
    let members = tables.members.as_slice().len();
    if index < members {
        place(TableKind::Node, index.saturating_add(1), key)
    } else {
        place(TableKind::Foreign, (index - members).saturating_add(1), key)
    }
}

/// The place of the address of this index in `udp_addresses`.
fn udp_place(tables: &Tables, index: usize) -> TextPlace {
    if index == 0 {
        place(TableKind::Master, 0, "htcp")
    } else if index % 2 == 1 {
        cache_place(tables, (index - 1) / 2, "icp")
    } else {
        cache_place(tables, (index - 1) / 2, "htcp")
    }
}

/// Whether a cache has the id.
fn bears(caches: &[&Cache], id: u8) -> bool
    ensures { result ≡ list_any (λ c. c.id == id) (map (λ c. c.now) caches.now) }
{
    match caches {
        [] => false,
        [first, rest @ ..] => first.id == id || bears(rest, id),
    }
}

/// Whether the peer is the member itself, or no cache has its id.
fn is_unknown(caches: &[&Cache], member: &Member, peer: Peer) -> bool
    ensures { result ≡ is_unknown_to (map (λ c. c.now) caches.now) member.now peer }
{
    peer.id == member.cache.id || !bears(caches, peer.id)
}

/// The index of the first peer that is unknown.
fn first_unknown(caches: &[&Cache], member: &Member, peers: &[Peer]) -> Option<usize>
    ensures { is_some result ≡ list_any
        (is_unknown_to (map (λ c. c.now) caches.now) member.now) peers.now }
{
    match peers {
        [] => None,
        [first, rest @ ..] => {
            if is_unknown(caches, member, *first) {
                Some(0)
            } else {
                match first_unknown(caches, member, rest) {
                    Some(index) => Some(index.saturating_add(1)),
                    None => None,
                }
            }
        }
    }
}

/// The index of a peer of the member that is unknown or named twice.
fn bad_peer(caches: &[&Cache], member: &Member) -> Option<usize>
    ensures { is_some result ≡ names_unknown (map (λ c. c.now) caches.now) member.now }
{
    let peers = member.peers.as_slice();
    match first_unknown(caches, member, peers) {
        Some(index) => Some(index),
        None => match first_double(peers) {
            Some((index, _)) => Some(index),
            None => None,
        },
    }
}

/// Where one of the members names an unknown peer, itself, or one peer twice.
fn unknown_peer_of(caches: &[&Cache], members: &[Member]) -> Option<TextPlace>
    ensures { is_some result ≡ list_any (names_unknown (map (λ c. c.now) caches.now)) members.now }
{
    for index in 0..members.len() {
        let member = &members[index];
        if let Some(peer) = bad_peer(caches, member) {
            return Some(TextPlace {
                peer: peer.saturating_add(1),
                ..place(TableKind::Peer, index + 1, "id")
            });
        }
    }
    None
}

/// The same of all members of the tables.
fn unknown_peer(tables: &Tables, caches: &[&Cache]) -> Option<TextPlace>
    requires { map (λ c. c.now) caches.now ≡ caches_of tables.now }
    ensures { is_some result ≡ has_unknown_peer tables.now }
{
    unknown_peer_of(caches, tables.members.as_slice())
}

/// The place of the member with this id.
fn member_place(members: &[Member], id: u8) -> TextPlace {
    let index = members.iter().position(|member| member.cache.id == id);
    place(
        TableKind::Node,
        index.map_or(0, |index| index.saturating_add(1)),
        "peer",
    )
}

/// Judges tables: the first fault, if there is one.
pub(crate) fn judge(alloc: Global, tables: &Tables) -> Result<(), RosterError>
    ensures { MatchResult result (λ _. FitTogether tables.now) (λ error.
        IsFirst tables.now error.fault) }
{
    if let Some(place) = too_many(tables) {
        return Err(RosterFault::TooMany.at(place));
    }
    let caches = caches(alloc, tables)?;
    if let Some(place) = double_address(alloc, tables, caches.as_slice())? {
        return Err(RosterFault::DoubleAddress.at(place));
    }
    if let Some(place) = unknown_peer(tables, caches.as_slice()) {
        return Err(RosterFault::UnknownPeer.at(place));
    }
    match parent_loop(alloc, tables)? {
        Some(id) => Err(RosterFault::ParentLoop.at(member_place(tables.members.as_slice(), id))),
        None => Ok(()),
    }
}
