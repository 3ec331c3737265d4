//! Finds cycles of parents.
ghost use Rattle.std.specs.Prelude.{◌≡◌, ◌==◌, ◌&&◌, map, filter, IfOk, MatchOption, slice_get};
ghost use Rattle.std.specs.Prelude.{length};
ghost use Rattle.std.specs.List.{list_any};
ghost use Rattle.roster.specs.Judged.{HasParentLoop};
ghost use Rattle.roster.specs.Lookups.{peers_of};
ghost use Rattle.values_tables.specs.Roles.{is_parent as is_parent_role};
ghost use Rattle.roster.specs.Among.{is_among as is_in, climbs as has_parent_in};

use crate::roster::peers_in;
use crate::{Member, Peer};
use std::alloc::{AllocError, Global};
use values_tables::Tables;

/// The ids of the members.
fn ids(alloc: Global, members: &[Member]) -> Result<Vec<u8>, AllocError>
    ensures { IfOk result (λ ids. ids.items ≡ map (λ m. m.cache.id) members.now) }
{
    members.iter().map(|member| member.cache.id).collect(alloc)
}

/// Whether the id is among these.
fn is_among(id: u8, ids: &[u8]) -> bool
    ensures { result ≡ is_in ids.now id }
{
    ids.iter().any(|other| *other == id)
}

/// Whether one of the peers is a parent whose id is among these.
fn has_parent(peers: &[Peer], ids: &[u8]) -> bool
    ensures { result ≡ list_any (λ p. is_parent_role p.role && is_in ids.now p.id) peers.now }
{
    peers
        .iter()
        .any(|peer| peer.role.is_parent() && is_among(peer.id, ids))
}

/// Whether the member has a parent whose id is among these.
fn climbs(tables: &Tables, ids: &[u8], id: u8) -> bool
    ensures { result ≡ has_parent_in tables.now ids.now id }
{
    has_parent(peers_in(tables.members.as_slice(), id), ids)
}

/// The ids whose members have a parent among the ids.
fn climbing(alloc: Global, tables: &Tables, ids: &[u8]) -> Result<Vec<u8>, AllocError>
    ensures { IfOk result (λ kept. kept.items ≡ filter (has_parent_in tables.now ids.now) ids.now) }
{
    let mut kept = Vec::new(alloc);
    for id in ids {
        if climbs(tables, ids, *id) {
            kept.push(*id)?;
        }
    }
    Ok(kept)
}

/// Whether both lists have the same length.
fn is_as_long(ids: &[u8], others: &[u8]) -> bool
    ensures { result ≡ (length ids.now == length others.now) }
{
    ids.len() == others.len()
}

/// The first of the ids.
fn first_of(ids: &[u8]) -> Option<u8>
    ensures { result ≡ slice_get ids.now 0 }
{
    match ids {
        [] => None,
        [first, ..] => Some(*first),
    }
}

/// A member whose parents lead into a cycle, if there is a cycle.
///
/// Removes the members that have no parent among those left, until none is left or all that are
/// left have one.
pub(crate) fn parent_loop(alloc: Global, tables: &Tables) -> Result<Option<u8>, AllocError>
    ensures { IfOk result (λ found.
        MatchOption found (¬ (HasParentLoop tables.now)) (λ _. HasParentLoop tables.now)) }
{
    let mut left = ids(alloc, tables.members.as_slice())?;
    loop {
        let kept = climbing(alloc, tables, left.as_slice())?;
        if is_as_long(kept.as_slice(), left.as_slice()) {
            return Ok(first_of(left.as_slice()));
        }
        left = kept;
    }
}
