//! The peers of a member.
use crate::station::cache_in;
use cluster_waiting::Peers;
use roster::{Cache, Roster, address_by};
use std::alloc::{AllocError, Global};

/// The cache with this id: a member's, or a foreign one.
fn cache_of(roster: &Roster, id: u8) -> Option<&Cache> {
    match roster.member(id) {
        Some(member) => Some(&member.cache),
        None => cache_in(roster.foreign(), id),
    }
}

/// The peers that a member asks, none of which has left a question unanswered; none where no member
/// has this id. `AllocError` comes where there is no memory for them.
pub fn peers_of(alloc: Global, roster: &Roster, id: u8) -> Result<Peers, AllocError> {
    let mut peers = Peers::new(alloc);
    let Some(member) = roster.member(id) else {
        return Ok(peers);
    };
    for peer in member.peers.as_slice() {
        if let Some(cache) = cache_of(roster, peer.id) {
            peers.add(peer.id, peer.by, address_by(peer.by, cache))?;
        }
    }
    Ok(peers)
}
