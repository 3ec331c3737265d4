//! The peers of a node, which its threads share.
use crate::peers::{AskedPeer, MOST_PEERS, Peers};
use std::alloc::{AllocError, Global};
use std::sync::{Mutex, Wait};
use values_plain::{Address, Udp};

/// The bit of a question to a cache that is no peer in the table. No answer is known to be its.
const UNKNOWN: u32 = 1 << 31;

/// The peers of a node, and how they answer, under a lock. A set of peers is a number, as
/// [`Outstanding`](crate::Outstanding) has it.
#[derive(Drop)]
pub struct PeerTable {
    peers: Mutex<Peers>,
}

/// The set of the peer at a place alone.
fn set_of(place: usize) -> u32 {
    match u32::try_from(place) {
        Ok(place) => 1u32.checked_shl(place).unwrap_or(UNKNOWN),
        Err(_) => UNKNOWN,
    }
}

impl PeerTable {
    /// A table of these peers.
    pub fn new(peers: Peers) -> PeerTable {
        PeerTable {
            peers: Mutex::new(peers),
        }
    }

    /// Whom a question by this protocol to this address has a round wait for: the peer that is
    /// asked there, or nobody where it is thought dead.
    pub fn waits_for<R: Wait>(&self, rt: &R, by: Udp, at: Address) -> u32 {
        let peers = self.peers.lock(rt);
        match peers.place(by, at) {
            Some(place) if peers.is_dead(place) => 0,
            Some(place) => set_of(place),
            None => UNKNOWN,
        }
    }

    /// Notes that a peer has answered by this protocol from this address. Returns the set of it
    /// alone; none where no peer is asked there.
    pub fn answered<R: Wait>(&self, rt: &R, by: Udp, from: Address) -> Option<u32> {
        let mut peers = self.peers.lock(rt);
        let place = peers.place(by, from)?;
        peers.answered(place);
        Some(set_of(place))
    }

    /// Counts a question that each peer of a set has left unanswered, at this moment in
    /// milliseconds.
    pub fn missed<R: Wait>(&self, rt: &R, set: u32, now: u64) {
        let mut peers = self.peers.lock(rt);
        for place in 0..MOST_PEERS {
            if set & set_of(place) != 0 {
                peers.missed(place, now);
            }
        }
    }

    /// Has the peer with this id be thought dead from this moment on, in milliseconds, until it
    /// answers again.
    pub fn failed<R: Wait>(&self, rt: &R, id: u8, now: u64) {
        self.peers.lock(rt).failed(id, now);
    }

    /// The peers that are thought dead. `AllocError` comes where there is no memory for the list.
    pub fn dead<R: Wait>(&self, rt: &R, alloc: Global) -> Result<Vec<AskedPeer>, AllocError> {
        let mut dead = Vec::with_capacity(alloc, MOST_PEERS)?;
        for peer in self.peers.lock(rt).as_slice() {
            if peer.is_dead() {
                dead.push(*peer)?;
            }
        }
        Ok(dead)
    }
}
