//! The peers that a node asks, and how they answer.
ghost use Rattle.std.specs.Prelude.{◌≡◌, ◌++◌, ◌∷◌, [], OnOk, OnErr};
ghost use Rattle.cluster_waiting.specs.Peers.{is_dead as is_thought_dead, is_dead_at, fresh};
ghost use Rattle.cluster_waiting.specs.Peers.{changed, missed as missed_one, failed as failed_one};
ghost use Rattle.cluster_waiting.specs.Peers.{answered as answered_one};

use std::alloc::{AllocError, Global};
use std::marker::Model;
use values_plain::{Address, Udp};

/// How many questions in succession a peer leaves unanswered until it is thought dead: RFC 2187 has
/// caches count them.
pub const MOST_UNANSWERED: u32 = 20;

/// How many peers are counted at most: a node has 23.
pub const MOST_PEERS: usize = 31;

/// A peer that is asked, and how it answers.
#[derive(Clone, Copy, Debug, PartialEq, Eq)]
pub struct AskedPeer {
    /// Its id.
    pub id: u8,
    /// The protocol by which it is asked.
    pub by: Udp,
    /// Where it is asked.
    pub at: Address,
    /// How many questions in succession it has left unanswered, 20 at most.
    pub unanswered: u32,
    /// The moment at which it left the last of these unanswered, in milliseconds.
    pub since: u64,
}

impl AskedPeer {
    /// Whether it has left 20 questions in succession unanswered. It is thought dead then: it is
    /// asked, and not waited for.
    pub fn is_dead(&self) -> bool
        ensures { result ≡ is_thought_dead self.now }
    {
        self.unanswered >= MOST_UNANSWERED
    }

    /// Counts a question that it has left unanswered, at this moment in milliseconds.
    fn miss(&mut self, now: u64)
        ensures { self.new ≡ missed_one now self.old }
    {
        if self.unanswered < MOST_UNANSWERED {
            self.unanswered += 1;
            self.since = now;
        }
    }

    /// Has it be thought dead from this moment on, in milliseconds, unless it is already.
    fn fail(&mut self, now: u64)
        ensures { self.new ≡ failed_one now self.old }
    {
        if self.unanswered < MOST_UNANSWERED {
            self.unanswered = MOST_UNANSWERED;
            self.since = now;
        }
    }
}

/// The peers that a node asks, and how they answer. A contract sees the list.
#[derive(Drop)]
pub struct Peers {
    peers: Vec<AskedPeer>,
}

impl Model for Peers {
    ghost use Rattle.std.specs.Prelude.{List};
    ghost use Rattle.cluster_waiting.specs.declared.peers.AskedPeer.{AskedPeer};

    ghost Value = { List AskedPeer };

    ghost view = { λ p. p.peers.items };
}

impl Peers {
    /// No peers yet. It takes no memory.
    pub fn new(alloc: Global) -> Peers
        ensures { result ≡ [] }
    {
        Peers {
            peers: Vec::new(alloc),
        }
    }

    /// Adds a peer that has left nothing unanswered. `AllocError` comes where there are 31, or
    /// where there is no memory; nothing changes then.
    pub fn add(&mut self, id: u8, by: Udp, at: Address) -> Result<(), AllocError>
        ensures ok { OnOk result (self.new ≡ self.old ++ fresh id by at ∷ []) }
        ensures err { OnErr result (self.new ≡ self.old) }
    {
        if self.peers.len() >= MOST_PEERS {
            return Err(AllocError);
        }
        self.peers.push(AskedPeer {
            id,
            by,
            at,
            unanswered: 0,
            since: 0,
        })?;
        Ok(())
    }

    /// The peers, by their places.
    pub fn as_slice(&self) -> &[AskedPeer]
        ensures { result.now ≡ self.now }
    {
        self.peers.as_slice()
    }

    /// The place of the peer that is asked by this protocol at this address.
    pub fn place(&self, by: Udp, at: Address) -> Option<usize> {
        self.peers
            .iter()
            .position(|peer| peer.by == by && peer.at == at)
    }

    /// Whether the peer at a place is thought dead.
    pub fn is_dead(&self, place: usize) -> bool
        ensures { result ≡ is_dead_at self.now place }
    {
        match self.peers.get(place) {
            Some(peer) => peer.is_dead(),
            None => false,
        }
    }

    /// Counts a question that the peer at a place has left unanswered, at this moment in
    /// milliseconds.
    pub fn missed(&mut self, place: usize, now: u64)
        ensures { self.new ≡ changed (missed_one now) self.old place }
    {
        if let Some(peer) = self.peers.get_mut(place) {
            peer.miss(now);
        }
    }

    /// Has the peer with this id be thought dead from this moment on, in milliseconds.
    pub fn failed(&mut self, id: u8, now: u64) {
        if let Some(peer) = self.peers.iter_mut().find(|peer| peer.id == id) {
            peer.fail(now);
        }
    }

    /// The peer at a place has answered: it is not thought dead.
    pub fn answered(&mut self, place: usize)
        ensures { self.new ≡ changed answered_one self.old place }
    {
        if let Some(peer) = self.peers.get_mut(place) {
            peer.unanswered = 0;
        }
    }
}
