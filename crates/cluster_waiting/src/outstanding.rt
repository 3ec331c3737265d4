//! Which peers each round of queries waits for.
ghost use Rattle.std.specs.Prelude.{◌≡◌, [], Some, option_map, bit_and, OnOk, OnErr};
ghost use Rattle.cluster_waiting.specs.Waiting.{found_at, without};
ghost use Rattle.cluster_waiting.specs.Peers.{waits_for_none};

use std::alloc::{AllocError, Global};
use std::collections::BTreeMap;
use std::marker::Model;

/// Which peers each round of queries still waits for. A set of peers is a number: the peer at place
/// `p` of a table of peers is bit `p`.
///
/// A contract sees the rounds by ascending serials, each with its set.
#[derive(Drop)]
pub struct Outstanding {
    rounds: BTreeMap<u32, u32>,
}

impl Model for Outstanding {
    ghost use Rattle.std.specs.Prelude.{ℕ, List};

    ghost Value = { List (ℕ × ℕ) };

    ghost view = { λ o. o.rounds.entries };
}

impl Outstanding {
    /// No rounds. It takes no memory.
    pub fn new(alloc: Global) -> Outstanding
        ensures { result ≡ [] }
    {
        Outstanding {
            rounds: BTreeMap::new(alloc),
        }
    }

    /// Has a round wait for these peers. Where there is no memory nothing changes.
    pub fn begin(&mut self, serial: u32, peers: u32) -> Result<(), AllocError>
        ensures ok { OnOk result (found_at self.new serial ≡ Some peers) }
        ensures err { OnErr result (self.new ≡ self.old) }
    {
        match self.rounds.insert(serial, peers) {
            Ok(_) => Ok(()),
            Err(_) => Err(AllocError),
        }
    }

    /// Has a round wait only for those of its peers that are among these. Returns whether it waits,
    /// and for none of them.
    pub fn heard(&mut self, serial: u32, others: u32) -> bool
        ensures none { result ≡ waits_for_none (found_at self.new serial) }
        ensures others { found_at self.new serial ≡
            option_map (λ peers. bit_and peers others) (found_at self.old serial) }
    {
        match self.rounds.get_mut(&serial) {
            Some(peers) => {
                *peers &= others;
                *peers == 0
            }
            None => false,
        }
    }

    /// Ends a round. Returns the peers that it still waited for; none where there is no such round.
    pub fn end(&mut self, serial: u32) -> Option<u32>
        ensures peers { result ≡ found_at self.old serial }
        ensures others { self.new ≡ without self.old serial }
    {
        self.rounds.remove(&serial)
    }
}
