//! Rounds of queries that wait for their answers.
ghost use Rattle.std.specs.Prelude.{◌≡◌, ◌≤◌, ◌<◌, ◌++◌, ◌∷◌, [], length, max, MatchOption, OnOk};
ghost use Rattle.std.specs.Prelude.{OnErr};
ghost use Rattle.cluster_waiting.specs.Waiting.{IsDue, NoneIsDue, added, rounds_without};

use std::alloc::{AllocError, Global};
use std::collections::VecDeque;
use std::marker::Model;

/// How many rounds wait at most.
pub const MOST_ROUNDS: usize = 65_536;

/// A round of queries that waits.
#[derive(Clone, Copy, Debug, PartialEq, Eq)]
pub struct WaitingRound {
    /// Its deadline, in milliseconds.
    pub until: u64,
    /// The serial of the round.
    pub serial: u32,
}

/// Rounds that wait, in the order of their deadlines. A round never ends before one that began
/// earlier: where its deadline is earlier, it waits until that one's.
///
/// A contract sees the list of rounds, at most 65,536, and the latest deadline so far.
#[derive(Drop)]
pub struct Rounds {
    rounds: VecDeque<WaitingRound>,
    latest: u64,
}

impl Model for Rounds {
    ghost use Rattle.std.specs.Prelude.{◌≤◌, length, All};
    ghost use Rattle.cluster_waiting.specs.Waiting.{RoundsView, Ascend};

    ghost Value = { RoundsView };

    ghost view = { λ r. record { rounds = r.rounds.items; latest = r.latest } };

    ghost invariant = { λ r. Ascend r.rounds.items × All (λ w. w.until ≤ r.latest) r.rounds.items
        × (length r.rounds.items ≤ 65536) };
}

impl Rounds {
    /// No rounds yet. It takes no memory.
    pub fn new(alloc: Global) -> Rounds
        ensures { result ≡ record { rounds = []; latest = 0 } }
    {
        Rounds {
            rounds: VecDeque::new(alloc),
            latest: 0,
        }
    }

    /// Has a round wait until this moment, in milliseconds, and at least as long as those that
    /// began before it. `AllocError` comes where 65,536 rounds wait, or where there is no memory;
    /// nothing changes then.
    pub fn begin(&mut self, until: u64, serial: u32) -> Result<(), AllocError>
        ensures ok { OnOk result (self.new ≡ added self.old until serial) }
        ensures few { OnOk result (length self.old.rounds < 65536) }
        ensures err { OnErr result (self.new ≡ self.old) }
    {
        if self.rounds.len() >= MOST_ROUNDS {
            return Err(AllocError);
        }
        let until = until.max(self.latest);
        self.rounds.push_back(WaitingRound { until, serial })?;
        self.latest = until;
        Ok(())
    }

    /// Takes out the round with this serial, if it waits.
    pub fn end(&mut self, serial: u32)
        ensures rounds { self.new.rounds ≡ rounds_without serial self.old.rounds }
        ensures latest { self.new.latest ≡ self.old.latest }
    {
        self.rounds.retain(|round| round.serial != serial);
    }

    /// Takes out the first round if its deadline has come at this moment, in milliseconds, and
    /// gives its serial. There is none only where no deadline has come.
    pub fn due(&mut self, now: u64) -> Option<u32>
        ensures { MatchOption result (NoneIsDue now self.old self.new)
            (IsDue now self.old self.new) }
    {
        match self.rounds.front() {
            Some(first) if first.until <= now => {}
            _ => return None,
        }
        let first = self.rounds.pop_front()?;
        Some(first.serial)
    }
}
