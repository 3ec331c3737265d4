//! Who judges the run of a hierarchy.
ghost use Rattle.std.specs.Prelude.{IfOk, Option};
ghost use Rattle.cluster_console.specs.Checked.{Gathered, GoesOn, IsChecked};

use roster::Roster;
use run_rules::Verdict;
use std::alloc::{AllocError, Global};
use std::sync::Wait;
use std::time::Clock;

/// What is said of a run so far.
#[derive(Clone, Copy, Debug, PartialEq, Eq)]
pub enum Checked {
    /// The verdict on all that the members and the master did.
    Judged(Verdict),
    /// Not all of it is kept, so there is no verdict.
    Forgotten,
    /// The records of a member are not given: its thread has ended.
    Ended,
}

/// How a member stands.
#[derive(Clone, Copy, Debug, PartialEq, Eq)]
pub enum MemberState {
    /// It serves, and takes purges.
    Open,
    /// It joins, and serves nothing until its admission is done.
    Outside,
    /// It serves nothing and takes no purge until a restart: its store failed.
    StoreFault,
    /// The same, since its store lacked memory.
    NoMemory,
}

/// A peer that a member thinks dead: it asks the peer, and does not wait for it.
#[derive(Clone, Copy, Debug, PartialEq, Eq)]
pub struct DeadPeer {
    /// The member.
    pub member: u8,
    /// The peer that it asks.
    pub peer: u8,
    /// For how many seconds.
    pub seconds: u64,
}

/// Judges the run of a hierarchy, and tells how its members stand and what they have refused.
pub trait Checker {
    /// What was gathered of the run; none, where some of it is lost.
    ghost gathered: { Self → Option Gathered };

    /// Gathers what the members of this roster and the master did since the last time, and judges
    /// all that was gathered. `AllocError` comes where there is no memory for that.
    fn check<R: Wait>(
        &mut self,
        rt: &R,
        alloc: Global,
        roster: &Roster,
    ) -> Result<Checked, AllocError>
        ensures said { IfOk result (IsChecked roster.now (gathered self.new)) }
        ensures goes_on { GoesOn (gathered self.old) (gathered self.new) };

    /// How the member of this id stands, whether it is outside or not.
    fn state(&self, id: u8) -> MemberState;

    /// How many requests the member of this id has answered by a 503 of its own since its start; 0
    /// where no such member runs.
    fn refused(&self, id: u8) -> u64;

    /// Which peers the members think dead. `AllocError` comes where there is no memory for the
    /// list.
    fn dead_peers<R: Wait + Clock>(
        &self,
        rt: &R,
        alloc: Global,
    ) -> Result<Vec<DeadPeer>, AllocError>;
}
