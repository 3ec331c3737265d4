//! The judge of the run of the members and their master.
ghost use Rattle.std.specs.Prelude.{IfOk};
ghost use Rattle.cluster_console.specs.Checked.{GoesOn, IsChecked};
ghost use Rattle.cluster_process.specs.Kept.{gathered_in};

use crate::cluster::Running;
use crate::kept::{Memory, RecordedRun};
use cluster_console::{Checked, Checker, DeadPeer, MemberState};
use cluster_master::{HeldMaster, SharedMaster};
use node_workers::{AskedPeer, CloseCause, StopFault, milliseconds};
use purge_rules::PurgeStore;
use roster::Roster;
use run_check::check_run;
use std::alloc::{AllocError, Global};
use std::hash::RandomState;
use std::sync::Wait;
use std::time::Clock;

/// What was gathered of what the members and the master did, and where the rest of it comes from.
#[derive(Drop)]
pub(crate) struct Judge<'a, S: PurgeStore> {
    /// The members that run.
    pub(crate) nodes: &'a [Running],
    /// The master that runs.
    pub(crate) master: &'a SharedMaster<S>,
    /// What was gathered so far.
    pub(crate) memory: Memory,
    /// Random hash keys for the check of what was sent.
    pub(crate) keys: RandomState,
}

impl<S: PurgeStore> Judge<'_, S> {
    /// Adds the record of a member to what was gathered.
    #[tactic(auto, using(crate::proofs::Gathering::kept_as_it_was, crate::proofs::Gathering::dropped))]
    fn take_record<R: Wait>(&mut self, rt: &R, node: &Running) -> Result<(), StopFault>
        ensures { GoesOn (gathered_in self.old.memory.kept) (gathered_in self.new.memory.kept) }
    {
        match node.workers.record(rt)? {
            Some(record) => self.memory.put_record(record)?,
            None => self.memory.forget(),
        }
        Ok(())
    }

    /// Adds the calls of the master to what was gathered.
    #[tactic(auto, using(crate::proofs::Gathering::kept_twice, crate::proofs::Gathering::dropped))]
    fn take_entries(&mut self, master: &mut HeldMaster<'_, S>) -> Result<(), AllocError>
        ensures { GoesOn (gathered_in self.old.memory.kept) (gathered_in self.new.memory.kept) }
    {
        // (where there is no memory to put the open page behind the others, the second take has it)
        self.memory.put_entries(master.take_entries())?;
        self.memory.put_entries(master.take_entries())?;
        if master.has_forgotten() {
            self.memory.forget();
        }
        Ok(())
    }

    /// Adds the records of the members and the calls of the master to what was gathered, while all
    /// of them are held.
    #[tactic(auto, using(crate::proofs::Gathering::kept_as_it_was, crate::proofs::Gathering::kept_twice))]
    fn take_all<R: Wait>(&mut self, rt: &R, master: &mut HeldMaster<'_, S>) -> Result<(), StopFault>
        ensures { GoesOn (gathered_in self.old.memory.kept) (gathered_in self.new.memory.kept) }
    {
        for node in self.nodes {
            self.take_record(rt, node)?;
        }
        self.take_entries(master)?;
        self.memory.limit();
        Ok(())
    }

    /// Holds all members and the master, gathers what they did since the last time, and lets them
    /// go on. So nothing is done between the first record that is taken and the last entry.
    ///
    /// Faults: those of [`Workers::record`](node_workers::Workers::record). What was gathered
    /// before such a fault stays, and the rest is gathered the next time. Where there is no memory
    /// for what is gathered, all of it is dropped.
    pub(crate) fn gather<R: Wait>(&mut self, rt: &R) -> Result<(), StopFault>
        ensures { GoesOn (gathered_in self.old.memory.kept) (gathered_in self.new.memory.kept) }
    {
        for node in self.nodes {
            node.workers.hold(rt);
        }
        let mut master = self.master.hold(rt);
        let taken = self.take_all(rt, &mut master);
        drop(master);
        for node in self.nodes {
            node.workers.resume(rt);
        }
        taken
    }

    /// What is kept of the run until now; none, where some of it cannot be gathered.
    #[tactic(auto, using(crate::proofs::Gathering::kept_as_it_was, crate::proofs::Gathering::dropped))]
    pub(crate) fn into_kept<R: Wait>(mut self, rt: &R) -> Option<RecordedRun>
        ensures { GoesOn (gathered_in self.entry.memory.kept) (gathered_in result) }
    {
        if self.memory.kept().is_some() && self.gather(rt).is_err() {
            self.memory.forget();
        }
        self.memory.into_kept()
    }

    /// The verdict on what was gathered, if all of it is kept.
    fn judged(&self, alloc: Global, roster: &Roster) -> Result<Checked, AllocError>
        ensures { IfOk result (IsChecked roster.now (gathered_in self.now.memory.kept)) }
    {
        let Some(kept) = self.memory.kept() else {
            return Ok(Checked::Forgotten);
        };
        let (records, entries) = (kept.records.as_slice(), kept.entries.as_slice());
        let verdict = check_run(alloc, self.keys, roster, records, entries)?;
        Ok(Checked::Judged(verdict))
    }
}

impl<S: PurgeStore> Checker for Judge<'_, S> {
    ghost gathered = { λ judge. gathered_in judge.memory.kept };

    fn check<R: Wait>(
        &mut self,
        rt: &R,
        alloc: Global,
        roster: &Roster,
    ) -> Result<Checked, AllocError> {
        if self.memory.kept().is_none() {
            return Ok(Checked::Forgotten);
        }
        match self.gather(rt) {
            Ok(()) => self.judged(alloc, roster),
            Err(StopFault::NoMemory) => Err(AllocError),
            Err(StopFault::Ended) => Ok(Checked::Ended),
        }
    }

    fn state(&self, id: u8) -> MemberState {
        for node in self.nodes {
            if node.id == id {
                return state_of(node.workers.close_cause());
            }
        }
        MemberState::Open
    }

    fn refused(&self, id: u8) -> u64 {
        for node in self.nodes {
            if node.id == id {
                return node.workers.refused();
            }
        }
        0
    }

    fn dead_peers<R: Wait + Clock>(
        &self,
        rt: &R,
        alloc: Global,
    ) -> Result<Vec<DeadPeer>, AllocError> {
        let now = milliseconds(rt);
        let mut dead = Vec::new(alloc);
        for node in self.nodes {
            let peers = node.workers.dead_peers(rt, alloc)?;
            push_dead(node.id, peers.as_slice(), now, &mut dead)?;
        }
        Ok(dead)
    }
}

/// How a member stands that is closed for this cause, if it is closed.
fn state_of(cause: Option<CloseCause>) -> MemberState {
    match cause {
        None => MemberState::Open,
        Some(CloseCause::StoreFault) => MemberState::StoreFault,
        Some(CloseCause::NoMemory) => MemberState::NoMemory,
    }
}

/// Adds the peers that a member thinks dead to the list, at this moment in milliseconds.
fn push_dead(
    member: u8,
    peers: &[AskedPeer],
    now: u64,
    dead: &mut Vec<DeadPeer>,
) -> Result<(), AllocError> {
    for peer in peers {
        dead.push(DeadPeer {
            member,
            peer: peer.id,
            seconds: now.saturating_sub(peer.since) / 1000,
        })?;
    }
    Ok(())
}
