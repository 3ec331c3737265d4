//! The thread of the master's event loop.
use crate::fault::ClusterFault;
use cluster_master::{KeptEntries, MasterLoop, MasterSender, SharedMaster};
use node_book::MOST_ENTRIES;
use node_seats::Places;
use purge_master::{Master, MasterBook};
use purge_rules::PurgeStore;
use roster::Roster;
use std::alloc::Global;
use std::net::Net;
use std::sync::atomic::{AtomicBool, Ordering};
use std::sync::{Arc, Wait};
use std::thread::{self, JoinHandle, Threads};
use std::time::Clock;

/// A master whose thread runs.
pub(crate) struct MasterThread<S: PurgeStore> {
    /// The master, which its thread and the lines share.
    pub(crate) master: Arc<SharedMaster<S>, Global>,
    /// What issues purges on the master's socket.
    pub(crate) sender: MasterSender,
    is_stopped: Arc<AtomicBool, Global>,
    thread: JoinHandle<()>,
}

impl<S: PurgeStore + Drop> Drop for MasterThread<S> {
    fn drop(self) {
        let MasterThread {
            master: _,
            sender: _,
            is_stopped: _,
            thread: _,
        } = self;
    }
}

impl<S: PurgeStore> MasterThread<S> {
    /// The number of the last purge; the greatest number where there is no memory to tell it.
    pub(crate) fn last<R: Wait>(&self, rt: &R) -> u32 {
        match self.master.purges(rt) {
            Ok(purges) => purges.last(),
            Err(_) => u32::MAX,
        }
    }
}

/// What the master's thread has.
struct Polling<S: PurgeStore> {
    poller: MasterLoop,
    roster: Roster,
    master: Arc<SharedMaster<S>, Global>,
    is_stopped: Arc<AtomicBool, Global>,
}

impl<S: PurgeStore + Drop> Drop for Polling<S> {
    fn drop(self) {
        let Polling {
            poller: _,
            roster: _,
            master: _,
            is_stopped: _,
        } = self;
    }
}

impl<S: PurgeStore + Drop> Polling<S> {
    /// Polls again and again until it is told to stop.
    fn run<R: Wait + Clock>(mut self, rt: &R) {
        self.poller
            .run_until(rt, &self.roster, &self.master, &self.is_stopped);
    }
}

/// The master of a roster's members over a store, shared.
fn shared<S: PurgeStore + Drop>(
    alloc: Global,
    roster: &Roster,
    purges: S,
    places: Places,
    to_keep: KeptEntries,
) -> Result<Arc<SharedMaster<S>, Global>, ClusterFault> {
    let master = match Master::open(alloc, roster, purges) {
        Ok(master) => master,
        Err(fault) => return Err(ClusterFault::MasterOpen(fault)),
    };
    let book = MasterBook::open(master);
    match Arc::new(alloc, SharedMaster::open(alloc, book, places, to_keep)) {
        Ok(master) => Ok(master),
        Err(_) => Err(ClusterFault::NoMemory),
    }
}

/// What becomes of the master's entries where this many pages of 4,096 are kept.
fn kept_entries_of(most: u32) -> KeptEntries {
    if most == 0 {
        KeptEntries::Dropped
    } else {
        KeptEntries::UpTo(most.saturating_mul(MOST_ENTRIES as u32))
    }
}

/// A flag that is not set.
pub(crate) fn flag(alloc: Global) -> Result<Arc<AtomicBool, Global>, ClusterFault> {
    match Arc::new(alloc, AtomicBool::new(false)) {
        Ok(flag) => Ok(flag),
        Err(_) => Err(ClusterFault::NoMemory),
    }
}

impl<S: PurgeStore + Drop + Send + 'static> MasterThread<S> {
    /// Opens the master's socket, and starts its thread. `history` pages of its book are kept, of
    /// 4,096 entries each, or fewer that weigh so much.
    ///
    /// Faults: `MasterOpen`, `MasterStart`, `NoThread` and `NoMemory`. After a fault nothing runs
    /// or is open.
    pub(crate) fn start<R: Threads + Wait + Clock + Net + Copy + Drop + Send + Sync + 'static>(
        rt: R,
        alloc: Global,
        roster: &Roster,
        purges: S,
        places: Places,
        history: u32,
    ) -> Result<MasterThread<S>, ClusterFault> {
        let master = shared(alloc, roster, purges, places, kept_entries_of(history))?;
        let is_stopped = flag(alloc)?;
        let poller = match MasterLoop::open(&rt, alloc, roster) {
            Ok(poller) => poller,
            Err(fault) => return Err(ClusterFault::MasterStart(fault)),
        };
        let sender = poller.sender()?;
        let polling = Polling {
            poller,
            roster: roster.copy(alloc)?,
            master: Arc::try_clone(&master)?,
            is_stopped: Arc::try_clone(&is_stopped)?,
        };
        match thread::spawn(&rt, move || polling.run(&rt)) {
            Ok(thread) => Ok(MasterThread {
                master,
                sender,
                is_stopped,
                thread,
            }),
            Err(_) => Err(ClusterFault::NoThread),
        }
    }

    /// Tells the thread to stop, and waits for its end.
    pub(crate) fn stop<R: Threads>(self, rt: &R) {
        self.is_stopped.store(true, Ordering::SeqCst);
        let MasterThread {
            master: _,
            sender: _,
            is_stopped: _,
            thread,
        } = self;
        thread.join(rt);
    }
}
