//! What a node's thread and the thread that started it share.
use crate::fault::Unready;
use crate::halt::Halt;
use crate::report::Report;
use cluster_service::{Closing, peers_of};
use cluster_waiting::PeerTable;
use roster::Roster;
use std::alloc::{AllocError, Global};
use std::sync::atomic::{AtomicBool, AtomicU64};
use std::sync::{Arc, Wait};

/// What a node's thread and the thread that started it share: whether the node is to stop, how its
/// start went, whether it is held, whether it is closed, how its peers answer, whether it lacks
/// descriptors, and how many requests it has refused.
pub(crate) struct Signals {
    /// Whether the node is to stop.
    pub(crate) is_stopped: Arc<AtomicBool, Global>,
    /// How its start went.
    pub(crate) report: Arc<Report, Global>,
    /// Whether it is held.
    pub(crate) halt: Arc<Halt, Global>,
    /// Whether it is closed, and why.
    pub(crate) closing: Arc<Closing, Global>,
    /// How its peers answer.
    pub(crate) peers: Arc<PeerTable, Global>,
    /// Whether a connection could not be accepted, or made for a fetch, for want of a descriptor.
    pub(crate) has_lacked: Arc<AtomicBool, Global>,
    /// How many requests were answered by a 503 of the member itself.
    pub(crate) refused: Arc<AtomicU64, Global>,
}

impl Drop for Signals {
    fn drop(self) {
        let Signals {
            is_stopped: _,
            report: _,
            halt: _,
            closing: _,
            peers: _,
            has_lacked: _,
            refused: _,
        } = self;
    }
}

impl Signals {
    /// The signals of a member that is to be started.
    pub(crate) fn new(alloc: Global, roster: &Roster, id: u8) -> Result<Signals, Unready> {
        let peers = PeerTable::new(peers_of(alloc, roster, id)?);
        let Ok(peers) = Arc::new(alloc, peers) else {
            return Err(Unready::NoMemory);
        };
        let Ok(is_stopped) = Arc::new(alloc, AtomicBool::new(false)) else {
            return Err(Unready::NoMemory);
        };
        let Ok(report) = Arc::new(alloc, Report::new()) else {
            return Err(Unready::NoMemory);
        };
        let Ok(halt) = Arc::new(alloc, Halt::new()) else {
            return Err(Unready::NoMemory);
        };
        let Ok(closing) = Arc::new(alloc, Closing::new()) else {
            return Err(Unready::NoMemory);
        };
        let Ok(has_lacked) = Arc::new(alloc, AtomicBool::new(false)) else {
            return Err(Unready::NoMemory);
        };
        let Ok(refused) = Arc::new(alloc, AtomicU64::new(0)) else {
            return Err(Unready::NoMemory);
        };
        Ok(Signals {
            is_stopped,
            report,
            halt,
            closing,
            peers,
            has_lacked,
            refused,
        })
    }

    /// The same signals for the other thread.
    pub(crate) fn try_clone(&self) -> Result<Signals, AllocError> {
        Ok(Signals {
            is_stopped: Arc::try_clone(&self.is_stopped)?,
            report: Arc::try_clone(&self.report)?,
            halt: Arc::try_clone(&self.halt)?,
            closing: Arc::try_clone(&self.closing)?,
            peers: Arc::try_clone(&self.peers)?,
            has_lacked: Arc::try_clone(&self.has_lacked)?,
            refused: Arc::try_clone(&self.refused)?,
        })
    }

    /// The node's thread ends. Where it told nothing before, there was no memory to begin with.
    pub(crate) fn end<R: Wait>(&self, rt: &R) {
        self.report.tell(rt, Err(Unready::NoMemory));
        self.halt.end(rt);
    }
}
