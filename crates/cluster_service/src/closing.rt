//! Whether a node is closed, and why.
use node_rules::StepFault;
use std::sync::atomic::{AtomicBool, Ordering};

/// Why a node is closed: it serves nothing and takes no purge until it starts again.
#[derive(Clone, Copy, Debug, PartialEq, Eq)]
pub enum CloseCause {
    /// Its store failed as a purge was to be committed.
    StoreFault,
    /// There was no memory to commit a purge.
    NoMemory,
}

/// Whether a node is closed, and why, as its threads find out. Any thread may ask.
#[derive(Drop)]
pub struct Closing {
    is_closed: AtomicBool,
    has_store_failed: AtomicBool,
}

impl Closing {
    /// The node is open.
    pub fn new() -> Closing {
        Closing {
            is_closed: AtomicBool::new(false),
            has_store_failed: AtomicBool::new(false),
        }
    }

    /// Notes that a step answered that the node is closed, or that its store has failed.
    pub(crate) fn note(&self, fault: StepFault) {
        if fault == StepFault::StoreFault {
            self.has_store_failed.store(true, Ordering::SeqCst);
        }
        self.is_closed.store(true, Ordering::SeqCst);
    }

    /// Whether a step has answered that the node is closed, or that its store has failed.
    pub fn is_closed(&self) -> bool {
        self.is_closed.load(Ordering::SeqCst)
    }

    /// Why the node is closed; none while no step has answered so. `NoMemory` where steps answered
    /// that it is closed, and none that its store has failed.
    pub fn cause(&self) -> Option<CloseCause> {
        if !self.is_closed() {
            return None;
        }
        if self.has_store_failed.load(Ordering::SeqCst) {
            Some(CloseCause::StoreFault)
        } else {
            Some(CloseCause::NoMemory)
        }
    }
}
