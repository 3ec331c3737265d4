//! What other threads leave to the event loop.
use crate::delivery::Delivery;
use cluster_fetch::FetchRequest;
use cluster_waiting::Queue;
use mio::Waker;
use std::alloc::{AllocError, Global};
use std::sync::{Mutex, Wait};

/// What a thread leaves to the event loop, since it would have to wait for it.
#[derive(Drop)]
pub enum Errand {
    /// A response that its client has not taken whole.
    Deliver(Delivery),
    /// A fetch to begin.
    Fetch(FetchRequest),
}

/// Where threads leave errands to the event loop, first in, first out.
pub struct Inbox {
    errands: Mutex<Queue<Errand>>,
    waker: Waker,
}

impl Drop for Inbox {
    fn drop(self) {
        let Inbox {
            errands: _,
            waker: _,
        } = self;
    }
}

impl Inbox {
    /// An empty inbox, whose errands wake the loop by this waker. It takes no memory.
    pub(crate) fn new(alloc: Global, waker: Waker) -> Inbox {
        Inbox {
            errands: Mutex::new(Queue::new(alloc)),
            waker,
        }
    }

    /// Leaves an errand, and wakes the loop. Where there is no memory for it, it is dropped: a
    /// connection is closed then.
    pub fn put<R: Wait>(&self, rt: &R, errand: Errand) -> Result<(), AllocError> {
        self.errands.lock(rt).put(errand)?;
        // (where the system refuses this, the loop finds the errand after its next wait)
        let _ = self.waker.wake();
        Ok(())
    }

    /// Takes out the errand that has waited longest.
    pub(crate) fn take<R: Wait>(&self, rt: &R) -> Option<Errand> {
        self.errands.lock(rt).take()
    }
}
