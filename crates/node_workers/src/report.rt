//! How a node's thread tells that its start went well, or why not.
use crate::fault::Unready;
use std::sync::{Condvar, Mutex, Wait};

/// What a node's thread tells the thread that started it.
pub(crate) struct Report {
    told: Mutex<Option<Result<(), Unready>>>,
    has_told: Condvar,
}

impl Drop for Report {
    fn drop(self) {
        let Report {
            told: _,
            has_told: _,
        } = self;
    }
}

impl Report {
    /// Nothing is told yet.
    pub(crate) fn new() -> Report {
        Report {
            told: Mutex::new(None),
            has_told: Condvar::new(),
        }
    }

    /// Tells how the start went. Only the first call counts.
    pub(crate) fn tell<R: Wait>(&self, rt: &R, start: Result<(), Unready>) {
        let mut told = self.told.lock(rt);
        if told.is_none() {
            *told = Some(start);
        }
        self.has_told.notify_all();
    }

    /// Waits until it is told.
    pub(crate) fn wait<R: Wait>(&self, rt: &R) -> Result<(), Unready> {
        let told = self
            .has_told
            .wait_while(rt, self.told.lock(rt), |told| told.is_none());
        match *told {
            Some(start) => start,
            None => Err(Unready::NoThread),
        }
    }
}
