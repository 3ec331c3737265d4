//! The counter of places, which all nodes of a run share.
use std::alloc::{AllocError, Global};
use std::sync::Arc;
use std::sync::atomic::{AtomicU64, Ordering};

/// Gives the numbers from 1 upwards, each to one caller until 2^64 were given. No contract says so:
/// the check of a run tests the places that it finds. [Book 6]
#[derive(Drop)]
pub struct Places {
    next: Arc<AtomicU64, Global>,
}

impl Places {
    /// A new counter. `AllocError` comes where there is no memory for it.
    pub fn new(alloc: Global) -> Result<Places, AllocError> {
        match Arc::new(alloc, AtomicU64::new(1)) {
            Ok(next) => Ok(Places { next }),
            Err(_) => Err(AllocError),
        }
    }

    /// The same counter for another caller. `AllocError` comes where one more owner cannot be
    /// counted.
    pub fn copy(&self) -> Result<Places, AllocError> {
        Ok(Places {
            next: Arc::try_clone(&self.next)?,
        })
    }

    /// The next place.
    pub fn draw(&self) -> u64 {
        self.next.fetch_add(1, Ordering::SeqCst)
    }
}
