//! A queue of what is to be done.
ghost use Rattle.std.specs.Prelude.{◌≡◌, [], false, OnOk, OnErr};
ghost use Rattle.cluster_waiting.specs.Waiting.{Takes, with_last, ended};

use std::alloc::{AllocError, Global};
use std::collections::VecDeque;
use std::marker::Model;

/// A queue of what is to be done, first in, first out, until it is ended. A contract sees the list
/// of what waits, and whether it is ended.
#[derive(Drop)]
pub struct Queue<T> {
    items: VecDeque<T>,
    is_over: bool,
}

impl<T> Model for Queue<T> {
    ghost use Rattle.cluster_waiting.specs.Waiting.{QueueView};

    ghost Value = { QueueView T };

    ghost view = { λ r. record { items = r.items.items; over = r.is_over } };
}

impl<T: Drop> Queue<T> {
    /// An empty queue. It takes no memory.
    pub fn new(alloc: Global) -> Queue<T>
        ensures { result ≡ record { items = []; over = false } }
    {
        Queue {
            items: VecDeque::new(alloc),
            is_over: false,
        }
    }

    /// Puts an item behind those that wait. Where there is no memory for it, the item is dropped,
    /// and nothing changes.
    pub fn put(&mut self, item: T) -> Result<(), AllocError>
        ensures ok { OnOk result (self.new ≡ with_last self.old item) }
        ensures err { OnErr result (self.new ≡ self.old) }
    {
        self.items.push_back(item)?;
        Ok(())
    }

    /// Takes out the item that has waited longest. There is none where nothing waits, or where the
    /// queue is ended.
    pub fn take(&mut self) -> Option<T>
        ensures { Takes self.old result self.new }
    {
        if self.is_over {
            return None;
        }
        self.items.pop_front()
    }

    /// Ends the queue: what still waits is never taken.
    pub fn end(&mut self)
        ensures { self.new ≡ ended self.old }
    {
        self.is_over = true;
    }
}
