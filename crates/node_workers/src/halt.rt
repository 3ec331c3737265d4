//! How a node is held while its record is taken.
use crate::fault::StopFault;
use node_book::Record;
use std::mem::replace;
use std::sync::{Condvar, Mutex, Wait};

/// What became of a record that was asked for: the record, if one is kept.
pub(crate) type TakenRecord = Result<Option<Record>, StopFault>;

/// Where the node's thread and the thread that holds the node stand.
#[derive(Drop)]
enum Stand {
    /// The node runs.
    Going,
    /// The node is to be held.
    Wanted,
    /// It is held: no step is taken.
    Held,
    /// It is held, and its record is asked for.
    Asked,
    /// It is held, and this is its record.
    Given(TakenRecord),
    /// Its thread has ended.
    Ended,
}

/// The handshake between a node's thread and the thread that holds the node.
pub(crate) struct Halt {
    stand: Mutex<Stand>,
    has_moved: Condvar,
}

impl Drop for Halt {
    fn drop(self) {
        let Halt {
            stand: _,
            has_moved: _,
        } = self;
    }
}

impl Halt {
    /// Nobody holds the node.
    pub(crate) fn new() -> Halt {
        Halt {
            stand: Mutex::new(Stand::Going),
            has_moved: Condvar::new(),
        }
    }

    /// Whether the node is to be held.
    pub(crate) fn is_wanted<R: Wait>(&self, rt: &R) -> bool {
        matches!(*self.stand.lock(rt), Stand::Wanted)
    }

    /// The node's thread says that it holds the node, and waits until its record is asked for or it
    /// is to go on. Returns whether it is asked for.
    pub(crate) fn stand_by<R: Wait>(&self, rt: &R) -> bool {
        let mut stand = self.stand.lock(rt);
        if matches!(*stand, Stand::Wanted) {
            *stand = Stand::Held;
            self.has_moved.notify_all();
        }
        let stand = self.has_moved.wait_while(rt, stand, |stand| {
            matches!(*stand, Stand::Held | Stand::Given(_))
        });
        matches!(*stand, Stand::Asked)
    }

    /// The node's thread gives the record that was asked for.
    pub(crate) fn give<R: Wait>(&self, rt: &R, taken: TakenRecord) {
        let mut stand = self.stand.lock(rt);
        if matches!(*stand, Stand::Asked) {
            *stand = Stand::Given(taken);
            self.has_moved.notify_all();
        }
    }

    /// The node's thread ends: nobody waits for it any more.
    pub(crate) fn end<R: Wait>(&self, rt: &R) {
        *self.stand.lock(rt) = Stand::Ended;
        self.has_moved.notify_all();
    }

    /// Has the node held, and waits until it is.
    pub(crate) fn hold<R: Wait>(&self, rt: &R) {
        let mut stand = self.stand.lock(rt);
        if matches!(*stand, Stand::Going) {
            *stand = Stand::Wanted;
        }
        let _held = self
            .has_moved
            .wait_while(rt, stand, |stand| matches!(*stand, Stand::Wanted));
    }

    /// Asks for the record of a node that is held, and waits for it. `Ended` comes where its
    /// thread has ended.
    pub(crate) fn ask<R: Wait>(&self, rt: &R) -> TakenRecord {
        let mut stand = self.stand.lock(rt);
        if matches!(*stand, Stand::Held) {
            *stand = Stand::Asked;
            self.has_moved.notify_all();
        }
        let mut stand = self
            .has_moved
            .wait_while(rt, stand, |stand| matches!(*stand, Stand::Asked));
        if !matches!(*stand, Stand::Given(_)) {
            return Err(StopFault::Ended);
        }
        match replace(&mut *stand, Stand::Held) {
            Stand::Given(taken) => taken,
            _ => Err(StopFault::Ended),
        }
    }

    /// Has the node go on.
    pub(crate) fn resume<R: Wait>(&self, rt: &R) {
        let mut stand = self.stand.lock(rt);
        if !matches!(*stand, Stand::Ended) {
            *stand = Stand::Going;
            self.has_moved.notify_all();
        }
    }
}
