//! Why a master gives no number.
ghost use Rattle.std.specs.Prelude.{◌≡◌, ◌<◌, ◌≤◌, false, None};
ghost use Rattle.purge_rules.specs.Purges.{is_admitted, pending_count};
ghost use Rattle.purge_rules.specs.Calls.{issue_fault, admit_fault};

use crate::{LAST_NUMBER, MasterFault, Nodes, Purges};

impl Purges {
    /// Why a master with these purges refuses to issue one, if it does: `NumbersSpent` after the
    /// number 4294967295, else `TooManyPending` if 1,024 numbers are pending.
    pub fn issue_fault(&self) -> Option<MasterFault>
        ensures value { result ≡ issue_fault self.now }
        ensures room { result ≡ None → (self.now.last < 4294967295)
            × (pending_count self.now < 1024) }
    {
        if self.last() == LAST_NUMBER {
            return Some(MasterFault::NumbersSpent);
        }
        if self.is_full() {
            return Some(MasterFault::TooManyPending);
        }
        None
    }

    /// Why it refuses to admit the node with this id, if it does: `NotJoining` if the node is not
    /// one of these that join or has an admission, else as `issue_fault`.
    pub fn admit_fault(&self, nodes: &Nodes, id: u8) -> Option<MasterFault>
        ensures value { result ≡ admit_fault nodes.now self.now id }
        ensures room { result ≡ None → (self.now.last < 4294967295)
            × (pending_count self.now < 1024) }
        ensures new { result ≡ None → ((1 ≤ id) × (id ≤ 16))
            × (is_admitted self.now id ≡ false) }
    {
        if !nodes.joining.has(id) || self.is_admitted(id) {
            return Some(MasterFault::NotJoining);
        }
        self.issue_fault()
    }
}
