//! The contract of a store of purges.
ghost use Rattle.std.specs.Prelude.{◌≡◌, ◌≢◌, ◌⊎◌, ◌<◌, ◌≤◌, ℕ, ◌+◌, Bool, false, IsTrue};
ghost use Rattle.std.specs.Prelude.{IfOk, OnOk, Err};
ghost use Rattle.purge_rules.specs.Purges.{PurgeList, is_admitted, pending_count, with_purge};
ghost use Rattle.purge_rules.specs.Purges.{with_admission, with_mark, with_done};
ghost use Rattle.purge_rules.specs.Store.{IsEither, Misses};
ghost use Rattle.floor_rules.specs.Store.{HaveRisen};

use crate::{PurgeFault, Purges};
use std::alloc::Global;
use url_key::Key;

/// A store that keeps the purges and admissions of a master over a restart.
///
/// `add`, `admit`, `mark` and `finish` write. Once one of them has returned Ok, no crash undoes it.
/// Whatever it returned on a usable store, a crash at its end leaves the purges from before it or
/// from after it. What is said of commits and crashes holds if the disk is honest (`is_honest`).
///
/// After `StoreFault` each call that writes returns `StoreFault` and each load fails, until the
/// store is opened again. A store in a file does the same after `NoMemory` from a call that writes;
/// this contract does not demand it.
pub trait PurgeStore {
    // The purges that the last commit left.
    ghost content: { Self → PurgeList };

    // The purges that an open may find after a crash at this moment.
    ghost may_find: { Self → PurgeList → Type 0 };

    // The disk is honest: nobody else has written it, and it has returned what was written.
    ghost is_honest: { Self → Type 0 };

    // No call has failed. Else the store must be opened again.
    ghost is_usable: { Self → Bool };

    // How many calls have returned `StoreFault`.
    ghost failed: { Self → ℕ };

    /// A copy of the purges.
    ///
    /// Errors: `NoMemory`, and then nothing changes; `StoreFault`, only if an earlier call failed.
    /// Whatever it returns, an open after a crash can find nothing that it could not find before.
    fn load(&mut self, alloc: Global) -> Result<Purges, PurgeFault>
        ensures purges { IfOk result (λ purges. is_honest self.new → purges ≡ content self.old) }
        ensures same { OnOk result (self.new ≡ self.old) }
        ensures unchanged { result ≡ Err PurgeFault.NoMemory → self.new ≡ self.old }
        ensures usable { OnOk result (IsTrue (is_usable self.new)) }
        ensures kept { content self.new ≡ content self.old }
        ensures honest { is_honest self.new → is_honest self.old }
        ensures left { (found : PurgeList) → may_find self.new found → may_find self.old found }
        ensures once { failed self.new ≤ failed self.old + 1 }
        ensures fault { result ≡ Err PurgeFault.StoreFault →
            HaveRisen (failed self.old) (failed self.new) }
        ensures cause { result ≡ Err PurgeFault.StoreFault → is_usable self.old ≡ false }
        ensures named { result ≢ Err PurgeFault.BadTable };

    /// Commits a pending purge of the key under this number, which is above the last one and
    /// becomes it. The caller sees to it that fewer than 1,024 purges and admissions are pending
    /// before (`Purges::is_full`): a file with more than 1,024 does not open.
    ///
    /// Errors: `StoreFault` if the store failed, in this call or earlier; `NoMemory` if an
    /// allocation failed. A store that failed earlier returns only `StoreFault`, and an open after
    /// a crash can find nothing that it could not find before.
    fn add(&mut self, alloc: Global, number: u32, key: &Key) -> Result<(), PurgeFault>
        requires above { is_honest self.old → (content self.old).last < number }
        requires room { is_honest self.old → pending_count (content self.old) < 1024 }
        ensures honest { is_honest self.new → is_honest self.old }
        ensures committed { OnOk result (is_honest self.new →
            content self.new ≡ with_purge (content self.old) number key.now) }
        ensures durable { OnOk result (is_honest self.new → (found : PurgeList) →
            may_find self.new found → found ≡ with_purge (content self.old) number key.now) }
        ensures crash { is_honest self.new → IsTrue (is_usable self.old) → (found : PurgeList) →
            may_find self.new found → IsEither (content self.old)
            (with_purge (content self.old) number key.now) found }
        ensures refused { is_usable self.old ≡ false → result ≡ Err PurgeFault.StoreFault }
        ensures left { is_usable self.old ≡ false → (found : PurgeList) → may_find self.new found →
            may_find self.old found }
        ensures usable { OnOk result (IsTrue (is_usable self.new)) }
        ensures spent { result ≡ Err PurgeFault.StoreFault → is_usable self.new ≡ false }
        ensures counted { (result ≡ Err PurgeFault.StoreFault)
            ⊎ (failed self.new ≡ failed self.old) }
        ensures once { failed self.new ≤ failed self.old + 1 }
        ensures fault { result ≡ Err PurgeFault.StoreFault →
            HaveRisen (failed self.old) (failed self.new) }
        ensures named { result ≢ Err PurgeFault.BadTable };

    /// Commits an admission of the member, of an id of 1 to 16, under this number, which is above
    /// the last one and becomes it: both in one transaction. Before, the member has no admission.
    /// The caller sees to it that fewer than 1,024 purges and admissions are pending, as for `add`.
    ///
    /// Errors as for `add`.
    fn admit(&mut self, alloc: Global, number: u32, member: u8) -> Result<(), PurgeFault>
        requires id { (1 ≤ member) × (member ≤ 16) }
        requires above { is_honest self.old → (content self.old).last < number }
        requires room { is_honest self.old → pending_count (content self.old) < 1024 }
        requires new { is_honest self.old → is_admitted (content self.old) member ≡ false }
        ensures honest { is_honest self.new → is_honest self.old }
        ensures committed { OnOk result (is_honest self.new →
            content self.new ≡ with_admission (content self.old) number member) }
        ensures durable { OnOk result (is_honest self.new → (found : PurgeList) →
            may_find self.new found → found ≡ with_admission (content self.old) number member) }
        ensures crash { is_honest self.new → IsTrue (is_usable self.old) → (found : PurgeList) →
            may_find self.new found → IsEither (content self.old)
            (with_admission (content self.old) number member) found }
        ensures refused { is_usable self.old ≡ false → result ≡ Err PurgeFault.StoreFault }
        ensures left { is_usable self.old ≡ false → (found : PurgeList) → may_find self.new found →
            may_find self.old found }
        ensures usable { OnOk result (IsTrue (is_usable self.new)) }
        ensures spent { result ≡ Err PurgeFault.StoreFault → is_usable self.new ≡ false }
        ensures counted { (result ≡ Err PurgeFault.StoreFault)
            ⊎ (failed self.new ≡ failed self.old) }
        ensures once { failed self.new ≤ failed self.old + 1 }
        ensures fault { result ≡ Err PurgeFault.StoreFault →
            HaveRisen (failed self.old) (failed self.new) }
        ensures named { result ≢ Err PurgeFault.BadTable };

    /// Commits that the member, of an id of 1 to 16, has acknowledged the pending purge with this
    /// number. Before, the purge is pending and the member has not acknowledged it.
    ///
    /// Errors as for `add`.
    fn mark(&mut self, alloc: Global, number: u32, member: u8) -> Result<(), PurgeFault>
        requires id { (1 ≤ member) × (member ≤ 16) }
        requires missing { is_honest self.old → Misses (content self.old) number member }
        ensures honest { is_honest self.new → is_honest self.old }
        ensures committed { OnOk result (is_honest self.new →
            content self.new ≡ with_mark (content self.old) number member) }
        ensures durable { OnOk result (is_honest self.new → (found : PurgeList) →
            may_find self.new found → found ≡ with_mark (content self.old) number member) }
        ensures crash { is_honest self.new → IsTrue (is_usable self.old) → (found : PurgeList) →
            may_find self.new found → IsEither (content self.old)
            (with_mark (content self.old) number member) found }
        ensures refused { is_usable self.old ≡ false → result ≡ Err PurgeFault.StoreFault }
        ensures left { is_usable self.old ≡ false → (found : PurgeList) → may_find self.new found →
            may_find self.old found }
        ensures usable { OnOk result (IsTrue (is_usable self.new)) }
        ensures spent { result ≡ Err PurgeFault.StoreFault → is_usable self.new ≡ false }
        ensures counted { (result ≡ Err PurgeFault.StoreFault)
            ⊎ (failed self.new ≡ failed self.old) }
        ensures once { failed self.new ≤ failed self.old + 1 }
        ensures fault { result ≡ Err PurgeFault.StoreFault →
            HaveRisen (failed self.old) (failed self.new) }
        ensures named { result ≢ Err PurgeFault.BadTable };

    /// Commits that this number is done: its purge is pending no longer, or its admission is done.
    /// If nothing is pending under it, nothing changes.
    ///
    /// Errors as for `add`.
    fn finish(&mut self, alloc: Global, number: u32) -> Result<(), PurgeFault>
        ensures honest { is_honest self.new → is_honest self.old }
        ensures committed { OnOk result (is_honest self.new →
            content self.new ≡ with_done (content self.old) number) }
        ensures durable { OnOk result (is_honest self.new → (found : PurgeList) →
            may_find self.new found → found ≡ with_done (content self.old) number) }
        ensures crash { is_honest self.new → IsTrue (is_usable self.old) → (found : PurgeList) →
            may_find self.new found → IsEither (content self.old)
            (with_done (content self.old) number) found }
        ensures refused { is_usable self.old ≡ false → result ≡ Err PurgeFault.StoreFault }
        ensures left { is_usable self.old ≡ false → (found : PurgeList) → may_find self.new found →
            may_find self.old found }
        ensures usable { OnOk result (IsTrue (is_usable self.new)) }
        ensures spent { result ≡ Err PurgeFault.StoreFault → is_usable self.new ≡ false }
        ensures counted { (result ≡ Err PurgeFault.StoreFault)
            ⊎ (failed self.new ≡ failed self.old) }
        ensures once { failed self.new ≤ failed self.old + 1 }
        ensures fault { result ≡ Err PurgeFault.StoreFault →
            HaveRisen (failed self.old) (failed self.new) }
        ensures named { result ≢ Err PurgeFault.BadTable };

    /// How many calls have returned `StoreFault`. At 18446744073709551615 it stays.
    fn failures(&self) -> u64
        ensures { result ≡ failed self.now };
}
