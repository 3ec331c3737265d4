//! The contract of a store of floors.
ghost use Rattle.std.specs.Prelude.{◌≡◌, ◌≢◌, ◌⊎◌, ◌≤◌, ℕ, ◌+◌, List, Bool, false, IsTrue, IfOk};
ghost use Rattle.std.specs.Prelude.{OnOk, Err};
ghost use Rattle.floor_rules.specs.Floors.{FloorTable, raised, with_base};
ghost use Rattle.floor_rules.specs.Store.{HaveRisen, IsBeforeOrAfter, IsBeforeOrAfterBase};

use crate::fault::FloorFault;
use crate::floors::Floors;
use std::alloc::Global;
use url_key::Key;

/// A store that keeps the floors of a node over a restart.
///
/// What is said of commits and crashes holds if the disk is honest (`is_honest`).
///
/// After `StoreFault` each raise, of a key or of the base, returns `StoreFault` and each load
/// fails, until the store is opened again. A store in a file does the same after `NoMemory` from a
/// raise; this contract does not demand it.
pub trait FloorStore {
    // The floors that the last commit left.
    ghost content: { Self → FloorTable };

    // The floors that an open may find after a crash at this moment.
    ghost may_find: { Self → FloorTable → Type 0 };

    // The disk is honest: nobody else has written it, and it has returned what was written.
    ghost is_honest: { Self → Type 0 };

    // No call has failed. Else the store must be opened again.
    ghost is_usable: { Self → Bool };

    // How many calls have returned `StoreFault`.
    ghost failed: { Self → ℕ };

    // Between these two states the database itself refused to raise the key to the number.
    ghost has_cause: { Self → Self → List ℕ → ℕ → Type 0 };

    // Between these two states the database itself refused to raise the base to the number.
    ghost has_base_cause: { Self → Self → ℕ → Type 0 };

    /// A copy of the floors.
    ///
    /// Errors: `NoMemory`, and then nothing changes; `StoreFault`, only if an earlier call failed.
    /// Whatever it returns, an open after a crash can find nothing that it could not find before.
    fn load(&mut self, alloc: Global) -> Result<Floors, FloorFault>
        ensures floors { IfOk result (λ floors. is_honest self.new → floors ≡ content self.old) }
        ensures same { OnOk result (self.new ≡ self.old) }
        ensures unchanged { result ≡ Err FloorFault.NoMemory → self.new ≡ self.old }
        ensures usable { OnOk result (IsTrue (is_usable self.new)) }
        ensures kept { content self.new ≡ content self.old }
        ensures honest { is_honest self.new → is_honest self.old }
        ensures left { (found : FloorTable) → may_find self.new found → may_find self.old found }
        ensures once { failed self.new ≤ failed self.old + 1 }
        ensures fault { result ≡ Err FloorFault.StoreFault →
            HaveRisen (failed self.old) (failed self.new) }
        ensures cause { result ≡ Err FloorFault.StoreFault → is_usable self.old ≡ false }
        ensures named { result ≢ Err FloorFault.BadTable };

    /// Commits the raise of the key's floor to this number, which is at least 1 (`raised`): rows
    /// and base in one transaction.
    ///
    /// Once it has returned Ok, no crash undoes it. Whatever it returned on a usable store, a crash
    /// at its end leaves the floors from before or after it.
    ///
    /// Errors: `StoreFault` if the database refused the raise, or an earlier call failed;
    /// `NoMemory` if an allocation failed. A store that failed earlier returns only `StoreFault`,
    /// and an open after a crash can find nothing that it could not find before.
    fn raise(&mut self, alloc: Global, key: &Key, number: u32) -> Result<(), FloorFault>
        requires { 1 ≤ number }
        ensures honest { is_honest self.new → is_honest self.old }
        ensures committed { OnOk result (is_honest self.new →
            content self.new ≡ raised (content self.old) key.now number) }
        ensures durable { OnOk result (is_honest self.new → (found : FloorTable) →
            may_find self.new found → found ≡ raised (content self.old) key.now number) }
        ensures crash { is_honest self.new → IsTrue (is_usable self.old) → (found : FloorTable) →
            may_find self.new found → IsBeforeOrAfter (content self.old) key.now number found }
        ensures refused { is_usable self.old ≡ false → result ≡ Err FloorFault.StoreFault }
        ensures left { is_usable self.old ≡ false → (found : FloorTable) → may_find self.new found →
            may_find self.old found }
        ensures usable { OnOk result (IsTrue (is_usable self.new)) }
        ensures spent { result ≡ Err FloorFault.StoreFault → is_usable self.new ≡ false }
        ensures cause { result ≡ Err FloorFault.StoreFault → is_honest self.new →
            IsTrue (is_usable self.old) → has_cause self.old self.new key.now number }
        ensures counted { (result ≡ Err FloorFault.StoreFault)
            ⊎ (failed self.new ≡ failed self.old) }
        ensures once { failed self.new ≤ failed self.old + 1 }
        ensures fault { result ≡ Err FloorFault.StoreFault →
            HaveRisen (failed self.old) (failed self.new) }
        ensures named { result ≢ Err FloorFault.BadTable };

    /// Commits the raise of the base to this number, which is at least 1 (`with_base`), in one
    /// transaction. Rows stay; a base that is no less stays too.
    ///
    /// Once it has returned Ok, no crash undoes it. Whatever it returned on a usable store, a crash
    /// at its end leaves the floors from before or after it.
    ///
    /// Errors: `StoreFault` if the database refused the raise, or an earlier call failed;
    /// `NoMemory` if an allocation failed. A store that failed earlier returns only `StoreFault`,
    /// and an open after a crash can find nothing that it could not find before.
    fn raise_base(&mut self, number: u32) -> Result<(), FloorFault>
        requires { 1 ≤ number }
        ensures honest { is_honest self.new → is_honest self.old }
        ensures committed { OnOk result (is_honest self.new →
            content self.new ≡ with_base (content self.old) number) }
        ensures durable { OnOk result (is_honest self.new → (found : FloorTable) →
            may_find self.new found → found ≡ with_base (content self.old) number) }
        ensures crash { is_honest self.new → IsTrue (is_usable self.old) → (found : FloorTable) →
            may_find self.new found → IsBeforeOrAfterBase (content self.old) number found }
        ensures refused { is_usable self.old ≡ false → result ≡ Err FloorFault.StoreFault }
        ensures left { is_usable self.old ≡ false → (found : FloorTable) → may_find self.new found →
            may_find self.old found }
        ensures usable { OnOk result (IsTrue (is_usable self.new)) }
        ensures spent { result ≡ Err FloorFault.StoreFault → is_usable self.new ≡ false }
        ensures cause { result ≡ Err FloorFault.StoreFault → is_honest self.new →
            IsTrue (is_usable self.old) → has_base_cause self.old self.new number }
        ensures counted { (result ≡ Err FloorFault.StoreFault)
            ⊎ (failed self.new ≡ failed self.old) }
        ensures once { failed self.new ≤ failed self.old + 1 }
        ensures fault { result ≡ Err FloorFault.StoreFault →
            HaveRisen (failed self.old) (failed self.new) }
        ensures named { result ≢ Err FloorFault.BadTable };

    /// How many calls have returned `StoreFault`. At 18446744073709551615 it stays.
    fn failures(&self) -> u64
        ensures { result ≡ failed self.now };
}
