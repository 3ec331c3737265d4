//! An HTCP CLR arrives (RFC 2756, "CLR"), and purges.
ghost use Rattle.std.specs.Prelude.{◌≡◌, ◌≤◌, ℕ, List, Option, Some, None, option_map, OnOk};
ghost use Rattle.std.specs.Prelude.{OnErr, false, Err};
ghost use Rattle.node_rules.specs.State as state;
ghost use Rattle.node_rules.specs.Datagrams as datagrams;
ghost use Rattle.node_rules.specs.Relation.{purge_by_line, raise_by_lines, raise_meant};
ghost use Rattle.node_rules.specs.declared.raising.Raise.TheVariants.{Floor};
ghost use Rattle.object_store.specs.Listed.{copy_of, without_all_below};
ghost use Rattle.object_store.specs.Held.{is_older_than, with_copies};
ghost use Rattle.floor_rules.specs.Floors.{new_base, raised};
ghost use Rattle.node_rules.specs.declared.state.NodeState.{NodeState};
ghost use Rattle.values_keys.specs.KeyOf.{GivesKeys};
ghost use Rattle.node_core.specs.View.{IsSameNode, IsSameMember, setting_of};
ghost use Rattle.floor_rules.specs.Store.{HaveRisen};
ghost use Rattle.node_core.specs.Closing.{step_fault_of as answer_to_fault, KeepsStore};
ghost use Rattle.node_core.specs.Closing.{FailsWithCause};
ghost use Rattle.node_core.specs.Leads.{Leads, MayClose};

use crate::Node;
use crate::questions::key_of_text;
use crate::replies::sends_if;
use floor_rules::{FloorFault, FloorStore, Floors};
use htcp_wire::{CLR, HeaderKind, HtcpFault, NOT_ALLOWED, Specifier, number_in};
use node_messages::{clr_answer, is_known, overall_answer};
use node_rules::{Reply, StepFault};
use node_waiting::PendingList;
use object_store::Store;
use roster::{Address, Udp};
use std::alloc::{AllocError, Global};
use url_key::Key;

/// The response to a CLR that is not allowed. Allocates nothing.
pub(crate) fn refused<T>(alloc: Global, from: Address, trans: u32, desired: bool) -> Reply<T>
    ensures { (s : NodeState T) →
        datagrams.clr_refused s from trans desired ≡ state.replies s result }
{
    sends_if(
        alloc,
        desired,
        overall_answer(from, trans, CLR, NOT_ALLOWED),
    )
}

/// Raises the key's floor in memory to this number at least. Where the base rises, all copies with
/// a lesser stamp than the new base go. If an allocation fails, nothing changes.
fn raise_in_memory<T: Drop>(
    alloc: Global,
    floors: &mut Floors,
    copies: &mut Store<T>,
    key: &Key,
    number: u32,
) -> Result<(), AllocError>
    ensures floors { OnOk result (floors.new ≡ raised floors.old key.now number) }
    ensures copies { OnOk result (copies.new ≡ with_copies copies.old
        (without_all_below (new_base floors.old key.now number) copies.old.copies)) }
    ensures err { OnErr result ((floors.new ≡ floors.old) × (copies.new ≡ copies.old)) }
{
    let base = floors.new_base(key, number);
    if base == 0 {
        return floors.raise(alloc, key, number);
    }
    copies.clear_all_below(base)?;
    floors.rebase(alloc, base);
    Ok(())
}

/// The fault of a step whose store gave this fault. Any other fault than `NoMemory` tells no more
/// than that the store failed.
pub(crate) fn step_fault_of(fault: FloorFault) -> StepFault
    ensures { result ≡ answer_to_fault fault }
{
    match fault {
        FloorFault::NoMemory => StepFault::NoMemory,
        FloorFault::StoreFault | FloorFault::BadTable => StepFault::StoreFault,
    }
}

impl<T: Copy + Drop, S: FloorStore> Node<T, S> {
    /// A CLR arrives.
    pub(crate) fn htcp_clr(
        &mut self,
        from: Address,
        trans: u32,
        desired: bool,
        spec: &Specifier,
    ) -> Result<Reply<T>, StepFault>
        requires { self.old.state.closed ≡ false }
        ensures same { IsSameMember self.old self.new }
        ensures store { KeepsStore (S.is_honest self.new.store)
            (S.may_find self.new.store) self.old self.new result }
        ensures cause { FailsWithCause (S.is_honest self.new.store)
            (HaveRisen (S.failed self.old.store) (S.failed self.new.store)) result }
        ensures leads { (key_of : List ℕ → Option (List ℕ)) → GivesKeys key_of →
            MayClose (datagrams.htcp_clr (setting_of self.old key_of)
            self.old.state from trans desired spec.now) self.old.state
            (raise_meant (setting_of self.old key_of) from trans spec.now) result self.new.state }
    {
        let key = key_of_text(self.alloc, spec.uri.as_slice())?;
        let headers = spec.request_headers.as_slice();
        let number = number_in(headers, HeaderKind::PurgeNumber);
        let base = number_in(headers, HeaderKind::PurgeBase);
        self.clr_by_lines(from, trans, desired, key.as_ref(), number, base)
    }

    /// A CLR arrives with what its number line and its base line tell.
    #[tactic(auto, unfolding(node_rules::specs::Datagrams::clr_by_lines), using(crate::proofs::Outcomes::leads_may_close, crate::proofs::Outcomes::without_fault))]
    fn clr_by_lines(
        &mut self,
        from: Address,
        trans: u32,
        desired: bool,
        key: Option<&Key>,
        number: Result<Option<u32>, HtcpFault>,
        base: Result<Option<u32>, HtcpFault>,
    ) -> Result<Reply<T>, StepFault>
        requires { self.old.state.closed ≡ false }
        ensures same { IsSameMember self.old self.new }
        ensures store { KeepsStore (S.is_honest self.new.store)
            (S.may_find self.new.store) self.old self.new result }
        ensures cause { FailsWithCause (S.is_honest self.new.store)
            (HaveRisen (S.failed self.old.store) (S.failed self.new.store)) result }
        ensures leads { (key_of : List ℕ → Option (List ℕ)) →
            let url = option_map (λ k. k.now) key.entry in
            MayClose (datagrams.clr_by_lines (setting_of self.old key_of)
            self.old.state from trans desired url number base) self.old.state
            (raise_by_lines (setting_of self.old key_of) from trans url number base)
            result self.new.state }
    {
        match base {
            Ok(None) => self.clr_by_line(from, trans, desired, key, number),
            Ok(Some(base)) => self.base_clr(from, trans, desired, base, number),
            Err(_) => Ok(refused(self.alloc, from, trans, desired)),
        }
    }

    /// A CLR without a base line arrives, with what its number line tells.
    #[tactic(auto, unfolding(node_rules::specs::Datagrams::clr_by_line), using(crate::proofs::Outcomes::leads_may_close, crate::proofs::Outcomes::without_fault))]
    fn clr_by_line(
        &mut self,
        from: Address,
        trans: u32,
        desired: bool,
        key: Option<&Key>,
        number: Result<Option<u32>, HtcpFault>,
    ) -> Result<Reply<T>, StepFault>
        requires { self.old.state.closed ≡ false }
        ensures same { IsSameMember self.old self.new }
        ensures store { KeepsStore (S.is_honest self.new.store)
            (S.may_find self.new.store) self.old self.new result }
        ensures cause { FailsWithCause (S.is_honest self.new.store)
            (HaveRisen (S.failed self.old.store) (S.failed self.new.store)) result }
        ensures leads { (key_of : List ℕ → Option (List ℕ)) →
            let url = option_map (λ k. k.now) key.entry in
            MayClose (datagrams.clr_by_line (setting_of self.old key_of)
            self.old.state from trans desired url number) self.old.state
            (purge_by_line (setting_of self.old key_of) from trans url number)
            result self.new.state }
    {
        match number {
            Ok(None) => self.plain_clr(from, trans, desired, key),
            Ok(Some(number)) => self.numbered_clr(from, trans, desired, key, number),
            Err(_) => Ok(refused(self.alloc, from, trans, desired)),
        }
    }

    /// A CLR without a number arrives: the copy goes whatever its stamp, and floors stay.
    #[tactic(auto, unfolding(node_rules::specs::Datagrams::plain_clr))]
    fn plain_clr(
        &mut self,
        from: Address,
        trans: u32,
        desired: bool,
        key: Option<&Key>,
    ) -> Result<Reply<T>, StepFault>
        ensures same { IsSameNode self.old self.new }
        ensures leads { (key_of : List ℕ → Option (List ℕ)) →
            Leads (datagrams.plain_clr (setting_of self.old key_of)
            self.old.state from trans desired (option_map (λ k. k.now) key.entry))
            self.old.state result self.new.state }
    {
        if !is_known(&self.roster, self.id, Udp::Htcp, from) && !self.roster.is_master(from) {
            return Ok(refused(self.alloc, from, trans, desired));
        }
        let held = match key {
            Some(key) => self.copies.peek(key).is_some(),
            None => false,
        };
        if let Some(key) = key {
            self.copies.remove(key);
        }
        Ok(sends_if(self.alloc, desired, clr_answer(from, trans, held)))
    }

    /// A CLR with a number arrives. A good one comes from the master, for a URI that has a key, and
    /// its number is its TRANS-ID and at least 1. Any other is refused.
    #[tactic(auto, unfolding(node_rules::specs::Datagrams::raising_clr))]
    fn numbered_clr(
        &mut self,
        from: Address,
        trans: u32,
        desired: bool,
        key: Option<&Key>,
        number: u32,
    ) -> Result<Reply<T>, StepFault>
        requires { self.old.state.closed ≡ false }
        ensures same { IsSameMember self.old self.new }
        ensures store { KeepsStore (S.is_honest self.new.store)
            (S.may_find self.new.store) self.old self.new result }
        ensures cause { FailsWithCause (S.is_honest self.new.store)
            (HaveRisen (S.failed self.old.store) (S.failed self.new.store)) result }
        ensures leads { (key_of : List ℕ → Option (List ℕ)) →
            let purge = datagrams.purge_of (setting_of self.old key_of) from trans
            (option_map (λ k. k.now) key.entry) number in
            MayClose (datagrams.raising_clr self.old.state from trans desired purge)
            self.old.state purge result self.new.state }
    {
        match key {
            Some(key) if self.roster.is_master(from) && number == trans && number >= 1 => {
                self.purge(from, trans, desired, key, number)
            }
            _ => Ok(refused(self.alloc, from, trans, desired)),
        }
    }

    /// Whether a copy of the key with a lesser stamp is held.
    fn holds_below(&self, key: &Key, number: u32) -> bool
        ensures { result ≡ is_older_than number (copy_of key.now self.now.state.copies) }
    {
        match self.copies.peek(key) {
            Some(copy) => copy.stamp < number,
            None => false,
        }
    }

    /// Purges a key. In this order: where the base is to rise, all copies below the new base go;
    /// the floor rises in memory; the store commits it; an older copy of the key goes; and the
    /// response is made. If the store fails, the node closes: no request is pending then, and the
    /// next block and all copies that are left stay as they were.
    #[tactic(auto, unfolding(node_rules::specs::Datagrams::purge))]
    fn purge(
        &mut self,
        from: Address,
        trans: u32,
        desired: bool,
        key: &Key,
        number: u32,
    ) -> Result<Reply<T>, StepFault>
        requires open { self.old.state.closed ≡ false }
        requires number { 1 ≤ number }
        ensures same { IsSameMember self.old self.new }
        ensures store { KeepsStore (S.is_honest self.new.store)
            (S.may_find self.new.store) self.old self.new result }
        ensures cause { FailsWithCause (S.is_honest self.new.store)
            (HaveRisen (S.failed self.old.store) (S.failed self.new.store)) result }
        ensures leads { MayClose (datagrams.purge self.old.state from trans desired key.now number)
            self.old.state (Some (Floor key.now number)) result self.new.state }
    {
        let dropped = self.holds_below(key, number.max(self.floors.new_base(key, number)));
        raise_in_memory(self.alloc, &mut self.floors, &mut self.copies, key, number)?;
        match self.store.raise(self.alloc, key, number) {
            Ok(()) => {
                self.copies.clear_below(key, number);
                Ok(sends_if(self.alloc, desired, clr_answer(from, trans, dropped)))
            }
            Err(fault) => {
                self.closed = true;
                self.pending = PendingList::new(self.alloc);
                Err(step_fault_of(fault))
            }
        }
    }
}
