//! Admissions: a CLR arrives whose header tells a base.
ghost use Rattle.std.specs.Prelude.{◌≡◌, ◌≤◌, ℕ, List, Option, Some, false};
ghost use Rattle.node_rules.specs.Datagrams as datagrams;
ghost use Rattle.node_rules.specs.declared.raising.Raise.TheVariants.{Base};
ghost use Rattle.node_core.specs.View.{IsSameMember, setting_of};
ghost use Rattle.floor_rules.specs.Store.{HaveRisen};
ghost use Rattle.node_core.specs.Closing.{KeepsStore, FailsWithCause};
ghost use Rattle.node_core.specs.Leads.{MayClose};

use crate::Node;
use crate::purges::{refused, step_fault_of};
use crate::replies::sends_if;
use floor_rules::FloorStore;
use htcp_wire::HtcpFault;
use node_messages::clr_answer;
use node_rules::{Reply, StepFault};
use node_waiting::PendingList;
use roster::Address;

impl<T: Copy + Drop, S: FloorStore> Node<T, S> {
    /// A CLR with a base line arrives. A good one comes from the master, its number is its TRANS-ID
    /// and at least 1, and it has no number line. Any other is refused.
    #[tactic(auto, unfolding(node_rules::specs::Datagrams::raising_clr))]
    pub(crate) fn base_clr(
        &mut self,
        from: Address,
        trans: u32,
        desired: bool,
        base: u32,
        number: Result<Option<u32>, HtcpFault>,
    ) -> Result<Reply<T>, StepFault>
        requires { self.old.state.closed ≡ false }
        ensures same { IsSameMember self.old self.new }
        ensures store { KeepsStore (S.is_honest self.new.store)
            (S.may_find self.new.store) self.old self.new result }
        ensures cause { FailsWithCause (S.is_honest self.new.store)
            (HaveRisen (S.failed self.old.store) (S.failed self.new.store)) result }
        ensures leads { (key_of : List ℕ → Option (List ℕ)) →
            let raise = datagrams.base_alone (setting_of self.old key_of) from trans base number in
            MayClose (datagrams.raising_clr self.old.state from trans desired raise)
            self.old.state raise result self.new.state }
    {
        match number {
            Ok(None) if self.roster.is_master(from) && base == trans && base >= 1 => {
                self.rebase(from, trans, desired, base)
            }
            _ => Ok(refused(self.alloc, from, trans, desired)),
        }
    }

    /// Admits the node: the base rises to this number at least. In this order: all copies with a
    /// lesser stamp go; the base rises in memory; the store commits it; and the response is made.
    /// If the store fails, the node closes: no request is pending then, and the next block and all
    /// copies that are left stay as they were.
    #[tactic(auto, unfolding(node_rules::specs::Datagrams::rebase))]
    fn rebase(
        &mut self,
        from: Address,
        trans: u32,
        desired: bool,
        number: u32,
    ) -> Result<Reply<T>, StepFault>
        requires open { self.old.state.closed ≡ false }
        requires number { 1 ≤ number }
        ensures same { IsSameMember self.old self.new }
        ensures store { KeepsStore (S.is_honest self.new.store)
            (S.may_find self.new.store) self.old self.new result }
        ensures cause { FailsWithCause (S.is_honest self.new.store)
            (HaveRisen (S.failed self.old.store) (S.failed self.new.store)) result }
        ensures leads { MayClose (datagrams.rebase self.old.state from trans desired number)
            self.old.state (Some (Base number)) result self.new.state }
    {
        let gone = self.copies.clear_all_below(number)?;
        self.floors.raise_base(number);
        match self.store.raise_base(number) {
            Ok(()) => Ok(sends_if(self.alloc, desired, clr_answer(from, trans, gone > 0))),
            Err(fault) => {
                self.closed = true;
                self.pending = PendingList::new(self.alloc);
                Err(step_fault_of(fault))
            }
        }
    }
}
