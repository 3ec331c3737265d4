//! A datagram arrives (`specs/Datagrams` of `node_rules`).
ghost use Rattle.std.specs.Prelude.{◌≡◌, ℕ, List, Option, None, false};
ghost use Rattle.icp_wire.specs.declared.message.IcpOp.TheVariants as ops;
ghost use Rattle.node_rules.specs.Texts.{HasOpcode, IsSendable};
ghost use Rattle.node_rules.specs.Messages as messages;
ghost use Rattle.node_rules.specs.Datagrams as datagrams;
ghost use Rattle.node_rules.specs.Relation.{raise_in_content, raise_in_message};
ghost use Rattle.values_keys.specs.KeyOf.{GivesKeys};
ghost use Rattle.node_core.specs.View.{IsSameNode, IsSameMember, setting_of};
ghost use Rattle.floor_rules.specs.Store.{HaveRisen};
ghost use Rattle.node_core.specs.Closing.{KeepsStore, FailsWithCause};
ghost use Rattle.node_core.specs.Leads.{Leads, MayClose};

use crate::Node;
use crate::questions::{SaidWithStamp, hit_said};
use crate::replies::{quiet, sends_if};
use floor_rules::FloorStore;
use htcp_wire::{Content, NOT_IMPLEMENTED, TST};
use icp_wire::{Icp, IcpOp};
use node_messages::{nop_answer, overall_answer};
use node_rules::{Message, Received, Reply, StepFault};
use peer_chooser::Said;
use roster::Address;

impl<T: Copy + Drop, S: FloorStore> Node<T, S> {
    /// A datagram arrives.
    #[tactic(auto, unfolding(node_rules::specs::Datagrams::datagram), using(crate::proofs::Outcomes::leads_may_close, crate::proofs::Outcomes::without_fault, crate::proofs::Outcomes::without_fault_by))]
    pub(crate) fn datagram(
        &mut self,
        from: Address,
        message: Received,
        now: u64,
        mark: T,
    ) -> Result<Reply<T>, StepFault>
        requires { self.old.state.closed ≡ false }
        ensures same { IsSameMember self.old self.new }
        ensures store { KeepsStore (S.is_honest self.new.store)
            (S.may_find self.new.store) self.old self.new result }
        ensures cause { FailsWithCause (S.is_honest self.new.store)
            (HaveRisen (S.failed self.old.store) (S.failed self.new.store)) result }
        ensures leads { (key_of : List ℕ → Option (List ℕ)) → GivesKeys key_of →
            MayClose (datagrams.datagram (setting_of self.old key_of)
            self.old.state from now mark message) self.old.state
            (raise_in_message (setting_of self.old key_of) from message) result self.new.state }
    {
        match message.into_message() {
            Message::Icp(message) => self.icp(from, message, now, mark),
            Message::Htcp(message) => self.htcp(from, message.trans, message.content, now, mark),
        }
    }

    /// An ICP message arrives: a QUERY, or an answer to a round.
    #[tactic(auto, unfolding(node_rules::specs::Datagrams::icp_comes))]
    fn icp(&mut self, from: Address, message: Icp, now: u64, mark: T) -> Result<Reply<T>, StepFault>
        requires answerable { IsSendable (messages.icp ops.Miss message.number message.url) }
        ensures same { IsSameNode self.old self.new }
        ensures leads { (key_of : List ℕ → Option (List ℕ)) → GivesKeys key_of →
            Leads (datagrams.icp_comes (setting_of self.old key_of)
            self.old.state from message now mark message.op)
            self.old.state result self.new.state }
    {
        match message.op {
            IcpOp::Query => self.icp_query(from, message, now),
            IcpOp::Hit
            | IcpOp::Miss
            | IcpOp::Error
            | IcpOp::MissNoFetch
            | IcpOp::Denied
            | IcpOp::HitObj => self.icp_told(from, &message, now, mark),
        }
    }

    /// An HTCP message comes.
    #[tactic(auto, unfolding(node_rules::specs::Datagrams::htcp_comes), using(crate::proofs::Outcomes::leads_may_close, crate::proofs::Outcomes::without_fault, crate::proofs::Outcomes::without_fault_by))]
    fn htcp(
        &mut self,
        from: Address,
        trans: u32,
        content: Content,
        now: u64,
        mark: T,
    ) -> Result<Reply<T>, StepFault>
        requires open { self.old.state.closed ≡ false }
        requires opcode { HasOpcode content }
        ensures same { IsSameMember self.old self.new }
        ensures store { KeepsStore (S.is_honest self.new.store)
            (S.may_find self.new.store) self.old self.new result }
        ensures cause { FailsWithCause (S.is_honest self.new.store)
            (HaveRisen (S.failed self.old.store) (S.failed self.new.store)) result }
        ensures leads { (key_of : List ℕ → Option (List ℕ)) → GivesKeys key_of →
            MayClose (datagrams.htcp_comes
            (setting_of self.old key_of) self.old.state from trans now mark content)
            self.old.state (raise_in_content (setting_of self.old key_of) from trans content)
            result self.new.state }
    {
        match content {
            Content::NopAsk { desired } => {
                Ok(sends_if(self.alloc, desired, nop_answer(from, trans)))
            }
            Content::TstAsk { desired, spec } => self.htcp_tst(from, trans, desired, &spec, now),
            Content::TstHit { detail } => {
                let heard = hit_said(detail.cache_headers.as_slice());
                self.htcp_told(from, trans, heard, now, mark)
            }
            Content::TstMiss { .. } => {
                self.htcp_told(from, trans, SaidWithStamp::of(Said::Miss), now, mark)
            }
            Content::ClrAsk { desired, spec, .. } => self.htcp_clr(from, trans, desired, &spec),
            Content::Other { opcode, desired } => {
                let answer = overall_answer(from, trans, opcode, NOT_IMPLEMENTED);
                Ok(sends_if(self.alloc, desired, answer))
            }
            Content::Overall { opcode, .. } | Content::OtherAnswer { opcode, .. } => {
                self.tst_refused(from, trans, opcode, now, mark)
            }
            Content::NopAnswer | Content::ClrAnswer { .. } => Ok(quiet(self.alloc)),
        }
    }

    /// An HTCP response arrives that is none of TST's own. If its opcode is TST, the peer serves
    /// nothing.
    #[tactic(auto, unfolding(node_rules::specs::Datagrams::tst_refused))]
    fn tst_refused(
        &mut self,
        from: Address,
        trans: u32,
        opcode: u8,
        now: u64,
        mark: T,
    ) -> Result<Reply<T>, StepFault>
        ensures same { IsSameNode self.old self.new }
        ensures leads { (key_of : List ℕ → Option (List ℕ)) →
            Leads (datagrams.tst_refused (setting_of self.old key_of)
            self.old.state from trans opcode now mark) self.old.state result self.new.state }
    {
        if opcode == TST {
            self.htcp_told(from, trans, SaidWithStamp::of(Said::NoFetch), now, mark)
        } else {
            Ok(quiet(self.alloc))
        }
    }
}
