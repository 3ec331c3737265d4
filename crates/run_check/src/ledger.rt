//! The master's purges, and the replay of its calls.
ghost use Rattle.std.specs.Prelude.{◌≡◌, ◌↔◌, ◌≤◌, true, false, IsTrue, IfOk, OnOk};
ghost use Rattle.purge_rules.specs.declared.calls.MasterCall.TheVariants as calls;
ghost use Rattle.purge_rules.specs.Needed.{nodes_of, needed as needed_of};
ghost use Rattle.purge_rules.specs.Purges.{no_purges, marks_at};
ghost use Rattle.purge_rules.specs.Calls.{called, opened, is_written as is_written_by};
ghost use Rattle.purge_rules.specs.Calls.{is_news as is_news_of, is_news_by, is_due as is_due_call};
ghost use Rattle.purge_rules.specs.Calls.{counted};
ghost use Rattle.run_check.specs.Held.{master_of, IsAnswered, IsWanting, IsFailing, IsTaken};

use purge_master::MasterEntry;
use purge_rules::{
    MasterAnswer, MasterCall, MasterFault, MemberSet, Nodes, Purges, is_acknowledging,
};
use roster::Roster;
use std::alloc::{AllocError, Global};
use url_key::Key;

/// What a call of the master returns.
type Outcome = Result<MasterAnswer, MasterFault>;

/// The master's state: the nodes of its roster, its purges, and whether it is closed.
#[derive(Drop)]
pub(crate) struct Ledger {
    nodes: Nodes,
    purges: Purges,
    closed: bool,
}

/// Whether a call asks for what is due.
fn is_due(call: &MasterCall) -> bool
    ensures { result ≡ is_due_call call.now }
{
    matches!(call, MasterCall::Due)
}

/// Whether the acknowledgement of a member changes what is stored, of a number that needs these
/// members and has these marks if it is pending: it marks a member that was not marked, or makes
/// the number done.
fn is_news(needs: MemberSet, member: u8, marks: Option<MemberSet>) -> bool
    ensures { result ≡ is_news_of needs member marks }
{
    match marks {
        Some(marked) => !marked.has(member) || needs.are_in(marked),
        None => false,
    }
}

/// Whether two lists of what is due are the same.
fn same_due(one: &[(u32, u8)], other: &[(u32, u8)]) -> bool
    ensures { IsTrue result ↔ (one.now ≡ other.now) }
{
    one == other
}

/// Whether two answers are the same.
fn same_answer(one: &MasterAnswer, other: &MasterAnswer) -> bool
    ensures { IsTrue result ↔ (one.now ≡ other.now) }
{
    match (one, other) {
        (MasterAnswer::Issue(one), MasterAnswer::Issue(other)) => one == other,
        (MasterAnswer::Admit(one), MasterAnswer::Admit(other)) => one == other,
        (MasterAnswer::Acknowledge(one), MasterAnswer::Acknowledge(other)) => one == other,
        (MasterAnswer::Due(one), MasterAnswer::Due(other)) => {
            same_due(one.as_slice(), other.as_slice())
        }
        (MasterAnswer::Status(one), MasterAnswer::Status(other)) => one == other,
        _ => false,
    }
}

/// Whether two outcomes of a call are the same answer or the same fault.
fn same_outcome(one: &Outcome, other: &Outcome) -> bool
    ensures { IsTrue result ↔ (one.now ≡ other.now) }
{
    match (one, other) {
        (Ok(one), Ok(other)) => same_answer(one, other),
        (Err(one), Err(other)) => one == other,
        _ => false,
    }
}

impl Ledger {
    /// The master at the start: nothing was issued. Allocates nothing.
    pub(crate) fn new(alloc: Global, roster: &Roster) -> Ledger
        ensures nodes { result.nodes ≡ nodes_of roster.now }
        ensures state { master_of result ≡ opened no_purges }
    {
        Ledger {
            nodes: Nodes::of(roster),
            purges: Purges::new(alloc),
            closed: false,
        }
    }

    /// The purges and admissions.
    pub(crate) fn purges(&self) -> &Purges
        ensures { result.now ≡ self.now.purges }
    {
        &self.purges
    }

    /// Whether a member's response to the CLR with this number, with this code, changes what is
    /// stored.
    fn is_counted(&self, member: u8, number: u32, code: u8) -> bool
        ensures { result ≡ is_news_by
            (needed_of self.now.nodes self.now.purges.admissions number) self.now.purges member
            number code }
    {
        let needs = self.purges.needed(&self.nodes, number);
        is_acknowledging(code)
            && needs.has(member)
            && is_news(needs, member, self.purges.marks(number))
    }

    /// Whether a call changes what is stored.
    fn is_written(&self, call: &MasterCall) -> bool
        ensures { result ≡ is_written_by self.now.nodes self.now.purges call.now }
    {
        match call {
            MasterCall::Issue(_) => self.purges.issue_fault().is_none(),
            MasterCall::Admit(id) => self.purges.admit_fault(&self.nodes, *id).is_none(),
            MasterCall::Acknowledge {
                member,
                trans,
                code,
            } => self.is_counted(*member, *trans, *code),
            MasterCall::Due | MasterCall::Status(_) => false,
        }
    }

    /// Issues a purge of the key, or refuses.
    fn issue(&mut self, alloc: Global, key: &Key) -> Result<Outcome, AllocError>
        requires { self.old.closed ≡ false }
        ensures called { IfOk result (λ outcome.
            called self.old.nodes (master_of self.old) (calls.Issue key.now)
            ≡ record { state = master_of self.new; outcome = outcome }) }
        ensures nodes { OnOk result (self.new.nodes ≡ self.old.nodes) }
    {
        match self.purges.issue_fault() {
            Some(fault) => Ok(Err(fault)),
            None => {
                let number = self.purges.last() + 1;
                self.purges.add(alloc, number, key)?;
                Ok(Ok(MasterAnswer::Issue(number)))
            }
        }
    }

    /// Admits a node, or refuses.
    fn admit(&mut self, id: u8) -> Result<Outcome, AllocError>
        requires { self.old.closed ≡ false }
        ensures called { IfOk result (λ outcome.
            called self.old.nodes (master_of self.old) (calls.Admit id)
            ≡ record { state = master_of self.new; outcome = outcome }) }
        ensures nodes { OnOk result (self.new.nodes ≡ self.old.nodes) }
    {
        match self.purges.admit_fault(&self.nodes, id) {
            Some(fault) => Ok(Err(fault)),
            None => {
                let number = self.purges.last() + 1;
                self.purges.admit(number, id)?;
                Ok(Ok(MasterAnswer::Admit(number)))
            }
        }
    }

    /// One of these members, which the number needs, has acknowledged it. Returns the number if it
    /// is now done.
    fn count(&mut self, needs: MemberSet, member: u8, number: u32) -> Option<u32>
        requires { (1 ≤ member) × (member ≤ 16) }
        ensures counted { record { purges = self.new.purges; done = result }
            ≡ counted needs self.old.purges member number (marks_at self.old.purges number) }
        ensures nodes { self.new.nodes ≡ self.old.nodes }
        ensures closed { self.new.closed ≡ self.old.closed }
    {
        let mut marked = self.purges.marks(number)?;
        marked.insert(member);
        if needs.are_in(marked) {
            self.purges.finish(number);
            Some(number)
        } else {
            self.purges.mark(number, member);
            None
        }
    }

    /// A member responds to a CLR; only a code that acknowledges counts.
    fn acknowledge(&mut self, member: u8, trans: u32, code: u8) -> Outcome
        requires { self.old.closed ≡ false }
        ensures called { called self.old.nodes (master_of self.old)
            (calls.Acknowledge member trans code)
            ≡ record { state = master_of self.new; outcome = result } }
        ensures nodes { self.new.nodes ≡ self.old.nodes }
    {
        let needs = self.purges.needed(&self.nodes, trans);
        if is_acknowledging(code) && needs.has(member) {
            return Ok(MasterAnswer::Acknowledge(self.count(needs, member, trans)));
        }
        Ok(MasterAnswer::Acknowledge(None))
    }

    /// Returns the status of this number.
    fn status(&self, number: u32) -> Outcome
        ensures { called self.now.nodes (master_of self.now) (calls.Status number)
            ≡ record { state = master_of self.now; outcome = result } }
    {
        Ok(MasterAnswer::Status(self.purges.status(&self.nodes, number)))
    }

    /// An open master takes a call.
    fn open_call(&mut self, alloc: Global, call: &MasterCall) -> Result<Outcome, AllocError>
        requires { self.old.closed ≡ false }
        ensures called { IfOk result (λ outcome.
            called self.old.nodes (master_of self.old) call.now
            ≡ record { state = master_of self.new; outcome = outcome }) }
        ensures nodes { OnOk result (self.new.nodes ≡ self.old.nodes) }
    {
        match call {
            MasterCall::Issue(key) => self.issue(alloc, key),
            MasterCall::Admit(id) => self.admit(*id),
            MasterCall::Acknowledge {
                member,
                trans,
                code,
            } => Ok(self.acknowledge(*member, *trans, *code)),
            MasterCall::Due => Ok(Ok(MasterAnswer::Due(self.purges.due(alloc, &self.nodes)?))),
            MasterCall::Status(number) => Ok(self.status(*number)),
        }
    }

    /// A closed master takes a call: it reports a status, and refuses all else.
    fn closed_call(&self, call: &MasterCall) -> Outcome
        requires { self.now.closed ≡ true }
        ensures { called self.now.nodes (master_of self.now) call.now
            ≡ record { state = master_of self.now; outcome = result } }
    {
        match call {
            MasterCall::Status(number) => self.status(*number),
            _ => Err(MasterFault::Closed),
        }
    }

    /// Takes a call. Returns whether its outcome is this one.
    fn answers(
        &mut self,
        alloc: Global,
        call: &MasterCall,
        answer: &Outcome,
    ) -> Result<bool, AllocError>
        ensures called { IfOk result (IsAnswered
            (called self.old.nodes (master_of self.old) call.now) answer.now
            (master_of self.new)) }
        ensures nodes { OnOk result (self.new.nodes ≡ self.old.nodes) }
    {
        let outcome = if self.closed {
            self.closed_call(call)
        } else {
            self.open_call(alloc, call)?
        };
        Ok(same_outcome(&outcome, answer))
    }

    /// A call lacked memory. `is_closed` says whether the master's next entries tell that it is
    /// closed. Returns whether the call may lack memory.
    fn wants_memory(&mut self, call: &MasterCall, is_closed: bool) -> bool
        ensures wants { IsWanting self.old.nodes (master_of self.old) call.now is_closed
            (master_of self.new) result }
        ensures nodes { self.new.nodes ≡ self.old.nodes }
    {
        let is_written = self.is_written(call);
        if self.closed || (!is_written && !is_due(call)) {
            return false;
        }
        self.closed = is_written && is_closed;
        true
    }

    /// The store failed at a call, which closes the master. Returns whether the call may reach the
    /// store.
    fn fails(&mut self, call: &MasterCall) -> bool
        ensures fails { IsFailing self.old.nodes (master_of self.old) call.now
            (master_of self.new) result }
        ensures nodes { self.new.nodes ≡ self.old.nodes }
    {
        if self.closed || !self.is_written(call) {
            return false;
        }
        self.closed = true;
        true
    }

    /// Takes the call of an entry. Returns whether it may have the entry's answer. `is_closed` says
    /// whether the next entries tell that the master is closed after it.
    pub(crate) fn take(
        &mut self,
        alloc: Global,
        entry: &MasterEntry,
        is_closed: bool,
    ) -> Result<bool, AllocError>
        ensures taken { IfOk result (IsTaken self.old.nodes
            (master_of self.old) entry.now is_closed (master_of self.new)) }
        ensures nodes { OnOk result (self.new.nodes ≡ self.old.nodes) }
    {
        match &entry.answer {
            Err(MasterFault::NoMemory) => Ok(self.wants_memory(&entry.call, is_closed)),
            Err(MasterFault::StoreFault) => Ok(self.fails(&entry.call)),
            answer => self.answers(alloc, &entry.call, answer),
        }
    }
}
