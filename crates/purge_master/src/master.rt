ghost use Rattle.std.specs.Prelude.{◌≡◌, Ok, IfOk, IfSome};
ghost use Rattle.htcp_wire.specs.Written.{Fits};
ghost use Rattle.purge_rules.specs.declared.calls.MasterCall.TheVariants as calls;
ghost use Rattle.purge_rules.specs.declared.calls.MasterAnswer.TheVariants as answers;
ghost use Rattle.purge_rules.specs.Purges.{admission_at};
ghost use Rattle.purge_rules.specs.Calls.{Calls, status_of};
ghost use Rattle.purge_rules.specs.Clear.{message_of, message_of_admission};
ghost use Rattle.purge_master.specs.View.{issue_outcome, admit_outcome, acknowledge_outcome};
ghost use Rattle.purge_master.specs.View.{due_outcome, fault_of as answer_to_fault};
ghost use Rattle.purge_master.specs.Store.{IsCalled, witness};

use crate::news::{News, news_of};
use htcp_wire::Htcp;
use purge_rules::{
    MasterFault, Nodes, PurgeFault, PurgeStore, Purges, Status, base_clear, clear, is_acknowledging,
};
use std::alloc::{AllocError, Global};
use std::marker::Model;
use url_key::Key;
use values_plain::Listed;

/// A master of purges, over a store of them.
///
/// A contract sees its nodes, its state (the purges, and whether it is closed) and its store.
/// While it is open, no call of its store has failed, and an honest store has committed its purges.
pub struct Master<S: PurgeStore> {
    pub(crate) alloc: Global,
    // the nodes of the roster
    pub(crate) nodes: Nodes,
    // the copy of what the store has committed
    pub(crate) purges: Purges,
    // a write failed in the store
    pub(crate) closed: bool,
    pub(crate) store: S,
}

impl<S: PurgeStore + Drop> Drop for Master<S> {
    fn drop(self) {
        let Master {
            alloc: _,
            nodes: _,
            purges: _,
            closed: _,
            store: _,
        } = self;
    }
}

impl<S: PurgeStore> Master<S> {
    /// The store alone.
    pub(crate) fn store_alone(self) -> S
        ensures { result ≡ self.store }
    {
        let Master {
            alloc: _,
            nodes: _,
            purges: _,
            closed: _,
            store,
        } = self;
        store
    }
}

impl<S: PurgeStore> Model for Master<S> {
    ghost use Rattle.purge_master.specs.View.{MasterView, IsTied};
    ghost use Rattle.std.specs.Coded.{codes};

    ghost Value = { MasterView S };

    ghost coded = { Prim.hlevel (codes) };

    ghost view = { λ m. record {
      nodes = m.nodes;
      state = record { purges = m.purges; closed = m.closed };
      store = m.store;
    } };

    ghost invariant = { λ m. IsTied m.closed m.purges (S.is_usable m.store) (S.is_honest m.store)
        (S.content m.store) };
}

/// The fault of a call whose store returned this one. A store never returns `BadTable` to a write.
fn fault_of(fault: PurgeFault) -> MasterFault
    ensures { result ≡ answer_to_fault fault }
{
    match fault {
        PurgeFault::NoMemory => MasterFault::NoMemory,
        PurgeFault::StoreFault | PurgeFault::BadTable => MasterFault::StoreFault,
    }
}

impl<S: PurgeStore> Master<S> {
    /// Gives the next number to a purge of the key, commits it, and returns the number. `message`
    /// then gives the CLR to send.
    ///
    /// Errors: `Closed`, `NumbersSpent` after the number 4294967295, `TooManyPending` if 1,024
    /// purges and admissions are pending; the first that holds, and nothing changes. Else
    /// `NoMemory` if an allocation failed, which closes the master if it was the store's; or
    /// `StoreFault`, which closes it.
    pub fn issue(&mut self, key: &Key) -> Result<u32, MasterFault>
        ensures { IsCalled (witness (S.is_honest self.old.store) (S.may_find self.old.store)
            (S.failed self.old.store))
            (witness (S.is_honest self.new.store) (S.may_find self.new.store)
            (S.failed self.new.store))
            self.old self.new (calls.Issue key.now) (issue_outcome result) }
    {
        if self.closed {
            return Err(MasterFault::Closed);
        }
        if let Some(fault) = self.purges.issue_fault() {
            return Err(fault);
        }
        let last = self.purges.last();
        let number = last + 1;
        self.purges.add(self.alloc, number, key)?;
        match self.store.add(self.alloc, number, key) {
            Ok(()) => Ok(number),
            Err(fault) => {
                self.purges.take_back(last);
                self.closed = true;
                Err(fault_of(fault))
            }
        }
    }

    /// Admits the joining node with this id: gives the next number to its admission, commits it,
    /// and returns the number. Purges of greater numbers need the node. `message` then gives the
    /// CLR to send to it.
    ///
    /// Errors: `Closed`, `NotJoining` if no joining node of the roster has this id or it has an
    /// admission, then those of `issue`; the first that holds, and nothing changes. `NoMemory` and
    /// `StoreFault` as for `issue`.
    pub fn admit(&mut self, id: u8) -> Result<u32, MasterFault>
        ensures { IsCalled (witness (S.is_honest self.old.store) (S.may_find self.old.store)
            (S.failed self.old.store))
            (witness (S.is_honest self.new.store) (S.may_find self.new.store)
            (S.failed self.new.store))
            self.old self.new (calls.Admit id) (admit_outcome result) }
    {
        if self.closed {
            return Err(MasterFault::Closed);
        }
        if let Some(fault) = self.purges.admit_fault(&self.nodes, id) {
            return Err(fault);
        }
        let last = self.purges.last();
        let next = last + 1;
        self.purges.admit(next, id)?;
        match self.store.admit(self.alloc, next, id) {
            Ok(()) => Ok(next),
            Err(fault) => {
                self.purges.take_admission_back(last);
                self.closed = true;
                Err(fault_of(fault))
            }
        }
    }

    /// Takes a member's response to a CLR, with its TRANS-ID and code (RFC 2756, section 6.5).
    /// Commits what it changes, and returns the number that it has made done, if any.
    ///
    /// It counts if the code is 0 or 2, and the TRANS-ID is a pending number that needs the member.
    /// A member that was missing is marked; if then no member is missing, the number is done. A
    /// response that comes again changes nothing; but if no member is missing any more, as in a
    /// file from a larger roster, it makes the number done.
    ///
    /// Errors: `Closed`; `StoreFault` or `NoMemory` of the store, which close the master.
    pub fn acknowledge(
        &mut self,
        member: u8,
        trans: u32,
        code: u8,
    ) -> Result<Option<u32>, MasterFault>
        ensures { IsCalled (witness (S.is_honest self.old.store) (S.may_find self.old.store)
            (S.failed self.old.store))
            (witness (S.is_honest self.new.store) (S.may_find self.new.store)
            (S.failed self.new.store))
            self.old self.new (calls.Acknowledge member trans code) (acknowledge_outcome result) }
    {
        if self.closed {
            return Err(MasterFault::Closed);
        }
        if !is_acknowledging(code) {
            return Ok(None);
        }
        let needs = self.purges.needed(&self.nodes, trans);
        if !needs.has(member) {
            return Ok(None);
        }
        match news_of(&self.purges, needs, member, trans) {
            News::Nothing => Ok(None),
            News::Mark => match self.store.mark(self.alloc, trans, member) {
                Ok(()) => {
                    self.purges.mark(trans, member);
                    Ok(None)
                }
                Err(fault) => {
                    self.closed = true;
                    Err(fault_of(fault))
                }
            },
            News::Done => match self.store.finish(self.alloc, trans) {
                Ok(()) => {
                    self.purges.finish(trans);
                    Ok(Some(trans))
                }
                Err(fault) => {
                    self.closed = true;
                    Err(fault_of(fault))
                }
            },
        }
    }

    /// Each pending number with the id of each missing member, by number and then by id: the CLRs
    /// to send again. Changes nothing.
    ///
    /// Errors: `Closed`; `NoMemory` if an allocation failed.
    pub fn due(&self) -> Result<Listed<(u32, u8)>, MasterFault>
        ensures { Calls self.now.nodes self.now.state calls.Due
            (due_outcome result) self.now.state }
    {
        if self.closed {
            return Err(MasterFault::Closed);
        }
        Ok(self.purges.due(self.alloc, &self.nodes)?)
    }

    /// How far this number is, of a purge or of an admission. A closed master tells it too.
    /// Allocates nothing.
    pub fn status(&self, number: u32) -> Status
        ensures value { result ≡ status_of self.now.nodes self.now.state.purges number }
        ensures call { Calls self.now.nodes self.now.state (calls.Status number)
            (Ok (answers.Status result)) self.now.state }
    {
        self.purges.status(&self.nodes, number)
    }

    /// The nodes of the roster, for `Purges::needed` and `Purges::missing`. Allocates nothing.
    pub fn nodes(&self) -> &Nodes
        ensures { result.now ≡ self.now.nodes }
    {
        &self.nodes
    }

    /// The last number that was given, the pending purges and the admissions. A closed master gives
    /// them too. Allocates nothing.
    pub fn purges(&self) -> &Purges
        ensures { result.now ≡ self.now.state.purges }
    {
        &self.purges
    }

    /// The CLR of the pending number: that of its purge, or that of its admission. `None` if it is
    /// not pending. A closed master gives it too. `htcp_wire::encode` can write it (`fits`).
    pub fn message(&self, number: u32) -> Result<Option<Htcp>, AllocError>
        ensures value { IfOk result (λ message. message ≡ message_of self.now.state.purges number) }
        ensures fits { IfOk result (λ message. IfSome message Fits) }
    {
        match self.purges.find(number) {
            Some(purge) => Ok(Some(clear(self.alloc, purge.number, &purge.key)?)),
            None => self.admission_message(number),
        }
    }

    /// The CLR of the admission with this number, if it is pending.
    fn admission_message(&self, number: u32) -> Result<Option<Htcp>, AllocError>
        ensures value { IfOk result (λ message. message
            ≡ message_of_admission (admission_at self.now.state.purges number)) }
        ensures fits { IfOk result (λ message. IfSome message Fits) }
    {
        match self.purges.admission_at(number) {
            Some(admission) if !admission.is_done => {
                Ok(Some(base_clear(self.alloc, admission.number)?))
            }
            _ => Ok(None),
        }
    }
}
