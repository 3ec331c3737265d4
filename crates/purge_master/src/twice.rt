//! The calls of a master, each answer twice: for the caller and for the book.
ghost use Rattle.std.specs.Prelude.{◌≡◌, ◌≢◌, Err};
ghost use Rattle.purge_rules.specs.declared.calls.MasterCall.TheVariants as calls;
ghost use Rattle.purge_rules.specs.declared.fault.MasterFault.TheVariants as faults;
ghost use Rattle.purge_rules.specs.Calls.{Calls};
ghost use Rattle.purge_master.specs.Store.{IsCalled, witness};

use crate::Master;
use purge_rules::{MasterAnswer, MasterCall, MasterFault, PurgeStore};
use values_plain::Listed;

/// What a call returns.
type Outcome = Result<MasterAnswer, MasterFault>;

impl<S: PurgeStore> Master<S> {
    /// Makes the call, and returns its outcome twice.
    pub(crate) fn outcome(&mut self, call: &MasterCall) -> (Outcome, Outcome)
        ensures same { result.1 ≡ result.0 }
        ensures called { IsCalled (witness (S.is_honest self.old.store) (S.may_find self.old.store)
            (S.failed self.old.store))
            (witness (S.is_honest self.new.store) (S.may_find self.new.store)
            (S.failed self.new.store))
            self.old self.new call.now result.0 }
    {
        match call {
            MasterCall::Issue(key) => match self.issue(key) {
                Ok(number) => (
                    Ok(MasterAnswer::Issue(number)),
                    Ok(MasterAnswer::Issue(number)),
                ),
                Err(fault) => (Err(fault), Err(fault)),
            },
            MasterCall::Admit(id) => match self.admit(*id) {
                Ok(number) => (
                    Ok(MasterAnswer::Admit(number)),
                    Ok(MasterAnswer::Admit(number)),
                ),
                Err(fault) => (Err(fault), Err(fault)),
            },
            MasterCall::Acknowledge {
                member,
                trans,
                code,
            } => match self.acknowledge(*member, *trans, *code) {
                Ok(done) => (
                    Ok(MasterAnswer::Acknowledge(done)),
                    Ok(MasterAnswer::Acknowledge(done)),
                ),
                Err(fault) => (Err(fault), Err(fault)),
            },
            MasterCall::Due => self.due_outcome(),
            MasterCall::Status(number) => {
                let status = self.status(*number);
                (
                    Ok(MasterAnswer::Status(status)),
                    Ok(MasterAnswer::Status(status)),
                )
            }
        }
    }

    /// What is due, twice. If either list cannot be allocated, both outcomes are `NoMemory`.
    fn due_outcome(&self) -> (Outcome, Outcome)
        ensures same { result.1 ≡ result.0 }
        ensures call { Calls self.now.nodes self.now.state calls.Due result.0 self.now.state }
        ensures fault { result.0 ≢ Err faults.StoreFault }
    {
        match self.due() {
            Ok(pairs) => match Vec::from_slice(self.alloc, pairs.as_slice()) {
                Ok(copy) => (
                    Ok(MasterAnswer::Due(pairs)),
                    Ok(MasterAnswer::Due(Listed::new(copy))),
                ),
                Err(_) => (Err(MasterFault::NoMemory), Err(MasterFault::NoMemory)),
            },
            Err(fault) => (Err(fault), Err(fault)),
        }
    }
}
