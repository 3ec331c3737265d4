//! How a master begins and ends.
ghost use Rattle.std.specs.Prelude.{◌≡◌, ◌≢◌, false, IfOk, Err};
ghost use Rattle.purge_rules.specs.Needed.{nodes_of};
ghost use Rattle.purge_rules.specs.Calls.{opened};
ghost use Rattle.purge_master.specs.View.{IsTied};
ghost use Rattle.purge_master.specs.Names.{open_fault_name, open_fault_of as answer_to_fault};

use crate::Master;
use purge_rules::{Nodes, PurgeFault, PurgeStore};
use roster::Roster;
use std::alloc::Global;
use thiserror::Error;

/// Why a master was not opened: what its store returned to the load.
#[derive(Clone, Copy, Debug, PartialEq, Eq, Error)]
pub enum MasterOpenFault {
    /// The store failed, in an earlier call.
    #[error("the store failed")]
    StoreFault,
    /// The store's file is not a master's file. `Master::open` never returns it, since a load does
    /// not.
    #[error("the file is not that of a master")]
    BadTable,
    /// An allocation failed.
    #[error("there was no memory")]
    NoMemory,
}

impl MasterOpenFault {
    /// The name of the fault, as scripts print it.
    pub const fn name(self) -> &'static str
        ensures { result.now ≡ open_fault_name self }
    {
        match self {
            MasterOpenFault::StoreFault => "StoreFault",
            MasterOpenFault::BadTable => "BadTable",
            MasterOpenFault::NoMemory => "NoMemory",
        }
    }
}

/// The fault of an open whose store returned this one.
fn open_fault_of(fault: PurgeFault) -> MasterOpenFault
    ensures { result ≡ answer_to_fault fault }
{
    match fault {
        PurgeFault::StoreFault => MasterOpenFault::StoreFault,
        PurgeFault::BadTable => MasterOpenFault::BadTable,
        PurgeFault::NoMemory => MasterOpenFault::NoMemory,
    }
}

impl<S: PurgeStore + Drop> Master<S> {
    /// An open master of the roster's nodes, with the purges and admissions that its store loads.
    ///
    /// Errors: `StoreFault`, only if an earlier call of the store failed; `NoMemory` if an
    /// allocation failed. The store is dropped then.
    pub fn open(alloc: Global, roster: &Roster, mut store: S) -> Result<Master<S>, MasterOpenFault>
        ensures nodes { IfOk result (λ master. master.nodes ≡ nodes_of roster.now) }
        ensures state { IfOk result (λ master. S.is_honest master.store →
            master.state ≡ opened (S.content store)) }
        ensures store { IfOk result (λ master. master.store ≡ store) }
        ensures cause { result ≡ Err MasterOpenFault.StoreFault → S.is_usable store ≡ false }
        ensures named { result ≢ Err MasterOpenFault.BadTable }
    {
        let purges = match store.load(alloc) {
            Ok(purges) => purges,
            Err(fault) => return Err(open_fault_of(fault)),
        };
        Ok(Master {
            alloc,
            nodes: Nodes::of(roster),
            purges,
            closed: false,
            store,
        })
    }
}

impl<S: PurgeStore> Master<S> {
    /// Whether the master is closed: a write failed in its store, by `StoreFault` or `NoMemory`.
    pub fn is_closed(&self) -> bool
        ensures { result ≡ self.now.state.closed }
    {
        self.closed
    }

    /// The store of its purges. A closed master gives it too. Allocates nothing.
    pub fn into_store(self) -> S
        ensures value { result ≡ self.store }
        ensures tied { IsTied self.state.closed self.state.purges (S.is_usable self.store)
            (S.is_honest self.store) (S.content self.store) }
    {
        self.store_alone()
    }
}
