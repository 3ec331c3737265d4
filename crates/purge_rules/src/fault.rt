ghost use Rattle.std.specs.Prelude.{◌≡◌};
ghost use Rattle.purge_rules.specs.Names.{purge_fault_name, master_fault_name};

use std::alloc::AllocError;
use thiserror::Error;

/// Why a call on a store of purges fails.
#[derive(Clone, Copy, Debug, PartialEq, Eq, Error)]
pub enum PurgeFault {
    /// The store failed, now or earlier. `failures` rose, or stays at its maximum. Open the store
    /// again.
    #[error("the store failed")]
    StoreFault,
    /// The file is not a master's file. Only an open returns it.
    #[error("the file is not that of a master")]
    BadTable,
    /// An allocation failed. After a load nothing has changed. After a call that writes or an open,
    /// open a store in a file again: only the file knows whether the change was committed.
    #[error("there was no memory")]
    NoMemory,
}

impl PurgeFault {
    /// The name of the fault, as scripts print it.
    pub const fn name(self) -> &'static str
        ensures { result.now ≡ purge_fault_name self }
    {
        match self {
            PurgeFault::StoreFault => "StoreFault",
            PurgeFault::BadTable => "BadTable",
            PurgeFault::NoMemory => "NoMemory",
        }
    }
}

impl From<AllocError> for PurgeFault {
    ghost use Rattle.std.specs.Prelude.{◌≡◌};
    ghost use Rattle.purge_rules.specs.declared.fault.PurgeFault.TheVariants.{NoMemory};

    ghost from_gives = { λ _ fault. fault ≡ NoMemory };

    fn from(_: AllocError) -> PurgeFault {
        PurgeFault::NoMemory
    }
}

/// Why a call on a master fails.
///
/// A master tests for `Closed`, `NotJoining`, `NumbersSpent` and `TooManyPending`, in this order,
/// and returns `StoreFault` or `NoMemory` only if none of them holds. A book tests for
/// `ShiftFull` first, then allocates an entry (`NoMemory`), and only then calls the master.
#[derive(Clone, Copy, Debug, PartialEq, Eq, Error)]
pub enum MasterFault {
    /// An earlier write failed in the store, by `StoreFault` or `NoMemory`. Nothing has changed.
    /// Open the master again.
    #[error("the master is closed")]
    Closed,
    /// The book of calls is full. Nothing has changed. Only a book returns it.
    #[error("the book of calls is full")]
    ShiftFull,
    /// The last number, 4294967295, was given. Nothing has changed.
    #[error("no number is left")]
    NumbersSpent,
    /// 1,024 numbers are pending, of purges and of admissions. Nothing has changed.
    #[error("1,024 purges and admissions are pending")]
    TooManyPending,
    /// The store failed in a call that writes. The master is closed, and nothing else of it has
    /// changed. The stored purges are those from before the call or from after it.
    #[error("the store failed")]
    StoreFault,
    /// An allocation failed. Nothing has changed, except that the master is closed if the store
    /// returned it; then the stored purges are those from before the call or from after it.
    #[error("there was no memory")]
    NoMemory,
    /// No joining node of the roster has this id, or it has an admission. Nothing has changed. Only
    /// an admission returns it.
    #[error("no node of this id waits to join")]
    NotJoining,
}

impl MasterFault {
    /// The name of the fault, as scripts print it.
    pub const fn name(self) -> &'static str
        ensures { result.now ≡ master_fault_name self }
    {
        match self {
            MasterFault::Closed => "Closed",
            MasterFault::ShiftFull => "ShiftFull",
            MasterFault::NumbersSpent => "NumbersSpent",
            MasterFault::TooManyPending => "TooManyPending",
            MasterFault::StoreFault => "StoreFault",
            MasterFault::NoMemory => "NoMemory",
            MasterFault::NotJoining => "NotJoining",
        }
    }
}

impl From<AllocError> for MasterFault {
    ghost use Rattle.std.specs.Prelude.{◌≡◌};
    ghost use Rattle.purge_rules.specs.declared.fault.MasterFault.TheVariants.{NoMemory};

    ghost from_gives = { λ _ fault. fault ≡ NoMemory };

    fn from(_: AllocError) -> MasterFault {
        MasterFault::NoMemory
    }
}
