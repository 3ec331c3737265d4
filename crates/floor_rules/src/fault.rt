ghost use Rattle.std.specs.Prelude.{◌≡◌};
ghost use Rattle.floor_rules.specs.Fault.{floor_fault_name};

use std::alloc::AllocError;
use thiserror::Error;

/// Why a call on a store of floors fails.
#[derive(Clone, Copy, Debug, PartialEq, Eq, Error)]
pub enum FloorFault {
    /// The store failed, now or earlier. `failures` rose, or stays at its maximum. Open the store
    /// again.
    #[error("the store failed")]
    StoreFault,
    /// The file is not a node's file. Only an open returns it.
    #[error("the file is not that of a node")]
    BadTable,
    /// An allocation failed. After a load nothing has changed. After a raise or an open, open a
    /// store in a file again: only the file knows whether the raise was committed.
    #[error("there was no memory")]
    NoMemory,
}

impl FloorFault {
    /// The name of the fault, as scripts print it.
    pub const fn name(self) -> &'static str
        ensures { result.now ≡ floor_fault_name self }
    {
        match self {
            FloorFault::StoreFault => "StoreFault",
            FloorFault::BadTable => "BadTable",
            FloorFault::NoMemory => "NoMemory",
        }
    }
}

impl From<AllocError> for FloorFault {
    ghost use Rattle.std.specs.Prelude.{◌≡◌};
    ghost use Rattle.floor_rules.specs.declared.fault.FloorFault.TheVariants.{NoMemory};

    ghost from_gives = { λ _ fault. fault ≡ NoMemory };

    fn from(_: AllocError) -> FloorFault {
        FloorFault::NoMemory
    }
}
