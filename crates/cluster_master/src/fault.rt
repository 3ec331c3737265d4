//! Why a master's socket is not opened.
ghost use Rattle.std.specs.Prelude.{◌≡◌};
ghost use Rattle.cluster_master.specs.Names.{start_fault_name};

use std::alloc::AllocError;
use std::io;
use thiserror::Error;

/// Why a master's socket is not opened.
#[derive(Clone, Copy, Debug, PartialEq, Eq, Error)]
pub enum MasterStartFault {
    /// This UDP port, the master's, is in use, or its address is not this machine's.
    #[error("the master's UDP port {0} is in use, or its address is not this machine's")]
    Port(u16),
    /// The system refused in another way.
    #[error("a socket could not be opened")]
    Io,
    /// There was no memory.
    #[error("there was no memory")]
    NoMemory,
}

impl MasterStartFault {
    /// The name that scripts print: that of the variant, and `Io` for a port.
    pub const fn name(self) -> &'static str
        ensures { result.now ≡ start_fault_name self }
    {
        match self {
            MasterStartFault::Port(_) | MasterStartFault::Io => "Io",
            MasterStartFault::NoMemory => "NoMemory",
        }
    }
}

impl From<AllocError> for MasterStartFault {
    ghost use Rattle.std.specs.Prelude.{◌≡◌};
    ghost use Rattle.cluster_master.specs.declared.fault.MasterStartFault.TheVariants.{NoMemory};

    ghost from_gives = { λ _ fault. fault ≡ NoMemory };

    fn from(_: AllocError) -> MasterStartFault {
        MasterStartFault::NoMemory
    }
}

impl From<io::Error> for MasterStartFault {
    ghost use Rattle.std.specs.Prelude.{◌≡◌};
    ghost use Rattle.cluster_master.specs.declared.fault.MasterStartFault.TheVariants.{Io};

    ghost from_gives = { λ _ fault. fault ≡ Io };

    fn from(_: io::Error) -> MasterStartFault {
        MasterStartFault::Io
    }
}
