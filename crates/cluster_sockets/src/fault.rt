//! Why a call on a node's sockets fails.
ghost use Rattle.std.specs.Prelude.{◌≡◌};
ghost use Rattle.cluster_sockets.specs.Names.{loop_fault_name};

use std::alloc::AllocError;
use std::io;
use thiserror::Error;

/// Why a call on a node's sockets fails.
#[derive(Clone, Copy, Debug, PartialEq, Eq, Error)]
pub enum LoopFault {
    /// The system refused to open a socket, to poll, to read, to accept or to send, or refused the
    /// clock.
    #[error("a socket could not be used")]
    Io,
    /// There was no memory.
    #[error("there was no memory")]
    NoMemory,
}

impl LoopFault {
    /// The name that scripts print: that of the variant.
    pub const fn name(self) -> &'static str
        ensures { result.now ≡ loop_fault_name self }
    {
        match self {
            LoopFault::Io => "Io",
            LoopFault::NoMemory => "NoMemory",
        }
    }
}

impl From<AllocError> for LoopFault {
    ghost use Rattle.std.specs.Prelude.{◌≡◌};
    ghost use Rattle.cluster_sockets.specs.declared.fault.LoopFault.TheVariants.{NoMemory};

    ghost from_gives = { λ _ fault. fault ≡ NoMemory };

    fn from(_: AllocError) -> LoopFault {
        LoopFault::NoMemory
    }
}

impl From<io::Error> for LoopFault {
    ghost use Rattle.std.specs.Prelude.{◌≡◌};
    ghost use Rattle.cluster_sockets.specs.declared.fault.LoopFault.TheVariants.{Io};

    ghost from_gives = { λ _ fault. fault ≡ Io };

    fn from(_: io::Error) -> LoopFault {
        LoopFault::Io
    }
}
