//! Why an origin ends early.
ghost use Rattle.std.specs.Prelude.{◌≡◌};
ghost use Rattle.cluster_origin.specs.Names.{origin_fault_name};

use std::alloc::AllocError;
use std::io;
use thiserror::Error;

/// Why an origin ends early.
#[derive(Clone, Copy, Debug, PartialEq, Eq, Error)]
pub enum OriginFault {
    /// This port is in use, or its address is not this machine's.
    #[error("port {0} is in use, or its address is not this machine's")]
    Port(u16),
    /// The system refused a socket, a poll, an accept, a second handle of a connection, or the
    /// clock.
    #[error("a socket or the clock could not be used")]
    Io,
    /// There was no memory.
    #[error("there was no memory")]
    NoMemory,
}

impl OriginFault {
    /// The name that scripts print: that of the variant, and `Io` for a port.
    pub const fn name(self) -> &'static str
        ensures { result.now ≡ origin_fault_name self }
    {
        match self {
            OriginFault::Port(_) | OriginFault::Io => "Io",
            OriginFault::NoMemory => "NoMemory",
        }
    }
}

impl From<AllocError> for OriginFault {
    ghost use Rattle.std.specs.Prelude.{◌≡◌};
    ghost use Rattle.cluster_origin.specs.declared.fault.OriginFault.TheVariants.{NoMemory};

    ghost from_gives = { λ _ fault. fault ≡ NoMemory };

    fn from(_: AllocError) -> OriginFault {
        OriginFault::NoMemory
    }
}

impl From<io::Error> for OriginFault {
    ghost use Rattle.std.specs.Prelude.{ℕ};
    ghost use Rattle.cluster_origin.specs.Names.{IsAtPort};

    ghost from_gives = { λ _ fault. (port : ℕ) → IsAtPort port fault };

    fn from(error: io::Error) -> OriginFault {
        match error.kind() {
            io::ErrorKind::OutOfMemory => OriginFault::NoMemory,
            _ => OriginFault::Io,
        }
    }
}
