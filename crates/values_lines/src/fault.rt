ghost use Rattle.std.specs.Prelude.{◌≡◌};
ghost use Rattle.values_lines.specs.Fault.{run_fault_name};

use std::alloc::AllocError;
use thiserror::Error;

/// Why a run over an input stopped before its end.
#[derive(Clone, Copy, Debug, PartialEq, Eq, Hash, Error)]
pub enum RunFault {
    /// The reader or the writer failed.
    #[error("the reader or the writer failed")]
    Io,
    /// 70,000 reads each gave an octet or more, and another read was needed.
    #[error("the input has not ended after 70,000 reads")]
    TooManyTurns,
    /// A line has more than 140,000 octets, its end not counted.
    #[error("a line is longer than 140,000 octets")]
    LineTooLong,
    /// An allocation failed.
    #[error("there was no memory")]
    NoMemory,
    /// The built-in roster of `cache answer` gave no first node. No proof rules this out; a test
    /// opens that node.
    #[error("the roster of the program gave no first node")]
    NoFirstNode,
}

impl RunFault {
    /// The name that the program prints: the name of the variant.
    pub const fn name(self) -> &'static str
        ensures { result.now ≡ run_fault_name self }
    {
        match self {
            RunFault::Io => "Io",
            RunFault::TooManyTurns => "TooManyTurns",
            RunFault::LineTooLong => "LineTooLong",
            RunFault::NoMemory => "NoMemory",
            RunFault::NoFirstNode => "NoFirstNode",
        }
    }
}

impl From<AllocError> for RunFault {
    ghost use Rattle.values_lines.specs.declared.fault.RunFault.TheVariants.{NoMemory};

    ghost from_gives = { λ _ fault. fault ≡ NoMemory };

    fn from(_error: AllocError) -> RunFault {
        RunFault::NoMemory
    }
}
