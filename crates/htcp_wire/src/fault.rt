ghost use Rattle.std.specs.Prelude.{◌≡◌};
ghost use Rattle.htcp_wire.specs.Names.{htcp_fault_name};

use std::alloc::AllocError;
use thiserror::Error;

/// Why octets are no message, or a text has no number. `decode` gives the first fault that holds,
/// in this order; `NoMemory` comes only if no other holds.
#[derive(Clone, Copy, Debug, PartialEq, Eq, Hash, Error)]
pub enum HtcpFault {
    /// Fewer than 14 octets: HEADER, DATA without OP-DATA, and LENGTH of AUTH.
    #[error("the message is shorter than 14 octets")]
    Short,
    /// LENGTH of HEADER differs from the length of the datagram.
    #[error("the length is not the datagram's")]
    BadLength,
    /// MAJOR is not 0.
    #[error("the major version is not 0")]
    BadMajor,
    /// LENGTH of DATA is under 8, or leaves no room for LENGTH of AUTH.
    #[error("the length of DATA does not fit the message")]
    BadData,
    /// A field that the opcode needs runs past DATA.
    #[error("a field runs past DATA")]
    BadString,
    /// LENGTH of AUTH is under 2, or greater than the number of octets left.
    #[error("the length of AUTH does not fit the message")]
    BadAuth,
    /// A number line has no good number, or there are two of them. Only
    /// [`number_in`](crate::number_in) gives it.
    #[error("there is no one good number")]
    BadNumber,
    /// An allocation failed.
    #[error("there was no memory")]
    NoMemory,
}

impl HtcpFault {
    /// The name that scripts print: the name of the variant.
    pub const fn name(self) -> &'static str
        ensures { result.now ≡ htcp_fault_name self }
    {
        match self {
            HtcpFault::Short => "Short",
            HtcpFault::BadLength => "BadLength",
            HtcpFault::BadMajor => "BadMajor",
            HtcpFault::BadData => "BadData",
            HtcpFault::BadString => "BadString",
            HtcpFault::BadAuth => "BadAuth",
            HtcpFault::BadNumber => "BadNumber",
            HtcpFault::NoMemory => "NoMemory",
        }
    }
}

impl From<AllocError> for HtcpFault {
    ghost use Rattle.htcp_wire.specs.declared.fault.HtcpFault.TheVariants.{NoMemory};

    ghost from_gives = { λ _ fault. fault ≡ NoMemory };

    fn from(_error: AllocError) -> HtcpFault {
        HtcpFault::NoMemory
    }
}
