ghost use Rattle.std.specs.Prelude.{◌≡◌};
ghost use Rattle.icp_wire.specs.Names.{icp_fault_name};

use std::alloc::AllocError;
use thiserror::Error;

/// Why octets are no message. `decode` gives the first fault that holds, in this order; `NoMemory`
/// comes only if no other holds.
#[derive(Clone, Copy, Debug, PartialEq, Eq, Hash, Error)]
pub enum IcpFault {
    /// Fewer than the 20 octets of a header (RFC 2186, "ICP Message Format").
    #[error("the message is shorter than a header")]
    Short,
    /// More than 16,384 octets (RFC 2186, "Message Length").
    #[error("the message is longer than 16,384 octets")]
    TooLong,
    /// The version is not 2 (RFC 2186, "Version").
    #[error("the version is not 2")]
    BadVersion,
    /// The message length differs from the datagram's.
    #[error("the length is not the datagram's")]
    BadLength,
    /// The opcode is none of [`IcpOp`](crate::IcpOp).
    #[error("the opcode is not read here")]
    BadOpcode,
    /// No zero octet ends the URL, or a QUERY is too short for the requester's address.
    #[error("no zero octet ends the URL")]
    NoZero,
    /// Octets follow the zero octet, in a message that is no HIT_OBJ.
    #[error("octets follow the URL")]
    Trailing,
    /// What follows the zero octet of a HIT_OBJ is not a size of two octets and an object of that
    /// size.
    #[error("the object is not of its stated size")]
    BadObject,
    /// An allocation failed.
    #[error("there was no memory")]
    NoMemory,
}

impl IcpFault {
    /// The name that scripts print: the name of the variant.
    pub const fn name(self) -> &'static str
        ensures { result.now ≡ icp_fault_name self }
    {
        match self {
            IcpFault::Short => "Short",
            IcpFault::TooLong => "TooLong",
            IcpFault::BadVersion => "BadVersion",
            IcpFault::BadLength => "BadLength",
            IcpFault::BadOpcode => "BadOpcode",
            IcpFault::NoZero => "NoZero",
            IcpFault::Trailing => "Trailing",
            IcpFault::BadObject => "BadObject",
            IcpFault::NoMemory => "NoMemory",
        }
    }
}

impl From<AllocError> for IcpFault {
    ghost use Rattle.icp_wire.specs.declared.fault.IcpFault.TheVariants.{NoMemory};

    ghost from_gives = { λ _ fault. fault ≡ NoMemory };

    fn from(_error: AllocError) -> IcpFault {
        IcpFault::NoMemory
    }
}
