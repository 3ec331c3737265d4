ghost use Rattle.std.specs.Prelude.{◌≡◌};
ghost use Rattle.http_messages.specs.Fault.{fetch_fault_name};

use std::alloc::AllocError;
use thiserror::Error;
use url_key::KeyFault;

/// Why a message was not read or written.
#[derive(Clone, Copy, Debug, PartialEq, Eq, Hash, Error)]
pub enum FetchFault {
    /// The reader or the writer failed.
    #[error("the reader or the writer failed")]
    Io,
    /// The input ended before the message did (RFC 9112, section 8).
    #[error("the input ended before the message did")]
    EndOfInput,
    /// The octets are not the head of such a message (RFC 9112, sections 2 to 5).
    #[error("the head is not that of a message")]
    BadHead,
    /// The head, or the trailer of a chunked body, has more than 16,384 octets or 64 fields; or
    /// the kept fields of a response are more than 56, or their lines have more than 16,000
    /// octets.
    #[error("the head is longer than is read")]
    HeadTooLong,
    /// The target of a request has no key (RFC 9112, section 3.2). The inner fault is never
    /// `NoMemory`.
    #[error("the target is no key: {0}")]
    BadTarget(KeyFault),
    /// The method of a request is not GET.
    #[error("the method is not GET")]
    MethodNotServed,
    /// The request has credentials (RFC 9110, section 11).
    #[error("the ask bears credentials")]
    Credentials,
    /// A request has a body; or a response does not give the length of its body in one valid way
    /// (RFC 9112, section 6); or a chunk or the trailer is malformed, or a chunk's line has more
    /// than 256 octets (section 7.1).
    #[error("the body's framing is not valid")]
    BadBody,
    /// The body has more than 65,536 octets.
    #[error("the body is longer than 65,536 octets")]
    BodyTooLong,
    /// The reader was called 70,000 times and the message had not ended.
    #[error("the reader was called 70,000 times")]
    TooManyTurns,
    /// Memory could not be allocated.
    #[error("there was no memory")]
    NoMemory,
}

impl FetchFault {
    /// The name of the fault, as scripts print it; it does not show the inner fault of `BadTarget`.
    pub const fn name(self) -> &'static str
        ensures { result.now ≡ fetch_fault_name self }
    {
        match self {
            FetchFault::Io => "Io",
            FetchFault::EndOfInput => "EndOfInput",
            FetchFault::BadHead => "BadHead",
            FetchFault::HeadTooLong => "HeadTooLong",
            FetchFault::BadTarget(_) => "BadTarget",
            FetchFault::MethodNotServed => "MethodNotServed",
            FetchFault::Credentials => "Credentials",
            FetchFault::BadBody => "BadBody",
            FetchFault::BodyTooLong => "BodyTooLong",
            FetchFault::TooManyTurns => "TooManyTurns",
            FetchFault::NoMemory => "NoMemory",
        }
    }
}

impl From<AllocError> for FetchFault {
    ghost use Rattle.http_messages.specs.declared.fault.FetchFault.TheVariants.{NoMemory};

    ghost from_gives = { λ _ fault. fault ≡ NoMemory };

    fn from(_error: AllocError) -> FetchFault {
        FetchFault::NoMemory
    }
}
