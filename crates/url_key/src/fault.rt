ghost use Rattle.std.specs.Prelude.{◌≡◌};
ghost use Rattle.url_key.specs.Fault.{key_fault_name};

use std::alloc::AllocError;
use thiserror::Error;

/// Why a text has no key. The first fault that holds is given, in this order; `TooLong` of the key
/// comes last, behind `BadPort`.
///
/// `NoMemory` may replace any fault but those that are tested before the text is cut: `TooLong` of
/// the text, `NotVisibleAscii` and `Fragment`.
#[derive(Clone, Copy, Debug, PartialEq, Eq, Hash, Error)]
pub enum KeyFault {
    /// The text, or its key, is longer than 1,024 octets.
    #[error("the text or its key is longer than 1,024 octets")]
    TooLong,
    /// An octet is outside `!` to `~` (0x21 to 0x7e).
    #[error("an octet is no visible character of ASCII")]
    NotVisibleAscii,
    /// The text has a `#`: a fragment, which is no part of an http URI (RFC 9110, section 4.2.5).
    #[error("the text has a fragment")]
    Fragment,
    /// The text has none of the forms of a request target (RFC 9112, section 3.2), as `http_uri`
    /// reads them.
    #[error("the text is no URI")]
    NotUri,
    /// There is no scheme, or one other than `http` in any case of letters.
    #[error("the scheme is not http")]
    NotHttp,
    /// The authority has an `@` (RFC 9110, section 4.2.4).
    #[error("the authority has userinfo")]
    UserInfo,
    /// The host is empty (RFC 9110, section 4.2.1).
    #[error("the host is empty")]
    NoHost,
    /// What follows the host is neither nothing, nor `:` alone, nor `:` and 1 to 5 digits of a
    /// value from 1 to 65535.
    #[error("the port is not a number of 1 to 65535")]
    BadPort,
    /// An allocation failed.
    #[error("there was no memory")]
    NoMemory,
}

impl KeyFault {
    /// The name that scripts print: the name of the variant.
    pub const fn name(self) -> &'static str
        ensures { result.now ≡ key_fault_name self }
    {
        match self {
            KeyFault::TooLong => "TooLong",
            KeyFault::NotVisibleAscii => "NotVisibleAscii",
            KeyFault::Fragment => "Fragment",
            KeyFault::NotUri => "NotUri",
            KeyFault::NotHttp => "NotHttp",
            KeyFault::UserInfo => "UserInfo",
            KeyFault::NoHost => "NoHost",
            KeyFault::BadPort => "BadPort",
            KeyFault::NoMemory => "NoMemory",
        }
    }
}

impl From<AllocError> for KeyFault {
    ghost use Rattle.url_key.specs.declared.fault.KeyFault.TheVariants.{NoMemory};

    ghost from_gives = { λ _ fault. fault ≡ NoMemory };

    fn from(_error: AllocError) -> KeyFault {
        KeyFault::NoMemory
    }
}
