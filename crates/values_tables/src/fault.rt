ghost use Rattle.std.specs.Prelude.{◌≡◌};

use crate::TextPlace;
use std::alloc::AllocError;

/// Why a text has no tables of a roster. `NoMemory` may replace either of the others.
#[derive(Clone, Copy, Debug, PartialEq, Eq)]
pub enum TablesFault {
    /// The text is no TOML document.
    BadToml(TextPlace),
    /// A key is missing, unknown, of another type or out of its range, or no node is founding. If
    /// several fields are bad, any one of them may be named.
    BadField(TextPlace),
    /// An allocation failed.
    NoMemory,
}

impl From<AllocError> for TablesFault {
    ghost use Rattle.values_tables.specs.declared.fault.TablesFault.TheVariants.{NoMemory};

    ghost from_gives = { λ _ fault. fault ≡ NoMemory };

    fn from(_error: AllocError) -> TablesFault {
        TablesFault::NoMemory
    }
}
