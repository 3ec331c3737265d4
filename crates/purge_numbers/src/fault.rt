//! Errors of the database as faults of the store.
ghost use Rattle.std.specs.Prelude.{◌≡◌, ◌⊎◌};
ghost use Rattle.purge_numbers.specs.Faults.{told_as};

use floor_rules::FloorFault;
use sqlite::{Error, ErrorCode};

/// `NoMemory` for `OutOfMemory`, `StoreFault` for any other error.
pub(crate) fn fault_of(error: Error) -> FloorFault
    ensures told { result ≡ told_as error }
    ensures named { (result ≡ FloorFault.NoMemory) ⊎ (result ≡ FloorFault.StoreFault) }
{
    match error {
        Error::SqliteFailure(ErrorCode::OutOfMemory) => FloorFault::NoMemory,
        _ => FloorFault::StoreFault,
    }
}
