//! Errors of the database as faults of the store.
ghost use Rattle.std.specs.Prelude.{◌≡◌, ◌⊎◌};
ghost use Rattle.purge_records.specs.Faults.{told_as};

use purge_rules::PurgeFault;
use sqlite::{Error, ErrorCode};

/// `NoMemory` for `OutOfMemory`, `StoreFault` for any other error.
pub(crate) fn fault_of(error: Error) -> PurgeFault
    ensures told { result ≡ told_as error }
    ensures named { (result ≡ PurgeFault.NoMemory) ⊎ (result ≡ PurgeFault.StoreFault) }
{
    match error {
        Error::SqliteFailure(ErrorCode::OutOfMemory) => PurgeFault::NoMemory,
        _ => PurgeFault::StoreFault,
    }
}
