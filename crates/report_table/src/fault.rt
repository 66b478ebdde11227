ghost use Rattle.std.specs.Prelude.{◌≡◌};
ghost use Rattle.report_table.specs.Faults as spec;

use crate::{Error, ErrorCode};
use report_filing::FilingFault;

/// The error of the filing for a refused statement: a failure, unless it ran out of memory.
pub(crate) fn fault_of(error: Error) -> FilingFault
    ensures value { result ≡ spec.fault_of error }
{
    match error {
        Error::SqliteFailure(ErrorCode::OutOfMemory) => FilingFault::Memory,
        _ => FilingFault::Failed,
    }
}
