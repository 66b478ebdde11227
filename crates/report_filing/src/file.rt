ghost use Rattle.std.specs.Prelude.{◌≡◌, ◌≢◌, ℕ, ◌≤◌, ◌∷◌, [], ◌++◌, IfOk, OnErr};
ghost use Rattle.disk_model.specs.Faults.{Rose};
ghost use Rattle.disk_model.specs.Told.{Told, BothTold};
ghost use Rattle.report_filing.specs.Answers.{filed_as, Follows, HasSameCells, HasNoNumberLeft};
ghost use Rattle.report_filing.specs.Revisions.{latest_of, IsNext};

use crate::cells::{are_same, copy_of};
use crate::{Filing, FilingFault, Memory};
use ldar_law::{Filed, Report};
use std::alloc::Global;

/// The greatest number of a revision.
pub const LAST_REVISION: u32 = 4_294_967_295;

/// Why a report was not filed. The filing is unchanged.
#[derive(Clone, Copy, Debug, PartialEq, Eq)]
pub enum FileError {
    /// The last revision has the same cells, so nothing would be amended.
    Same { revision: u32 },
    /// The last revision has the greatest number, and other cells.
    Full,
    /// The filing failed, and counted the error.
    Fault,
    Memory,
}

impl From<Memory> for FileError {
    ghost use Rattle.std.specs.Prelude.{◌≡◌};
    ghost use Rattle.report_filing.specs.declared.file.FileError.TheVariants.{Memory};

    ghost from_gives = { λ _ e. e ≡ Memory };

    fn from(_e: Memory) -> FileError {
        FileError::Memory
    }
}

impl From<FilingFault> for FileError {
    ghost use Rattle.report_filing.specs.Answers.{IsFaultOf};

    ghost from_gives = { IsFaultOf };

    fn from(fault: FilingFault) -> FileError {
        match fault {
            FilingFault::Failed => FileError::Fault,
            FilingFault::Memory => FileError::Memory,
        }
    }
}

/// The number of the next revision, after the last one.
fn next_revision(last: &Option<Filed>, report: &Report) -> Result<u32, FileError>
    ensures value { IfOk result (λ revision. Follows report.now revision last.now) }
    ensures same { (revision : ℕ) → result ≡ Err (FileError.Same revision) → HasSameCells report.now revision last.now }
    ensures full { result ≡ Err FileError.Full → HasNoNumberLeft report.now last.now }
    ensures others { (result ≢ Err FileError.Fault) × (result ≢ Err FileError.Memory) }
{
    let Some(last) = last else {
        return Ok(1);
    };
    if are_same(&last.cells, &report.cells) {
        return Err(FileError::Same {
            revision: last.revision,
        });
    }
    match last.revision.checked_add(1) {
        Some(revision) => Ok(revision),
        None => Err(FileError::Full),
    }
}

/// Files a report as the next revision of its unit and half, and returns its number.
pub fn file_report<F: Filing>(
    alloc: Global,
    filing: &mut F,
    report: &Report,
) -> Result<u32, FileError>
    ensures put { IfOk result (λ revision. BothTold (F.on_file filing.old) (F.on_file filing.new)
        (λ old new. new ≡ old ++ filed_as revision report.now ∷ [])) }
    ensures unchanged { OnErr result (F.on_file filing.new ≡ F.on_file filing.old) }

    // The revision's number, and the cases without one; the three exclude each other.
    ensures value { IfOk result (λ revision. Told (F.on_file filing.old) (λ old.
        Follows report.now revision (latest_of report.now.unit report.now.half old))) }
    ensures next { IfOk result (λ revision. Told (F.on_file filing.old) (IsNext (filed_as revision report.now))) }
    ensures same { (revision : ℕ) → result ≡ Err (FileError.Same revision)
        → Told (F.on_file filing.old) (λ old. HasSameCells report.now revision (latest_of report.now.unit report.now.half old)) }
    ensures full { result ≡ Err FileError.Full
        → Told (F.on_file filing.old) (λ old. HasNoNumberLeft report.now (latest_of report.now.unit report.now.half old)) }
    ensures count { F.faults filing.old ≤ F.faults filing.new }
    ensures cause { result ≡ Err FileError.Fault → Rose (F.faults filing.old) (F.faults filing.new) }
{
    let last = filing.latest(alloc, report.unit, report.half)?;
    let revision = next_revision(&last, report)?;
    let filed = Filed {
        unit: report.unit,
        half: report.half,
        revision,
        day: report.day,
        cells: copy_of(alloc, &report.cells)?,
    };
    filing.put(alloc, &filed)?;
    Ok(revision)
}
