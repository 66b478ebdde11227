ghost use Rattle.std.specs.Prelude.{◌≡◌, ◌≤◌, IfOk, OnOk};
ghost use Rattle.ldar_days.specs.Calendar.{IsDay};
ghost use Rattle.ldar_law.specs.declared.report.Cells.{Cells as GivenCells};
ghost use Rattle.ldar_law.specs.declared.report.Filed.{Filed as FiledReport};
ghost use Rattle.report_table.specs.CellBytes.{months_bytes, delays_bytes, stops_bytes};
ghost use Rattle.report_table.specs.Reports.{AreCells, CanBeKept, IsReadBack, IsReadFrom, IsRowOf};

use crate::fault::fault_of;
use crate::reading::{delays_of, months_of, stops_of};
use crate::writing::{delays_bytes, months_bytes, stops_bytes};
use crate::{Error, FiledRow};
use fact_kinds::Memory;
use ldar_days::Day;
use ldar_law::{Cells, Filed, Items};
use report_filing::FilingFault;
use std::alloc::Global;

/// The row of a report.
pub(crate) fn row_of(alloc: Global, filed: &Filed) -> Result<FiledRow, Memory>
    ensures value { IfOk result (IsRowOf filed.now) }
    ensures kept { OnOk result (AreCells filed.now.cells) }
    ensures day { OnOk result (IsDay filed.now.day) }
{
    Ok(FiledRow {
        unit: filed.unit,
        half: filed.half,
        revision: filed.revision,
        day: filed.day.number(),
        months: months_bytes(alloc, filed.cells.months.as_slice())?,
        delays: delays_bytes(alloc, filed.cells.delays.as_slice())?,
        stops: stops_bytes(alloc, filed.cells.stops.as_slice())?,
    })
}
/// The report of a row. It is an error if the row does not read back as one.
fn filed_of(alloc: Global, row: &FiledRow) -> Result<Filed, FilingFault>
    ensures value { IfOk result (λ filed. IsRowOf filed row.now) }
    ensures numbered { IfOk result (λ filed. 1 ≤ filed.revision) }
    ensures reads_back { (given : FiledReport) → CanBeKept given → IsRowOf given row.now → IsReadBack result given }
{
    if row.revision == 0 {
        return Err(FilingFault::Failed);
    }
    let Some(day) = Day::of_number(row.day) else {
        return Err(FilingFault::Failed);
    };
    let cells = cells_of(alloc, row)?;
    Ok(Filed {
        unit: row.unit,
        half: row.half,
        revision: row.revision,
        day,
        cells,
    })
}

/// The cells that a row spells.
fn cells_of(alloc: Global, row: &FiledRow) -> Result<Cells, FilingFault>
    ensures months { IfOk result (λ cells. row.now.months.items ≡ months_bytes cells.months) }
    ensures delays { IfOk result (λ cells. row.now.delays.items ≡ delays_bytes cells.delays) }
    ensures stops { IfOk result (λ cells. row.now.stops.items ≡ stops_bytes cells.stops) }
    ensures reads_back { (given : GivenCells) → AreCells given → row.now.months.items ≡ months_bytes given.months
        → row.now.delays.items ≡ delays_bytes given.delays → row.now.stops.items ≡ stops_bytes given.stops → IsReadBack result given }
{
    let Some(months) = months_of(&row.months) else {
        return Err(FilingFault::Failed);
    };
    let Some(delays) = delays_of(alloc, &row.delays)? else {
        return Err(FilingFault::Failed);
    };
    let Some(stops) = stops_of(alloc, &row.stops)? else {
        return Err(FilingFault::Failed);
    };
    Ok(Cells {
        months,
        delays: Items::new(delays),
        stops: Items::new(stops),
    })
}

/// The report of the row that was found, if there is one.
pub(crate) fn found_in(
    alloc: Global,
    ran: Result<Option<FiledRow>, Error>,
) -> Result<Option<Filed>, FilingFault>
    ensures value { IfOk result (IsReadFrom ran) }
{
    match ran {
        Ok(Some(row)) => Ok(Some(filed_of(alloc, &row)?)),
        Ok(None) => Ok(None),
        Err(error) => Err(fault_of(error)),
    }
}
