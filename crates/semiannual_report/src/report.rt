ghost use Rattle.std.specs.Prelude.{◌≡◌, ◌≤◌, ◌↔◌, false, IfOk, IfErr, IsErrOf};
ghost use Rattle.ldar_law.specs.Reports as law;
ghost use Rattle.ldar_law.specs.declared.numbers.TheConstants.{LAST_FACT_DAY};
ghost use Rattle.semiannual_report.specs.Columns.{AreOfComponents};
ghost use Rattle.semiannual_report.specs.Halves.{first_reported};

use crate::cells::half_cells;
use crate::error::ReportError;
use crate::half::{first_day_reported, half_first, half_last, half_month, has_half_begun};
use crate::lines::{delay_lines, stops_in};
use ldar_days::Day;
use ldar_law::{Cells, Items, Report, Sheet, Stop, UnitEntry};
use std::alloc::Global;

/// The report of a half as known on a day (40 CFR 60.487a(c)). It is made from the sheets of the unit's components and from
/// the unit's shutdowns in key order. The sheets must be of distinct components in ascending order, or the result has no meaning.
pub fn report_of(
    alloc: Global,
    unit: &UnitEntry,
    half: u16,
    day: Day,
    sheets: &[Sheet],
    stops: &[Stop],
) -> Result<Report, ReportError>
    requires startup { unit.now.startup ≤ LAST_FACT_DAY }
    ensures value { IfOk result (λ report. AreOfComponents sheets.now → report ≡ law.report_on unit.now half day sheets.now stops.now) }

    // The error is returned exactly if the half is 0 or has not begun.
    ensures none { IsErrOf result (ReportError.NoHalf (first_reported unit.now.startup half)) ↔ (law.has_half_begun unit.now.startup half day ≡ false) }
    ensures first { (first : Day) → result ≡ Err (ReportError.NoHalf first) → first ≡ first_reported unit.now.startup half }
{
    if !has_half_begun(unit.startup, half, day) {
        return Err(ReportError::NoHalf {
            first: first_day_reported(unit.startup, half),
        });
    }
    let first = half_first(unit.startup, half);
    let last = half_last(unit.startup, half);
    let months = half_cells(day, sheets, half_month(unit.startup, half));
    let delays = delay_lines(alloc, first, last, sheets)?;
    let stops = stops_in(alloc, first, last, stops)?;
    Ok(Report {
        unit: unit.unit,
        name: unit.name,
        half,
        day,
        cells: Cells {
            months,
            delays: Items::new(delays),
            stops: Items::new(stops),
        },
    })
}
