use crate::asked::{Row, shows, shows_row};
use crate::histories::{CRUDE, PASSES, office};
use crate::words::joined;
use ldar_days::Day;
use ldar_law::{Report, What};
use memory_office::Office;
use office_views::AskError;
use std::alloc::Global;
use std::test::Fail;
use test_kit::same;

/// A leak of valve 1 on 2024-02-20.
const LEAK: &str = "7: 2024-02-20 300 calibration 500; 2024-02-20 615 reading 1 620 0\n";

/// An attempt two days later.
const ATTEMPT: &str = "7: 2024-02-22 600 attempt 1\n";

/// A clean reading on the last day for the repair, and one on the next day.
const IN_TIME: &str = "7: 2024-03-06 300 calibration 500; 2024-03-06 600 reading 1 20 0\n";

const LATE: &str = "7: 2024-03-07 300 calibration 500; 2024-03-07 600 reading 1 20 0\n";

/// The first lines of the report of the half from October 2023 on, with a leak in February; March is missing.
const WINTER: &str = "report CRUDE unit 1 half 8 as of 2024-03-31\n\
    2023-10 valves 0 0 pumps 0 0 compressors 0 0\n\
    2023-11 valves 0 0 pumps 0 0 compressors 0 0\n\
    2023-12 valves 0 0 pumps 0 0 compressors 0 0\n\
    2024-01 valves 0 0 pumps 0 0 compressors 0 0\n\
    2024-02 valves 1 0 pumps 0 0 compressors 0 0\n";

/// The rest of the report after a clean reading.
const REPAIRS: [(&str, &str); 2] = [
    (
        LATE,
        "2024-03 valves 0 1 pumps 0 0 compressors 0 0\nend 6\n",
    ),
    (
        IN_TIME,
        "2024-03 valves 0 0 pumps 0 0 compressors 0 0\nend 6\n",
    ),
];

#[test]
fn a_report_counts_a_late_repair_in_the_month_of_its_due_day(rt: HostRuntime) -> Result<(), Fail> {
    for (clean, march) in &REPAIRS {
        let want = joined(rt.alloc(), &[WINTER, march])?;
        let row = (*clean, "report 1 8 2024-03-31", "", want.as_str());
        shows_row(&rt, rt.alloc(), &[CRUDE, PASSES, LEAK, ATTEMPT], &row)?;
    }
    Ok(())
}

/// The report of a half as of 2024-03-31.
fn asked(office: &mut Office, unit: u16, half: u16) -> Result<Result<Report, AskError>, Fail> {
    let day = Day::read(b"2024-03-31").ok_or("day")?;
    Ok(office.report(unit, half, day))
}

/// The number of leaking valves in the fifth month of a report, if it has no delays and no shutdowns.
fn only_counted(report: &Report) -> Option<u32> {
    let cells = &report.cells;
    if cells.delays.as_slice().is_empty() && cells.stops.as_slice().is_empty() {
        return Some(cells.months.as_slice()[24]);
    }
    None
}

/// The report of half 8 of unit 1.
fn report_of(office: &mut Office) -> Result<Report, Fail> {
    let report = asked(office, 1, 8)?;
    Ok(report.ok().ok_or("report")?)
}

/// The office after it adopts a history, which is given in parts.
fn office_of(alloc: Global, parts: &[&str]) -> Result<Office, Fail> {
    let history = joined(alloc, parts)?;
    office(alloc, history.as_str())
}

#[test]
fn components_are_counted_and_not_leaks(rt: HostRuntime) -> Result<(), Fail> {
    let again = "7: 2024-02-27 300 calibration 500; 2024-02-27 600 reading 1 900 0\n";
    let parts = &[CRUDE, PASSES, LEAK, ATTEMPT, IN_TIME, again];
    let mut office = office_of(rt.alloc(), parts)?;
    let report = report_of(&mut office)?;
    same("half", &report.half, &8)?;
    same("valves", &only_counted(&report), &Some(1))
}

/// Checks that a half of a unit has no report, and what does not exist.
fn has_none(office: &mut Office, unit: u16, half: u16, what: What) -> Result<(), Fail> {
    let none = asked(office, unit, half)?.err().ok_or("none")?;
    same(what.word(), &none, &AskError::NoSuch(what))
}

/// Checks that half 9 does not exist yet, half 0 never, and neither does unit 9.
fn has_no_others(office: &mut Office) -> Result<(), Fail> {
    has_none(office, 1, 9, What::Half)?;
    has_none(office, 1, 0, What::Half)?;
    has_none(office, 9, 8, What::Unit)
}

#[test]
fn what_there_is_no_report_of_is_told(rt: HostRuntime) -> Result<(), Fail> {
    let mut office = office_of(rt.alloc(), &[CRUDE, PASSES])?;
    has_no_others(&mut office)
}

/// The report of the half from April 2024 on, after a delay and a shutdown.
const DELAYED: [Row<'static>; 1] = [(
    "7: 2024-03-01 600 delay 1 a 9 2024-06-10\n0: 2024-06-01 0 shutdown 1 14\n",
    "report 1 9 2024-07-01",
    "",
    "report CRUDE unit 1 half 9 as of 2024-07-01\n\
     2024-04 valves 0 0 pumps 0 0 compressors 0 0\n\
     2024-05 valves 0 0 pumps 0 0 compressors 0 0\n\
     2024-06 valves 0 1 pumps 0 0 compressors 0 0\n\
     2024-07 valves 0 0 pumps 0 0 compressors 0 0\n\
     2024-08 valves 0 0 pumps 0 0 compressors 0 0\n\
     2024-09 valves 0 0 pumps 0 0 compressors 0 0\n\
     delay 1 detected 2024-02-20 ground a signer 9 expected 2024-06-10 until 2024-06-14 closed -\n\
     shutdown 2024-06-01 2024-06-14\nend 8\n",
)];

#[test]
fn a_delayed_repair_and_a_shutdown_stand_in_the_report(rt: HostRuntime) -> Result<(), Fail> {
    shows(&rt, rt.alloc(), &[CRUDE, PASSES, LEAK], &DELAYED)
}
