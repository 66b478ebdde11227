ghost use Rattle.std.specs.Prelude.{◌≤◌, IfOk};
ghost use Rattle.ldar_law.specs.declared.numbers.TheConstants.{LAST_FACT_DAY};

use fact_kinds::{Key, Kind, Name};
use ldar_days::Day;
use ldar_law::{DelayEntry, Items, Report, Sheet, Stop, Tag, UnitEntry, Until, repair_by};
use semiannual_report::{ReportError, has_half_begun, report_of};
use std::alloc::Global;
use std::process::Abort;
use std::test::Fail;
use test_kit::{day, same};

/// A process unit that started up on 2020-01-15: quarter 1 begins in April 2020, half 8 in October 2023.
fn unit() -> Result<UnitEntry, Fail>
    ensures startup { IfOk result (λ unit. unit.startup ≤ LAST_FACT_DAY) }
{
    Ok(UnitEntry {
        unit: 1,
        name: Name::new(b"CRUDE").ok_or("name")?,
        startup: Day::at(18_276),
        older: false,
    })
}

/// The day with this text, if there is a text.
fn day_if(text: Option<&str>) -> Result<Option<Day>, Fail> {
    match text {
        Some(text) => Ok(Some(day(text)?)),
        None => Ok(None),
    }
}

/// The days of a tag's detection and of its closing.
type Days<'a> = (&'a str, Option<&'a str>);

/// A tag without a delay, closed on a day or open.
fn tag(component: u16, days: Days) -> Result<Tag, Fail> {
    let detected = day(days.0)?;
    let closed = day_if(days.1)?;
    Ok(Tag {
        component,
        detected,
        attempt_due: detected.plus_days(5),
        attempted: None,
        repair_due: Until::Date(repair_by(detected)),
        closed,
        delay: None,
        removable: false,
    })
}

/// A tag with a delay until a shutdown that is not entered.
fn delayed(component: u16, days: Days) -> Result<Tag, Fail> {
    let tag = tag(component, days)?;
    let key = Key {
        day: tag.detected,
        minute: 600,
        handheld: 7,
        number: 12,
        index: 0,
    };
    let delay = DelayEntry {
        key,
        ground: 1,
        signer: 9,
        expected: None,
    };
    Ok(Tag {
        repair_due: Until::Shutdown,
        delay: Some(delay),
        ..tag
    })
}

/// The sheet of a component with these leaks, by a day in the month of each, and these tags.
fn sheet(
    alloc: Global,
    component: u16,
    kind: Kind,
    leaks: &[&str],
    tags: &[Tag],
) -> Result<Sheet, Fail> {
    let mut months = Vec::new(alloc);
    for leak in leaks {
        months.push(day(leak)?.month())?;
    }
    let tags = Vec::from_slice(alloc, tags)?;
    Ok(Sheet {
        component,
        kind,
        leaks: Items::new(months),
        tags: Items::new(tags),
    })
}

/// The report of a half as of a day.
fn report(
    alloc: Global,
    half: u16,
    text: &str,
    sheets: &[Sheet],
    stops: &[Stop],
) -> Result<Report, Fail> {
    let unit = unit()?;
    let day = day(text)?;
    match report_of(alloc, &unit, half, day, sheets, stops) {
        Ok(report) => Ok(report),
        Err(_) => Err(Fail::from("report")),
    }
}

/// A component: its number and kind, the days of its leaks, and the days of its one tag.
type Leaking<'a> = (u16, Kind, &'a [&'a str], Days<'a>);

/// The sheet of a component with one tag.
fn one_tag(alloc: Global, (component, kind, leaks, days): Leaking) -> Result<Sheet, Fail> {
    let tag = tag(component, days)?;
    sheet(alloc, component, kind, leaks, &[tag])
}

/// A valve with two leaks in February and a tag that was closed one day late.
const VALVE: Leaking<'static> = (
    1,
    Kind::Valve,
    &["2024-02-20", "2024-02-28"],
    ("2024-02-20", Some("2024-03-07")),
);

/// A valve with a tag that was closed on its due day.
const OTHER_VALVE: Leaking<'static> = (
    2,
    Kind::Valve,
    &["2024-02-01"],
    ("2024-02-01", Some("2024-02-16")),
);

/// A pump with a leak in October and an open tag.
const PUMP: Leaking<'static> = (5, Kind::Pump, &["2023-10-01"], ("2023-10-01", None));

/// A relief device, which has no column.
const RELIEF: Leaking<'static> = (8, Kind::Relief, &["2024-01-10"], ("2024-01-10", None));

/// A compressor with leaks before the half, after it, and on its last day.
const COMPRESSOR: Leaking<'static> = (
    9,
    Kind::Compressor,
    &["2023-09-30", "2024-04-01", "2024-03-31"],
    ("2024-03-31", None),
);

/// The report of half 8 on its last day, of these components.
fn known_of(alloc: Global, components: &[Leaking]) -> Result<Report, Fail> {
    let mut sheets = Vec::new(alloc);
    for leaking in components {
        let sheet = one_tag(alloc, *leaking)?;
        sheets.push(sheet)?;
    }
    report(alloc, 8, "2024-03-31", &sheets, &[])
}

const COUNTS: [u32; 36] = [
    0, 0, 1, 1, 0, 0, // October 2023
    0, 0, 0, 0, 0, 0, // November
    0, 0, 0, 0, 0, 0, // December
    0, 0, 0, 0, 0, 0, // January 2024
    2, 0, 0, 0, 0, 0, // February
    0, 1, 0, 0, 1, 0, // March
];

#[test]
fn components_are_counted_by_month_and_kind(rt: HostRuntime) -> Result<(), Fail> {
    let components = [VALVE, OTHER_VALVE, PUMP, RELIEF, COMPRESSOR];
    let known = known_of(rt.alloc(), &components)?;
    let day = day("2024-03-31")?;
    let months = known.cells.months.as_slice();
    same("months", &months, &COUNTS.as_slice())?;
    assert!(rt; known.name.as_bytes() == b"CRUDE".as_slice());
    same("unit", &known.unit, &1)?;
    same("half", &known.half, &8)?;
    same("day", &known.day, &day)
}

/// Whether a half has begun by a day, and the error if it has no report on that day.
fn begun_on(alloc: Global, half: u16, text: &str) -> Result<(bool, Option<ReportError>), Fail> {
    let unit = unit()?;
    let day = day(text)?;
    let begun = has_half_begun(unit.startup, half, day);
    let refusal = report_of(alloc, &unit, half, day, &[], &[]).err();
    Ok((begun, refusal))
}

/// Checks that a half has not begun by a day, and the first day that is reported.
fn is_to_come(
    rt: &impl Abort,
    alloc: Global,
    half: u16,
    text: &str,
    first: &str,
) -> Result<(), Fail> {
    let first = day(first)?;
    let found = begun_on(alloc, half, text)?;
    let want = (false, Some(ReportError::NoHalf { first }));
    begins(rt, half, found, want);
    Ok(())
}

/// Checks that a half has begun by a day.
fn has_begun(rt: &impl Abort, alloc: Global, half: u16, text: &str) -> Result<(), Fail> {
    let found = begun_on(alloc, half, text)?;
    begins(rt, half, found, (true, None));
    Ok(())
}

/// Checks that the expected result was found for a half.
fn begins(
    rt: &impl Abort,
    half: u16,
    found: (bool, Option<ReportError>),
    want: (bool, Option<ReportError>),
) {
    if found != want {
        panic!(rt; "half {half}: {found:?}, not {want:?}");
    }
}

#[test]
fn a_half_has_begun_on_its_first_day(rt: HostRuntime) -> Result<(), Fail> {
    let alloc = rt.alloc();
    is_to_come(&rt, alloc, 0, "2024-03-31", "2020-04-01")?;
    is_to_come(&rt, alloc, 1, "2020-03-31", "2020-04-01")?;
    is_to_come(&rt, alloc, 9, "2024-03-31", "2024-04-01")?;
    is_to_come(&rt, alloc, 161, "2099-12-31", "2099-12-31")?;
    is_to_come(&rt, alloc, 65_535, "2099-12-31", "2099-12-31")?;
    has_begun(&rt, alloc, 1, "2020-04-01")?;
    has_begun(&rt, alloc, 8, "2023-10-01")?;
    has_begun(&rt, alloc, 9, "2024-04-01")?;
    has_begun(&rt, alloc, 160, "2099-12-31")
}

/// Checks whether a delayed tag has a line in the half from 2023-10-01 to 2024-03-31, next to a tag without a delay.
fn has_line(alloc: Global, days: Days, stands: bool) -> Result<(), Fail> {
    let late = delayed(1, days)?;
    let plain = tag(1, days)?;
    let sheet = sheet(alloc, 1, Kind::Valve, &[], &[late, plain])?;
    let known = report(alloc, 8, "2024-06-30", &[sheet], &[])?;
    let lines = known.cells.delays.as_slice().len();
    same(days.0, &lines, &usize::from(stands))
}

#[test]
fn lines_are_of_tags_of_the_half(rt: HostRuntime) -> Result<(), Fail> {
    let alloc = rt.alloc();
    has_line(alloc, ("2023-09-01", Some("2023-09-30")), false)?;
    has_line(alloc, ("2023-09-01", Some("2023-10-01")), true)?;
    has_line(alloc, ("2023-09-01", None), true)?;
    has_line(alloc, ("2024-03-31", None), true)?;
    has_line(alloc, ("2024-04-01", None), false)
}

/// Checks whether a shutdown has a line in that half.
fn has_stop(alloc: Global, first: &str, last: &str, stands: bool) -> Result<(), Fail> {
    let begin = day(first)?;
    let end = day(last)?;
    let stop = Stop {
        first: begin,
        last: end,
    };
    let known = report(alloc, 8, "2024-06-30", &[], &[stop])?;
    let lines = known.cells.stops.as_slice().len();
    same(first, &lines, &usize::from(stands))
}

#[test]
fn lines_are_of_shutdowns_of_the_half(rt: HostRuntime) -> Result<(), Fail> {
    let alloc = rt.alloc();
    has_stop(alloc, "2023-09-20", "2023-09-30", false)?;
    has_stop(alloc, "2023-09-20", "2023-10-01", true)?;
    has_stop(alloc, "2024-03-31", "2024-04-02", true)?;
    has_stop(alloc, "2024-04-01", "2024-04-02", false)
}

/// A valve with a leak and two delayed tags.
fn two_delays(alloc: Global, component: u16) -> Result<Sheet, Fail> {
    let closed = delayed(component, ("2023-10-05", Some("2023-12-01")))?;
    let open = delayed(component, ("2024-01-05", None))?;
    sheet(
        alloc,
        component,
        Kind::Valve,
        &["2023-10-05"],
        &[closed, open],
    )
}

/// The report of 40 such valves.
fn known_of_forty(alloc: Global) -> Result<Report, Fail> {
    let mut sheets = Vec::new(alloc);
    for component in 1..=40 {
        let sheet = two_delays(alloc, component)?;
        sheets.push(sheet)?;
    }
    report(alloc, 8, "2024-03-31", &sheets, &[])
}

#[test]
fn lines_of_many_components_stand_in_their_order(rt: HostRuntime) -> Result<(), Fail> {
    let known = known_of_forty(rt.alloc())?;
    let day = day("2023-10-05")?;
    let lines = known.cells.delays.as_slice();
    same("lines", &lines.len(), &80)?;
    let component = lines.get(79).map(|line| line.component);
    same("last component", &component, &Some(40))?;
    let detected = lines.get(78).map(|line| line.detected);
    same("last but one", &detected, &Some(day))?;
    let count = known.cells.months.as_slice().first().copied();
    same("first count", &count, &Some(40))
}
