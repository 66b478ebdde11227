//! The duties of a component on a day, by cause.

mod cases;
mod causes;
mod definition;
mod histories;

use crate::duties::cases::{
    ALL, CLEAN, Case, DESIGNATED, DRIPS, DRY, Expected, LEAK, On, class, expect, expect_last, item,
    pump, reading, valve,
};
use fact_kinds::{Designation, Kind, Service};
use ldar_law::Happening;
use std::alloc::Global;
use std::process::Abort;
use std::test::Fail;

/// Readings that make the valve quarterly from July on.
fn two_clean_months<'t>() -> [On<'t>; 2] {
    [("2024-03-10", CLEAN), ("2024-04-10", CLEAN)]
}

#[test]
fn two_clean_months_make_the_next_quarter_quarterly(rt: HostRuntime) -> Result<(), Fail> {
    let events = two_clean_months();
    let alloc = rt.alloc();
    let case = Case {
        events: &events,
        skipped: &[false; 20],
        ..valve("2020-01-15")
    };
    let months = [
        ("2024-05-02", 2, "2024-05-31"),
        ("2024-06-30", 2, "2024-06-30"),
        ("2024-07-01", 3, "2024-07-31"),
    ];
    for (on, cause, due) in months {
        expect_last(&rt, alloc, &case, on, cause, due)?;
    }
    let owed = [(3, "2024-07-31", None)];
    expect(&rt, alloc, &case, "2024-08-20", &[3], &owed)
}

#[test]
fn a_skipped_quarter_has_no_quarterly_month(rt: HostRuntime) -> Result<(), Fail> {
    let events = two_clean_months();
    let mut skipped = [false; 20];
    skipped[17] = true;
    let case = Case {
        events: &events,
        skipped: &skipped,
        ..valve("2020-01-15")
    };
    expect(&rt, rt.alloc(), &case, "2024-08-20", &[3], &[])
}

/// A valve of a unit, both from 2024-01-15 on, with these events.
fn young_valve<'a, 't>(events: &'a [On<'t>], skipped: &'a [bool]) -> Case<'a, 't> {
    Case {
        startup: "2024-01-15",
        events,
        skipped,
        ..valve("2024-01-15")
    }
}

#[test]
fn a_late_leak_undoes_quarterly_months(rt: HostRuntime) -> Result<(), Fail> {
    let sound = [
        ("2024-02-10", CLEAN),
        ("2024-03-10", CLEAN),
        ("2024-04-10", CLEAN),
        ("2024-07-10", CLEAN),
    ];
    let leaking = [
        ("2024-02-10", CLEAN),
        ("2024-03-10", CLEAN),
        ("2024-04-10", CLEAN),
        ("2024-04-20", LEAK),
        ("2024-07-10", CLEAN),
    ];
    let alloc = rt.alloc();
    let owed = [(2, "2024-02-29", None)];
    let case = young_valve(&[], &[false; 2]);
    expect(&rt, alloc, &case, "2024-02-20", &ALL, &owed)?;
    let case = young_valve(&sound, &[false; 2]);
    expect(&rt, alloc, &case, "2024-09-10", &ALL, &[])?;
    let expected = [
        (2, "2024-05-31", None),
        (2, "2024-06-30", None),
        (2, "2024-08-31", None),
        (2, "2024-09-30", None),
    ];
    let case = young_valve(&leaking, &[false; 2]);
    expect(&rt, alloc, &case, "2024-09-10", &ALL, &expected)
}

#[test]
fn a_quarterly_valve_has_its_month(rt: HostRuntime) -> Result<(), Fail> {
    let events = two_clean_months();
    let second = class(Service::Gas, Designation::Plain, 0, 2);
    let case = Case {
        classes: &[("2024-05-01", second)],
        events: &events,
        skipped: &[false; 20],
        ..valve("2020-01-15")
    };
    let owed = [(3, "2024-08-31", None)];
    expect(&rt, rt.alloc(), &case, "2024-09-30", &[3], &owed)
}

/// A valve from 2024-02-10 on, with these events.
fn new_valve<'a, 't>(events: &'a [On<'t>]) -> Case<'a, 't> {
    Case {
        events,
        skipped: &[false; 20],
        ..valve("2024-02-10")
    }
}

#[test]
fn a_first_monitoring_is_owed_for_thirty_days(rt: HostRuntime) -> Result<(), Fail> {
    let late = [("2024-03-12", CLEAN)];
    let alloc = rt.alloc();
    let owed = [(1, "2024-03-11", None)];
    let case = new_valve(&[]);
    for on in ["2024-02-10", "2024-03-11", "2024-03-12", "2025-03-12"] {
        expect(&rt, alloc, &case, on, &[1], &owed)?;
    }
    expect(&rt, alloc, &case, "2025-03-13", &[1], &[])?;
    let missed = new_valve(&late);
    expect(&rt, alloc, &missed, "2024-03-12", &[1], &owed)
}

#[test]
fn a_first_monitoring_on_the_last_day_meets_it(rt: HostRuntime) -> Result<(), Fail> {
    let last = [("2024-03-11", CLEAN)];
    let met = new_valve(&last);
    let shown = [(1, "2024-03-11", Some("2024-03-11"))];
    expect(&rt, rt.alloc(), &met, "2024-03-11", &[1], &shown)?;
    expect(&rt, rt.alloc(), &met, "2024-03-12", &[1], &[])
}

/// A valve that is unsafe to monitor, with a plan of six months.
fn planned<'a, 't>(begin: &'t str) -> Case<'a, 't> {
    let class = class(Service::Gas, Designation::Unsafe, 6, 1);
    Case {
        skipped: &[false; 40],
        ..item(Kind::Valve, class, begin)
    }
}

#[test]
fn a_plan_has_windows_of_its_months(rt: HostRuntime) -> Result<(), Fail> {
    let alloc = rt.alloc();
    let case = planned("2024-01-20");
    expect(&rt, alloc, &case, "2024-01-31", &ALL, &[])?;
    let both = [(5, "2024-07-31", None), (5, "2025-01-31", None)];
    expect(&rt, alloc, &case, "2024-02-01", &ALL, &both[..1])?;
    expect(&rt, alloc, &case, "2024-07-31", &ALL, &both[..1])?;
    expect(&rt, alloc, &case, "2024-08-01", &ALL, &both)
}

#[test]
fn the_end_of_the_calendar_cuts_a_window(rt: HostRuntime) -> Result<(), Fail> {
    let late = planned("2099-09-20");
    let owed = [(5, "2099-12-31", None)];
    expect(&rt, rt.alloc(), &late, "2099-10-05", &[5], &owed)
}

/// Checks the duty after a release on 2024-02-20, with a reading on a day.
fn expect_released(
    rt: &impl Abort,
    alloc: Global,
    on: &str,
    ppm: u32,
    met: Option<&str>,
) -> Result<(), Fail> {
    let events = [
        ("2024-02-20", Happening::Release),
        (on, reading(ppm, 100, 500)),
    ];
    let gas = class(Service::Gas, Designation::Plain, 0, 1);
    let case = Case {
        events: &events,
        skipped: &[false; 20],
        ..item(Kind::Relief, gas, "2020-01-15")
    };
    let due = "2024-02-25";
    expect(rt, alloc, &case, due, &ALL, &[(8, due, met)])
}

#[test]
fn a_release_is_followed_within_five_days(rt: HostRuntime) -> Result<(), Fail> {
    let cases = [
        ("2024-02-24", 599, Some("2024-02-24")),
        ("2024-02-24", 600, None),
        ("2024-02-25", 599, Some("2024-02-25")),
        ("2024-02-26", 599, None),
    ];
    for (on, ppm, met) in cases {
        expect_released(&rt, rt.alloc(), on, ppm, met)?;
    }
    Ok(())
}

/// A clean reading of a pump.
const BELOW: Happening = Happening::Read {
    ppm: 1_999,
    background: 0,
    routine: true,
    counts: true,
    below: true,
    leak: false,
};

/// Checks the duties on a day after the drips of a pump with these events.
fn expect_drips(
    rt: &impl Abort,
    alloc: Global,
    events: &[On<'_>],
    on: &str,
    expected: &[Expected<'_>],
) -> Result<(), Fail> {
    let case = Case {
        events,
        skipped: &[false; 20],
        ..pump("2020-01-15")
    };
    expect(rt, alloc, &case, on, &[7], expected)
}

#[test]
fn repeated_drips_ask_for_nothing(rt: HostRuntime) -> Result<(), Fail> {
    let once = [("2024-02-19", DRIPS), ("2024-02-22", BELOW)];
    let twice = [
        ("2024-02-19", DRIPS),
        ("2024-02-22", BELOW),
        ("2024-02-26", DRIPS),
    ];
    // Drips that are designated count as earlier drips.
    let after_designated = [
        ("2024-02-19", DESIGNATED),
        ("2024-02-22", BELOW),
        ("2024-02-26", DRIPS),
    ];
    // After a dry visual inspection between them, drips are new.
    let after_dry = [
        ("2024-02-19", DRIPS),
        ("2024-02-22", BELOW),
        ("2024-02-24", DRY),
        ("2024-02-26", DRIPS),
    ];
    let alloc = rt.alloc();
    let met = [(7, "2024-02-24", Some("2024-02-22"))];
    expect_drips(&rt, alloc, &once, "2024-02-23", &met)?;
    expect_drips(&rt, alloc, &twice, "2024-02-26", &[])?;
    expect_drips(&rt, alloc, &after_designated, "2024-02-26", &[])?;
    let fresh = [(7, "2024-03-02", None)];
    expect_drips(&rt, alloc, &after_dry, "2024-02-26", &fresh)
}

#[test]
fn a_pump_is_looked_at_each_week(rt: HostRuntime) -> Result<(), Fail> {
    let case = Case {
        startup: "2024-02-05",
        events: &[("2024-02-21", DRY)],
        ..pump("2024-02-05")
    };
    let expected = [
        (6, "2024-02-18", None),
        (6, "2024-02-25", Some("2024-02-21")),
    ];
    expect(&rt, rt.alloc(), &case, "2024-02-22", &[6], &expected)
}

#[test]
fn the_class_of_the_judging_day_decides(rt: HostRuntime) -> Result<(), Fail> {
    let difficult = class(Service::Gas, Designation::Difficult, 0, 1);
    let case = Case {
        classes: &[("2024-03-15", difficult)],
        ..young_valve(&[], &[])
    };
    let monthly = [(2, "2024-02-29", None), (2, "2024-03-31", None)];
    expect(&rt, rt.alloc(), &case, "2024-03-14", &ALL, &monthly)?;
    let yearly = [(2, "2024-02-29", None), (4, "2024-12-31", None)];
    expect(&rt, rt.alloc(), &case, "2024-03-15", &ALL, &yearly)
}

#[test]
fn a_retired_valve_keeps_the_months_before(rt: HostRuntime) -> Result<(), Fail> {
    let alloc = rt.alloc();
    let case = Case {
        retired: Some("2024-04-10"),
        ..young_valve(&[], &[])
    };
    let before = [
        (2, "2024-02-29", None),
        (2, "2024-03-31", None),
        (2, "2024-04-30", None),
    ];
    expect(&rt, alloc, &case, "2024-04-09", &ALL, &before)?;
    expect(&rt, alloc, &case, "2024-04-10", &ALL, &before[..2])?;
    expect(&rt, alloc, &case, "2025-03-31", &ALL, &before[1..2])
}
