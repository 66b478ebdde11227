//! Rows for what no other test covers: yearly monitoring by the background, evidence, and the order of the list.

use crate::duties::cases::{ALL, Case, DRIPS, On, class, expect, item, pump, reading};
use fact_kinds::{Designation, Kind, Service};
use ldar_law::Happening;
use std::alloc::Global;
use std::process::Abort;
use std::test::Fail;

/// Checks the duties of a compressor without detectable emissions from 2023-12-15 on, with a reading on a day.
fn expect_sealed(
    rt: &impl Abort,
    alloc: Global,
    on: &str,
    ppm: u32,
    met: Option<&str>,
) -> Result<(), Fail> {
    let events = [(on, reading(ppm, 100, 500))];
    let sealed = class(Service::Gas, Designation::Nde, 0, 1);
    let case = Case {
        events: &events,
        ..item(Kind::Compressor, sealed, "2023-12-15")
    };
    // The year of the thirtieth day is the first one.
    expect(rt, alloc, &case, "2023-12-31", &ALL, &[])?;
    let due = "2024-12-31";
    expect(rt, alloc, &case, due, &ALL, &[(4, due, met)])
}

#[test]
fn no_detectable_emissions_are_shown_each_year(rt: HostRuntime) -> Result<(), Fail> {
    let cases = [
        ("2024-01-01", 599, Some("2024-01-01")),
        ("2024-06-30", 600, None),
        ("2024-06-30", 50, Some("2024-06-30")),
        ("2023-12-31", 50, None),
    ];
    for (on, ppm, met) in cases {
        expect_sealed(&rt, rt.alloc(), on, ppm, met)?;
    }
    Ok(())
}

const PRESENT: Happening = Happening::Evidence { present: true };

const GONE: Happening = Happening::Evidence { present: false };

/// A pump in heavy liquid service with these events.
fn heavy_pump<'a, 't>(events: &'a [On<'t>]) -> Case<'a, 't> {
    let heavy = class(Service::Heavy, Designation::Plain, 0, 1);
    Case {
        events,
        skipped: &[false; 20],
        ..item(Kind::Pump, heavy, "2020-01-15")
    }
}

/// Checks the duty after evidence on 2024-02-20, with an event on a day.
fn expect_evidence(
    rt: &impl Abort,
    alloc: Global,
    on: &str,
    what: Happening,
    met: Option<&str>,
) -> Result<(), Fail> {
    let events = [("2024-02-20", PRESENT), (on, what)];
    let case = heavy_pump(&events);
    let due = "2024-02-25";
    expect(rt, alloc, &case, due, &ALL, &[(9, due, met)])
}

#[test]
fn evidence_is_followed_within_five_days(rt: HostRuntime) -> Result<(), Fail> {
    let cases = [
        ("2024-02-25", GONE, Some("2024-02-25")),
        ("2024-02-26", GONE, None),
        ("2024-02-25", reading(20_000, 0, 10_000), Some("2024-02-25")),
        ("2024-02-21", Happening::Release, None),
    ];
    for (on, what, met) in cases {
        expect_evidence(&rt, rt.alloc(), on, what, met)?;
    }
    Ok(())
}

#[test]
fn evidence_of_the_next_day_does_not_meet_it(rt: HostRuntime) -> Result<(), Fail> {
    let events = [("2024-02-20", PRESENT), ("2024-02-21", PRESENT)];
    let case = heavy_pump(&events);
    let expected = [(9, "2024-02-25", None), (9, "2024-02-26", None)];
    expect(&rt, rt.alloc(), &case, "2024-02-25", &ALL, &expected)
}

#[test]
fn the_list_goes_by_cause_and_due_day(rt: HostRuntime) -> Result<(), Fail> {
    let case = Case {
        events: &[("2024-03-11", DRIPS), ("2024-03-12", DRIPS)],
        ..pump("2024-02-15")
    };
    let expected = [
        (1, "2024-03-16", None),
        (2, "2024-03-31", None),
        (6, "2024-02-25", None),
        (6, "2024-03-03", None),
        (6, "2024-03-10", None),
        (6, "2024-03-17", Some("2024-03-11")),
        (7, "2024-03-16", None),
        (7, "2024-03-17", None),
    ];
    expect(&rt, rt.alloc(), &case, "2024-03-12", &ALL, &expected)
}
