//! The marks of a valve for the quarters of its unit.

ghost use Rattle.std.specs.Prelude.{◌≤◌};
ghost use Rattle.list_words.specs.Order.{Ascends};
ghost use Rattle.fact_kinds.specs.Facts.{is_earlier};

use crate::skips::quarters::{same, startup};
use crate::words::key;
use fact_kinds::{Class, Designation, Key, Kind, Service};
use ldar_days::Day;
use ldar_law::{Equipment, Event, Happening};
use skip_periods::{Mark, mark, marks_to};
use std::alloc::Global;
use std::process::Abort;
use std::test::Fail;
use test_kit::day;

/// A valve in gas service.
fn valve(begin: Day, designation: Designation) -> Equipment {
    Equipment {
        component: 1,
        unit: 1,
        kind: Kind::Valve,
        monomer: false,
        replaces: false,
        begin,
        retired: None,
        class: Class {
            service: Service::Gas,
            designation,
            plan: 0,
            month: 1,
        },
    }
}

/// A counting routine reading that is no leak.
const CLEAN_READING: Happening = Happening::Read {
    ppm: 500,
    background: 0,
    routine: true,
    counts: true,
    below: true,
    leak: false,
};

/// A counting routine reading that is a leak.
const LEAK: Happening = Happening::Read {
    ppm: 500,
    background: 0,
    routine: true,
    counts: true,
    below: false,
    leak: true,
};

/// A counting follow-up reading that is a leak but no routine monitoring.
const LEAK_AGAIN: Happening = Happening::Read {
    ppm: 700,
    background: 0,
    routine: false,
    counts: true,
    below: false,
    leak: true,
};

/// A visual inspection that finds a leak.
const DRIPS: Happening = Happening::Look {
    drips: true,
    designated: true,
    leak: true,
};

const UNCOUNTED: Mark = Mark {
    leaking: false,
    monitored: false,
};

const CLEAN: Mark = Mark {
    leaking: false,
    monitored: true,
};

const FOUND: Mark = Mark {
    leaking: true,
    monitored: true,
};

/// An event at a valve on a day.
type On<'a> = (&'a str, Happening);

/// The events of a valve.
fn events_of(alloc: Global, told: &[On]) -> Result<Vec<Event>, Fail> {
    let mut events = Vec::new(alloc);
    for (text, what) in told {
        let key = key(day(text)?, 0);
        events.push(Event { key, what: *what })?;
    }
    Ok(events)
}

/// Checks the mark of quarter 16 on its last day, for a valve that began with its unit.
fn counts(
    rt: &impl Abort,
    alloc: Global,
    designation: Designation,
    told: &[On],
    delayed: bool,
    want: Mark,
) -> Result<(), Fail> {
    let begin = day("2020-01-15")?;
    let view = day("2024-03-31")?;
    let item = valve(begin, designation);
    let events = events_of(alloc, told)?;
    let found = mark(&item, &[], startup(), &events, delayed, 16, view);
    same(rt, "quarter", 16, &found, &want);
    Ok(())
}

#[test]
fn a_valve_counts_by_its_readings_and_its_delay(rt: HostRuntime) -> Result<(), Fail> {
    let alloc = rt.alloc();
    let (plain, sealed) = (Designation::Plain, Designation::Nde);
    let leak = [("2024-03-31", LEAK)];
    let before = [("2023-12-31", LEAK)];
    // A leak that no routine reading found does not count in its quarter.
    let found_else = [("2024-02-01", LEAK_AGAIN), ("2024-02-02", DRIPS)];
    counts(
        &rt,
        alloc,
        plain,
        &[("2024-01-01", CLEAN_READING)],
        false,
        CLEAN,
    )?;
    counts(&rt, alloc, plain, &leak, false, FOUND)?;
    counts(&rt, alloc, plain, &before, false, UNCOUNTED)?;
    counts(&rt, alloc, plain, &before, true, FOUND)?;
    counts(&rt, alloc, plain, &found_else, false, UNCOUNTED)?;
    counts(&rt, alloc, sealed, &leak, true, UNCOUNTED)
}

/// Checks the mark on a day of a valve whose first monitoring is due on 2024-05-10, in quarter 17.
fn new_counts(
    rt: &impl Abort,
    alloc: Global,
    told: &[On],
    quarter: u16,
    view: &str,
    want: Mark,
) -> Result<(), Fail>
    requires first { 1 ≤ quarter }
{
    let begin = day("2024-04-10")?;
    let on = day(view)?;
    let item = valve(begin, Designation::Plain);
    let events = events_of(alloc, told)?;
    let found = mark(&item, &[], startup(), &events, false, quarter, on);
    same(rt, view, quarter, &found, &want);
    Ok(())
}

#[test]
fn a_missed_first_monitoring_counts(rt: HostRuntime) -> Result<(), Fail> {
    let alloc = rt.alloc();
    let made = [("2024-05-10", CLEAN_READING)];
    new_counts(&rt, alloc, &[], 17, "2024-05-10", UNCOUNTED)?;
    new_counts(&rt, alloc, &[], 17, "2024-05-11", FOUND)?;
    new_counts(&rt, alloc, &made, 17, "2024-05-11", CLEAN)?;
    new_counts(&rt, alloc, &[], 18, "2024-05-11", UNCOUNTED)
}

/// Checks the mark at this place, from 0.
fn marked(rt: &impl Abort, marks: &[Mark], place: u16, want: Mark) {
    let found = marks.get(usize::from(place)).copied();
    same(rt, "behind quarters", place, &found, &Some(want));
}

/// The marks of 368 quarters as of 2024-09-30, for a valve that began with its unit and whose repair is delayed in
/// quarter 17.
fn walked(
    rt: &impl Abort,
    alloc: Global,
    classes: &[(Key, Class)],
    events: &[Event],
) -> Result<Vec<Mark>, Fail>
    requires ordered { Ascends (λ a b. is_earlier a.0 b.0) classes.now }
{
    let begin = day("2020-01-15")?;
    let view = day("2024-09-30")?;
    let item = valve(begin, Designation::Plain);
    let mut delayed = [false; 17];
    delayed[16] = true;
    let marks = marks_to(
        alloc,
        &item,
        classes,
        startup(),
        events,
        &delayed,
        368,
        view,
    )?;
    same(rt, "quarters", 368, &marks.len(), &368);
    Ok(marks)
}

/// Checks that `mark` gives each quarter the same mark as that walk.
fn marked_as_alone(
    rt: &impl Abort,
    classes: &[(Key, Class)],
    events: &[Event],
    marks: &[Mark],
) -> Result<(), Fail>
    requires ordered { Ascends (λ a b. is_earlier a.0 b.0) classes.now }
{
    let begin = day("2020-01-15")?;
    let view = day("2024-09-30")?;
    let item = valve(begin, Designation::Plain);
    for place in 0..368u16 {
        let is_delayed = place == 16;
        let alone = mark(
            &item,
            classes,
            startup(),
            events,
            is_delayed,
            place + 1,
            view,
        );
        marked(rt, marks, place, alone);
    }
    Ok(())
}

/// Routine readings in quarters 15, 16 and 18. The leaks in quarters 14 and 16 were found by no routine reading.
const EVENTS: [On<'static>; 7] = [
    ("2023-08-01", LEAK_AGAIN),
    ("2023-08-02", DRIPS),
    ("2023-12-31", LEAK),
    ("2024-01-01", CLEAN_READING),
    ("2024-02-01", LEAK_AGAIN),
    ("2024-07-05", CLEAN_READING),
    ("2024-07-20", LEAK),
];

/// The number of earlier quarters; and the quarter's mark, if the valve keeps its class, and if it has no detectable
/// emissions from quarter 18 on.
const MARKS: [(u16, Mark, Mark); 6] = [
    (13, UNCOUNTED, UNCOUNTED),
    (14, FOUND, FOUND),
    (15, CLEAN, CLEAN),
    (16, FOUND, FOUND),
    (17, FOUND, UNCOUNTED),
    (18, UNCOUNTED, UNCOUNTED),
];

#[test]
fn a_walk_over_the_events_marks_as_each_quarter_alone(rt: HostRuntime) -> Result<(), Fail> {
    let from = day("2024-07-01")?;
    let sealed = [(key(from, 0), valve(from, Designation::Nde).class)];
    let events = events_of(rt.alloc(), &EVENTS)?;
    let marks = walked(&rt, rt.alloc(), &[], &events)?;
    let kept = walked(&rt, rt.alloc(), &sealed, &events)?;
    for (place, plain, under_class) in &MARKS {
        marked(&rt, &marks, *place, *plain);
        marked(&rt, &kept, *place, *under_class);
    }
    marked_as_alone(&rt, &sealed, &events, &kept)
}

/// Checks the marks on a day of this many quarters, for a valve whose first monitoring is due on 2024-05-10: this mark in
/// quarter 17, and empty marks in the others.
fn first_counts_once(
    rt: &impl Abort,
    alloc: Global,
    quarters: u16,
    view: &str,
    first: Mark,
) -> Result<(), Fail> {
    let begin = day("2024-04-10")?;
    let on = day(view)?;
    let item = valve(begin, Designation::Plain);
    let marks = marks_to(alloc, &item, &[], startup(), &[], &[], quarters, on)?;
    same(rt, view, quarters, &marks.len(), &usize::from(quarters));
    for place in 0..quarters {
        let want = if place == 16 { first } else { UNCOUNTED };
        marked(rt, &marks, place, want);
    }
    Ok(())
}

#[test]
fn a_walk_counts_a_missed_first_monitoring_once(rt: HostRuntime) -> Result<(), Fail> {
    let alloc = rt.alloc();
    first_counts_once(&rt, alloc, 18, "2024-05-10", UNCOUNTED)?;
    first_counts_once(&rt, alloc, 18, "2024-05-11", FOUND)?;
    first_counts_once(&rt, alloc, 0, "2024-05-11", UNCOUNTED)
}
