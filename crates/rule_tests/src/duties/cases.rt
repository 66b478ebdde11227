//! The component of a row, and the duties expected on a day.

use crate::words::key;
use fact_kinds::{Class, Designation, Key, Kind, Service};
use ldar_days::Day;
use ldar_law::{Equipment, Event, Happening};
use monitor_calendar::{Duty, are_classes_ordered, are_events_ordered, duties_of};
use std::alloc::Global;
use std::process::Abort;
use std::test::Fail;
use test_kit::day;

/// An event on a day, at ten o'clock.
pub type On<'t> = (&'t str, Happening);

/// A counting routine reading, by a leak definition.
pub fn reading(ppm: u32, background: u32, limit: u32) -> Happening {
    Happening::Read {
        ppm,
        background,
        routine: true,
        counts: true,
        below: ppm < limit,
        leak: limit <= ppm,
    }
}

/// A clean reading of a valve.
pub const CLEAN: Happening = Happening::Read {
    ppm: 10,
    background: 0,
    routine: true,
    counts: true,
    below: true,
    leak: false,
};

/// A reading of a valve that is a leak.
pub const LEAK: Happening = Happening::Read {
    ppm: 700,
    background: 0,
    routine: true,
    counts: true,
    below: false,
    leak: true,
};

/// A visual inspection of a pump that finds drips.
pub const DRIPS: Happening = Happening::Look {
    drips: true,
    designated: false,
    leak: false,
};

/// A visual inspection that designates drips as a leak.
pub const DESIGNATED: Happening = Happening::Look {
    drips: true,
    designated: true,
    leak: true,
};

/// A dry visual inspection.
pub const DRY: Happening = Happening::Look {
    drips: false,
    designated: false,
    leak: false,
};

/// A class from its parts.
pub fn class(service: Service, designation: Designation, plan: u8, month: u8) -> Class {
    Class {
        service,
        designation,
        plan,
        month,
    }
}

/// A component with its classes and events, in a unit that started up on a day. Days are texts.
#[derive(Clone, Copy)]
pub struct Case<'a, 't> {
    pub kind: Kind,
    pub class: Class,
    pub begin: &'t str,
    pub retired: Option<&'t str>,
    pub classes: &'a [(&'t str, Class)],
    pub startup: &'t str,
    pub events: &'a [On<'t>],
    pub skipped: &'a [bool],
}

/// A component that begins on a day, in a unit that started up on 2020-01-15, without further classes and events.
pub fn item<'a, 't>(kind: Kind, class: Class, begin: &'t str) -> Case<'a, 't> {
    Case {
        kind,
        class,
        begin,
        retired: None,
        classes: &[],
        startup: "2020-01-15",
        events: &[],
        skipped: &[],
    }
}

/// A valve in gas service.
pub fn valve<'a, 't>(begin: &'t str) -> Case<'a, 't> {
    item(
        Kind::Valve,
        class(Service::Gas, Designation::Plain, 0, 1),
        begin,
    )
}

/// A pump in light liquid service.
pub fn pump<'a, 't>(begin: &'t str) -> Case<'a, 't> {
    item(
        Kind::Pump,
        class(Service::Light, Designation::Plain, 0, 1),
        begin,
    )
}

/// The day with this text, if there is one.
fn day_if(text: Option<&str>) -> Result<Option<Day>, Fail> {
    match text {
        Some(text) => Ok(Some(day(text)?)),
        None => Ok(None),
    }
}

/// The component of a case.
fn equipment(case: &Case<'_, '_>) -> Result<Equipment, Fail> {
    let begin = day(case.begin)?;
    let retired = day_if(case.retired)?;
    Ok(Equipment {
        component: 30,
        unit: 1,
        kind: case.kind,
        monomer: false,
        replaces: false,
        begin,
        retired,
        class: case.class,
    })
}

/// Classes that were entered at the first minute of a day.
fn classes_of(alloc: Global, told: &[(&str, Class)]) -> Result<Vec<(Key, Class)>, Fail> {
    let mut classes = Vec::new(alloc);
    for entered in told {
        let on = day(entered.0)?;
        classes.push((key(on, 0), entered.1))?;
    }
    Ok(classes)
}

/// These events, at ten o'clock.
fn events_of(alloc: Global, told: &[On<'_>]) -> Result<Vec<Event>, Fail> {
    let mut events = Vec::new(alloc);
    for happened in told {
        let on = day(happened.0)?;
        events.push(Event {
            key: key(on, 600),
            what: happened.1,
        })?;
    }
    Ok(events)
}

/// The duties on a day.
fn duties(alloc: Global, case: &Case<'_, '_>, on: &str) -> Result<Vec<Duty>, Fail> {
    let item = equipment(case)?;
    let startup = day(case.startup)?;
    let on = day(on)?;
    let classes = classes_of(alloc, case.classes)?;
    let events = events_of(alloc, case.events)?;
    list(alloc, &item, &classes, startup, &events, case.skipped, on)
}

/// The duties of a component on a day. It fails if its classes or events are not in order.
fn list(
    alloc: Global,
    item: &Equipment,
    classes: &[(Key, Class)],
    startup: Day,
    events: &[Event],
    skipped: &[bool],
    on: Day,
) -> Result<Vec<Duty>, Fail> {
    if startup.number() > 46_751 || !are_classes_ordered(classes) || !are_events_ordered(events) {
        return Err(Fail::from("a case in no order"));
    }
    Ok(duties_of(alloc, item, classes, startup, events, skipped, on)?)
}

/// An expected duty: its cause, its due day, and the day of the fact that met it.
pub type Expected<'a> = (u8, &'a str, Option<&'a str>);

/// Checks that a duty of component 30 is the expected one.
fn is_expected(
    rt: &impl Abort,
    duty: &Duty,
    expected: &Expected<'_>,
    on: &str,
) -> Result<(), Fail> {
    let due = day(expected.1)?;
    let met = day_if(expected.2)?;
    let found = duty.met.map(|key| key.day);
    assert_eq!(rt; (duty.component, duty.cause), (30, expected.0), "on {on}");
    assert_eq!(rt; (duty.due, found), (due, met), "on {on}");
    Ok(())
}

/// Checks that the duties of these causes are exactly the expected ones.
fn are_expected(
    rt: &impl Abort,
    duties: &[Duty],
    on: &str,
    causes: &[u8],
    expected: &[Expected<'_>],
) -> Result<(), Fail> {
    let mut left = expected;
    for duty in duties {
        if causes.contains(&duty.cause) {
            let Some(first) = left.first() else {
                return Err(Fail::from("a duty too many"));
            };
            is_expected(rt, duty, first, on)?;
            left = &left[1..];
        }
    }
    assert!(rt; left.is_empty(), "a duty is missing on {on}");
    Ok(())
}

/// Checks that the list of a day has exactly these duties of these causes.
pub fn expect(
    rt: &impl Abort,
    alloc: Global,
    case: &Case<'_, '_>,
    on: &str,
    causes: &[u8],
    expected: &[Expected<'_>],
) -> Result<(), Fail> {
    let duties = duties(alloc, case, on)?;
    are_expected(rt, &duties, on, causes, expected)
}

/// Checks that the last duty on the list of a day has this cause and due day.
pub fn expect_last(
    rt: &impl Abort,
    alloc: Global,
    case: &Case<'_, '_>,
    on: &str,
    cause: u8,
    due: &str,
) -> Result<(), Fail> {
    let due = day(due)?;
    let list = duties(alloc, case, on)?;
    let last = list.as_slice().last().ok_or("a duty")?;
    assert_eq!(rt; (last.cause, last.due), (cause, due), "on {on}");
    Ok(())
}

pub const ALL: [u8; 9] = [1, 2, 3, 4, 5, 6, 7, 8, 9];
