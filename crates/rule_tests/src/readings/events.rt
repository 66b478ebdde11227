//! The events of a component, by its leak definition and its class.

ghost use Rattle.list_words.specs.Order.{Ascends};
ghost use Rattle.fact_kinds.specs.Facts.{is_earlier};

use crate::readings::facts::{at, reading};
use crate::words::{key, plain};
use fact_kinds::{Class, Designation, Fact, FactBody, Key, Kind, Service, Sort, VisualState};
use ldar_days::Day;
use ldar_law::{Equipment, Event, Fitness, Happening};
use method21_reading::{events_of, limit};
use std::alloc::Global;
use std::test::Fail;
use test_kit::day;

/// Component 1 of a kind and class, from a day on.
fn component(begin: Day, kind: Kind, monomer: bool, class: Class) -> Equipment {
    Equipment {
        component: 1,
        unit: 1,
        kind,
        monomer,
        replaces: false,
        begin,
        retired: None,
        class,
    }
}

/// A routine reading with the background 3, judged.
fn read(ppm: u16, counts: bool, below: bool, leak: bool) -> Happening {
    Happening::Read {
        ppm: u32::from(ppm),
        background: 3,
        routine: true,
        counts,
        below,
        leak,
    }
}

#[test]
fn the_leak_definition_is_by_kind_and_service(rt: HostRuntime) {
    let cases = [
        (Kind::Valve, false, Service::Gas, 500),
        (Kind::Valve, true, Service::Light, 500),
        (Kind::Valve, false, Service::Heavy, 10_000),
        (Kind::Valve, false, Service::Vacuum, 500),
        (Kind::Pump, false, Service::Light, 2_000),
        (Kind::Pump, true, Service::Light, 5_000),
        (Kind::Pump, true, Service::Heavy, 10_000),
        (Kind::Pump, true, Service::Gas, 500),
        (Kind::Compressor, false, Service::Gas, 500),
        (Kind::Relief, false, Service::Gas, 500),
        (Kind::Relief, false, Service::Light, 10_000),
        (Kind::Relief, false, Service::Under300, 500),
    ];
    for (kind, monomer, service, ppm) in cases {
        assert_eq!(rt; limit(kind, monomer, plain(service)), ppm);
    }
}

#[test]
fn a_reading_at_the_leak_definition_is_a_leak(rt: HostRuntime) -> Result<(), Fail> {
    let alloc = rt.alloc();
    let begin = day("2020-01-15")?;
    let on = day("2024-02-20")?;
    let cases = [
        (Kind::Valve, false, Service::Gas, 499, true, false),
        (Kind::Valve, false, Service::Gas, 500, false, true),
        (Kind::Pump, false, Service::Light, 1_999, true, false),
        (Kind::Pump, false, Service::Light, 2_000, false, true),
        (Kind::Pump, true, Service::Light, 4_999, true, false),
        (Kind::Pump, true, Service::Light, 5_000, false, true),
        (Kind::Pump, false, Service::Heavy, 9_999, true, false),
        (Kind::Pump, false, Service::Heavy, 10_000, false, true),
        (Kind::Compressor, false, Service::Gas, 700, false, false),
    ];
    for (kind, monomer, service, ppm, below, leak) in cases {
        let item = component(begin, kind, monomer, plain(service));
        let events = events_of(alloc, &item, &[], &[reading(on, ppm)], &[Fitness::Fit])?;
        let event = Event {
            key: key(on, 600),
            what: read(ppm, true, below, leak),
        };
        assert_eq!(rt; events.as_slice(), [event].as_slice(), "{ppm}");
    }
    Ok(())
}

/// The events of one fact of a pump in light liquid service.
fn event_of_pump(alloc: Global, fact: (Key, Fact)) -> Result<Option<Happening>, Fail> {
    let item = component(day("2020-01-15")?, Kind::Pump, false, plain(Service::Light));
    let events = events_of(alloc, &item, &[], &[fact], &[Fitness::Fit])?;
    Ok(events.first().map(|event| event.what))
}

/// A visual inspection, judged.
fn look(drips: bool, designated: bool, leak: bool) -> Option<Happening> {
    Some(Happening::Look {
        drips,
        designated,
        leak,
    })
}

#[test]
fn a_visual_inspection_and_an_indication_are_judged(rt: HostRuntime) -> Result<(), Fail> {
    let on = day("2024-02-20")?;
    let states = [
        (VisualState::Dry, look(false, false, false)),
        (VisualState::Drips, look(true, false, false)),
        (VisualState::Designated, look(true, true, true)),
    ];
    for (state, what) in states {
        let body = FactBody::Visual {
            component: 1,
            state,
        };
        assert_eq!(rt; event_of_pump(rt.alloc(), at(on, 600, body))?, what);
    }
    // A pump has no sensor whose indication is a leak.
    let leak = false;
    for present in [false, true] {
        let sorts = [
            (Sort::Sensor, Happening::Sensor { present, leak }),
            (Sort::Evidence, Happening::Evidence { present }),
        ];
        for (sort, what) in sorts {
            let body = FactBody::Indication {
                component: 1,
                sort,
                present,
            };
            assert_eq!(rt; event_of_pump(rt.alloc(), at(on, 600, body))?, Some(what));
        }
    }
    Ok(())
}

#[test]
fn other_facts_are_events_as_they_stand(rt: HostRuntime) -> Result<(), Fail> {
    let on = day("2024-02-20")?;
    let expected = Some(day("2024-06-10")?);
    let attempt = FactBody::Attempt {
        component: 1,
        complete: true,
    };
    let delay = FactBody::Delay {
        component: 1,
        ground: 1,
        signer: 9,
        expected,
    };
    let delayed = Happening::Delay {
        ground: 1,
        signer: 9,
        expected,
    };
    let class = FactBody::Class {
        component: 1,
        class: plain(Service::Gas),
    };
    let cases = [
        (
            at(on, 600, attempt),
            Some(Happening::Attempt { complete: true }),
        ),
        (at(on, 600, delay), Some(delayed)),
        (
            at(on, 600, FactBody::Release { component: 1 }),
            Some(Happening::Release),
        ),
        (
            at(on, 600, FactBody::Retire { component: 1 }),
            Some(Happening::Retire),
        ),
        // An entry of the component in the register is no event.
        (at(on, 600, class), None),
    ];
    for (fact, what) in cases {
        assert_eq!(rt; event_of_pump(rt.alloc(), fact)?, what);
    }
    Ok(())
}

#[test]
fn a_reading_counts_by_its_own_day_and_fitness(rt: HostRuntime) -> Result<(), Fail> {
    let alloc = rt.alloc();
    // 2024-02-20 and 2024-03-20.
    let (first, second) = (Day::at(19_773), Day::at(19_802));
    let mut item = component(day("2024-02-21")?, Kind::Valve, false, plain(Service::Gas));
    let retire = at(second, 0, FactBody::Retire { component: 1 });
    let facts = [reading(first, 700), retire, reading(second, 700)];
    let fitness = [Fitness::NoPrecision, Fitness::Fit];
    let fit = [Fitness::Fit, Fitness::Fit];
    let nde = Class {
        designation: Designation::Nde,
        ..plain(Service::Gas)
    };
    let leak = read(700, true, false, true);
    let kept = read(700, true, false, false);
    let lost = read(700, false, false, false);
    // The component is not in service on the first day.
    let found = two_readings(alloc, &item, &[], &facts, &fit)?;
    assert_eq!(rt; found, (lost, leak));
    item.begin = first;
    let found = two_readings(alloc, &item, &[], &facts, &fit)?;
    assert_eq!(rt; found, (leak, leak));
    // The first reading is not fit; the fact between the two takes no fitness.
    let found = two_readings(alloc, &item, &[], &facts, &fitness)?;
    assert_eq!(rt; found, (lost, leak));
    // The component is retired from the second day on.
    item.retired = Some(second);
    let found = two_readings(alloc, &item, &[], &facts, &fit)?;
    assert_eq!(rt; found, (leak, lost));
    // The component has no detectable emissions from the second day on, and another class after that.
    item.retired = None;
    let classes = [(key(second, 0), nde)];
    let found = two_readings(alloc, &item, &classes, &facts, &fit)?;
    assert_eq!(rt; found, (leak, kept));
    let classes = [
        (key(first, 0), nde),
        (key(second, 0), plain(Service::Vacuum)),
    ];
    let found = two_readings(alloc, &item, &classes, &facts, &fit)?;
    assert_eq!(rt; found, (kept, lost));
    Ok(())
}

/// The first and the last event.
fn two_readings(
    alloc: Global,
    item: &Equipment,
    classes: &[(Key, Class)],
    facts: &[(Key, Fact)],
    fitness: &[Fitness],
) -> Result<(Happening, Happening), Fail>
    requires ordered { Ascends (λ a b. is_earlier a.0 b.0) classes.now }
{
    let events = events_of(alloc, item, classes, facts, fitness)?;
    let first = events.first().ok_or("no event")?.what;
    let last = events.last().ok_or("no event")?.what;
    Ok((first, last))
}

#[test]
fn each_of_many_readings_is_an_event(rt: HostRuntime) -> Result<(), Fail> {
    let on = day("2024-02-20")?;
    let item = component(on, Kind::Valve, false, plain(Service::Gas));
    let facts = [reading(on, 700); 40];
    let events = events_of(rt.alloc(), &item, &[], &facts, &[Fitness::Fit; 40])?;
    let event = Event {
        key: key(on, 600),
        what: read(700, true, false, true),
    };
    assert_eq!(rt; events.as_slice(), [event; 40].as_slice());
    Ok(())
}
