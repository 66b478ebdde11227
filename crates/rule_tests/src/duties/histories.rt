//! Random histories of components, and their duties compared with those by the definition.

ghost use Rattle.std.specs.Prelude.{◌<◌, ◌≤◌};

use crate::duties::definition::{Asked, duties_by_definition};
use fact_kinds::{Class, Designation, Key, Kind, Memory, Service};
use ldar_days::Day;
use ldar_law::{Duty, Equipment, Event, Happening};
use monitor_calendar::{are_classes_ordered, are_events_ordered, duties_of};
use std::alloc::Global;
use std::process::Abort;
use std::test::Fail;

/// Pseudo-random numbers, the same in each run.
#[derive(Drop)]
struct Numbers {
    state: u64,
}

impl Numbers {
    /// The next number, below an end.
    fn below(&mut self, end: u32) -> u32
        requires { 0 < end }
        ensures in_range { result < end }
    {
        self.state = self
            .state
            .wrapping_mul(6_364_136_223_846_793_005)
            .wrapping_add(1_442_695_040_888_963_407);
        (self.state / 8_589_934_592 % u64::from(end)) as u32
    }

    /// Whether the next number is 0, which is one case in `end`.
    fn is_one_of(&mut self, end: u32) -> bool
        requires { 0 < end }
    {
        self.below(end) == 0
    }
}

/// A component of a unit with its classes and events.
#[derive(Drop)]
struct Life {
    item: Equipment,
    classes: Vec<(Key, Class)>,
    startup: Day,
    events: Vec<Event>,
    skipped: Vec<bool>,
}

/// The kinds, one after the other.
fn kind_of(number: u32) -> Kind {
    match number % 6 {
        0 | 1 => Kind::Valve,
        2 | 3 => Kind::Pump,
        4 => Kind::Compressor,
        _ => Kind::Relief,
    }
}

fn service(numbers: &mut Numbers, kind: Kind) -> Service {
    let is_common = kind != Kind::Relief && !numbers.is_one_of(4);
    match (kind, is_common) {
        (Kind::Pump, true) => Service::Light,
        (_, true) => Service::Gas,
        (_, false) => match numbers.below(4) {
            0 => Service::Light,
            1 => Service::Vacuum,
            2 => Service::Gas,
            _ => Service::Heavy,
        },
    }
}

fn class(numbers: &mut Numbers, kind: Kind) -> Class {
    let designation = match numbers.below(8) {
        0 => Designation::Nde,
        1 => Designation::Unsafe,
        2 => Designation::Difficult,
        _ => Designation::Plain,
    };
    let plan = if numbers.is_one_of(3) {
        numbers.below(61) as u8
    } else {
        numbers.below(7) as u8
    };
    Class {
        service: service(numbers, kind),
        designation,
        plan,
        month: (numbers.below(3) + 1) as u8,
    }
}

/// A day: one in eight is near the end of the calendar.
fn begin(numbers: &mut Numbers, number: u32) -> Day {
    if number % 8 == 7 {
        Day::at(46_300 + numbers.below(1_100))
    } else {
        Day::at(18_000 + numbers.below(1_500))
    }
}

fn item(numbers: &mut Numbers, number: u32) -> Equipment {
    let kind = kind_of(number);
    let begin = begin(numbers, number);
    let retired = if numbers.is_one_of(6) {
        Some(begin.plus_days(numbers.below(1_200)))
    } else {
        None
    };
    Equipment {
        component: 30,
        unit: 1,
        kind,
        monomer: false,
        replaces: numbers.is_one_of(8),
        begin,
        retired,
        class: class(numbers, kind),
    }
}

/// The day this many days before, if it is in the calendar.
fn days_before(day: Day, days: u32) -> Day {
    Day::at(day.number().saturating_sub(days).max(13_879))
}

/// A key at a place among others.
fn key(day: Day, place: u32) -> Key {
    Key {
        day,
        minute: (place % 1_440) as u16,
        handheld: 1,
        number: 1,
        index: 0,
    }
}

/// Up to three classes.
fn classes(
    alloc: Global,
    numbers: &mut Numbers,
    item: &Equipment,
) -> Result<Vec<(Key, Class)>, Memory> {
    let mut classes = Vec::new(alloc);
    let mut day = item.begin;
    let count = numbers.below(4);
    for place in 0..count {
        day = day.plus_days(numbers.below(500));
        classes.push((key(day, place), class(numbers, item.kind)))?;
    }
    Ok(classes)
}

/// A reading; few are leaks, and some have values that no reading can have.
fn reading(numbers: &mut Numbers) -> Happening {
    const PARTS: [u32; 8] = [0, 10, 20, 30, 499, 510, 599, 700];
    let ppm = PARTS[numbers.below(8) as usize];
    let counts = !numbers.is_one_of(8);
    let is_odd = numbers.is_one_of(16);
    Happening::Read {
        ppm,
        background: if numbers.is_one_of(2) { 0 } else { 100 },
        routine: !numbers.is_one_of(4),
        counts,
        below: (counts && ppm < 600) || is_odd,
        leak: (counts && 600 < ppm) || is_odd,
    }
}

fn look(numbers: &mut Numbers) -> Happening {
    let drips = !numbers.is_one_of(4);
    let designated = numbers.is_one_of(6);
    Happening::Look {
        drips,
        designated,
        leak: designated && numbers.is_one_of(2),
    }
}

/// An event: mostly a reading, or one that this kind of component can have.
fn happening(numbers: &mut Numbers, kind: Kind) -> Happening {
    match numbers.below(12) {
        0 => Happening::Attempt {
            complete: numbers.is_one_of(2),
        },
        1 => Happening::Delay {
            ground: 1,
            signer: 1,
            expected: None,
        },
        2 => Happening::Sensor {
            present: true,
            leak: numbers.is_one_of(4),
        },
        3 | 4 | 5 | 6 => match kind {
            Kind::Relief => Happening::Release,
            Kind::Pump => look(numbers),
            _ => reading(numbers),
        },
        7 | 8 => Happening::Evidence {
            present: !numbers.is_one_of(3),
        },
        _ => reading(numbers),
    }
}

/// An event; in a calm life it is nearly always a clean reading.
fn event(numbers: &mut Numbers, kind: Kind, is_calm: bool) -> Happening {
    if is_calm && !numbers.is_one_of(30) {
        return Happening::Read {
            ppm: 10,
            background: 0,
            routine: true,
            counts: true,
            below: true,
            leak: false,
        };
    }
    happening(numbers, kind)
}

/// Up to eighty events, some before the component begins, and many on the same day.
fn events(alloc: Global, numbers: &mut Numbers, item: &Equipment) -> Result<Vec<Event>, Memory> {
    let mut events = Vec::new(alloc);
    let mut day = days_before(item.begin, 100).plus_days(numbers.below(200));
    let gap = numbers.below(24) + 1;
    let is_calm = item.kind == Kind::Valve && !numbers.is_one_of(4);
    let count = numbers.below(80);
    for place in 0..count {
        day = day.plus_days(numbers.below(gap));
        events.push(Event {
            key: key(day, place),
            what: event(numbers, item.kind, is_calm),
        })?;
    }
    Ok(events)
}

/// The life with a number.
fn made_life(alloc: Global, numbers: &mut Numbers, number: u32) -> Result<Life, Memory> {
    let item = item(numbers, number);
    let classes = classes(alloc, numbers, &item)?;
    let events = events(alloc, numbers, &item)?;
    let startup = days_before(item.begin, 600)
        .plus_days(numbers.below(650))
        .min(Day::at(46_751));
    let mut skipped = Vec::new(alloc);
    let count = numbers.below(30);
    for _ in 0..count {
        skipped.push(numbers.is_one_of(3))?;
    }
    Ok(Life {
        item,
        classes,
        startup,
        events,
        skipped,
    })
}

/// The numbers of duties of each cause, not met and met.
#[derive(Drop)]
struct Count {
    unmet: [u32; 10],
    met: [u32; 10],
}

impl Count {
    fn add(&mut self, duties: &[Duty]) {
        for duty in duties {
            let cause = usize::from(duty.cause.min(9));
            if duty.met.is_none() {
                self.unmet[cause] = self.unmet[cause].saturating_add(1);
            } else {
                self.met[cause] = self.met[cause].saturating_add(1);
            }
        }
    }
}

/// Compares the duties on a day with those by the definition.
fn compare(
    rt: &impl Abort,
    alloc: Global,
    life: &Life,
    day: Day,
    count: &mut Count,
) -> Result<(), Fail> {
    let (classes, events) = (life.classes.as_slice(), life.events.as_slice());
    if life.startup.number() > 46_751
        || !are_classes_ordered(classes)
        || !are_events_ordered(events)
    {
        return Err(Fail::from("a life in no order"));
    }
    let asked = Asked {
        item: &life.item,
        classes,
        startup: life.startup,
        events,
        skipped: life.skipped.as_slice(),
        day,
    };
    let duties = duties_of(
        alloc,
        asked.item,
        classes,
        asked.startup,
        events,
        asked.skipped,
        asked.day,
    )?;
    let by_definition = duties_by_definition(alloc, &asked)?;
    assert_eq!(rt; duties.as_slice(), by_definition.as_slice(), "on {day}");
    count.add(&duties);
    Ok(())
}

/// A day in its life.
fn any_day(numbers: &mut Numbers, life: &Life) -> Day {
    days_before(life.item.begin, 10).plus_days(numbers.below(1_200))
}

/// A day in its life, or a day shortly after some event.
fn day_in(numbers: &mut Numbers, life: &Life) -> Day {
    let place = numbers.below(60) as usize;
    match life.events.as_slice().get(place) {
        Some(e) => e.key.day.plus_days(numbers.below(8)),
        None => any_day(numbers, life),
    }
}

#[test]
fn duties_are_those_by_the_definition(rt: HostRuntime) -> Result<(), Fail> {
    let alloc = rt.alloc();
    let mut numbers = Numbers { state: 2_024 };
    let mut count = Count {
        unmet: [0; 10],
        met: [0; 10],
    };
    for number in 0..600 {
        let life = made_life(alloc, &mut numbers, number)?;
        for _ in 0..5 {
            let day = day_in(&mut numbers, &life);
            compare(&rt, alloc, &life, day, &mut count)?;
        }
    }
    // Every cause occurred.
    for cause in 1..10 {
        let (unmet, met) = (count.unmet[cause], count.met[cause]);
        assert!(rt;
            unmet >= 10 && met >= 10,
            "cause {cause}: {unmet} and {met}"
        );
    }
    Ok(())
}
