//! The tags of a component, by the walk and by the search.

use fact_kinds::{Key, Kind};
use ldar_days::Day;
use ldar_law::{Event, Happening, Span};
use leak_tags::{spans_by_search, spans_of, spans_until};
use monitor_calendar::are_events_ordered;
use std::alloc::Global;
use std::test::Fail;

/// 2024-02-20, the day of the first leak in most rows.
const FEBRUARY: u32 = 19_773;

/// 2023-12-10.
const DECEMBER: u32 = 19_701;

/// A reading of this many parts per million, with a leak definition of 500.
fn read(ppm: u32) -> Happening {
    Happening::Read {
        ppm,
        background: 0,
        routine: true,
        counts: true,
        below: ppm < 500,
        leak: 500 <= ppm,
    }
}

/// A delay of this ground.
fn delay(ground: u8) -> Happening {
    Happening::Delay {
        ground,
        signer: 9,
        expected: None,
    }
}

/// A visual inspection of a pump that designates drips as a leak or is dry.
fn look(designated: bool) -> Happening {
    Happening::Look {
        drips: designated,
        designated,
        leak: designated,
    }
}

/// The meaning of a letter: a leak and a reading below the leak definition (`L`, `b`), drips and a dry inspection (`d`,
/// `y`), a sensor's leak (`S`), an attempt, incomplete or complete (`A`, `C`), a delay until a shutdown and one by
/// isolation (`D`, `I`), and going out of service (`R`).
fn happening(letter: u8) -> Happening {
    match letter {
        b'L' => read(700),
        b'b' => read(20),
        b'd' => look(true),
        b'y' => look(false),
        b'S' => Happening::Sensor {
            present: true,
            leak: true,
        },
        b'A' => Happening::Attempt { complete: false },
        b'C' => Happening::Attempt { complete: true },
        b'D' => delay(1),
        b'I' => delay(2),
        _ => Happening::Retire,
    }
}

/// A key this many days after a day.
fn key(from: u32, days: u32) -> Result<Key, Fail> {
    Ok(Key {
        day: Day::of_number(from).ok_or("day")?.plus_days(days),
        minute: 600,
        handheld: 7,
        number: 12,
        index: 0,
    })
}

/// The events, by their days after a day.
fn events_of(alloc: Global, from: u32, told: &[(u32, u8)]) -> Result<Vec<Event>, Fail> {
    let mut events = Vec::new(alloc);
    for (days, letter) in told {
        events.push(Event {
            key: key(from, *days)?,
            what: happening(*letter),
        })?;
    }
    Ok(events)
}

/// The days of a tag after a day: its detection, first attempt and closing, and whether its identification may be
/// removed.
fn text_of(alloc: Global, from: u32, span: &Span) -> Result<String, Fail> {
    let detected = span.detected.day.number().saturating_sub(from);
    let mut text = format!(in alloc; "{detected}")?;
    if let Some(day) = span.attempted {
        let days = day.number().saturating_sub(from);
        text = format!(in alloc; "{text} attempted {days}")?;
    }
    if let Some(closed) = span.closed {
        let days = closed.day.number().saturating_sub(from);
        text = format!(in alloc; "{text} closed {days}")?;
    }
    if span.removable {
        text = format!(in alloc; "{text} removable")?;
    }
    Ok(text)
}

/// The tags of these events by the walk; the search must find the same.
fn tags_of(alloc: Global, kind: Kind, from: u32, told: &[(u32, u8)]) -> Result<String, Fail> {
    let events = events_of(alloc, from, told)?;
    let spans = spans_of(alloc, kind, &events)?;
    let searched = spans_by_search(alloc, kind, &events)?;
    if spans.as_slice() != searched.as_slice() {
        return Err(Fail::from("the search"));
    }
    text_of_all(alloc, from, &spans)
}

/// The days of some tags after a day.
fn text_of_all(alloc: Global, from: u32, spans: &[Span]) -> Result<String, Fail> {
    let mut text = String::new(alloc);
    for span in spans {
        let tag = text_of(alloc, from, span)?;
        text = format!(in alloc; "{text}{tag}; ")?;
    }
    Ok(text)
}

/// The tags of a valve as known this many days after a day.
fn tags_known(alloc: Global, from: u32, told: &[(u32, u8)], days: u32) -> Result<String, Fail> {
    let events = events_of(alloc, from, told)?;
    if !are_events_ordered(&events) {
        return Err(Fail::from("the order"));
    }
    let spans = spans_of(alloc, Kind::Valve, &events)?;
    let day = Day::of_number(from).ok_or("day")?.plus_days(days);
    let mut known = Vec::new(alloc);
    spans_until(&spans, &events, Kind::Valve, day, &mut known)?;
    text_of_all(alloc, from, &known)
}

/// Events at a kind of component, by their days after the first leak, and their tags: what closes one, and what leaves it
/// open.
const CLOSINGS: [(Kind, &[(u32, u8)], &str); 16] = [
    (Kind::Valve, &[], ""),
    // March and April are clean.
    (
        Kind::Valve,
        &[(0, b'L'), (2, b'A'), (15, b'b'), (42, b'b')],
        "0 attempted 2 closed 15 removable; ",
    ),
    // A leak after the attempt: another attempt is needed.
    (
        Kind::Valve,
        &[
            (0, b'L'),
            (1, b'A'),
            (2, b'L'),
            (3, b'b'),
            (4, b'A'),
            (5, b'b'),
        ],
        "0 attempted 1 closed 5; ",
    ),
    // A leak while a tag is open opens no other tag; April and May are clean, after both closings.
    (
        Kind::Valve,
        &[
            (0, b'L'),
            (2, b'A'),
            (15, b'b'),
            (20, b'L'),
            (21, b'L'),
            (22, b'A'),
            (23, b'b'),
            (70, b'b'),
            (100, b'b'),
            (101, b'A'),
        ],
        "0 attempted 2 closed 15 removable; 20 attempted 22 closed 23 removable; ",
    ),
    (Kind::Pump, &[(0, b'd'), (2, b'y')], "0; "),
    (
        Kind::Pump,
        &[(0, b'd'), (1, b'A'), (2, b'y')],
        "0 attempted 1 closed 2 removable; ",
    ),
    // A dry inspection settles the drips but not the reading.
    (
        Kind::Pump,
        &[(0, b'L'), (1, b'd'), (2, b'A'), (3, b'y')],
        "0 attempted 2; ",
    ),
    (
        Kind::Pump,
        &[(0, b'L'), (1, b'd'), (2, b'A'), (3, b'y'), (4, b'b')],
        "0 attempted 2 closed 4 removable; ",
    ),
    (
        Kind::Compressor,
        &[(0, b'S'), (1, b'A'), (2, b'b')],
        "0 attempted 1; ",
    ),
    (
        Kind::Compressor,
        &[(0, b'S'), (1, b'C')],
        "0 attempted 1 closed 1 removable; ",
    ),
    // The attempt comes after both detections.
    (
        Kind::Valve,
        &[(0, b'L'), (3, b'R'), (5, b'L'), (9, b'A')],
        "0 attempted 9 closed 3; 5 attempted 9; ",
    ),
    // Days that decrease, for which only the search is used.
    (
        Kind::Valve,
        &[(5, b'L'), (0, b'A'), (6, b'b')],
        "5 attempted 0 closed 6; ",
    ),
    // Delays on another ground, and at another kind of component.
    (
        Kind::Valve,
        &[(0, b'L'), (1, b'I'), (19, b'b'), (50, b'b')],
        "0; ",
    ),
    (
        Kind::Compressor,
        &[(0, b'L'), (1, b'D'), (19, b'b'), (50, b'b')],
        "0; ",
    ),
    // The drips of day 44 are settled with those of day 40.
    (
        Kind::Pump,
        &[
            (40, b'd'),
            (41, b'y'),
            (42, b'A'),
            (43, b'A'),
            (44, b'd'),
            (45, b'y'),
            (46, b'A'),
            (47, b'b'),
            (90, b'd'),
        ],
        "40 attempted 42 closed 47 removable; 90; ",
    ),
    (Kind::Pump, &[(0, b'b'), (1, b'y'), (2, b'A')], ""),
];

#[test]
fn a_tag_closes_when_nothing_is_unsettled(rt: HostRuntime) -> Result<(), Fail> {
    let alloc = rt.alloc();
    for (kind, told, tags) in CLOSINGS {
        assert_eq!(rt; tags_of(alloc, kind, FEBRUARY, told)?.as_str(), tags);
    }
    Ok(())
}

/// Rows in which something happens before a tag opens.
const BEGINNINGS: [(Kind, &[(u32, u8)], &str); 4] = [
    // An attempt before the leak.
    (
        Kind::Pump,
        &[(0, b'A'), (5, b'b'), (10, b'L'), (40, b'b')],
        "10; ",
    ),
    // A reading below the leak definition in the month before, and before the leak.
    (
        Kind::Pump,
        &[(0, b'b'), (5, b'L'), (6, b'D'), (15, b'b')],
        "5; ",
    ),
    // A delay between two tags.
    (
        Kind::Pump,
        &[
            (0, b'L'),
            (1, b'A'),
            (2, b'b'),
            (3, b'D'),
            (4, b'L'),
            (15, b'b'),
            (45, b'b'),
        ],
        "0 attempted 1 closed 2 removable; 4; ",
    ),
    // Drips in one tag, a sensor's leak in the next.
    (
        Kind::Pump,
        &[
            (0, b'd'),
            (1, b'A'),
            (2, b'y'),
            (3, b'C'),
            (4, b'S'),
            (5, b'y'),
            (6, b'C'),
            (7, b'R'),
        ],
        "0 attempted 1 closed 2 removable; 4 attempted 6 closed 6 removable; ",
    ),
];

/// Events while no tag is open do not count for a later tag.
#[test]
fn a_tag_begins_anew(rt: HostRuntime) -> Result<(), Fail> {
    let alloc = rt.alloc();
    for (kind, told, tags) in BEGINNINGS {
        assert_eq!(rt; tags_of(alloc, kind, FEBRUARY, told)?.as_str(), tags);
    }
    Ok(())
}

/// The first day of a valve's events, the events by their days after it, and the tags: with readings in March and April 2024, or
/// in December 2023 and January and February 2024.
const DELAYED: [(u32, &[(u32, u8)], &str); 9] = [
    (
        FEBRUARY,
        &[(0, b'L'), (15, b'D'), (19, b'b'), (50, b'b')],
        "0 closed 50; ",
    ),
    (
        FEBRUARY,
        &[(0, b'L'), (16, b'D'), (19, b'b'), (50, b'b')],
        "0; ",
    ),
    // The first reading may be before the delay, and a month may have several readings.
    (
        FEBRUARY,
        &[(0, b'L'), (11, b'b'), (12, b'b'), (15, b'D'), (50, b'b')],
        "0 closed 50; ",
    ),
    (
        FEBRUARY,
        &[(0, b'L'), (15, b'D'), (19, b'b'), (20, b'b')],
        "0; ",
    ),
    // A leak between the readings.
    (
        FEBRUARY,
        &[(0, b'L'), (1, b'D'), (19, b'b'), (45, b'L'), (50, b'b')],
        "0; ",
    ),
    // The delay reaches the second leak; the first one needs an attempt.
    (
        FEBRUARY,
        &[
            (0, b'L'),
            (10, b'L'),
            (20, b'D'),
            (22, b'b'),
            (50, b'b'),
            (51, b'A'),
            (52, b'b'),
        ],
        "0 attempted 51 closed 52; ",
    ),
    // A sensor's leak can be delayed too.
    (
        FEBRUARY,
        &[(0, b'S'), (1, b'D'), (19, b'b'), (50, b'b')],
        "0 closed 50; ",
    ),
    // Across the end of a year; January and February are clean.
    (
        DECEMBER,
        &[(0, b'L'), (1, b'D'), (5, b'b'), (40, b'b'), (60, b'b')],
        "0 closed 40 removable; ",
    ),
    (
        DECEMBER,
        &[(0, b'L'), (1, b'D'), (5, b'b'), (60, b'b')],
        "0; ",
    ),
];

#[test]
fn two_readings_settle_a_delayed_leak(rt: HostRuntime) -> Result<(), Fail> {
    let alloc = rt.alloc();
    for (from, told, tags) in DELAYED {
        assert_eq!(rt; tags_of(alloc, Kind::Valve, from, told)?.as_str(), tags);
    }
    Ok(())
}

#[test]
fn a_leak_that_nobody_repairs_is_one_tag(rt: HostRuntime) -> Result<(), Fail> {
    let alloc = rt.alloc();
    let mut told = Vec::new(alloc);
    for days in 0..505 {
        told.push((days, b'L'))?;
    }
    let events = events_of(alloc, FEBRUARY, &told)?;
    let spans = spans_of(alloc, Kind::Valve, &events)?;
    let tag = Span {
        detected: key(FEBRUARY, 0)?,
        attempted: None,
        closed: None,
        removable: false,
    };
    assert!(rt; spans.as_slice() == [tag].as_slice());
    Ok(())
}

#[test]
fn two_thousand_events_have_a_thousand_tags(rt: HostRuntime) -> Result<(), Fail> {
    let alloc = rt.alloc();
    let mut told = Vec::new(alloc);
    for days in 0..1000 {
        told.push((days, b'L'))?;
        told.push((days, b'R'))?;
    }
    told.push((1_000, b'A'))?;
    let events = events_of(alloc, FEBRUARY, &told)?;
    let spans = spans_of(alloc, Kind::Valve, &events)?;
    let last = key(FEBRUARY, 1_000)?.day;
    assert_eq!(rt; spans.len(), 1_000);
    for span in &spans {
        assert!(rt; span.attempted == Some(last) && span.closed == Some(span.detected));
    }
    Ok(())
}

#[test]
fn an_event_that_is_both_is_searched_for(rt: HostRuntime) -> Result<(), Fail> {
    let alloc = rt.alloc();
    let both = Happening::Read {
        ppm: 500,
        background: 0,
        routine: true,
        counts: true,
        below: true,
        leak: true,
    };
    let events = [
        Event {
            key: key(FEBRUARY, 0)?,
            what: both,
        },
        Event {
            key: key(FEBRUARY, 1)?,
            what: delay(1),
        },
        Event {
            key: key(FEBRUARY, 20)?,
            what: read(20),
        },
    ];
    // A leak is no first reading for itself.
    let spans = spans_of(alloc, Kind::Valve, &events)?;
    assert!(rt; spans.len() == 1 && spans[0].closed.is_none());
    Ok(())
}

/// A valve leaks on 2024-02-20. March and April are clean until the leak of 2024-04-20; before it, the identification may
/// be removed.
const KNOWN: [(u32, &str); 9] = [
    (71, ""),
    (72, "72; "),
    (73, "72; "),
    (74, "72 attempted 74; "),
    (86, "72 attempted 74; "),
    (87, "72 attempted 74 closed 87; "),
    (114, "72 attempted 74 closed 87 removable; "),
    (131, "72 attempted 74 closed 87 removable; "),
    (132, "72 attempted 74 closed 87; 132; "),
];

/// A tag as known on a day depends on the events up to that day.
#[test]
fn tags_are_known_by_the_events_up_to_the_day(rt: HostRuntime) -> Result<(), Fail> {
    let alloc = rt.alloc();
    let told = [(72, b'L'), (74, b'A'), (87, b'b'), (114, b'b'), (132, b'L')];
    for (days, tags) in KNOWN {
        assert_eq!(rt; tags_known(alloc, DECEMBER, &told, days)?.as_str(), tags);
    }
    Ok(())
}
