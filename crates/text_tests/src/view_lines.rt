use fact_kinds::{Key, Name};
use ldar_days::{Day, Month};
use ldar_law::{
    Cells, DelayEntry, DelayLine, Duty, Items, MonthCells, Report, Route, Stop, Tag, Tally, Until,
};
use std::test::Fail;
use test_kit::day;
use view_texts::{
    delays_text, due_text, percent_text, put_delays, put_due, put_percent, put_report, put_routes,
    put_tags, report_text, routes_text, tags_text,
};

/// The day with this text, or `None` for a hyphen.
fn day_or_none(text: &str) -> Result<Option<Day>, Fail> {
    if text == "-" {
        return Ok(None);
    }
    Ok(Some(day(text)?))
}

/// The key of a fact that handheld 7 entered on a day.
fn key(text: &str) -> Result<Key, Fail> {
    Ok(Key {
        day: day(text)?,
        minute: 600,
        handheld: 7,
        number: 12,
        index: 0,
    })
}

/// A duty that was met on a day, or is not met.
fn duty(component: u16, cause: u8, due: &str, met: &str) -> Result<Duty, Fail> {
    let met = if met == "-" { None } else { Some(key(met)?) };
    Ok(Duty {
        component,
        cause,
        due: day(due)?,
        met,
    })
}

/// A tag of a leak on 2024-02-20.
fn tag(component: u16, attempted: &str, repair_due: Until, closed: &str) -> Result<Tag, Fail> {
    Ok(Tag {
        component,
        detected: day("2024-02-20")?,
        attempt_due: day("2024-02-25")?,
        attempted: day_or_none(attempted)?,
        repair_due,
        closed: day_or_none(closed)?,
        delay: None,
        removable: false,
    })
}

/// A delay of the repair of this leak.
fn delay(
    component: u16,
    ground: u8,
    signer: u16,
    expected: &str,
    until: Until,
) -> Result<DelayLine, Fail> {
    let delay = DelayEntry {
        key: key("2024-03-01")?,
        ground,
        signer,
        expected: day_or_none(expected)?,
    };
    Ok(DelayLine {
        component,
        detected: day("2024-02-20")?,
        delay,
        until,
        closed: None,
    })
}

/// The report of a half of a process unit, with these numbers and lines.
fn report(
    rt: &HostRuntime,
    name: &[u8],
    text: &str,
    cells: [u32; 36],
    delays: &[DelayLine],
    stops: &[Stop],
) -> Result<Report, Fail> {
    Ok(Report {
        unit: 1,
        name: Name::new(name).ok_or("name")?,
        half: 8,
        day: day(text)?,
        cells: Cells {
            months: MonthCells::new(cells),
            delays: Items::new(Vec::from_slice(rt.alloc(), delays)?),
            stops: Items::new(Vec::from_slice(rt.alloc(), stops)?),
        },
    })
}

#[test]
fn a_duty_is_open_until_its_due_day_has_passed(rt: HostRuntime) -> Result<(), Fail> {
    let duties = [
        duty(30, 2, "2024-08-31", "-")?,
        duty(30, 2, "2024-09-10", "-")?,
        duty(31, 1, "2024-09-09", "-")?,
        duty(60_000, 4, "2024-12-31", "2024-02-20")?,
        duty(30, 3, "2024-09-30", "-")?,
        duty(30, 5, "2024-09-30", "-")?,
        duty(30, 6, "2024-09-15", "-")?,
        duty(30, 7, "2024-09-12", "-")?,
        duty(30, 8, "2024-09-12", "-")?,
        duty(30, 9, "2024-09-12", "2024-09-08")?,
    ];
    let wanted = "due 2 2024-09-10\n\
        30 monthly 2024-08-31 missed\n\
        30 monthly 2024-09-10 open\n\
        31 first 2024-09-09 missed\n\
        60000 yearly 2024-12-31 done 2024-02-20\n\
        30 quarterly 2024-09-30 open\n\
        30 plan 2024-09-30 open\n\
        30 weekly 2024-09-15 open\n\
        30 drip 2024-09-12 open\n\
        30 release 2024-09-12 open\n\
        30 evidence 2024-09-12 done 2024-09-08\n\
        end 10\n";
    let text = due_text(rt.alloc(), 2, day("2024-09-10")?, &duties)?;
    assert_eq!(rt; text.as_bytes(), wanted.as_bytes());
    let none = due_text(rt.alloc(), 64, day("2008-01-01")?, &[])?;
    assert_eq!(rt; none.as_bytes(), b"due 64 2008-01-01\nend 0\n".as_slice());
    Ok(())
}

#[test]
fn a_tag_shows_its_due_days_and_what_was_done(rt: HostRuntime) -> Result<(), Fail> {
    let dated = Until::Date(day("2024-03-06")?);
    let closed = tag(1, "2024-02-22", dated, "2024-03-07")?;
    let tags = [
        tag(1, "-", dated, "-")?,
        Tag {
            removable: true,
            ..closed
        },
        tag(2, "2024-02-21", Until::Shutdown, "-")?,
        tag(3, "-", Until::WhileIsolated, "-")?,
        tag(4, "-", Until::NoDate, "-")?,
    ];
    let wanted = "tags 1 2024-04-02\n\
        1 detected 2024-02-20 attempt 2024-02-25 - repair 2024-03-06 - tagged\n\
        1 detected 2024-02-20 attempt 2024-02-25 2024-02-22 repair 2024-03-06 2024-03-07 removable\n\
        2 detected 2024-02-20 attempt 2024-02-25 2024-02-21 repair shutdown - tagged\n\
        3 detected 2024-02-20 attempt 2024-02-25 - repair isolated - tagged\n\
        4 detected 2024-02-20 attempt 2024-02-25 - repair purge - tagged\n\
        end 5\n";
    let text = tags_text(rt.alloc(), 1, day("2024-04-02")?, &tags)?;
    assert_eq!(rt; text.as_bytes(), wanted.as_bytes());
    Ok(())
}

#[test]
fn a_delay_shows_its_ground_and_its_signer(rt: HostRuntime) -> Result<(), Fail> {
    let lines = [
        delay(1, 1, 9, "2024-06-10", Until::Shutdown)?,
        delay(2, 2, 0, "-", Until::WhileIsolated)?,
        delay(3, 3, 65_535, "2099-12-31", Until::NoDate)?,
        delay(5, 4, 9, "2024-06-10", Until::Date(day("2024-08-20")?))?,
        delay(6, 5, 9, "2024-06-10", Until::Shutdown)?,
    ];
    let wanted = "delays 1 2024-03-02\n\
        1 detected 2024-02-20 ground a signer 9 expected 2024-06-10 until shutdown\n\
        2 detected 2024-02-20 ground b signer 0 expected - until isolated\n\
        3 detected 2024-02-20 ground c signer 65535 expected 2099-12-31 until purge\n\
        5 detected 2024-02-20 ground d signer 9 expected 2024-06-10 until 2024-08-20\n\
        6 detected 2024-02-20 ground e signer 9 expected 2024-06-10 until shutdown\n\
        end 5\n";
    let text = delays_text(rt.alloc(), 1, day("2024-03-02")?, &lines)?;
    assert_eq!(rt; text.as_bytes(), wanted.as_bytes());
    Ok(())
}

#[test]
fn routes_are_numbered_from_one(rt: HostRuntime) -> Result<(), Fail> {
    let alloc = rt.alloc();
    let routes = [
        Route {
            stops: Items::new(vec![in alloc; 1u16, 2]?),
        },
        Route {
            stops: Items::new(vec![in alloc; 60_000u16]?),
        },
        Route {
            stops: Items::new(Vec::new(alloc)),
        },
    ];
    let wanted = "route 1 2024-02-20 65535\nroute 1: 1 2\nroute 2: 60000\nroute 3:\nend 3\n";
    let text = routes_text(alloc, 1, day("2024-02-20")?, 65_535, &routes)?;
    assert_eq!(rt; text.as_bytes(), wanted.as_bytes());
    Ok(())
}

/// A unit, a quarter, its counts, whether it is good and skipped, and its line.
const QUARTERS: [(u16, u16, u32, u32, bool, bool, &str); 4] = [
    (
        1,
        16,
        0,
        0,
        false,
        false,
        "percent 1 16 leaking 0 monitored 0 not good not skipped\n",
    ),
    (
        1,
        18,
        3,
        150,
        true,
        true,
        "percent 1 18 leaking 3 monitored 150 good skipped\n",
    ),
    (
        2,
        65_535,
        4,
        200,
        true,
        false,
        "percent 2 65535 leaking 4 monitored 200 good not skipped\n",
    ),
    (
        64,
        1,
        1_200,
        60_000,
        false,
        true,
        "percent 64 1 leaking 1200 monitored 60000 not good skipped\n",
    ),
];

#[test]
fn a_quarter_is_good_and_skipped_or_not(rt: HostRuntime) -> Result<(), Fail> {
    for (unit, quarter, leaking, monitored, good, skipped, wanted) in QUARTERS {
        let tally = Tally { leaking, monitored };
        let text = percent_text(rt.alloc(), unit, quarter, tally, good, skipped)?;
        assert_eq!(rt; text.as_bytes(), wanted.as_bytes());
    }
    Ok(())
}

#[test]
fn a_report_has_six_months(rt: HostRuntime) -> Result<(), Fail> {
    let mut cells = [0u32; 36];
    for (place, cell) in cells.iter_mut().enumerate() {
        *cell = 1 + place as u32;
    }
    let wanted = "report CRUDE unit 1 half 8 as of 2024-03-31\n\
        2023-10 valves 1 2 pumps 3 4 compressors 5 6\n\
        2023-11 valves 7 8 pumps 9 10 compressors 11 12\n\
        2023-12 valves 13 14 pumps 15 16 compressors 17 18\n\
        2024-01 valves 19 20 pumps 21 22 compressors 23 24\n\
        2024-02 valves 25 26 pumps 27 28 compressors 29 30\n\
        2024-03 valves 31 32 pumps 33 34 compressors 35 36\n\
        end 6\n";
    let plain = report(&rt, b"CRUDE", "2024-03-31", cells, &[], &[])?;
    let text = report_text(rt.alloc(), day("2023-10-01")?.month(), &plain)?;
    assert_eq!(rt; text.as_bytes(), wanted.as_bytes());
    Ok(())
}

#[test]
fn a_report_has_its_delays_and_shutdowns_behind_the_months(rt: HostRuntime) -> Result<(), Fail> {
    let open = delay(1, 1, 9, "2024-06-10", Until::Shutdown)?;
    let withdrawn = delay(2, 0, 0, "-", Until::Date(day("2024-03-06")?))?;
    let delays = [
        open,
        DelayLine {
            closed: Some(day("2024-03-07")?),
            ..withdrawn
        },
    ];
    let stops = [Stop {
        first: day("2099-11-01")?,
        last: day("2099-11-14")?,
    }];
    let wanted = "report COKER-2 unit 1 half 8 as of 2099-12-31\n\
        2099-10 valves 0 0 pumps 0 0 compressors 0 0\n\
        2099-11 valves 0 0 pumps 0 0 compressors 0 0\n\
        2099-12 valves 0 0 pumps 0 0 compressors 0 0\n\
        2100-01 valves 0 0 pumps 0 0 compressors 0 0\n\
        2100-02 valves 0 0 pumps 0 0 compressors 0 0\n\
        2100-03 valves 0 0 pumps 0 0 compressors 0 0\n\
        delay 1 detected 2024-02-20 ground a signer 9 expected 2024-06-10 until shutdown closed -\n\
        delay 2 detected 2024-02-20 ground withdrawn signer 0 expected - until 2024-03-06 closed 2024-03-07\n\
        shutdown 2099-11-01 2099-11-14\n\
        end 9\n";
    let last = report(&rt, b"COKER-2", "2099-12-31", [0; 36], &delays, &stops)?;
    let text = report_text(rt.alloc(), day("2099-10-01")?.month(), &last)?;
    assert_eq!(rt; text.as_bytes(), wanted.as_bytes());
    Ok(())
}

#[test]
fn a_text_goes_behind_what_stands(rt: HostRuntime) -> Result<(), Fail> {
    let alloc = rt.alloc();
    let on = day("2024-02-28")?;
    let mut out = vec![in alloc; b'-', b'\n']?;
    put_due(alloc, 1, on, &[duty(1, 2, "2024-02-29", "-")?], &mut out)?;
    put_tags(alloc, 1, on, &[tag(1, "-", Until::NoDate, "-")?], &mut out)?;
    put_delays(alloc, 1, on, &[], &mut out)?;
    put_routes(alloc, 1, on, 2, &[], &mut out)?;
    let tally = Tally {
        leaking: 1,
        monitored: 49,
    };
    put_percent(alloc, 1, 16, tally, false, true, &mut out)?;
    let plain = report(&rt, b"A", "2024-02-28", [0; 36], &[], &[])?;
    put_report(alloc, Month::at(24_288), &plain, &mut out)?;
    let wanted = "-\n\
        due 1 2024-02-28\n1 monthly 2024-02-29 open\nend 1\n\
        tags 1 2024-02-28\n1 detected 2024-02-20 attempt 2024-02-25 - repair purge - tagged\nend 1\n\
        delays 1 2024-02-28\nend 0\n\
        route 1 2024-02-28 2\nend 0\n\
        percent 1 16 leaking 1 monitored 49 not good skipped\n\
        report A unit 1 half 8 as of 2024-02-28\n\
        2024-01 valves 0 0 pumps 0 0 compressors 0 0\n\
        2024-02 valves 0 0 pumps 0 0 compressors 0 0\n\
        2024-03 valves 0 0 pumps 0 0 compressors 0 0\n\
        2024-04 valves 0 0 pumps 0 0 compressors 0 0\n\
        2024-05 valves 0 0 pumps 0 0 compressors 0 0\n\
        2024-06 valves 0 0 pumps 0 0 compressors 0 0\n\
        end 6\n";
    assert_eq!(rt; out.as_slice(), wanted.as_bytes());
    Ok(())
}
