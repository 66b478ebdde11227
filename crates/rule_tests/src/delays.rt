//! Due days of repairs that are delayed.

use delay_of_repair::{Repair, counted, repair_due, repair_of};
use fact_kinds::Key;
use ldar_days::Day;
use ldar_law::{DelayEntry, Stop, Until};
use std::alloc::Global;
use std::test::Fail;
use test_kit::{day, same};

/// The due day, from a word of the views or from the text of a day.
fn until(text: &str) -> Result<Until, Fail> {
    match text {
        "shutdown" => Ok(Until::Shutdown),
        "isolated" => Ok(Until::WhileIsolated),
        "purge" => Ok(Until::NoDate),
        _ => Ok(Until::Date(day(text)?)),
    }
}

/// A delay: its ground, as a number, and the day on which it was entered.
type Delay<'a> = (u8, &'a str);

/// A shutdown: its first and its last day.
type Days<'a> = (&'a str, &'a str);

/// A delay that was entered on a day.
fn delayed((ground, entered): Delay) -> Result<DelayEntry, Fail> {
    let key = Key {
        day: day(entered)?,
        minute: 600,
        handheld: 7,
        number: 12,
        index: 0,
    };
    Ok(DelayEntry {
        key,
        ground,
        signer: 9,
        expected: None,
    })
}

/// The days with these texts.
fn days_of(alloc: Global, texts: &[&str]) -> Result<Vec<Day>, Fail> {
    let mut days = Vec::new(alloc);
    for text in texts {
        days.push(day(text)?)?;
    }
    Ok(days)
}

/// The shutdowns of a unit.
fn stops_of(alloc: Global, stops: &[Days]) -> Result<Vec<Stop>, Fail> {
    let mut known = Vec::new(alloc);
    for (first, last) in stops {
        let first = day(first)?;
        let last = day(last)?;
        known.push(Stop { first, last })?;
    }
    Ok(known)
}

/// What is known of a leak, by the texts of its days, and its case.
#[derive(Clone, Copy)]
struct Leak<'a> {
    case: &'a str,
    detected: &'a str,
    delays: &'a [DelayEntry],
    attempts: &'a [&'a str],
    stops: &'a [Days<'a>],
}

/// Checks the due day of a leak, and which of its delays sets it, by each of the three calls.
fn gives(alloc: Global, leak: Leak, due: &str, place: Option<usize>) -> Result<(), Fail> {
    let due = until(due)?;
    let detected = day(leak.detected)?;
    let attempts = days_of(alloc, leak.attempts)?;
    let stops = stops_of(alloc, leak.stops)?;
    let found = repair_due(detected, leak.delays, &attempts, &stops);
    same(leak.case, &found, &due)?;
    let found = counted(detected, leak.delays, &attempts, &stops);
    same(leak.case, &found, &place)?;
    let found = repair_of(detected, leak.delays, &attempts, &stops);
    let both = Repair {
        due,
        counted: place,
    };
    same(leak.case, &found, &both)
}

/// Checks the due day set by one delay. The component's unit has three shutdowns, and the first one begins on the day of
/// detection.
fn ground_gives(alloc: Global, case: &str, delay: Delay, due: &str) -> Result<(), Fail> {
    let delayed = delayed(delay)?;
    let leak = Leak {
        case,
        detected: "2024-02-20",
        delays: &[delayed],
        attempts: &[],
        stops: &[
            ("2024-02-20", "2024-03-31"),
            ("2024-06-01", "2024-06-14"),
            ("2025-01-01", "2025-01-05"),
        ],
    };
    gives(alloc, leak, due, Some(0))
}

#[test]
fn each_ground_gives_its_due_day(rt: HostRuntime) -> Result<(), Fail> {
    let alloc = rt.alloc();
    ground_gives(alloc, "ground 0", (0, "2024-02-20"), "2024-03-06")?;
    ground_gives(alloc, "ground 0, late", (0, "2024-03-06"), "2024-03-06")?;
    ground_gives(alloc, "ground 1", (1, "2024-03-01"), "2024-06-14")?;
    ground_gives(alloc, "ground 2", (2, "2024-03-01"), "isolated")?;
    ground_gives(alloc, "ground 3", (3, "2024-03-01"), "purge")?;
    ground_gives(alloc, "ground 4", (4, "2024-03-01"), "2024-08-20")?;
    ground_gives(alloc, "ground 5", (5, "2024-03-01"), "2025-01-05")
}

/// Checks the due day of a leak whose repair needs a dual mechanical seal.
fn half_year_ends(alloc: Global, detected: &str, entered: &str, due: &str) -> Result<(), Fail> {
    let delayed = delayed((4, entered))?;
    let leak = Leak {
        case: detected,
        detected,
        delays: &[delayed],
        attempts: &[],
        stops: &[],
    };
    gives(alloc, leak, due, Some(0))
}

#[test]
fn six_months_later_may_be_a_shorter_month(rt: HostRuntime) -> Result<(), Fail> {
    let alloc = rt.alloc();
    half_year_ends(alloc, "2023-08-31", "2023-09-05", "2024-02-29")?;
    half_year_ends(alloc, "2024-02-29", "2024-03-05", "2024-08-29")?;
    half_year_ends(alloc, "2099-08-31", "2099-09-05", "2099-12-31")
}

/// Checks the due day set by delays when no shutdown is entered.
fn delays_give(
    alloc: Global,
    case: &str,
    delays: &[DelayEntry],
    due: &str,
    place: Option<usize>,
) -> Result<(), Fail> {
    let leak = Leak {
        case,
        detected: "2024-02-20",
        delays,
        attempts: &[],
        stops: &[],
    };
    gives(alloc, leak, due, place)
}

#[test]
fn a_delay_past_the_due_day_is_ignored(rt: HostRuntime) -> Result<(), Fail> {
    // On the fifteenth day, and on the day after it.
    let cases = [
        ("the last day", (1, "2024-03-06"), "shutdown", Some(0)),
        ("a day late", (1, "2024-03-07"), "2024-03-06", None),
        ("withdrawn late", (0, "2024-03-07"), "2024-03-06", None),
    ];
    for (case, delay, due, place) in cases {
        let delayed = delayed(delay)?;
        delays_give(rt.alloc(), case, &[delayed], due, place)?;
    }
    delays_give(rt.alloc(), "no delay", &[], "2024-03-06", None)
}

/// Checks the due day of a repair that needs a shutdown, with an attempt on a day.
fn attempt_gives(alloc: Global, attempted: &str, due: &str) -> Result<(), Fail> {
    let delayed = delayed((1, "2024-03-01"))?;
    let leak = Leak {
        case: attempted,
        detected: "2024-02-20",
        delays: &[delayed],
        attempts: &["2024-02-21", attempted],
        stops: &[("2024-06-01", "2024-06-14")],
    };
    gives(alloc, leak, due, Some(0))
}

/// The day of an attempt, and the expected due day.
const ATTEMPTS: [(&str, &str); 6] = [
    ("2024-02-22", "2024-06-14"),
    ("2024-05-31", "2024-06-14"),
    ("2024-06-01", "2024-06-30"),
    ("2024-06-05", "2024-06-30"),
    ("2024-06-14", "2024-06-30"),
    ("2024-06-15", "2024-06-14"),
];

#[test]
fn an_attempt_in_a_shutdown_leaves_fifteen_days_from_the_startup(
    rt: HostRuntime,
) -> Result<(), Fail> {
    for (attempted, due) in &ATTEMPTS {
        attempt_gives(rt.alloc(), attempted, due)?;
    }
    Ok(())
}

/// Checks the due day of a repair that needs valve parts.
fn parts_give(alloc: Global, case: &str, stops: &[Days], due: &str) -> Result<(), Fail> {
    let delayed = delayed((5, "2024-01-12"))?;
    let leak = Leak {
        case,
        detected: "2024-01-10",
        delays: &[delayed],
        attempts: &[],
        stops,
    };
    gives(alloc, leak, due, Some(0))
}

#[test]
fn a_delay_for_valves_waits_for_a_second_shutdown(rt: HostRuntime) -> Result<(), Fail> {
    let alloc = rt.alloc();
    let first = ("2024-03-01", "2024-03-05");
    let soon = ("2024-08-31", "2024-09-09");
    let later = ("2024-09-01", "2024-09-10");
    let third = ("2025-03-01", "2025-03-05");
    parts_give(alloc, "too soon", &[first, soon, third], "2025-03-05")?;
    parts_give(alloc, "later", &[first, later, third], "2024-09-10")?;
    // A third shutdown that is not entered yet, and a second one.
    parts_give(alloc, "no third", &[first, soon], "shutdown")?;
    parts_give(alloc, "no second", &[first], "shutdown")?;
    parts_give(alloc, "no first", &[], "shutdown")
}

/// Checks which of two delays decides.
fn decides(
    alloc: Global,
    first: Delay,
    second: Delay,
    due: &str,
    place: usize,
) -> Result<(), Fail> {
    let earlier = delayed(first)?;
    let later = delayed(second)?;
    let leak = Leak {
        case: second.1,
        detected: "2024-02-20",
        delays: &[earlier, later],
        attempts: &[],
        stops: &[("2024-06-01", "2024-06-14")],
    };
    gives(alloc, leak, due, Some(place))
}

#[test]
fn the_last_delay_that_counts_decides(rt: HostRuntime) -> Result<(), Fail> {
    let alloc = rt.alloc();
    // Withdrawn, and withdrawn and entered again, the last one too late.
    decides(alloc, (2, "2024-02-21"), (0, "2024-03-10"), "2024-03-10", 1)?;
    decides(alloc, (0, "2024-03-02"), (2, "2024-03-06"), "isolated", 1)?;
    decides(alloc, (0, "2024-03-02"), (2, "2024-03-07"), "2024-03-06", 0)?;
    // The shutdown's last day is the last one on which another delay counts.
    decides(alloc, (1, "2024-03-01"), (3, "2024-06-14"), "purge", 1)?;
    decides(alloc, (1, "2024-03-01"), (3, "2024-06-15"), "2024-06-14", 0)
}
