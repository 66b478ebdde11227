use crate::asked::{Row, shows, shows_row};
use crate::histories::{CRUDE, PASSES};
use std::alloc::{AllocError, Global};
use std::test::Fail;

/// The percent view of the first quarter of a unit without components.
const FIRST: &str = "percent 3 1 leaking 0 monitored 0 not good not skipped\n";

const NONE: &str = "no such quarter";

/// The percent view of the first quarter after a startup, on the day before the quarter begins and on its first day.
const STARTUPS: [Row<'static>; 6] = [
    (
        "0: 2020-01-15 0 unit 3 TANKS",
        "percent 3 1 2020-03-31",
        "",
        NONE,
    ),
    (
        "0: 2020-01-15 0 unit 3 TANKS",
        "percent 3 1 2020-04-01",
        "",
        FIRST,
    ),
    (
        "0: 2020-02-10 0 unit 3 TANKS",
        "percent 3 1 2020-04-30",
        "",
        NONE,
    ),
    (
        "0: 2020-02-10 0 unit 3 TANKS",
        "percent 3 1 2020-05-01",
        "",
        FIRST,
    ),
    (
        "0: 2020-01-01 0 unit 3 TANKS",
        "percent 3 1 2020-02-29",
        "",
        NONE,
    ),
    (
        "0: 2020-01-01 0 unit 3 TANKS",
        "percent 3 1 2020-03-01",
        "",
        FIRST,
    ),
];

#[test]
fn the_first_quarter_ends_with_the_last_whole_month_of_180_days(
    rt: HostRuntime,
) -> Result<(), Fail> {
    shows(&rt, rt.alloc(), &[], &STARTUPS)
}

/// The percent view of a quarter with a reading, after a precision test of 500 ppm.
const TESTS: [Row<'static>; 2] = [
    (
        "450 450 450\n7: 2024-02-20 300 calibration 500; 2024-02-20 600 reading 1 20 0",
        "percent 1 16 2024-03-31",
        "",
        "percent 1 16 leaking 0 monitored 1 good not skipped\n",
    ),
    (
        "449 450 450\n7: 2024-02-20 300 calibration 500; 2024-02-20 600 reading 1 20 0",
        "percent 1 16 2024-03-31",
        "",
        "percent 1 16 leaking 0 monitored 0 not good not skipped\n",
    ),
];

#[test]
fn a_precision_test_within_a_tenth_passes(rt: HostRuntime) -> Result<(), Fail> {
    let tested = "1: 2024-01-02 0 precision 500 ";
    shows(&rt, rt.alloc(), &[CRUDE, tested], &TESTS)
}

/// Adds the numbers after `from` up to `to`, each with a text before it and one after it.
fn add_numbers(
    alloc: Global,
    text: &mut String,
    from: u32,
    to: u32,
    before: &str,
    behind: &str,
) -> Result<(), AllocError> {
    for place in from..to {
        let number = place.saturating_add(1);
        let next = format!(in alloc; "{before}{number}{behind}")?;
        text.push_str(next.as_str())?;
    }
    Ok(())
}

/// This many valves of unit 3, which begin with the unit, and a reading of each on 2024-04-10. The first `leaking` readings are
/// leaks.
fn valves_read(alloc: Global, leaking: u32, count: u32) -> Result<String, AllocError> {
    let valve = "; 2024-01-15 0 valve ";
    let reading = "; 2024-04-10 600 reading ";
    let mut text = String::from_str(alloc, "0: 2024-01-15 0 unit 3 TANKS")?;
    add_numbers(alloc, &mut text, 0, count, valve, " 3 gas")?;
    text.push_str("\n7: 2024-04-10 200 precision 500 500 500 500; 2024-04-10 300 calibration 500")?;
    add_numbers(alloc, &mut text, 0, leaking, reading, " 600 0")?;
    add_numbers(alloc, &mut text, leaking, count, reading, " 20 0")?;
    Ok(text)
}

/// The number of leaking valves, the number of valves, and the view of the first quarter.
const SHARES: [(u32, u32, &str); 4] = [
    (
        3,
        150,
        "percent 3 1 leaking 3 monitored 150 good not skipped\n",
    ),
    (
        4,
        200,
        "percent 3 1 leaking 4 monitored 200 good not skipped\n",
    ),
    (
        4,
        199,
        "percent 3 1 leaking 4 monitored 199 not good not skipped\n",
    ),
    (
        0,
        0,
        "percent 3 1 leaking 0 monitored 0 not good not skipped\n",
    ),
];

#[test]
fn two_valves_in_a_hundred_may_leak(rt: HostRuntime) -> Result<(), Fail> {
    for (leaking, count, want) in &SHARES {
        let history = valves_read(rt.alloc(), *leaking, *count)?;
        let row = ("", "percent 3 1 2024-04-30", "", *want);
        shows_row(&rt, rt.alloc(), &[history.as_str()], &row)?;
    }
    Ok(())
}

/// An election of skip periods from 2024-07-01 on.
const ELECTED: &str = "0: 2024-07-01 0 election 1 1 2024-04-01\n";

/// Clean readings of valve 1.
const FEBRUARY: &str = "7: 2024-02-20 200 precision 500 500 500 500; 2024-02-20 300 calibration 500\
    ; 2024-02-20 600 reading 1 20 0\n";

const MAY: &str = "7: 2024-05-20 200 precision 500 500 500 500; 2024-05-20 300 calibration 500\
    ; 2024-05-20 600 reading 1 20 0\n";

const NOVEMBER: &str = "7: 2024-11-20 200 precision 500 500 500 500; 2024-11-20 300 calibration 500\
    ; 2024-11-20 600 reading 1 20 0\n";

/// The view of a quarter after one clean reading, after two and after three.
const ONCE: [Row<'static>; 1] = [(
    FEBRUARY,
    "percent 1 18 2024-09-30",
    "",
    "percent 1 18 leaking 0 monitored 0 not good not skipped\n",
)];

const TWICE: [Row<'static>; 2] = [
    (
        MAY,
        "percent 1 18 2024-09-30",
        "",
        "percent 1 18 leaking 0 monitored 0 not good skipped\n",
    ),
    (
        MAY,
        "percent 1 19 2024-12-31",
        "",
        "percent 1 19 leaking 0 monitored 0 not good not skipped\n",
    ),
];

const THRICE: [Row<'static>; 1] = [(
    NOVEMBER,
    "percent 1 20 2025-03-31",
    "",
    "percent 1 20 leaking 0 monitored 0 not good skipped\n",
)];

#[test]
fn a_quarter_after_two_good_ones_is_skipped(rt: HostRuntime) -> Result<(), Fail> {
    let alloc = rt.alloc();
    shows(&rt, alloc, &[CRUDE, PASSES, ELECTED], &ONCE)?;
    shows(&rt, alloc, &[CRUDE, PASSES, ELECTED, FEBRUARY], &TWICE)?;
    let twice = &[CRUDE, PASSES, ELECTED, FEBRUARY, MAY];
    shows(&rt, alloc, twice, &THRICE)
}

/// Requests for what does not exist, and for a quarter that exists.
const ABSENT: [Row<'static>; 13] = [
    ("", "tags 9 2024-02-20", "", "no such unit"),
    ("", "route 1 2024-02-20 0", "", "no such stops"),
    ("", "percent 1 17 2024-03-31", "", "no such quarter"),
    ("", "report 1 0 2024-03-31", "", "no such half"),
    ("", "due 1 2020-01-14", "", "no such unit"),
    ("", "tags 1 2020-01-14", "", "no such unit"),
    ("", "delays 1 2020-01-14", "", "no such unit"),
    ("", "route 1 2020-01-14 0", "", "no such unit"),
    ("", "percent 1 0 2020-01-14", "", "no such unit"),
    ("", "report 1 0 2020-01-14", "", "no such unit"),
    ("", "percent 1 0 2024-03-31", "", "no such quarter"),
    ("", "report 1 9 2024-03-31", "", "no such half"),
    (
        "",
        "percent 1 16 2024-03-31",
        "",
        "percent 1 16 leaking 0 monitored 0 not good not skipped\n",
    ),
];

#[test]
fn what_there_is_none_of_is_told(rt: HostRuntime) -> Result<(), Fail> {
    shows(&rt, rt.alloc(), &[CRUDE, PASSES], &ABSENT)
}
