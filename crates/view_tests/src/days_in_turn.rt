//! Views of several days, asked in turn.

use crate::asked::Row;
use crate::histories::{CRUDE, PASSES};
use crate::in_turn::shows_in_turn;
use std::test::Fail;

/// A leak of valve 1 on 2024-02-20, a delay until a shutdown, and its withdrawal on 2024-07-01.
const WITHDRAWN: &str = "7: 2024-02-20 300 calibration 500; 2024-02-20 615 reading 1 620 0\n\
    7: 2024-03-01 600 delay 1 a 9 2024-06-10\n\
    7: 2024-07-01 600 delay 1 withdrawn 9 2024-06-10\n";

const LEAKS: &str = "percent 1 17 leaking 1 monitored 1 not good not skipped\n";

const LEAKS_NOT: &str = "percent 1 17 leaking 0 monitored 0 not good not skipped\n";

/// The second quarter of 2024 as known on five days and again, on the same days after late facts.
const FIVE_DAYS: [Row<'static>; 17] = [
    ("", "percent 1 17 2024-06-30", "", LEAKS),
    ("", "percent 1 17 2024-07-31", "", LEAKS_NOT),
    ("", "percent 1 17 2024-06-30", "", LEAKS),
    ("", "percent 1 17 2024-05-31", "", LEAKS),
    ("", "percent 1 17 2024-07-01", "", LEAKS_NOT),
    ("", "percent 1 17 2024-08-31", "", LEAKS_NOT),
    ("", "percent 1 17 2024-06-30", "", LEAKS),
    (
        "0: 2024-06-01 0 shutdown 1 14\n",
        "percent 1 17 2024-08-31",
        "",
        LEAKS,
    ),
    ("", "percent 1 17 2024-07-01", "", LEAKS),
    ("", "percent 1 17 2024-05-31", "", LEAKS),
    ("", "percent 1 17 2024-07-31", "", LEAKS),
    ("", "percent 1 17 2024-06-30", "", LEAKS),
    (
        "7: 2024-06-10 600 attempt 1; 2024-06-12 300 calibration 500; 2024-06-12 600 reading 2 20 0\n\
         7: 2024-06-12 200 precision 500 500 500 500\n",
        "percent 1 17 2024-06-30",
        "",
        "percent 1 17 leaking 1 monitored 2 not good not skipped\n",
    ),
    ("", "percent 1 17 2024-05-31", "", LEAKS),
    (
        "",
        "percent 1 17 2024-08-31",
        "",
        "percent 1 17 leaking 1 monitored 2 not good not skipped\n",
    ),
    (
        "0: 2024-02-20 0 retire 1\n",
        "percent 1 17 2024-05-31",
        "",
        LEAKS_NOT,
    ),
    (
        "",
        "percent 1 17 2024-08-31",
        "",
        "percent 1 17 leaking 0 monitored 1 good not skipped\n",
    ),
];

/// A new valve whose first monitoring is missed on 2024-03-03.
const NEW: &str = "0: 2024-02-01 0 valve 40 1 gas\n\
    7: 2024-02-20 300 calibration 500; 2024-02-20 615 reading 1 620 0\n";

const ONE: &str = "percent 1 16 leaking 1 monitored 1 not good not skipped\n";

const TWO: &str = "percent 1 16 leaking 2 monitored 2 not good not skipped\n";

/// No fact is of a day between these.
const NO_FACT_BETWEEN: [Row<'static>; 7] = [
    ("", "percent 1 16 2024-03-02", "", ONE),
    ("", "percent 1 16 2024-03-03", "", TWO),
    ("", "percent 1 16 2024-03-02", "", ONE),
    ("", "percent 1 16 2024-03-04", "", TWO),
    ("", "percent 1 16 2024-03-01", "", ONE),
    (
        "7: 2024-02-25 300 calibration 500; 2024-02-25 600 reading 40 20 0\n",
        "percent 1 16 2024-03-03",
        "",
        "percent 1 16 leaking 1 monitored 2 not good not skipped\n",
    ),
    (
        "",
        "percent 1 16 2024-03-02",
        "",
        "percent 1 16 leaking 1 monitored 2 not good not skipped\n",
    ),
];

#[test]
fn the_percent_of_a_quarter_is_that_of_each_view_day(rt: HostRuntime) -> Result<(), Fail> {
    shows_in_turn(&rt, rt.alloc(), &[CRUDE, PASSES, WITHDRAWN], &FIVE_DAYS)?;
    shows_in_turn(&rt, rt.alloc(), &[CRUDE, PASSES, NEW], &NO_FACT_BETWEEN)
}

/// A leak with its repair, a clean month after it, and a leak on 2024-04-20.
const REPAIRED: &str = "7: 2024-02-20 300 calibration 500; 2024-02-20 615 reading 1 620 0\n\
    7: 2024-02-22 600 attempt 1\n\
    7: 2024-03-06 300 calibration 500; 2024-03-06 600 reading 1 20 0\n\
    7: 2024-04-02 300 calibration 500; 2024-04-02 600 reading 1 20 0\n\
    7: 2024-04-20 200 precision 500 500 500 500; 2024-04-20 300 calibration 500; 2024-04-20 600 reading 1 700 0\n";

const TAGGED: &str =
    "1 detected 2024-02-20 attempt 2024-02-25 2024-02-22 repair 2024-03-06 2024-03-06 tagged\n";

const REMOVABLE: &str =
    "1 detected 2024-02-20 attempt 2024-02-25 2024-02-22 repair 2024-03-06 2024-03-06 removable\n";

/// The first tag becomes removable, and is none when the month turns out not to be clean.
const REMOVALS: [Row<'static>; 8] = [
    ("", "tags 1 2024-04-01", "detected 2024-02", TAGGED),
    ("", "tags 1 2024-04-02", "detected 2024-02", REMOVABLE),
    ("", "tags 1 2024-04-19", "detected 2024-02", REMOVABLE),
    ("", "tags 1 2024-04-20", "detected 2024-02", TAGGED),
    ("", "tags 1 2024-04-19", "detected 2024-02", REMOVABLE),
    (
        "",
        "tags 1 2024-03-05",
        "detected 2024-02",
        "1 detected 2024-02-20 attempt 2024-02-25 2024-02-22 repair 2024-03-06 - tagged\n",
    ),
    (
        "",
        "tags 1 2024-02-21",
        "detected 2024-02",
        "1 detected 2024-02-20 attempt 2024-02-25 - repair 2024-03-06 - tagged\n",
    ),
    ("", "tags 1 2024-04-02", "detected 2024-02", REMOVABLE),
];

#[test]
fn a_tag_is_removable_on_some_days_only(rt: HostRuntime) -> Result<(), Fail> {
    shows_in_turn(&rt, rt.alloc(), &[CRUDE, PASSES, REPAIRED], &REMOVALS)
}

/// An election of skip periods from July 2024 on, and clean readings in February, May and November.
const SKIPPING: &str = "0: 2024-07-01 0 election 1 1 2024-04-01\n\
    7: 2024-02-20 300 calibration 500; 2024-02-20 600 reading 1 20 0\n\
    7: 2024-05-20 200 precision 500 500 500 500; 2024-05-20 300 calibration 500; 2024-05-20 600 reading 1 20 0\n\
    7: 2024-11-20 200 precision 500 500 500 500; 2024-11-20 300 calibration 500; 2024-11-20 600 reading 1 20 0\n";

/// A late leak of valve 2 in May.
const MAY_LEAK: &str = "7: 2024-05-21 300 calibration 500; 2024-05-21 600 reading 2 700 0\n";

/// Fewer and more quarters of one day, also after a late leak.
const QUARTERS: [Row<'static>; 8] = [
    (
        "",
        "percent 1 18 2025-03-31",
        "",
        "percent 1 18 leaking 0 monitored 0 not good skipped\n",
    ),
    (
        "",
        "percent 1 1 2025-03-31",
        "",
        "percent 1 1 leaking 0 monitored 0 not good not skipped\n",
    ),
    (
        "",
        "percent 1 20 2025-03-31",
        "",
        "percent 1 20 leaking 0 monitored 0 not good skipped\n",
    ),
    (
        "",
        "percent 1 19 2025-03-31",
        "",
        "percent 1 19 leaking 0 monitored 1 good not skipped\n",
    ),
    (
        MAY_LEAK,
        "percent 1 18 2025-03-31",
        "",
        "percent 1 18 leaking 0 monitored 0 not good not skipped\n",
    ),
    (
        "",
        "percent 1 1 2025-03-31",
        "",
        "percent 1 1 leaking 0 monitored 0 not good not skipped\n",
    ),
    (
        "",
        "percent 1 20 2025-03-31",
        "",
        "percent 1 20 leaking 0 monitored 0 not good not skipped\n",
    ),
    (
        "",
        "percent 1 17 2025-03-31",
        "",
        "percent 1 17 leaking 1 monitored 2 not good not skipped\n",
    ),
];

#[test]
fn fewer_and_more_quarters_are_counted_alike(rt: HostRuntime) -> Result<(), Fail> {
    shows_in_turn(&rt, rt.alloc(), &[CRUDE, PASSES, SKIPPING], &QUARTERS)
}
