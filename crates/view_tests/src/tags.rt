use crate::asked::{Row, shows};
use crate::histories::{CRUDE, PASSES};
use std::test::Fail;

/// The beginning of a reading on 2024-02-20 with an instrument that was calibrated on that day.
const READ: &str = "7: 2024-02-20 300 calibration 500; 2024-02-20 600 reading ";

/// The tag after a reading at the leak definition.
const LIMITS: [Row<'static>; 4] = [
    (
        "1 500 0",
        "tags 1 2024-02-28",
        "detected",
        "1 detected 2024-02-20 attempt 2024-02-25 - repair 2024-03-06 - tagged\n",
    ),
    (
        "5 2000 0",
        "tags 1 2024-02-28",
        "detected",
        "5 detected 2024-02-20 attempt 2024-02-25 - repair 2024-03-06 - tagged\n",
    ),
    (
        "6 5000 0",
        "tags 1 2024-02-28",
        "detected",
        "6 detected 2024-02-20 attempt 2024-02-25 - repair 2024-03-06 - tagged\n",
    ),
    (
        "7 10000 0",
        "tags 1 2024-02-28",
        "detected",
        "7 detected 2024-02-20 attempt 2024-02-25 - repair 2024-03-06 - tagged\n",
    ),
];

#[test]
fn a_reading_at_the_limit_opens_a_tag(rt: HostRuntime) -> Result<(), Fail> {
    shows(&rt, rt.alloc(), &[CRUDE, PASSES, READ], &LIMITS)
}

const NO_TAG: &str = "tags 1 2024-02-28\nend 0\n";

/// No tag after a reading below the leak definition.
const BELOW: [Row<'static>; 5] = [
    ("1 499 0", "tags 1 2024-02-28", "", NO_TAG),
    ("5 1999 0", "tags 1 2024-02-28", "", NO_TAG),
    ("6 4999 0", "tags 1 2024-02-28", "", NO_TAG),
    ("7 9999 0", "tags 1 2024-02-28", "", NO_TAG),
    ("9 700 0", "tags 1 2024-02-28", "", NO_TAG),
];

#[test]
fn a_reading_below_the_limit_opens_none(rt: HostRuntime) -> Result<(), Fail> {
    shows(&rt, rt.alloc(), &[CRUDE, PASSES, READ], &BELOW)
}

/// The tag of a reading before its calibration arrives, and after it arrives.
const LATE: [Row<'static>; 2] = [
    ("", "tags 1 2024-02-28", "", NO_TAG),
    (
        "7: 2024-02-20 620 visual 5 dry\n7: 2024-02-20 300 calibration 500",
        "tags 1 2024-02-28",
        "",
        "tags 1 2024-02-28\n\
         1 detected 2024-02-20 attempt 2024-02-25 - repair 2024-03-06 - tagged\nend 1\n",
    ),
];

#[test]
fn a_calibration_that_comes_late_counts(rt: HostRuntime) -> Result<(), Fail> {
    let leak = "7: 2024-02-20 615 reading 1 620 0\n";
    shows(&rt, rt.alloc(), &[CRUDE, PASSES, leak], &LATE)
}

/// A leak of valve 1 on 2024-02-20.
const LEAK: &str = "7: 2024-02-20 300 calibration 500; 2024-02-20 600 reading 1 620 0\n";

/// The tag of the leak after an attempt, after a clean reading, and after another one.
const CLOSINGS: [Row<'static>; 3] = [
    (
        "7: 2024-02-22 600 attempt 1\n",
        "tags 1 2024-02-28",
        "detected",
        "1 detected 2024-02-20 attempt 2024-02-25 2024-02-22 repair 2024-03-06 - tagged\n",
    ),
    (
        "7: 2024-02-22 600 attempt 1\n\
         7: 2024-03-06 300 calibration 500; 2024-03-06 600 reading 1 20 0\n",
        "tags 1 2024-03-10",
        "detected",
        "1 detected 2024-02-20 attempt 2024-02-25 2024-02-22 repair 2024-03-06 2024-03-06 tagged\n",
    ),
    (
        "7: 2024-02-22 600 attempt 1\n\
         7: 2024-03-06 300 calibration 500; 2024-03-06 600 reading 1 20 0\n\
         7: 2024-04-02 300 calibration 500; 2024-04-02 600 reading 1 20 0\n",
        "tags 1 2024-04-02",
        "detected",
        "1 detected 2024-02-20 attempt 2024-02-25 2024-02-22 repair 2024-03-06 2024-03-06 removable\n",
    ),
];

#[test]
fn a_tag_tells_its_attempt_its_repair_and_its_closing(rt: HostRuntime) -> Result<(), Fail> {
    shows(&rt, rt.alloc(), &[CRUDE, PASSES, LEAK], &CLOSINGS)
}

/// The number of tags 366 days after the closing, and on the next day.
const YEARS: [Row<'static>; 2] = [
    (
        "7: 2024-02-22 600 attempt 1\n\
         7: 2024-03-06 300 calibration 500; 2024-03-06 600 reading 1 20 0",
        "tags 1 2025-03-07",
        "end",
        "end 1\n",
    ),
    (
        "7: 2024-02-22 600 attempt 1\n\
         7: 2024-03-06 300 calibration 500; 2024-03-06 600 reading 1 20 0",
        "tags 1 2025-03-08",
        "end",
        "end 0\n",
    ),
];

#[test]
fn a_tag_is_shown_for_a_year_and_a_day(rt: HostRuntime) -> Result<(), Fail> {
    shows(&rt, rt.alloc(), &[CRUDE, PASSES, LEAK], &YEARS)
}

/// The tag of a leak with a delay: without a shutdown, after one, after an attempt in one, and with a delay that was entered too late.
const DELAYS: [Row<'static>; 4] = [
    (
        "7: 2024-03-01 600 delay 1 a 9 2024-06-10\n",
        "tags 1 2024-03-02",
        "detected",
        "1 detected 2024-02-20 attempt 2024-02-25 - repair shutdown - tagged\n",
    ),
    (
        "7: 2024-03-01 600 delay 1 a 9 2024-06-10\n0: 2024-06-01 0 shutdown 1 14\n",
        "tags 1 2024-07-01",
        "detected",
        "1 detected 2024-02-20 attempt 2024-02-25 - repair 2024-06-14 - tagged\n",
    ),
    (
        "7: 2024-03-01 600 delay 1 a 9 2024-06-10\n0: 2024-06-01 0 shutdown 1 14\n\
         7: 2024-06-05 600 attempt 1\n",
        "tags 1 2024-07-01",
        "detected",
        "1 detected 2024-02-20 attempt 2024-02-25 2024-06-05 repair 2024-06-30 - tagged\n",
    ),
    (
        "7: 2024-03-07 600 delay 1 a 9 2024-06-10\n",
        "tags 1 2024-03-08",
        "detected",
        "1 detected 2024-02-20 attempt 2024-02-25 - repair 2024-03-06 - tagged\n",
    ),
];

#[test]
fn a_delay_of_repair_tells_when_the_repair_is_due(rt: HostRuntime) -> Result<(), Fail> {
    shows(&rt, rt.alloc(), &[CRUDE, PASSES, LEAK], &DELAYS)
}

/// The list of delayed repairs after the delay, and before it.
const LISTED: [Row<'static>; 2] = [
    (
        "7: 2024-03-01 600 delay 1 a 9 2024-06-10\n",
        "delays 1 2024-03-02",
        "",
        "delays 1 2024-03-02\n\
         1 detected 2024-02-20 ground a signer 9 expected 2024-06-10 until shutdown\nend 1\n",
    ),
    (
        "7: 2024-03-01 600 delay 1 a 9 2024-06-10\n",
        "delays 1 2024-02-29",
        "",
        "delays 1 2024-02-29\nend 0\n",
    ),
];

#[test]
fn a_delayed_repair_is_listed_while_its_tag_is_open(rt: HostRuntime) -> Result<(), Fail> {
    shows(&rt, rt.alloc(), &[CRUDE, PASSES, LEAK], &LISTED)
}

/// The tag of designated drips of pump 5 after other drips, closed by a dry inspection after an attempt.
const DRIPS: [Row<'static>; 1] = [(
    "7: 2024-02-19 600 visual 5 drips\n7: 2024-02-22 300 calibration 500\
     ; 2024-02-22 600 reading 5 1999 0\n7: 2024-02-26 600 visual 5 drips\n\
     7: 2024-03-04 600 visual 5 designated\n7: 2024-03-06 600 attempt 5\n\
     7: 2024-03-11 600 visual 5 dry",
    "tags 1 2024-03-12",
    "detected",
    "5 detected 2024-03-04 attempt 2024-03-09 2024-03-06 repair 2024-03-19 2024-03-11 removable\n",
)];

#[test]
fn drips_are_closed_by_a_dry_look_after_an_attempt(rt: HostRuntime) -> Result<(), Fail> {
    shows(&rt, rt.alloc(), &[CRUDE, PASSES], &DRIPS)
}
