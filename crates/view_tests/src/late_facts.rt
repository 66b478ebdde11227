//! Facts that arrive after a view was asked, and change what it shows.

use crate::asked::Row;
use crate::histories::{CRUDE, PASSES};
use crate::in_turn::shows_in_turn;
use std::test::Fail;

/// The percent view of the quarter from January 2024 on, and of the next two quarters.
const WINTER: &str = "percent 1 16 2024-03-31";

const SPRING: &str = "percent 1 17 2024-06-30";

/// Readings of valves 1 and 2 before a drift assessment that voids both.
const VOIDED: &str = "7: 2024-02-20 300 calibration 500; 2024-02-20 615 reading 1 499 0\
    ; 2024-02-20 615 reading 2 470 0; 2024-02-20 700 drift 500 440 440 440\n";

/// A calibration between the readings and the assessment arrives late: it saves the readings before it.
const CALIBRATED: [Row<'static>; 2] = [
    (
        "",
        WINTER,
        "",
        "percent 1 16 leaking 0 monitored 0 not good not skipped\n",
    ),
    (
        "7: 2024-02-20 650 calibration 500\n",
        WINTER,
        "",
        "percent 1 16 leaking 0 monitored 2 good not skipped\n",
    ),
];

/// Readings of three valves.
const READ: &str = "7: 2024-02-20 300 calibration 500; 2024-02-20 615 reading 1 499 0\
    ; 2024-02-20 615 reading 2 470 0; 2024-02-20 615 reading 3 440 0\n";

/// A drift assessment arrives late: it voids two of the three readings before it.
const DRIFTED: [Row<'static>; 4] = [
    (
        "",
        WINTER,
        "",
        "percent 1 16 leaking 0 monitored 3 good not skipped\n",
    ),
    (
        "",
        "due 1 2024-02-20",
        " done ",
        "1 monthly 2024-02-29 done 2024-02-20\n\
         2 monthly 2024-02-29 done 2024-02-20\n\
         3 monthly 2024-02-29 done 2024-02-20\n",
    ),
    (
        "7: 2024-02-20 700 drift 500 440 440 440\n",
        WINTER,
        "",
        "percent 1 16 leaking 0 monitored 1 good not skipped\n",
    ),
    (
        "",
        "due 1 2024-02-20",
        " done ",
        "3 monthly 2024-02-29 done 2024-02-20\n",
    ),
];

#[test]
fn late_calibrations_and_drifts_change_readings_before_them(rt: HostRuntime) -> Result<(), Fail> {
    shows_in_turn(&rt, rt.alloc(), &[CRUDE, PASSES, VOIDED], &CALIBRATED)?;
    shows_in_turn(&rt, rt.alloc(), &[CRUDE, PASSES, READ], &DRIFTED)
}

/// Leaks on the last day of three months after the precision test, and on the next day.
const APRIL: &str = "7: 2024-04-02 300 calibration 500; 2024-04-02 600 reading 1 620 0\n\
    7: 2024-04-03 300 calibration 500; 2024-04-03 600 reading 2 620 0\n";

/// A precision test of the next day arrives late.
const TESTED: [Row<'static>; 2] = [
    (
        "",
        "percent 1 17 2024-05-31",
        "",
        "percent 1 17 leaking 1 monitored 1 not good not skipped\n",
    ),
    (
        "7: 2024-01-03 0 precision 500 500 500 500\n",
        "percent 1 17 2024-05-31",
        "",
        "percent 1 17 leaking 2 monitored 2 not good not skipped\n",
    ),
];

/// Leaks on 29 February and 1 March, without a precision test.
const LEAP: &str = "7: 2024-02-29 300 calibration 500; 2024-02-29 600 reading 1 620 0\n\
    7: 2024-03-01 300 calibration 500; 2024-03-01 600 reading 2 620 0\n";

/// A precision test of 30 November arrives late: three months later is 29 February.
const LEAP_TESTED: [Row<'static>; 4] = [
    ("", "tags 1 2024-03-31", "", "tags 1 2024-03-31\nend 0\n"),
    (
        "",
        WINTER,
        "",
        "percent 1 16 leaking 0 monitored 0 not good not skipped\n",
    ),
    (
        "7: 2023-11-30 0 precision 500 500 500 500\n",
        WINTER,
        "",
        "percent 1 16 leaking 1 monitored 1 not good not skipped\n",
    ),
    (
        "",
        "tags 1 2024-03-31",
        "",
        "tags 1 2024-03-31\n\
         1 detected 2024-02-29 attempt 2024-03-05 - repair 2024-03-15 - tagged\nend 1\n",
    ),
];

#[test]
fn a_late_precision_test_counts_for_three_months(rt: HostRuntime) -> Result<(), Fail> {
    shows_in_turn(&rt, rt.alloc(), &[CRUDE, PASSES, APRIL], &TESTED)?;
    shows_in_turn(&rt, rt.alloc(), &[CRUDE, LEAP], &LEAP_TESTED)
}

/// A leak of valve 1 on 2024-02-20.
const LEAK: &str = "7: 2024-02-20 300 calibration 500; 2024-02-20 615 reading 1 620 0\n";

/// A delay until a shutdown, and its withdrawal on 2024-07-01.
const WITHDRAWN: &str = "7: 2024-03-01 600 delay 1 a 9 2024-06-10\n\
    7: 2024-07-01 600 delay 1 withdrawn 9 2024-06-10\n";

/// A shutdown arrives late: it ends the delay before the withdrawal, which is ignored then. No fact names the valve.
const SHUT: [Row<'static>; 6] = [
    (
        "",
        "percent 1 17 2024-07-31",
        "",
        "percent 1 17 leaking 0 monitored 0 not good not skipped\n",
    ),
    (
        "",
        "tags 1 2024-07-31",
        "detected",
        "1 detected 2024-02-20 attempt 2024-02-25 - repair 2024-07-01 - tagged\n",
    ),
    (
        "0: 2024-06-01 0 shutdown 1 14\n",
        "percent 1 17 2024-07-31",
        "",
        "percent 1 17 leaking 1 monitored 1 not good not skipped\n",
    ),
    (
        "",
        "percent 1 18 2024-10-31",
        "",
        "percent 1 18 leaking 1 monitored 1 not good not skipped\n",
    ),
    (
        "",
        "tags 1 2024-07-31",
        "detected",
        "1 detected 2024-02-20 attempt 2024-02-25 - repair 2024-06-14 - tagged\n",
    ),
    (
        "",
        "report 1 9 2024-07-31",
        "2024-06-",
        "delay 1 detected 2024-02-20 ground a signer 9 expected 2024-06-10 until 2024-06-14 closed -\n\
         shutdown 2024-06-01 2024-06-14\n",
    ),
];

/// A delay until a shutdown that is known, and its withdrawal after the shutdown's end.
const WITHDRAWN_LATE: &str =
    "0: 2024-06-01 0 shutdown 1 14\n7: 2024-03-01 600 delay 1 a 9 2024-06-10\n\
    7: 2024-06-20 600 delay 1 withdrawn 9 2024-06-10\n";

/// An attempt in the shutdown arrives late: the delay then lasts beyond the withdrawal, which counts.
const ATTEMPTED: [Row<'static>; 3] = [
    (
        "",
        SPRING,
        "",
        "percent 1 17 leaking 1 monitored 1 not good not skipped\n",
    ),
    (
        "7: 2024-06-05 600 attempt 1\n",
        SPRING,
        "",
        "percent 1 17 leaking 0 monitored 0 not good not skipped\n",
    ),
    (
        "",
        "tags 1 2024-06-30",
        "detected",
        "1 detected 2024-02-20 attempt 2024-02-25 2024-06-05 repair 2024-06-20 - tagged\n",
    ),
];

#[test]
fn a_late_shutdown_or_attempt_decides_which_delay_counts(rt: HostRuntime) -> Result<(), Fail> {
    shows_in_turn(&rt, rt.alloc(), &[CRUDE, PASSES, LEAK, WITHDRAWN], &SHUT)?;
    let front = &[CRUDE, PASSES, LEAK, WITHDRAWN_LATE];
    shows_in_turn(&rt, rt.alloc(), front, &ATTEMPTED)
}

/// A class of an earlier day arrives late: the reading is then below the leak definition.
const HEAVY: [Row<'static>; 3] = [
    (
        "",
        WINTER,
        "",
        "percent 1 16 leaking 1 monitored 1 not good not skipped\n",
    ),
    (
        "0: 2024-02-01 0 class 1 heavy\n",
        WINTER,
        "",
        "percent 1 16 leaking 0 monitored 0 not good not skipped\n",
    ),
    ("", "tags 1 2024-03-31", "", "tags 1 2024-03-31\nend 0\n"),
];

/// The valve is retired after the leak. A retirement on the day of the leak arrives late.
const RETIRED: [Row<'static>; 4] = [
    (
        "0: 2024-05-01 0 retire 1\n",
        "tags 1 2024-05-31",
        "",
        "tags 1 2024-05-31\n\
         1 detected 2024-02-20 attempt 2024-02-25 - repair 2024-03-06 2024-05-01 tagged\nend 1\n",
    ),
    (
        "",
        "report 1 8 2024-05-31",
        "2024-02",
        "2024-02 valves 1 0 pumps 0 0 compressors 0 0\n",
    ),
    (
        "0: 2024-02-20 0 retire 1\n",
        "tags 1 2024-05-31",
        "",
        "tags 1 2024-05-31\nend 0\n",
    ),
    (
        "",
        "report 1 8 2024-05-31",
        "2024-02",
        "2024-02 valves 0 0 pumps 0 0 compressors 0 0\n",
    ),
];

#[test]
fn a_late_class_or_retirement_undoes_a_leak(rt: HostRuntime) -> Result<(), Fail> {
    shows_in_turn(&rt, rt.alloc(), &[CRUDE, PASSES, LEAK], &HEAVY)?;
    shows_in_turn(&rt, rt.alloc(), &[CRUDE, PASSES, LEAK], &RETIRED)
}

/// A new valve of a unit that was asked.
const ENTERED: [Row<'static>; 2] = [
    ("", "due 1 2024-03-02", "40 ", ""),
    (
        "0: 2024-02-01 0 valve 40 1 gas\n",
        "due 1 2024-03-02",
        "40 ",
        "40 first 2024-03-02 open\n40 monthly 2024-03-31 open\n",
    ),
];

/// Clean readings of valve 1 in two quarters.
const CLEAN: &str = "7: 2023-11-20 200 precision 500 500 500 500; 2023-11-20 300 calibration 500\
    ; 2023-11-20 600 reading 1 20 0\n7: 2024-02-20 300 calibration 500; 2024-02-20 600 reading 1 20 0\n";

/// An election of skip periods arrives late.
const ELECTED: [Row<'static>; 2] = [
    (
        "",
        "percent 1 17 2024-04-30",
        "",
        "percent 1 17 leaking 0 monitored 0 not good not skipped\n",
    ),
    (
        "0: 2024-04-01 0 election 1 1 2023-12-01\n",
        "percent 1 17 2024-04-30",
        "",
        "percent 1 17 leaking 0 monitored 0 not good skipped\n",
    ),
];

#[test]
fn late_entries_of_a_unit_are_shown(rt: HostRuntime) -> Result<(), Fail> {
    shows_in_turn(&rt, rt.alloc(), &[CRUDE, PASSES], &ENTERED)?;
    shows_in_turn(&rt, rt.alloc(), &[CRUDE, PASSES, CLEAN], &ELECTED)
}

/// Unit 2 with valve 20.
const COKER: &str = "0: 2020-01-15 0 unit 2 COKER; 2020-01-15 0 valve 20 2 gas\n";

/// Leaks of valve 1 of unit 1 and valve 20 of unit 2, by an instrument that is not calibrated.
const UNCALIBRATED: &str = "7: 2024-02-20 615 reading 1 620 0; 2024-02-20 615 reading 20 620 0\n";

/// The calibration arrives late. Unit 1 is asked before and after it, and unit 2 only after it.
const TWO_UNITS: [Row<'static>; 3] = [
    ("", "tags 1 2024-02-28", "", "tags 1 2024-02-28\nend 0\n"),
    (
        "7: 2024-02-20 300 calibration 500\n",
        "tags 1 2024-02-28",
        "",
        "tags 1 2024-02-28\n\
         1 detected 2024-02-20 attempt 2024-02-25 - repair 2024-03-06 - tagged\nend 1\n",
    ),
    (
        "",
        "tags 2 2024-02-28",
        "",
        "tags 2 2024-02-28\n\
         20 detected 2024-02-20 attempt 2024-02-25 - repair 2024-03-06 - tagged\nend 1\n",
    ),
];

/// Both units are asked before the calibration, and after it.
const BOTH_BEFORE: [Row<'static>; 4] = [
    ("", "tags 2 2024-02-28", "", "tags 2 2024-02-28\nend 0\n"),
    ("", "tags 1 2024-02-28", "", "tags 1 2024-02-28\nend 0\n"),
    (
        "7: 2024-02-20 300 calibration 500\n",
        "tags 1 2024-02-28",
        "end",
        "end 1\n",
    ),
    ("", "tags 2 2024-02-28", "end", "end 1\n"),
];

/// What does not exist is asked between the late calibration and the view.
const NO_SUCH: [Row<'static>; 6] = [
    ("", "tags 1 2024-02-28", "", "tags 1 2024-02-28\nend 0\n"),
    (
        "7: 2024-02-20 300 calibration 500\n",
        "percent 1 99 2024-02-28",
        "",
        "no such quarter",
    ),
    ("", "report 1 99 2024-02-28", "", "no such half"),
    ("", "route 1 2024-02-28 0", "", "no such stops"),
    ("", "tags 1 2020-01-14", "", "no such unit"),
    ("", "tags 1 2024-02-28", "end", "end 1\n"),
];

#[test]
fn each_unit_shows_the_late_calibration_of_a_shared_instrument(
    rt: HostRuntime,
) -> Result<(), Fail> {
    let front = &[CRUDE, COKER, PASSES, UNCALIBRATED];
    shows_in_turn(&rt, rt.alloc(), front, &TWO_UNITS)?;
    shows_in_turn(&rt, rt.alloc(), front, &BOTH_BEFORE)?;
    shows_in_turn(&rt, rt.alloc(), front, &NO_SUCH)
}
