use crate::asked::{Row, shows};
use crate::histories::{CRUDE, PASSES};
use std::test::Fail;

/// The monthly readings of three valves on 2024-02-20, and the beginning of the drift assessment after them.
const DRIFTED: &str = "7: 2024-02-20 300 calibration 500\
    ; 2024-02-20 600 reading 1 440 0; 2024-02-20 600 reading 2 441 0\
    ; 2024-02-20 600 reading 3 499 0; 2024-02-20 700 drift 500 ";

/// The duties of February 2024 after each drift.
const DRIFTS: [Row<'static>; 2] = [
    (
        "440 440 440",
        "due 1 2024-02-20",
        " monthly 2024-02",
        "1 monthly 2024-02-29 done 2024-02-20\n\
         2 monthly 2024-02-29 open\n\
         3 monthly 2024-02-29 open\n\
         4 monthly 2024-02-29 open\n5 monthly 2024-02-29 open\n6 monthly 2024-02-29 open\n",
    ),
    (
        "450 450 450",
        "due 1 2024-02-20",
        " monthly 2024-02",
        "1 monthly 2024-02-29 done 2024-02-20\n\
         2 monthly 2024-02-29 done 2024-02-20\n\
         3 monthly 2024-02-29 done 2024-02-20\n\
         4 monthly 2024-02-29 open\n5 monthly 2024-02-29 open\n6 monthly 2024-02-29 open\n",
    ),
];

#[test]
fn readings_that_a_drift_voids_meet_no_duty(rt: HostRuntime) -> Result<(), Fail> {
    shows(&rt, rt.alloc(), &[CRUDE, PASSES, DRIFTED], &DRIFTS)
}

/// Valve 1 is read in March and April 2024, each time with this ppm.
const BOTH_20: &str = "7: 2024-03-10 300 calibration 500; 2024-03-10 600 reading 1 20 0\n\
    7: 2024-04-10 200 precision 500 500 500 500; 2024-04-10 300 calibration 500; 2024-04-10 600 reading 1 20 0\n";

const BOTH_499: &str = "7: 2024-03-10 300 calibration 500; 2024-03-10 600 reading 1 499 0\n\
    7: 2024-04-10 200 precision 500 500 500 500; 2024-04-10 300 calibration 500; 2024-04-10 600 reading 1 499 0\n";

const BOTH_500: &str = "7: 2024-03-10 300 calibration 500; 2024-03-10 600 reading 1 500 0\n\
    7: 2024-04-10 200 precision 500 500 500 500; 2024-04-10 300 calibration 500; 2024-04-10 600 reading 1 500 0\n";

/// The duties of July after the two readings.
const MONTHS: [Row<'static>; 4] = [
    (
        BOTH_499,
        "due 1 2024-07-20",
        "1 quarterly",
        "1 quarterly 2024-07-31 open\n",
    ),
    (BOTH_499, "due 1 2024-07-20", "1 monthly 2024-07", ""),
    (BOTH_500, "due 1 2024-07-20", "1 quarterly", ""),
    (
        BOTH_500,
        "due 1 2024-07-20",
        "1 monthly 2024-07",
        "1 monthly 2024-07-31 open\n",
    ),
];

#[test]
fn a_month_is_clean_below_the_limit(rt: HostRuntime) -> Result<(), Fail> {
    shows(&rt, rt.alloc(), &[CRUDE, PASSES], &MONTHS)
}

/// The duties of a day after two clean readings.
const QUARTERS: [Row<'static>; 6] = [
    (
        "",
        "due 1 2024-05-20",
        "1 monthly 2024-05",
        "1 monthly 2024-05-31 open\n",
    ),
    (
        "",
        "due 1 2024-06-20",
        "1 monthly 2024-06",
        "1 monthly 2024-06-30 open\n",
    ),
    ("", "due 1 2024-07-20", "1 monthly 2024-07", ""),
    (
        "",
        "due 1 2024-07-20",
        "1 quarterly",
        "1 quarterly 2024-07-31 open\n",
    ),
    ("", "due 1 2024-08-20", "1 monthly 2024-08", ""),
    (
        "",
        "due 1 2024-08-20",
        "1 quarterly",
        "1 quarterly 2024-07-31 missed\n",
    ),
];

#[test]
fn a_valve_is_quarterly_from_the_quarter_after_two_clean_months(
    rt: HostRuntime,
) -> Result<(), Fail> {
    shows(&rt, rt.alloc(), &[CRUDE, PASSES, BOTH_20], &QUARTERS)
}

/// A relief device with a release on 2024-02-20, and the beginning of its reading four days later.
const RELEASED: &str = "7: 2024-02-20 500 release 8\n\
    7: 2024-02-24 300 calibration 500; 2024-02-24 600 reading 8 ";

/// The duty after the release, with each reading.
const RELEASES: [Row<'static>; 4] = [
    (
        "599 100",
        "due 1 2024-02-24",
        "release",
        "8 release 2024-02-25 done 2024-02-24\n",
    ),
    (
        "600 100",
        "due 1 2024-02-24",
        "release",
        "8 release 2024-02-25 open\n",
    ),
    (
        "600 100",
        "due 1 2024-02-26",
        "release",
        "8 release 2024-02-25 missed\n",
    ),
    ("599 100", "due 1 2024-02-26", "release", ""),
];

#[test]
fn a_release_is_met_by_no_detectable_emissions(rt: HostRuntime) -> Result<(), Fail> {
    shows(&rt, rt.alloc(), &[CRUDE, PASSES, RELEASED], &RELEASES)
}

/// Pump 5 drips on 2024-02-19, is read on 2024-02-22 and drips again on 2024-02-26.
const DRIPPING: &str = "7: 2024-02-19 600 visual 5 drips\n\
    7: 2024-02-22 300 calibration 500; 2024-02-22 600 reading 5 1999 0\n\
    7: 2024-02-26 600 visual 5 drips\n";

/// The duties after the drips, on a day.
const DRIPS: [Row<'static>; 5] = [
    ("", "due 1 2024-02-18", "drip", ""),
    ("", "due 1 2024-02-19", "drip", "5 drip 2024-02-24 open\n"),
    (
        "",
        "due 1 2024-02-22",
        "drip",
        "5 drip 2024-02-24 done 2024-02-22\n",
    ),
    ("", "due 1 2024-02-26", "drip", ""),
    ("", "due 1 2024-03-05", "drip", ""),
];

#[test]
fn drips_that_come_again_are_no_new_duty(rt: HostRuntime) -> Result<(), Fail> {
    shows(&rt, rt.alloc(), &[CRUDE, PASSES, DRIPPING], &DRIPS)
}

/// A relief device with a release, and two valves.
const FLARE: &str = "0: 2024-01-15 0 unit 3 FLARE; 2024-01-15 0 relief 1 3 gas\
    ; 2024-01-15 0 valve 2 3 gas; 2024-01-15 0 valve 3 3 gas\n\
    7: 2024-02-20 500 release 1";

/// The routes, by the maximum number of stops.
const ROUTES: [Row<'static>; 3] = [
    (
        "",
        "route 3 2024-02-20 2",
        "",
        "route 3 2024-02-20 2\nroute 1: 1 2\nroute 2: 3\nend 2\n",
    ),
    (
        "",
        "route 3 2024-02-20 1",
        "",
        "route 3 2024-02-20 1\nroute 1: 1\nroute 2: 2\nroute 3: 3\nend 3\n",
    ),
    ("", "route 3 2024-02-20 0", "", "no such stops"),
];

#[test]
fn what_is_not_done_is_cut_into_routes(rt: HostRuntime) -> Result<(), Fail> {
    shows(&rt, rt.alloc(), &[FLARE], &ROUTES)
}
