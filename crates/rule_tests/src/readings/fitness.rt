//! Whether a reading is fit, by the calibrations, precision tests and drift assessments of its instrument.

use crate::readings::facts::{at, calibration, drift, precision, reading};
use crate::words::key;
use fact_kinds::{Fact, FactBody, Key};
use ldar_days::Day;
use ldar_law::{Fitness, are_in_key_order};
use method21_reading::{Instrument, fit};
use std::alloc::Global;
use std::test::Fail;
use test_kit::day;

/// The fitness of a reading at a minute of a day, by a leak definition of 500 and facts in key order. The prepared
/// instrument must return the same.
fn judged(
    alloc: Global,
    day: Day,
    minute: u16,
    ppm: u16,
    facts: &[(Key, Fact)],
) -> Result<Fitness, Fail> {
    let mut told: Option<Fitness> = None;
    if are_in_key_order(facts) {
        let (reading, key) = (reading(day, ppm).1, key(day, minute));
        let alone = fit(&reading, &key, 500, facts);
        let instrument = Instrument::new(alloc, facts)?;
        if instrument.fit(&reading, &key, 500) == alone {
            told = Some(alone);
        }
    }
    Ok(told.ok_or("out of order, or told otherwise")?)
}

#[test]
fn a_gas_is_2_000_above_the_leak_definition_at_most(rt: HostRuntime) -> Result<(), Fail> {
    let read = day("2024-02-20")?;
    let before = day("2024-02-19")?;
    let tested = precision(day("2024-01-02")?, (500, 500, 500));
    let cases = [
        (read, 540, 2_500, Fitness::Fit),
        (read, 599, 1, Fitness::Fit),
        (read, 540, 2_501, Fitness::GasTooHigh),
        // A calibration with the key of the reading is not earlier.
        (read, 600, 2_500, Fitness::NoCalibration),
        (read, 601, 2_500, Fitness::NoCalibration),
        (before, 540, 2_500, Fitness::NoCalibration),
    ];
    for (calibrated, minute, gas, fitness) in cases {
        let facts = [tested, calibration(calibrated, minute, gas)];
        assert_eq!(rt;
            judged(rt.alloc(), read, 600, 20, &facts)?,
            fitness,
            "{gas} at {minute}"
        );
    }
    Ok(())
}

#[test]
fn a_precision_test_holds_for_three_months(rt: HostRuntime) -> Result<(), Fail> {
    let exact = (500, 500, 500);
    let cases = [
        ("2023-11-30", exact, "2024-02-29", Fitness::Fit),
        ("2023-11-30", exact, "2024-03-01", Fitness::NoPrecision),
        ("2024-01-02", exact, "2024-04-02", Fitness::Fit),
        ("2024-01-02", exact, "2024-04-03", Fitness::NoPrecision),
        ("2024-02-21", exact, "2024-02-20", Fitness::NoPrecision),
        ("2024-01-02", (450, 450, 450), "2024-02-20", Fitness::Fit),
        (
            "2024-01-02",
            (449, 450, 450),
            "2024-02-20",
            Fitness::NoPrecision,
        ),
        ("2024-01-02", (550, 550, 550), "2024-02-20", Fitness::Fit),
        (
            "2024-01-02",
            (550, 550, 551),
            "2024-02-20",
            Fitness::NoPrecision,
        ),
    ];
    for (tested, readings, read, fitness) in cases {
        let read = day(read)?;
        let test = precision(day(tested)?, readings);
        let calibrated = calibration(read, 300, 500);
        let facts = if test.0 < calibrated.0 {
            [test, calibrated]
        } else {
            [calibrated, test]
        };
        assert_eq!(rt;
            judged(rt.alloc(), read, 600, 20, &facts)?,
            fitness,
            "tested on {tested}"
        );
    }
    Ok(())
}

#[test]
fn the_last_passed_precision_test_of_the_instrument_decides(rt: HostRuntime) -> Result<(), Fail> {
    let read = day("2024-06-20")?;
    let (exact, off) = ((500, 500, 500), (700, 500, 500));
    let (early, late) = (day("2024-01-02")?, day("2024-05-02")?);
    let other = FactBody::Precision {
        instrument: 2,
        value: 500,
        readings: (500, 500, 500),
    };
    let calibrated = calibration(read, 300, 500);
    let cases = [
        // The first test is too old; the second failed or is another instrument's.
        (
            precision(early, exact),
            precision(late, exact),
            Fitness::Fit,
        ),
        (
            precision(early, exact),
            precision(late, off),
            Fitness::NoPrecision,
        ),
        (
            precision(early, exact),
            at(late, 0, other),
            Fitness::NoPrecision,
        ),
        (
            precision(late, exact),
            at(day("2024-05-03")?, 0, other),
            Fitness::Fit,
        ),
        (
            precision(late, exact),
            precision(day("2024-05-03")?, off),
            Fitness::Fit,
        ),
    ];
    for (first, second, fitness) in cases {
        let facts = [first, second, calibrated];
        assert_eq!(rt; judged(rt.alloc(), read, 600, 20, &facts)?, fitness);
    }
    Ok(())
}

#[test]
fn a_drift_voids_the_readings_that_could_be_leaks(rt: HostRuntime) -> Result<(), Fail> {
    let read = day("2024-02-20")?;
    let tested = precision(day("2024-01-02")?, (500, 500, 500));
    let voided = Fitness::Voided {
        drift: key(read, 900),
    };
    let cases = [
        ((440, 440, 440), 440, Fitness::Fit),
        ((440, 440, 440), 441, voided),
        ((440, 440, 440), 499, voided),
        ((440, 440, 440), 500, Fitness::Fit),
        ((450, 450, 450), 499, Fitness::Fit),
        ((449, 450, 450), 449, Fitness::Fit),
        ((449, 450, 450), 450, voided),
        ((560, 560, 560), 499, Fitness::Fit),
    ];
    for (readings, ppm, fitness) in cases {
        let facts = [
            tested,
            calibration(read, 300, 500),
            drift(read, 900, readings),
        ];
        assert_eq!(rt;
            judged(rt.alloc(), read, 600, ppm, &facts)?,
            fitness,
            "{ppm}"
        );
        // A drift before the reading, or on the next day, voids nothing.
        let early = [
            tested,
            calibration(read, 300, 500),
            drift(read, 599, readings),
        ];
        assert_eq!(rt;
            judged(rt.alloc(), read, 600, ppm, &early)?,
            Fitness::Fit,
            "{ppm}"
        );
        let next = drift(day("2024-02-21")?, 900, readings);
        let late = [tested, calibration(read, 300, 500), next];
        assert_eq!(rt;
            judged(rt.alloc(), read, 600, ppm, &late)?,
            Fitness::Fit,
            "{ppm}"
        );
    }
    Ok(())
}

#[test]
fn a_new_calibration_parts_the_drifts_of_a_day(rt: HostRuntime) -> Result<(), Fail> {
    let read = day("2024-02-20")?;
    let facts = [
        precision(day("2024-01-02")?, (500, 500, 500)),
        calibration(read, 300, 500),
        drift(read, 650, (440, 440, 440)),
        calibration(read, 700, 500),
        drift(read, 800, (400, 400, 400)),
        drift(read, 900, (430, 430, 430)),
    ];
    let first = Fitness::Voided {
        drift: key(read, 650),
    };
    let second = Fitness::Voided {
        drift: key(read, 800),
    };
    let cases = [
        // The second drift is down to 400, but it does not matter for readings before the new calibration.
        (600, 420, Fitness::Fit),
        (600, 460, first),
        (660, 460, Fitness::Fit),
        (750, 420, second),
        (750, 460, second),
        (750, 400, Fitness::Fit),
    ];
    for (minute, ppm, fitness) in cases {
        assert_eq!(rt;
            judged(rt.alloc(), read, minute, ppm, &facts)?,
            fitness,
            "{ppm} at {minute}"
        );
    }
    Ok(())
}
