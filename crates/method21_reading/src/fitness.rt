ghost use Rattle.std.specs.Prelude.{◌≡◌};
ghost use Rattle.list_words.specs.Order.{Ascends};
ghost use Rattle.fact_kinds.specs.Facts.{goes_first};
ghost use Rattle.ldar_law.specs.Fitness.{fitness_of};
ghost use Rattle.method21_reading.specs.Instruments.{fitness_apart, refusal_apart, without_gas_within};
ghost use Rattle.method21_reading.specs.Readings.{fitness_by, IsFitnessAmongAll};

use crate::calibration::{is_calibrated, is_calibrated_within};
use crate::day::facts_on;
use crate::drift::voiding_drift;
use crate::near::Spread;
use crate::precision::is_tested;
use fact_kinds::{Fact, FactBody, Key};
use ldar_law::{Fitness, GAS_MARGIN};

/// Whether a reading with this key may be used, judged by a leak definition in parts per million by volume; if not, the
/// first reason (40 CFR 60.485a(b); EPA Method 21, sections 8.1.2 and 10.1). The facts must be in key order, which
/// `are_in_key_order` of `ldar_law` tests. Facts of other instruments have no effect. For a fact that is no reading it returns
/// `NoCalibration`. The facts of the reading's day are found by binary search. For many readings of one instrument use
/// `Instrument`.
pub fn fit(reading: &Fact, key: &Key, limit: u32, instrument: &[(Key, Fact)]) -> Fitness
    requires ordered { Ascends goes_first instrument.now }
    ensures value { result ≡ fitness_by limit instrument.now key.now reading.now.body }
    ensures of_all { IsFitnessAmongAll limit instrument.now key.now reading.now.body result }
{
    match reading.body {
        FactBody::Reading {
            instrument: number,
            ppm,
            ..
        } => judged(instrument, limit, key, number, ppm),
        _ => Fitness::NoCalibration,
    }
}

/// Whether a reading of `ppm` parts per million with this instrument may be used.
fn judged(facts: &[(Key, Fact)], limit: u32, key: &Key, instrument: u16, ppm: u32) -> Fitness
    requires ordered { Ascends goes_first facts.now }
    ensures value { result ≡ fitness_of facts.now limit key.now instrument ppm }
{
    let today = facts_on(facts, Spread::of(facts), key.day);
    judged_apart(today, facts, today, limit, key, instrument, ppm)
}

/// Why a reading may not be used if no earlier calibration of its day has a gas within the bound.
fn why_not_within(calibrations: &[(Key, Fact)], key: &Key, instrument: u16) -> Fitness
    ensures value { result ≡ without_gas_within calibrations.now key.now instrument }
{
    if is_calibrated(calibrations, key, instrument) {
        Fitness::GasTooHigh
    } else {
        Fitness::NoCalibration
    }
}

/// The reason against a reading by its instrument's calibrations and passed precision tests, if there is one. Most readings
/// have a calibration with a gas within the bound, so other calibrations are looked for only if that fails.
pub fn refused(
    calibrations: &[(Key, Fact)],
    tests: &[(Key, Fact)],
    spread: Spread,
    limit: u32,
    key: &Key,
    instrument: u16,
) -> Option<Fitness>
    requires ordered { Ascends goes_first tests.now }
    ensures value { result ≡ refusal_apart calibrations.now tests.now limit key.now instrument }
{
    let most = u64::from(limit) + u64::from(GAS_MARGIN);
    if !is_calibrated_within(calibrations, key, instrument, most) {
        return Some(why_not_within(calibrations, key, instrument));
    }
    if !is_tested(tests, spread, key, instrument) {
        return Some(Fitness::NoPrecision);
    }
    None
}

/// The result of `judged`, from separate lists of calibrations, precision tests and drift assessments.
fn judged_apart(
    calibrations: &[(Key, Fact)],
    tests: &[(Key, Fact)],
    drifts: &[(Key, Fact)],
    limit: u32,
    key: &Key,
    instrument: u16,
    ppm: u32,
) -> Fitness
    requires ordered { Ascends goes_first tests.now }
    ensures value { result ≡ fitness_apart calibrations.now tests.now drifts.now limit key.now instrument ppm }
{
    if let Some(why) = refused(
        calibrations,
        tests,
        Spread::of(tests),
        limit,
        key,
        instrument,
    ) {
        return why;
    }
    match voiding_drift(calibrations, drifts, key, instrument, limit, ppm) {
        Some(drift) => Fitness::Voided { drift },
        None => Fitness::Fit,
    }
}
