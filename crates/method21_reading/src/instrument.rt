//! An instrument that is prepared once, for its many readings.

ghost use Rattle.std.specs.Prelude.{◌≡◌, ℕ, ◌≤◌, true, false, nat_le, List, find, IfOk, IfSome, IsNone, length};
ghost use Rattle.std.specs.List.{AllWithin};
ghost use Rattle.std.specs.List.Sorted.{IsPartitionPoint};
ghost use Rattle.std.specs.Option.{is_some, option_map_or};
ghost use Rattle.list_words.specs.Order.{Ascends};
ghost use Rattle.fact_kinds.specs.Facts.{goes_first, is_earlier, Entry};
ghost use Rattle.ldar_law.specs.Fitness.{fitness_of, is_calibrated, is_calibrated_within, is_tested as is_tested_by, is_voided_by, unless_voided as unless_voided_by};
ghost use Rattle.method21_reading.specs.Gases.{AreLeast};
ghost use Rattle.method21_reading.specs.Instruments.{AreThoseOf, refusal_apart};
ghost use Rattle.method21_reading.specs.Leaps.{LeapsFrom};
ghost use Rattle.method21_reading.specs.Readings.{fitness_by, IsFitnessAmongAll, is_past_after, IsFirstPast};

use crate::calibration::calibration_after;
use crate::drift::is_before_key;
use crate::gas::{least_before, least_gases};
use crate::leaps::{Leap, first_past, leaps_of};
use crate::near::{Spread, count_earlier, count_up_to};
use crate::part::keep_apart;
use crate::precision::is_tested;
use fact_kinds::{Fact, FactBody, Key, Memory};
use ldar_law::{Fitness, GAS_MARGIN};
use std::alloc::Global;
use std::marker::Model;

/// The facts of an instrument that decide on its readings: the calibrations, the precision tests that passed and the drift
/// assessments that failed, each list in key order. If all are of one instrument, the time to judge a reading grows as the
/// logarithm of their number, however many of them are of the reading's day.
#[derive(Drop)]
pub struct Instrument {
    calibrations: Vec<(Key, Fact)>,
    /// How the days of the calibrations are spread.
    calibrated: Spread,
    /// For each calibration, the least gas of its day so far.
    least: Vec<u32>,
    tests: Vec<(Key, Fact)>,
    /// How the days of the tests are spread.
    tested: Spread,
    drifts: Vec<(Key, Fact)>,
    /// Where a search continues from each drift assessment.
    leaps: Vec<Leap>,
}

impl Model for Instrument {
    ghost use Rattle.std.specs.Prelude.{◌≡◌, length};
    ghost use Rattle.list_words.specs.Order.{Ascends};
    ghost use Rattle.fact_kinds.specs.Facts.{goes_first};
    ghost use Rattle.method21_reading.specs.Instruments.{Apart};
    ghost use Rattle.method21_reading.specs.Gases.{AreLeast};
    ghost use Rattle.method21_reading.specs.Leaps.{LeapsFrom};

    ghost Value = { Apart };

    ghost view = { λ i. record { calibrations = i.calibrations.items; tests = i.tests.items; drifts = i.drifts.items } };

    ghost invariant = { λ i. Ascends goes_first i.calibrations.items × Ascends goes_first i.tests.items × Ascends goes_first i.drifts.items
        × AreLeast i.calibrations.items i.least.items × (length i.least.items ≡ length i.calibrations.items)
        × LeapsFrom i.drifts.items i.leaps.items 0 };
}

impl Instrument {
    /// The instrument with these facts, which must be in key order (`are_in_key_order` of `ldar_law` tests it). Facts of other
    /// instruments have no effect. The only error is out of memory.
    pub fn new(alloc: Global, facts: &[(Key, Fact)]) -> Result<Instrument, Memory>
        requires ordered { Ascends goes_first facts.now }
        ensures value { IfOk result (AreThoseOf facts.now) }
    {
        // Most of them are calibrations.
        let mut calibrations = Vec::with_capacity(alloc, facts.len())?;
        let mut tests = Vec::new(alloc);
        let mut drifts = Vec::new(alloc);
        for e in facts {
            keep_apart(&mut calibrations, &mut tests, &mut drifts, e)?;
        }
        let (calibrated, tested) = (Spread::of(&calibrations), Spread::of(&tests));
        let least = least_gases(alloc, &calibrations)?;
        let leaps = leaps_of(alloc, &drifts)?;
        Ok(Instrument {
            calibrations,
            calibrated,
            least,
            tests,
            tested,
            drifts,
            leaps,
        })
    }

    /// The calibrations.
    fn calibrations(&self) -> &[(Key, Fact)]
        ensures value { result.now ≡ self.now.calibrations }
        ensures ordered { Ascends goes_first result.now }
    {
        self.calibrations.as_slice()
    }

    /// For each calibration, the least gas of its day so far.
    fn least(&self) -> &[u32]
        ensures sound { AreLeast self.now.calibrations result.now }
        ensures all { length result.now ≡ length self.now.calibrations }
    {
        self.least.as_slice()
    }

    /// The failed drift assessments.
    fn drifts(&self) -> &[(Key, Fact)]
        ensures value { result.now ≡ self.now.drifts }
        ensures ordered { Ascends goes_first result.now }
    {
        self.drifts.as_slice()
    }

    /// Where a search continues from each failed drift assessment.
    fn leaps(&self) -> &[Leap]
        ensures sound { LeapsFrom self.now.drifts result.now 0 }
    {
        self.leaps.as_slice()
    }

    /// The number of calibrations that are earlier than a reading.
    fn calibrations_before(&self, key: &Key) -> usize
        ensures bound { result ≤ length self.now.calibrations }
        ensures partitioned { IsPartitionPoint (λ e. is_earlier e.0 key.now ≡ true) (λ e. is_earlier e.0 key.now ≡ false) self.now.calibrations result }
    {
        count_earlier(self.calibrations(), self.calibrated, key)
    }

    /// Whether some passed precision test is earlier than the reading with this key, and at most three months old.
    fn is_tested(&self, key: &Key, instrument: u16) -> bool
        ensures value { result ≡ is_tested_by self.now.tests key.now instrument }
    {
        is_tested(self.tests.as_slice(), self.tested, key, instrument)
    }

    /// The least gas of the instrument's calibrations that are earlier on the day of the reading. The first `count` calibrations
    /// are earlier than the reading.
    fn least_gas(&self, count: usize, key: &Key, instrument: u16) -> Option<u32>
        requires count { IsPartitionPoint (λ e. is_earlier e.0 key.now ≡ true) (λ e. is_earlier e.0 key.now ≡ false) self.now.calibrations count }
        requires bound { count ≤ length self.now.calibrations }
        ensures any { is_some result ≡ is_calibrated self.now.calibrations key.now instrument }
        ensures least { (most : ℕ) → option_map_or (λ gas. nat_le gas most) result false ≡ is_calibrated_within self.now.calibrations key.now instrument most }
    {
        least_before(
            self.calibrations(),
            self.least(),
            count,
            key.day,
            instrument,
        )
    }

    /// The reason against a reading by the calibrations and precision tests, if there is one. The first `count` calibrations are
    /// earlier than the reading.
    fn refusal(&self, count: usize, limit: u32, key: &Key, instrument: u16) -> Option<Fitness>
        requires count { IsPartitionPoint (λ e. is_earlier e.0 key.now ≡ true) (λ e. is_earlier e.0 key.now ≡ false) self.now.calibrations count }
        requires bound { count ≤ length self.now.calibrations }
        ensures value { result ≡ refusal_apart self.now.calibrations self.now.tests limit key.now instrument }
    {
        let most = u64::from(limit) + u64::from(GAS_MARGIN);
        match self.least_gas(count, key, instrument) {
            None => Some(Fitness::NoCalibration),
            Some(gas) => {
                if most < u64::from(gas) {
                    return Some(Fitness::GasTooHigh);
                }
                if !self.is_tested(key, instrument) {
                    return Some(Fitness::NoPrecision);
                }
                None
            }
        }
    }

    /// The first failed drift assessment after a reading with this key by which the reading may be a leak.
    fn drift_past(&self, limit: u32, key: &Key, instrument: u16, ppm: u32) -> Option<Key>
        ensures none { IsNone result → AllWithin (λ e. is_past_after key.now instrument limit ppm e ≡ false) self.now.drifts 0 (length self.now.drifts) }
        ensures first { IfSome result (IsFirstPast self.now.drifts key.now instrument limit ppm) }
        ensures ordered { Ascends goes_first self.now.drifts }
    {
        let drifts = self.drifts();
        let from = count_up_to(drifts, key);
        let place = first_past(drifts, self.leaps(), from, instrument, limit, ppm);
        if place < drifts.len() {
            return Some(drifts[place].0);
        }
        None
    }

    /// `Voided` if a drift assessment voids the reading, and otherwise `Fit`, for a reading that the calibrations and precision
    /// tests allow. The first `count` calibrations are earlier than the reading.
    fn unless_voided(
        &self,
        count: usize,
        limit: u32,
        key: &Key,
        instrument: u16,
        ppm: u32,
    ) -> Fitness
        requires count { IsPartitionPoint (λ e. is_earlier e.0 key.now ≡ true) (λ e. is_earlier e.0 key.now ≡ false) self.now.calibrations count }
        requires bound { count ≤ length self.now.calibrations }
        ensures value { result ≡ unless_voided_by (find (is_voided_by self.now.calibrations key.now instrument limit ppm) self.now.drifts) }
    {
        // A drift voids only readings below the leak definition.
        if limit <= ppm {
            return Fitness::Fit;
        }
        match self.drift_past(limit, key, instrument, ppm) {
            Some(drift) => {
                if drift.day != key.day {
                    return Fitness::Fit;
                }
                let next = calibration_after(self.calibrations(), count, key, instrument);
                if is_before_key(&next, &drift) {
                    return Fitness::Fit;
                }
                Fitness::Voided { drift }
            }
            None => Fitness::Fit,
        }
    }

    /// Whether a reading of `ppm` parts per million with an instrument may be used.
    fn judged(&self, limit: u32, key: &Key, instrument: u16, ppm: u32) -> Fitness
        ensures value { (facts : List Entry) → AreThoseOf facts self.now → result ≡ fitness_of facts limit key.now instrument ppm }
    {
        let count = self.calibrations_before(key);
        match self.refusal(count, limit, key, instrument) {
            Some(why) => why,
            None => self.unless_voided(count, limit, key, instrument, ppm),
        }
    }

    /// Whether a reading with this key may be used.
    fn told(&self, reading: &Fact, key: &Key, limit: u32) -> Fitness
        ensures value { (facts : List Entry) → AreThoseOf facts self.now → result ≡ fitness_by limit facts key.now reading.now.body }
    {
        match reading.body {
            FactBody::Reading {
                instrument,
                ppm,
                ..
            } => self.judged(limit, key, instrument, ppm),
            _ => Fitness::NoCalibration,
        }
    }

    /// Whether a reading with this key may be used, judged by a leak definition in parts per million by volume; if not, the
    /// first reason (40 CFR 60.485a(b); EPA Method 21, sections 8.1.2 and 10.1). It is the result of the function `fit` for the
    /// facts from which the instrument was made. For a fact that is no reading it returns `NoCalibration`.
    pub fn fit(&self, reading: &Fact, key: &Key, limit: u32) -> Fitness
        ensures value { (facts : List Entry) → AreThoseOf facts self.now → result ≡ fitness_by limit facts key.now reading.now.body }
        ensures of_all { (facts : List Entry) → AreThoseOf facts self.now → IsFitnessAmongAll limit facts key.now reading.now.body result }
    {
        self.told(reading, key, limit)
    }
}
