//! An instrument with many calibrations, and its readings.

ghost use Rattle.std.specs.Prelude.{◌≤◌};
ghost use Rattle.list_words.specs.Order.{Ascends};
ghost use Rattle.fact_kinds.specs.Facts.{goes_first};

use crate::day_at::{SIXTEEN_YEARS, day_at};
use crate::equipment::key_of;
use crate::said;
use fact_kinds::{Fact, FactBody, Key, Memory, Purpose};
use ldar_days::Day;
use ldar_law::are_in_key_order;
use method21_reading::Instrument;
use std::alloc::{AllocError, Global};

/// The leak definition by which the readings are judged.
const LIMIT: u32 = 500;

/// The minute of a place in a history of this length. With one fact a day it is the first minute of the day.
fn minute_at(place: u32, places: u32) -> u16
    ensures in_range { result ≤ 1_399 }
{
    let places = u64::from(places.max(1));
    let over = u64::from(place) * u64::from(SIXTEEN_YEARS) % places;
    (over.wrapping_mul(1_400) / places % 1_400) as u16
}

/// A precision test that passes.
fn precision_test(day: Day, minute: u16) -> Fact
    requires { minute ≤ 1_439 }
{
    Fact {
        day,
        minute,
        body: FactBody::Precision {
            instrument: 1,
            value: 500,
            readings: (500, 500, 500),
        },
    }
}

/// A calibration. The gas of every eleventh one is too high for the readings.
fn calibration(place: u32, day: Day, minute: u16) -> Fact
    requires { minute ≤ 1_439 }
{
    let gas = if place % 11 == 10 { 3_000 } else { 500 };
    Fact {
        day,
        minute,
        body: FactBody::Calibration { instrument: 1, gas },
    }
}

/// A drift assessment. Every second one fails.
fn drift(place: u32, day: Day, minute: u16) -> Fact
    requires { minute ≤ 1_439 }
{
    let read = if place % 2 == 0 { 400 } else { 500 };
    Fact {
        day,
        minute,
        body: FactBody::Drift {
            instrument: 1,
            value: 500,
            readings: (read, read, read),
        },
    }
}

/// The facts of an instrument with this many calibrations.
fn facts_of(alloc: Global, places: u32) -> Result<Vec<(Key, Fact)>, AllocError> {
    let mut facts = Vec::new(alloc);
    for place in 0..places {
        let day = day_at(place, places, SIXTEEN_YEARS);
        let minute = minute_at(place, places);
        if place % 60 == 0 {
            facts.push((key_of(day, minute, 0), precision_test(day, minute)))?;
        }
        facts.push((key_of(day, minute, 1), calibration(place, day, minute)))?;
        if place % 7 == 3 {
            let later = minute + 20;
            facts.push((key_of(day, later, 2), drift(place, day, later)))?;
        }
    }
    Ok(facts)
}

/// A reading.
fn reading(place: u32, day: Day, minute: u16) -> Fact
    requires { minute ≤ 1_439 }
{
    Fact {
        day,
        minute,
        body: FactBody::Reading {
            component: 1,
            instrument: 1,
            operator: 1,
            purpose: Purpose::Routine,
            ppm: place % 700,
            background: 2,
        },
    }
}

/// This many readings, one after each calibration.
fn readings_of(alloc: Global, places: u32) -> Result<Vec<(Key, Fact)>, AllocError> {
    let mut readings = Vec::new(alloc);
    for place in 0..places {
        let day = day_at(place, places, SIXTEEN_YEARS);
        let minute = minute_at(place, places) + 10;
        readings.push((key_of(day, minute, place), reading(place, day, minute)))?;
    }
    Ok(readings)
}

/// The facts of an instrument whose calibrations are all at one minute and use a gas that is too high.
fn facts_of_a_day(alloc: Global, places: u32) -> Result<Vec<(Key, Fact)>, AllocError> {
    let day = day_at(0, 1, 0);
    let mut facts = Vec::new(alloc);
    for place in 0..places {
        facts.push((key_of(day, 300, place), calibration(10, day, 300)))?;
    }
    Ok(facts)
}

/// This many readings at one minute of that day.
fn readings_of_a_day(alloc: Global, places: u32) -> Result<Vec<(Key, Fact)>, AllocError> {
    let day = day_at(0, 1, 0);
    let mut readings = Vec::new(alloc);
    for place in 0..places {
        readings.push((key_of(day, 600, place), reading(place, day, 600)))?;
    }
    Ok(readings)
}

/// Adds the fitness of each reading to a sum.
fn add_readings(instrument: &Instrument, readings: &[(Key, Fact)], sum: u64) -> u64 {
    let mut sum = sum;
    for reading in readings {
        sum = said::add(
            sum,
            said::of_fitness(&instrument.fit(&reading.1, &reading.0, LIMIT)),
        );
    }
    sum
}

/// A sum over the fitness of each reading, computed `passes` times by an instrument that is made once.
fn sum_once_made(
    alloc: Global,
    facts: &[(Key, Fact)],
    readings: &[(Key, Fact)],
    passes: u32,
) -> Result<u64, Memory>
    requires ordered { Ascends goes_first facts.now }
{
    let instrument = Instrument::new(alloc, facts)?;
    let mut sum = 0;
    for _ in 0..passes {
        sum = add_readings(&instrument, readings, sum);
    }
    Ok(sum)
}

/// A sum over the fitness of a reading, computed once by each of many instruments.
fn sum_made_anew(
    alloc: Global,
    facts: &[(Key, Fact)],
    readings: &[(Key, Fact)],
    passes: u32,
) -> Result<u64, Memory>
    requires ordered { Ascends goes_first facts.now }
{
    let mut sum = 0;
    for _ in 0..passes {
        let instrument = Instrument::new(alloc, facts)?;
        sum = add_readings(&instrument, readings, sum);
    }
    Ok(sum)
}

/// A sum over the readings, as many as there are calibrations, computed `passes` times.
pub fn sum_over_readings(alloc: Global, places: u32, passes: u32) -> Result<u64, Memory> {
    let facts = facts_of(alloc, places)?;
    let readings = readings_of(alloc, places)?;
    if !are_in_key_order(facts.as_slice()) {
        return Ok(0);
    }
    sum_once_made(alloc, facts.as_slice(), readings.as_slice(), passes)
}

/// The same sum for readings and calibrations of one day.
pub fn sum_over_readings_of_a_day(alloc: Global, places: u32, passes: u32) -> Result<u64, Memory> {
    let facts = facts_of_a_day(alloc, places)?;
    let readings = readings_of_a_day(alloc, places)?;
    if !are_in_key_order(facts.as_slice()) {
        return Ok(0);
    }
    sum_once_made(alloc, facts.as_slice(), readings.as_slice(), passes)
}

/// A sum over the first reading, for which an instrument is made in each pass.
pub fn sum_over_makings(alloc: Global, places: u32, passes: u32) -> Result<u64, Memory> {
    let facts = facts_of(alloc, places)?;
    let readings = readings_of(alloc, places.min(1))?;
    if !are_in_key_order(facts.as_slice()) {
        return Ok(0);
    }
    sum_made_anew(alloc, facts.as_slice(), readings.as_slice(), passes)
}
