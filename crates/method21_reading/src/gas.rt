//! The least gas of the calibrations of a day so far. It is kept beside each calibration, so a reading finds it without
//! looking at the other calibrations of its day.

ghost use Rattle.std.specs.Prelude.{◌≡◌, ℕ, ◌+◌, ◌-◌, ◌<◌, ◌≤◌, true, false, ◌&&◌, nat_eq, nat_le, IfOk, length, take};
ghost use Rattle.std.specs.List.{AllWithin, list_any};
ghost use Rattle.std.specs.Option.{is_some, option_map_or};
ghost use Rattle.list_words.specs.Order.{Ascends};
ghost use Rattle.fact_kinds.specs.Facts.{goes_first};
ghost use Rattle.ldar_law.specs.Fitness as law;
ghost use Rattle.method21_reading.specs.Gases as gases;
ghost use Rattle.method21_reading.specs.Gases.{AreLeast, IsLeastAt, calibrates_on, calibrates_within_on};

use crate::calibration::is_calibration;
use fact_kinds::{Fact, FactBody, Key, Memory};
use ldar_days::Day;
use std::alloc::Global;

/// Whether a fact is a calibration of the instrument.
fn is_of(instrument: u16, e: &(Key, Fact)) -> bool
    ensures value { result ≡ law.is_calibration instrument e.now.1.body }
{
    is_calibration(instrument, &e.1.body)
}

/// The number of facts, of the first `count`, up to and including the last calibration of an instrument; 0 without a calibration.
fn count_to_last(facts: &[(Key, Fact)], count: usize, instrument: u16) -> usize
    requires within { count ≤ length facts.now }
    ensures bound { result ≤ count }
    ensures last { AllWithin (λ e. law.is_calibration instrument e.1.body ≡ true) facts.now (result - 1) result }
    ensures none { AllWithin (λ e. law.is_calibration instrument e.1.body ≡ false) facts.now result count }
{
    let mut place = count;
    while place > 0 && !is_of(instrument, &facts[place - 1]) {
        place -= 1;
    }
    place
}

/// The least gas of the calibrations of an instrument on a day, among the first `count` facts, which are of that day or
/// earlier; `None` if there are none.
pub fn least_before(
    facts: &[(Key, Fact)],
    least: &[u32],
    count: usize,
    day: Day,
    instrument: u16,
) -> Option<u32>
    requires ordered { Ascends goes_first facts.now }
    requires within { count ≤ length least.now }
    requires sound { AreLeast facts.now least.now }
    requires up_to { AllWithin (λ e. nat_le e.0.day day ≡ true) facts.now 0 count }
    ensures any { is_some result ≡ list_any (calibrates_on instrument day) (take count facts.now) }
    ensures least { (most : ℕ) → option_map_or (λ gas. nat_le gas most) result false ≡ list_any (calibrates_within_on instrument most day) (take count facts.now) }
{
    let place = count_to_last(facts, count, instrument);
    if place == 0 {
        return None;
    }
    if facts[place - 1].0.day != day {
        return None;
    }
    Some(least[place - 1])
}

/// The instrument and the gas of a calibration.
fn calibration_in(body: &FactBody) -> Option<(u16, u32)>
    ensures value { result ≡ gases.calibration_in body.now }
{
    match *body {
        FactBody::Calibration { instrument, gas } => Some((instrument, gas)),
        _ => None,
    }
}

/// The smaller of an optional gas and another one.
fn smaller(other: Option<u32>, gas: u32) -> u32
    ensures value { result ≡ gases.smaller other gas }
{
    match other {
        Some(other) => other.min(gas),
        None => gas,
    }
}

/// The least gas of the calibrations of the instrument and the day of the fact at a place, up to that fact.
fn least_at(facts: &[(Key, Fact)], least: &[u32], at: usize) -> u32
    requires ordered { Ascends goes_first facts.now }
    requires within { at < length facts.now }
    requires before { length least.now ≡ at }
    requires sound { AreLeast facts.now least.now }
    ensures value { IsLeastAt facts.now at result }
{
    let e = &facts[at];
    match calibration_in(&e.1.body) {
        Some((instrument, gas)) => {
            let other = least_before(facts, least, at, e.0.day, instrument);
            smaller(other, gas)
        }
        None => 0,
    }
}

/// For each calibration, the least gas of its instrument and day so far. Returns an error if it is out of memory.
pub fn least_gases(alloc: Global, facts: &[(Key, Fact)]) -> Result<Vec<u32>, Memory>
    requires ordered { Ascends goes_first facts.now }
    ensures value { IfOk result (λ least. AreLeast facts.now least.items) }
    ensures all { IfOk result (λ least. length least.items ≡ length facts.now) }
{
    let mut least = Vec::with_capacity(alloc, facts.len())?;
    for at in 0..facts.len() {
        let gas = least_at(facts, &least, at);
        least.push(gas)?;
    }
    Ok(least)
}
