ghost use Rattle.std.specs.Prelude.{◌≡◌, ◌≤◌, ◌*◌, not, ◌&&◌, nat_lt, nat_eq, find, option_map};
ghost use Rattle.fact_kinds.specs.Facts.{is_earlier};
ghost use Rattle.ldar_law.specs.Fitness as law;
ghost use Rattle.method21_reading.specs.Readings.{is_before, is_voided_until};

use crate::calibration::next_calibration;
use crate::precision::sum_of;
use fact_kinds::{Fact, FactBody, Key, precedes};

/// Whether the mean of three readings is more than 10 percent below the known value (40 CFR 60.485a(b)(2)).
pub fn has_drifted(value: u32, readings: (u32, u32, u32)) -> bool
    ensures value { result ≡ law.has_drifted value (law.sum_of readings) }
{
    let known = 3 * u64::from(value);
    known < known.saturating_sub(sum_of(readings)) * 10
}

/// The product of a number and one of at most 3,000,000.
fn times(number: u32, other: u64) -> u64
    requires { other ≤ 3_000_000 }
    ensures value { result ≡ number * other }
{
    u64::from(number) * other
}

/// Whether the reading is above the leak definition less the drift (40 CFR 60.485a(b)(2)).
pub fn is_above_drifted(limit: u32, ppm: u32, value: u32, readings: (u32, u32, u32)) -> bool
    requires known { value ≤ 999_999 }
    requires read { (readings.0 ≤ 999_999) × (readings.1 ≤ 999_999) × (readings.2 ≤ 999_999) }
    ensures value { result ≡ law.is_above_drifted limit ppm value (law.sum_of readings) }
{
    times(limit, sum_of(readings)) < times(ppm, 3 * u64::from(value))
}

/// Whether a fact is a drift assessment of the instrument by which such a reading may be a leak.
pub fn is_drift_past(instrument: u16, limit: u32, ppm: u32, fact: &Fact) -> bool
    ensures value { result ≡ law.is_drift_past instrument limit ppm fact.now.body }
{
    match fact.body {
        FactBody::Drift {
            instrument: of,
            value,
            readings,
        } => {
            of == instrument
                && has_drifted(value, readings)
                && is_above_drifted(limit, ppm, value, readings)
        }
        _ => false,
    }
}

/// Whether the key exists and is earlier than another one.
pub fn is_before_key(key: &Option<Key>, later: &Key) -> bool
    ensures value { result ≡ is_before key.now later.now }
{
    match key {
        Some(key) => precedes(key, later),
        None => false,
    }
}

/// The first drift assessment of the day that voids a reading below the leak definition, if `next` is the next calibration after
/// the reading.
fn first_voiding(
    facts: &[(Key, Fact)],
    next: &Option<Key>,
    key: &Key,
    instrument: u16,
    limit: u32,
    ppm: u32,
) -> Option<Key>
    ensures value { result ≡ option_map (λ e. e.0) (find (is_voided_until next.now key.now instrument limit ppm) facts.now) }
{
    facts
        .iter()
        .find(|e| {
            ppm < limit
                && is_drift_past(instrument, limit, ppm, &e.1)
                && e.0.day == key.day
                && precedes(key, &e.0)
                && !is_before_key(next, &e.0)
        })
        .map(|e| e.0)
}

/// The first drift assessment of the day that voids an earlier reading below the leak definition, with no calibration between
/// the two (40 CFR 60.485a(b)(2)).
pub fn voiding_drift(
    calibrations: &[(Key, Fact)],
    drifts: &[(Key, Fact)],
    key: &Key,
    instrument: u16,
    limit: u32,
    ppm: u32,
) -> Option<Key>
    ensures value { result ≡ option_map (λ e. e.0) (find (law.is_voided_by calibrations.now key.now instrument limit ppm) drifts.now) }
{
    let next = next_calibration(calibrations, key, instrument);
    first_voiding(drifts, &next, key, instrument, limit, ppm)
}
