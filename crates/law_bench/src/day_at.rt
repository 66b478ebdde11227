//! The days of the bench's facts, spread evenly over some years.

ghost use Rattle.std.specs.Prelude.{◌≤◌};
ghost use Rattle.ldar_law.specs.declared.numbers.TheConstants.{LAST_FACT_DAY};

use ldar_days::Day;

/// Sixteen years.
pub const SIXTEEN_YEARS: u32 = 5_840;

/// 2020-01-01, the first day in service of the components.
const FIRST: u32 = 18_262;

/// The day this many days after the beginning of the components.
pub fn day_after(days: u32) -> Day {
    Day::at(FIRST + days % 16_000)
}

/// The day of a place in a history of this length, spread evenly over some days.
pub fn day_at(place: u32, places: u32, days: u32) -> Day {
    let before = u64::from(place).wrapping_mul(u64::from(days)) / u64::from(places.max(1));
    day_after((before % 16_000) as u32)
}

/// 2019-04-14, the initial startup of the process unit.
pub fn startup() -> Day
    ensures in_range { result ≤ LAST_FACT_DAY }
{
    Day::at(18_000)
}
