ghost use Rattle.std.specs.Prelude.{◌≡◌, nat_le, false, option_map};
ghost use Rattle.std.specs.Option.{option_map_or};
ghost use Rattle.list_words.specs.Order.{Ascends};
ghost use Rattle.list_words.specs.Words.{last_such};
ghost use Rattle.ldar_days.specs.Calendar.{later_by};
ghost use Rattle.fact_kinds.specs.Facts.{goes_first, is_earlier};
ghost use Rattle.ldar_law.specs.Fitness as law;

use crate::near::{Spread, count_earlier};
use fact_kinds::{Fact, FactBody, Key};
use ldar_days::Day;

/// The sum of three readings.
pub fn sum_of(readings: (u32, u32, u32)) -> u64
    ensures value { result ≡ law.sum_of readings }
{
    u64::from(readings.0) + u64::from(readings.1) + u64::from(readings.2)
}

/// Whether the mean of three readings is within 10 percent of the known value (EPA Method 21, section 8.1.2).
pub fn is_precise(value: u32, readings: (u32, u32, u32)) -> bool
    ensures value { result ≡ law.is_precise value (law.sum_of readings) }
{
    let known = 3 * u64::from(value);
    let sum = sum_of(readings);
    sum.saturating_sub(known) * 10 <= known && known.saturating_sub(sum) * 10 <= known
}

/// Whether a fact is a precision test of the instrument that passed.
fn is_passed_precision(instrument: u16, body: &FactBody) -> bool
    ensures value { result ≡ law.is_passed_precision instrument body.now }
{
    match *body {
        FactBody::Precision {
            instrument: of,
            value,
            readings,
        } => of == instrument && is_precise(value, readings),
        _ => false,
    }
}

/// The day of the last precision test of the instrument that passed.
fn last_passed(facts: &[(Key, Fact)], instrument: u16) -> Option<Day>
    ensures value { result ≡ option_map (λ e. e.0.day) (last_such (λ e. law.is_passed_precision instrument e.1.body) facts.now) }
{
    facts
        .iter()
        .rev()
        .find(|e| is_passed_precision(instrument, &e.1.body))
        .map(|e| e.0.day)
}

/// Whether a day is at most three months after another.
fn is_within_three_months(day: Day, tested: Day) -> bool
    ensures value { result ≡ nat_le day (later_by 3 tested) }
{
    day <= tested.plus_months(3)
}

/// Whether a precision test exists and is at most three months old on a day.
fn is_recent(tested: Option<Day>, day: Day) -> bool
    ensures value { result ≡ option_map_or (λ tested. nat_le day (later_by 3 tested)) tested false }
{
    match tested {
        Some(tested) => is_within_three_months(day, tested),
        None => false,
    }
}

/// Whether some passed precision test is earlier than the reading with this key, and at most three months old (EPA Method 21,
/// section 8.1.2). The last one before the reading decides. The facts before the reading are counted by binary search; the
/// search for the test goes backward from there.
pub fn is_tested(facts: &[(Key, Fact)], spread: Spread, key: &Key, instrument: u16) -> bool
    requires ordered { Ascends goes_first facts.now }
    ensures value { result ≡ law.is_tested facts.now key.now instrument }
{
    let count = count_earlier(facts, spread, key);
    is_recent(last_passed(&facts[..count], instrument), key.day)
}
