//! Searches for a day among facts in key order. A search begins where the day would be if the days were spread evenly, goes
//! outward in steps that double, and ends with a binary search between the last two places. Instruments are calibrated at
//! regular intervals, so the first step mostly finds the day. Otherwise a search takes at most twice the steps of a binary search.

ghost use Rattle.std.specs.Prelude.{◌≡◌, ◌≤◌, true, false, nat_lt, length};
ghost use Rattle.std.specs.List.{AllWithin};
ghost use Rattle.std.specs.List.Sorted.{IsPartitionPoint};
ghost use Rattle.list_words.specs.Order.{Ascends};
ghost use Rattle.fact_kinds.specs.Facts.{is_earlier, goes_first};

use fact_kinds::{Fact, Key, precedes};
use ldar_days::Day;

/// How the days of some facts are spread: the number of the first day, and the number of places for each day, in units of
/// 1 / 2^32. It decides only where a search begins, so a wrong value costs time but changes no result.
#[derive(Clone, Copy)]
pub struct Spread {
    first: u32,
    places: u64,
}

impl Spread {
    /// The spread of facts in key order.
    pub fn of(facts: &[(Key, Fact)]) -> Spread {
        match (facts.first(), facts.last()) {
            (Some(first), Some(last)) => {
                Spread::between(first.0.day.number(), last.0.day.number(), facts.len())
            }
            _ => Spread {
                first: 0,
                places: 0,
            },
        }
    }

    /// The spread of `count` facts from one day to another, each given by its number.
    fn between(first: u32, last: u32, count: usize) -> Spread {
        let days = u64::from(last.saturating_sub(first)).max(1);
        Spread {
            first,
            places: (count as u64).saturating_sub(1).wrapping_mul(1 << 32) / days,
        }
    }

    /// The place of a day if the days were spread evenly from the first to the last.
    fn place(self, day: Day) -> usize {
        let past = u64::from(day.number().saturating_sub(self.first));
        (past.wrapping_mul(self.places).wrapping_add(1 << 31) >> 32) as usize
    }
}

/// A place, at most `place`, before which all facts are of days before the given one.
fn low_from(facts: &[(Key, Fact)], place: usize, day: Day) -> usize
    requires ordered { Ascends goes_first facts.now }
    requires within { place ≤ length facts.now }
    ensures bound { result ≤ place }
    ensures before { AllWithin (λ e. nat_lt e.0.day day ≡ true) facts.now 0 result }
{
    let mut low = place;
    let mut step = 1;
    while low > 0 && day <= facts[low - 1].0.day {
        low = low.saturating_sub(step);
        step = step.saturating_mul(2);
    }
    low
}

/// A place, at least `place`, from which on all facts are of days after the given one.
pub fn high_from(facts: &[(Key, Fact)], place: usize, day: Day) -> usize
    requires ordered { Ascends goes_first facts.now }
    requires within { place ≤ length facts.now }
    ensures bound { (place ≤ result) × (result ≤ length facts.now) }
    ensures behind { AllWithin (λ e. nat_lt day e.0.day ≡ true) facts.now result (length facts.now) }
{
    let mut high = place;
    let mut step = 1;
    while high < facts.len() && facts[high].0.day <= day {
        high = high.saturating_add(step).min(facts.len());
        step = step.saturating_mul(2);
    }
    high
}

/// The number of facts of days before a given one.
pub fn count_before(facts: &[(Key, Fact)], spread: Spread, day: Day) -> usize
    requires ordered { Ascends goes_first facts.now }
    ensures bound { result ≤ length facts.now }
    ensures partitioned { IsPartitionPoint (λ e. nat_lt e.0.day day ≡ true) (λ e. nat_lt e.0.day day ≡ false) facts.now result }
{
    let place = spread.place(day).min(facts.len());
    let low = low_from(facts, place, day);
    let high = high_from(facts, place, day);
    low + facts[low..high].partition_point(|e| e.0.day < day)
}

/// The number of facts with an earlier key.
pub fn count_earlier(facts: &[(Key, Fact)], spread: Spread, key: &Key) -> usize
    requires ordered { Ascends goes_first facts.now }
    ensures bound { result ≤ length facts.now }
    ensures partitioned { IsPartitionPoint (λ e. is_earlier e.0 key.now ≡ true) (λ e. is_earlier e.0 key.now ≡ false) facts.now result }
{
    let place = spread.place(key.day).min(facts.len());
    let low = low_from(facts, place, key.day);
    let high = high_from(facts, place, key.day);
    low + facts[low..high].partition_point(|e| precedes(&e.0, key))
}

/// The number of facts with the same key or an earlier one.
pub fn count_up_to(facts: &[(Key, Fact)], key: &Key) -> usize
    requires ordered { Ascends goes_first facts.now }
    ensures bound { result ≤ length facts.now }
    ensures partitioned { IsPartitionPoint (λ e. is_earlier key.now e.0 ≡ false) (λ e. is_earlier key.now e.0 ≡ true) facts.now result }
{
    facts.partition_point(|e| !precedes(key, &e.0))
}
