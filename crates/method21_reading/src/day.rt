ghost use Rattle.std.specs.Prelude.{◌≡◌, ◌≤◌, true, false, nat_le, filter, length};
ghost use Rattle.std.specs.List.Sorted.{IsPartitionPoint};
ghost use Rattle.list_words.specs.Order.{Ascends};
ghost use Rattle.fact_kinds.specs.Facts.{goes_first};
ghost use Rattle.method21_reading.specs.Instruments.{is_of_day};

use crate::near::{Spread, count_before, high_from};
use fact_kinds::{Fact, Key};
use ldar_days::Day;

/// The number of facts of the day or an earlier one. A day mostly has few facts, so it searches in steps that double, and then
/// by binary search.
fn count_to(facts: &[(Key, Fact)], day: Day) -> usize
    requires ordered { Ascends goes_first facts.now }
    ensures bound { result ≤ length facts.now }
    ensures partitioned { IsPartitionPoint (λ e. nat_le e.0.day day ≡ true) (λ e. nat_le e.0.day day ≡ false) facts.now result }
{
    let high = high_from(facts, 0, day);
    facts[..high].partition_point(|e| e.0.day <= day)
}

/// The facts of a day, from facts in key order.
pub fn facts_on(facts: &[(Key, Fact)], spread: Spread, day: Day) -> &[(Key, Fact)]
    requires ordered { Ascends goes_first facts.now }
    ensures value { result.now ≡ filter (is_of_day day) facts.now }
{
    let from = count_before(facts, spread, day);
    let rest = &facts[from..];
    let count = count_to(rest, day);
    &rest[..count]
}
