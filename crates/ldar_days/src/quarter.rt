#![tactic(auto, using(crate::proofs::Quarters::quarters))]

ghost use Rattle.std.specs.Prelude.{◌≡◌, ℕ, ◌+◌, ◌<◌, ◌≤◌, ◌↔◌, IsNone, IfSome};
ghost use Rattle.ldar_days.specs.Calendar.{IsDay, IsMonth, first_day, last_day};
ghost use Rattle.ldar_days.specs.Quarters as spec;

use crate::day::LAST_DAY;
use crate::month::LAST_MONTH;
use crate::{Day, Month};

/// The last day of an initial startup for which quarters are computed: 2097-12-31 (our own rule).
pub const LAST_STARTUP: u32 = 46_751;

/// The first month of a unit's quarter 1, from the day of its initial startup (40 CFR 60.481a).
///
/// The last month of quarter 1 is the last one all of whose days are within startup + 1 to startup + 180.
pub fn first_quarter(startup: Day) -> Month
    requires in_range { startup ≤ LAST_STARTUP }
    ensures value { result ≡ spec.first_quarter startup }
    ensures in_range { IsMonth result }
    ensures third_month { spec.IsWithin180Days startup (result + 2) }
    ensures no_later_month { (month : ℕ) → IsMonth month → spec.IsWithin180Days startup month → month ≤ result + 2 }
{
    // The month before that of startup + 181 is the last one that ends by startup + 180.
    Day::at(startup.number() + 181).month().earlier(3)
}

/// The quarter of a month, counted from 1, or `None` if the month is before quarter 1.
pub fn quarter_of(startup: Day, month: Month) -> Option<u16>
    requires in_range { startup ≤ LAST_STARTUP }
    ensures value { result ≡ spec.quarter_of startup month }
    ensures found { IfSome result (λ quarter. (spec.quarter_first startup quarter ≤ first_day month)
        × (last_day month ≤ spec.quarter_last startup quarter)) }
    ensures none { IsNone result ↔ (month < spec.first_quarter startup) }
{
    let (first, month) = (first_quarter(startup).number(), month.number());
    if month < first {
        return None;
    }
    Some(((month - first) / 3 + 1) as u16)
}

/// The first day of a quarter, at most 2099-12-31 (our own rule).
pub fn quarter_first(startup: Day, quarter: u16) -> Day
    requires in_range { startup ≤ LAST_STARTUP }
    requires quarter { 1 ≤ quarter }
    ensures value { result ≡ spec.quarter_first startup quarter }
    ensures in_range { IsDay result }
{
    let number = first_quarter(startup).number() + 3 * (u32::from(quarter) - 1);
    if number > LAST_MONTH {
        return Day::at(LAST_DAY);
    }
    Month::at(number).first_day()
}

/// The last day of a quarter, at most 2099-12-31 (our own rule).
pub fn quarter_last(startup: Day, quarter: u16) -> Day
    requires in_range { startup ≤ LAST_STARTUP }
    requires quarter { 1 ≤ quarter }
    ensures value { result ≡ spec.quarter_last startup quarter }
    ensures before_next { result < 47_481 → spec.quarter_first startup (quarter + 1) ≡ result + 1 }
    ensures in_range { IsDay result }
{
    let number = first_quarter(startup).number() + 3 * u32::from(quarter) - 1;
    if number > LAST_MONTH {
        return Day::at(LAST_DAY);
    }
    Month::at(number).last_day()
}
