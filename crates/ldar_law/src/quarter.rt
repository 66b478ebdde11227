//! Quarters of a process unit and their months (40 CFR 60.481a, 60.482-7a(c)). `startup` is the unit's. A month is
//! given by its number, since it may be the one after the calendar's last month.

ghost use Rattle.std.specs.Prelude.{◌≡◌, ◌≤◌};
ghost use Rattle.ldar_law.specs.Months as months;
ghost use Rattle.ldar_law.specs.Percent as law;
ghost use Rattle.ldar_law.specs.declared.numbers.TheConstants.{LAST_FACT_DAY};

use ldar_days::{Day, first_quarter, quarter_last, quarter_of};

/// Whether the day is in the quarter.
pub fn is_in_quarter(startup: Day, quarter: u16, day: Day) -> bool
    requires startup { startup ≤ LAST_FACT_DAY }
    ensures value { result ≡ law.is_in_quarter startup quarter day }
{
    match quarter_of(startup, day.month()) {
        Some(number) => number == quarter,
        None => false,
    }
}

/// The day on which a view of the day judges a quarter: the quarter's last day, or the view's day if that is earlier.
pub fn judging_day(startup: Day, quarter: u16, day: Day) -> Day
    requires startup { startup ≤ LAST_FACT_DAY }
    requires quarter { 1 ≤ quarter }
    ensures value { result ≡ law.judging_day startup quarter day }
{
    quarter_last(startup, quarter).min(day)
}

/// The first month of the quarter that contains the month.
pub fn quarter_start(startup: Day, month: u32) -> u32
    requires startup { startup ≤ LAST_FACT_DAY }
    ensures value { result ≡ months.quarter_start startup month }
{
    let first = first_quarter(startup).number();
    first + month.saturating_sub(first) / 3 * 3
}

/// The month's number in its quarter, from 1 to 3.
pub fn month_in_quarter(startup: Day, month: u32) -> u32
    requires startup { startup ≤ LAST_FACT_DAY }
    ensures value { result ≡ months.month_in_quarter startup month }
{
    month.saturating_sub(first_quarter(startup).number()) % 3 + 1
}
