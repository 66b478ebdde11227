ghost use Rattle.std.specs.Prelude.{◌≡◌, ◌≤◌, nat_le, IsTrue};
ghost use Rattle.ldar_days.specs.Calendar.{first_day, last_day, end_by};
ghost use Rattle.ldar_law.specs.Reports as law;
ghost use Rattle.ldar_law.specs.declared.numbers.TheConstants.{LAST_FACT_DAY};
ghost use Rattle.semiannual_report.specs.Halves.{first_reported};

use ldar_days::{Day, Month, first_quarter};

/// The number of the calendar's last month, December 2099.
const LAST_MONTH: u32 = 25_199;

const LAST_DAY: u32 = 47_481;

/// Whether a half has begun by a day. Halves count from 1, and half h is quarters 2h - 1 and 2h (our own rule). A half
/// that would begin after 2099-12-31 has begun by no day.
pub fn has_half_begun(startup: Day, half: u16, day: Day) -> bool
    requires startup { startup ≤ LAST_FACT_DAY }
    ensures value { result ≡ law.has_half_begun startup half day }
    ensures in_calendar { IsTrue result → law.half_month startup half ≤ 25_199 }
{
    1 <= half && has_month_begun(half_month(startup, half), day)
}

/// Whether a month's first day is not after the day. The month is a number, since it may be past the calendar's end.
#[tactic(auto, using(crate::proofs::Begun::begun))]
fn has_month_begun(month: u32, day: Day) -> bool
    requires in_range { 24_096 ≤ month }
    ensures value { result ≡ nat_le (first_day month) day }
    ensures in_calendar { IsTrue result → month ≤ 25_199 }
{
    month <= day.month().number()
}

/// The number of a half's first month, which may be past the calendar's end.
pub fn half_month(startup: Day, half: u16) -> u32
    requires startup { startup ≤ LAST_FACT_DAY }
    requires half { 1 ≤ half }
    ensures value { result ≡ law.half_month startup half }
    ensures in_range { (24_096 ≤ result) × (result ≤ 500_000) }
{
    first_quarter(startup).number() + 6 * (u32::from(half) - 1)
}

/// The first day of a half, at most 2099-12-31.
pub fn half_first(startup: Day, half: u16) -> Day
    requires startup { startup ≤ LAST_FACT_DAY }
    requires half { 1 ≤ half }
    ensures value { result ≡ law.half_first startup half }
{
    month_start(half_month(startup, half))
}

/// The last day of a half, at most 2099-12-31.
pub fn half_last(startup: Day, half: u16) -> Day
    requires startup { startup ≤ LAST_FACT_DAY }
    requires half { 1 ≤ half }
    ensures value { result ≡ law.half_last startup half }
{
    month_end(half_month(startup, half) + 5)
}

/// The first day to report for a half that has not begun. For half 0 it is the first day of half 1.
pub fn first_day_reported(startup: Day, half: u16) -> Day
    requires startup { startup ≤ LAST_FACT_DAY }
    ensures value { result ≡ first_reported startup half }
{
    half_first(startup, half.max(1))
}

/// The first day of a month, at most 2099-12-31.
#[tactic(auto, using(crate::proofs::Begun::past))]
fn month_start(month: u32) -> Day
    requires in_range { 24_096 ≤ month }
    ensures value { result ≡ end_by (first_day month) }
{
    if month > LAST_MONTH {
        return Day::at(LAST_DAY);
    }
    Month::at(month).first_day()
}

/// The last day of a month, at most 2099-12-31.
#[tactic(auto, using(crate::proofs::Begun::past))]
fn month_end(month: u32) -> Day
    requires in_range { 24_096 ≤ month }
    ensures value { result ≡ end_by (last_day month) }
{
    if month > LAST_MONTH {
        return Day::at(LAST_DAY);
    }
    Month::at(month).last_day()
}
