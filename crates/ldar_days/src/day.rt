ghost use Rattle.std.specs.Prelude.{◌≡◌, ℕ, ◌+◌, ◌*◌, ◌≤◌, ◌<◌, ◌-◌, ◌/◌, ◌%◌, min, IsNone, IfSome, pos, ◌≤ℤ◌};
ghost use Rattle.jiff_core.specs.Calendar.{weekday_number, IsBetween};
ghost use Rattle.jiff_core.specs.Date.{epoch_day};
ghost use Rattle.ldar_days.specs.Calendar.{IsDay, IsMonth, IsInMonth, month_of, place_of, end_by, later_by, day_at, week_of, week_first, month_length};

use crate::Month;
use crate::month::LAST_MONTH;
use jiff::ToSpan;
use jiff::civil::Date;
use jiff_core::civil;
use std::marker::Model;

/// A day of the calendar, from 2008-01-01 to 2099-12-31. In contracts it is its number: the days since 1970-01-01.
#[derive(Clone, Copy, Debug, PartialEq, Eq, PartialOrd, Ord, Hash)]
pub struct Day {
    number: u16,
}

impl Model for Day {
    ghost use Rattle.std.specs.Prelude.{ℕ};
    ghost use Rattle.ldar_days.specs.Calendar.{IsDay};

    ghost Value = { ℕ };

    ghost view = { λ d. d.number };

    ghost invariant = { λ d. IsDay d.number };

    ghost inverse = { λ n. record { number = n } };
}

// 2008-01-01.
const FIRST_DAY: u32 = 13_879;

/// The number of 2099-12-31. A sum that would go past this day ends on it.
pub const LAST_DAY: u32 = 47_481;

// The days from jiff's first date, -9999-01-01, to 1970-01-01.
pub(crate) const EPOCH: u32 = 4_371_587;

impl Day {
    /// The day with this number (days since 1970-01-01), or `None` if the calendar does not have it.
    pub fn of_number(number: u32) -> Option<Day>
        ensures none { IsNone result → IsDay number → ⊥ }
        ensures value { IfSome result (λ day. IsDay number × (day ≡ number)) }
    {
        if (FIRST_DAY..=LAST_DAY).contains(&number) {
            Some(Day {
                number: number as u16,
            })
        } else {
            None
        }
    }

    /// The day with this number (days since 1970-01-01), which must be in the calendar.
    pub fn at(number: u32) -> Day
        requires in_range { IsDay number }
        ensures value { result ≡ number }
    {
        Day {
            number: number as u16,
        }
    }

    /// The days since 1970-01-01.
    pub fn number(self) -> u32
        ensures value { result ≡ self }
        ensures in_range { IsDay result }
    {
        u32::from(self.number)
    }

    /// The month of the day.
    #[tactic(auto, using(crate::proofs::Dates::month_of_day))]
    pub fn month(self) -> Month
        ensures value { result ≡ month_of self }
        ensures in_range { IsMonth result }
        ensures inside { IsInMonth result self }
        ensures no_other { (month : ℕ) → IsMonth month → IsInMonth month self → month ≡ result }
    {
        let date = self.date();
        Month::at(12 * date.year() as u32 + date.month() as u32 - 1)
    }

    /// The day of the month, from 1 to 31.
    #[tactic(auto, using(crate::proofs::Dates::month_of_day))]
    pub fn day_of_month(self) -> u32
        ensures value { result ≡ place_of self + 1 }
        ensures in_range { (1 ≤ result) × (result ≤ 31) }
    {
        self.date().day() as u32
    }

    /// The calendar week of the day (40 CFR 60.482-2a(a)(2)). Weeks run from Monday to Sunday (our own rule);
    /// week 1 begins on 1970-01-05.
    #[tactic(auto, using(crate::proofs::Weeks::weeks))]
    pub fn week(self) -> u32
        ensures value { result ≡ week_of self }
        ensures from_monday { (week_first result ≤ self) × (self ≤ week_first result + 6) }
        ensures monday { weekday_number (pos (week_first result)) ≡ 0 }
    {
        (self.number() + 3) / 7
    }

    /// The day `days` days later, at most 2099-12-31 (our own rule).
    pub fn plus_days(self, days: u32) -> Day
        ensures value { result ≡ end_by (self + days) }
        ensures in_range { IsDay result }
    {
        // A sum of more days than the calendar has ends on its last day in any case.
        Day::until_end(self.days_later(days.min(LAST_DAY)))
    }

    /// The same day of the month `months` months later, or that month's last day if the month is shorter.
    /// The result is at most 2099-12-31 (our own rule).
    #[tactic(auto, using(crate::proofs::Sums::sums))]
    pub fn plus_months(self, months: u32) -> Day
        ensures value { result ≡ later_by months self }
        ensures in_range { IsDay result }

        // The month is exactly `months` months later if the calendar has it.
        ensures month { month_of self + months ≤ 25_199 → month_of result ≡ month_of self + months }
        ensures place { month_of self + months ≤ 25_199
            → place_of result ≡ min (place_of self) (month_length (month_of self + months) - 1) }
        ensures past_end { 25_199 < month_of self + months → result ≡ 47_481 }
    {
        // A sum of more months than the calendar has ends on its last day in any case.
        Day::until_end(self.months_later(months.min(LAST_MONTH)))
    }

    /// The day as jiff's date.
    #[tactic(auto, using(crate::proofs::Dates::date_of_day))]
    pub(crate) fn date(self) -> Date
        ensures value { epoch_day result ≡ pos self }
        ensures year { result.year ≡ pos (month_of self / 12) }
        ensures month { result.month ≡ month_of self % 12 + 1 }
        ensures day { result.day ≡ place_of self + 1 }
    {
        Date::from_plain(civil::Date::from_days_since_min(self.number() + EPOCH))
    }

    // The date `days` days later, possibly after the calendar's end.
    fn days_later(self, days: u32) -> Date
        requires { days ≤ 47_481 }
        ensures value { epoch_day result ≡ pos (self + days) }
    {
        Date::from_plain(civil::Date::from_days_since_min(self.number() + days + EPOCH))
    }

    // The date `months` months later, possibly after the calendar's end.
    fn months_later(self, months: u32) -> Date
        requires { months ≤ 25_199 }
        ensures value { epoch_day result ≡ pos (day_at (month_of self + months) (place_of self)) }
    {
        self.date().saturating_add(i64::from(months).months())
    }

    /// The day of a date, which must be in the calendar.
    pub(crate) fn of_date(date: Date) -> Day
        requires in_range { IsBetween (pos 13_879) (pos 47_481) (epoch_day date) }
        ensures value { pos result ≡ epoch_day date }
    {
        Day::at(date.to_plain().days_since_min() - EPOCH)
    }

    // The day of a date that is not before 2008-01-01, or 2099-12-31 if the date is later than that.
    fn until_end(date: Date) -> Day
        requires from_2008 { pos 13_879 ≤ℤ epoch_day date }
        ensures value { (number : ℕ) → epoch_day date ≡ pos number → result ≡ end_by number }
    {
        let number = date.to_plain().days_since_min() - EPOCH;
        Day::at(number.min(LAST_DAY))
    }
}
