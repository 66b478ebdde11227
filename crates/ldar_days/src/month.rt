//! Months by number.
//!
//! The definitions of months are `unfoldable`, since a goal that names a month would otherwise grow to pages. An example that
//! computes names them in its attribute (`unfolding(ldar_days::specs::Calendar::first_day, ..)`); other proofs cite the lemmas
//! of `proofs/Months.antt`, `Sums.antt`, `Quarters.antt` and `Texts.antt`.

ghost use Rattle.std.specs.Prelude.{◌≡◌, ℕ, ◌+◌, ◌-◌, ◌*◌, ◌/◌, ◌%◌, ◌<◌, ◌≤◌, pos};
ghost use Rattle.jiff_core.specs.Calendar.{days_from_civil};
ghost use Rattle.jiff_core.specs.Date.{epoch_day, IsYmd};
ghost use Rattle.ldar_days.specs.Calendar.{IsDay, IsMonth, first_day, last_day};

use crate::Day;
use jiff::civil::{Date, date};
use std::marker::Model;

/// A month of the calendar, from January 2008 to December 2099. In contracts it is its number: year * 12 + month - 1.
#[derive(Clone, Copy, Debug, PartialEq, Eq, PartialOrd, Ord, Hash)]
pub struct Month {
    number: u16,
}

impl Model for Month {
    ghost use Rattle.std.specs.Prelude.{ℕ};
    ghost use Rattle.ldar_days.specs.Calendar.{IsMonth};

    ghost Value = { ℕ };

    ghost view = { λ m. m.number };

    ghost invariant = { λ m. IsMonth m.number };

    ghost inverse = { λ n. record { number = n } };
}

/// The number of December 2099.
pub const LAST_MONTH: u32 = 25_199;

#[tactic(auto, using(crate::proofs::Dates::dates))]
impl Month {
    /// The month with this number (year * 12 + month - 1), which must be in the calendar.
    pub fn at(number: u32) -> Month
        requires in_range { IsMonth number }
        ensures value { result ≡ number }
    {
        Month {
            number: number as u16,
        }
    }

    /// The month's number: year * 12 + month - 1.
    pub fn number(self) -> u32
        ensures value { result ≡ self }
        ensures in_range { IsMonth result }
    {
        u32::from(self.number)
    }

    /// The month's year, from 2008 to 2099.
    pub fn year(self) -> u32
        ensures value { result ≡ self / 12 }
        ensures in_range { (2_008 ≤ result) × (result ≤ 2_099) }
    {
        self.number() / 12
    }

    /// The month of the year, from 1 to 12.
    pub fn month_of_year(self) -> u32
        ensures value { result ≡ self % 12 + 1 }
    {
        self.number() % 12 + 1
    }

    /// The next month, which must be in the calendar.
    pub fn next(self) -> Month
        requires in_range { self < 25_199 }
        ensures value { result ≡ self + 1 }
    {
        self.later(1)
    }

    /// The month `months` months later, which must be in the calendar.
    pub fn later(self, months: u32) -> Month
        requires in_range { self + months ≤ 25_199 }
        ensures value { result ≡ self + months }
    {
        Month::at(self.number() + months)
    }

    /// The month `months` months earlier, which must be in the calendar.
    pub fn earlier(self, months: u32) -> Month
        requires in_range { 24_096 + months ≤ self }
        ensures value { result + months ≡ self }
    {
        Month::at(self.number() - months)
    }

    /// The first day of the month.
    pub fn first_day(self) -> Day
        ensures value { result ≡ first_day self }
        ensures in_range { IsDay result }
        ensures civil { pos result ≡ days_from_civil (pos (self / 12)) (self % 12 + 1) 1 }
    {
        Day::of_date(self.first_date())
    }

    /// The last day of the month.
    pub fn last_day(self) -> Day
        ensures value { result ≡ last_day self }
        ensures in_range { IsDay result }
        ensures before_next { result + 1 ≡ first_day (self + 1) }
    {
        Day::of_date(self.first_date().last_of_month())
    }

    // The first date of the month.
    fn first_date(self) -> Date
        ensures value { epoch_day result ≡ pos (first_day self) }
        ensures parts { IsYmd (pos (self / 12)) (pos (self % 12 + 1)) (pos 1) result }
    {
        date(self.year() as i16, self.month_of_year() as i8, 1)
    }
}
