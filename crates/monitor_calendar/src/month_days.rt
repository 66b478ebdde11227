ghost use Rattle.std.specs.Prelude.{◌≡◌, ◌+◌, ◌<◌, ◌≤◌};
ghost use Rattle.ldar_days.specs.Calendar.{first_day, last_day};

use ldar_days::{Day, Month};

/// December 2099, the last month of the calendar.
pub const LAST_MONTH: u32 = 25_199;

/// A month, its first day and its last.
#[derive(Clone, Copy)]
pub struct MonthDays {
    pub month: Month,
    pub first: Day,
    pub last: Day,
    pub ghost from: { 24_096 ≤ month },
    pub ghost to: { month ≤ 25_199 },
    pub ghost begins: { first ≡ first_day month },
    pub ghost ends: { last ≡ last_day month },
}

impl MonthDays {
    /// A month with its days.
    pub fn of(number: u32) -> MonthDays
        requires from { 24_096 ≤ number }
        requires to { number ≤ 25_199 }
        ensures value { result.month ≡ number }
    {
        let month = Month::at(number);
        MonthDays {
            month,
            first: month.first_day(),
            last: month.last_day(),
        }
    }

    /// The next month with its days.
    pub fn next(&self) -> MonthDays
        requires to { self.now.month < 25_199 }
        ensures value { result.month ≡ self.now.month + 1 }
    {
        let month = Month::at(self.month.number() + 1);
        MonthDays {
            month,
            first: Day::at(self.last.number() + 1),
            last: month.last_day(),
        }
    }

    /// This month, or the next one if that one is asked for.
    pub fn moved_to(self, number: u32) -> MonthDays
        requires near { (self.month ≤ number) × (number ≤ self.month + 1) }
        requires to { number ≤ 25_199 }
        ensures value { result.month ≡ number }
    {
        if number <= self.month.number() {
            return self;
        }
        self.next()
    }
}
