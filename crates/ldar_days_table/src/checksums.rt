use crate::row::Checksums;
use ldar_days::{Day, LAST_STARTUP, first_quarter};

// The numbers of days and months that the table adds: all that duties and delays need, and far past the calendar's end.
const MOST_DAYS: u32 = 63;

const MORE_DAYS: [u32; 5] = [180, 181, 366, 20_000, u32::MAX];

const MOST_MONTHS: u32 = 121;

const MORE_MONTHS: [u32; 3] = [600, 1_103, u32::MAX];

impl Checksums {
    pub fn new() -> Checksums {
        Checksums {
            months: 0,
            texts: 0,
            weeks: 0,
            later_days: 0,
            later_months: 0,
            quarters: 0,
        }
    }

    /// Adds the next day of the month to each checksum.
    pub fn add(&mut self, day: Day) {
        self.months = mixed(mixed(self.months, day.month().number()), day.day_of_month());
        self.weeks = mixed(self.weeks, day.week());
        for byte in day.text() {
            self.texts = mixed(self.texts, u32::from(byte));
        }
        self.later_days = with_later_days(self.later_days, day);
        self.later_months = with_later_months(self.later_months, day);
        if day.number() <= LAST_STARTUP {
            self.quarters = mixed(self.quarters, first_quarter(day).number());
        }
    }
}

fn with_later_days(mut sum: u64, day: Day) -> u64 {
    for days in 0..MOST_DAYS {
        sum = mixed(sum, day.plus_days(days).number());
    }
    for days in MORE_DAYS {
        sum = mixed(sum, day.plus_days(days).number());
    }
    sum
}

fn with_later_months(mut sum: u64, day: Day) -> u64 {
    for months in 0..MOST_MONTHS {
        sum = mixed(sum, day.plus_months(months).number());
    }
    for months in MORE_MONTHS {
        sum = mixed(sum, day.plus_months(months).number());
    }
    sum
}

// One step of a checksum, as in `bench/calendar_table.py`.
fn mixed(sum: u64, value: u32) -> u64 {
    (sum ^ u64::from(value)).wrapping_mul(1_099_511_628_211)
}
