use crate::by_jiff::is_as_jiff;
use crate::row::{Checksums, Row};
use ldar_days::Day;

/// The number of months compared so far, and for each part of the calendar the number of those that agree with Python.
#[derive(Drop)]
pub struct Agreement {
    pub compared: u32,
    pub days: u32,
    pub ends: u32,
    pub months: u32,
    pub texts: u32,
    pub weeks: u32,
    pub later_days: u32,
    pub later_months: u32,
    pub quarters: u32,
    pub read_again: u32,
    pub as_jiff: u32,
}

impl Agreement {
    pub fn new() -> Agreement {
        Agreement {
            compared: 0,
            days: 0,
            ends: 0,
            months: 0,
            texts: 0,
            weeks: 0,
            later_days: 0,
            later_months: 0,
            quarters: 0,
            read_again: 0,
            as_jiff: 0,
        }
    }

    /// Compares a month of the table with the calendar.
    pub fn compare(&mut self, row: Row) {
        let mut sums = Checksums::new();
        let (mut days, mut ends, mut read_again, mut as_jiff) = (0u32, true, true, true);
        for number in row.first..row.first.saturating_add(row.days) {
            let Some(day) = Day::of_number(number) else {
                return;
            };
            sums.add(day);
            days = days.saturating_add(1);
            ends &= has_ends(day, row);
            read_again &= Day::read(&day.text()) == Some(day);
            as_jiff &= is_as_jiff(day);
        }
        count(&mut self.compared, true);
        self.days = self.days.saturating_add(days);
        count(&mut self.ends, ends);
        count(&mut self.months, sums.months == row.sums.months);
        count(&mut self.texts, sums.texts == row.sums.texts);
        count(&mut self.weeks, sums.weeks == row.sums.weeks);
        count(&mut self.later_days, sums.later_days == row.sums.later_days);
        count(
            &mut self.later_months,
            sums.later_months == row.sums.later_months,
        );
        count(&mut self.quarters, sums.quarters == row.sums.quarters);
        count(&mut self.read_again, read_again);
        count(&mut self.as_jiff, as_jiff);
    }
}

fn count(counted: &mut u32, holds: bool) {
    *counted = counted.saturating_add(u32::from(holds));
}

// Whether the day's month has the table's first and last day.
fn has_ends(day: Day, row: Row) -> bool {
    let month = day.month();
    month.first_day().number() == row.first
        && month.last_day().number() + 1 == row.first.saturating_add(row.days)
}
