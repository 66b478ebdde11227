use jiff_core::civil::Date;
use ldar_days::Day;

// The day number of 1970-01-01, counted from -9999-01-01.
const EPOCH: u32 = 4_371_587;

/// The month of a day, as year * 12 + month - 1, by jiff's civil calendar.
pub fn month_by_jiff(day: Day) -> u32 {
    month_number(date_of(day))
}

/// The day number `months` months later by jiff's civil calendar, at most that of 2099-12-31.
pub fn plus_months_by_jiff(day: Day, months: u32) -> u32 {
    let date = date_of(day);
    let later = month_number(date).saturating_add(months);
    if later > 25_199 {
        return 47_481;
    }
    let date = Date::constrain((later / 12) as i16, (later % 12 + 1) as u8, date.day);
    date.days_since_min().saturating_sub(EPOCH)
}

/// Whether the day has the year, month and day of the month that jiff computes.
pub fn is_as_jiff(day: Day) -> bool {
    month_by_jiff(day) == day.month().number() && u32::from(date_of(day).day) == day.day_of_month()
}

fn date_of(day: Day) -> Date {
    Date::from_days_since_min(day.number() + EPOCH)
}

fn month_number(date: Date) -> u32 {
    u32::from(date.year.unsigned_abs()) * 12 + u32::from(date.month) - 1
}
