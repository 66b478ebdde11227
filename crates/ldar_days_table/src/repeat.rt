use crate::by_jiff::{month_by_jiff, plus_months_by_jiff};
use ldar_days::{Day, LAST_STARTUP, Month, quarter_of};

/// Calls a function `passes` times for each possible startup day, and returns the sum of the results.
pub fn repeated(call: &str, passes: u32) -> u64 {
    match call {
        "month" => over_days(passes, |day, _| day.month().number()),
        "plus_months" => over_days(passes, |day, pass| day.plus_months(pass % 16).number()),
        "month_by_jiff" => over_days(passes, |day, _| month_by_jiff(day)),
        "plus_months_by_jiff" => over_days(passes, |day, pass| plus_months_by_jiff(day, pass % 16)),
        "quarter_of" => over_days(passes, |day, _| quarter_of_last(day)),
        _ => over_days(passes, |day, _| day.number()),
    }
}

fn quarter_of_last(startup: Day) -> u32 {
    if startup.number() > LAST_STARTUP {
        return 0;
    }
    quarter_of(startup, Month::at(25_199)).map_or(0, u32::from)
}

fn over_days<F: Fn(Day, u32) -> u32>(passes: u32, call: F) -> u64
    requires { F.IsAlwaysCallable call }
{
    let mut total = 0u64;
    for pass in 0..passes {
        for number in 13_879..=LAST_STARTUP {
            let value = call(Day::at(number), pass);
            total = total.wrapping_mul(3).wrapping_add(u64::from(value));
        }
    }
    total
}
