//! Compares the calendar of `ldar_days` with the table that `bench/calendar_table.py` made with Python's datetime.
//! With a function's name and a number it calls that function that many times for each day, for `bench/days.py`.
//!
//! Each of the 1,104 months has a line in `data/calendar.txt`: its first day, its length and checksums. The checksums are over
//! the day of the month, the month, the text, the week, 68 sums of days, 124 sums of months and the first quarter of each day.
//! A 64-bit checksum replaces the values to keep the table small, so a wrong value could have the right checksum.
#![tactic(auto)]

mod agreement;
mod by_jiff;
mod checksums;
mod repeat;
mod row;

use agreement::Agreement;
use repeat::repeated;
use row::row_of;
use std::{env, fs};

fn main(rt: HostRuntime) -> Result<(), anyhow::Error> {
    let mut words = env::args(&rt)?.skip(1);
    if let Some(call) = words.next() {
        let passes = words
            .next()
            .and_then(|word| word.parse::<u32>().ok())
            .unwrap_or(1);
        let total = repeated(call.as_str(), passes);
        println!(rt; "{call} {total}")?;
        return Ok(());
    }
    let text = fs::read_to_string(&rt, "calendar.txt")?;
    let mut agreement = Agreement::new();
    for line in text.lines() {
        if let Some(row) = row_of(line) {
            agreement.compare(row);
        }
    }
    report(&rt, &agreement)
}

fn report(rt: &impl Print, agreement: &Agreement) -> Result<(), anyhow::Error> {
    println!(rt;
        "compared {} months, {} days; as in the table:",
        agreement.compared, agreement.days
    )?;
    println!(rt; "first and last days {}", agreement.ends)?;
    println!(rt; "months {}", agreement.months)?;
    println!(rt; "texts {}", agreement.texts)?;
    println!(rt; "weeks {}", agreement.weeks)?;
    println!(rt; "sums of days {}", agreement.later_days)?;
    println!(rt; "sums of months {}", agreement.later_months)?;
    println!(rt; "first quarters {}", agreement.quarters)?;
    println!(rt; "texts read again {}", agreement.read_again)?;
    println!(rt; "dates as jiff has them {}", agreement.as_jiff)?;
    Ok(())
}
