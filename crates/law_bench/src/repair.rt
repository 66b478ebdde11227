//! The repair of a leak with many delays.

use crate::day_at::{SIXTEEN_YEARS, day_after, day_at};
use crate::equipment::key_of;
use crate::said;
use delay_of_repair::repair_of;
use ldar_days::Day;
use ldar_law::{DelayEntry, Stop};
use std::alloc::{AllocError, Global};

/// The ground of a delay: a shutdown, a second shutdown, a new seal system, or a withdrawal.
fn ground_at(place: u32) -> u8 {
    match place % 4 {
        0 => 1,
        1 => 5,
        2 => 4,
        _ => 0,
    }
}

/// Delays of the first year.
fn delays_of(alloc: Global, places: u32) -> Result<Vec<DelayEntry>, AllocError> {
    let mut delays = Vec::new(alloc);
    for place in 0..places {
        delays.push(DelayEntry {
            key: key_of(day_at(place, places, 365), 0, place),
            ground: ground_at(place),
            signer: 1,
            expected: None,
        })?;
    }
    Ok(delays)
}

/// Attempts of sixteen years.
fn attempts_of(alloc: Global, places: u32) -> Result<Vec<Day>, AllocError> {
    let mut attempts = Vec::new(alloc);
    for place in 0..places {
        attempts.push(day_at(place, places, SIXTEEN_YEARS))?;
    }
    Ok(attempts)
}

/// Shutdowns of sixteen years.
fn stops_of(alloc: Global, places: u32) -> Result<Vec<Stop>, AllocError> {
    let mut stops = Vec::new(alloc);
    for place in 0..places {
        let first = day_at(place, places, SIXTEEN_YEARS).plus_days(100);
        stops.push(Stop {
            first,
            last: first.plus_days(5),
        })?;
    }
    Ok(stops)
}

/// A sum, with the repair of a leak that was detected on a day.
fn add_repair(
    detected: Day,
    delays: &[DelayEntry],
    attempts: &[Day],
    stops: &[Stop],
    sum: u64,
) -> u64 {
    let repair = repair_of(detected, delays, attempts, stops);
    let counted = match repair.counted {
        Some(place) => (place as u64).saturating_add(1),
        None => 0,
    };
    said::add(said::add(sum, said::of_until(&repair.due)), counted)
}

/// A sum over the repairs of several leaks, each with this many delays and attempts, and one shutdown for ten delays.
pub fn sum_over_repairs(alloc: Global, places: u32, passes: u32) -> Result<u64, AllocError> {
    let delays = delays_of(alloc, places)?;
    let attempts = attempts_of(alloc, places)?;
    let stops = stops_of(alloc, places / 10)?;
    let mut sum = 0;
    for pass in 0..passes {
        sum = add_repair(
            day_after(pass % 7),
            delays.as_slice(),
            attempts.as_slice(),
            stops.as_slice(),
            sum,
        );
    }
    Ok(sum)
}
