//! Sums over results, so that the compiler cannot leave out computing them.

use fact_kinds::Key;
use ldar_law::{Duty, Event, Fitness, Mark, Span, Until};

/// A sum with one more result.
pub fn add(sum: u64, said: u64) -> u64 {
    sum.wrapping_mul(3).wrapping_add(said)
}

pub fn of_event(event: &Event) -> u64 {
    u64::from(event.key.day.number()) << 2
        | u64::from(event.what.is_counting()) << 1
        | u64::from(event.what.is_leak())
}

fn of_key(key: &Option<Key>) -> u64 {
    match key {
        Some(key) => u64::from(key.number) + 1,
        None => 0,
    }
}

pub fn of_span(span: &Span) -> u64 {
    let attempted = match span.attempted {
        Some(day) => u64::from(day.number()),
        None => 0,
    };
    let keys = add(of_key(&Some(span.detected)), of_key(&span.closed));
    add(keys, attempted << 1 | u64::from(span.removable))
}

pub fn of_mark(mark: &Mark) -> u64 {
    u64::from(mark.leaking) << 1 | u64::from(mark.monitored)
}

pub fn of_duty(duty: &Duty) -> u64 {
    u64::from(duty.cause) ^ u64::from(duty.due.number()) << 4 ^ of_key(&duty.met) << 24
}

pub fn of_fitness(fitness: &Fitness) -> u64 {
    match *fitness {
        Fitness::Fit => 1,
        Fitness::NoCalibration => 2,
        Fitness::GasTooHigh => 3,
        Fitness::NoPrecision => 4,
        Fitness::Voided { drift } => 5 + u64::from(drift.day.number()),
    }
}

pub fn of_until(until: &Until) -> u64 {
    match *until {
        Until::Date(day) => u64::from(day.number()),
        Until::Shutdown => 1,
        Until::WhileIsolated => 2,
        Until::NoDate => 3,
    }
}
