//! Facts of instrument 1 and component 1, with their keys.

ghost use Rattle.std.specs.Prelude.{◌≤◌};
ghost use Rattle.fact_kinds.specs.Fields.{IsFact};

use crate::words::key;
use fact_kinds::{Fact, FactBody, Key, Purpose};
use ldar_days::Day;

/// A fact with its key, at a minute of a day.
pub fn at(day: Day, minute: u16, body: FactBody) -> (Key, Fact)
    requires { IsFact (record { day = day; minute = 0; body = body }) }
{
    let fact = Fact {
        day,
        minute: 0,
        body,
    };
    (key(day, minute), fact)
}

/// Instrument 1 is calibrated with a gas; 0 means none.
pub fn calibration(day: Day, minute: u16, gas: u16) -> (Key, Fact) {
    let gas = u32::from(gas.max(1));
    at(day, minute, FactBody::Calibration { instrument: 1, gas })
}

/// Three readings, as they are in the bytes.
fn wide(readings: (u16, u16, u16)) -> (u32, u32, u32)
    ensures { (result.0 ≤ 999_999) × (result.1 ≤ 999_999) × (result.2 ≤ 999_999) }
{
    (
        u32::from(readings.0),
        u32::from(readings.1),
        u32::from(readings.2),
    )
}

/// A precision test of instrument 1 with the known value 500, at the first minute of a day.
pub fn precision(day: Day, readings: (u16, u16, u16)) -> (Key, Fact) {
    let body = FactBody::Precision {
        instrument: 1,
        value: 500,
        readings: wide(readings),
    };
    at(day, 0, body)
}

/// A drift assessment of instrument 1 with the known value 500.
pub fn drift(day: Day, minute: u16, readings: (u16, u16, u16)) -> (Key, Fact) {
    let body = FactBody::Drift {
        instrument: 1,
        value: 500,
        readings: wide(readings),
    };
    at(day, minute, body)
}

/// A routine reading at component 1 with instrument 1, at minute 600.
pub fn reading(day: Day, ppm: u16) -> (Key, Fact) {
    let body = FactBody::Reading {
        component: 1,
        instrument: 1,
        operator: 9,
        purpose: Purpose::Routine,
        ppm: u32::from(ppm),
        background: 3,
    };
    at(day, 600, body)
}
