//! The facts of a drill.

ghost use Rattle.std.specs.Prelude.{◌≡◌, ◌≤◌, ◌+◌, IfOk, vec_len};
ghost use Rattle.drill_history.specs.declared.numbers.TheConstants.{GREATEST_SEED, LARGEST_DRILL, MONTHS};
ghost use Rattle.fact_kinds.specs.declared.body.FactBody.TheVariants.{Calibration, Precision, Reading};
ghost use Rattle.fact_kinds.specs.declared.body.Purpose.TheVariants.{Routine};
ghost use Rattle.drill_history.specs.Drill as spec;

use crate::numbers::{BEGIN, FIRST_READINGS, STARTUP};
use fact_kinds::{Class, Day, Designation, Fact, FactBody, Kind, Memory, Name, Purpose, Service};
use std::alloc::Global;

/// The unit and its valves.
pub(crate) fn register_facts(alloc: Global, size: u16) -> Result<Vec<Fact>, Memory>
    requires in_range { size ≤ LARGEST_DRILL }
    ensures value { IfOk result (λ facts. facts.items ≡ spec.register_facts_of size) }
    ensures count { IfOk result (λ facts. vec_len facts ≡ size + 1) }
{
    let mut facts = Vec::new(alloc);
    facts.push(unit())?;
    for count in 0..size {
        facts.push(valve(count + 1))?;
    }
    Ok(facts)
}

/// The facts of a month, from 1 (March 2020) to 12 (February 2021).
pub(crate) fn month_facts(
    alloc: Global,
    seed: u16,
    size: u16,
    month: u16,
) -> Result<Vec<Fact>, Memory>
    requires seed { seed ≤ GREATEST_SEED }
    requires size { size ≤ LARGEST_DRILL }
    requires month { month ≤ MONTHS }
    ensures value { IfOk result (λ facts. facts.items ≡ spec.month_facts seed size month) }
    ensures count { IfOk result (λ facts. vec_len facts ≡ size + 2) }
{
    let day = Day::at(FIRST_READINGS).plus_months(u32::from(month.saturating_sub(1)));
    let mut facts = Vec::new(alloc);
    facts.push(precision(day))?;
    facts.push(calibration(day))?;
    for count in 0..size {
        facts.push(reading(day, count + 1, ppm(seed, month, count + 1)))?;
    }
    Ok(facts)
}

// The process unit.
fn unit() -> Fact
    ensures value { result ≡ spec.unit_fact }
{
    Fact {
        day: Day::at(STARTUP),
        minute: 0,
        body: FactBody::Unit {
            unit: 1,
            older: false,
            name: Name::new(b"DRILL").unwrap(),
        },
    }
}

// A valve.
fn valve(number: u16) -> Fact
    requires in_range { (1 ≤ number) × (number ≤ LARGEST_DRILL) }
    ensures value { result ≡ spec.valve_fact number }
{
    Fact {
        day: Day::at(BEGIN),
        minute: 0,
        body: FactBody::Component {
            component: number,
            unit: 1,
            kind: Kind::Valve,
            monomer: false,
            replaces: false,
            class: Class {
                service: Service::Gas,
                designation: Designation::Plain,
                plan: 0,
                month: 1,
            },
        },
    }
}

// The precision test of a month, on its day.
fn precision(day: Day) -> Fact
    ensures value { result ≡ record { day = day; minute = 1; body = Precision 1 500 (500, 500, 500) } }
{
    Fact {
        day,
        minute: 1,
        body: FactBody::Precision {
            instrument: 1,
            value: 500,
            readings: (500, 500, 500),
        },
    }
}

// The calibration of a month, on its day.
fn calibration(day: Day) -> Fact
    ensures value { result ≡ record { day = day; minute = 2; body = Calibration 1 500 } }
{
    Fact {
        day,
        minute: 2,
        body: FactBody::Calibration {
            instrument: 1,
            gas: 500,
        },
    }
}

// A reading at a valve, on the day of its month.
fn reading(day: Day, valve: u16, ppm: u32) -> Fact
    requires valve { (1 ≤ valve) × (valve ≤ LARGEST_DRILL) }
    requires ppm { ppm ≤ 519 }
    ensures value { result ≡ record { day = day; minute = 60; body = Reading valve 1 1 Routine ppm 0 } }
{
    Fact {
        day,
        minute: 60,
        body: FactBody::Reading {
            component: valve,
            instrument: 1,
            operator: 1,
            purpose: Purpose::Routine,
            ppm,
            background: 0,
        },
    }
}

// What is read at a valve in a month, in parts per million.
fn ppm(seed: u16, month: u16, valve: u16) -> u32
    ensures value { result ≡ spec.ppm_of seed month valve }
    ensures in_range { result ≤ 519 }
{
    (31 * u32::from(seed) + 17 * u32::from(valve) + 29 * u32::from(month)) % 520
}
