//! The batches that are adopted, and the days of their facts.

ghost use Rattle.std.specs.Prelude.{◌≤◌};
ghost use Rattle.ldar_days.specs.declared.quarter.TheConstants.{LAST_STARTUP};

use fact_kinds::{Batch, Class, Designation, Fact, FactBody, Kind, Memory, Name, Purpose, Service};
use ldar_days::Day;
use std::alloc::Global;

/// The number of handhelds that read the valves each month, and the number of valves that each of them reads.
pub const HANDHELDS: u32 = 40;

const READ: u32 = 500;

/// The number of valves. The register also has the unit, an election, two shutdowns, and another unit with one valve.
const VALVES: u32 = 20_000;

pub const ENTRIES: u32 = 20_006;

/// The handheld whose readings arrive late.
const LATE: u16 = 41;

/// 2020-01-15, the startup of the unit, and 2020-02-10, the first day of its monitoring.
const STARTUP: u32 = 18_276;

const FIRST: u32 = 18_302;

/// 2022-07-01, from which quarters may be skipped, and 2022-04-01, the day of the notice.
const ELECTION: u32 = 19_174;

const NOTIFIED: u32 = 19_083;

/// The startup of the unit.
pub fn startup() -> Day
    ensures in_range { result ≤ LAST_STARTUP }
{
    Day::at(STARTUP)
}

/// The day of the views after this many months.
pub fn view_day(months: u32) -> Day {
    Day::at(FIRST)
        .plus_months(months.saturating_sub(1))
        .plus_days(15)
}

/// The day of the views after this many months, and days in quarters before it.
pub fn day_in_turn(months: u32, turn: u32) -> Day {
    view_day(months.saturating_sub(turn.saturating_mul(3)))
}

/// The batch of the register with this number, from 0; `None` after the last.
pub fn register_batch(alloc: Global, number: u32) -> Result<Option<Batch>, Memory> {
    let first = number.saturating_mul(512);
    let mut facts = Vec::new(alloc);
    for place in first..ENTRIES.min(first.saturating_add(512)) {
        if let Some(fact) = entry(place) {
            facts.push(fact)?;
        }
    }
    Ok(Batch::new(0, number, facts))
}

/// The entry of the register at a place.
fn entry(place: u32) -> Option<Fact> {
    if place == 0 {
        return unit(1);
    }
    if place <= VALVES {
        return Some(valve(place, 1));
    }
    if place == VALVES + 1 {
        return Some(election());
    }
    if place <= VALVES + 3 {
        return Some(shutdown(place % 2 * 400));
    }
    if place == VALVES + 4 {
        return unit(2);
    }
    Some(valve(VALVES + 1, 2))
}

fn unit(unit: u8) -> Option<Fact>
    requires in_range { (1 ≤ unit) × (unit ≤ 64) }
{
    Some(Fact {
        day: Day::at(STARTUP),
        minute: 0,
        body: FactBody::Unit {
            unit,
            older: false,
            name: Name::new(b"BENCH")?,
        },
    })
}

/// The number of the valve at a place, from 0.
fn valve_at(place: u32) -> u16
    ensures in_range { (1 ≤ result) × (result ≤ 60_000) }
{
    (place % 60_000 + 1) as u16
}

/// The number of a handheld in facts, and of its instrument; `handheld` counts from 0.
fn number_of(handheld: u32) -> u16
    ensures in_range { 1 ≤ result }
{
    (handheld % HANDHELDS + 1) as u16
}

/// The valve of a unit with this number, from 1.
fn valve(number: u32, unit: u8) -> Fact
    requires in_range { (1 ≤ unit) × (unit ≤ 64) }
{
    let class = Class {
        service: Service::Gas,
        designation: Designation::Plain,
        plan: 0,
        month: (number % 3 + 1) as u8,
    };
    Fact {
        day: Day::at(STARTUP),
        minute: 0,
        body: FactBody::Component {
            component: valve_at(number.saturating_sub(1)),
            unit,
            kind: Kind::Valve,
            monomer: false,
            replaces: false,
            class,
        },
    }
}

fn election() -> Fact {
    Fact {
        day: Day::at(ELECTION),
        minute: 0,
        body: FactBody::Election {
            unit: 1,
            mode: 1,
            notified: Day::at(NOTIFIED),
        },
    }
}

/// A shutdown of ten days that begins this many days after the election.
fn shutdown(days: u32) -> Fact {
    Fact {
        day: Day::at(ELECTION).plus_days(days),
        minute: 0,
        body: FactBody::Shutdown { unit: 1, days: 10 },
    }
}

/// The batch of a handheld in a month, both from 0: the tests of its instrument, its readings, and the follow-up of its leaks.
pub fn monthly_batch(alloc: Global, month: u32, handheld: u32) -> Result<Option<Batch>, Memory> {
    let number = number_of(handheld);
    let day = Day::at(FIRST).plus_months(month).plus_days(handheld % 10);
    let first = handheld % HANDHELDS * READ;
    let mut facts = vec![in alloc; precision(day, handheld), calibration(day, handheld)]?;
    for place in first..first + READ {
        facts.push(reading(day, number, place, ppm(place, month)))?;
    }
    for place in first..first + READ {
        if is_leak(place, month) {
            facts.push(follow_up(day, place))?;
        }
    }
    Ok(Batch::new(number, month, facts))
}

/// The batch with this number, from 0, of at most 512 late readings, each of another valve, on the first day of monitoring.
pub fn late_batch(alloc: Global, number: u32, readings: u32) -> Result<Option<Batch>, Memory> {
    let first = number.wrapping_mul(512);
    let mut facts = Vec::new(alloc);
    for index in 0..readings.min(512) {
        let place = first.wrapping_add(index) % VALVES;
        facts.push(reading(Day::at(FIRST), number_of(0), place, 0))?;
    }
    Ok(Batch::new(LATE, number, facts))
}

fn precision(day: Day, handheld: u32) -> Fact {
    Fact {
        day,
        minute: 60,
        body: FactBody::Precision {
            instrument: number_of(handheld),
            value: 500,
            readings: (500, 500, 500),
        },
    }
}

fn calibration(day: Day, handheld: u32) -> Fact {
    Fact {
        day,
        minute: 61,
        body: FactBody::Calibration {
            instrument: number_of(handheld),
            gas: 500,
        },
    }
}

/// Whether a valve leaks in a month: one in fifty does.
fn is_leak(place: u32, month: u32) -> bool {
    place.wrapping_add(month.wrapping_mul(7)) % 50 == 0
}

/// The reading of a valve in a month, in ppm.
fn ppm(place: u32, month: u32) -> u32 {
    if is_leak(place, month) {
        return 700;
    }
    place.wrapping_mul(31).wrapping_add(month.wrapping_mul(17)) % 400
}

/// The reading of the valve at a place, from 0.
fn reading(day: Day, number: u16, place: u32, ppm: u32) -> Fact {
    Fact {
        day,
        minute: (120 + place % 600) as u16,
        body: FactBody::Reading {
            component: valve_at(place),
            instrument: number,
            operator: 1,
            purpose: Purpose::Routine,
            ppm: ppm % 1_000,
            background: 2,
        },
    }
}

/// The follow-up of a leak on its day: a delay until a shutdown for one leak in five, and otherwise an attempt.
fn follow_up(day: Day, place: u32) -> Fact {
    if place / 50 % 5 == 4 {
        return delay(day, place);
    }
    Fact {
        day,
        minute: 1_000,
        body: FactBody::Attempt {
            component: valve_at(place),
            complete: false,
        },
    }
}

fn delay(day: Day, place: u32) -> Fact {
    Fact {
        day,
        minute: 1_000,
        body: FactBody::Delay {
            component: valve_at(place),
            ground: 1,
            signer: 9,
            expected: Some(day.plus_days(90)),
        },
    }
}
