//! The facts that are judged.

use fact_kinds::{Batch, Class, Designation, Fact, FactBody, Kind, Memory, Name, Purpose, Service};
use ldar_days::Day;
use std::alloc::{AllocError, Global};

/// The kind of the facts.
#[derive(Clone, Copy, PartialEq, Eq)]
pub enum FactKind {
    /// Readings, with a calibration at the head of each batch.
    Readings,
    /// Entries of valves.
    Import,
    /// Classes that make 500 of 20,000 valves difficult to monitor, each of a day of its own in its batch.
    Difficult,
}

impl FactKind {
    /// The kind with this name, or an import for any other word.
    pub fn of(word: &str) -> FactKind {
        match word {
            "readings" => FactKind::Readings,
            "difficult" => FactKind::Difficult,
            _ => FactKind::Import,
        }
    }
}

/// 2020-01-15, from which the valves are in service.
const BEGIN: u32 = 18_276;

fn unit() -> Option<Fact> {
    Some(Fact {
        day: Day::at(BEGIN),
        minute: 0,
        body: FactBody::Unit {
            unit: 1,
            older: false,
            name: Name::new(b"CRUDE")?,
        },
    })
}

/// A valve, by its place from 0.
fn valve(place: u32, is_difficult: bool) -> Fact {
    let designation = if is_difficult {
        Designation::Difficult
    } else {
        Designation::Plain
    };
    Fact {
        day: Day::at(BEGIN),
        minute: 0,
        body: FactBody::Component {
            component: (place % 60_000 + 1) as u16,
            unit: 1,
            kind: Kind::Valve,
            monomer: false,
            replaces: false,
            class: Class {
                service: Service::Gas,
                designation,
                plan: 0,
                month: 1,
            },
        },
    }
}

/// A class that makes a valve difficult to monitor.
fn difficult(place: u32) -> Fact {
    Fact {
        day: Day::at(BEGIN + place % 1_400),
        minute: (place % 1_440) as u16,
        body: FactBody::Class {
            component: (place % 500 + 1) as u16,
            class: Class {
                service: Service::Gas,
                designation: Designation::Difficult,
                plan: 0,
                month: 1,
            },
        },
    }
}

/// A reading, or the calibration of its instrument.
fn reading(place: u32) -> Fact {
    let instrument = (place / 512 % 200 + 1) as u16;
    let body = if place % 512 == 0 {
        FactBody::Calibration {
            instrument,
            gas: 500,
        }
    } else {
        FactBody::Reading {
            component: (place % 20_000 + 1) as u16,
            instrument,
            operator: 1,
            purpose: Purpose::Routine,
            ppm: place % 1_000,
            background: 2,
        }
    };
    Fact {
        day: Day::at(19_000 + place / 1_024 % 10_000),
        minute: (place % 1_440) as u16,
        body,
    }
}

/// The first entries in the register: the unit, and, but for an import, its 20,000 valves.
pub fn first_entries(alloc: Global, sort: FactKind) -> Result<Vec<Fact>, AllocError> {
    let mut facts = Vec::new(alloc);
    if let Some(fact) = unit() {
        facts.push(fact)?;
    }
    if sort != FactKind::Import {
        for place in 0..20_000 {
            facts.push(valve(place, false))?;
        }
    }
    Ok(facts)
}

/// Batch `number` (from 0) of those that `facts` facts fill, or `None` past the last one.
pub fn batch_at(
    alloc: Global,
    sort: FactKind,
    number: u32,
    facts: u32,
) -> Result<Option<Batch>, Memory> {
    let first = number.saturating_mul(512);
    let mut some = Vec::new(alloc);
    for place in first..facts.min(first.saturating_add(512)) {
        some.push(match sort {
            FactKind::Readings => reading(place),
            FactKind::Import => valve(place, place % 35 == 34),
            FactKind::Difficult => difficult(place),
        })?;
    }
    let handheld = match sort {
        FactKind::Readings => (number % 200 + 1) as u16,
        FactKind::Import | FactKind::Difficult => 0,
    };
    Ok(Batch::new(handheld, number, some))
}
