//! The facts of a component's history.

ghost use Rattle.std.specs.Prelude.{◌≤◌};

use crate::day_at::{SIXTEEN_YEARS, day_at};
use fact_kinds::{Fact, FactBody, Kind, Purpose, VisualState};
use ldar_days::Day;

/// A kind of component and its history.
#[derive(Clone, Copy, PartialEq, Eq)]
pub enum History {
    /// A valve that leaks now and then, for sixteen years.
    Valve,
    /// The same valve, for one year.
    Year,
    /// A pump with visual inspections.
    Pump,
    /// A valve that leaks at each reading and is never repaired.
    Unrepaired,
    /// A valve with leaks, delays and readings below the leak definition on one day.
    Batch,
    /// A pump that drips at each visual inspection of a year and is never monitored.
    Drips,
}

impl History {
    /// The history that a word names; `Valve` for any other word.
    pub fn of(word: &str) -> History {
        match word {
            "year" => History::Year,
            "pump" => History::Pump,
            "unrepaired" => History::Unrepaired,
            "batch" => History::Batch,
            "drips" => History::Drips,
            _ => History::Valve,
        }
    }

    /// The number of days of the history.
    pub fn days(self) -> u32 {
        match self {
            History::Year => 365,
            History::Drips => 365,
            _ => SIXTEEN_YEARS,
        }
    }

    /// The number of quarters of the process unit that a view at its end needs.
    pub fn quarters(self) -> u16 {
        match self {
            History::Year => 6,
            History::Drips => 6,
            _ => 66,
        }
    }

    /// The kind of the component.
    pub fn kind(self) -> Kind {
        match self {
            History::Pump => Kind::Pump,
            History::Drips => Kind::Pump,
            _ => Kind::Valve,
        }
    }

    /// The fact at a place in a history of this length.
    pub fn fact(self, number: u32, place: u32, places: u32) -> Fact {
        let day = day_at(place, places, self.days());
        match self {
            History::Valve => self.fact_of_a_valve(number, place, places),
            History::Year => self.fact_of_a_valve(number, place, places),
            History::Pump => fact_of_a_pump(number, place, day),
            History::Unrepaired => reading(number, day, Purpose::Routine, 700),
            History::Batch => fact_of_a_batch(number, place, places),
            History::Drips => look(number, day, VisualState::Drips),
        }
    }

    /// The number of facts since the valve leaked, and whether its repair is attempted. It leaks once in sixteen facts. In its first
    /// year it leaks once in twelve facts, which include the follow-up, so twice the facts have twice of everything.
    fn since_leak(self, number: u32, place: u32) -> (u32, bool) {
        if matches!(self, History::Year) {
            let at = place.wrapping_add(number % 8);
            return (at.wrapping_add(4) % 12, number % 2 == 0);
        }
        let at = number.wrapping_add(place);
        (at.wrapping_add(6) % 16, at / 16 % 2 == 0)
    }

    /// A reading of a valve, now and then a leak. A leak is followed by an attempt and a reading, or by a reading and a delay.
    fn fact_of_a_valve(self, number: u32, place: u32, places: u32) -> Fact {
        let day = day_at(place, places, self.days());
        let (since, is_attempted) = self.since_leak(number, place);
        match since {
            0 => reading(number, day, Purpose::Routine, 700),
            1 => {
                let soon = self.day_before(place, 1, places).plus_days(2);
                if is_attempted {
                    attempt(number, soon)
                } else {
                    reading(number, soon, Purpose::FollowUp, 100)
                }
            }
            2 => {
                let soon = self.day_before(place, 2, places).plus_days(4);
                if is_attempted {
                    reading(number, soon, Purpose::FollowUp, 100)
                } else {
                    delay(number, soon)
                }
            }
            _ => reading(number, day, Purpose::Routine, 100),
        }
    }

    /// The day of the place `before` places earlier.
    fn day_before(self, place: u32, before: u32, places: u32) -> Day {
        day_at(place.saturating_sub(before), places, self.days())
    }
}

/// A visual inspection of a pump, or now and then a reading or an attempt.
fn fact_of_a_pump(number: u32, place: u32, day: Day) -> Fact {
    match number.wrapping_add(place) % 24 {
        0 | 4 | 8 | 12 | 16 | 20 => reading(number, day, Purpose::Routine, 1_000),
        5 => look(number, day, VisualState::Drips),
        6 => reading(number, day, Purpose::FollowUp, 1_000),
        13 => look(number, day, VisualState::Designated),
        14 => attempt(number, day),
        _ => look(number, day, VisualState::Dry),
    }
}

/// A leak, a delay or a reading below the leak definition, all on one day.
fn fact_of_a_batch(number: u32, place: u32, places: u32) -> Fact {
    let day = day_at(0, places, 0);
    let third = places / 3;
    if place < third {
        return reading(number, day, Purpose::Routine, 700);
    }
    if place < third.saturating_mul(2) {
        return delay(number, day);
    }
    reading(number, day, Purpose::FollowUp, 100)
}

/// The number of a component, from its place, which counts from 0.
pub fn component_number(place: u32) -> u16
    ensures in_range { (1 ≤ result) × (result ≤ 60_000) }
{
    (place % 60_000 + 1) as u16
}

fn reading(number: u32, day: Day, purpose: Purpose, ppm: u32) -> Fact
    requires { ppm ≤ 999_999 }
{
    Fact {
        day,
        minute: 600,
        body: FactBody::Reading {
            component: component_number(number),
            instrument: 1,
            operator: 1,
            purpose,
            ppm,
            background: 2,
        },
    }
}

fn look(number: u32, day: Day, state: VisualState) -> Fact {
    Fact {
        day,
        minute: 600,
        body: FactBody::Visual {
            component: component_number(number),
            state,
        },
    }
}

fn attempt(number: u32, day: Day) -> Fact {
    Fact {
        day,
        minute: 600,
        body: FactBody::Attempt {
            component: component_number(number),
            complete: false,
        },
    }
}

/// A delay until a process unit shutdown.
fn delay(number: u32, day: Day) -> Fact {
    Fact {
        day,
        minute: 600,
        body: FactBody::Delay {
            component: component_number(number),
            ground: 1,
            signer: 1,
            expected: None,
        },
    }
}
