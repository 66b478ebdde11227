//! Visits: the most urgent one for each component with unmet duties.

ghost use Rattle.std.specs.Prelude.{◌≡◌, IfOk, is_some};
ghost use Rattle.ldar_law.specs.Routes as law;
ghost use Rattle.route_planner.specs.Visits.{visits_asked, earlier_of, AreEarliestDays};

use crate::chains::{chained, stops_along};
use fact_kinds::Memory;
use ldar_days::Day;
use ldar_law::Duty;
use std::alloc::Global;

/// The number of possible component numbers.
pub const NUMBERS: usize = 65_536;

/// The earlier of an optional day and another.
fn earlier(known: Option<Day>, due: Day) -> Day
    ensures value { result ≡ earlier_of known due }
{
    match known {
        Some(day) => {
            if due < day {
                return due;
            }
            day
        }
        None => due,
    }
}

/// Whether the duty is met.
fn is_done(duty: &Duty) -> bool
    ensures value { result ≡ is_some duty.now.met }
{
    duty.met.is_some()
}

/// The earliest due days of the unmet duties; place n is for component n.
fn least_days(alloc: Global, duties: &[Duty]) -> Result<Vec<Option<Day>>, Memory>
    ensures value { IfOk result (λ days. AreEarliestDays days.items (visits_asked duties.now)) }
{
    let mut days = vec![in alloc; None; NUMBERS]?;
    for duty in duties {
        if is_done(duty) {
            continue;
        }
        let number = usize::from(duty.component);
        days[number] = Some(earlier(days[number], duty.due));
    }
    Ok(days)
}

/// The components with an unmet duty, each once, by the earliest due day and then by number.
pub fn stops_in_order(alloc: Global, duties: &[Duty]) -> Result<Vec<u16>, Memory>
    ensures value { IfOk result (λ stops. stops.items ≡ law.stops_in_order duties.now) }
{
    let days = least_days(alloc, duties)?;
    let chains = chained(alloc, &days)?;
    let stops = stops_along(alloc, &chains.first, &chains.next)?;
    Ok(stops)
}
