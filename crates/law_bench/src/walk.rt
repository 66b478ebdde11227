//! Routes to the components with unmet duties.

use crate::day_at::day_after;
use crate::equipment::key_of;
use crate::said;
use fact_kinds::Key;
use ldar_law::{Duty, Route};
use route_planner::routes;
use std::alloc::{AllocError, Global};

/// The fact that met the duty at a place; every tenth duty is met.
fn met(place: u32) -> Option<Key> {
    if place % 10 == 9 {
        Some(key_of(day_after(0), 0, 1))
    } else {
        None
    }
}

/// This many monthly duties.
fn duties_of(alloc: Global, places: u32) -> Result<Vec<Duty>, AllocError> {
    let mut duties = Vec::new(alloc);
    for place in 0..places {
        duties.push(Duty {
            component: (u64::from(place) * 7_919 % 60_000 + 1) as u16,
            cause: 2,
            due: day_after((u64::from(place) * 31 % 365) as u32),
            met: met(place),
        })?;
    }
    Ok(duties)
}

/// A sum, with the stops of routes.
fn add_routes(routes: &[Route], sum: u64) -> u64 {
    let mut sum = sum;
    for route in routes {
        for stop in route.stops.as_slice() {
            sum = said::add(sum, u64::from(*stop));
        }
    }
    sum
}

/// A sum over routes of fifty stops by this many duties, planned `passes` times, or fewer if it runs out of memory.
pub fn sum_over_routes(alloc: Global, places: u32, passes: u32) -> Result<u64, AllocError> {
    let duties = duties_of(alloc, places)?;
    let mut sum = 0;
    for _ in 0..passes {
        let Ok(planned) = routes(alloc, duties.as_slice(), 50) else {
            break;
        };
        sum = add_routes(planned.as_slice(), sum);
    }
    Ok(sum)
}
