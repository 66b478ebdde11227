ghost use Rattle.std.specs.Prelude.{◌≡◌, ◌<◌, ◌↔◌, IfOk, IsErrOf, map};
ghost use Rattle.list_words.specs.Parts.{cut};
ghost use Rattle.ldar_law.specs.Routes as law;
ghost use Rattle.route_planner.specs.Visits.{route_through};
ghost use Rattle.route_planner.specs.declared.error.RouteError.{RouteError};

use crate::error::RouteError;
use crate::visits::stops_in_order;
use fact_kinds::Memory;
use ldar_law::{Duty, Items, Route};
use std::alloc::Global;

/// Routes of `stops` stops each through components in this order; the last one may be shorter.
fn routes_through(alloc: Global, components: &[u16], stops: usize) -> Result<Vec<Route>, Memory>
    requires { 0 < stops }
    ensures value { IfOk result (λ routes. routes.items ≡ map route_through (cut stops components.now)) }
{
    let mut routes = Vec::new(alloc);
    let mut rest = components;
    while !rest.is_empty() {
        let (part, others) = rest.split_at(rest.len().min(stops));
        routes.push(Route {
            stops: Items::new(Vec::from_slice(alloc, part)?),
        })?;
        rest = others;
    }
    Ok(routes)
}

/// Routes to the components with an unmet duty, each component once, ordered by the earliest due day of its unmet duties
/// and then by number. Each route has `stops` stops; the last one may have fewer. The errors are `stops` = 0 and out of memory.
#[tactic(auto, unfolding(ldar_law::specs::Routes::routes_of))]
pub fn routes(alloc: Global, duties: &[Duty], stops: u16) -> Result<Vec<Route>, RouteError>
    ensures value { IfOk result (λ routes. routes.items ≡ law.routes_of duties.now stops) }
    ensures cause { IsErrOf result RouteError.NoStops ↔ (stops ≡ 0) }
{
    if stops == 0 {
        return Err(RouteError::NoStops);
    }
    let components = stops_in_order(alloc, duties)?;
    Ok(routes_through(alloc, &components, usize::from(stops))?)
}
