ghost use Rattle.std.specs.Prelude.{◌≡◌, ◌≤◌, IfOk};
ghost use Rattle.ldar_law.specs.declared.numbers.TheConstants.{LAST_FACT_DAY};
ghost use Rattle.ldar_law.specs.Texts as texts;
ghost use Rattle.ldar_law.specs.Units as units;
ghost use Rattle.office_views.specs.Asked.{AreTalliesDue};
ghost use Rattle.office_views.specs.Sources.{IsReady, facts_by};

use crate::due::duties_of_unit;
use crate::source::Source;
use fact_kinds::Memory;
use ldar_law::{Route, Tally, Text, UnitEntry};
use route_planner::{RouteError, routes};
use view_texts::routes_text;

/// The routes to the components of a process unit that have something to be done, each of at least one stop.
fn routes_of_unit(
    source: &Source<'_>,
    unit: &UnitEntry,
    stops: u16,
    tallies: &[Tally],
) -> Result<Vec<Route>, Memory>
    requires ready { IsReady source.now unit.now.unit }
    requires startup { unit.now.startup ≤ LAST_FACT_DAY }
    requires tallies { AreTalliesDue unit.now source.now.day (facts_by source.now) tallies.now }
    requires stops { 1 ≤ stops }
    ensures value { IfOk result (λ found. found.items ≡ units.routes_of_unit unit.now source.now.day (facts_by source.now) stops) }
{
    let duties = duties_of_unit(source, unit, tallies)?;
    match routes(source.alloc, &duties, stops) {
        Ok(found) => Ok(found),
        Err(RouteError::Memory) => Err(Memory),
        Err(RouteError::NoStops) => unreachable!(),
    }
}

/// The text of the routes, each of at least one stop.
pub fn route_on(
    source: &Source<'_>,
    unit: u16,
    entry: &UnitEntry,
    stops: u16,
    tallies: &[Tally],
) -> Result<Text, Memory>
    requires ready { IsReady source.now entry.now.unit }
    requires startup { entry.now.startup ≤ LAST_FACT_DAY }
    requires tallies { AreTalliesDue entry.now source.now.day (facts_by source.now) tallies.now }
    requires stops { 1 ≤ stops }
    ensures value { IfOk result (λ text. text
        ≡ texts.route_text unit source.now.day stops (units.routes_of_unit entry.now source.now.day (facts_by source.now) stops)) }
{
    let found = routes_of_unit(source, entry, stops, tallies)?;
    routes_text(source.alloc, unit, source.day, stops, &found)
}
