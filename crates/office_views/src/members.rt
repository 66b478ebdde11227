ghost use Rattle.std.specs.Prelude.{◌≡◌, IfOk};
ghost use Rattle.list_words.specs.Order.{Ascends};
ghost use Rattle.fact_kinds.specs.Facts.{is_earlier};
ghost use Rattle.ldar_law.specs.Equipment as equipment;
ghost use Rattle.office_views.specs.Components.{IsUnitOf};
ghost use Rattle.office_views.specs.Sources.{IsReady, facts_by, facts_from};
ghost use Rattle.unit_summaries.specs.Says.{SaysUnit};

use crate::source::Source;
use crate::unit::Unit;
use fact_kinds::Memory;
use ldar_law::{ElectionEntry, Stop};
use unit_summaries::{UnitSummary, known_members};

/// The summary of a process unit that is up to date.
fn summary_of<'a>(source: &Source<'a>, unit: u8) -> &'a UnitSummary
    requires ready { IsReady source.now unit }
    ensures value { SaysUnit (facts_from source.now) unit result.now }
{
    match source.summaries.unit(unit) {
        Some(summary) => summary,
        None => unreachable!(),
    }
}

/// The shutdowns of a process unit that begin by the day.
fn stops_on<'a>(source: &Source<'a>, unit: u8) -> &'a [Stop]
    requires ready { IsReady source.now unit }
    ensures value { result.now ≡ equipment.stops_of unit (facts_by source.now) }
{
    summary_of(source, unit).stops_on(source.day)
}

/// The elections of a process unit up to the day, in key order.
pub fn elections_on<'a>(source: &Source<'a>, unit: u8) -> &'a [ElectionEntry]
    requires ready { IsReady source.now unit }
    ensures value { result.now ≡ equipment.elections_of unit (facts_by source.now) }
    ensures ordered { Ascends (λ a b. is_earlier a.key b.key) result.now }
{
    summary_of(source, unit).elections_on(source.day)
}

/// What is known of a process unit on the day, from its summaries.
pub fn unit_of<'a>(source: &Source<'a>, unit: u8) -> Result<Unit<'a>, Memory>
    requires ready { IsReady source.now unit }
    ensures value { IfOk result (IsUnitOf unit (facts_by source.now)) }
{
    let components = known_members(
        source.alloc,
        source.summaries,
        source.store,
        source.register,
        unit,
        source.day,
    )?;
    Ok(Unit {
        stops: stops_on(source, unit),
        elections: elections_on(source, unit),
        components,
    })
}
