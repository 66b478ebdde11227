ghost use Rattle.std.specs.Prelude.{◌≡◌, ◌++◌, ◌≤◌, List, IfOk, OnOk};
ghost use Rattle.ldar_law.specs.declared.numbers.TheConstants.{LAST_FACT_DAY};
ghost use Rattle.ldar_law.specs.declared.delay.Stop.{Stop as SomeStop};
ghost use Rattle.ldar_law.specs.Duties as duties;
ghost use Rattle.ldar_law.specs.Skips.{skipped_to};
ghost use Rattle.ldar_law.specs.Units as law;
ghost use Rattle.unit_summaries.specs.Known.{AreInOrder, IsInOrder, all_in_law};
ghost use Rattle.office_views.specs.Asked.{AreTalliesDue};
ghost use Rattle.office_views.specs.Sources.{IsReady, facts_by};

use crate::members::unit_of;
use crate::source::Source;
use crate::tallied::quarter_at;
use crate::unit::Unit;
use fact_kinds::Memory;
use ldar_days::Day;
use ldar_law::{Duty, Tally, UnitEntry};
use monitor_calendar::duties_of;
use skip_periods::all_skipped;
use std::alloc::Global;
use unit_summaries::KnownOn;

/// Which quarters of a process unit are skipped, from the first to the one of the day (40 CFR 60.483-2a), by the counts of those before it.
fn skipped_on(
    alloc: Global,
    startup: Day,
    day: Day,
    known: &Unit<'_>,
    tallies: &[Tally],
) -> Result<Vec<bool>, Memory>
    requires startup { startup ≤ LAST_FACT_DAY }
    ensures value { IfOk result (λ skipped. skipped.items ≡ skipped_to tallies.now known.now.elections.now startup (law.quarter_at startup day)) }
{
    all_skipped(
        alloc,
        tallies,
        known.elections,
        startup,
        quarter_at(startup, day),
    )
}

/// Adds the duties at a component.
fn add_duties(
    alloc: Global,
    all: &mut Vec<Duty>,
    startup: Day,
    skipped: &[bool],
    day: Day,
    component: &KnownOn<'_>,
) -> Result<(), Memory>
    requires startup { startup ≤ LAST_FACT_DAY }
    requires ordered { IsInOrder component.now }
    ensures put { OnOk result (all.new.items ≡ all.old.items
        ++ duties.duties_of component.now.item component.now.classes.now startup component.now.events.now skipped.now day) }
{
    let own = duties_of(
        alloc,
        &component.item,
        component.classes,
        startup,
        component.events,
        skipped,
        day,
    )?;
    all.extend_from_slice(&own)
}

/// The duties at some components, by component, cause, due day and event. No tag is made for them.
fn duties_at(
    alloc: Global,
    startup: Day,
    skipped: &[bool],
    day: Day,
    components: &[KnownOn<'_>],
) -> Result<Vec<Duty>, Memory>
    requires startup { startup ≤ LAST_FACT_DAY }
    requires ordered { AreInOrder components.now }
    ensures value { (stops : List SomeStop) → IfOk result (λ all. all.items
        ≡ law.due_list startup day skipped.now (all_in_law stops components.now)) }
{
    let mut all = Vec::new(alloc);
    for component in components {
        add_duties(alloc, &mut all, startup, skipped, day, component)?;
    }
    Ok(all)
}

/// What has to be done at the components of a process unit, by component, cause, due day and event (40 CFR 60.482-1a to 60.482-11a).
/// `tallies` are the counts by which quarters are skipped.
pub fn duties_of_unit(
    source: &Source<'_>,
    unit: &UnitEntry,
    tallies: &[Tally],
) -> Result<Vec<Duty>, Memory>
    requires ready { IsReady source.now unit.now.unit }
    requires startup { unit.now.startup ≤ LAST_FACT_DAY }
    requires tallies { AreTalliesDue unit.now source.now.day (facts_by source.now) tallies.now }
    ensures value { IfOk result (λ all. all.items ≡ law.duties_of_unit unit.now source.now.day (facts_by source.now)) }
{
    let known = unit_of(source, unit.unit)?;
    let skipped = skipped_on(source.alloc, unit.startup, source.day, &known, tallies)?;
    duties_at(
        source.alloc,
        unit.startup,
        &skipped,
        source.day,
        &known.components,
    )
}
