ghost use Rattle.std.specs.Prelude.{◌≡◌, ◌≤◌, IfOk, length, nat_eq, not};
ghost use Rattle.fact_store.specs.Kept.{facts_in};
ghost use Rattle.history_laws.specs.DayLaws.{up_to};
ghost use Rattle.ldar_law.specs.declared.numbers.TheConstants.{LAST_FACT_DAY};
ghost use Rattle.ldar_law.specs.Equipment.{elections_of};
ghost use Rattle.ldar_law.specs.Shown as law;
ghost use Rattle.ldar_law.specs.Units as units;
ghost use Rattle.office_views.specs.Answers.{IsView};
ghost use Rattle.office_views.specs.Asked.{AreTalliesDue, AreTalliesOf};
ghost use Rattle.office_views.specs.Sources.{AreReady, IsReady, facts_by};
ghost use Rattle.unit_summaries.specs.Sound.{Are, IsRenewed};

use crate::members::elections_on;
use crate::source::Source;
use component_register::Register;
use fact_kinds::Memory;
use fact_store::FactStore;
use ldar_days::{Day, quarter_of};
use ldar_law::{Request, Tally, UnitEntry};
use std::alloc::Global;
use unit_summaries::Summaries;

/// The number of the quarter in which a day lies; 0 before the first.
pub fn quarter_at(startup: Day, day: Day) -> u16
    requires startup { startup ≤ LAST_FACT_DAY }
    ensures value { result ≡ units.quarter_at startup day }
{
    match quarter_of(startup, day.month()) {
        Some(quarter) => quarter,
        None => 0,
    }
}

/// Whether a program of skip periods was elected for a process unit by a day.
fn is_elected(source: &Source<'_>, unit: u8) -> bool
    requires ready { IsReady source.now unit }
    ensures value { result ≡ not (nat_eq (length (elections_of unit (facts_by source.now))) 0) }
{
    !elections_on(source, unit).is_empty()
}

/// The counts by which quarters of a process unit are skipped on a day: none if no program of skip periods was elected.
pub fn tallies_due(
    alloc: Global,
    store: &FactStore,
    register: &Register,
    summaries: &mut Summaries,
    entry: &UnitEntry,
    day: Day,
) -> Result<Vec<Tally>, Memory>
    requires ready { AreReady store.now register.now summaries.old }
    requires renewed { IsRenewed (facts_in store.now) entry.now.unit summaries.old }
    requires startup { entry.now.startup ≤ LAST_FACT_DAY }
    ensures value { IfOk result (λ tallies. AreTalliesDue entry.now day (up_to day (facts_in store.now)) tallies.items) }
    ensures sound { Are (facts_in store.now) store.now.arrived (length store.now.arrived) summaries.new }
    ensures components { summaries.new.components ≡ summaries.old.components }
    ensures units { summaries.new.units ≡ summaries.old.units }
    ensures answered { summaries.new.answered ≡ summaries.old.answered }
{
    let source = Source {
        alloc,
        store,
        register,
        summaries,
        day,
    };
    if !is_elected(&source, entry.unit) {
        return Ok(Vec::new(alloc));
    }
    let before = quarter_at(entry.startup, day).saturating_sub(1);
    summaries.tallies_on(store, register, entry, day, before)
}

/// The counts of quarters that a view of a process unit needs: those up to the quarter that the percent view asks, or those by which
/// quarters are skipped, and none for the other views.
pub fn tallies_shown(
    alloc: Global,
    store: &FactStore,
    register: &Register,
    summaries: &mut Summaries,
    entry: &UnitEntry,
    request: &Request,
) -> Result<Vec<Tally>, Memory>
    requires view { IsView request.now }
    requires ready { AreReady store.now register.now summaries.old }
    requires renewed { IsRenewed (facts_in store.now) entry.now.unit summaries.old }
    requires startup { entry.now.startup ≤ LAST_FACT_DAY }
    ensures value { IfOk result (λ tallies. AreTalliesOf request.now entry.now (up_to (law.view_day request.now) (facts_in store.now)) tallies.items) }
    ensures sound { Are (facts_in store.now) store.now.arrived (length store.now.arrived) summaries.new }
    ensures components { summaries.new.components ≡ summaries.old.components }
    ensures units { summaries.new.units ≡ summaries.old.units }
    ensures answered { summaries.new.answered ≡ summaries.old.answered }
{
    match request {
        Request::Percent { quarter, day, .. } => summaries.tallies_on(
            store, register, entry, *day, *quarter,
        ),
        Request::Due { day, .. } => tallies_due(alloc, store, register, summaries, entry, *day),
        Request::Route { day, .. } => tallies_due(alloc, store, register, summaries, entry, *day),
        Request::Sync(_) | Request::Tags { .. } | Request::Delays { .. } | Request::Report { .. } =>
            Ok(Vec::new(alloc)),
    }
}
