ghost use Rattle.std.specs.Prelude.{◌≡◌, ◌≤◌, IfOk, length};
ghost use Rattle.list_words.specs.Order.{Ascends};
ghost use Rattle.fact_kinds.specs.Facts.{goes_first};
ghost use Rattle.fact_store.specs.Kept.{facts_in};
ghost use Rattle.history_laws.specs.DayLaws.{up_to};
ghost use Rattle.history_laws.specs.RulyLaws.{IsEachOnce};
ghost use Rattle.ldar_law.specs.declared.numbers.TheConstants.{LAST_FACT_DAY, MOST_COMPONENTS};
ghost use Rattle.ldar_law.specs.Equipment.{members_of, stops_of};
ghost use Rattle.ldar_law.specs.Slices.{register_facts};
ghost use Rattle.ldar_law.specs.Units as law;
ghost use Rattle.unit_summaries.specs.Rows.{row_of};
ghost use Rattle.unit_summaries.specs.Says.{IsUnitSaid};
ghost use Rattle.unit_summaries.specs.Sound.{Are, IsRenewed};

use crate::members::known_members;
use crate::summaries::Summaries;
use crate::tallies::tallies_to;
use component_register::Register;
use fact_kinds::Memory;
use fact_store::FactStore;
use ldar_days::Day;
use ldar_law::{Stop, Tally, UnitEntry};
use std::alloc::Global;

/// The shutdowns of a process unit of a store that begin by a day, from its summary.
fn stops_by<'s>(summaries: &'s Summaries, store: &FactStore, unit: u8, day: Day) -> &'s [Stop]
    requires ordered { Ascends goes_first (facts_in store.now) }
    requires said { IsUnitSaid (facts_in store.now) unit (row_of summaries.now.units unit) }
    ensures value { result.now ≡ stops_of unit (up_to day (facts_in store.now)) }
{
    match summaries.unit(unit) {
        Some(summary) => summary.stops_on(day),
        None => unreachable!(),
    }
}

/// The counts of the quarters of a process unit from the first to one, as known on a day, from the summaries of its components.
pub fn count_anew(
    alloc: Global,
    summaries: &Summaries,
    store: &FactStore,
    register: &Register,
    entry: &UnitEntry,
    day: Day,
    quarters: u16,
) -> Result<Vec<Tally>, Memory>
    requires ordered { Ascends goes_first (facts_in store.now) }
    requires register { facts_in register.now ≡ register_facts (facts_in store.now) }
    requires once { IsEachOnce (facts_in store.now) }
    requires sound { Are (facts_in store.now) store.now.arrived (length store.now.arrived) summaries.now }
    requires renewed { IsRenewed (facts_in store.now) entry.now.unit summaries.now }
    requires startup { entry.now.startup ≤ LAST_FACT_DAY }
    requires few { length (members_of entry.now.unit (facts_in store.now)) ≤ MOST_COMPONENTS }
    ensures value { IfOk result (λ tallies. tallies.items
        ≡ law.tallies_to entry.now.startup day (law.components_of entry.now.unit (up_to day (facts_in store.now))) quarters) }
{
    let components = known_members(alloc, summaries, store, register, entry.unit, day)?;
    let stops = stops_by(summaries, store, entry.unit, day);
    tallies_to(alloc, entry.startup, quarters, day, &components, stops)
}
