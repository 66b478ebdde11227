//! What is kept of a process unit when the summary of one of its components is made anew: the component is counted anew, the others stay.

ghost use Rattle.std.specs.Prelude.{◌≡◌, ℕ, ◌≤◌, None, length, option_and_then, option_map, Contains, IfOk, IfSome, OnOk};
ghost use Rattle.fact_store.specs.Kept.{facts_in};
ghost use Rattle.history_laws.specs.RulyLaws.{IsEachOnce};
ghost use Rattle.ldar_law.specs.declared.numbers.TheConstants.{LAST_FACT_DAY};
ghost use Rattle.ldar_law.specs.Equipment.{members_of};
ghost use Rattle.ldar_law.specs.Tallies.{with_mark};
ghost use Rattle.touched_readings.specs.Windows.{AreByDay};
ghost use Rattle.unit_summaries.specs.Kept.{AreCounted, AreWith, Changes, IsShown, IsWith, Recounts, known_from, marks_by};
ghost use Rattle.unit_summaries.specs.Known.{IsOrderly};
ghost use Rattle.unit_summaries.specs.Rows.{PutsRow, Rows};

use crate::kept::DayTallies;
use crate::known::stops_to;
use crate::reads::Lists;
use crate::summary::{Summary, UnitSummary};
use crate::table::Table;
use crate::tallies::marks_of;
use fact_kinds::Memory;
use ldar_days::Day;
use ldar_law::{Mark, Stop, Tally};
use std::alloc::Global;

/// Nothing in each of `quarters` quarters.
fn no_marks(alloc: Global, quarters: u16) -> Result<Vec<Mark>, Memory>
    ensures value { IfOk result (λ marks. (startup day : ℕ) → marks.items ≡ marks_by startup day None quarters) }
{
    let none = Mark {
        leaking: false,
        monitored: false,
    };
    let marks = vec![in alloc; none; usize::from(quarters)]?;
    Ok(marks)
}

/// What a component adds to the counts of each quarter up to one, by its summary and the shutdowns of its process unit.
fn marks_on(
    alloc: Global,
    startup: Day,
    quarters: u16,
    day: Day,
    summary: &Summary,
    stops: &[Stop],
) -> Result<Vec<Mark>, Memory>
    requires startup { startup ≤ LAST_FACT_DAY }
    requires orderly { IsOrderly summary.now }
    requires stops { AreByDay (λ stop. stop.first) stops.now }
    ensures value { IfOk result (λ marks. marks.items ≡ marks_by startup day (known_from day stops.now summary.now) quarters) }
{
    match summary.known_on(day) {
        Some(known) => marks_of(alloc, startup, quarters, day, &known, stops_to(stops, day)),
        None => no_marks(alloc, quarters),
    }
}

/// .. by its summary so far, if there is one.
fn marks_before(
    alloc: Global,
    startup: Day,
    quarters: u16,
    day: Day,
    summary: Option<&Summary>,
    stops: &[Stop],
) -> Result<Vec<Mark>, Memory>
    requires startup { startup ≤ LAST_FACT_DAY }
    requires orderly { IfSome summary (λ s. IsOrderly s.now) }
    requires stops { AreByDay (λ stop. stop.first) stops.now }
    ensures value { IfOk result (λ marks. marks.items
        ≡ marks_by startup day (option_and_then (known_from day stops.now) (option_map (λ s. s.now) summary.entry)) quarters) }
{
    match summary {
        Some(summary) => marks_on(alloc, startup, quarters, day, summary, stops),
        None => no_marks(alloc, quarters),
    }
}

/// The counts with the second mark of a valve in place of the first.
fn changed(tally: Tally, first: Mark, second: Mark) -> Tally
    requires counted { IsWith first tally }
    ensures value { with_mark result first ≡ with_mark tally second }
{
    let mut tally = tally;
    tally.remove(first);
    tally.add(second);
    tally
}

/// Counts at each place the second mark in place of the first.
fn change_marks(tallies: &mut Vec<Tally>, first: &[Mark], second: &[Mark])
    requires first { length first.now ≡ length tallies.old.items }
    requires second { length second.now ≡ length tallies.old.items }
    requires counted { AreWith first.now tallies.old.items }
    ensures value { Changes first.now second.now tallies.old.items tallies.new.items }
{
    for place in 0..first.len() {
        tallies[place] = changed(tallies[place], first[place], second[place]);
    }
}

/// Counts a component anew on a kept day, if it is a day of this process unit.
fn recount_day(
    alloc: Global,
    kept: &mut DayTallies,
    unit: u8,
    first: Option<&Summary>,
    second: &Summary,
    stops: &[Stop],
) -> Result<(), Memory>
    requires startup { kept.old.startup ≤ LAST_FACT_DAY }
    requires long { length kept.old.tallies.items ≡ kept.old.quarters }
    requires first { IfSome first (λ s. IsOrderly s.now) }
    requires second { IsOrderly second.now }
    requires stops { AreByDay (λ stop. stop.first) stops.now }
    requires counted { kept.old.unit ≡ unit
        → AreWith (marks_by kept.old.startup kept.old.day (option_and_then (known_from kept.old.day stops.now) (option_map (λ s. s.now) first)) kept.old.quarters)
        kept.old.tallies.items }
    ensures value { OnOk result (Recounts unit stops.now (option_map (λ s. s.now) first.entry) second.now kept.old kept.new) }
{
    if kept.unit != unit {
        return Ok(());
    }
    let before = marks_before(alloc, kept.startup, kept.quarters, kept.day, first, stops)?;
    let after = marks_on(alloc, kept.startup, kept.quarters, kept.day, second, stops)?;
    change_marks(&mut kept.tallies, &before, &after);
    Ok(())
}

/// Counts a component of a process unit anew in what is kept of the unit, by its row so far and its new summary. Without memory for it
/// nothing is kept.
pub fn recount(
    kept: &mut Vec<DayTallies>,
    lists: &Lists<'_>,
    components: &Table<Summary>,
    units: &Table<UnitSummary>,
    unit: u8,
    number: u16,
    summary: &Summary,
)
    requires once { IsEachOnce (facts_in lists.now.store.now) }
    requires member { Contains (members_of unit (facts_in lists.now.store.now)) number }
    requires shown { IsShown unit units.now }
    requires orderly { IsOrderly summary.now }
    requires counted { AreCounted (facts_in lists.now.store.now) components.now units.now kept.old.items }
    ensures counted { (after : Rows Summary) → PutsRow number summary.now components.now after
        → AreCounted (facts_in lists.now.store.now) after units.now kept.new.items }
{
    let Some(row) = units.row(u16::from(unit)) else {
        kept.clear();
        return;
    };
    let stops = row.of_unit.stops.as_slice();
    let first = components.row(number);
    for place in 0..kept.len() {
        let done = recount_day(lists.alloc, &mut kept[place], unit, first, summary, stops);
        if done.is_err() {
            kept.clear();
            return;
        }
    }
}
