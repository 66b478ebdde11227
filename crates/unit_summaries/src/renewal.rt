ghost use Rattle.std.specs.Prelude.{◌≡◌, ℕ, ◌+◌, ◌≤◌, true, List, Some, IfOk, OnOk, length, Contains};
ghost use Rattle.std.specs.List.{AllByRecursion};
ghost use Rattle.list_words.specs.Order.{Ascends};
ghost use Rattle.fact_kinds.specs.Facts.{Entry, goes_first};
ghost use Rattle.fact_store.specs.Kept.{facts_in};
ghost use Rattle.history_laws.specs.RulyLaws.{IsEachOnce};
ghost use Rattle.ldar_law.specs.declared.equipment.Equipment.{Equipment as SomeEquipment};
ghost use Rattle.ldar_law.specs.Equipment.{equipment_of, members_of};
ghost use Rattle.ldar_law.specs.Slices.{facts_of_component, facts_of_unit, register_facts};
ghost use Rattle.unit_summaries.specs.Cost.{AreReady, AreTouched, IsPool, UsesOnly, cost_left, members_cost, own_cost, unit_cost};
ghost use Rattle.unit_summaries.specs.Kept.{AreCounted, IsShown};
ghost use Rattle.unit_summaries.specs.Rows.{RenewsRows, Rows, is_fresh};
ghost use Rattle.unit_summaries.specs.Says.{Judges, Says, SaysUnit};

use crate::entries::{classes_of, elections_of, entered_for};
use crate::events::events_of_component;
use crate::instruments::{Instruments, none_ready};
use crate::kept::{DayTallies, drop_kept};
use crate::reads::Lists;
use crate::recount::recount;
use crate::summary::{Summary, UnitSummary};
use crate::table::Table;
use component_register::Register;
use fact_kinds::Memory;
use fact_store::Steps;
use ldar_law::{Equipment, Items};
use leak_tags::spans_of;
use std::sync::ledger::Ledger;

/// What all facts say of a component. Its own facts are read once, and the tests of each instrument that is not ready.
pub fn summary_of<L: Ledger>(
    ready: &mut Instruments,
    lists: &Lists<'_>,
    item: &Equipment,
    steps: &mut Steps<L>,
) -> Result<Summary, Memory>
    requires ordered { Ascends goes_first (facts_in lists.now.store.now) }
    requires ready { AreReady ready.old.items (facts_in lists.now.store.now) }
    ensures item { IfOk result (λ summary. summary.item ≡ item.now) }
    ensures value { IfOk result (Judges (facts_in lists.now.store.now)) }
    ensures ready { OnOk result (AreReady ready.new.items (facts_in lists.now.store.now)) }
    ensures counted { (pool : List ℕ) → UsesOnly pool (facts_of_component item.now.component (facts_in lists.now.store.now))
        → steps.new ≤ steps.old + length (facts_of_component item.now.component (facts_in lists.now.store.now))
        + cost_left (facts_in lists.now.store.now) pool ready.old.items }
    ensures left { OnOk result ((pool : List ℕ) → UsesOnly pool (facts_of_component item.now.component (facts_in lists.now.store.now))
        → steps.new + cost_left (facts_in lists.now.store.now) pool ready.new.items
        ≤ steps.old + length (facts_of_component item.now.component (facts_in lists.now.store.now))
        + cost_left (facts_in lists.now.store.now) pool ready.old.items) }
{
    let own = lists.of_component(item.component, steps)?;
    let classes = classes_of(lists.alloc, item.component, &own)?;
    let events = events_of_component(ready, lists, item, &classes, &own, steps)?;
    let spans = spans_of(lists.alloc, item.kind, &events)?;
    Ok(Summary {
        item: *item,
        classes: Items::new(classes),
        events: Items::new(events),
        spans: Items::new(spans),
    })
}

/// What all facts say of a process unit. The facts that name it are read once.
pub fn unit_summary_of<L: Ledger>(
    lists: &Lists<'_>,
    unit: u8,
    steps: &mut Steps<L>,
) -> Result<UnitSummary, Memory>
    requires ordered { Ascends goes_first (facts_in lists.now.store.now) }
    ensures value { IfOk result (SaysUnit (facts_in lists.now.store.now) unit) }
    ensures counted { steps.new ≤ steps.old + length (facts_of_unit unit (facts_in lists.now.store.now)) }
{
    let own = lists.of_unit(unit, steps)?;
    let of_unit = entered_for(lists.alloc, unit, &own)?;
    let elections = elections_of(lists.alloc, unit, &own)?;
    Ok(UnitSummary {
        of_unit,
        elections: Items::new(elections),
    })
}

/// Makes the summary of a component up to date if it is not, and counts the component anew in what is kept of its process unit. After
/// `Memory` the summary is as it was.
pub fn renew_component<L: Ledger>(
    table: &mut Table<Summary>,
    kept: &mut Vec<DayTallies>,
    units: &Table<UnitSummary>,
    ready: &mut Instruments,
    lists: &Lists<'_>,
    unit: u8,
    number: u16,
    item: &Equipment,
    steps: &mut Steps<L>,
) -> Result<(), Memory>
    requires ordered { Ascends goes_first (facts_in lists.now.store.now) }
    requires once { IsEachOnce (facts_in lists.now.store.now) }
    requires ready { AreReady ready.old.items (facts_in lists.now.store.now) }
    requires entered { equipment_of number (facts_in lists.now.store.now) ≡ Some item.now }
    requires named { item.now.component ≡ number }
    requires held { Contains (members_of unit (facts_in lists.now.store.now)) number }
    requires shown { IsShown unit units.now }
    requires kept { AreCounted (facts_in lists.now.store.now) table.old units.now kept.old.items }
    ensures value { RenewsRows (Says (facts_in lists.now.store.now)) table.old table.new }
    ensures kept { AreCounted (facts_in lists.now.store.now) table.new units.now kept.new.items }
    ensures fresh { OnOk result (is_fresh table.new number ≡ true) }
    ensures ready { OnOk result (AreReady ready.new.items (facts_in lists.now.store.now)) }
    ensures counted { (pool : List ℕ) → IsPool pool number table.old (facts_in lists.now.store.now)
        → steps.new ≤ steps.old + own_cost (facts_in lists.now.store.now) table.old number
        + cost_left (facts_in lists.now.store.now) pool ready.old.items }
    ensures left { OnOk result ((pool : List ℕ) → IsPool pool number table.old (facts_in lists.now.store.now)
        → steps.new + cost_left (facts_in lists.now.store.now) pool ready.new.items
        ≤ steps.old + own_cost (facts_in lists.now.store.now) table.old number
        + cost_left (facts_in lists.now.store.now) pool ready.old.items) }
{
    if table.is_fresh(number) {
        return Ok(());
    }
    table.make_room(number)?;
    let summary = summary_of(ready, lists, item, steps)?;
    recount(kept, lists, table, units, unit, number, &summary);
    table.put(number, summary);
    Ok(())
}

/// Makes the summary of a process unit up to date if it is not, and drops what is kept of the unit then. After `Memory` the summary is as
/// it was.
pub fn renew_unit<L: Ledger>(
    table: &mut Table<UnitSummary>,
    kept: &mut Vec<DayTallies>,
    lists: &Lists<'_>,
    unit: u8,
    steps: &mut Steps<L>,
) -> Result<(), Memory>
    requires ordered { Ascends goes_first (facts_in lists.now.store.now) }
    ensures value { RenewsRows (SaysUnit (facts_in lists.now.store.now)) table.old table.new }
    ensures fresh { OnOk result (is_fresh table.new unit ≡ true) }
    ensures kept { (components : Rows Summary) → AreCounted (facts_in lists.now.store.now) components table.old kept.old.items
        → AreCounted (facts_in lists.now.store.now) components table.new kept.new.items }
    ensures counted { steps.new ≤ steps.old + unit_cost (facts_in lists.now.store.now) table.old unit }
{
    if table.is_fresh(u16::from(unit)) {
        return Ok(());
    }
    table.make_room(u16::from(unit))?;
    let summary = unit_summary_of(lists, unit, steps)?;
    drop_kept(kept, unit);
    table.put(u16::from(unit), summary);
    Ok(())
}

/// Makes the summary of a component of the register up to date if it is not. After `Memory` it is as it was.
fn renew_member<L: Ledger>(
    table: &mut Table<Summary>,
    kept: &mut Vec<DayTallies>,
    units: &Table<UnitSummary>,
    ready: &mut Instruments,
    lists: &Lists<'_>,
    register: &Register,
    unit: u8,
    number: u16,
    steps: &mut Steps<L>,
) -> Result<(), Memory>
    requires ordered { Ascends goes_first (facts_in lists.now.store.now) }
    requires once { IsEachOnce (facts_in lists.now.store.now) }
    requires register { facts_in register.now ≡ register_facts (facts_in lists.now.store.now) }
    requires ready { AreReady ready.old.items (facts_in lists.now.store.now) }
    requires member { (item : SomeEquipment) × (equipment_of number (facts_in lists.now.store.now) ≡ Some item) × (item.component ≡ number) }
    requires held { Contains (members_of unit (facts_in lists.now.store.now)) number }
    requires shown { IsShown unit units.now }
    requires kept { AreCounted (facts_in lists.now.store.now) table.old units.now kept.old.items }
    ensures value { RenewsRows (Says (facts_in lists.now.store.now)) table.old table.new }
    ensures kept { AreCounted (facts_in lists.now.store.now) table.new units.now kept.new.items }
    ensures fresh { OnOk result (is_fresh table.new number ≡ true) }
    ensures ready { OnOk result (AreReady ready.new.items (facts_in lists.now.store.now)) }
    ensures counted { (pool : List ℕ) → IsPool pool number table.old (facts_in lists.now.store.now)
        → steps.new ≤ steps.old + own_cost (facts_in lists.now.store.now) table.old number
        + cost_left (facts_in lists.now.store.now) pool ready.old.items }
    ensures left { OnOk result ((pool : List ℕ) → IsPool pool number table.old (facts_in lists.now.store.now)
        → steps.new + cost_left (facts_in lists.now.store.now) pool ready.new.items
        ≤ steps.old + own_cost (facts_in lists.now.store.now) table.old number
        + cost_left (facts_in lists.now.store.now) pool ready.old.items) }
{
    match register.component(number) {
        Some(item) => renew_component(table, kept, units, ready, lists, unit, number, &item, steps),
        None => Ok(()),
    }
}

/// Makes the summaries of the components of a process unit up to date. After `Memory` those made so far are.
pub fn renew_members<L: Ledger>(
    table: &mut Table<Summary>,
    kept: &mut Vec<DayTallies>,
    units: &Table<UnitSummary>,
    lists: &Lists<'_>,
    register: &Register,
    unit: u8,
    steps: &mut Steps<L>,
) -> Result<(), Memory>
    requires ordered { Ascends goes_first (facts_in lists.now.store.now) }
    requires register { facts_in register.now ≡ register_facts (facts_in lists.now.store.now) }
    requires once { IsEachOnce (facts_in lists.now.store.now) }
    requires shown { IsShown unit units.now }
    requires kept { AreCounted (facts_in lists.now.store.now) table.old units.now kept.old.items }
    ensures value { RenewsRows (Says (facts_in lists.now.store.now)) table.old table.new }
    ensures kept { AreCounted (facts_in lists.now.store.now) table.new units.now kept.new.items }
    ensures fresh { OnOk result (AllByRecursion (λ n. is_fresh table.new n ≡ true) (members_of unit (facts_in lists.now.store.now))) }
    ensures counted { (news : List Entry) → AreTouched (facts_in lists.now.store.now) news unit table.old
        → steps.new ≤ steps.old + members_cost (facts_in lists.now.store.now) news unit }
{
    let mut ready = none_ready(lists.alloc);
    for number in register.members(unit) {
        renew_member(
            table, kept, units, &mut ready, lists, register, unit, *number, steps,
        )?;
    }
    Ok(())
}
