ghost use Rattle.std.specs.Prelude.{◌≡◌, ◌+◌, ◌≤◌, Some, true, length, IfOk};
ghost use Rattle.std.specs.Option.{option_map};
ghost use Rattle.fact_store.specs.Kept.{facts_in};
ghost use Rattle.history_laws.specs.DayLaws.{up_to};
ghost use Rattle.ldar_law.specs.Equipment.{equipment_of};
ghost use Rattle.ldar_law.specs.Stirred.{stirred};
ghost use Rattle.ldar_law.specs.Units as law;
ghost use Rattle.office_views.specs.Sources.{AreReady, IsReady, facts_by, facts_from};
ghost use Rattle.office_views.specs.Viewed.{KeepsNotes};
ghost use Rattle.unit_summaries.specs.Says.{Says};
ghost use Rattle.unit_summaries.specs.Sound.{Are, is_known, news_of};

use crate::source::Source;
use component_register::Register;
use fact_kinds::Memory;
use fact_store::{FactStore, Steps};
use ldar_days::Day;
use ldar_law::{Equipment, History, Items};
use std::alloc::Global;
use std::sync::ledger::Ledger;
use unit_summaries::{KnownOn, Summaries, Summary};

/// The summary of a component that is up to date.
fn summary_of<'a>(source: &Source<'a>, item: &Equipment) -> &'a Summary
    requires ready { IsReady source.now item.now.unit }
    requires entered { equipment_of item.now.component (facts_from source.now) ≡ Some item.now }
    ensures value { Says (facts_from source.now) item.now.component result.now }
{
    match source.summaries.component(item.component) {
        Some(summary) => summary,
        None => unreachable!(),
    }
}

/// A component with its events, copied from what is known of it on a day.
fn history_of(alloc: Global, known: &Option<KnownOn<'_>>) -> Result<Option<History>, Memory>
    ensures value { IfOk result (λ history. history ≡ option_map (λ k. record { equipment = k.item; events = k.events.now }) known.now) }
{
    let Some(known) = known else {
        return Ok(None);
    };
    let events = Vec::from_slice(alloc, known.events)?;
    Ok(Some(History {
        equipment: known.item,
        events: Items::new(events),
    }))
}

/// A component with its judged events up to the day, or `None` if it has not begun by then.
fn events_on(source: &Source<'_>, item: &Equipment) -> Result<Option<History>, Memory>
    requires ready { IsReady source.now item.now.unit }
    requires entered { equipment_of item.now.component (facts_from source.now) ≡ Some item.now }
    ensures value { IfOk result (λ history. history ≡ law.history_of_component item.now.component (facts_by source.now)) }
{
    let known = summary_of(source, item).known_on(source.day);
    history_of(source.alloc, &known)
}

/// A component with its judged events up to a day, after the summaries of its process unit are made up to date. It is no view: no number
/// of facts is noted.
pub fn events_anew<L: Ledger>(
    alloc: Global,
    store: &FactStore,
    register: &Register,
    summaries: &mut Summaries,
    item: &Equipment,
    day: Day,
    steps: &mut Steps<L>,
) -> Result<Option<History>, Memory>
    requires ready { AreReady store.now register.now summaries.old }
    requires known { is_known store.now.arrived item.now.unit ≡ true }
    requires entered { equipment_of item.now.component (facts_in store.now) ≡ Some item.now }
    ensures value { IfOk result (λ history. history ≡ law.history_of_component item.now.component (up_to day (facts_in store.now))) }
    ensures sound { Are (facts_in store.now) store.now.arrived (length store.now.arrived) summaries.new }
    ensures answered { KeepsNotes summaries.old.answered summaries.new.answered }
    ensures counted { steps.new ≤ steps.old + stirred (facts_in store.now) (news_of store.now.arrived summaries.old item.now.unit) item.now.unit }
{
    summaries.renew(store, register, item.unit, steps)?;
    let source = Source {
        alloc,
        store,
        register,
        summaries,
        day,
    };
    events_on(&source, item)
}
