ghost use Rattle.std.specs.Prelude.{◌≡◌, IfOk, filter, map};
ghost use Rattle.ldar_days.specs.Calendar.{month_of};
ghost use Rattle.ldar_law.specs.Happenings as happenings;
ghost use Rattle.ldar_law.specs.Shown as shown;
ghost use Rattle.unit_summaries.specs.Known.{AreInOrder, IsInOrder, all_in_law, in_law};

use fact_kinds::Memory;
use ldar_days::Month;
use ldar_law::{Event, Items, Sheet, Stop};
use std::alloc::Global;
use unit_summaries::{KnownOn, tags_of};

/// The months of the leaks among some events.
fn leak_months(alloc: Global, events: &[Event]) -> Result<Vec<Month>, Memory>
    ensures value { IfOk result (λ months. months.items
        ≡ map (λ e. month_of e.key.day) (filter (λ e. happenings.is_leak e.what) events.now)) }
{
    let mut months = Vec::new(alloc);
    for e in events {
        if e.what.is_leak() {
            months.push(e.key.day.month())?;
        }
    }
    Ok(months)
}

/// The sheet of a component, by the shutdowns of its process unit.
fn sheet_of(alloc: Global, component: &KnownOn<'_>, stops: &[Stop]) -> Result<Sheet, Memory>
    requires ordered { IsInOrder component.now }
    ensures value { IfOk result (λ sheet. sheet ≡ shown.sheet_of (in_law stops.now component.now)) }
{
    let leaks = leak_months(alloc, component.events)?;
    let tags = tags_of(alloc, component, stops)?;
    Ok(Sheet {
        component: component.item.component,
        kind: component.item.kind,
        leaks: Items::new(leaks),
        tags: Items::new(tags),
    })
}

/// The sheets of some components, by the shutdowns of their process unit.
pub fn sheets_of(
    alloc: Global,
    components: &[KnownOn<'_>],
    stops: &[Stop],
) -> Result<Vec<Sheet>, Memory>
    requires ordered { AreInOrder components.now }
    ensures value { IfOk result (λ sheets. sheets.items ≡ map shown.sheet_of (all_in_law stops.now components.now)) }
{
    let mut sheets = Vec::with_capacity(alloc, components.len())?;
    for component in components {
        sheets.push(sheet_of(alloc, component, stops)?)?;
    }
    Ok(sheets)
}
