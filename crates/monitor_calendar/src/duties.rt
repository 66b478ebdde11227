ghost use Rattle.std.specs.Prelude.{◌≡◌, ◌≤◌, IfOk};
ghost use Rattle.list_words.specs.Order.{Ascends};
ghost use Rattle.fact_kinds.specs.Facts.{is_earlier};
ghost use Rattle.ldar_law.specs.Duties as law;
ghost use Rattle.ldar_law.specs.declared.numbers.TheConstants.{LAST_FACT_DAY};

use crate::after_event::After;
use crate::asked::Asked;
use crate::duty::put;
use fact_kinds::{Class, Key, Memory};
use ldar_days::Day;
use ldar_law::{Duty, Equipment, Event};
use std::alloc::Global;

/// The duties of a component that are on the list of a day (40 CFR 60.482-2a, 60.482-3a, 60.482-4a, 60.482-7a, 60.482-8a),
/// in order of cause, due day and event. `startup` is that of its process unit; `skipped` is which of the unit's quarters are
/// skipped, from quarter 1 on. The classes and the events are the component's own, in key order. Returns an error if it is
/// out of memory.
///
/// Duties that were due more than 366 days before the day are not listed and not looked at.
#[tactic(auto, unfolding(ldar_law::specs::Duties::duties_of))]
pub fn duties_of(
    alloc: Global,
    equipment: &Equipment,
    classes: &[(Key, Class)],
    startup: Day,
    events: &[Event],
    skipped: &[bool],
    day: Day,
) -> Result<Vec<Duty>, Memory>
    requires startup { startup ≤ LAST_FACT_DAY }
    requires ordered { Ascends (λ a b. is_earlier a.0 b.0) classes.now × Ascends (λ a b. is_earlier a.key b.key) events.now }
    ensures value { IfOk result (λ duties. duties.items ≡ law.duties_of equipment.now classes.now startup events.now skipped.now day) }
{
    let asked = Asked {
        item: equipment,
        classes,
        startup,
        events,
        skipped,
        day,
    };
    // The duties of twelve months, and the others that most components have on a list.
    let mut duties = Vec::with_capacity(alloc, 16)?;
    put(&mut duties, &asked.first_monitoring())?;
    asked.put_months(alloc, &mut duties)?;
    asked.put_yearly(&mut duties)?;
    asked.put_planned(&mut duties)?;
    asked.put_weekly(&mut duties)?;
    asked.put_after(After::Drips, &mut duties)?;
    asked.put_after(After::Release, &mut duties)?;
    asked.put_after(After::Evidence, &mut duties)?;
    Ok(duties)
}
