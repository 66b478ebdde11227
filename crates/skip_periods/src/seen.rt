//! Findings about a component in each quarter, from quarter 1 on: one pass over its events, in any order.

ghost use Rattle.std.specs.Prelude.{◌≡◌, ◌≤◌, ◌||◌, ℕ, false, IfOk, replicate};
ghost use Rattle.ldar_days.specs.Quarters.{first_quarter as first_month};
ghost use Rattle.ldar_law.specs.Happenings as happenings;
ghost use Rattle.ldar_law.specs.declared.numbers.TheConstants.{LAST_FACT_DAY};
ghost use Rattle.skip_periods.specs.Seen.{AreSeen, LooksAt};

use fact_kinds::Memory;
use ldar_days::{Day, first_quarter};
use ldar_law::{Event, Mark};
use std::alloc::Global;

/// Findings of this many quarters in which nothing is found.
pub fn unseen(alloc: Global, quarter: u16) -> Result<Vec<Mark>, Memory>
    ensures value { IfOk result (λ seen. seen.items ≡ replicate quarter (record { leaking = false; monitored = false })) }
{
    let nothing = Mark {
        leaking: false,
        monitored: false,
    };
    vec![in alloc; nothing; usize::from(quarter)]
}

/// The finding in a quarter with one more event of it.
fn seen_with(mark: Mark, e: &Event) -> Mark
    ensures leaking { result.leaking ≡ (mark.leaking || happenings.is_routine_leak e.now.what) }
    ensures monitored { result.monitored ≡ (mark.monitored || happenings.is_routine e.now.what) }
{
    Mark {
        leaking: mark.leaking | e.what.is_routine_leak(),
        monitored: mark.monitored || e.what.is_routine(),
    }
}

/// Adds an event to the finding in its quarter. It changes nothing if the event is not a counting routine reading. `first`
/// is the number of the first month of quarter 1.
fn look_at(seen: &mut Vec<Mark>, first: u32, e: &Event)
    ensures value { (startup : ℕ) → first ≡ first_month startup → LooksAt startup e.now seen.old.items seen.new.items }
{
    if !e.what.is_routine() {
        return;
    }
    let month = e.key.day.month().number();
    if month < first {
        return;
    }
    let place = ((month - first) / 3) as usize;
    if place < seen.len() {
        seen[place] = seen_with(seen[place], e);
    }
}

/// The findings about a component in each quarter, from quarter 1 to this one.
pub fn seen_to(
    alloc: Global,
    startup: Day,
    events: &[Event],
    quarter: u16,
) -> Result<Vec<Mark>, Memory>
    requires startup { startup ≤ LAST_FACT_DAY }
    ensures value { IfOk result (λ seen. AreSeen startup events.now quarter seen.items) }
{
    let mut seen = unseen(alloc, quarter)?;
    let first = first_quarter(startup).number();
    for e in events {
        look_at(&mut seen, first, e);
    }
    Ok(seen)
}
