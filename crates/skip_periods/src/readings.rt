ghost use Rattle.std.specs.Prelude.{◌≡◌, ◌≤◌, ◌&&◌, is_some};
ghost use Rattle.std.specs.List.{list_any};
ghost use Rattle.ldar_law.specs.Duties as duties;
ghost use Rattle.ldar_law.specs.Happenings as happenings;
ghost use Rattle.ldar_law.specs.Percent as law;
ghost use Rattle.ldar_law.specs.declared.numbers.TheConstants.{LAST_FACT_DAY};

use ldar_days::Day;
use ldar_law::{Event, is_in_quarter};

/// Whether the component was monitored in the quarter.
pub fn is_read(startup: Day, events: &[Event], quarter: u16) -> bool
    requires startup { startup ≤ LAST_FACT_DAY }
    ensures value { result ≡ list_any (λ e. happenings.is_routine e.what && law.is_in_quarter startup quarter e.key.day) events.now }
{
    events.iter().any(|e| e.what.is_routine() && is_in_quarter(startup, quarter, e.key.day))
}

/// Whether the component was found leaking in the quarter.
pub fn is_found_leaking(startup: Day, events: &[Event], quarter: u16) -> bool
    requires startup { startup ≤ LAST_FACT_DAY }
    ensures value { result ≡ list_any (λ e. happenings.is_routine_leak e.what && law.is_in_quarter startup quarter e.key.day) events.now }
{
    events.iter().any(|e| e.what.is_routine_leak() && is_in_quarter(startup, quarter, e.key.day))
}

/// Whether an event is a counting routine reading from the first to the last day.
fn is_routine_on(e: &Event, first: Day, last: Day) -> bool
    ensures value { result ≡ (happenings.is_routine e.now.what && happenings.is_from_to first last e.now) }
{
    e.what.is_routine() && e.is_from_to(first, last)
}

/// Whether some event is such a reading.
fn some_routine_on(events: &[Event], first: Day, last: Day) -> bool
    ensures value { result ≡ list_any (λ e. happenings.is_routine e.what && happenings.is_from_to first last e) events.now }
{
    events.iter().any(|e| is_routine_on(e, first, last))
}

/// Whether the component has a counting routine reading from the first to the last day.
pub fn has_routine_in(events: &[Event], first: Day, last: Day) -> bool
    ensures value { result ≡ is_some (duties.routine_in events.now first last) }
{
    some_routine_on(events, first, last)
}
