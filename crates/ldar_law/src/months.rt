//! Clean months (40 CFR 60.482-7a(c)), from the events of a component. A month is given by its number, since it may be
//! the one after the calendar's last month.

ghost use Rattle.std.specs.Prelude.{◌≡◌, ◌≤◌, ◌&&◌};
ghost use Rattle.std.specs.List.{list_any};
ghost use Rattle.ldar_law.specs.Happenings.{is_in_month as says_in_month, is_routine_below as says_routine_below};
ghost use Rattle.ldar_law.specs.Months as law;

use crate::event::Event;

/// Whether some leak is in the months from `low` to `high`.
#[tactic(auto, unfolding(crate::specs::Months::has_leak_in))]
pub fn has_leak_in(events: &[Event], low: u32, high: u32) -> bool
    ensures value { result ≡ law.has_leak_in events.now low high }
{
    events.iter().any(|e| {
        e.what.is_leak() && low <= e.key.day.month().number() && e.key.day.month().number() <= high
    })
}

/// Whether a counting routine reading below the leak definition is in the month.
fn is_read_below_in(events: &[Event], month: u32) -> bool
    ensures value { result ≡ list_any (λ e. says_routine_below e.what && says_in_month month e) events.now }
{
    events
        .iter()
        .any(|e| e.what.is_routine_below() && e.is_in_month(month))
}

/// Whether the month has such a reading and no leak (40 CFR 60.482-7a(c)(1)(i)).
#[tactic(auto, unfolding(crate::specs::Months::is_clean))]
pub fn is_clean(events: &[Event], month: u32) -> bool
    ensures value { result ≡ law.is_clean events.now month }
{
    is_read_below_in(events, month) && !has_leak_in(events, month, month)
}

/// Whether the month and the next are clean.
pub fn is_clean_twice(events: &[Event], month: u32) -> bool
    requires in_range { month ≤ 25_199 }
    ensures value { result ≡ law.is_clean_twice events.now month }
{
    is_clean(events, month) && is_clean(events, month + 1)
}

/// Whether two months in a row are clean, the first of them this one or later.
#[tactic(auto, unfolding(crate::specs::Months::is_clean_twice_from))]
pub fn is_clean_twice_from(events: &[Event], first: u32) -> bool
    ensures value { result ≡ law.is_clean_twice_from events.now first }
{
    events.iter().any(|e| {
        first <= e.key.day.month().number() && is_clean_twice(events, e.key.day.month().number())
    })
}
