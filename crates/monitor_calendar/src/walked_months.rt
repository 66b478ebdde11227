//! Which months of a valve are quarterly (40 CFR 60.482-7a(c)(1)), and where their events begin: one pass over its events
//! since the last leak before the first of these months.

ghost use Rattle.std.specs.Prelude.{◌≡◌, ℕ, ◌<◌, ◌≤◌, false, List, length, slice_index_or};
ghost use Rattle.list_words.specs.Order.{Ascends};
ghost use Rattle.ldar_days.specs.Calendar.{IsMonth};
ghost use Rattle.fact_kinds.specs.Facts.{is_earlier};
ghost use Rattle.ldar_law.specs.declared.event.Event.{Event as SomeEvent};
ghost use Rattle.ldar_law.specs.Happenings.{is_leak as says_leak};
ghost use Rattle.ldar_law.specs.declared.numbers.TheConstants.{LAST_FACT_DAY};
ghost use Rattle.monitor_calendar.specs.Walks.{IsAt, IsBehindLeak, IsOn, IsWalked};

use crate::month_days::MonthDays;
use crate::past_months::PastMonths;
use crate::period::count_before;
use ldar_days::Day;
use ldar_law::Event;

/// The result of a walk to a month of a valve.
#[derive(Clone, Copy)]
pub struct WalkedMonth {
    /// The place of the first event that is not of an earlier month, or the number of events.
    pub place: usize,
    pub is_quarterly: bool,
}

/// A place among events, with the summary of those before it.
#[derive(Clone, Copy)]
pub struct Walk {
    pub place: usize,
    pub past: PastMonths,
}

impl Walk {
    /// The result of a walk to a month.
    pub fn told_of(self, startup: Day, month: u32) -> WalkedMonth
        requires startup { startup ≤ LAST_FACT_DAY }
        ensures value { (events : List SomeEvent) → IsMonth month → IsAt self.past events self.place month → IsWalked startup events month result }
    {
        WalkedMonth {
            place: self.place,
            is_quarterly: self.past.let_be_quarterly(startup, month),
        }
    }
}

/// The place after the last leak of the first `count` events, or 0 if none of them is a leak.
fn behind_leak(events: &[Event], count: usize) -> usize
    requires count { count ≤ length events.now }
    ensures value { IsBehindLeak events.now count result }
{
    let mut place = count;
    while place > 0 {
        if events[place - 1].what.is_leak() {
            return place;
        }
        place -= 1;
    }
    0
}

/// A walk to a month that begins after the last leak among the first `count` events. The summary after a leak is the same
/// whatever came before it.
fn behind_last_leak(events: &[Event], days: &MonthDays, count: usize) -> Walk
    requires ordered { Ascends (λ a b. is_earlier a.key b.key) events.now }
    requires within { count ≤ length events.now }
    requires before { (k : ℕ) (e : SomeEvent) → k < count → (slice_index_or events.now k e).key.day < days.now.first }
    ensures value { IsOn result.past events.now result.place days.now.month }
    ensures within { result.place ≤ count }
    ensures no_leak { (k : ℕ) (e : SomeEvent) → result.place ≤ k → k < count → says_leak (slice_index_or events.now k e).what ≡ false }
{
    let place = behind_leak(events, count);
    if place == 0 {
        return Walk {
            place: 0,
            past: PastMonths::none(),
        };
    }
    Walk {
        place,
        past: PastMonths::of_leak(&events[place - 1]),
    }
}

/// A walk to a month that begins after the last leak before it, so that no other event on the way is a leak.
pub fn begun(events: &[Event], days: &MonthDays) -> Walk
    requires ordered { Ascends (λ a b. is_earlier a.key b.key) events.now }
    ensures value { IsOn result.past events.now result.place days.now.month }
{
    let count = count_before(events, days.first);
    let Walk { place, mut past } = behind_last_leak(events, days, count);
    for k in place..count {
        past = past.with_sound(&events[k]);
    }
    Walk { place: count, past }
}

/// The walk, continued to the first event that is not of an earlier month.
pub fn walked_to(walk: Walk, events: &[Event], days: &MonthDays) -> Walk
    requires ordered { Ascends (λ a b. is_earlier a.key b.key) events.now }
    requires on { IsOn walk.past events.now walk.place days.now.month }
    ensures value { IsAt result.past events.now result.place days.now.month }
{
    let first = days.first.number();
    let Walk {
        mut place,
        mut past,
    } = walk;
    for e in &events[walk.place..] {
        let day = e.key.day.number();
        if first <= day {
            return Walk { place, past };
        }
        past = past.with(e);
        place += 1;
    }
    Walk { place, past }
}
