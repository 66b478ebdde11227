//! The events of a period, and the key of the fact that meets a duty in it. Events in key order are in the order of their days, so
//! the first event of a period is found by binary search; few others follow in the period.

ghost use Rattle.std.specs.Prelude.{◌≡◌, ◌≤◌, ◌&&◌, ◌||◌, ℕ, true, false, drop, filter, find, length, nat_le, nat_lt, option_map};
ghost use Rattle.std.specs.List.Sorted.{IsPartitionPoint};
ghost use Rattle.list_words.specs.Order.{Ascends};
ghost use Rattle.fact_kinds.specs.Facts.{is_earlier};
ghost use Rattle.ldar_law.specs.Duties as law;
ghost use Rattle.ldar_law.specs.Happenings.{is_look, is_near_background, is_routine};
ghost use Rattle.monitor_calendar.specs.Following.{key_by};

use fact_kinds::Key;
use ldar_days::Day;
use ldar_law::Event;

/// The number of events before a day.
pub fn count_before(events: &[Event], first: Day) -> usize
    requires ordered { Ascends (λ a b. is_earlier a.key b.key) events.now }
    ensures within { result ≤ length events.now }
    ensures value { IsPartitionPoint (λ e. nat_lt e.key.day first ≡ true) (λ e. nat_lt e.key.day first ≡ false) events.now result }
{
    events.partition_point(|e| e.key.day < first)
}

/// The events from a day on.
pub fn events_from(events: &[Event], first: Day) -> &[Event]
    requires ordered { Ascends (λ a b. is_earlier a.key b.key) events.now }
    ensures value { result.now ≡ filter (λ e. nat_le first e.key.day) events.now }
    ensures ordered { Ascends (λ a b. is_earlier a.key b.key) result.now }
{
    &events[count_before(events, first)..]
}

/// The key of the first event that is a counting routine reading or after the day `last`.
fn routine_or_later(events: &[Event], last: Day) -> Option<Key>
    ensures value { result ≡ option_map (λ e. e.key) (find (λ e. nat_lt last e.key.day || (is_routine e.what)) events.now) }
{
    events
        .iter()
        .find(|e| last < e.key.day || e.what.is_routine())
        .map(|e| e.key)
}

/// The key of the first event that is such a reading less than 500 parts per million above the background, or after the
/// day.
fn near_background_or_later(events: &[Event], last: Day) -> Option<Key>
    ensures value { result ≡ option_map (λ e. e.key) (find (λ e. nat_lt last e.key.day || (is_routine e.what && is_near_background e.what)) events.now) }
{
    events
        .iter()
        .find(|e| last < e.key.day || (e.what.is_routine() && e.what.is_near_background()))
        .map(|e| e.key)
}

/// The key of the first event that is a visual inspection or after the day.
fn look_or_later(events: &[Event], last: Day) -> Option<Key>
    ensures value { result ≡ option_map (λ e. e.key) (find (λ e. nat_lt last e.key.day || (is_look e.what)) events.now) }
{
    events
        .iter()
        .find(|e| last < e.key.day || e.what.is_look())
        .map(|e| e.key)
}

/// The key, if it exists and its day is at most `last`.
fn by_day(found: Option<Key>, last: Day) -> Option<Key>
    ensures value { result ≡ key_by found last }
{
    match found {
        Some(key) => { if key.day <= last { Some(key) } else { None } }
        None => None,
    }
}

/// The key of the first counting routine reading of a period whose events begin at a place.
pub fn routine_behind(events: &[Event], place: usize, last: Day) -> Option<Key>
    requires within { place ≤ length events.now }
    requires ordered { Ascends (λ a b. is_earlier a.key b.key) events.now }
    ensures value { (first : ℕ) → drop place events.now ≡ filter (λ e. nat_le first e.key.day) events.now
        → result ≡ option_map (λ e. e.key) (law.routine_in events.now first last) }
{
    by_day(routine_or_later(&events[place..], last), last)
}

/// The key of the first counting routine reading of a period.
pub fn routine_in(events: &[Event], first: Day, last: Day) -> Option<Key>
    requires ordered { Ascends (λ a b. is_earlier a.key b.key) events.now }
    ensures value { result ≡ option_map (λ e. e.key) (law.routine_in events.now first last) }
{
    routine_behind(events, count_before(events, first), last)
}

/// The key of the first such reading of a period that is less than 500 parts per million above the background.
pub fn routine_near_background(events: &[Event], first: Day, last: Day) -> Option<Key>
    requires ordered { Ascends (λ a b. is_earlier a.key b.key) events.now }
    ensures value { result ≡ option_map (λ e. e.key) (law.routine_near_background events.now first last) }
{
    by_day(
        near_background_or_later(events_from(events, first), last),
        last,
    )
}

/// The key of the first visual inspection of a period.
pub fn look_in(events: &[Event], first: Day, last: Day) -> Option<Key>
    requires ordered { Ascends (λ a b. is_earlier a.key b.key) events.now }
    ensures value { result ≡ option_map (λ e. e.key) (law.look_in events.now first last) }
{
    by_day(look_or_later(events_from(events, first), last), last)
}
