ghost use Rattle.std.specs.Prelude.{◌≡◌, ℕ, List, Some, filter, nat_le, option_map, if◌then◌else◌};
ghost use Rattle.list_words.specs.Order.{Ascends};
ghost use Rattle.fact_kinds.specs.Facts.{Entry, goes_first, is_earlier};
ghost use Rattle.history_laws.specs.DayLaws as days;
ghost use Rattle.history_laws.specs.DayLaws.{events_to, up_to};
ghost use Rattle.ldar_law.specs.Equipment.{elections_of, equipment_of, stops_of};
ghost use Rattle.ldar_law.specs.Units.{known_of};
ghost use Rattle.touched_readings.specs.Windows.{AreByDay};
ghost use Rattle.unit_summaries.specs.Known.{IsKnownFrom, known_by};
ghost use Rattle.unit_summaries.specs.Says.{Says, SaysUnit};

use crate::summary::{Summary, UnitSummary};
use fact_kinds::{Class, Key};
use ldar_days::Day;
use ldar_law::{ElectionEntry, Equipment, Event, Span, Stop};

/// What is known of a component on a day: its entry without a later retirement, and its classes and events up to the day, in key order.
#[derive(Clone, Copy)]
pub struct KnownOn<'s> {
    pub item: Equipment,
    pub classes: &'s [(Key, Class)],
    pub events: &'s [Event],
    pub day: Day,
    /// All its events, and the tags that they open: those of later days too.
    pub all_events: &'s [Event],
    pub spans: &'s [Span],
}

/// A day, if it is not after another.
fn if_come(day: Day, other: Option<Day>) -> Option<Day>
    ensures value { result ≡ days.if_come day other }
{
    match other {
        Some(other) => { if other <= day { Some(other) } else { None } }
        None => None,
    }
}

/// A component as it is known on a day, if it has begun by then: a later retirement is not known.
pub fn if_begun(day: Day, item: Equipment) -> Option<Equipment>
    ensures value { result ≡ days.if_begun day item }
{
    if day < item.begin {
        return None;
    }
    let mut item = item;
    item.retired = if_come(day, item.retired);
    Some(item)
}

/// The classes up to a day, of classes in key order.
fn classes_to(classes: &[(Key, Class)], day: Day) -> &[(Key, Class)]
    requires ordered { Ascends (λ a b. is_earlier a.0 b.0) classes.now }
    ensures value { result.now ≡ filter (λ entered. nat_le entered.0.day day) classes.now }
{
    let count = classes.partition_point(|entered| entered.0.day <= day);
    &classes[..count]
}

/// The events up to a day, of events in key order.
fn front_of(events: &[Event], day: Day) -> &[Event]
    requires ordered { Ascends (λ a b. is_earlier a.key b.key) events.now }
    ensures value { result.now ≡ events_to day events.now }
{
    let count = events.partition_point(|e| e.key.day <= day);
    &events[..count]
}

impl Summary {
    /// What is known of the component on a day, without a copy; `None` if it has not begun by then.
    pub fn known_on(&self, day: Day) -> Option<KnownOn<'_>>
        requires classes { Ascends (λ a b. is_earlier a.0 b.0) self.now.classes }
        requires events { Ascends (λ a b. is_earlier a.key b.key) self.now.events }
        ensures value { (facts : List Entry) (number : ℕ) → Says facts number self.now → Ascends goes_first facts
            → option_map (known_by (up_to day facts)) result ≡ option_map (known_of (up_to day facts)) (equipment_of number (up_to day facts)) }
        ensures known { IsKnownFrom day self.now result }
    {
        match if_begun(day, self.item) {
            Some(item) => Some(KnownOn {
                item,
                classes: classes_to(self.classes.as_slice(), day),
                events: front_of(self.events.as_slice(), day),
                day,
                all_events: self.events.as_slice(),
                spans: self.spans.as_slice(),
            }),
            None => None,
        }
    }
}

/// The shutdowns that begin by a day, of shutdowns by their first days.
pub fn stops_to(stops: &[Stop], day: Day) -> &[Stop]
    requires ordered { AreByDay (λ stop. stop.first) stops.now }
    ensures value { result.now ≡ filter (λ stop. nat_le stop.first day) stops.now }
{
    let count = stops.partition_point(|stop| stop.first <= day);
    &stops[..count]
}

/// The elections up to a day, of elections in key order.
fn elections_to(elections: &[ElectionEntry], day: Day) -> &[ElectionEntry]
    requires ordered { Ascends (λ a b. is_earlier a.key b.key) elections.now }
    ensures value { result.now ≡ filter (λ election. nat_le election.key.day day) elections.now }
{
    let count = elections.partition_point(|election| election.key.day <= day);
    &elections[..count]
}

impl UnitSummary {
    /// The shutdowns of the process unit that begin by a day, without a copy.
    pub fn stops_on(&self, day: Day) -> &[Stop]
        requires ordered { AreByDay (λ stop. stop.first) self.now.of_unit.stops }
        ensures value { (facts : List Entry) (number : ℕ) → SaysUnit facts number self.now → Ascends goes_first facts
            → result.now ≡ stops_of number (up_to day facts) }
    {
        stops_to(self.of_unit.stops.as_slice(), day)
    }

    /// The elections of the process unit up to a day, in key order and without a copy.
    pub fn elections_on(&self, day: Day) -> &[ElectionEntry]
        requires ordered { Ascends (λ a b. is_earlier a.key b.key) self.now.elections }
        ensures value { (facts : List Entry) (number : ℕ) → SaysUnit facts number self.now → Ascends goes_first facts
            → result.now ≡ elections_of number (up_to day facts) }
    {
        elections_to(self.elections.as_slice(), day)
    }
}
