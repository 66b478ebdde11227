ghost use Rattle.std.specs.Prelude.{◌≡◌, ◌≤◌, ◌-◌, max, min};
ghost use Rattle.list_words.specs.Order.{Ascends};
ghost use Rattle.ldar_days.specs.Calendar.{IsDay};
ghost use Rattle.fact_kinds.specs.Facts.{is_earlier};
ghost use Rattle.ldar_law.specs.Force as force;
ghost use Rattle.ldar_law.specs.Limits.{regime_of};
ghost use Rattle.monitor_calendar.specs.InOrder.{Ascends-prop};
ghost use Rattle.ldar_law.specs.declared.numbers.TheConstants.{LAST_FACT_DAY, LISTED_DAYS as listed_days};

use fact_kinds::{Class, Key};
use ldar_days::Day;
use ldar_law::{Equipment, Event, LISTED_DAYS, Regime};

/// A question: which duties of a component are on the list of a day.
#[derive(Clone, Copy)]
pub struct Asked<'a> {
    pub item: &'a Equipment,
    /// The classes entered for it, in key order.
    pub classes: &'a [(Key, Class)],
    /// The initial startup of its process unit.
    pub startup: Day,
    /// Its events, in key order.
    pub events: &'a [Event],
    /// Which quarters of the unit are skipped, from quarter 1 on.
    pub skipped: &'a [bool],
    /// The day of the list.
    pub day: Day,
    pub ghost has_quarters: { startup ≤ LAST_FACT_DAY },
    pub ghost classes_ordered: { Ascends (λ a b. is_earlier a.0 b.0) classes.now } by { Ascends-prop (λ a b. is_earlier a.0 b.0) classes.now },
    pub ghost events_ordered: { Ascends (λ a b. is_earlier a.key b.key) events.now } by { Ascends-prop (λ a b. is_earlier a.key b.key) events.now },
}

/// A component on a day.
#[derive(Clone, Copy)]
pub struct Judged {
    pub serves: bool,
    pub regime: Regime,
    pub class: Class,
}

impl Asked<'_> {
    /// The component on a day. Its class is found by binary search.
    pub fn judged(&self, day: Day) -> Judged
        ensures serves { result.serves ≡ force.is_in_service self.now.item.now day }
        ensures regime { result.regime ≡ force.regime_on self.now.item.now self.now.classes.now day }
        ensures class { result.class ≡ force.class_on self.now.item.now self.now.classes.now day }
    {
        self.judged_by(self.item.class_on(self.classes, day), day)
    }

    /// The component on a day, with the class that it has then.
    pub fn judged_by(&self, class: Class, day: Day) -> Judged
        ensures serves { result.serves ≡ force.is_in_service self.now.item.now day }
        ensures regime { result.regime ≡ regime_of self.now.item.now.kind class.service }
        ensures class { result.class ≡ class }
    {
        Judged {
            serves: self.item.is_in_service(day),
            regime: Regime::of(self.item.kind, class.service),
            class,
        }
    }

    /// The day on which a period is judged: its last day, or the day of the list if that is earlier.
    pub fn judging_day(&self, due: Day) -> Day
        ensures value { result ≡ min due self.now.day }
    {
        due.min(self.day)
    }

    /// The first day since the component's beginning on which a duty of the list can be due. Earlier duties are not listed, so no
    /// period of earlier years is searched.
    pub fn earliest(&self) -> Day
        ensures value { result ≡ max self.now.item.now.begin (self.now.day - listed_days) }
        ensures in_range { IsDay result }
    {
        let (begin, day) = (self.item.begin, self.day.number());
        if day <= begin.number() + LISTED_DAYS {
            return begin;
        }
        Day::at(day - LISTED_DAYS)
    }
}
