//! Duties after drips, a pressure release or evidence of a potential leak (40 CFR 60.482-2a(b)(2), 60.482-4a(b)(2),
//! 60.482-8a(a)). There is one walk over the events for each. For an event that leads to a duty, the walk looks for the
//! next event that meets it, and it looks at no event twice.

ghost use Rattle.std.specs.Prelude.{◌≡◌, ◌+◌, ◌<◌, ◌≤◌, ◌++◌, Bool, List, [], ◌∷◌, OnOk, option_map, true, false, length, take, nat_lt};
ghost use Rattle.std.specs.List.Sorted.{IsPartitionPoint};
ghost use Rattle.list_words.specs.Order.{Ascends};
ghost use Rattle.list_words.specs.Words.{each_where};
ghost use Rattle.fact_kinds.specs.Facts.{is_earlier};
ghost use Rattle.ldar_law.specs.declared.event.Event.{Event as SomeEvent};
ghost use Rattle.monitor_calendar.specs.Concern as concern;
ghost use Rattle.monitor_calendar.specs.Following as following;

use crate::asked::Asked;
use crate::drips::PastDrips;
use crate::duty::put;
use crate::weekly::is_plain_pump;
use fact_kinds::{Class, Key, Kind, Memory};
use ldar_days::Day;
use ldar_law::{
    CAUSE_DRIP, CAUSE_EVIDENCE, CAUSE_RELEASE, Duty, EVENT_DAYS, Event, Happening, LISTED_DAYS,
    Regime, is_pump,
};

/// The event that a duty follows.
#[derive(Clone, Copy)]
pub enum After {
    Drips,
    Release,
    Evidence,
}

impl After {
    /// The cause of the duty.
    fn cause(self) -> u8
        ensures value { result ≡ following.cause_of self }
    {
        match self {
            After::Drips => CAUSE_DRIP,
            After::Release => CAUSE_RELEASE,
            After::Evidence => CAUSE_EVIDENCE,
        }
    }

    /// Whether a later event meets the duty, if it is in time.
    fn is_met_by(self, what: &Happening) -> bool
        ensures value { result ≡ following.meets self what.now }
    {
        match self {
            After::Drips => what.is_counting() || what.is_designating(),
            After::Release => what.is_near_background(),
            After::Evidence => what.is_counting() || what.is_evidence_gone(),
        }
    }

    /// The summary of the events up to and including this one, as far as the duty needs it: only for drips.
    fn told_with(self, past: PastDrips, e: &Event) -> PastDrips
        ensures value { (front : List SomeEvent) → following.TellsFor self past front → following.TellsFor self result (front ++ e.now ∷ []) }
    {
        match self {
            After::Drips => past.with(e),
            After::Release => past,
            After::Evidence => past,
        }
    }

    /// The place of the first event from `from` on that would meet the duty, or the number of events if no event would.
    fn next_place(self, events: &[Event], from: usize) -> usize
        requires from { from ≤ length events.now }
        ensures value { following.IsNext self events.now from result }
    {
        for place in from..events.len() {
            if self.is_met_by(&events[place].what) {
                return place;
            }
        }
        events.len()
    }

    /// The place of the first event after `place` that would meet the duty, if the event at `place` leads to one;
    /// otherwise a place before which none would. No event is looked at twice.
    fn next_after(self, events: &[Event], place: usize, next: usize, is_asked: bool) -> usize
        requires place { place < length events.now }
        requires next { following.NoneMeets self events.now place next }
        ensures none { following.NoneMeets self events.now (place + 1) result }
        ensures value { is_asked ≡ true → following.IsNext self events.now (place + 1) result }
    {
        if !is_asked {
            return next;
        }
        let from = next.max(place + 1);
        self.next_place(events, from)
    }
}

/// Whether a component of this kind and class is under the rules for heavy liquid service.
fn is_heavy_liquid(kind: Kind, class: Class) -> bool
    ensures value { result ≡ concern.is_heavy_liquid kind class }
{
    Regime::of(kind, class.service).are_heavy_liquid_rules()
}

/// Whether a component of this kind is under the rules for heavy liquid service by some entered class.
fn is_some_heavy_liquid(kind: Kind, classes: &[(Key, Class)]) -> bool
    ensures value { result ≡ concern.is_some_heavy_liquid kind classes.now }
{
    classes
        .iter()
        .any(|entered| is_heavy_liquid(kind, entered.1))
}

/// The key of the event at a place, if its day is at most `due`.
fn key_by(events: &[Event], place: usize, due: Day) -> Option<Key>
    ensures value { result ≡ option_map (λ e. e.key) (following.event_by events.now place due) }
{
    match events.get(place) {
        Some(e) => { if e.key.day <= due { Some(e.key) } else { None } }
        None => None,
    }
}

impl Asked<'_> {
    /// Whether it is under the rules for heavy liquid service by its first class or by an entered one.
    fn has_heavy_liquid_class(&self) -> bool
        ensures value { result ≡ concern.has_heavy_liquid_class self.now.item.now self.now.classes.now }
    {
        let item = self.item;
        is_heavy_liquid(item.kind, item.class) || is_some_heavy_liquid(item.kind, self.classes)
    }

    /// Whether a duty after such an event is possible for the component, by its kind or its classes.
    fn concerns(&self, after: After) -> bool
        ensures value { result ≡ concern.concerns after self.now.item.now self.now.classes.now }
    {
        match after {
            After::Drips => is_pump(self.item.kind),
            After::Release => matches!(self.item.kind, Kind::Relief),
            After::Evidence => self.has_heavy_liquid_class(),
        }
    }

    /// Whether an event leads to a duty; `is_repeated` is whether drips repeat earlier ones.
    fn is_asked_by(&self, after: After, is_repeated: bool, e: &Event) -> bool
        ensures value { result ≡ following.is_asked_by self.now after is_repeated e.now }
    {
        match after {
            After::Drips => {
                e.what.has_undesignated_drips()
                    && is_plain_pump(self.judged(e.key.day))
                    && !is_repeated
            }
            After::Release => { e.what.is_release() && self.is_served_relief(e.key.day) }
            After::Evidence => { e.what.has_evidence() && self.is_served_heavy_liquid(e.key.day) }
        }
    }

    /// Whether it is a relief device in service on a day.
    fn is_served_relief(&self, day: Day) -> bool
        ensures value { result ≡ following.is_served_relief self.now day }
    {
        let judged = self.judged(day);
        judged.serves && judged.regime.are_relief_rules()
    }

    /// Whether it is in heavy liquid service, and in service, on a day.
    fn is_served_heavy_liquid(&self, day: Day) -> bool
        ensures value { result ≡ following.is_served_heavy_liquid self.now day }
    {
        let judged = self.judged(day);
        judged.serves && judged.regime.are_heavy_liquid_rules()
    }

    /// The duty after an event that leads to one. The first later event that would meet it is at `next`.
    fn after_event(&self, after: After, is_asked: bool, e: &Event, next: usize) -> Option<Duty>
        ensures value { (is_repeated : Bool) → is_asked ≡ following.is_asked_by self.now after is_repeated e.now
            → result ≡ following.after_by self.now after is_repeated e.now next }
    {
        if !is_asked {
            return None;
        }
        let due = e.key.day.plus_days(EVENT_DAYS);
        let met = key_by(self.events, next, due);
        self.duty(after.cause(), e.key.day, due, &met)
    }

    /// The place of the first event whose duty the list can contain.
    fn first_listed(&self) -> usize
        ensures within { result ≤ length self.now.events.now }
        ensures value { IsPartitionPoint (λ e. nat_lt (e.key.day + 5 + 366) self.now.day ≡ true)
            (λ e. nat_lt (e.key.day + 5 + 366) self.now.day ≡ false) self.now.events.now result }
    {
        let day = self.day.number();
        self.events
            .partition_point(|e| e.key.day.number() + EVENT_DAYS + LISTED_DAYS < day)
    }

    /// The summary of the events before a place, as far as the duty needs it.
    fn drips_before(&self, after: After, place: usize) -> PastDrips
        requires within { place ≤ length self.now.events.now }
        ensures value { following.TellsFor after result (take place self.now.events.now) }
    {
        let mut past = PastDrips::none();
        if matches!(after, After::Drips) {
            for e in &self.events[..place] {
                past = past.with(e);
            }
        }
        past
    }

    /// Adds the duties after events of this kind. If there can be none for the component, it looks at no event.
    pub fn put_after(&self, after: After, duties: &mut Vec<Duty>) -> Result<(), Memory>
        ensures put { OnOk result (duties.new.items ≡ duties.old.items ++ each_where (following.after_event self.now after) self.now.events.now) }
    {
        if !self.concerns(after) {
            return Ok(());
        }
        let from = self.first_listed();
        let mut past = self.drips_before(after, from);
        let mut next = from;
        for place in from..self.events.len() {
            let e = &self.events[place];
            let is_asked = self.is_asked_by(after, past.repeat, e);
            next = after.next_after(self.events, place, next, is_asked);
            put(duties, &self.after_event(after, is_asked, e, next))?;
            past = after.told_with(past, e);
        }
        Ok(())
    }
}
