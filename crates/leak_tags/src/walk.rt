//! One walk over the events of a component, which finds the closing of each tag.

ghost use Rattle.std.specs.Prelude.{◌≡◌, ◌+◌, ◌++◌, ◌<◌, IfSome, Some, None, length};
ghost use Rattle.std.specs.Option.{option_to_list};
ghost use Rattle.ldar_law.specs.Spans as law;
ghost use Rattle.leak_tags.specs.CleanPairs.{IsPairFor};
ghost use Rattle.leak_tags.specs.Telling.{Rises};
ghost use Rattle.leak_tags.specs.Walking.{Walks, closed_tag, rest_of};

use crate::clean_months::last_clean_pair;
use crate::next_attempt::NextAttempt;
use crate::open_leaks::OpenLeaks;
use fact_kinds::{Key, Kind};
use ldar_days::Day;
use ldar_law::{Event, Span, is_valve};

/// An open tag.
#[derive(Clone, Copy)]
pub struct OpenTag {
    /// The leak at which it opens.
    pub detected: Key,
    /// The day of the first attempt after it.
    pub attempted: Option<Day>,
}

/// The state of a walk before a place of the events.
#[derive(Clone, Copy)]
pub struct Walk {
    /// The open tag, if there is one.
    pub tag: Option<OpenTag>,
    /// The open leaks, if a tag is open.
    pub leaks: OpenLeaks,
    pub next: NextAttempt,
    /// The last pair of clean months, if it was needed.
    pub pair: Option<u32>,
}

/// The last pair of clean months of a valve; for another component it is not needed.
fn pair_for(kind: Kind, events: &[Event]) -> u32
    requires rising { Rises 0 events.now }
    ensures value { IsPairFor kind result events.now }
{
    if !is_valve(kind) {
        return 0;
    }
    last_clean_pair(events)
}

/// Whether the identification of a closed tag may be removed (40 CFR 60.486a(b)(2), (3)). A valve's may be removed if
/// two months in a row are clean, the first of them the month of closing or later; `pair` is the last such pair.
pub fn is_removable(kind: Kind, events: &[Event], pair: u32, closed: &Key) -> bool
    requires pair { IsPairFor kind pair events.now }
    ensures value { result ≡ law.is_removable kind events.now (Some closed.now) }
{
    !is_valve(kind) || closed.day.month().number() <= pair
}

impl OpenTag {
    /// The tag, closed by the event with this key.
    fn closed(self, kind: Kind, events: &[Event], pair: u32, key: Key) -> Span
        requires pair { IsPairFor kind pair events.now }
        ensures value { result ≡ closed_tag kind events.now self (Some key) }
    {
        let removable = is_removable(kind, events, pair, &key);
        Span {
            detected: self.detected,
            attempted: self.attempted,
            closed: Some(key),
            removable,
        }
    }

    /// The tag, still open.
    fn unclosed(self) -> Span
        ensures value { (kind : _) (events : _) → result ≡ closed_tag kind events self None }
    {
        Span {
            detected: self.detected,
            attempted: self.attempted,
            closed: None,
            removable: false,
        }
    }
}

impl Walk {
    /// The state before the first event.
    #[tactic(auto, unfolding(ldar_law::specs::Spans::spans_of))]
    pub fn start(kind: Kind, events: &[Event]) -> Walk
        requires rising { Rises 0 events.now }
        ensures walks { Walks kind result events.now 0 }
        ensures rest { rest_of kind events.now result.tag 0 ≡ law.spans_of kind events.now }
    {
        Walk {
            tag: None,
            leaks: OpenLeaks::none(),
            next: NextAttempt::none(),
            pair: None,
        }
    }

    /// The last pair of clean months, searched only if it is not known.
    fn pair_of(&self, kind: Kind, events: &[Event]) -> u32
        requires rising { Rises 0 events.now }
        requires known { IfSome self.now.pair (λ pair. IsPairFor kind pair events.now) }
        ensures value { IsPairFor kind result events.now }
    {
        match self.pair {
            Some(pair) => pair,
            None => pair_for(kind, events),
        }
    }

    /// Adds the event at this place. Returns the tag that closes there, if one does.
    pub fn step(&mut self, kind: Kind, events: &[Event], place: usize) -> Option<Span>
        requires in_range { place < length events.now }
        requires rising { Rises 0 events.now }
        requires walks { Walks kind self.old events.now place }
        ensures walks { Walks kind self.new events.now (place + 1) }
        ensures rest { rest_of kind events.now self.old.tag place ≡ option_to_list result ++ rest_of kind events.now self.new.tag (place + 1) }
    {
        let event = &events[place];
        // Most events close no tag; for these nothing is copied.
        if let Some(tag) = &self.tag {
            self.leaks.take(kind, event);
            if self.leaks.is_open() {
                return None;
            }
            let tag = *tag;
            let pair = self.pair_of(kind, events);
            self.pair = Some(pair);
            self.tag = None;
            return Some(tag.closed(kind, events, pair, event.key));
        }
        if !event.what.is_leak() {
            return None;
        }
        self.leaks = OpenLeaks::none();
        self.leaks.take(kind, event);
        let next = self.next.moved_to(events, place + 1);
        let attempted = next.day;
        self.next = next;
        self.tag = Some(OpenTag {
            detected: event.key,
            attempted,
        });
        None
    }

    /// The tag that is open after the last event, if there is one.
    pub fn rest(&self) -> Option<Span>
        ensures value { (kind : _) (events : _) → option_to_list result ≡ rest_of kind events self.now.tag (length events) }
    {
        match self.tag {
            Some(tag) => Some(tag.unclosed()),
            None => None,
        }
    }
}
