//! The tags as they are defined: each prefix of the events is searched again.

ghost use Rattle.std.specs.Prelude.{◌≡◌, ◌+◌, ◌++◌, [], ◌∷◌, Some, OnOk, IfOk, ◌<◌, length, take, drop, slice_get, option_map};
ghost use Rattle.std.specs.Option.{option_to_list};
ghost use Rattle.list_words.specs.Words.{first_from};
ghost use Rattle.ldar_law.specs.Spans as law;

use crate::settling::is_unsettled;
use fact_kinds::{Key, Kind, Memory};
use ldar_days::Day;
use ldar_law::{Event, Span, is_clean_twice_from, is_valve};
use std::alloc::Global;

/// Whether a tag opens at the event: it is a leak, and no leak before it is unsettled.
fn opens(kind: Kind, before: &[Event], leak: &Event) -> bool
    ensures value { result ≡ law.opens kind before.now leak.now }
{
    leak.what.is_leak() && !is_unsettled(kind, before)
}

/// Whether no leak is unsettled after the event at this place.
#[tactic(auto, using(crate::proofs::Fronts::take_one_more))]
fn closes(kind: Kind, events: &[Event], place: usize, event: &Event) -> bool
    requires in_range { place < length events.now }
    requires stands { slice_get events.now place ≡ Some event.now }
    ensures value { result ≡ law.closes kind (take place events.now) event.now }
{
    !is_unsettled(kind, &events[..place + 1])
}

/// The first event from a place on after which no leak is unsettled.
fn closing_from(kind: Kind, events: &[Event], from: usize) -> Option<Key>
    ensures value { result ≡ option_map (λ e. e.key) (first_from (λ front e _. law.closes kind front e) (take from events.now) (drop from events.now)) }
{
    for place in from..events.len() {
        let event = &events[place];
        if closes(kind, events, place, event) {
            return Some(event.key);
        }
    }
    None
}

/// The first event after the leak at this place after which no leak is unsettled.
#[tactic(auto, using(crate::proofs::Fronts::take_one_more))]
fn closing_of(kind: Kind, events: &[Event], place: usize, leak: &Event) -> Option<Key>
    requires in_range { place < length events.now }
    requires stands { slice_get events.now place ≡ Some leak.now }
    ensures value { result ≡ law.closing_of kind (take place events.now) leak.now (drop (place + 1) events.now) }
{
    closing_from(kind, events, place + 1)
}

/// The day of the first attempt after a leak, before or after the tag's closing.
fn attempt_after(after: &[Event]) -> Option<Day>
    ensures value { result ≡ law.attempt_after after.now }
{
    after
        .iter()
        .find(|e| e.what.is_attempt())
        .map(|e| e.key.day)
}

/// Whether the identification of a tag, closed or not, may be removed (40 CFR 60.486a(b)(2), (3)).
pub fn is_removable(kind: Kind, events: &[Event], closed: &Option<Key>) -> bool
    ensures value { result ≡ law.is_removable kind events.now closed.now }
{
    match closed {
        Some(key) => !is_valve(kind) || is_clean_twice_from(events, key.day.month().number()),
        None => false,
    }
}

/// The tag that opens at the event at this place, if one does.
fn span_at(kind: Kind, events: &[Event], place: usize, leak: &Event) -> Option<Span>
    requires in_range { place < length events.now }
    requires stands { slice_get events.now place ≡ Some leak.now }
    ensures value { result ≡ law.span_at kind events.now (take place events.now) leak.now (drop (place + 1) events.now) }
{
    if !opens(kind, &events[..place], leak) {
        return None;
    }
    let closed = closing_of(kind, events, place, leak);
    let removable = is_removable(kind, events, &closed);
    let attempted = attempt_after(&events[place + 1..]);
    Some(Span {
        detected: leak.key,
        attempted,
        closed,
        removable,
    })
}

/// Adds the tag that opens at the event at this place, if one does.
fn push_span(
    spans: &mut Vec<Span>,
    kind: Kind,
    events: &[Event],
    place: usize,
    leak: &Event,
) -> Result<(), Memory>
    requires in_range { place < length events.now }
    requires stands { slice_get events.now place ≡ Some leak.now }
    ensures pushed { OnOk result (spans.new.items ≡ spans.old.items
        ++ option_to_list (law.span_at kind events.now (take place events.now) leak.now (drop (place + 1) events.now))) }
{
    if let Some(span) = span_at(kind, events, place, leak) {
        spans.push(span)?;
    }
    Ok(())
}

/// The tags of a component, in the order of their detection (40 CFR 60.486a(b)), by a search of each prefix. It is the plain
/// program beside the walk of `spans_of`, with the same clause; its time grows much faster than the number of events. Returns
/// an error if it is out of memory.
#[tactic(auto, unfolding(ldar_law::specs::Spans::spans_of))]
pub fn spans_by_search(alloc: Global, kind: Kind, events: &[Event]) -> Result<Vec<Span>, Memory>
    ensures value { IfOk result (λ spans. spans.items ≡ law.spans_of kind events.now) }
{
    let mut spans = Vec::new(alloc);
    for (place, leak) in events.iter().enumerate() {
        push_span(&mut spans, kind, events, place, leak)?;
    }
    Ok(spans)
}
