ghost use Rattle.std.specs.Prelude.{◌≡◌, List, [], ◌∷◌, ◌++◌, IfOk, OnOk, filter, filter_map, map, option_and_then, option_map, slice_get};
ghost use Rattle.ldar_law.specs.declared.event.Event.{Event as SomeEvent};
ghost use Rattle.ldar_law.specs.Spans.{spans_of};
ghost use Rattle.ldar_law.specs.Tags as law;
ghost use Rattle.unit_summaries.specs.Known.{IsInOrder, in_law};

use crate::entries::add;
use crate::known::KnownOn;
use delay_of_repair::repair_of;
use fact_kinds::Memory;
use ldar_days::Day;
use ldar_law::{DelayEntry, Event, Span, Stop, Tag, attempt_by};
use leak_tags::spans_until;
use std::alloc::Global;

/// The delays among some events, in order.
#[tactic(auto, using(crate::proofs::ListLemmas::given_pushed))]
fn delays_among(alloc: Global, events: &[Event]) -> Result<Vec<DelayEntry>, Memory>
    ensures value { IfOk result (λ delays. delays.items ≡ filter_map law.delay_entry events.now) }
{
    let mut delays = Vec::new(alloc);
    for e in events {
        add(&mut delays, &e.delay_entry())?;
    }
    Ok(delays)
}

/// The days of the attempts among some events, in order.
fn attempt_days(alloc: Global, events: &[Event]) -> Result<Vec<Day>, Memory>
    ensures value { IfOk result (λ days. days.items ≡ law.attempt_days events.now) }
{
    let mut days = Vec::new(alloc);
    for e in events {
        if e.what.is_attempt() {
            days.push(e.key.day)?;
        }
    }
    Ok(days)
}

/// The delays of a tag, of those of its component.
fn delays_within(
    alloc: Global,
    span: &Span,
    delays: &[DelayEntry],
) -> Result<Vec<DelayEntry>, Memory>
    ensures value { IfOk result (λ own. own.items ≡ filter (λ d. law.is_within span.now d.key) delays.now) }
{
    let mut own = Vec::new(alloc);
    for delay in delays {
        if span.is_within(&delay.key) {
            own.push(*delay)?;
        }
    }
    Ok(own)
}

/// The delay at a place, if there is one.
fn delay_at(delays: &[DelayEntry], place: Option<usize>) -> Option<DelayEntry>
    ensures value { result ≡ option_and_then (slice_get delays.now) place }
{
    match place {
        Some(place) => delays.get(place).copied(),
        None => None,
    }
}

/// The day on which the tag of a span was closed, if it was.
fn closed_on(span: &Span) -> Option<Day>
    ensures value { result ≡ option_map (λ key. key.day) span.now.closed }
{
    match span.closed {
        Some(key) => Some(key.day),
        None => None,
    }
}

/// Adds the tag of a span with its due days, by the delays of its own, the component's attempts and its process unit's shutdowns.
fn add_tag(
    tags: &mut Vec<Tag>,
    component: u16,
    span: &Span,
    delays: &[DelayEntry],
    attempts: &[Day],
    stops: &[Stop],
) -> Result<(), Memory>
    ensures put { (events : List SomeEvent) → attempts.now ≡ law.attempt_days events → delays.now ≡ law.delays_of span.now events
        → OnOk result (tags.new.items ≡ tags.old.items ++ law.tag_of component events stops.now span.now ∷ []) }
{
    let detected = span.detected.day;
    let repair = repair_of(detected, delays, attempts, stops);
    tags.push(Tag {
        component,
        detected,
        attempt_due: attempt_by(detected),
        attempted: span.attempted,
        repair_due: repair.due,
        closed: closed_on(span),
        delay: delay_at(delays, repair.counted),
        removable: span.removable,
    })?;
    Ok(())
}

/// The tags of a component as spans, by its events up to the day: those that are kept, cut to the day.
fn spans_on(alloc: Global, component: &KnownOn<'_>) -> Result<Vec<Span>, Memory>
    requires ordered { IsInOrder component.now }
    ensures value { IfOk result (λ spans. spans.items ≡ spans_of component.now.item.kind component.now.events.now) }
{
    let mut spans = Vec::new(alloc);
    spans_until(
        component.spans,
        component.all_events,
        component.item.kind,
        component.day,
        &mut spans,
    )?;
    Ok(spans)
}

/// The tags of a component with these spans and events, in the order of their detection.
fn tags_by(
    alloc: Global,
    component: u16,
    spans: &[Span],
    events: &[Event],
    stops: &[Stop],
) -> Result<Vec<Tag>, Memory>
    ensures value { IfOk result (λ tags. tags.items ≡ map (law.tag_of component events.now stops.now) spans.now) }
{
    let delays = delays_among(alloc, events)?;
    let attempts = attempt_days(alloc, events)?;
    let mut tags = Vec::with_capacity(alloc, spans.len())?;
    for span in spans {
        let own = delays_within(alloc, span, &delays)?;
        add_tag(&mut tags, component, span, &own, &attempts, stops)?;
    }
    Ok(tags)
}

/// The tags of a component, in the order of their detection, by the shutdowns of its process unit (40 CFR 60.486a(b),
/// (c), 60.482-9a). They are made of the kept ones, cut to the day.
pub fn tags_of(alloc: Global, component: &KnownOn<'_>, stops: &[Stop]) -> Result<Vec<Tag>, Memory>
    requires ordered { IsInOrder component.now }
    ensures value { IfOk result (λ tags. tags.items ≡ (in_law stops.now component.now).tags) }
{
    let spans = spans_on(alloc, component)?;
    // Most components have no tag: nothing is collected for them.
    if spans.is_empty() {
        return Ok(Vec::new(alloc));
    }
    tags_by(
        alloc,
        component.item.component,
        &spans,
        component.events,
        stops,
    )
}
