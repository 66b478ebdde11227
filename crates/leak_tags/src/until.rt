//! The tags of a component as known on a day, from the tags by all its events.

ghost use Rattle.std.specs.Prelude.{◌≡◌, ◌+◌, ◌++◌, ◌∷◌, [], ◌<◌, ◌≤◌, true, nat_le, if◌then◌else◌, OnOk, OnErr, IfSome};
ghost use Rattle.std.specs.Prelude.{vec_len, vec_capacity, count_by, filter, map};
ghost use Rattle.list_words.specs.Order.{Ascends};
ghost use Rattle.fact_kinds.specs.Facts.{is_earlier};
ghost use Rattle.ldar_law.specs.SpansByDay.{if_come, events_to};
ghost use Rattle.ldar_law.specs.SpansByDay as known;
ghost use Rattle.ldar_law.specs.Spans as law;
ghost use Rattle.leak_tags.specs.CleanPairs.{IsPairFor};

use crate::clean_months::last_clean_pair;
use crate::rising::are_rising;
use crate::{search, walk};
use fact_kinds::{Key, Kind, Memory};
use ldar_days::Day;
use ldar_law::{Event, Span, is_valve};

/// A day, if it is not after another one.
fn come_by(day: &Option<Day>, by: Day) -> Option<Day>
    ensures value { result ≡ if_come by day.now }
{
    match *day {
        Some(day) if day <= by => Some(day),
        _ => None,
    }
}

/// The key of a closing, if its day is not after another one.
fn closed_by(closed: &Option<Key>, by: Day) -> Option<Key>
    ensures value { result ≡ known.if_closed by closed.now }
{
    match *closed {
        Some(key) if key.day <= by => Some(key),
        _ => None,
    }
}

/// The last pair of clean months of a valve's events, if their days do not decrease; for another component it is not
/// searched.
fn pair_of(kind: Kind, front: &[Event]) -> Option<u32>
    ensures value { IfSome result (λ pair. IsPairFor kind pair front.now) }
{
    if is_valve(kind) && are_rising(front) {
        return Some(last_clean_pair(front));
    }
    None
}

/// Whether the identification of a tag, closed or not, may be removed (40 CFR 60.486a(b)(2), (3)).
fn is_removable(kind: Kind, front: &[Event], pair: Option<u32>, closed: &Option<Key>) -> bool
    requires pair { IfSome pair (λ pair. IsPairFor kind pair front.now) }
    ensures value { result ≡ law.is_removable kind front.now closed.now }
{
    match (closed, pair) {
        (Some(key), Some(pair)) => walk::is_removable(kind, front, pair, key),
        _ => search::is_removable(kind, front, closed),
    }
}

/// A tag as known on a day, by the events up to it.
fn known_on(kind: Kind, front: &[Event], pair: Option<u32>, span: &Span, day: Day) -> Span
    requires pair { IfSome pair (λ pair. IsPairFor kind pair front.now) }
    ensures value { result ≡ known.span_on day kind front.now span.now }
{
    let closed = closed_by(&span.closed, day);
    let removable = is_removable(kind, front, pair, &closed);
    Span {
        detected: span.detected,
        attempted: come_by(&span.attempted, day),
        closed,
        removable,
    }
}

/// The number of tags that were detected by a day.
fn count_detected(spans: &[Span], day: Day) -> usize
    ensures value { result ≡ count_by (λ span. nat_le span.detected.day day) spans.now }
{
    spans.iter().filter(|span| span.detected.day <= day).count()
}

/// Whether some tag was closed by a day.
fn is_some_closed(spans: &[Span], day: Day) -> bool {
    spans
        .iter()
        .any(|span| closed_by(&span.closed, day).is_some())
}

/// The last pair of clean months, searched only if some tag was closed by the day.
fn pair_on(kind: Kind, front: &[Event], spans: &[Span], day: Day) -> Option<u32>
    ensures value { IfSome result (λ pair. IsPairFor kind pair front.now) }
{
    if is_some_closed(spans, day) {
        return pair_of(kind, front);
    }
    None
}

/// The events up to a day, of events in key order.
fn front_of(events: &[Event], day: Day) -> &[Event]
    requires ordered { Ascends (λ a b. is_earlier a.key b.key) events.now }
    ensures value { result.now ≡ events_to day events.now }
{
    let count = events.partition_point(|e| e.key.day <= day);
    &events[..count]
}

/// Adds a tag as known on a day, if it was detected by then. There must be room for it.
fn push_detected(
    out: &mut Vec<Span>,
    kind: Kind,
    front: &[Event],
    pair: Option<u32>,
    span: &Span,
    day: Day,
)
    requires pair { IfSome pair (λ pair. IsPairFor kind pair front.now) }
    requires roomy { nat_le span.now.detected.day day ≡ true → vec_len out.old < vec_capacity out.old }
    ensures put { out.new.items ≡ out.old.items ++ map (known.span_on day kind front.now) (known.detected_by day (span.now ∷ [])) }
    ensures len { vec_len out.new ≡ vec_len out.old + (if nat_le span.now.detected.day day then 1 else 0) }
    ensures capacity { vec_capacity out.new ≡ vec_capacity out.old }
{
    if span.detected.day <= day {
        out.push_reserved(known_on(kind, front, pair, span, day));
    }
}

/// Adds the tags that were detected by a day, each as known on the day. There must be room for them.
fn push_known(
    out: &mut Vec<Span>,
    kind: Kind,
    front: &[Event],
    pair: Option<u32>,
    spans: &[Span],
    day: Day,
)
    requires pair { IfSome pair (λ pair. IsPairFor kind pair front.now) }
    requires roomy { vec_len out.old + count_by (λ span. nat_le span.detected.day day) spans.now ≤ vec_capacity out.old }
    ensures put { out.new.items ≡ out.old.items ++ map (known.span_on day kind front.now) (known.detected_by day spans.now) }
{
    for span in spans {
        push_detected(out, kind, front, pair, span, day);
    }
}

/// Adds the tags of a component as known on a day, that is, by its events up to the day. `spans` are its tags by all its
/// events, which are in key order. Tags that were detected later are left out, and so are attempts and closings on later
/// days. Whether the identification may be removed is decided by the events up to the day. If no tag was detected by the
/// day, no event is looked at. Returns an error if it is out of memory; `out` is then unchanged.
pub fn spans_until(
    spans: &[Span],
    events: &[Event],
    kind: Kind,
    day: Day,
    out: &mut Vec<Span>,
) -> Result<(), Memory>
    requires of_all { spans.now ≡ law.spans_of kind events.now }
    requires ordered { Ascends (λ a b. is_earlier a.key b.key) events.now }
    ensures put { OnOk result (out.new.items ≡ out.old.items ++ law.spans_of kind (filter (λ e. nat_le e.key.day day) events.now)) }
    ensures unchanged { OnErr result (out.new.items ≡ out.old.items) }
{
    let detected = count_detected(spans, day);
    if detected == 0 {
        return Ok(());
    }
    out.reserve(detected)?;
    let front = front_of(events, day);
    let pair = pair_on(kind, front, spans, day);
    push_known(out, kind, front, pair, spans, day);
    Ok(())
}
