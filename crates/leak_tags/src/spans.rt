ghost use Rattle.std.specs.Prelude.{◌≡◌, ◌++◌, OnOk, IfOk};
ghost use Rattle.std.specs.Option.{option_to_list};
ghost use Rattle.ldar_law.specs.Spans as law;
ghost use Rattle.leak_tags.specs.Telling.{Rises};

use crate::rising::are_rising;
use crate::search::spans_by_search;
use crate::walk::Walk;
use fact_kinds::{Kind, Memory};
use ldar_law::{Event, Span};
use std::alloc::Global;

/// Adds the item, if there is one.
fn put<T: Drop>(items: &mut Vec<T>, given: Option<T>) -> Result<(), Memory>
    ensures pushed { OnOk result (items.new.items ≡ items.old.items ++ option_to_list given) }
{
    if let Some(item) = given {
        items.push(item)?;
    }
    Ok(())
}

/// The tags of a component, by one walk over its events.
fn spans_by_walk(alloc: Global, kind: Kind, events: &[Event]) -> Result<Vec<Span>, Memory>
    requires rising { Rises 0 events.now }
    ensures value { IfOk result (λ spans. spans.items ≡ law.spans_of kind events.now) }
{
    let mut walk = Walk::start(kind, events);
    let mut spans = Vec::new(alloc);
    for place in 0..events.len() {
        let closed = walk.step(kind, events, place);
        put(&mut spans, closed)?;
    }
    let open = walk.rest();
    put(&mut spans, open)?;
    Ok(spans)
}

/// The tags of a component, in the order of their detection (40 CFR 60.486a(b)). If the days of the events do not
/// decrease, the time grows in proportion to their number; otherwise it falls back to the search. Returns an error if
/// it is out of memory.
pub fn spans_of(alloc: Global, kind: Kind, events: &[Event]) -> Result<Vec<Span>, Memory>
    ensures value { IfOk result (λ spans. spans.items ≡ law.spans_of kind events.now) }
{
    if !are_rising(events) {
        return spans_by_search(alloc, kind, events);
    }
    spans_by_walk(alloc, kind, events)
}
