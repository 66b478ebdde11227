//! Whether classes and events are in key order. It decides the premise `ordered`.

ghost use Rattle.std.specs.Prelude.{◌↔◌, IsTrue};
ghost use Rattle.list_words.specs.Order.{Ascends};
ghost use Rattle.fact_kinds.specs.Facts.{is_earlier};

use fact_kinds::{Class, Key, precedes};
use ldar_law::Event;

/// Whether classes are in the order of the keys of their facts, each before all that follow it.
pub fn are_classes_ordered(classes: &[(Key, Class)]) -> bool
    ensures value { IsTrue result ↔ Ascends (λ a b. is_earlier a.0 b.0) classes.now }
{
    for place in (1..classes.len()).rev() {
        if !precedes(&classes[place - 1].0, &classes[place].0) {
            return false;
        }
    }
    true
}

/// Whether events are in the order of their keys, each before all that follow it.
pub fn are_events_ordered(events: &[Event]) -> bool
    ensures value { IsTrue result ↔ Ascends (λ a b. is_earlier a.key b.key) events.now }
{
    for place in (1..events.len()).rev() {
        if !precedes(&events[place - 1].key, &events[place].key) {
            return false;
        }
    }
    true
}
