use fact_kinds::{Class, Key};
use ldar_law::{ElectionEntry, Equipment, Event, Items, OfUnit, Span};

/// What all facts say of a component.
#[derive(Drop)]
pub struct Summary {
    pub item: Equipment,
    /// The classes entered for it, in key order.
    pub classes: Items<(Key, Class)>,
    /// Its judged events, in key order.
    pub events: Items<Event>,
    /// The tags that its events open, by detection.
    pub spans: Items<Span>,
}

/// What all facts say of a process unit.
#[derive(Drop)]
pub struct UnitSummary {
    /// What is entered for it that decides on its components.
    pub of_unit: OfUnit,
    /// Its elections of a skip period program, in key order.
    pub elections: Items<ElectionEntry>,
}
