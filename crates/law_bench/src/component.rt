//! A component with its facts and its events.

ghost use Rattle.list_words.specs.Order.{Ascends};
ghost use Rattle.fact_kinds.specs.Facts.{is_earlier};
ghost use Rattle.monitor_calendar.specs.InOrder.{Ascends-prop};

use crate::equipment::{classes, equipment, key_of};
use crate::history::History;
use fact_kinds::{Class, Fact, Key, Memory};
use ldar_law::{Equipment, Event, Fitness};
use method21_reading::events_of;
use monitor_calendar::{are_classes_ordered, are_events_ordered};
use std::alloc::{AllocError, Global};

#[derive(Drop)]
pub struct Component {
    pub equipment: Equipment,
    pub classes: Vec<(Key, Class)>,
    pub facts: Vec<(Key, Fact)>,
    pub fitness: Vec<Fitness>,
    pub events: Vec<Event>,
    pub ghost classes_ordered: { Ascends (λ a b. is_earlier a.0 b.0) classes.items } by { Ascends-prop (λ a b. is_earlier a.0 b.0) classes.items },
    pub ghost events_ordered: { Ascends (λ a b. is_earlier a.key b.key) events.items } by { Ascends-prop (λ a b. is_earlier a.key b.key) events.items },
}

/// The facts of a component, each in its own batch.
fn facts_of(
    alloc: Global,
    history: History,
    number: u32,
    places: u32,
) -> Result<Vec<(Key, Fact)>, AllocError> {
    let mut facts = Vec::with_capacity(alloc, places as usize)?;
    for place in 0..places {
        let fact = history.fact(number, place, places);
        facts.push((key_of(fact.day, fact.minute, place), fact))?;
    }
    Ok(facts)
}

/// The fitnesses of its readings; every fiftieth one is not fit.
fn fitness_of(alloc: Global, places: u32) -> Result<Vec<Fitness>, AllocError> {
    let mut fitness = Vec::with_capacity(alloc, places as usize)?;
    for place in 0..places {
        fitness.push(if place % 50 == 49 {
            Fitness::NoCalibration
        } else {
            Fitness::Fit
        })?;
    }
    Ok(fitness)
}

/// A component whose classes and events are known to be in order.
fn component_of(
    equipment: Equipment,
    classes: Vec<(Key, Class)>,
    facts: Vec<(Key, Fact)>,
    fitness: Vec<Fitness>,
    events: Vec<Event>,
) -> Component
    requires classes_ordered { Ascends (λ a b. is_earlier a.0 b.0) classes.items }
    requires events_ordered { Ascends (λ a b. is_earlier a.key b.key) events.items }
{
    Component {
        equipment,
        classes,
        facts,
        fitness,
        events,
    }
}

/// The component with this number, from 0, with `places` facts; `None` if they are out of order.
pub fn made_component(
    alloc: Global,
    history: History,
    number: u32,
    places: u32,
) -> Result<Option<Component>, Memory> {
    let equipment = equipment(history, number);
    let classes = classes(alloc, history, number)?;
    if !are_classes_ordered(classes.as_slice()) {
        return Ok(None);
    }
    let facts = facts_of(alloc, history, number, places)?;
    let fitness = fitness_of(alloc, places)?;
    let events = events_of(
        alloc,
        &equipment,
        classes.as_slice(),
        facts.as_slice(),
        fitness.as_slice(),
    )?;
    if !are_events_ordered(events.as_slice()) {
        return Ok(None);
    }
    Ok(Some(component_of(equipment, classes, facts, fitness, events)))
}
