ghost use Rattle.std.specs.Prelude.{◌≡◌, ◌++◌, ℕ, List, OnOk, IfOk};
ghost use Rattle.std.specs.Option.{option_to_list};
ghost use Rattle.list_words.specs.Order.{Ascends};
ghost use Rattle.fact_kinds.specs.declared.class.Class.{Class as SomeClass};
ghost use Rattle.fact_kinds.specs.declared.key.Key.{Key as SomeKey};
ghost use Rattle.fact_kinds.specs.Facts.{is_earlier};
ghost use Rattle.ldar_law.specs.Events as law;
ghost use Rattle.ldar_law.specs.Force.{limit_on};
ghost use Rattle.method21_reading.specs.Readings.{AreEventsAmongAll};
ghost use Rattle.method21_reading.specs.Standings.{rules_on};

use crate::happening::happening;
use crate::rules::Rules;
use crate::standing::Standing;
use fact_kinds::{Class, Fact, FactBody, Key, Memory};
use ldar_law::{Equipment, Event, Fitness, Happening};
use std::alloc::Global;

/// The events of a component: its facts in key order, each judged on its own day by the classes entered for it, which are in
/// key order too (40 CFR 60.482-2a(b), 60.482-3a(f), 60.482-7a(b), 60.482-8a(b)). `fitness` has one element for each reading,
/// in order. A reading past its end is not fit. Returns an error if it is out of memory.
pub fn events_of(
    alloc: Global,
    equipment: &Equipment,
    classes: &[(Key, Class)],
    facts: &[(Key, Fact)],
    fitness: &[Fitness],
) -> Result<Vec<Event>, Memory>
    requires ordered { Ascends (λ a b. is_earlier a.0 b.0) classes.now }
    ensures value { IfOk result (λ events. events.items
        ≡ law.events_with equipment.now classes.now (limit_on equipment.now classes.now) facts.now fitness.now) }
    ensures of_all { IfOk result (λ events.
        AreEventsAmongAll equipment.now classes.now (limit_on equipment.now classes.now) facts.now fitness.now events.items) }
{
    // The classes are read before memory is allocated, so that they are loaded meanwhile.
    let mut standing = Standing::at_first(equipment, classes);
    let mut events = Vec::with_capacity(alloc, facts.len())?;
    let mut left = fitness;
    for e in facts {
        standing = standing.moved_to(equipment, classes, e.0.day);
        // `left` is set before the fact is judged, so that the compiler tests once whether it is a reading.
        let next = next_fitness(left);
        left = fitness_left(&e.1.body, left);
        push_event(&mut events, equipment, &standing.rules, e, &next)?;
    }
    Ok(events)
}

/// The event of a fact of the component, by how the rule treats the component on its day; a reading by its fitness.
fn judged(
    equipment: &Equipment,
    rules: &Rules,
    e: &(Key, Fact),
    fitness: &Fitness,
) -> Option<Happening>
    ensures value { (classes : List (SomeKey × SomeClass)) (limit : ℕ → ℕ) → rules.now ≡ rules_on equipment.now classes limit e.now.0.day
        → result ≡ law.happening equipment.now classes limit e.now.0.day fitness.now e.now.1.body }
{
    happening(equipment, rules, e.0.day, fitness, &e.1.body)
}

/// Adds a fact of the component as an event, if it is one. It is judged by how the rule treats the component on its day, and a
/// reading also by its fitness. The fitness has no effect on other facts.
pub fn push_event(
    events: &mut Vec<Event>,
    equipment: &Equipment,
    rules: &Rules,
    e: &(Key, Fact),
    fitness: &Fitness,
) -> Result<(), Memory>
    ensures taken { OnOk result ((classes : List (SomeKey × SomeClass)) (limit : ℕ → ℕ) → rules.now ≡ rules_on equipment.now classes limit e.now.0.day
        → events.new.items ≡ events.old.items ++ option_to_list (law.event_of equipment.now classes limit e.now fitness.now)) }
{
    if let Some(what) = judged(equipment, rules, e, fitness) {
        events.push(Event { key: e.0, what })?;
    }
    Ok(())
}

/// Whether a fact is a reading.
fn is_reading(body: &FactBody) -> bool
    ensures value { result ≡ law.is_reading body.now }
{
    matches!(*body, FactBody::Reading { .. })
}

/// The next fitness.
fn next_fitness(left: &[Fitness]) -> Fitness
    ensures value { result ≡ law.next_fitness left.now }
{
    match left.first() {
        Some(fitness) => *fitness,
        None => Fitness::NoCalibration,
    }
}

/// The fitnesses that remain after a fact.
fn fitness_left<'a>(body: &FactBody, left: &'a [Fitness]) -> &'a [Fitness]
    ensures value { result.now ≡ law.fitness_left body.now left.now }
{
    if is_reading(body) && !left.is_empty() {
        &left[1..]
    } else {
        left
    }
}
