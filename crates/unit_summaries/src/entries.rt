ghost use Rattle.std.specs.Prelude.{◌≡◌, ◌+◌, ◌-◌, ◌≤◌, ◌++◌, IfOk, OnOk};
ghost use Rattle.std.specs.Option.{option_to_list};
ghost use Rattle.list_words.specs.Order.{Ascends};
ghost use Rattle.ldar_days.specs.Calendar.{end_by};
ghost use Rattle.fact_kinds.specs.Facts.{goes_first, is_earlier};
ghost use Rattle.ldar_law.specs.Equipment as law;

use fact_kinds::{Class, Fact, FactBody, Key, Memory};
use ldar_days::Day;
use ldar_law::{ElectionEntry, Items, OfUnit, Stop};
use std::alloc::Global;

/// Adds an element, if there is one.
pub fn add<T: Copy + Drop>(items: &mut Vec<T>, item: &Option<T>) -> Result<(), Memory>
    ensures put { OnOk result (items.new.items ≡ items.old.items ++ option_to_list item.now) }
{
    if let Some(item) = item {
        items.push(*item)?;
    }
    Ok(())
}

/// The shutdown that begins on a day and lasts this number of days.
fn stop_from(first: Day, days: u16) -> Stop
    requires days { 1 ≤ days }
    ensures value { result ≡ record { first = first; last = end_by (first + days - 1) } }
{
    Stop {
        first,
        last: first.plus_days(u32::from(days) - 1),
    }
}

/// The shutdown of a process unit that a fact of a day enters.
fn stop_entered(number: u8, day: Day, fact: &Fact) -> Option<Stop>
    ensures value { result ≡ law.stop_entered number day fact.now.body }
{
    match fact.body {
        FactBody::Shutdown { unit, days } => {
            if unit == number {
                Some(stop_from(day, days))
            } else {
                None
            }
        }
        _ => None,
    }
}

/// The shutdowns of a process unit that some facts enter, in their order.
#[tactic(auto, using(crate::proofs::ListLemmas::given_pushed))]
fn stops_of(alloc: Global, number: u8, facts: &[(Key, Fact)]) -> Result<Vec<Stop>, Memory>
    ensures value { IfOk result (λ stops. stops.items ≡ law.stops_of number facts.now) }
{
    let mut stops = Vec::new(alloc);
    for e in facts {
        add(&mut stops, &stop_entered(number, e.0.day, &e.1))?;
    }
    Ok(stops)
}

/// What some facts enter for a process unit that each of its components is judged by.
pub fn entered_for(alloc: Global, number: u8, facts: &[(Key, Fact)]) -> Result<OfUnit, Memory>
    ensures value { IfOk result (λ unit. unit ≡ law.of_unit number facts.now) }
{
    let stops = stops_of(alloc, number, facts)?;
    Ok(OfUnit {
        stops: Items::new(stops),
    })
}

/// The election of a program of skip periods that a fact enters for a process unit (40 CFR 60.483-2a).
fn election_entered(number: u8, e: &(Key, Fact)) -> Option<ElectionEntry>
    ensures value { result ≡ law.election_entered number e.now.0 e.now.1.body }
{
    match e.1.body {
        FactBody::Election { unit, mode, .. } => {
            if unit == number {
                Some(ElectionEntry { key: e.0, mode })
            } else {
                None
            }
        }
        _ => None,
    }
}

/// The elections of a process unit that some facts enter, in their order.
#[tactic(auto, using(crate::proofs::ListLemmas::given_pushed))]
pub fn elections_of(
    alloc: Global,
    number: u8,
    facts: &[(Key, Fact)],
) -> Result<Vec<ElectionEntry>, Memory>
    requires ordered { Ascends goes_first facts.now }
    ensures value { IfOk result (λ elections. elections.items ≡ law.elections_of number facts.now) }
    ensures ordered { IfOk result (λ elections. Ascends (λ a b. is_earlier a.key b.key) elections.items) }
{
    let mut elections = Vec::new(alloc);
    for e in facts {
        add(&mut elections, &election_entered(number, e))?;
    }
    Ok(elections)
}

/// The class that a fact enters for a component, with the key of the fact.
fn class_at(number: u16, e: &(Key, Fact)) -> Option<(Key, Class)>
    ensures value { result ≡ law.class_at number e.now }
{
    match e.1.body {
        FactBody::Class { component, class } => {
            if component == number {
                Some((e.0, class))
            } else {
                None
            }
        }
        _ => None,
    }
}

/// The classes that some facts enter for a component, in their order.
#[tactic(auto, using(crate::proofs::ListLemmas::given_pushed))]
pub fn classes_of(
    alloc: Global,
    number: u16,
    facts: &[(Key, Fact)],
) -> Result<Vec<(Key, Class)>, Memory>
    requires ordered { Ascends goes_first facts.now }
    ensures value { IfOk result (λ classes. classes.items ≡ law.classes_of number facts.now) }
    ensures ordered { IfOk result (λ classes. Ascends (λ a b. is_earlier a.0 b.0) classes.items) }
{
    let mut classes = Vec::new(alloc);
    for e in facts {
        add(&mut classes, &class_at(number, e))?;
    }
    Ok(classes)
}
