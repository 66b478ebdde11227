//! The classes that are entered for components. Of each day, the register has the last one by key: no other is in force on any
//! day. So a component has as many classes as there are days at most, however many facts enter them.

ghost use Rattle.std.specs.Prelude.{◌≡◌, ℕ, ◌<◌, ◌≤◌, ◌+◌, ◌-◌, true, false, nat_lt, IsTrue, IfOk, length, vec_len, vec_capacity};
ghost use Rattle.std.specs.List.{filter_map};
ghost use Rattle.std.specs.List.Sorted.{IsPartitionPoint};
ghost use Rattle.list_words.specs.Order.{Ascends};
ghost use Rattle.fact_kinds.specs.Named.{is_numbered};
ghost use Rattle.fact_store.specs.Lists.{items_in, room_in};
ghost use Rattle.component_register.specs.Classes.{class_named, day_first, put_by_day, TakesClass};

use fact_kinds::{Class, Fact, FactBody, Key, precedes};
use fact_store::lists::Lists;
use ldar_days::Day;
use std::alloc::{AllocError, Global};

/// The component of which a fact enters a class.
fn reclassed(body: &FactBody) -> Option<u16>
    ensures value { result ≡ class_named body.now }
{
    match *body {
        FactBody::Class { component, .. } => Some(component),
        _ => None,
    }
}

/// The components of which some facts enter classes, as often as they do.
pub fn reclassed_among(alloc: Global, facts: &[Fact]) -> Result<Vec<u16>, AllocError>
    ensures value { IfOk result (λ numbers. numbers.items ≡ filter_map (λ fact. class_named fact.body) facts.now) }
{
    facts
        .iter()
        .filter_map(|fact| reclassed(&fact.body))
        .collect(alloc)
}

/// Where the classes of a day and of later days begin among those of a component.
fn index_for(classes: &[(Key, Class)], day: Day) -> usize
    requires { Ascends day_first classes.now }
    ensures within { result ≤ length classes.now }
    ensures value { IsPartitionPoint (λ e. nat_lt e.0.day day ≡ true) (λ e. nat_lt e.0.day day ≡ false) classes.now result }
{
    classes.partition_point(|entered| entered.0.day < day)
}

/// Puts a class that was entered with a key among those of a component. Of each day, the last one by key stays.
fn put_day(classes: &mut Vec<(Key, Class)>, key: Key, class: Class)
    requires roomy { 0 < vec_capacity classes.old - vec_len classes.old }
    requires ordered { Ascends day_first classes.old.items }
    ensures value { classes.new.items ≡ put_by_day (key, class) classes.old.items }
    ensures room { vec_capacity classes.old - vec_len classes.old ≤ vec_capacity classes.new - vec_len classes.new + 1 }
{
    let index = index_for(classes, key.day);
    if index < classes.len() && classes[index].0.day == key.day {
        if !precedes(&key, &classes[index].0) {
            classes[index] = (key, class);
        }
        return;
    }
    // There is room, so this cannot fail.
    let _ = classes.insert(index, (key, class));
}

/// Puts the class that a fact enters among those of its component.
pub fn put_class(classes: &mut Lists<(Key, Class)>, key: &Key, body: &FactBody)
    requires roomy { (n : ℕ) → IsTrue (is_numbered (class_named body.now) n) → 0 < room_in classes.old.items n }
    requires ordered { (n : ℕ) → Ascends day_first (items_in classes.old.items n) }
    ensures { TakesClass key.now body.now classes.old.items classes.new.items }
{
    if let FactBody::Class { component, class } = *body {
        put_day(&mut classes[usize::from(component)], *key, class);
    }
}
