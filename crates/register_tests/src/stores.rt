ghost use Rattle.std.specs.Prelude.{◌≡◌, ◌<◌, ◌≤◌, length, All, OnOk};

use crate::entries::is_seen;
use fact_kinds::{Day, Fact, FactBody, Key, Memory, Purpose};
use fact_store::{FactStore, Facts, Place, Steps};
use std::alloc::{AllocError, Global};
use std::marker::Brand;
use std::process::Abort;
use std::sync::ledger::{Blank, Ledger};
use std::test::Fail;

/// A store of these facts, added in this order. If two have the same key, only the first is added.
fn store_of(alloc: Global, entries: &[(Key, Fact)]) -> Result<FactStore, Memory> {
    let mut store = FactStore::new(alloc);
    let mut seen: Vec<(Key, Fact)> = Vec::new(alloc);
    for entry in entries {
        add_new(&mut store, &mut seen, *entry)?;
    }
    Ok(store)
}

/// Adds a fact, if its key is not among those seen.
fn add_new(
    store: &mut FactStore,
    seen: &mut Vec<(Key, Fact)>,
    entry: (Key, Fact),
) -> Result<(), Memory>
    requires { seen.old.items ≡ store.old.arrived }
    ensures { OnOk result (seen.new.items ≡ store.new.arrived) }
{
    if seen.len() < 1000 && !is_seen(seen, &entry.0) {
        store.reserve(&[entry.1])?;
        store.insert(entry.0, entry.1);
        seen.push(entry)?;
    }
    Ok(())
}

/// A store of these facts, added in this order. They are listed after the first, then after each further `count`, and at
/// the end. If two have the same key, only the first is added.
fn listed_at_each(alloc: Global, entries: &[(Key, Fact)], count: usize) -> Result<FactStore, Memory>
    requires some { 0 < count }
{
    let mut facts = Facts::new(alloc);
    let mut seen: Vec<(Key, Fact)> = Vec::new(alloc);
    for at in 0..entries.len() {
        add_fact(&mut facts, &mut seen, entries[at])?;
        if at % count == 0 {
            facts = Facts::of(facts.list()?);
        }
    }
    facts.list()
}

/// Adds a fact, if its key is not among those seen.
fn add_fact(
    facts: &mut Facts,
    seen: &mut Vec<(Key, Fact)>,
    entry: (Key, Fact),
) -> Result<(), Memory>
    requires { seen.old.items ≡ facts.old.arrived }
    ensures { OnOk result (seen.new.items ≡ facts.new.arrived) }
{
    if seen.len() < 1000 && !is_seen(seen, &entry.0) {
        facts.reserve(&[entry.1])?;
        facts.insert(entry.0, entry.1);
        seen.push(entry)?;
    }
    Ok(())
}

/// The keys of the facts at some places.
fn keys_at<L: Ledger>(
    alloc: Global,
    blank: Blank,
    store: &FactStore,
    places: &[Place],
) -> Result<Vec<Key>, AllocError>
    requires name { blank.name ≡ L.name }
    requires parts { blank.parts ≡ L.parts }
    requires some_part { 0 < L.parts }
    requires held { All (λ place. place.at < length store.now.arrived) places.now }
{
    let mut steps = Steps::<L>::new(blank);
    let mut keys = Vec::new(alloc);
    for place in places {
        let (key, _) = store.fact(*place, &mut steps);
        keys.push(*key)?;
    }
    Ok(keys)
}

/// The keys of the facts of a component.
fn keys_of(
    alloc: Global,
    blank: Blank,
    store: &FactStore,
    component: u16,
) -> Result<Vec<Key>, AllocError>
    requires some_part { 0 < blank.parts }
{
    keys_at::<Brand>(alloc, blank, store, store.of_component(component))
}

/// The keys of the tests of an instrument.
fn keys_of_tests(
    alloc: Global,
    blank: Blank,
    store: &FactStore,
    instrument: u16,
) -> Result<Vec<Key>, AllocError>
    requires some_part { 0 < blank.parts }
{
    keys_at::<Brand>(alloc, blank, store, store.of_instrument(instrument))
}

/// The keys of the readings of an instrument.
fn keys_of_readings(
    alloc: Global,
    blank: Blank,
    store: &FactStore,
    instrument: u16,
) -> Result<Vec<Key>, AllocError>
    requires some_part { 0 < blank.parts }
{
    keys_at::<Brand>(alloc, blank, store, store.readings_of(instrument))
}

/// Checks that these keys were found, in a case with a number.
fn same_keys(rt: &impl Abort, case: &str, number: usize, found: &[Key], want: &[Key]) {
    if *found != *want {
        panic!(rt; "{case} {number}: {found:?}, not {want:?}");
    }
}

/// The nth of the orders of five elements.
fn nth_order(alloc: Global, n: usize) -> Result<Vec<usize>, AllocError> {
    let mut left = vec![in alloc; 0, 1, 2, 3, 4]?;
    let mut order = Vec::new(alloc);
    let mut rest = n;
    while !left.is_empty() {
        let count = left.len();
        order.push(left.remove(rest % count))?;
        rest /= count;
    }
    Ok(order)
}

fn at(day: Day, minute: u16, handheld: u16, number: u32, index: u16) -> Key {
    Key {
        day,
        minute,
        handheld,
        number,
        index,
    }
}

fn attempt(day: Day) -> Fact {
    attempt_at(day, 7)
}

fn attempt_at(day: Day, component: u16) -> Fact
    requires low { 1 ≤ component }
    requires high { component ≤ 60_000 }
{
    Fact {
        day,
        minute: 0,
        body: FactBody::Attempt {
            component,
            complete: false,
        },
    }
}

/// Five keys in key order: an earlier day, then one minute by handheld, number and index.
fn five_keys(first: Day, second: Day) -> [Key; 5] {
    [
        at(first, 700, 9, 9, 9),
        at(second, 600, 1, 1, 0),
        at(second, 600, 1, 1, 1),
        at(second, 600, 1, 2, 0),
        at(second, 600, 2, 1, 0),
    ]
}

/// Attempts on a day with these keys, in this order.
fn attempts_in(
    alloc: Global,
    day: Day,
    keys: &[Key],
    order: &[usize],
) -> Result<Vec<(Key, Fact)>, AllocError> {
    let mut entries = Vec::new(alloc);
    for index in order {
        if let Some(key) = keys.get(*index) {
            entries.push((*key, attempt(day)))?;
        }
    }
    Ok(entries)
}

/// A store of attempts on a day with these keys, added in the nth order.
fn store_in_order(alloc: Global, day: Day, keys: &[Key], n: usize) -> Result<FactStore, Memory> {
    let order = nth_order(alloc, n)?;
    let entries = attempts_in(alloc, day, keys, &order)?;
    store_of(alloc, &entries)
}

/// Checks that a store has only attempts at component 7, with these keys.
fn has_attempts(
    rt: &impl Abort,
    alloc: Global,
    store: &FactStore,
    keys: &[Key],
    n: usize,
) -> Result<(), Fail> {
    let found = keys_of(alloc, Blank::new(1), store, 7)?;
    same_keys(rt, "in order", n, &found, keys);
    assert!(rt; store.of_component(8).is_empty());
    assert!(rt; store.of_unit(7).is_empty());
    Ok(())
}

#[test]
fn late_facts_come_in_every_order(rt: HostRuntime) -> Result<(), Fail> {
    let first = Day::of_number(20_000).ok_or("day")?;
    let second = Day::of_number(20_001).ok_or("day")?;
    let keys = five_keys(first, second);
    for n in 0..120 {
        let store = store_in_order(rt.alloc(), first, &keys, n)?;
        has_attempts(&rt, rt.alloc(), &store, &keys, n)?;
    }
    Ok(())
}

fn calibration(day: Day) -> Fact {
    let body = FactBody::Calibration {
        instrument: 3,
        gas: 500,
    };
    Fact {
        day,
        minute: 5,
        body,
    }
}

fn reading(day: Day) -> Fact {
    let body = FactBody::Reading {
        component: 7,
        instrument: 3,
        operator: 1,
        purpose: Purpose::Routine,
        ppm: 20,
        background: 2,
    };
    Fact {
        day,
        minute: 9,
        body,
    }
}

/// A store of a reading and a calibration on a day.
fn store_of_two(alloc: Global, day: Day) -> Result<FactStore, Memory> {
    let entries = [
        (at(day, 9, 1, 1, 0), reading(day)),
        (at(day, 5, 1, 1, 1), calibration(day)),
    ];
    store_of(alloc, &entries)
}

#[test]
fn an_instruments_tests_and_readings_stand_apart(rt: HostRuntime) -> Result<(), Fail> {
    let day = Day::of_number(20_000).ok_or("day")?;
    let store = store_of_two(rt.alloc(), day)?;
    let tests = keys_of_tests(rt.alloc(), Blank::new(1), &store, 3)?;
    same_keys(
        &rt,
        "tests of instrument",
        3,
        &tests,
        &[at(day, 5, 1, 1, 1)],
    );
    let readings = keys_of_readings(rt.alloc(), Blank::new(1), &store, 3)?;
    same_keys(
        &rt,
        "readings of instrument",
        3,
        &readings,
        &[at(day, 9, 1, 1, 0)],
    );
    let named = keys_of(rt.alloc(), Blank::new(1), &store, 7)?;
    same_keys(&rt, "component", 7, &named, &[at(day, 9, 1, 1, 0)]);
    assert!(rt; store.readings_of(4).is_empty());
    Ok(())
}

/// A hundred facts of five components: four long lists in reverse order, and one in mixed order.
fn a_hundred(alloc: Global, day: Day) -> Result<Vec<(Key, Fact)>, AllocError> {
    let mut entries = Vec::new(alloc);
    for n in 0..100 {
        let minute = if n % 5 == 0 { n * 37 % 101 } else { 1000 - n };
        entries.push((at(day, minute, 1, 1, n), attempt_at(day, n % 5 + 1)))?;
    }
    Ok(entries)
}

/// Checks that two stores have the same facts of a component.
fn same_facts(
    rt: &impl Abort,
    alloc: Global,
    inserted: &FactStore,
    listed: &FactStore,
    component: u16,
) -> Result<(), Fail> {
    let want = keys_of(alloc, Blank::new(1), inserted, component)?;
    let found = keys_of(alloc, Blank::new(2), listed, component)?;
    same_keys(rt, "component", usize::from(component), &found, &want);
    Ok(())
}

/// Checks that two stores have the same facts of each component.
fn same_lists(
    rt: &impl Abort,
    alloc: Global,
    inserted: &FactStore,
    listed: &FactStore,
) -> Result<(), Fail> {
    for component in 0..6 {
        same_facts(rt, alloc, inserted, listed, component)?;
    }
    Ok(())
}

#[test]
fn late_facts_are_listed_at_once_as_one_by_one(rt: HostRuntime) -> Result<(), Fail> {
    let day = Day::of_number(20_000).ok_or("day")?;
    let entries = a_hundred(rt.alloc(), day)?;
    let inserted = store_of(rt.alloc(), &entries)?;
    for count in [1, 7, 30, 100] {
        let listed = listed_at_each(rt.alloc(), &entries, count)?;
        same_lists(&rt, rt.alloc(), &inserted, &listed)?;
    }
    Ok(())
}

/// A long list, then this many late facts.
fn long_and_late(alloc: Global, day: Day, late: u16) -> Result<Vec<(Key, Fact)>, AllocError> {
    let mut entries = Vec::new(alloc);
    for n in 0..201 {
        entries.push((at(day, 2 * n, 1, 1, 0), attempt(day)))?;
    }
    for n in 0..late {
        let minute = (n % 401 + 5) * 37 % 401;
        entries.push((at(day, minute, 1, 2, 0), attempt(day)))?;
    }
    Ok(entries)
}

/// The keys in key order.
fn sorted_keys(alloc: Global, entries: &[(Key, Fact)]) -> Result<Vec<Key>, AllocError> {
    let mut keys = Vec::new(alloc);
    for entry in entries {
        keys.push(entry.0)?;
    }
    keys.sort_unstable();
    Ok(keys)
}

/// The keys of the facts of component 7, listed after the first, the 201st and so on, and at the end.
fn listed_keys(alloc: Global, entries: &[(Key, Fact)]) -> Result<Vec<Key>, Memory> {
    let listed = listed_at_each(alloc, entries, 200)?;
    keys_of(alloc, Blank::new(1), &listed, 7)
}

/// Checks that this many late facts are at their places in a long list.
fn go_into_a_long_list(rt: &impl Abort, alloc: Global, day: Day, late: u16) -> Result<(), Fail> {
    let entries = long_and_late(alloc, day, late)?;
    let found = listed_keys(alloc, &entries)?;
    let want = sorted_keys(alloc, &entries)?;
    same_keys(rt, "late", usize::from(late), &found, &want);
    Ok(())
}

#[test]
fn late_facts_go_into_a_long_list(rt: HostRuntime) -> Result<(), Fail> {
    let day = Day::of_number(20_000).ok_or("day")?;
    // One late fact and twenty are merged into the list; a hundred are sorted with it.
    for late in [1, 20, 100] {
        go_into_a_long_list(&rt, rt.alloc(), day, late)?;
    }
    Ok(())
}

/// A store in which a fact with reserved room is added after its list was made.
fn store_of_late(rt: &impl Abort, alloc: Global, day: Day) -> Result<FactStore, Memory> {
    let late = attempt(day);
    let mut facts = Facts::new(alloc);
    facts.reserve(&[late])?;
    let mut store = facts.list()?;
    assert!(rt; store.of_component(7).is_empty());
    store.insert(at(day, 9, 1, 1, 0), late);
    Ok(store)
}

#[test]
fn a_fact_with_room_comes_after_a_list_was_made(rt: HostRuntime) -> Result<(), Fail> {
    let day = Day::of_number(20_000).ok_or("day")?;
    let store = store_of_late(&rt, rt.alloc(), day)?;
    let found = keys_of(rt.alloc(), Blank::new(1), &store, 7)?;
    same_keys(&rt, "component", 7, &found, &[at(day, 9, 1, 1, 0)]);
    Ok(())
}
