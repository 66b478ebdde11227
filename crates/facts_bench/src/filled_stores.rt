ghost use Rattle.std.specs.Prelude.{◌≡◌, IfOk};
ghost use Rattle.facts_bench.specs.Numbered.{AreNumbered};

use crate::fact_kind::{FactKind, fact_at};
use fact_kinds::{Fact, Key, MOST_FACTS, Memory};
use fact_store::{FactStore, Facts};
use std::alloc::{AllocError, Global};

/// The number of facts for which room is made at once: the maximum of a batch.
const AT_ONCE: usize = 512;

/// A store of the facts at these places, added one by one.
pub fn filled(alloc: Global, places: &[u32], sort: FactKind) -> Result<FactStore, Memory> {
    let mut store = FactStore::new(alloc);
    let mut came = 0;
    for some in places.chunks(AT_ONCE) {
        let facts = facts_at(alloc, some, sort)?;
        came = add_facts(&mut store, came, &facts)?;
    }
    Ok(store)
}

/// A store of the facts at these places, which arrive one by one and are then listed at once.
pub fn filled_at_once(alloc: Global, places: &[u32], sort: FactKind) -> Result<FactStore, Memory> {
    let mut arrivals = Facts::new(alloc);
    arrive(alloc, &mut arrivals, 0, places, sort)?;
    arrivals.list()
}

/// A store of the facts at these places: one half arrives and is listed, then the other.
pub fn filled_late(alloc: Global, places: &[u32], sort: FactKind) -> Result<FactStore, Memory> {
    let (first, late) = places.split_at(places.len() / 2);
    let mut arrivals = Facts::new(alloc);
    let came = arrive(alloc, &mut arrivals, 0, first, sort)?;
    let mut arrivals = Facts::of(arrivals.list()?);
    arrive(alloc, &mut arrivals, came, late, sort)?;
    arrivals.list()
}

/// Adds the facts at these places without listing them. Returns the number of facts after that.
fn arrive(
    alloc: Global,
    arrivals: &mut Facts,
    before: u32,
    places: &[u32],
    sort: FactKind,
) -> Result<u32, Memory>
    requires numbered { AreNumbered before arrivals.old.arrived }
    ensures numbered { IfOk result (λ came. AreNumbered came arrivals.new.arrived) }
{
    let mut came = before;
    for some in places.chunks(AT_ONCE) {
        let facts = facts_at(alloc, some, sort)?;
        came = add_arrivals(arrivals, came, &facts)?;
    }
    Ok(came)
}

fn facts_at(alloc: Global, places: &[u32], sort: FactKind) -> Result<Vec<Fact>, AllocError> {
    places
        .iter()
        .map(|place| fact_at(*place, sort))
        .collect(alloc)
}

/// Adds facts, each as a batch of its own with the next number. Returns the number of facts after that.
fn add_facts(store: &mut FactStore, before: u32, facts: &[Fact]) -> Result<u32, Memory>
    requires numbered { AreNumbered before store.old.arrived }
    ensures numbered { IfOk result (λ came. AreNumbered came store.new.arrived) }
{
    store.reserve(facts)?;
    let mut came = before;
    for fact in facts {
        if u64::from(came) >= MOST_FACTS {
            break;
        }
        store.insert(key_of(fact, came), *fact);
        came += 1;
    }
    Ok(came)
}

/// Adds facts without listing them, numbered in the same way.
fn add_arrivals(arrivals: &mut Facts, before: u32, facts: &[Fact]) -> Result<u32, Memory>
    requires numbered { AreNumbered before arrivals.old.arrived }
    ensures numbered { IfOk result (λ came. AreNumbered came arrivals.new.arrived) }
{
    arrivals.reserve(facts)?;
    let mut came = before;
    for fact in facts {
        if u64::from(came) >= MOST_FACTS {
            break;
        }
        arrivals.insert(key_of(fact, came), *fact);
        came += 1;
    }
    Ok(came)
}

/// The key of a fact that is the only one of its batch.
fn key_of(fact: &Fact, number: u32) -> Key
    ensures number { result.number ≡ number }
{
    Key {
        day: fact.day,
        minute: fact.minute,
        handheld: 1,
        number,
        index: 0,
    }
}
