ghost use Rattle.std.specs.Prelude.{◌≡◌, ◌+◌, ◌<◌, ◌≤◌, length, All, IfOk};
ghost use Rattle.list_words.specs.Order.{Ascends};
ghost use Rattle.fact_kinds.specs.Facts.{goes_first};
ghost use Rattle.fact_store.specs.Kept.{entries_at, facts_in};
ghost use Rattle.ldar_law.specs.Slices as law;

use fact_kinds::{Fact, Key, Memory};
use fact_store::{FactStore, Place, Steps};
use std::alloc::Global;
use std::sync::ledger::Ledger;

/// The facts at some places, with their keys. Each is read once.
fn read<L: Ledger>(
    alloc: Global,
    store: &FactStore,
    places: &[Place],
    steps: &mut Steps<L>,
) -> Result<Vec<(Key, Fact)>, Memory>
    requires held { All (λ place. place.at < length store.now.arrived) places.now }
    ensures value { IfOk result (λ facts. facts.items ≡ entries_at store.now.arrived places.now) }
    ensures counted { steps.new ≤ steps.old + length (entries_at store.now.arrived places.now) }
{
    let mut facts = Vec::with_capacity(alloc, places.len())?;
    for place in places {
        let (key, fact) = store.fact(*place, steps);
        facts.push_reserved((*key, *fact));
    }
    Ok(facts)
}

/// The facts of a store, read list by list.
#[derive(Clone, Copy)]
pub struct Lists<'a> {
    pub alloc: Global,
    pub store: &'a FactStore,
}

impl Lists<'_> {
    /// The facts that name a component, in key order.
    pub fn of_component<L: Ledger>(
        &self,
        component: u16,
        steps: &mut Steps<L>,
    ) -> Result<Vec<(Key, Fact)>, Memory>
        ensures value { IfOk result (λ facts. facts.items ≡ law.facts_of_component component (facts_in self.now.store.now)) }
        ensures counted { steps.new ≤ steps.old + length (law.facts_of_component component (facts_in self.now.store.now)) }
    {
        read(
            self.alloc,
            self.store,
            self.store.of_component(component),
            steps,
        )
    }

    /// The facts that name a process unit, in key order.
    pub fn of_unit<L: Ledger>(
        &self,
        unit: u8,
        steps: &mut Steps<L>,
    ) -> Result<Vec<(Key, Fact)>, Memory>
        ensures value { IfOk result (λ facts. facts.items ≡ law.facts_of_unit unit (facts_in self.now.store.now)) }
        ensures counted { steps.new ≤ steps.old + length (law.facts_of_unit unit (facts_in self.now.store.now)) }
    {
        read(self.alloc, self.store, self.store.of_unit(unit), steps)
    }

    /// The calibrations, precision tests and drift assessments of an instrument, in key order.
    pub fn of_instrument<L: Ledger>(
        &self,
        instrument: u16,
        steps: &mut Steps<L>,
    ) -> Result<Vec<(Key, Fact)>, Memory>
        ensures value { IfOk result (λ facts. facts.items ≡ law.facts_of_instrument instrument (facts_in self.now.store.now)) }
        ensures counted { steps.new ≤ steps.old + length (law.facts_of_instrument instrument (facts_in self.now.store.now)) }
    {
        read(
            self.alloc,
            self.store,
            self.store.of_instrument(instrument),
            steps,
        )
    }
}
