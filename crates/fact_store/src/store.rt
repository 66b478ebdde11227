ghost use Rattle.std.specs.Prelude.{◌≡◌, ℕ, ◌+◌, ◌<◌, ◌≤◌, Some, false, [], ◌∷◌, ◌++◌, length, take, drop, slice_get, IfOk, OnOk, OnErr};
ghost use Rattle.fact_kinds.specs.declared.limits.TheConstants.{MOST_FACTS};
ghost use Rattle.fact_kinds.specs.Named as named;
ghost use Rattle.fact_store.specs.Coming.{listed_front, stored};
ghost use Rattle.fact_store.specs.Kept.{Kept, ArePlacesOf, is_held};

use crate::arrivals::Arrivals;
use crate::indexes::Indexes;
use crate::place::Place;
use crate::steps::Steps;
use fact_kinds::{Fact, Key, Memory};
use std::alloc::Global;
use std::marker::Model;
use std::mem;
use std::sync::ledger::Ledger;

/// Accepted facts. In contracts it is the facts in order of arrival, and the facts for which room is reserved.
#[derive(Drop)]
pub struct FactStore {
    alloc: Global,
    arrivals: Arrivals,
    indexes: Indexes,
}

impl Model for FactStore {
    ghost use Rattle.fact_store.specs.Kept.{Kept};
    ghost use Rattle.fact_store.specs.Inside.{KeepAll};

    ghost Value = { Kept };

    ghost view = { λ s. s.arrivals };

    ghost invariant = { λ s. KeepAll s.arrivals.arrived s.arrivals.spare s.indexes };
}

/// Accepted facts as they arrive; the first ones are listed. In contracts they are like a store, with the number of facts that
/// are listed.
#[derive(Drop)]
pub struct Facts {
    alloc: Global,
    arrivals: Arrivals,
    indexes: Indexes,
}

impl Model for Facts {
    ghost use Rattle.fact_store.specs.Coming.{Coming};
    ghost use Rattle.fact_store.specs.Inside.{KeepFirst};

    ghost Value = { Coming };

    ghost view = { λ f. record { arrived = f.arrivals.arrived; spare = f.arrivals.spare; listed = f.indexes.readings.listed } };

    ghost invariant = { λ f. KeepFirst f.arrivals.arrived f.indexes };
}

impl Facts {
    /// No facts.
    pub fn new(alloc: Global) -> Facts
        ensures value { result ≡ record { arrived = []; spare = []; listed = 0 } }
    {
        Facts {
            alloc,
            arrivals: Arrivals::new(alloc),
            indexes: Indexes::new(alloc),
        }
    }

    /// The facts of a store, all of them listed.
    pub fn of(store: FactStore) -> Facts
        ensures value { result ≡ record { arrived = store.arrived; spare = store.spare; listed = length store.arrived } }
    {
        Facts {
            alloc: store.alloc,
            arrivals: store.arrivals,
            indexes: store.indexes,
        }
    }

    /// Reserves room for exactly these facts. When out of memory, nothing changes.
    pub fn reserve(&mut self, facts: &[Fact]) -> Result<(), Memory>
        ensures ok { OnOk result (self.new ≡ record self.old { spare = facts.now }) }
        ensures unchanged { OnErr result (self.new ≡ self.old) }
    {
        self.arrivals.reserve(facts)
    }

    /// How many facts have room.
    pub fn room(&self) -> usize
        ensures value { result ≡ length self.now.spare }
    {
        self.arrivals.room()
    }

    /// Makes room for these facts after those that have room already. After `Memory` all is as it was.
    pub fn reserve_more(&mut self, facts: &[Fact]) -> Result<(), Memory>
        ensures ok { OnOk result (self.new ≡ record self.old { spare = self.old.spare ++ facts.now }) }
        ensures unchanged { OnErr result (self.new ≡ self.old) }
    {
        self.arrivals.reserve_more(facts)
    }

    /// Of the facts that have room only `count` keep it, those after the first `passed`.
    pub fn keep_room(&mut self, passed: usize, count: usize)
        requires within { passed + count ≤ length self.old.spare }
        ensures value { self.new ≡ record self.old { spare = take count (drop passed self.old.spare) } }
    {
        self.arrivals.keep_room(passed, count);
    }

    /// Adds a fact with its key. It allocates nothing, since room for the fact is reserved.
    pub fn insert(&mut self, key: Key, fact: Fact)
        requires roomy { slice_get self.old.spare 0 ≡ Some fact }
        requires new_key { is_held key self.old.arrived ≡ false }
        requires few { length self.old.arrived < MOST_FACTS }
        ensures value { self.new ≡ record {
          arrived = self.old.arrived ++ (key, fact) ∷ [];
          spare = drop 1 self.old.spare;
          listed = self.old.listed;
        } }
    {
        self.arrivals.insert(key, fact);
    }

    /// The fact at a place, with its key. The read is counted.
    pub fn fact<L: Ledger>(&self, place: Place, steps: &mut Steps<L>) -> (&Key, &Fact)
        requires in_range { place.at < length self.now.arrived }
        ensures value { slice_get self.now.arrived place.at ≡ Some (result.0.now, result.1.now) }
        ensures counted { steps.new ≡ steps.old + 1 }
    {
        self.arrivals.fact(place, steps)
    }

    /// The places of the readings of an instrument among the listed facts, in key order. Facts that came since the last listing are
    /// not among them. It takes no memory.
    pub fn listed_readings(&self, instrument: u16) -> &[Place]
        ensures value { ArePlacesOf named.reading_instrument instrument (listed_front self.now) result.now }
        ensures within { self.now.listed ≤ length self.now.arrived }
    {
        self.indexes.readings.places_of(instrument)
    }

    /// Moves the facts and the reserved room into a store. The facts that are not listed yet are added to each list at once.
    /// When out of memory, nothing changes.
    pub fn list(&mut self) -> Result<FactStore, Memory>
        ensures ok { IfOk result (λ store. store ≡ stored self.old) }
        ensures empty { OnOk result (self.new ≡ record { arrived = []; spare = []; listed = 0 }) }
        ensures unchanged { OnErr result (self.new ≡ self.old) }
    {
        let alloc = self.alloc;
        let arrived = self.arrivals.entries();
        self.indexes
            .catch_up(alloc, arrived, self.arrivals.spare())?;
        Ok(FactStore {
            alloc,
            arrivals: mem::replace(&mut self.arrivals, Arrivals::new(alloc)),
            indexes: mem::replace(&mut self.indexes, Indexes::new(alloc)),
        })
    }
}

impl FactStore {
    /// A store with no facts.
    pub fn new(alloc: Global) -> FactStore
        ensures value { result ≡ record { arrived = []; spare = [] } }
    {
        FactStore {
            alloc,
            arrivals: Arrivals::new(alloc),
            indexes: Indexes::new(alloc),
        }
    }

    /// Reserves room for exactly these facts. When out of memory, the store is unchanged.
    pub fn reserve(&mut self, facts: &[Fact]) -> Result<(), Memory>
        ensures ok { OnOk result (self.new ≡ record self.old { spare = facts.now }) }
        ensures unchanged { OnErr result (self.new ≡ self.old) }
    {
        self.indexes.components.reserve(self.alloc, facts)?;
        self.indexes.units.reserve(self.alloc, facts)?;
        self.indexes.instruments.reserve(self.alloc, facts)?;
        self.indexes.readings.reserve(self.alloc, facts)?;
        self.arrivals.reserve(facts)?;
        Ok(())
    }

    /// Adds a fact with its key. It allocates nothing, since room for the fact is reserved.
    pub fn insert(&mut self, key: Key, fact: Fact)
        requires roomy { slice_get self.old.spare 0 ≡ Some fact }
        requires new_key { is_held key self.old.arrived ≡ false }
        requires few { length self.old.arrived < MOST_FACTS }
        ensures value { self.new ≡ record { arrived = self.old.arrived ++ (key, fact) ∷ []; spare = drop 1 self.old.spare } }
    {
        let arrived = self.arrivals.entries();
        self.indexes.components.put(arrived, &key, &fact.body);
        self.indexes.units.put(arrived, &key, &fact.body);
        self.indexes.instruments.put(arrived, &key, &fact.body);
        self.indexes.readings.put(arrived, &key, &fact.body);
        self.arrivals.insert(key, fact);
    }

    /// The places of the facts of a component, in key order.
    pub fn of_component(&self, component: u16) -> &[Place]
        ensures value { ArePlacesOf named.component_of component self.now result.now }
    {
        self.indexes.components.places_of(component)
    }

    /// The places of the facts of a process unit, in key order.
    pub fn of_unit(&self, unit: u8) -> &[Place]
        ensures value { ArePlacesOf named.unit_of unit self.now result.now }
    {
        self.indexes.units.places_of(u16::from(unit))
    }

    /// The places of the calibrations, precision tests and drift assessments of an instrument, in key order.
    pub fn of_instrument(&self, instrument: u16) -> &[Place]
        ensures value { ArePlacesOf named.tested_instrument instrument self.now result.now }
    {
        self.indexes.instruments.places_of(instrument)
    }

    /// The places of the readings of an instrument, in key order.
    pub fn readings_of(&self, instrument: u16) -> &[Place]
        ensures value { ArePlacesOf named.reading_instrument instrument self.now result.now }
    {
        self.indexes.readings.places_of(instrument)
    }

    /// The fact at a place, with its key. This is the only way to read a fact, and each read is counted.
    pub fn fact<L: Ledger>(&self, place: Place, steps: &mut Steps<L>) -> (&Key, &Fact)
        requires in_range { place.at < length self.now.arrived }
        ensures value { slice_get self.now.arrived place.at ≡ Some (result.0.now, result.1.now) }
        ensures counted { steps.new ≡ steps.old + 1 }
    {
        self.arrivals.fact(place, steps)
    }
}
