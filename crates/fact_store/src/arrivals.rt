ghost use Rattle.std.specs.Prelude.{◌≡◌, ℕ, ◌+◌, ◌<◌, ◌≤◌, Some, false, [], ◌∷◌, ◌++◌, length, take, drop, slice_get, OnOk, OnErr};
ghost use Rattle.list_words.specs.Order.{AllApart};
ghost use Rattle.fact_kinds.specs.declared.limits.TheConstants.{MOST_FACTS};
ghost use Rattle.fact_kinds.specs.Facts.{goes_first};
ghost use Rattle.fact_store.specs.Kept.{Kept, is_held};

use crate::place::Place;
use crate::steps::Steps;
use fact_kinds::{Fact, Key, Memory};
use std::alloc::Global;
use std::marker::Model;
use std::sync::ledger::Ledger;

/// Accepted facts that are not listed yet. In contracts they are like a store: the facts in order of arrival, and
/// the facts for which room is reserved.
#[derive(Drop)]
pub struct Arrivals {
    alloc: Global,
    arrived: Vec<(Key, Fact)>,
    /// The facts for which room was last reserved; the first `used` of them have arrived.
    reserved: Vec<Fact>,
    used: usize,
}

impl Model for Arrivals {
    ghost use Rattle.std.specs.Prelude.{drop};
    ghost use Rattle.fact_store.specs.Kept.{Kept};
    ghost use Rattle.fact_store.specs.Came.{HaveRoom};

    ghost Value = { Kept };

    ghost view = { λ a. record { arrived = a.arrived.items; spare = drop a.used a.reserved.items } };

    ghost invariant = { λ a. HaveRoom a.arrived a.reserved a.used };
}

impl Arrivals {
    /// No facts.
    pub fn new(alloc: Global) -> Arrivals
        ensures value { result ≡ record { arrived = []; spare = [] } }
    {
        Arrivals {
            alloc,
            arrived: Vec::new(alloc),
            reserved: Vec::new(alloc),
            used: 0,
        }
    }

    /// Reserves room for exactly these facts. When out of memory, nothing changes.
    pub fn reserve(&mut self, facts: &[Fact]) -> Result<(), Memory>
        ensures ok { OnOk result (self.new ≡ record self.old { spare = facts.now }) }
        ensures unchanged { OnErr result (self.new ≡ self.old) }
    {
        let reserved = Vec::from_slice(self.alloc, facts)?;
        self.arrived.reserve(facts.len())?;
        self.reserved = reserved;
        self.used = 0;
        Ok(())
    }

    /// How many facts have room.
    pub fn room(&self) -> usize
        ensures value { result ≡ length self.now.spare }
    {
        self.reserved.len() - self.used
    }

    /// Makes room for these facts after those that have room already. After `Memory` all is as it was.
    pub fn reserve_more(&mut self, facts: &[Fact]) -> Result<(), Memory>
        ensures ok { OnOk result (self.new ≡ record self.old { spare = self.old.spare ++ facts.now }) }
        ensures unchanged { OnErr result (self.new ≡ self.old) }
    {
        let mut reserved = Vec::from_slice(self.alloc, &self.reserved[self.used..])?;
        reserved.extend_from_slice(facts)?;
        self.arrived.reserve(reserved.len())?;
        self.reserved = reserved;
        self.used = 0;
        Ok(())
    }

    /// Of the facts that have room only `count` keep it, those after the first `passed`.
    pub fn keep_room(&mut self, passed: usize, count: usize)
        requires within { passed + count ≤ length self.old.spare }
        ensures value { self.new ≡ record self.old { spare = take count (drop passed self.old.spare) } }
    {
        self.used += passed;
        self.reserved.truncate(self.used + count);
    }

    /// Adds a fact with its key. It allocates nothing, since room for the fact is reserved.
    pub fn insert(&mut self, key: Key, fact: Fact)
        requires roomy { slice_get self.old.spare 0 ≡ Some fact }
        requires new_key { is_held key self.old.arrived ≡ false }
        requires few { length self.old.arrived < MOST_FACTS }
        ensures value { self.new ≡ record { arrived = self.old.arrived ++ (key, fact) ∷ []; spare = drop 1 self.old.spare } }
    {
        self.arrived.push_reserved((key, fact));
        self.used += 1;
    }

    /// The fact at a place, with its key. This is the only way to read a fact, and each read is counted.
    pub fn fact<L: Ledger>(&self, place: Place, steps: &mut Steps<L>) -> (&Key, &Fact)
        requires in_range { place.at < length self.now.arrived }
        ensures value { slice_get self.now.arrived place.at ≡ Some (result.0.now, result.1.now) }
        ensures counted { steps.new ≡ steps.old + 1 }
    {
        steps.tick();
        let entry = &self.arrived[place.at as usize];
        (&entry.0, &entry.1)
    }

    /// The facts in order of arrival, from which the lists are made.
    pub(crate) fn entries(&self) -> &[(Key, Fact)]
        ensures value { result.now ≡ self.now.arrived }
        ensures apart { AllApart goes_first self.now.arrived }
        ensures few { length self.now.arrived ≤ MOST_FACTS }
    {
        self.arrived.as_slice()
    }

    /// The facts for which room is reserved.
    pub(crate) fn spare(&self) -> &[Fact]
        ensures value { result.now ≡ self.now.spare }
    {
        &self.reserved[self.used..]
    }
}
