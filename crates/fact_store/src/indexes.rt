//! The indexes of a store.
//!
//! `catch_up` lists facts in parts of 4,096. All indexes go over a part before the next one: first each counts its numbers, to
//! make room once, and then each appends the places. So the facts are read from memory twice, and not twice for each index.

ghost use Rattle.std.specs.Prelude.{◌≡◌, ◌+◌, ◌≤◌, List, [], length, take, min, IfOk, OnOk, OnErr};
ghost use Rattle.list_words.specs.Order.{AllApart};
ghost use Rattle.fact_kinds.specs.declared.limits.TheConstants.{MOST_FACTS};
ghost use Rattle.fact_kinds.specs.Facts.{Entry, goes_first};
ghost use Rattle.fact_kinds.specs.Stated.{Stated};
ghost use Rattle.fact_store.specs.declared.indexes.TheConstants.{NEAR_FACTS};
ghost use Rattle.fact_store.specs.declared.indexes.Counts.{Counts};
ghost use Rattle.fact_store.specs.Inside.{AreEmpty, KeepAll, KeepFirst};
ghost use Rattle.fact_store.specs.Parts.{CountAll, KeepTurn};

use crate::counts::add_spare;
use crate::index::Index;
use crate::naming::Naming;
use fact_kinds::{Fact, Key};
use std::alloc::{AllocError, Global};

/// The number of facts in a part, few enough to stay in the cache while each index goes over them.
const NEAR_FACTS: usize = 4_096;

/// The end of the part that begins at `from`, among `count` facts.
fn end_of_part(from: usize, count: usize) -> usize
    ensures value { result ≡ min (from + NEAR_FACTS) count }
{
    from.saturating_add(NEAR_FACTS).min(count)
}

/// The counts of the facts of each number, one list of counts for each index.
#[derive(Drop)]
struct Counts {
    components: Vec<usize>,
    units: Vec<usize>,
    instruments: Vec<usize>,
    readings: Vec<usize>,
}

impl Counts {
    /// Counts of no facts.
    fn new(alloc: Global) -> Counts
        ensures components { result.components.items ≡ [] }
        ensures units { result.units.items ≡ [] }
        ensures instruments { result.instruments.items ≡ [] }
        ensures readings { result.readings.items ≡ [] }
    {
        Counts {
            components: Vec::new(alloc),
            units: Vec::new(alloc),
            instruments: Vec::new(alloc),
            readings: Vec::new(alloc),
        }
    }
}

/// The indexes of facts: by component, process unit and instrument.
#[derive(Drop)]
pub struct Indexes {
    pub components: Index,
    pub units: Index,
    pub instruments: Index,
    pub readings: Index,
}

impl Indexes {
    /// Indexes of no facts.
    pub fn new(alloc: Global) -> Indexes
        ensures value { AreEmpty result }
    {
        Indexes {
            components: Index::new(alloc, Naming::Component),
            units: Index::new(alloc, Naming::Unit),
            instruments: Index::new(alloc, Naming::Tested),
            readings: Index::new(alloc, Naming::Reading),
        }
    }

    /// Counts for each index the facts of a part that it does not list. The facts before the part are counted already.
    fn count_part(
        &self,
        counts: &mut Counts,
        arrived: &[(Key, Fact)],
        from: usize,
        to: usize,
    ) -> Result<(), AllocError>
        requires part { from ≤ to }
        requires within { to ≤ length arrived.now }
        requires few { length arrived.now ≤ MOST_FACTS }
        requires counted { CountAll self.now (take from arrived.now) [] counts.old }
        ensures counted { OnOk result (CountAll self.now (take to arrived.now) [] counts.new) }
    {
        self.components
            .count_part(&mut counts.components, arrived, from, to)?;
        self.units.count_part(&mut counts.units, arrived, from, to)?;
        self.instruments
            .count_part(&mut counts.instruments, arrived, from, to)?;
        self.readings
            .count_part(&mut counts.readings, arrived, from, to)
    }

    /// Counts for each index the facts with reserved room. The facts that arrived are counted already.
    fn count_spare(
        &self,
        counts: &mut Counts,
        arrived: &[(Key, Fact)],
        spare: &[Fact],
    ) -> Result<(), AllocError>
        requires few { length arrived.now ≤ MOST_FACTS }
        requires counted { CountAll self.now arrived.now [] counts.old }
        ensures counted { OnOk result (CountAll self.now arrived.now spare.now counts.new) }
    {
        add_spare(&mut counts.components, self.components.naming, spare)?;
        add_spare(&mut counts.units, self.units.naming, spare)?;
        add_spare(&mut counts.instruments, self.instruments.naming, spare)?;
        add_spare(&mut counts.readings, self.readings.naming, spare)
    }

    /// Counts for each index the facts that it does not list and those with reserved room.
    fn count(
        &self,
        alloc: Global,
        arrived: &[(Key, Fact)],
        spare: &[Fact],
    ) -> Result<Counts, AllocError>
        requires few { length arrived.now ≤ MOST_FACTS }
        ensures counted { IfOk result (λ counts. CountAll self.now arrived.now spare.now counts) }
    {
        let mut counts = Counts::new(alloc);
        let mut from = 0;
        'parts: while from < arrived.len() {
            let to = end_of_part(from, arrived.len());
            self.count_part(&mut counts, arrived, from, to)?;
            from = to;
        }
        self.count_spare(&mut counts, arrived, spare)?;
        Ok(counts)
    }

    /// Makes room for as many more places as these counts. When out of memory, the listed facts are the same.
    fn make_room(&mut self, alloc: Global, counts: &Counts) -> Result<(), AllocError>
        ensures ok { OnOk result ((arrived : List Entry) (spare : List Stated) → KeepFirst arrived self.old
            → CountAll self.old arrived spare counts.now → KeepTurn arrived spare 0 self.new) }
        ensures first { (arrived : List Entry) → KeepFirst arrived self.old → KeepFirst arrived self.new }
        ensures counted { OnOk result ((arrived : List Entry) (spare : List Stated) → CountAll self.old arrived spare counts.now
            → CountAll self.new arrived spare counts.now) }
        ensures listed { self.new.readings.listed ≡ self.old.readings.listed }
    {
        self.components.make_room(alloc, &counts.components)?;
        self.units.make_room(alloc, &counts.units)?;
        self.instruments.make_room(alloc, &counts.instruments)?;
        self.readings.make_room(alloc, &counts.readings)
    }

    /// Appends to each index the places of a part's facts that it does not list. Those before the part are appended already.
    fn push_part(&mut self, arrived: &[(Key, Fact)], from: usize, to: usize)
        requires part { from ≤ to }
        requires within { to ≤ length arrived.now }
        requires few { length arrived.now ≤ MOST_FACTS }
        requires turned { KeepTurn arrived.now [] from self.old }
        ensures turned { (spare : List Stated) → KeepTurn arrived.now spare from self.old → KeepTurn arrived.now spare to self.new }
        ensures counted { (spare : List Stated) (counted : Counts) → CountAll self.old arrived.now spare counted → CountAll self.new arrived.now spare counted }
    {
        self.components.push_part(arrived, from, to);
        self.units.push_part(arrived, from, to);
        self.instruments.push_part(arrived, from, to);
        self.readings.push_part(arrived, from, to);
    }

    /// Lists the facts that arrived since the last listing, with room for the places of the reserved ones.
    /// When out of memory, each index lists some of the first facts, and the index of readings as many as before.
    pub fn catch_up(
        &mut self,
        alloc: Global,
        arrived: &[(Key, Fact)],
        spare: &[Fact],
    ) -> Result<(), AllocError>
        requires apart { AllApart goes_first arrived.now }
        requires few { length arrived.now ≤ MOST_FACTS }
        requires first { KeepFirst arrived.now self.old }
        ensures ok { OnOk result (KeepAll arrived.now spare.now self.new) }
        ensures some { OnErr result (KeepFirst arrived.now self.new) }
        ensures listed { OnErr result (self.new.readings.listed ≡ self.old.readings.listed) }
    {
        let counts = self.count(alloc, arrived, spare)?;
        self.make_room(alloc, &counts)?;
        let mut from = 0;
        'parts: while from < arrived.len() {
            let to = end_of_part(from, arrived.len());
            self.push_part(arrived, from, to);
            from = to;
        }
        self.components.settle(arrived, &counts.components);
        self.units.settle(arrived, &counts.units);
        self.instruments.settle(arrived, &counts.instruments);
        self.readings.settle(arrived, &counts.readings);
        Ok(())
    }
}
