ghost use Rattle.std.specs.Prelude.{◌≡◌, ℕ, ◌+◌, ◌^◌, ◌<◌, ◌≤◌, List, [], length, take, drop, OnOk};
ghost use Rattle.list_words.specs.Order.{AllApart};
ghost use Rattle.fact_kinds.specs.declared.limits.TheConstants.{MOST_FACTS};
ghost use Rattle.fact_kinds.specs.Facts.{Entry, goes_first};
ghost use Rattle.fact_kinds.specs.Stated.{Stated};
ghost use Rattle.fact_store.specs.declared.naming.Naming.{Naming};
ghost use Rattle.fact_store.specs.Inside.{KeepsFirst, KeepsIndex};
ghost use Rattle.fact_store.specs.Listing.{named_in};
ghost use Rattle.fact_store.specs.Lists.{items_in, room_in, value_at, OnlyGrow};
ghost use Rattle.fact_store.specs.Naming.{HasRoomFor, named_by};
ghost use Rattle.fact_store.specs.Parts.{AreCountsOf, KeepsTurn};
ghost use Rattle.fact_store.specs.Takes.{CanTake, Takes};

use crate::counts::add_counts;
use crate::listing::{push_places, settle_lists};
use crate::lists::{Lists, list_of, make_rooms, make_rooms_for};
use crate::naming::Naming;
use crate::place::Place;
use crate::put::put_place;
use fact_kinds::{Fact, FactBody, Key};
use std::alloc::{AllocError, Global};

/// The places of facts by one of their numbers, in key order. It lists the first `listed` facts to arrive.
#[derive(Drop)]
pub struct Index {
    pub naming: Naming,
    pub lists: Lists<Place>,
    pub listed: usize,
}

impl Index {
    /// An index of no facts.
    pub fn new(alloc: Global, naming: Naming) -> Index
        ensures naming { result.naming ≡ naming }
        ensures value { result.lists.items ≡ [] }
        ensures listed { result.listed ≡ 0 }
    {
        Index {
            naming,
            lists: Vec::new(alloc),
            listed: 0,
        }
    }

    /// Counts the facts of a part that are not listed. The facts before the part are counted already.
    pub fn count_part(
        &self,
        counts: &mut Vec<usize>,
        arrived: &[(Key, Fact)],
        from: usize,
        to: usize,
    ) -> Result<(), AllocError>
        requires part { from ≤ to }
        requires within { to ≤ length arrived.now }
        requires few { length arrived.now ≤ MOST_FACTS }
        requires counted { AreCountsOf self.now (take from arrived.now) [] counts.old.items }
        ensures counted { OnOk result (AreCountsOf self.now (take to arrived.now) [] counts.new.items) }
    {
        let first = self.listed.max(from).min(to);
        let came = &arrived[..to];
        add_counts(counts, self.naming, &came[first..])
    }

    /// Makes room for as many more places of each number as its count. When out of memory, the listed facts are the same.
    pub fn make_room(&mut self, alloc: Global, counts: &[usize]) -> Result<(), AllocError>
        ensures ok { OnOk result ((naming : Naming) (arrived : List Entry) (spare : List Stated) → KeepsFirst naming arrived self.old
            → AreCountsOf self.old arrived spare counts.now → KeepsTurn naming arrived spare 0 self.new) }
        ensures first { (naming : Naming) (arrived : List Entry) → KeepsFirst naming arrived self.old → KeepsFirst naming arrived self.new }
        ensures counted { (arrived : List Entry) (spare : List Stated) (counted : List ℕ) → AreCountsOf self.old arrived spare counted
            → AreCountsOf self.new arrived spare counted }
        ensures listed { self.new.listed ≡ self.old.listed }
    {
        make_rooms_for(alloc, &mut self.lists, counts)
    }

    /// Appends the places of a part's facts that are not listed, in order of arrival. Those before the part are appended already.
    pub fn push_part(&mut self, arrived: &[(Key, Fact)], from: usize, to: usize)
        requires part { from ≤ to }
        requires within { to ≤ length arrived.now }
        requires few { length arrived.now ≤ MOST_FACTS }
        requires turned { KeepsTurn self.old.naming arrived.now [] from self.old }
        ensures turned { (naming : Naming) (spare : List Stated) → KeepsTurn naming arrived.now spare from self.old
            → KeepsTurn naming arrived.now spare to self.new }
        ensures counted { (spare : List Stated) (counted : List ℕ) → AreCountsOf self.old arrived.now spare counted
            → AreCountsOf self.new arrived.now spare counted }
    {
        let first = self.listed.max(from);
        if first < to {
            let came = &arrived[..to];
            push_places(&mut self.lists, self.naming, came, self.listed, first);
        }
    }

    /// Sorts each list by key. The lists have the places of all facts, and the counts are the number of new ones in each.
    pub fn settle(&mut self, arrived: &[(Key, Fact)], counts: &[usize])
        requires apart { AllApart goes_first arrived.now }
        requires turned { KeepsTurn self.old.naming arrived.now [] (length arrived.now) self.old }
        requires counted { (n : ℕ) → named_in (named_by self.old.naming) (drop self.old.listed arrived.now) [] n ≤ value_at (λ c. c) 0 counts.now n }
        ensures value { (naming : Naming) (spare : List Stated) → KeepsTurn naming arrived.now spare (length arrived.now) self.old
            → KeepsIndex naming arrived.now spare self.new }
    {
        settle_lists(&mut self.lists, arrived, counts);
        self.listed = arrived.len();
    }

    /// Makes room for the places of these facts.
    pub fn reserve(&mut self, alloc: Global, facts: &[Fact]) -> Result<(), AllocError>
        ensures naming { self.new.naming ≡ self.old.naming }
        ensures listed { self.new.listed ≡ self.old.listed }
        ensures grows { OnlyGrow self.old.lists.items self.new.lists.items }
        ensures roomy { OnOk result (HasRoomFor (named_by self.old.naming) facts.now self.new.lists.items) }
    {
        let numbers = self.naming.numbers_of(alloc, facts)?;
        make_rooms(alloc, &mut self.lists, &numbers)
    }

    /// Inserts the place of one more fact, with this key, into the list of the fact's number, if it has one.
    pub fn put(&mut self, arrived: &[(Key, Fact)], key: &Key, body: &FactBody)
        requires takes { CanTake arrived.now (named_by self.old.naming body.now) self.old.lists.items }
        requires few { length arrived.now < 2 ^ 32 }
        ensures naming { self.new.naming ≡ self.old.naming }
        ensures listed { self.new.listed ≡ length arrived.now + 1 }
        ensures value { Takes arrived.now (named_by self.old.naming body.now) key.now self.old.lists.items self.new.lists.items }
    {
        let number = self.naming.number_of(body);
        put_place(&mut self.lists, arrived, number, key);
        self.listed = arrived.len() + 1;
    }

    /// The places of the facts of a number, in key order.
    pub fn places_of(&self, number: u16) -> &[Place]
        ensures value { result.now ≡ items_in self.now.lists.items number }
    {
        list_of(&self.lists, number)
    }
}
