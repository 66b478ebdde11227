ghost use Rattle.std.specs.Prelude.{◌≡◌, ℕ, ◌<◌, ◌≤◌, Some, false, [], ◌∷◌, ◌++◌, length, drop, filter, slice_get, option_map, OnOk, OnErr, IfOk};
ghost use Rattle.fact_kinds.specs.declared.limits.TheConstants.{MOST_FACTS};
ghost use Rattle.fact_store.specs.Kept.{Kept, facts_in, is_held};
ghost use Rattle.ldar_law.specs.Equipment as law;
ghost use Rattle.ldar_law.specs.Force as force;
ghost use Rattle.ldar_law.specs.Slices as slices;
ghost use Rattle.component_register.specs.Once.{IsFirstOfNumber, AreEnteredOnce};

use crate::classes::{put_class, reclassed_among};
use crate::members::{joined_among, put_member};
use crate::slots::{EMPTY, Slot, enter, make_slots, row_of};
use crate::units::{Units, enter_unit, make_units};
use fact_kinds::{Class, Fact, Key, Memory};
use fact_store::Arrivals;
use fact_store::lists::{Lists, list_of, make_rooms};
use ldar_days::Day;
use ldar_law::{Equipment, UnitEntry, is_registered, last_entered};
use std::alloc::Global;
use std::marker::Model;

/// The entries of the register: process units and components, their classes and retirements, elections and
/// shutdowns. Contracts see them as a store sees facts: as they came, beside those that have room.
#[derive(Drop)]
pub struct Register {
    alloc: Global,
    store: Arrivals,
    slots: Vec<Slot>,
    units: Units,
    /// The classes that were entered for each component, the last one by key of each day, by day.
    classes: Lists<(Key, Class)>,
    /// The components of each process unit.
    rosters: Lists<u16>,
}

impl Model for Register {
    ghost use Rattle.fact_store.specs.Kept.{Kept};
    ghost use Rattle.component_register.specs.Inside.{IsSound};

    ghost Value = { Kept };

    ghost view = { λ r. r.store };

    ghost invariant = { λ r. IsSound r.store r.slots.items r.units.items r.classes.items r.rosters.items };
}

impl Register {
    /// A register with no entries. Takes no memory.
    pub fn new(alloc: Global) -> Register
        ensures value { result ≡ record { arrived = []; spare = [] } }
    {
        Register {
            alloc,
            store: Arrivals::new(alloc),
            slots: Vec::new(alloc),
            units: Vec::new(alloc),
            classes: Vec::new(alloc),
            rosters: Vec::new(alloc),
        }
    }

    /// Makes room for just the entries of the register among these facts. After `Memory` the register is as it was.
    pub fn reserve(&mut self, facts: &[Fact]) -> Result<(), Memory>
        ensures ok { OnOk result (self.new ≡ record self.old { spare = filter (λ fact. slices.is_registered fact.body) facts.now }) }
        ensures unchanged { OnErr result (self.new ≡ self.old) }
    {
        let entries = entries_among(self.alloc, facts)?;
        let reclassed = reclassed_among(self.alloc, &entries)?;
        let joined = joined_among(self.alloc, &entries)?;
        make_slots(&mut self.slots, &entries)?;
        make_units(&mut self.units, &entries)?;
        make_rooms(self.alloc, &mut self.classes, &reclassed)?;
        make_rooms(self.alloc, &mut self.rosters, &joined)?;
        self.store.reserve(&entries)?;
        Ok(())
    }

    /// Adds an entry with its key; a process unit and a component are entered once. It takes no memory, since room was
    /// made for the entry.
    pub fn insert(&mut self, key: Key, fact: Fact)
        requires roomy { slice_get self.old.spare 0 ≡ Some fact }
        requires new_key { is_held key self.old.arrived ≡ false }
        requires few { length self.old.arrived < MOST_FACTS }
        requires first { IsFirstOfNumber fact.body (facts_in self.old) }
        ensures value { self.new ≡ record { arrived = self.old.arrived ++ (key, fact) ∷ []; spare = drop 1 self.old.spare } }
    {
        enter(&mut self.slots, &key, &fact.body);
        enter_unit(&mut self.units, &key, &fact.body);
        put_class(&mut self.classes, &key, &fact.body);
        put_member(&mut self.rosters, &fact.body);
        self.store.insert(key, fact);
    }

    /// The component as it was entered; `None` if it was not.
    pub fn component(&self, component: u16) -> Option<Equipment>
        ensures value { result ≡ law.equipment_of component (facts_in self.now) }
    {
        let slot = row_of(&self.slots, EMPTY, component);
        let mut item = slot.entered?;
        item.retired = slot.retired;
        Some(item)
    }

    /// The class of the component in force on a day; `None` if the component was not entered.
    pub fn class_on(&self, component: u16, day: Day) -> Option<Class>
        ensures value { result ≡ force.class_in_force component (facts_in self.now) day }
    {
        let item = row_of(&self.slots, EMPTY, component).entered?;
        Some(item.class_on(list_of(&self.classes, component), day))
    }

    /// The last class that was entered for the component by a day, with the key of its fact; `None` where there is no
    /// such one. Whether the component was entered is not asked.
    pub fn class_entry(&self, component: u16, day: Day) -> Option<(Key, Class)>
        ensures value { result ≡ force.class_by day (law.classes_of component (facts_in self.now)) }
    {
        last_entered(list_of(&self.classes, component), day)
    }

    /// The key of the last class that was entered for the component by a day; `None` where there is no such one.
    pub fn class_key(&self, component: u16, day: Day) -> Option<Key>
        ensures value { result ≡ option_map (λ entered. entered.0) (force.class_by day (law.classes_of component (facts_in self.now))) }
    {
        self.class_entry(component, day).map(|entered| entered.0)
    }

    /// The first day from which the component is out of service, if one was entered. Whether the component was entered is
    /// not asked.
    pub fn retired_on(&self, component: u16) -> Option<Day>
        ensures value { result ≡ law.retired_on component (facts_in self.now) }
    {
        row_of(&self.slots, EMPTY, component).retired
    }

    /// The process unit as it was entered; `None` if it was not.
    pub fn unit(&self, unit: u8) -> Option<UnitEntry>
        ensures value { result ≡ law.unit_entry_of unit (facts_in self.now) }
    {
        row_of(&self.units, None, u16::from(unit))
    }

    /// The components of the process unit, ascending by number, with those that are retired. Each stands there once, since
    /// no component is entered twice.
    pub fn members(&self, unit: u8) -> &[u16]
        ensures value { result.now ≡ law.members_of unit (facts_in self.now) }
        ensures once { AreEnteredOnce (facts_in self.now) }
        ensures few { length result.now ≤ MOST_FACTS }
    {
        list_of(&self.rosters, u16::from(unit))
    }
}

/// The entries of the register among some facts, in their order.
fn entries_among(alloc: Global, facts: &[Fact]) -> Result<Vec<Fact>, Memory>
    ensures value { IfOk result (λ entries. entries.items ≡ filter (λ fact. slices.is_registered fact.body) facts.now) }
{
    let mut entries = Vec::new(alloc);
    for fact in facts {
        if is_registered(&fact.body) {
            entries.push(*fact)?;
        }
    }
    Ok(entries)
}
