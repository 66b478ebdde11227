//! What is known of the register when a fact of a batch is judged.
//!
//! A look-up goes through the facts of the batch only up to its last entry in the register before the fact; a batch without
//! entries is looked up in the register only. In an import, an entry with a number above all earlier ones of its batch needs
//! only the register too: `Known::greatest` is that bound.

ghost use Rattle.std.specs.Prelude.{◌≡◌, ℕ, ◌<◌, ◌≤◌, ◌^◌, true, Some, None, IsTrue, length, take};
ghost use Rattle.std.specs.Option.{is_some};
ghost use Rattle.fact_kinds.specs.declared.limits.TheConstants.{BATCH_FACTS};
ghost use Rattle.list_words.specs.Order as order;
ghost use Rattle.ldar_law.specs.RegisterLaws.{class_first, with_class};
ghost use Rattle.ldar_law.specs.Equipment as law;
ghost use Rattle.ldar_law.specs.Force as force;
ghost use Rattle.ldar_law.specs.Judged as judged;
ghost use Rattle.batch_rules.specs.Among.{entered_among, unit_among, retired_among, are_up_to};
ghost use Rattle.batch_rules.specs.KindsAndClasses.{kind_and_class_of, kind_and_class_by};
ghost use mathlib.Core.Bool.{Bool-set};

use crate::kind_and_class::KindAndClass;
use component_register::{Register, component_entered, retires, unit_entered};
use fact_kinds::{Class, Fact, FactBody, Key, precedes};
use ldar_days::Day;
use ldar_law::{Equipment, UnitEntry, component_asked};

/// What is known when a fact of a batch is judged: the register, and some first facts of the batch.
#[derive(Clone, Copy)]
pub struct Known<'a> {
    pub register: &'a Register,
    pub handheld: u16,
    pub number: u32,
    /// The first facts of the batch.
    pub front: &'a [Fact],
    /// An upper bound of the component numbers that these facts enter, if one is known.
    pub greatest: Option<u16>,
    ghost up_to: { are_up_to greatest front.now ≡ true } by { Bool-set (are_up_to greatest front.now) true },
}

/// Whether a fact enters the component.
fn enters(component: u16, body: &FactBody) -> bool
    ensures value { (day : ℕ) → is_some (law.component_entered component None day body.now) ≡ result }
{
    match *body {
        FactBody::Component {
            component: entered,
            ..
        } => entered == component,
        _ => false,
    }
}

/// The component from its first entry among some facts.
fn first_component(facts: &[Fact], component: u16) -> Option<Equipment>
    ensures value { result ≡ entered_among component facts.now }
{
    for fact in facts {
        if enters(component, &fact.body) {
            return component_entered(component, &None, fact.day, &fact.body);
        }
    }
    None
}

/// The process unit from its first entry among some facts.
fn first_unit(facts: &[Fact], unit: u8) -> Option<UnitEntry>
    ensures value { result ≡ unit_among unit facts.now }
{
    for fact in facts {
        let entry = unit_entered(unit, fact.day, &fact.body);
        if entry.is_some() {
            return entry;
        }
    }
    None
}

/// Whether one of some facts retires the component by a day.
fn is_retired_among(facts: &[Fact], component: u16, day: Day) -> bool
    ensures value { result ≡ retired_among component day facts.now }
{
    facts
        .iter()
        .any(|fact| retires(component, &fact.body) && fact.day <= day)
}

/// The key of a fact of a batch, from its place there (from 0).
pub fn key_at(handheld: u16, number: u32, index: usize, fact: &Fact) -> Key
    requires { index < 2 ^ 16 }
    ensures value { result ≡ record { day = fact.now.day; minute = fact.now.minute; handheld = handheld; number = number; index = index } }
{
    Key {
        day: fact.day,
        minute: fact.minute,
        handheld,
        number,
        index: index as u16,
    }
}

/// The class of the component from a fact on or before a day, or the class before, whichever has the later key. The new
/// class wins if the keys tie.
pub fn later_class(
    latest: Option<(Key, Class)>,
    component: u16,
    day: Day,
    key: Key,
    fact: &Fact,
) -> Option<(Key, Class)>
    ensures value { result ≡ with_class day (law.class_at component (key, fact.now)) latest }
{
    match entered_class(component, &fact.body) {
        Some(class) if key.day <= day => Some(later_of(latest, key, class)),
        _ => latest,
    }
}

/// The class that a fact enters for the component, if any.
fn entered_class(number: u16, body: &FactBody) -> Option<Class>
    ensures value { result ≡ law.class_entered number body.now }
{
    match *body {
        FactBody::Class { component, class } => {
            if component == number {
                Some(class)
            } else {
                None
            }
        }
        _ => None,
    }
}

/// The later of two classes by key. The second wins if the keys tie or there is no first.
fn later_of(latest: Option<(Key, Class)>, key: Key, class: Class) -> (Key, Class)
    ensures value { Some result ≡ order.later_of class_first (key, class) latest }
{
    match latest {
        Some(old) if precedes(&key, &old.0) => old,
        _ => (key, class),
    }
}

impl<'a> Known<'a> {
    ghost use Rattle.batch_rules.specs.Known.{register_at, register_by};

    /// The register and only the first `count` facts; `greatest` is an upper bound of the components that they enter.
    pub fn up_to(&self, count: usize, greatest: Option<u16>) -> Known<'a>
        requires within { count ≤ length self.now.front.now }
        requires up_to { are_up_to greatest (take count self.now.front.now) ≡ true }
        ensures value { register_at result ≡ register_by self.now count }
        ensures few { length result.front.now ≤ count }
    {
        Known {
            register: self.register,
            handheld: self.handheld,
            number: self.number,
            front: &self.front[..count],
            greatest,
        }
    }

    /// Whether the number is above every component that the first facts enter.
    fn is_beyond(&self, component: u16) -> bool
        ensures new { IsTrue result → entered_among component self.now.front.now ≡ None }
    {
        match self.greatest {
            Some(greatest) => component > greatest,
            None => false,
        }
    }

    /// The component from its first entry among the first facts.
    fn first_component(&self, component: u16) -> Option<Equipment>
        ensures value { result ≡ entered_among component self.now.front.now }
    {
        if self.is_beyond(component) {
            return None;
        }
        first_component(self.front, component)
    }

    /// The component from its first entry, without its retirement.
    pub fn component(&self, component: u16) -> Option<Equipment>
        ensures value { result ≡ judged.first_entry component (register_at self.now).entered }
    {
        match self.register.component(component) {
            Some(item) => Some(Equipment {
                retired: None,
                ..item
            }),
            None => self.first_component(component),
        }
    }

    /// The process unit from its first entry.
    pub fn unit(&self, unit: u8) -> Option<UnitEntry>
        ensures value { result ≡ law.unit_entry_of unit (register_at self.now).entered }
    {
        match self.register.unit(unit) {
            Some(entry) => Some(entry),
            None => first_unit(self.front, unit),
        }
    }

    /// The last class that was entered for the component by a day, with its key.
    pub fn class_by(&self, component: u16, day: Day) -> Option<(Key, Class)>
        requires few { length self.now.front.now ≤ BATCH_FACTS }
        ensures value { result ≡ force.class_by day (law.classes_of component (register_at self.now).in_order) }
    {
        let mut latest = self.register.class_entry(component, day);
        for (index, fact) in self.front.iter().enumerate() {
            let key = key_at(self.handheld, self.number, index, fact);
            latest = later_class(latest, component, day, key, fact);
        }
        latest
    }

    /// The class of a component on a day.
    pub fn class_of(&self, item: &Equipment, day: Day) -> Class
        requires few { length self.now.front.now ≤ BATCH_FACTS }
        ensures value { result ≡ judged.class_held (register_at self.now) item.now day }
    {
        match self.class_by(item.component, day) {
            Some((_, class)) => class,
            None => item.class,
        }
    }

    /// The type of a component and its class on a day, if it was entered.
    fn kind_and_class(&self, component: u16, day: Day) -> KindAndClass
        requires few { length self.now.front.now ≤ BATCH_FACTS }
        ensures value { result ≡ kind_and_class_of (register_at self.now) component day }
    {
        match self.component(component) {
            Some(item) => Some((item.kind, self.class_of(&item, day))),
            None => None,
        }
    }

    /// The type and class, on the fact's day, of the component that a fact requires.
    pub fn asked(&self, fact: &Fact) -> KindAndClass
        requires few { length self.now.front.now ≤ BATCH_FACTS }
        ensures value { result ≡ kind_and_class_by (register_at self.now) fact.now.day fact.now.body }
    {
        match component_asked(&fact.body) {
            Some(component) => self.kind_and_class(component, fact.day),
            None => None,
        }
    }

    /// Whether the component is out of service on a day.
    pub fn is_retired(&self, component: u16, day: Day) -> bool
        ensures value { result ≡ force.has_come (law.retired_on component (register_at self.now).in_order) day }
    {
        has_come(self.register.retired_on(component), day)
            || is_retired_among(self.front, component, day)
    }
}

/// Whether there is a first day that is not after the day.
fn has_come(first: Option<Day>, day: Day) -> bool
    ensures value { result ≡ force.has_come first day }
{
    match first {
        Some(first) => first <= day,
        None => false,
    }
}
