//! Facts in the short form of a test: the number of a day, and a fact on it at ten o'clock.

ghost use Rattle.std.specs.Prelude.{◌≡◌, ◌≤◌, false};
ghost use Rattle.fact_kinds.specs.Fields.{IsFact};
ghost use Rattle.fact_kinds.specs.declared.body.FactBody.TheVariants.{Class as ClassFact, Component as ComponentFact};
ghost use Rattle.fact_kinds.specs.declared.class.Designation.TheVariants.{Plain};

use fact_kinds::{
    Class, Designation, Fact, FactBody, Kind, Memory, Name, Purpose, Service, Sort, VisualState,
};
use ldar_days::Day;
use std::alloc::Global;

/// The fact on a day at ten o'clock. The first number is that of its component or unit.
#[derive(Clone, Copy)]
pub enum ShortFact {
    /// A reading, with this instrument and operator.
    Read(u16, u16, u16),
    Seen(u16),
    Indicated(u16, Sort),
    Released(u16),
    Retired(u16),
    Classed(u16, Service, Designation),
    /// The component is entered, in unit 1.
    Entered(u16, Kind, Service),
    /// The repair is delayed for this ground, by this signer, until the day with this number, if there is one.
    Delayed(u16, u8, u16, u32),
    /// The unit is entered.
    Unit(u8),
    Shut(u8),
    /// Skip periods are elected in this mode, with notice on the day with this number.
    Elected(u8, u8, u32),
}

/// The number of a day and the fact on it.
pub type On = (u32, ShortFact);

/// A fact at ten o'clock.
pub fn on(day: Day, body: FactBody) -> Fact
    requires in_range { IsFact (record { day = day; minute = 600; body = body }) }
{
    Fact {
        day,
        minute: 600,
        body,
    }
}

/// A class without a plan.
fn class(service: Service, designation: Designation) -> Class
    ensures { result ≡ record { service = service; designation = designation; plan = 0; month = 1 } }
{
    Class {
        service,
        designation,
        plan: 0,
        month: 1,
    }
}

/// A component of unit 1 that was entered on 2020-01-15.
pub fn component(component: u16, kind: Kind, monomer: bool, service: Service) -> FactBody
    ensures value { result ≡ ComponentFact component 1 kind monomer false (record { service = service; designation = Plain; plan = 0; month = 1 }) }
{
    FactBody::Component {
        component,
        unit: 1,
        kind,
        monomer,
        replaces: false,
        class: class(service, Designation::Plain),
    }
}

fn class_of(component: u16, class: Class) -> FactBody
    ensures { result ≡ ClassFact component class }
{
    FactBody::Class { component, class }
}

/// The component number nearest to this one.
fn item(number: u16) -> u16
    ensures { (1 ≤ result) × (result ≤ 60_000) }
{
    if number == 0 {
        return 1;
    }
    if number > 60_000 {
        return 60_000;
    }
    number
}

/// The smaller of two numbers.
fn up_to(number: u8, most: u8) -> u8
    ensures { result ≤ most }
{
    if number < most { number } else { most }
}

/// The unit number nearest to this one.
fn unit_near(number: u8) -> u8
    ensures { (1 ≤ result) × (result ≤ 64) }
{
    if number == 0 {
        return 1;
    }
    if number > 64 {
        return 64;
    }
    number
}

/// A class on a day without a plan; a designation that requires a plan is left out.
fn classed(day: Day, component: u16, service: Service, designation: Designation) -> Fact
    requires { (1 ≤ component) × (component ≤ 60_000) }
{
    let plain = class(service, Designation::Plain);
    let class = match designation {
        Designation::Nde => class(service, Designation::Nde),
        Designation::Difficult => class(service, Designation::Difficult),
        Designation::Plain | Designation::Unsafe => plain,
    };
    on(day, class_of(component, class))
}

fn entered(day: Day, number: u16, kind: Kind, service: Service) -> Fact
    requires { (1 ≤ number) × (number ≤ 60_000) }
{
    on(day, component(number, kind, false, service))
}

/// A shutdown of three days.
fn shut(day: Day, unit: u8) -> Fact
    requires { (1 ≤ unit) × (unit ≤ 64) }
{
    on(day, FactBody::Shutdown { unit, days: 3 })
}

/// The fact, if there is one.
fn fact_on(day: Day, fact: ShortFact) -> Option<Fact> {
    match fact {
        ShortFact::Delayed(number, ground, signer, expected) => {
            let expected = Day::of_number(expected);
            Some(delay(item(number), up_to(ground, 5), signer, day, expected))
        }
        ShortFact::Unit(number) => Some(unit(day, unit_near(number), Name::new(b"COKER")?)),
        ShortFact::Shut(number) => Some(shut(day, unit_near(number))),
        ShortFact::Elected(number, mode, notified) => {
            let notified = Day::of_number(notified)?;
            Some(election(day, unit_near(number), up_to(mode, 1), notified))
        }
        of_component => fact_of_component(day, of_component),
    }
}

/// The fact, if it is one that needs no other day.
fn fact_of_component(day: Day, fact: ShortFact) -> Option<Fact> {
    match fact {
        ShortFact::Read(number, instrument, operator) => {
            Some(reading(day, item(number), instrument, operator))
        }
        ShortFact::Seen(number) => Some(visual(day, item(number))),
        ShortFact::Indicated(number, sort) => Some(indication(day, item(number), sort)),
        ShortFact::Released(number) => Some(release(day, item(number))),
        ShortFact::Retired(number) => Some(retired(day, item(number))),
        ShortFact::Classed(number, service, designation) => {
            Some(classed(day, item(number), service, designation))
        }
        ShortFact::Entered(number, kind, service) => Some(entered(
            day,
            item(number),
            kind,
            service,
        )),
        _ => None,
    }
}

/// The facts of a batch.
pub fn facts_of(alloc: Global, short_facts: &[On]) -> Result<Vec<Fact>, Memory> {
    let mut facts = Vec::new(alloc);
    for (number, fact) in short_facts {
        if let Some(fact) = fact_of(*number, *fact) {
            facts.push(fact)?;
        }
    }
    Ok(facts)
}

/// The fact, if this is the number of a day.
fn fact_of(number: u32, fact: ShortFact) -> Option<Fact> {
    fact_on(Day::of_number(number)?, fact)
}

/// A reading at ten o'clock.
fn reading(day: Day, component: u16, instrument: u16, operator: u16) -> Fact
    requires { (1 ≤ component) × (component ≤ 60_000) }
{
    let body = FactBody::Reading {
        component,
        instrument,
        operator,
        purpose: Purpose::Routine,
        ppm: 20,
        background: 0,
    };
    Fact {
        day,
        minute: 600,
        body,
    }
}

fn visual(day: Day, component: u16) -> Fact
    requires { (1 ≤ component) × (component ≤ 60_000) }
{
    let state = VisualState::Drips;
    let body = FactBody::Visual { component, state };
    Fact {
        day,
        minute: 600,
        body,
    }
}

fn indication(day: Day, component: u16, sort: Sort) -> Fact
    requires { (1 ≤ component) × (component ≤ 60_000) }
{
    let body = FactBody::Indication {
        component,
        sort,
        present: true,
    };
    Fact {
        day,
        minute: 600,
        body,
    }
}

fn release(day: Day, component: u16) -> Fact
    requires { (1 ≤ component) × (component ≤ 60_000) }
{
    let body = FactBody::Release { component };
    Fact {
        day,
        minute: 600,
        body,
    }
}

fn retired(day: Day, component: u16) -> Fact
    requires { (1 ≤ component) × (component ≤ 60_000) }
{
    let body = FactBody::Retire { component };
    Fact {
        day,
        minute: 600,
        body,
    }
}

fn delay(component: u16, ground: u8, signer: u16, day: Day, expected: Option<Day>) -> Fact
    requires component { (1 ≤ component) × (component ≤ 60_000) }
    requires ground { ground ≤ 5 }
{
    let body = FactBody::Delay {
        component,
        ground,
        signer,
        expected,
    };
    Fact {
        day,
        minute: 600,
        body,
    }
}

/// An election of skip periods.
fn election(day: Day, unit: u8, mode: u8, notified: Day) -> Fact
    requires unit { (1 ≤ unit) × (unit ≤ 64) }
    requires mode { mode ≤ 1 }
{
    let body = FactBody::Election {
        unit,
        mode,
        notified,
    };
    Fact {
        day,
        minute: 600,
        body,
    }
}

/// A process unit that is entered.
pub fn unit(day: Day, unit: u8, name: Name) -> Fact
    requires in_range { (1 ≤ unit) × (unit ≤ 64) }
{
    let body = FactBody::Unit {
        unit,
        older: false,
        name,
    };
    Fact {
        day,
        minute: 600,
        body,
    }
}
