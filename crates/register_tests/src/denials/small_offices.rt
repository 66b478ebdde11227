//! Registers for judging denials: a unit with nine components, and one with any number of valves.

ghost use Rattle.std.specs.Prelude.{◌≡◌, ◌≤◌, OnOk};

use crate::denials::short_facts::{component, on, unit};
use crate::entries::add_new;
use component_register::Register;
use fact_kinds::{Fact, FactBody, Key, Kind, Memory, Name, Service};
use ldar_days::Day;
use std::alloc::Global;
use std::test::Fail;

/// Enters facts of the office's own batch with this number, if each is the first of its number.
fn enter(
    register: &mut Register,
    seen: &mut Vec<(Key, Fact)>,
    number: u32,
    facts: &[Fact],
) -> Result<(), Memory>
    requires { seen.old.items ≡ register.old.arrived }
    ensures { OnOk result (seen.new.items ≡ register.new.arrived) }
{
    for (index, fact) in facts.iter().enumerate() {
        let key = Key {
            day: fact.day,
            minute: fact.minute,
            handheld: 0,
            number,
            index: u16::try_from(index).unwrap_or(0),
        };
        add_new(register, seen, (key, *fact))?;
    }
    Ok(())
}

/// The unit with its nine components.
fn small_office(alloc: Global) -> Result<Vec<Fact>, Fail> {
    let begin = Day::of_number(18_276).ok_or("day")?;
    let name = Name::new(b"CRUDE").ok_or("name")?;
    let unit = FactBody::Unit {
        unit: 1,
        older: false,
        name,
    };
    let facts = [
        on(begin, unit),
        on(begin, component(1, Kind::Valve, false, Service::Gas)),
        on(begin, component(2, Kind::Valve, false, Service::Gas)),
        on(begin, component(3, Kind::Valve, false, Service::Gas)),
        on(begin, component(4, Kind::Valve, false, Service::Gas)),
        on(begin, component(5, Kind::Pump, false, Service::Light)),
        on(begin, component(6, Kind::Pump, true, Service::Light)),
        on(begin, component(7, Kind::Pump, false, Service::Heavy)),
        on(begin, component(8, Kind::Relief, false, Service::Gas)),
        on(begin, component(9, Kind::Compressor, false, Service::Gas)),
    ];
    Ok(facts.to_vec(alloc)?)
}

/// The register with these facts.
pub fn register_of(alloc: Global, facts: &[Fact]) -> Result<Register, Memory> {
    let mut register = Register::new(alloc);
    let mut seen: Vec<(Key, Fact)> = Vec::new(alloc);
    enter(&mut register, &mut seen, 1, facts)?;
    Ok(register)
}

/// The register of the small office.
pub fn small_register(alloc: Global) -> Result<Register, Fail> {
    let facts = small_office(alloc)?;
    Ok(register_of(alloc, &facts)?)
}

/// The unit with this many valves.
pub fn unit_of_valves(alloc: Global, count: u16) -> Result<Vec<Fact>, Fail>
    requires few { count ≤ 400 }
{
    let begin = Day::of_number(18_276).ok_or("day")?;
    let mut facts = Vec::new(alloc);
    facts.push(unit(begin, 1, Name::new(b"CRUDE").ok_or("name")?))?;
    for number in 0..count {
        facts.push(on(
            begin,
            component(number + 1, Kind::Valve, false, Service::Gas),
        ))?;
    }
    Ok(facts)
}
