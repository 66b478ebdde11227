ghost use Rattle.std.specs.Prelude.{◌≤◌};

use crate::entries::{add_new, is_first, is_seen};
use component_register::Register;
use fact_kinds::{Class, Designation, Fact, FactBody, Key, Kind, Memory, Name, Service};
use ldar_days::Day;
use ldar_law::{Equipment, UnitEntry, is_registered};
use std::alloc::Global;
use std::test::Fail;

/// A register of these entries, added in this order. If two have the same key, only the first is added.
fn register_of(alloc: Global, entries: &[(Key, Fact)]) -> Result<Register, Memory> {
    let mut register = Register::new(alloc);
    let mut seen: Vec<(Key, Fact)> = Vec::new(alloc);
    for entry in entries {
        add_new(&mut register, &mut seen, *entry)?;
    }
    Ok(register)
}

/// A register with room for three entries, with the first two added; `None` if they are not separate entries.
fn two_of_three(alloc: Global, entries: &[(Key, Fact); 3]) -> Result<Option<Register>, Memory> {
    let [first, second, third] = *entries;
    let mut register = Register::new(alloc);
    register.reserve(&[first.1, second.1, third.1])?;
    if !is_registered(&first.1.body)
        || !is_registered(&second.1.body)
        || is_seen(&[first], &second.0)
        || !is_first(&register, &first.1.body)
    {
        return Ok(None);
    }
    register.insert(first.0, first.1);
    if !is_first(&register, &second.1.body) {
        return Ok(None);
    }
    register.insert(second.0, second.1);
    Ok(Some(register))
}

/// The entry with its key, at a minute of its day, in the office's batch with this number.
fn at(minute: u16, number: u32, fact: Fact) -> (Key, Fact) {
    let key = Key {
        day: fact.day,
        minute,
        handheld: 0,
        number,
        index: 0,
    };
    (key, fact)
}

/// A class without a designation.
fn plain(service: Service) -> Class {
    Class {
        service,
        designation: Designation::Plain,
        plan: 0,
        month: 1,
    }
}

/// A valve in gas service in a process unit.
fn valve(day: Day, component: u16, unit: u8) -> Fact
    requires component { (1 ≤ component) × (component ≤ 60_000) }
    requires unit { (1 ≤ unit) × (unit ≤ 64) }
{
    Fact {
        day,
        minute: 0,
        body: FactBody::Component {
            component,
            unit,
            kind: Kind::Valve,
            monomer: false,
            replaces: false,
            class: Class {
                service: Service::Gas,
                designation: Designation::Plain,
                plan: 0,
                month: 1,
            },
        },
    }
}

/// Component 7 in heavy liquid service from a day on.
fn made_heavy(day: Day) -> Fact {
    Fact {
        day,
        minute: 0,
        body: FactBody::Class {
            component: 7,
            class: Class {
                service: Service::Heavy,
                designation: Designation::Plain,
                plan: 0,
                month: 1,
            },
        },
    }
}

/// Component 7 in light liquid service from a day on.
fn made_light(day: Day) -> Fact {
    Fact {
        day,
        minute: 0,
        body: FactBody::Class {
            component: 7,
            class: Class {
                service: Service::Light,
                designation: Designation::Plain,
                plan: 0,
                month: 1,
            },
        },
    }
}

/// Component 7 is retired.
fn retired(day: Day) -> Fact {
    Fact {
        day,
        minute: 0,
        body: FactBody::Retire { component: 7 },
    }
}

/// Component 7 as it was entered in unit 2.
fn seven(begin: Day, retired: Option<Day>) -> Equipment {
    Equipment {
        component: 7,
        unit: 2,
        kind: Kind::Valve,
        monomer: false,
        replaces: false,
        begin,
        retired,
        class: plain(Service::Gas),
    }
}

#[test]
fn a_class_is_in_force_from_its_day_on(rt: HostRuntime) -> Result<(), Fail> {
    let alloc = rt.alloc();
    let begin = Day::of_number(18_293).ok_or("day")?;
    let heavy = Day::of_number(18_300).ok_or("day")?;
    let light = Day::of_number(18_400).ok_or("day")?;
    // On the last day two classes are entered; the later one is added first.
    let entries = [
        at(30, 4, made_heavy(light)),
        at(0, 3, made_heavy(heavy)),
        at(60, 2, made_light(light)),
        at(0, 1, valve(begin, 7, 2)),
    ];
    let register = register_of(alloc, &entries)?;
    let cases = [
        (13_879, Service::Gas, None),
        (18_299, Service::Gas, None),
        (18_300, Service::Heavy, Some(entries[1].0)),
        (18_301, Service::Heavy, Some(entries[1].0)),
        (18_399, Service::Heavy, Some(entries[1].0)),
        (18_400, Service::Light, Some(entries[2].0)),
        (47_481, Service::Light, Some(entries[2].0)),
    ];
    for (number, service, key) in cases {
        let day = Day::of_number(number).ok_or("day")?;
        assert_eq!(rt;
            register.class_on(7, day),
            Some(plain(service)),
            "class on {number}"
        );
        assert_eq!(rt; register.class_key(7, day), key, "key on {number}");
    }
    Ok(())
}

#[test]
fn a_component_is_retired_on_the_first_such_day(rt: HostRuntime) -> Result<(), Fail> {
    let alloc = rt.alloc();
    let begin = Day::of_number(18_293).ok_or("day")?;
    let first = Day::of_number(18_303).ok_or("day")?;
    let second = Day::of_number(18_310).ok_or("day")?;
    let entries = [
        at(0, 1, valve(begin, 7, 2)),
        at(0, 2, retired(second)),
        at(0, 3, retired(first)),
    ];
    let before = register_of(alloc, &entries[..1])?;
    assert_eq!(rt; before.component(7), Some(seven(begin, None)));
    let after = register_of(alloc, &entries)?;
    assert_eq!(rt; after.component(7), Some(seven(begin, Some(first))));
    assert_eq!(rt; after.members(2), [7].as_slice());
    Ok(())
}

#[test]
fn members_ascend_in_whatever_order_they_come(rt: HostRuntime) -> Result<(), Fail> {
    let alloc = rt.alloc();
    let day = Day::of_number(18_293).ok_or("day")?;
    let later = Day::of_number(18_294).ok_or("day")?;
    let entries = [
        at(0, 1, valve(day, 60_000, 2)),
        at(0, 2, valve(later, 7, 2)),
        at(0, 3, valve(day, 300, 64)),
        at(0, 4, valve(day, 1, 2)),
        at(0, 5, valve(later, 299, 2)),
    ];
    let register = register_of(alloc, &entries)?;
    assert_eq!(rt; register.members(2), [1, 7, 299, 60_000].as_slice());
    assert_eq!(rt; register.members(64), [300].as_slice());
    assert!(rt; register.members(1).is_empty());
    assert!(rt; register.members(255).is_empty());
    Ok(())
}

#[test]
fn nothing_is_known_of_numbers_that_were_not_entered(rt: HostRuntime) -> Result<(), Fail> {
    let alloc = rt.alloc();
    let day = Day::of_number(18_293).ok_or("day")?;
    let name = Name::new(b"CRUDE-2").ok_or("name")?;
    let unit = Fact {
        day,
        minute: 0,
        body: FactBody::Unit {
            unit: 2,
            older: true,
            name,
        },
    };
    // A class of component 7 is added before component 7.
    let entries = [at(0, 1, unit), at(0, 2, made_heavy(day))];
    let register = register_of(alloc, &entries)?;
    let entry = UnitEntry {
        unit: 2,
        name,
        startup: day,
        older: true,
    };
    assert!(rt; register.unit(2) == Some(entry));
    assert!(rt; register.unit(1).is_none());
    assert!(rt; register.unit(0).is_none());
    assert!(rt; register.component(7).is_none());
    assert!(rt; register.class_on(7, day).is_none());
    assert_eq!(rt; register.class_key(7, day), Some(entries[1].0));
    assert!(rt; register.class_key(8, day).is_none());
    Ok(())
}

#[test]
fn room_is_made_for_three_entries_at_once(rt: HostRuntime) -> Result<(), Fail> {
    let alloc = rt.alloc();
    let day = Day::of_number(18_293).ok_or("day")?;
    let entries = [
        at(0, 1, valve(day, 7, 2)),
        at(0, 2, made_heavy(day)),
        at(0, 3, retired(day)),
    ];
    let register = two_of_three(alloc, &entries)?.ok_or("entries")?;
    assert_eq!(rt; register.class_on(7, day), Some(plain(Service::Heavy)));
    assert_eq!(rt; register.component(7), Some(seven(day, None)));
    Ok(())
}
