//! Entries that a test puts into a register: each key and each number once.

ghost use Rattle.std.specs.Prelude.{◌≡◌, IsTrue, OnOk};
ghost use Rattle.fact_store.specs.Kept.{facts_in, is_held};
ghost use Rattle.component_register.specs.Once.{IsFirstOfNumber};

use component_register::Register;
use fact_kinds::{Fact, FactBody, Key, Memory};
use ldar_law::is_registered;

/// Adds an entry, if its key is not among those seen.
pub fn add_new(
    register: &mut Register,
    seen: &mut Vec<(Key, Fact)>,
    entry: (Key, Fact),
) -> Result<(), Memory>
    requires same { seen.old.items ≡ register.old.arrived }
    ensures same { OnOk result (seen.new.items ≡ register.new.arrived) }
{
    if seen.len() < 1000
        && is_registered(&entry.1.body)
        && !is_seen(seen, &entry.0)
        && is_first(register, &entry.1.body)
    {
        register.reserve(&[entry.1])?;
        register.insert(entry.0, entry.1);
        seen.push(entry)?;
    }
    Ok(())
}

/// Whether a fact enters a number that is not entered yet.
pub fn is_first(register: &Register, body: &FactBody) -> bool
    ensures first { IsTrue result → IsFirstOfNumber body.now (facts_in register.now) }
{
    match *body {
        FactBody::Unit { unit, .. } => register.unit(unit).is_none(),
        FactBody::Component { component, .. } => register.component(component).is_none(),
        _ => true,
    }
}

/// Whether one of the entries has this key.
pub fn is_seen(seen: &[(Key, Fact)], key: &Key) -> bool
    ensures value { result ≡ is_held key.now seen.now }
{
    seen.iter().any(|entry| entry.0.cmp(key).is_eq())
}
