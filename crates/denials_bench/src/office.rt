//! A register that receives the facts of batches.

ghost use Rattle.std.specs.Prelude.{◌≡◌, IfOk, IsTrue};
ghost use Rattle.fact_store.specs.Kept.{facts_in};
ghost use Rattle.component_register.specs.Once.{IsFirstOfNumber};
ghost use Rattle.denials_bench.specs.Numbered.{AreNumbered};

use component_register::Register;
use fact_kinds::{Fact, FactBody, Key, MOST_FACTS, Memory};
use ldar_law::is_registered;

/// Enters facts, each as a batch of its own with the next number. Returns the number of facts after that.
pub fn enter(register: &mut Register, before: u32, facts: &[Fact]) -> Result<u32, Memory>
    requires numbered { AreNumbered before register.old.arrived }
    ensures numbered { IfOk result (λ entered. AreNumbered entered register.new.arrived) }
{
    let mut entered = before;
    for fact in facts {
        entered = enter_one(register, entered, fact)?;
    }
    Ok(entered)
}

/// Enters a fact if it is an entry, the first of its number, and there is room.
fn enter_one(register: &mut Register, before: u32, fact: &Fact) -> Result<u32, Memory>
    requires numbered { AreNumbered before register.old.arrived }
    ensures numbered { IfOk result (λ entered. AreNumbered entered register.new.arrived) }
{
    if u64::from(before) >= MOST_FACTS
        || !is_registered(&fact.body)
        || !is_first(register, &fact.body)
    {
        return Ok(before);
    }
    register.reserve(&[*fact])?;
    register.insert(key_of(fact, before), *fact);
    Ok(before + 1)
}

/// Whether a fact enters a number that is not entered yet.
fn is_first(register: &Register, body: &FactBody) -> bool
    ensures { IsTrue result → IsFirstOfNumber body.now (facts_in register.now) }
{
    match *body {
        FactBody::Unit { unit, .. } => register.unit(unit).is_none(),
        FactBody::Component { component, .. } => register.component(component).is_none(),
        _ => true,
    }
}

/// The key of a fact that is the only one of its batch.
fn key_of(fact: &Fact, number: u32) -> Key
    ensures number { result.number ≡ number }
{
    Key {
        day: fact.day,
        minute: fact.minute,
        handheld: 0,
        number,
        index: 0,
    }
}
