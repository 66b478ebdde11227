ghost use Rattle.std.specs.Prelude.{◌≡◌, ◌<◌, ◌++◌, length, take, drop, filter, OnErr, OnOk};
ghost use Rattle.std.specs.List.{AllByRecursion};
ghost use Rattle.fact_kinds.specs.declared.limits.TheConstants.{BATCH_FACTS};
ghost use Rattle.fact_kinds.specs.Facts.{entries_of, key_of};
ghost use Rattle.fact_kinds.specs.Fields.{IsFact};
ghost use Rattle.fact_store.specs.Coming.{stored};
ghost use Rattle.ldar_law.specs.Slices.{is_registered as says_registered, register_facts};
ghost use Rattle.office_views.specs.Taking.{CanEnter, HasOwnKeys};

use component_register::Register;
use fact_kinds::{Batch, Fact, Key, Memory};
use fact_store::Facts;
use ldar_law::is_registered;

/// The key of the fact at a place of a batch.
fn key_at(batch: &Batch, index: usize, fact: &Fact) -> Key
    requires { index < BATCH_FACTS }
    ensures value { result ≡ key_of batch.now index fact.now }
    ensures in_range { IsFact fact.now }
{
    Key {
        day: fact.day,
        minute: fact.minute,
        handheld: batch.handheld,
        number: batch.number,
        index: index as u16,
    }
}

/// Makes room for just these facts in the store, and for the entries among them in the register. After `Memory` both are as
/// they were.
pub fn make_room(store: &mut Facts, register: &mut Register, facts: &[Fact]) -> Result<(), Memory>
    ensures stored { OnOk result (store.new ≡ record store.old { spare = facts.now }) }
    ensures entered { OnOk result (register.new ≡ record register.old { spare = filter (λ fact. says_registered fact.body) facts.now }) }
    ensures store { OnErr result (store.new ≡ store.old) }
    ensures register { OnErr result (register.new ≡ register.old) }
{
    let before = store.room();
    store.reserve_more(facts)?;
    if let Err(memory) = register.reserve(facts) {
        store.keep_room(0, before);
        return Err(memory);
    }
    store.keep_room(before, facts.len());
    Ok(())
}

/// Adds the facts of a batch to the store, which has room for them.
pub fn put_facts(store: &mut Facts, batch: &Batch)
    requires roomy { take (length batch.now.facts) store.old.spare ≡ batch.now.facts }
    requires own_keys { HasOwnKeys store.old.arrived batch.now }
    ensures value { stored store.new ≡ record {
      arrived = store.old.arrived ++ entries_of batch.now;
      spare = drop (length batch.now.facts) store.old.spare;
    } }
    ensures listed { store.new.listed ≡ store.old.listed }
    ensures in_range { AllByRecursion IsFact batch.now.facts }
{
    let facts = batch.facts.as_slice();
    for index in 0..facts.len() {
        let fact = &facts[index];
        store.insert(key_at(batch, index, fact), *fact);
    }
}

/// Adds the entries of the register among the facts of a batch, for which the register has room.
pub fn put_entries(register: &mut Register, batch: &Batch)
    requires roomy { take (length (filter (λ fact. says_registered fact.body) batch.now.facts)) register.old.spare
        ≡ filter (λ fact. says_registered fact.body) batch.now.facts }
    requires enters { CanEnter register.old.arrived batch.now }
    ensures value { register.new ≡ record {
      arrived = register.old.arrived ++ register_facts (entries_of batch.now);
      spare = drop (length (filter (λ fact. says_registered fact.body) batch.now.facts)) register.old.spare;
    } }
{
    let facts = batch.facts.as_slice();
    for index in 0..facts.len() {
        let fact = &facts[index];
        if is_registered(&fact.body) {
            register.insert(key_at(batch, index, fact), *fact);
        }
    }
}
