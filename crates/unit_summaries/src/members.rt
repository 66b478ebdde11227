ghost use Rattle.std.specs.Prelude.{◌≡◌, IfOk, IfSome, length, map, option_map};
ghost use Rattle.list_words.specs.Order.{Ascends};
ghost use Rattle.fact_kinds.specs.Facts.{goes_first};
ghost use Rattle.fact_store.specs.Kept.{facts_in};
ghost use Rattle.history_laws.specs.DayLaws.{up_to};
ghost use Rattle.history_laws.specs.RulyLaws.{IsEachOnce};
ghost use Rattle.ldar_law.specs.Equipment.{equipment_of};
ghost use Rattle.ldar_law.specs.Slices.{register_facts};
ghost use Rattle.ldar_law.specs.Units.{components_of, known_of};
ghost use Rattle.unit_summaries.specs.Known.{AreInOrder, IsInOrder, known_by};
ghost use Rattle.unit_summaries.specs.Rows.{row_of};
ghost use Rattle.unit_summaries.specs.Says.{IsSaid};
ghost use Rattle.unit_summaries.specs.Sound.{Are, IsRenewed};

use crate::entries::add;
use crate::known::KnownOn;
use crate::summaries::Summaries;
use component_register::Register;
use fact_kinds::Memory;
use fact_store::FactStore;
use ldar_days::Day;
use std::alloc::Global;

/// What is known on a day of a component of a store, from its summary; `None` if it has not begun by then.
fn member_on<'s>(
    summaries: &'s Summaries,
    store: &FactStore,
    number: u16,
    day: Day,
) -> Option<KnownOn<'s>>
    requires ordered { Ascends goes_first (facts_in store.now) }
    requires said { IsSaid (facts_in store.now) number (row_of summaries.now.components number) }
    ensures value { option_map (known_by (up_to day (facts_in store.now))) result
        ≡ option_map (known_of (up_to day (facts_in store.now))) (equipment_of number (up_to day (facts_in store.now))) }
    ensures ordered { IfSome result IsInOrder }
{
    match summaries.component(number) {
        Some(summary) => summary.known_on(day),
        None => None,
    }
}

/// What is known on a day of each component of a process unit that has begun by then, by number. The summaries of the unit say what
/// the facts of the store say; the store itself is not read.
pub fn known_members<'s>(
    alloc: Global,
    summaries: &'s Summaries,
    store: &FactStore,
    register: &Register,
    unit: u8,
    day: Day,
) -> Result<Vec<KnownOn<'s>>, Memory>
    requires ordered { Ascends goes_first (facts_in store.now) }
    requires register { facts_in register.now ≡ register_facts (facts_in store.now) }
    requires once { IsEachOnce (facts_in store.now) }
    requires sound { Are (facts_in store.now) store.now.arrived (length store.now.arrived) summaries.now }
    requires renewed { IsRenewed (facts_in store.now) unit summaries.now }
    ensures value { IfOk result (λ known. map (known_by (up_to day (facts_in store.now))) known.items
        ≡ components_of unit (up_to day (facts_in store.now))) }
    ensures ordered { IfOk result (λ known. AreInOrder known.items) }
{
    let mut known = Vec::new(alloc);
    for number in register.members(unit) {
        add(&mut known, &member_on(summaries, store, *number, day))?;
    }
    Ok(known)
}
