ghost use Rattle.std.specs.Prelude.{◌≡◌, is_some, List, IfOk, IfSome};
ghost use Rattle.fact_kinds.specs.declared.batch.Batch.{Batch};
ghost use Rattle.fact_kinds.specs.Facts.{facts_to, is_earlier};
ghost use Rattle.ldar_law.specs.Equipment.{equipment_of, unit_entry_of};
ghost use Rattle.ldar_law.specs.Units.{history_of_component};
ghost use Rattle.list_words.specs.Order.{Ascends};

use fact_kinds::Memory;
use ldar_days::Day;
use ldar_law::{Equipment, History};
use std::alloc::Global;

/// An office that is asked for its components, as known on a day. Nothing that is asked changes it.
pub trait Histories: Drop {
    /// The batches that it keeps, in order.
    ghost kept: { Self → List Batch };

    /// Whether a process unit has started up by a day.
    fn has_unit(&self, unit: u16, day: Day) -> bool
        ensures value { result ≡ is_some (unit_entry_of unit (facts_to day (kept self.now))) };

    /// A component as entered by a day, or `None` if no fact has entered it by then.
    fn equipment(&self, component: u16, day: Day) -> Option<Equipment>
        ensures value { result ≡ equipment_of component (facts_to day (kept self.now)) };

    /// A component with its judged events up to a day, in key order, or `None` if no fact has entered it by then. The only error is out of
    /// memory.
    fn events(&mut self, alloc: Global, component: u16, day: Day) -> Result<Option<History>, Memory>
        ensures value { IfOk result (λ history. history ≡ history_of_component component (facts_to day (kept self.old))) }
        ensures ordered { IfOk result (λ history. IfSome history (λ history. Ascends (λ a b. is_earlier a.key b.key) history.events)) }
        ensures unchanged { self.new ≡ self.old };
}
