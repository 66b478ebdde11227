//! Laws about facts that follow other facts, and about one more batch.

ghost use Rattle.ldar_law.specs.BatchLaws.{FirstEntryOfTwo, FirstUnitOfTwo, FirstEntryIsRegistered, FirstEntryIsEquipment, RetiredAfterFacts, RulyByOneMore};

/// The first entry of a component in two lists of facts is the one in the first list, or else in the second; and so for
/// a process unit.
pub fn first_of_two()
    ensures component { FirstEntryOfTwo }
    ensures unit { FirstUnitOfTwo }
{}

/// The first entry of a component is among the entries in the register, and is the component apart from its retirement.
pub fn first_entry()
    ensures registered { FirstEntryIsRegistered }
    ensures equipment { FirstEntryIsEquipment }
{}

/// After some more facts, a component is retired by a day if it was before, or if one of them retires it by then.
pub fn retired_after_facts()
    ensures law { RetiredAfterFacts }
{}

/// A history with one more batch is ruly exactly if it was ruly before and the batch passes after it.
pub fn one_more_batch()
    ensures law { RulyByOneMore }
{}
