//! Laws about what the verdict on a batch means.

ghost use Rattle.ldar_law.specs.DenialLaws.{LeastRuleIsTold, NoRuleDenies, FirstFactIsTold, PassesUndenied, FullUndenied};
ghost use Rattle.ldar_law.specs.DenialLaws.{RulyIsEach, RulyHasNoUnruly, VerdictForgetsOrder, RegisterDecides, ClassAfterFacts};

/// A fact is denied by the rule with the least number of those that deny it.
pub fn least_rule()
    ensures told { LeastRuleIsTold }
    ensures none { NoRuleDenies }
{}

/// A batch is denied exactly for its first fact that a rule denies, with that fact's place and rule.
pub fn first_fact()
    ensures law { FirstFactIsTold }
{}

/// A batch passes exactly if no fact of it is denied and there would be at most 8,000,000 facts.
pub fn passing_batch()
    ensures law { PassesUndenied }
{}

/// A batch is too large exactly if no fact of it is denied and there would be more than 8,000,000 facts.
pub fn full_history()
    ensures law { FullUndenied }
{}

/// A history is ruly exactly if each batch passes after those before it. A history of at most 8,000,000 facts is ruly
/// exactly if no batch is denied.
pub fn ruly_history()
    ensures each { RulyIsEach }
    ensures none_unruly { RulyHasNoUnruly }
{}

/// The order in which batches arrived does not change the verdict on another batch.
pub fn verdict_forgets_order()
    ensures law { VerdictForgetsOrder }
{}

/// Only the register's facts of a history decide which facts are denied.
pub fn register_decides()
    ensures law { RegisterDecides }
{}

/// When a batch is judged, the class in force is the later of the history's and the last one that the batch enters.
pub fn class_after_facts()
    ensures law { ClassAfterFacts }
{}
