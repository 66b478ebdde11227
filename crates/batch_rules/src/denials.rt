ghost use Rattle.std.specs.Prelude.{◌≡◌, ◌≤◌, true, Some, None, IfSome, List, length, take};
ghost use Rattle.fact_kinds.specs.declared.limits.TheConstants.{BATCH_FACTS, MOST_FACTS};
ghost use Rattle.fact_kinds.specs.declared.batch.Batch.{Batch as FactBatch};
ghost use Rattle.fact_kinds.specs.Facts.{facts_of};
ghost use Rattle.fact_store.specs.Kept.{facts_in};
ghost use Rattle.ldar_law.specs.Slices.{register_facts};
ghost use Rattle.ldar_law.specs.Verdicts.{denial_after, least_rule as least, verdict_by, verdict_on};
ghost use Rattle.batch_rules.specs.Cases.{case_in};
ghost use Rattle.batch_rules.specs.Known.{batch_of, register_at, register_by};
ghost use Rattle.batch_rules.specs.Passed.{ArePassed, IsPassed};
ghost use Rattle.batch_rules.specs.Among.{are_up_to};

use crate::case::Case;
use crate::difficult::newly_asked;
use crate::known_facts::Known;
use crate::passed_units::Passed;
use crate::reach::{NO_REACH, Reach};
use crate::rules::least_rule;
use component_register::Register;
use fact_kinds::{Batch, Fact, MOST_FACTS};
use ldar_law::Verdict;

/// The least rule that denies a fact. If the fact passes, also the unit for which the rule on difficult valves was newly
/// judged.
fn judged<'a>(
    whole: &Known<'a>,
    fact: &'a Fact,
    index: usize,
    reach: Reach,
    passed: &'a Passed,
) -> (Option<u8>, Option<u8>)
    requires few { length whole.now.front.now ≤ BATCH_FACTS }
    requires place { index ≤ length whole.now.front.now }
    requires within { reach.count ≤ index }
    requires known { register_by whole.now reach.count ≡ register_by whole.now index }
    requires up_to { are_up_to (Some reach.greatest) (take index whole.now.front.now) ≡ true }
    requires passed { ArePassed (register_at whole.now) passed.now }
    ensures rule { result.0 ≡ least (case_in (facts_in whole.now.register.now) (batch_of whole.now) index fact.now) }
    ensures passed { result.0 ≡ None → IfSome result.1 (λ unit. IsPassed (register_at whole.now) (unit, fact.now.day)) }
{
    let known = whole.up_to(reach.count, Some(reach.greatest));
    let case = Case::new(fact, index, known, *whole, passed);
    match least_rule(&case) {
        Some(rule) => (Some(rule), None),
        None => (None, newly_asked(&case)),
    }
}

/// The first denied fact of a batch, from 1, and the least rule that denies it; `whole` is all that is known with the batch.
fn first_denied(whole: Known<'_>) -> Option<(u16, u8)>
    requires few { length whole.front.now ≤ BATCH_FACTS }
    ensures value { result ≡ denial_after (facts_in whole.entry.register.now) (batch_of whole.entry) }
{
    // The look-ups go through the batch only up to its last entry in the register.
    let mut reach = NO_REACH;
    let mut passed = Passed::new();
    for index in 0..whole.front.len() {
        let fact = &whole.front[index];
        let (rule, asked) = judged(&whole, fact, index, reach, &passed);
        if let Some(rule) = rule {
            return Some((index as u16 + 1, rule));
        }
        passed.add(asked, fact.day);
        reach = reach.after(index, &fact.body);
    }
    None
}

/// The first denied fact of a batch, from 1, and the least rule that denies it.
fn first_denial(register: &Register, batch: &Batch) -> Option<(u16, u8)>
    ensures value { result ≡ denial_after (facts_in register.now) batch.now }
{
    first_denied(Known {
        register,
        handheld: batch.handheld,
        number: batch.number,
        front: batch.facts.as_slice(),
        greatest: None,
    })
}

/// The verdict, from the first denial and the number of facts that the office would have.
fn verdict_found(denial: Option<(u16, u8)>, facts: u64) -> Verdict
    ensures value { result ≡ verdict_by denial facts }
{
    match denial {
        Some((fact, rule)) => Verdict::Denied { fact, rule },
        None if facts > MOST_FACTS => Verdict::Full { facts },
        None => Verdict::Pass,
    }
}

/// The verdict on a batch, given the office's register and its number of facts. It has the first fact that fails a rule
/// (from 1), and the least rule that this fact fails. It allocates nothing.
pub fn verdict(register: &Register, held: u64, batch: &Batch) -> Verdict
    requires held { held ≤ MOST_FACTS }
    ensures value { (history : List FactBatch) → facts_in register.now ≡ register_facts (facts_of history)
        → held ≡ length (facts_of history) → result ≡ verdict_on history batch.now }
{
    let denial = first_denial(register, batch);
    verdict_found(denial, held + batch.facts.as_slice().len() as u64)
}
