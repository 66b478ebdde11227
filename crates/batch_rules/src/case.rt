ghost use Rattle.std.specs.Prelude.{◌≡◌, ◌≤◌, false, IsTrue, length};
ghost use Rattle.fact_kinds.specs.declared.limits.TheConstants.{BATCH_FACTS};

use crate::kind_and_class::KindAndClass;
use crate::known_facts::Known;
use crate::passed_units::Passed;
use fact_kinds::{Fact, FactBody};
use ldar_days::Day;
use std::marker::Model;

/// A fact of a batch that is judged, with the facts known to the judgment. In contracts it is the law's case.
#[derive(Drop)]
pub struct Case<'a> {
    fact: &'a Fact,
    /// The fact's place in the batch, from 0.
    index: usize,
    /// The register and the facts before this one in its batch.
    known: Known<'a>,
    /// The register and all facts of the batch.
    whole: Known<'a>,
    /// The type and class, on the fact's day, of the component that the fact requires.
    asked: KindAndClass,
    /// The units and days for which the rule on difficult valves passed an earlier fact.
    passed: &'a Passed,
}

impl<'a> Model for Case<'a> {
    ghost use Rattle.ldar_law.specs.Judged as law;
    ghost use Rattle.batch_rules.specs.Cases.{case_at, IsSound};

    ghost Value = { law.Case };

    ghost view = { λ c. case_at c.fact.now c.index c.known c.whole };

    ghost invariant = { λ c. IsSound c.fact.now c.index c.known c.whole c.asked c.passed.now };
}

impl<'a> Case<'a> {
    ghost use Rattle.batch_rules.specs.Known.{register_at};
    ghost use Rattle.batch_rules.specs.Cases.{case_at, kind_and_class_asked};
    ghost use Rattle.batch_rules.specs.Passed.{is_reached, ArePassed};

    /// The case of a fact at a place of its batch, from 0.
    pub fn new(
        fact: &'a Fact,
        index: usize,
        known: Known<'a>,
        whole: Known<'a>,
        passed: &'a Passed,
    ) -> Case<'a>
        requires few { length known.front.now ≤ BATCH_FACTS }
        requires whole_few { length whole.front.now ≤ BATCH_FACTS }
        requires passed { ArePassed (register_at whole) passed.now }
        ensures value { result ≡ case_at fact.now index known.entry whole.entry }
    {
        let asked = known.asked(fact);
        Case {
            fact,
            index,
            known,
            whole,
            asked,
            passed,
        }
    }

    /// The body of the fact.
    pub fn body(&self) -> &FactBody
        ensures value { result.now ≡ self.now.entry.1.body }
    {
        let fact = self.fact;
        &fact.body
    }

    /// The fact's day.
    pub fn day(&self) -> Day
        ensures value { result ≡ self.now.entry.0.day }
    {
        let fact = self.fact;
        fact.day
    }

    /// The handheld that sent the batch.
    pub fn handheld(&self) -> u16
        ensures value { result ≡ self.now.entry.0.handheld }
    {
        self.whole.handheld
    }

    /// The type and class, on the fact's day, of the component that the fact requires.
    pub fn asked(&self) -> KindAndClass
        ensures value { result ≡ kind_and_class_asked self.now }
    {
        self.asked
    }

    /// Whether the rule on difficult valves has passed an earlier fact for this process unit on the fact's day.
    pub fn is_passed(&self, unit: u8) -> bool
        ensures passed { IsTrue result → is_reached self.now unit ≡ false }
    {
        self.passed.has(unit, self.day())
    }

    /// The register and the facts before this one.
    pub fn known(&self) -> &Known<'a>
        ensures value { register_at result.now ≡ self.now.known }
        ensures few { length result.now.front.now ≤ BATCH_FACTS }
    {
        &self.known
    }

    /// The register and all facts of the batch.
    pub fn whole(&self) -> &Known<'a>
        ensures value { register_at result.now ≡ self.now.whole }
        ensures few { length result.now.front.now ≤ BATCH_FACTS }
    {
        &self.whole
    }
}
