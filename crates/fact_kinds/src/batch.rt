ghost use Rattle.std.specs.Prelude.{◌≡◌, ℕ, ◌<◌, ◌≤◌, length, vec_len, IfSome, IfNone, IsNone};
ghost use Rattle.fact_kinds.specs.declared.limits.TheConstants.{BATCH_FACTS};

use crate::fact::Fact;
use crate::limits::BATCH_FACTS;
use std::marker::Model;

/// The facts of a batch, 1 to 512. In contracts it is its list.
#[derive(Drop)]
pub struct FactList {
    facts: Vec<Fact>,
}

impl Model for FactList {
    ghost use Rattle.std.specs.Prelude.{List, ◌<◌, ◌≤◌, vec_len};
    ghost use Rattle.fact_kinds.specs.Stated.{Stated};
    ghost use Rattle.fact_kinds.specs.declared.limits.TheConstants.{BATCH_FACTS};

    ghost Value = { List Stated };

    ghost view = { λ l. l.facts.items };

    ghost invariant = { λ l. (0 < vec_len l.facts) × (vec_len l.facts ≤ BATCH_FACTS) };
}

impl FactList {
    /// A list of these facts, or `None` if there are not 1 to 512.
    pub fn new(facts: Vec<Fact>) -> Option<FactList>
        ensures none { IsNone result → ¬ ((0 < vec_len facts) × (vec_len facts ≤ BATCH_FACTS)) }
        ensures value { IfSome result (λ list. list ≡ facts.items) }
        ensures in_range { IfSome result (λ list. (0 < length list) × (length list ≤ BATCH_FACTS)) }
    {
        if (1..=BATCH_FACTS).contains(&facts.len()) {
            Some(FactList { facts })
        } else {
            None
        }
    }

    /// The facts, in the order of the batch.
    pub fn as_slice(&self) -> &[Fact]
        ensures value { result.now ≡ self.now }
        ensures in_range { (0 < length result.now) × (length result.now ≤ BATCH_FACTS) }
    {
        self.facts.as_slice()
    }
}

/// What a handheld sends at once. Its identity is the handheld and the number.
#[derive(Drop)]
pub struct Batch {
    pub handheld: u16,
    pub number: u32,
    pub facts: FactList,
}

impl Batch {
    /// A batch of these facts, or `None` if there are not 1 to 512.
    pub fn new(handheld: u16, number: u32, facts: Vec<Fact>) -> Option<Batch>
        ensures none { IsNone result → ¬ ((0 < vec_len facts) × (vec_len facts ≤ BATCH_FACTS)) }
        ensures value { IfSome result (λ batch.
            batch ≡ record { handheld = handheld; number = number; facts = facts.items }) }
        ensures in_range { IfSome result (λ batch. (0 < length batch.facts) × (length batch.facts ≤ BATCH_FACTS)) }
    {
        let facts = FactList::new(facts)?;
        Some(Batch {
            handheld,
            number,
            facts,
        })
    }
}
