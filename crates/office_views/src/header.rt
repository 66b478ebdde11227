ghost use Rattle.std.specs.Prelude.{◌≡◌, ℕ, ◌+◌, ◌<◌, ◌≤◌, ◌^◌, ◌++◌, IfOk, OnOk, OnErr, length, vec_len, vec_capacity};
ghost use Rattle.std.specs.List.{AllByRecursion};
ghost use Rattle.fact_kinds.specs.declared.limits.TheConstants.{BATCH_FACTS};
ghost use Rattle.office_views.specs.Headers.{headers_of};
ghost use Rattle.office_views.specs.Inside.{facts_stated};

use fact_kinds::{Batch, Fact, Memory};
use std::alloc::Global;

/// Who sent a batch, and where its facts are among those of all batches.
#[derive(Clone, Copy)]
pub struct Header {
    pub number: u32,
    pub handheld: u16,
    pub count: u16,
    pub first: usize,
}

/// The facts of some batches, one after another.
pub fn facts_of_all(alloc: Global, batches: &[Batch]) -> Result<Vec<Fact>, Memory>
    ensures value { IfOk result (λ facts. facts.items ≡ facts_stated batches.now) }
{
    let mut facts = Vec::new(alloc);
    for batch in batches {
        facts.extend_from_slice(batch.facts.as_slice())?;
    }
    Ok(facts)
}

/// Adds the headers of some batches whose facts follow the first `facts` ones. There is room for them.
pub fn push_headers(headers: &mut Vec<Header>, first: usize, batches: &[Batch])
    requires roomy { vec_len headers.old + length batches.now ≤ vec_capacity headers.old }
    requires fits { first + length (facts_stated batches.now) < 2 ^ 64 }
    ensures value { headers.new.items ≡ headers.old.items ++ headers_of first batches.now }
    ensures filled { AllByRecursion (λ batch. (0 < length batch.facts) × (length batch.facts ≤ BATCH_FACTS)) batches.now }
{
    let mut next = first;
    for batch in batches {
        let count = batch.facts.as_slice().len();
        headers.push_reserved(Header {
            number: batch.number,
            handheld: batch.handheld,
            count: count as u16,
            first: next,
        });
        next += count;
    }
}
