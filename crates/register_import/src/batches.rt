ghost use Rattle.std.specs.Prelude.{◌≡◌, ◌+◌, ◌<◌, ◌≤◌, IfOk, length};
ghost use Rattle.register_import.specs.Batches as spec;
ghost use Rattle.fact_kinds.specs.declared.limits.TheConstants.{BATCH_FACTS};

use fact_kinds::{BATCH_FACTS, Batch, Fact, Memory};
use std::alloc::Global;

/// Batches of these facts, of handheld 0 and numbered from `number` on: 512 facts in each, the last one possibly fewer.
pub(crate) fn batches_of(alloc: Global, number: u32, facts: &[Fact]) -> Result<Vec<Batch>, Memory>
    requires in_range { number + length facts.now < 4_294_967_296 }
    ensures value { IfOk result (λ batches. batches.items ≡ spec.batches_of number facts.now) }
{
    let mut batches = Vec::new(alloc);
    let mut next = number;
    let mut rest = facts;
    while !rest.is_empty() {
        let (part, others) = rest.split_at(rest.len().min(BATCH_FACTS));
        batches.push(batch(alloc, next, part)?)?;
        next += 1;
        rest = others;
    }
    Ok(batches)
}

// The batch of these facts, 1 to 512.
fn batch(alloc: Global, number: u32, facts: &[Fact]) -> Result<Batch, Memory>
    requires some { 0 < length facts.now }
    requires fits { length facts.now ≤ BATCH_FACTS }
    ensures value { IfOk result (λ batch. batch ≡ record { handheld = 0; number = number; facts = facts.now }) }
{
    Ok(Batch::new(0, number, Vec::from_slice(alloc, facts)?).unwrap())
}
