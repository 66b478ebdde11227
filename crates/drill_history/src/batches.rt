//! Facts in batches.

ghost use Rattle.std.specs.Prelude.{◌≡◌, ◌+◌, ◌<◌, ◌≤◌, ◌++◌, IfOk, OnOk, length, vec_len};
ghost use Rattle.list_words.specs.Parts.{cut};
ghost use Rattle.fact_kinds.specs.declared.limits.TheConstants.{BATCH_FACTS};
ghost use Rattle.drill_history.specs.Drill as spec;

use fact_kinds::{BATCH_FACTS, Batch, Fact, Memory};
use std::alloc::Global;

/// Appends batches of the handheld with these facts, at most 512 in each. The numbers go on from those of the batches there,
/// which are numbered from 1.
pub(crate) fn put_batches(
    alloc: Global,
    batches: &mut Vec<Batch>,
    handheld: u16,
    facts: &[Fact],
) -> Result<(), Memory>
    requires in_range { vec_len batches.old + length facts.now < 4_294_967_295 }
    ensures value { OnOk result (batches.new.items
        ≡ batches.old.items ++ spec.numbered handheld (length batches.old.items + 1) (cut BATCH_FACTS facts.now)) }
    ensures count { OnOk result (vec_len batches.new ≤ vec_len batches.old + length facts.now) }
{
    let mut rest = facts;
    while !rest.is_empty() {
        let number = batches.len() as u32 + 1;
        let (part, others) = rest.split_at(rest.len().min(BATCH_FACTS));
        batches.push(batch(alloc, handheld, number, part)?)?;
        rest = others;
    }
    Ok(())
}

/// A batch with the same content.
pub(crate) fn copy_of(alloc: Global, other: &Batch) -> Result<Batch, Memory>
    ensures value { IfOk result (λ copy. copy ≡ other.now) }
{
    batch(alloc, other.handheld, other.number, other.facts.as_slice())
}

/// A batch of these facts, 1 to 512.
fn batch(alloc: Global, handheld: u16, number: u32, facts: &[Fact]) -> Result<Batch, Memory>
    requires some { 0 < length facts.now }
    requires fits { length facts.now ≤ BATCH_FACTS }
    ensures value { IfOk result (λ batch. batch ≡ record { handheld = handheld; number = number; facts = facts.now }) }
{
    Ok(Batch::new(handheld, number, Vec::from_slice(alloc, facts)?).unwrap())
}
