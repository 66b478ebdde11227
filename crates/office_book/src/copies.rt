ghost use Rattle.std.specs.Prelude.{◌≡◌, IfOk};

use crate::Memory;
use fact_kinds::Batch;
use std::alloc::{AllocError, Global};

/// A copy of a batch.
pub fn copy_of(alloc: Global, batch: &Batch) -> Result<Batch, Memory>
    ensures value { IfOk result (λ copy. copy ≡ batch.now) }
{
    let mut facts = Vec::new(alloc);
    facts.extend_from_slice(batch.facts.as_slice())?;
    Batch::new(batch.handheld, batch.number, facts).ok_or(AllocError)
}
