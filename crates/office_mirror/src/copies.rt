ghost use Rattle.std.specs.Prelude.{◌≡◌, IfOk};

use fact_kinds::Batch;
use std::alloc::{AllocError, Global};

/// A batch with the same content.
pub(crate) fn copy_of(alloc: Global, batch: &Batch) -> Result<Batch, AllocError>
    ensures value { IfOk result (λ copy. copy ≡ batch.now) }
{
    let mut facts = Vec::new(alloc);
    facts.extend_from_slice(batch.facts.as_slice())?;
    Batch::new(batch.handheld, batch.number, facts).ok_or(AllocError)
}
