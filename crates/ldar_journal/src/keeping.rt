ghost use Rattle.std.specs.Prelude.{◌≡◌, ◌≢◌, ◌⊎◌, ◌+◌, ◌-◌, ◌<◌, ◌≤◌, [], ◌∷◌, ◌++◌, length, take, None, IfSome, IsNone};
ghost use Rattle.fact_kinds.specs.declared.limits.TheConstants.{MOST_FACTS};
ghost use Rattle.batch_positions.specs.Positions.{position_in};
ghost use Rattle.fact_kinds.specs.Identity.{identity_of};
ghost use Rattle.ldar_journal.specs.Image.{batches_of, IsKept};
ghost use Rattle.ldar_journal.specs.Known.{IsKnown, AddsBatch};

use crate::history::Frames;
use batch_positions::Positions;
use fact_kinds::{Batch, MOST_FACTS};

/// Adds the batches of one more frame to the identities of the frames so far, and returns the new number of facts. If the
/// batches cannot all be kept, the identities are unchanged. Allocates nothing.
pub fn add_frame(
    positions: &mut Positions,
    frames: &Frames,
    facts: u64,
    batches: &[Batch],
) -> Option<u64>
    requires known { IsKnown (batches_of frames.now) positions.old.identities facts }
    requires roomy { length batches.now ≤ positions.old.room }
    ensures added { IfSome result (IsKnown (batches_of frames.now ++ batches.now) positions.new.identities) }
    ensures not_kept { IsNone result → (positions.new.identities ≡ positions.old.identities)
        × ¬ (IsKept (batches_of frames.now ++ batches.now)) }
{
    let _ = frames;
    let mut count = facts;
    for (added, batch) in batches.iter().enumerate() {
        match add_batch(positions, count, batch) {
            Some(more) => count = more,
            None => {
                take_out(positions, added);
                return None;
            }
        }
    }
    Some(count)
}

/// Adds the identity of a batch, and returns the new number of facts, unless the identity is already there or there would be too
/// many facts.
fn add_batch(positions: &mut Positions, facts: u64, batch: &Batch) -> Option<u64>
    requires roomy { 0 < positions.old.room }
    requires few { facts ≤ MOST_FACTS }
    ensures added { IfSome result (λ more. AddsBatch positions.old positions.new facts batch.now more) }
    ensures not_kept { IsNone result → (positions.new.identities ≡ positions.old.identities)
        × ((position_in (identity_of batch.now) positions.old.identities ≢ None) ⊎ (MOST_FACTS < facts + length batch.now.facts)) }
{
    let identity = batch.identity();
    if positions.position(identity).is_some() {
        return None;
    }
    let more = facts + batch.facts.as_slice().len() as u64;
    if more > MOST_FACTS {
        return None;
    }
    positions.push(identity);
    Some(more)
}

/// Removes the last `count` identities.
fn take_out(positions: &mut Positions, count: usize)
    requires some { count ≤ length positions.old.identities }
    ensures value { positions.new.identities ≡ take (length positions.old.identities - count) positions.old.identities }
{
    let mut left = count;
    while left > 0 {
        positions.pop();
        left -= 1;
    }
}
