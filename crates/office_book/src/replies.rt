ghost use Rattle.std.specs.Prelude.{◌≡◌, ℕ, ◌+◌, ◌<◌, ◌≤◌, ◌^◌, [], ◌++◌, None, length, IfSome, IsNone};
ghost use Rattle.std.specs.List.{AllByRecursion, position_from};
ghost use Rattle.fact_kinds.specs.declared.limits.TheConstants.{FRAME_BATCHES};
ghost use Rattle.fact_kinds.specs.Identity.{identity_of, is_of};
ghost use Rattle.ldar_journal.specs.Image.{batches_of, fact_count};
ghost use Rattle.ldar_law.specs.declared.verdict.Verdict.TheVariants as verdicts;
ghost use Rattle.ldar_law.specs.Machine.{IsNew};
ghost use Rattle.ldar_law.specs.Verdicts.{verdict_on};
ghost use Rattle.office_book.specs.Archive.{IsKeptAt, MayCome};
ghost use Rattle.office_book.specs.Grouped.{IsOfHandheld, IsSaid, IsAmong};
ghost use Rattle.office_book.specs.Kept.{kept_reply};

use crate::book::Book;
use disk_model::Disk;
use fact_kinds::{Batch, FRAME_BATCHES};
use ldar_law::{Reply, Verdict};

impl<D: Disk> Book<D> {
    /// The reply to a batch that is not added after the kept ones and others of its group. Returns `None` if it is new and
    /// passes. `next` is the position of the next kept batch.
    pub(crate) fn refusal(&self, next: u32, batch: &Batch, others: &[Batch]) -> Option<Reply>
        requires next { next ≡ length (batches_of self.now.frames) + 1 }
        requires fits { next + FRAME_BATCHES < 2 ^ 32 }
        requires may_come { MayCome (batches_of self.now.frames) others.now }
        requires alike { AllByRecursion IsOfHandheld others.now }
        requires few { length others.now < FRAME_BATCHES }
        ensures said { IfSome result (IsSaid (batches_of self.now.frames ++ others.now) batch.now) }
        ensures is_new { IsNone result → IsNew (batches_of self.now.frames ++ others.now) batch.now }
        ensures passes { IsNone result → verdict_on (batches_of self.now.frames ++ others.now) batch.now ≡ verdicts.Pass }
    {
        if let Some((position, same)) = self.kept_at(next, batch, others) {
            return Some(reply_kept(batch, position, same));
        }
        match self.judged_after(others, batch) {
            Verdict::Denied { fact, rule } => Some(Reply::Denied { fact, rule }),
            Verdict::Full { facts } => Some(Reply::Full { facts }),
            Verdict::Pass => None,
        }
    }

    /// The position, from 1, of the batch with the identity of this one among the kept ones and others after them, and
    /// whether it is the same batch.
    fn kept_at(&self, next: u32, batch: &Batch, others: &[Batch]) -> Option<(u32, bool)>
        requires next { next ≡ length (batches_of self.now.frames) + 1 }
        requires fits { next + FRAME_BATCHES < 2 ^ 32 }
        requires few { length others.now < FRAME_BATCHES }
        ensures kept { IfSome result (λ kept. IsKeptAt (batches_of self.now.frames ++ others.now) batch.now kept.0 kept.1) }
        ensures is_new { IsNone result → IsNew (batches_of self.now.frames ++ others.now) batch.now }
    {
        match self.archive.kept_at(batch) {
            Some(kept) => Some(kept),
            None => among(next, others, batch),
        }
    }

    /// The verdict on a batch after the kept ones and others.
    fn judged_after(&self, others: &[Batch], batch: &Batch) -> Verdict
        requires may_come { MayCome (batches_of self.now.frames) others.now }
        requires alike { AllByRecursion IsOfHandheld others.now }
        requires few { length others.now < FRAME_BATCHES }
        ensures value { result ≡ verdict_on (batches_of self.now.frames ++ others.now) batch.now }
    {
        self.archive.judged_behind(facts_in(others), batch)
    }
}

/// The reply to a batch whose identity is kept at this position, with equal or with other content.
fn reply_kept(batch: &Batch, position: u32, same: bool) -> Reply
    ensures value { result ≡ kept_reply batch.now position same }
{
    if same {
        Reply::Receipt {
            handheld: batch.handheld,
            number: batch.number,
            position,
        }
    } else {
        Reply::Conflict { position }
    }
}

/// The number of facts in batches.
fn facts_in(batches: &[Batch]) -> u64
    requires few { length batches.now < FRAME_BATCHES }
    ensures value { result ≡ fact_count batches.now }
{
    let mut facts = 0;
    for batch in batches {
        facts += batch.facts.as_slice().len() as u64;
    }
    facts
}

/// The position of the first of the other batches with the identity of this one, and whether it is the same batch. The other
/// batches begin at position `first`.
fn among(first: u32, others: &[Batch], batch: &Batch) -> Option<(u32, bool)>
    requires fits { first + length others.now < 2 ^ 32 }
    ensures none { IsNone result → position_from (is_of (identity_of batch.now)) first others.now ≡ None }
    ensures found { IfSome result (λ found. IsAmong first others.now batch.now found.0 found.1) }
{
    let mut position = first;
    for other in others {
        if has_identity_of(batch, other) {
            return Some((position, other.same_content(batch)));
        }
        position += 1;
    }
    None
}

/// Whether the other batch has the identity of this one.
fn has_identity_of(batch: &Batch, other: &Batch) -> bool
    ensures value { result ≡ is_of (identity_of batch.now) other.now }
{
    batch.handheld == other.handheld && batch.number == other.number
}
