//! Adopting the batches of a journal while it is read, frame by frame.

ghost use Rattle.std.specs.Prelude.{◌≡◌, ℕ, ◌<◌, ◌≤◌, IsTrue, [], ◌++◌, length, IfOk, IfSome, IsNone};
ghost use Rattle.fact_kinds.specs.declared.limits.TheConstants.{MOST_FACTS};
ghost use Rattle.ldar_journal.specs.Image.{IsKept};
ghost use Rattle.ldar_law.specs.declared.verdict.Verdict.TheVariants as verdicts;
ghost use Rattle.ldar_law.specs.Verdicts.{is_ruly, facts_with, verdict_on};
ghost use Rattle.office_book.specs.Opened.{HasTaken};
ghost use Rattle.office_views.specs.Viewed.{held_of};

use crate::Memory;
use crate::archive::judged_after;
use fact_kinds::Batch;
use fact_store::Steps;
use ldar_law::Verdict;
use office_views::Views;
use std::marker::Brand;
use std::sync::ledger::{Blank, Ledger};

/// Adopts the batches of one more frame as long as they pass. If one is denied after those before it, returns its position,
/// from 1 over the batches of all frames, and the rule.
pub fn take_frame(views: &mut Views, batches: &[Batch]) -> Result<Option<(u32, u8)>, Memory>
    requires kept { IsKept (views.old.adopted ++ batches.now) }
    requires few { length (views.old.adopted ++ batches.now) ≤ MOST_FACTS }
    requires ruly { IsTrue (is_ruly views.old.adopted) }
    ensures value { IfOk result (HasTaken (views.old.adopted ++ batches.now) (held_of views.new)) }
{
    views.reserve(batches)?;
    Ok(take_in::<Brand>(views, batches, Blank::new(1)))
}

/// Adopts batches that have room, one after the other, as long as they pass.
fn take_in<L: Ledger>(views: &mut Views, batches: &[Batch], blank: Blank) -> Option<(u32, u8)>
    requires name { blank.name ≡ L.name }
    requires parts { blank.parts ≡ L.parts }
    requires some_part { 0 < L.parts }
    requires roomy { views.old.spare ≡ batches.now }
    requires kept { IsKept (views.old.adopted ++ batches.now) }
    requires few { length (views.old.adopted ++ batches.now) ≤ MOST_FACTS }
    requires ruly { IsTrue (is_ruly views.old.adopted) }
    ensures value { HasTaken (views.old.adopted ++ batches.now) (held_of views.new) result }
{
    let mut steps = Steps::<L>::new(blank);
    for batch in batches {
        match rule_against(views, batch) {
            None => views.adopt(batch, &mut steps),
            Some(rule) => {
                let (count, _) = views.counts();
                return Some((count + 1, rule));
            }
        }
    }
    None
}

/// The least rule that denies a batch after the adopted ones, if one does.
fn rule_against(views: &Views, batch: &Batch) -> Option<u8>
    ensures denied { IfSome result (λ rule. (fact : ℕ) × (verdict_on views.now.adopted batch.now ≡ verdicts.Denied fact rule)) }
    ensures passes { IsNone result → facts_with views.now.adopted batch.now ≤ MOST_FACTS
        → verdict_on views.now.adopted batch.now ≡ verdicts.Pass }
{
    match judged_after(views, batch) {
        Verdict::Denied { fact: _, rule } => Some(rule),
        Verdict::Pass => None,
        Verdict::Full { facts: _ } => None,
    }
}
