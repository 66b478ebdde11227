ghost use Rattle.std.specs.Prelude.{◌≡◌, ◌<◌, Some, [], ◌∷◌, ◌++◌, not, if◌then◌else◌, is_none, slice_get, drop, IfOk, IsTrue, OnOk, OnErr};
ghost use Rattle.std.specs.List.{list_any};
ghost use Rattle.fact_kinds.specs.Facts.{facts_to};
ghost use Rattle.fact_kinds.specs.Identity.{identity_of, position_of};
ghost use Rattle.ldar_law.specs.declared.verdict.Verdict.TheVariants.{Pass};
ghost use Rattle.ldar_law.specs.Machine.{IsNew, is_accepted as law_accepts};
ghost use Rattle.ldar_law.specs.Shown as law;
ghost use Rattle.ldar_law.specs.Verdicts.{is_pass as law_passes, verdict_on};
ghost use Rattle.office_views.specs.Answers.{report_asked, IsShown, IsView, Tells};
ghost use Rattle.memory_office.specs.Known.{is_identity};

use batch_rules::verdict;
use fact_kinds::{Batch, Identity, Memory};
use fact_store::Steps;
use ldar_days::Day;
use ldar_law::{Report, Request, Verdict};
use office_views::{AskError, Shown, Views, ask_views, report_views};
use std::alloc::Global;
use std::marker::{Brand, Model};
use std::slice::from_ref;
use std::sync::ledger::{Blank, Ledger};

/// The batches that were adopted, in the order in which they arrived, with their views. In contracts it is these batches, and the
/// spare ones, for which there is room.
#[derive(Drop)]
pub struct Office {
    views: Views,
    /// The identities of the adopted batches.
    identities: Vec<Identity>,
}

impl Model for Office {
    ghost use Rattle.std.specs.Prelude.{◌≡◌, map};
    ghost use Rattle.fact_kinds.specs.Identity.{identity_of};
    ghost use Rattle.office_views.specs.Held.{Held};
    ghost use Rattle.office_views.specs.Viewed.{held_of};

    ghost Value = { Held };

    ghost view = { λ o. held_of o.views };

    ghost invariant = { λ o. o.identities.items ≡ map identity_of o.views.adopted };
}

impl Office {
    /// An office without batches. Allocates nothing.
    pub fn new(alloc: Global) -> Office
        ensures value { result ≡ record { adopted = []; spare = [] } }
    {
        Office {
            views: Views::new(alloc),
            identities: Vec::new(alloc),
        }
    }

    /// Makes room for this batch and no other. When out of memory, nothing changes.
    pub fn reserve(&mut self, batch: &Batch) -> Result<(), Memory>
        ensures roomy { OnOk result (self.new ≡ record self.old { spare = batch.now ∷ [] }) }
        ensures adopted { self.new.adopted ≡ self.old.adopted }
        ensures unchanged { OnErr result (self.new ≡ self.old) }
    {
        self.views.reserve(from_ref(batch))
    }

    /// Adopts a batch that has room, if it is new and passes. Returns whether it was adopted. When out of memory, nothing changes.
    pub fn adopt(&mut self, batch: &Batch) -> Result<bool, Memory>
        requires roomy { slice_get self.old.spare 0 ≡ Some batch.now }
        ensures value { IfOk result (λ adopted. adopted ≡ law_accepts self.old.adopted batch.now) }
        ensures adopted { IfOk result (λ adopted. self.new.adopted
            ≡ (if adopted then self.old.adopted ++ batch.now ∷ [] else self.old.adopted)) }
        ensures unchanged { OnErr result (self.new ≡ self.old) }
    {
        if !self.is_accepted(batch) {
            return Ok(false);
        }
        self.identities.push(batch.identity())?;
        adopt_accepted::<Brand>(&mut self.views, batch, Blank::new(1));
        Ok(true)
    }

    /// Whether a batch is new and passes after the adopted ones.
    pub fn is_accepted(&self, batch: &Batch) -> bool
        ensures value { result ≡ law_accepts self.now.adopted batch.now }
        ensures new { IsTrue result → IsNew self.now.adopted batch.now }
        ensures passes { IsTrue result → verdict_on self.now.adopted batch.now ≡ Pass }
    {
        self.is_new(batch) && is_pass(&self.judged(batch))
    }

    /// The verdict on a batch after the adopted ones.
    pub fn judged(&self, batch: &Batch) -> Verdict
        ensures value { result ≡ verdict_on self.now.adopted batch.now }
    {
        let (_, facts) = self.views.counts();
        verdict(self.views.register(), facts, batch)
    }

    /// Whether no adopted batch has the identity of this one.
    fn is_new(&self, batch: &Batch) -> bool
        ensures value { result ≡ is_none (position_of (identity_of batch.now) self.now.adopted) }
    {
        !is_among(&self.identities, &batch.identity())
    }

    /// What a view shows of the adopted batches, as of its day. The only error is out of memory.
    pub fn ask(&mut self, request: &Request) -> Result<Shown, Memory>
        requires view { IsView request.now }
        ensures value { IsShown result (law.shown self.old.adopted request.now) }
        ensures unchanged { self.new ≡ self.old }
    {
        ask_views::<Brand>(&mut self.views, request, Blank::new(1))
    }

    /// The report of a half of a process unit as of a day (40 CFR 60.487a(c)), or the error.
    pub fn report(&mut self, unit: u16, half: u16, day: Day) -> Result<Report, AskError>
        ensures value { Tells result (report_asked unit half day (facts_to day self.old.adopted)) }
        ensures unchanged { self.new ≡ self.old }
    {
        report_views::<Brand>(&mut self.views, unit, half, day, Blank::new(1))
    }
}

/// Whether a verdict lets a batch pass.
fn is_pass(verdict: &Verdict) -> bool
    ensures value { result ≡ law_passes verdict.now }
{
    match verdict {
        Verdict::Pass => true,
        Verdict::Denied { .. } | Verdict::Full { .. } => false,
    }
}

/// Whether an identity is one of these.
fn is_among(identities: &[Identity], identity: &Identity) -> bool
    ensures value { result ≡ list_any (is_identity identity.now) identities.now }
{
    identities.iter().any(|kept| is_same(identity, kept))
}

/// Whether two identities are equal.
fn is_same(a: &Identity, b: &Identity) -> bool
    ensures value { result ≡ is_identity a.now b.now }
{
    a.handheld == b.handheld && a.number == b.number
}

/// Adopts a batch that has room, is new and passes.
fn adopt_accepted<L: Ledger>(views: &mut Views, batch: &Batch, blank: Blank)
    requires name { blank.name ≡ L.name }
    requires parts { blank.parts ≡ L.parts }
    requires some_part { 0 < L.parts }
    requires roomy { slice_get views.old.spare 0 ≡ Some batch.now }
    requires passes { verdict_on views.old.adopted batch.now ≡ Pass }
    requires new_identity { IsNew views.old.adopted batch.now }
    ensures value { views.new ≡ record views.old { adopted = views.old.adopted ++ batch.now ∷ []; spare = drop 1 views.old.spare } }
{
    let mut steps = Steps::<L>::new(blank);
    views.adopt(batch, &mut steps);
}
