ghost use Rattle.std.specs.Prelude.{◌≡◌, ◌↔◌, ◌+◌, ◌<◌, ◌≤◌, List, IsTrue, is_some, Some, [], ◌++◌, length, take, drop, map, IfOk, OnOk, IfSome, IsNone};
ghost use Rattle.fact_kinds.specs.declared.batch.Batch.{Batch as FactBatch};
ghost use Rattle.fact_kinds.specs.declared.limits.TheConstants.{MOST_FACTS};
ghost use Rattle.fact_kinds.specs.Facts.{facts_of, facts_to, is_earlier};
ghost use Rattle.fact_kinds.specs.Identity.{identity_of};
ghost use Rattle.ldar_journal.specs.Image.{IsKept};
ghost use Rattle.ldar_law.specs.Equipment.{equipment_of, unit_entry_of};
ghost use Rattle.ldar_law.specs.Machine.{batch_at, IsNew};
ghost use Rattle.ldar_law.specs.Shown as law;
ghost use Rattle.ldar_law.specs.Slices.{register_facts};
ghost use Rattle.ldar_law.specs.Units.{history_of_component};
ghost use Rattle.ldar_law.specs.Verdicts.{is_ruly, verdict_on};
ghost use Rattle.list_words.specs.Order.{Ascends};
ghost use Rattle.office_book.specs.Archive.{IsKeptAt, MayCome};
ghost use Rattle.office_views.specs.Answers.{report_asked, IsShown, IsView, Tells};
ghost use Rattle.office_views.specs.Totals.{totals_asked};
ghost use Rattle.office_views.specs.Viewed.{held_of};

use crate::Memory;
use batch_positions::Positions;
use batch_rules::verdict;
use fact_kinds::Batch;
use fact_store::Steps;
use ldar_days::Day;
use ldar_law::{Equipment, History, Report, Request, Verdict};
use office_views::{
    AskError, Shown, Totals, Views, ask_views, events_of_views, report_views, total_views,
};
use std::alloc::Global;
use std::marker::{Brand, Model};
use std::sync::ledger::{Blank, Ledger};

/// The batches that an office keeps, in order, with what views show of them and with their positions. In contracts it is these
/// batches, and the spare ones, for which there is room.
#[derive(Drop)]
pub struct Archive {
    views: Views,
    positions: Positions,
}

impl Model for Archive {
    ghost use Rattle.office_book.specs.Archive.{IsArchive};
    ghost use Rattle.office_views.specs.Held.{Held};
    ghost use Rattle.office_views.specs.Viewed.{held_of};

    ghost Value = { Held };

    ghost view = { λ a. held_of a.views };

    ghost invariant = { λ a. IsArchive (held_of a.views) a.positions };
}

impl Archive {
    /// The batches that were adopted, with their positions.
    pub fn of(views: Views, positions: Positions) -> Archive
        requires kept { IsKept views.adopted }
        requires ruly { IsTrue (is_ruly views.adopted) }
        requires known { positions.identities ≡ map identity_of views.adopted }
        requires none { views.spare ≡ [] }
        ensures value { result ≡ held_of views }
    {
        Archive { views, positions }
    }

    /// The numbers of batches and of their facts.
    pub fn counts(&self) -> (u32, u64)
        ensures batches { result.0 ≡ length self.now.adopted }
        ensures facts { result.1 ≡ length (facts_of self.now.adopted) }
    {
        self.views.counts()
    }

    /// Reserves room for these batches. If it runs out of memory, the kept batches are unchanged.
    pub fn reserve(&mut self, batches: &[Batch]) -> Result<(), Memory>
        ensures roomy { OnOk result (self.new.spare ≡ batches.now) }
        ensures adopted { self.new.adopted ≡ self.old.adopted }
    {
        self.positions.reserve(batches.len())?;
        self.views.reserve(batches)
    }

    /// Adds batches that have room. Allocates nothing.
    pub fn adopt(&mut self, batches: &[Batch])
        requires roomy { take (length batches.now) self.old.spare ≡ batches.now }
        requires may_come { MayCome self.old.adopted batches.now }
        ensures adopted { self.new.adopted ≡ self.old.adopted ++ batches.now }
        ensures spare { self.new.spare ≡ drop (length batches.now) self.old.spare }
    {
        adopt_all::<Brand>(&mut self.views, &mut self.positions, batches, Blank::new(1));
    }

    /// The position, from 1, of a kept batch with the identity of this one, and whether it is the same batch.
    pub fn kept_at(&self, batch: &Batch) -> Option<(u32, bool)>
        ensures kept { IfSome result (λ kept. IsKeptAt self.now.adopted batch.now kept.0 kept.1) }
        ensures is_new { IsNone result → IsNew self.now.adopted batch.now }
    {
        match self.positions.position(batch.identity()) {
            Some(position) => {
                let same = is_kept_at::<Brand>(&self.views, position, batch, Blank::new(1));
                Some((position, same))
            }
            None => None,
        }
    }

    /// A copy of the kept batch at a position, from 1.
    pub fn batch_at(&self, alloc: Global, position: u32) -> Result<Batch, Memory>
        requires from_1 { 1 ≤ position }
        requires within { position ≤ length self.now.adopted }
        ensures value { IfOk result (λ batch. batch_at self.now.adopted position ≡ Some batch) }
    {
        copy_at::<Brand>(&self.views, alloc, position, Blank::new(1))
    }

    /// The verdict on a batch after the kept ones and others that make no entry in the register and have this many
    /// facts.
    pub fn judged_behind(&self, facts: u64, batch: &Batch) -> Verdict
        requires fits { length (facts_of self.now.adopted) + facts ≤ MOST_FACTS }
        ensures value { (history : List FactBatch) → register_facts (facts_of history) ≡ register_facts (facts_of self.now.adopted)
            → length (facts_of history) ≡ length (facts_of self.now.adopted) + facts → result ≡ verdict_on history batch.now }
    {
        let (_, kept) = self.views.counts();
        verdict(self.views.register(), kept + facts, batch)
    }

    /// What a view shows of the kept batches, as of its day.
    pub fn show(&mut self, request: &Request) -> Result<Shown, Memory>
        requires view { IsView request.now }
        ensures value { IsShown result (law.shown self.old.adopted request.now) }
        ensures unchanged { self.new ≡ self.old }
    {
        ask_views::<Brand>(&mut self.views, request, Blank::new(1))
    }

    /// The report of a half of a process unit as of a day, from the kept batches.
    pub fn report(&mut self, unit: u16, half: u16, day: Day) -> Result<Report, AskError>
        ensures value { Tells result (report_asked unit half day (facts_to day self.old.adopted)) }
        ensures unchanged { self.new ≡ self.old }
    {
        report_views::<Brand>(&mut self.views, unit, half, day, Blank::new(1))
    }

    /// How many lines the lists of a process unit have as of a day, from the kept batches, or `None` if there is no such unit.
    pub fn totals(&mut self, unit: u16, day: Day) -> Result<Option<Totals>, Memory>
        ensures value { IfOk result (λ totals. totals ≡ totals_asked unit day (facts_to day self.old.adopted)) }
        ensures unchanged { self.new ≡ self.old }
    {
        total_views::<Brand>(&mut self.views, unit, day, Blank::new(1))
    }

    /// Whether a process unit has started up by a day.
    pub fn has_unit(&self, unit: u16, day: Day) -> bool
        ensures value { result ≡ is_some (unit_entry_of unit (facts_to day self.now.adopted)) }
    {
        self.views.has_unit(unit, day)
    }

    /// A component as of a day, or `None` if no fact has entered it by then.
    pub fn equipment(&self, component: u16, day: Day) -> Option<Equipment>
        ensures value { result ≡ equipment_of component (facts_to day self.now.adopted) }
    {
        self.views.equipment(component, day)
    }

    /// A component with its judged events as of a day, in key order, from the kept batches, or `None` if no fact has entered it by then.
    pub fn events(&mut self, component: u16, day: Day) -> Result<Option<History>, Memory>
        ensures value { IfOk result (λ history. history ≡ history_of_component component (facts_to day self.old.adopted)) }
        ensures ordered { IfOk result (λ history. IfSome history (λ history. Ascends (λ a b. is_earlier a.key b.key) history.events)) }
        ensures unchanged { self.new ≡ self.old }
    {
        events_of_views::<Brand>(&mut self.views, component, day, Blank::new(1))
    }
}

/// The verdict on a batch after the adopted ones.
pub(crate) fn judged_after(views: &Views, batch: &Batch) -> Verdict
    ensures value { result ≡ verdict_on views.now.adopted batch.now }
{
    let (_, facts) = views.counts();
    verdict(views.register(), facts, batch)
}

/// Adopts batches that have room, one after the other, and records their positions.
fn adopt_all<L: Ledger>(
    views: &mut Views,
    positions: &mut Positions,
    batches: &[Batch],
    blank: Blank,
)
    requires name { blank.name ≡ L.name }
    requires parts { blank.parts ≡ L.parts }
    requires some_part { 0 < L.parts }
    requires roomy { take (length batches.now) views.old.spare ≡ batches.now }
    requires room { length views.old.spare ≤ positions.old.room }
    requires known { positions.old.identities ≡ map identity_of views.old.adopted }
    requires may_come { MayCome views.old.adopted batches.now }
    ensures adopted { views.new.adopted ≡ views.old.adopted ++ batches.now }
    ensures spare { views.new.spare ≡ drop (length batches.now) views.old.spare }
    ensures known { positions.new.identities ≡ map identity_of views.new.adopted }
    ensures room { length views.new.spare ≤ positions.new.room }
{
    let mut steps = Steps::<L>::new(blank);
    for batch in batches {
        views.adopt(batch, &mut steps);
        positions.push(batch.identity());
    }
}

/// Whether the batch kept at a position, from 1, is the same as this one.
fn is_kept_at<L: Ledger>(views: &Views, position: u32, batch: &Batch, blank: Blank) -> bool
    requires name { blank.name ≡ L.name }
    requires parts { blank.parts ≡ L.parts }
    requires some_part { 0 < L.parts }
    ensures value { IsTrue result ↔ (batch_at views.now.adopted position ≡ Some batch.now) }
{
    let mut steps = Steps::<L>::new(blank);
    views.is_kept_at(position, batch, &mut steps)
}

/// A copy of the batch kept at a position, from 1.
fn copy_at<L: Ledger>(
    views: &Views,
    alloc: Global,
    position: u32,
    blank: Blank,
) -> Result<Batch, Memory>
    requires name { blank.name ≡ L.name }
    requires parts { blank.parts ≡ L.parts }
    requires some_part { 0 < L.parts }
    requires from_1 { 1 ≤ position }
    requires within { position ≤ length views.now.adopted }
    ensures value { IfOk result (λ batch. batch_at views.now.adopted position ≡ Some batch) }
{
    let mut steps = Steps::<L>::new(blank);
    views.batch_at(alloc, position, &mut steps)
}
