ghost use Rattle.std.specs.Prelude.{◌≡◌, ℕ, ◌+◌, ◌*◌, ◌<◌, ◌≤◌, ◌↔◌, Some, None, is_some, IsTrue, [], ◌∷◌, ◌++◌, length, drop, slice_get, sum_by, IfOk, OnOk, OnErr};
ghost use Rattle.fact_kinds.specs.Facts.{facts_of, facts_to};
ghost use Rattle.fact_kinds.specs.declared.limits.TheConstants.{MOST_FACTS};
ghost use Rattle.fact_store.specs.Kept.{facts_in};
ghost use Rattle.ldar_law.specs.declared.verdict.Verdict.TheVariants.{Pass};
ghost use Rattle.ldar_law.specs.Equipment.{equipment_of, unit_entry_of};
ghost use Rattle.ldar_law.specs.Machine.{batch_at, IsNew};
ghost use Rattle.history_laws.specs.MoreLaws.{with_batch};
ghost use Rattle.ldar_law.specs.Shown as law;
ghost use Rattle.ldar_law.specs.Slices.{register_facts};
ghost use Rattle.ldar_law.specs.Units.{history_of_component};
ghost use Rattle.ldar_law.specs.Verdicts.{verdict_on};
ghost use Rattle.office_views.specs.Answers as asked;
ghost use Rattle.office_views.specs.Answers.{IsShown, IsView, Tells, is_report, is_text};
ghost use Rattle.office_views.specs.Asked.{view_unit};
ghost use Rattle.office_views.specs.Totals.{totals_asked};
ghost use Rattle.office_views.specs.Viewed.{KeepsNotes, Notes, held_of, stirred_for, stirred_in};
ghost use Rattle.touched_readings.specs.Windows.{reads_for};

use crate::asked::unit_asked;
use crate::asking::text_anew;
use crate::comparing::is_batch_of;
use crate::copying::batch_of;
use crate::header::{Header, facts_of_all, push_headers};
use crate::histories::events_anew;
use crate::intake::{make_room, put_entries, put_facts};
use crate::reports::report_anew;
use crate::shown::{AskError, Shown};
use crate::totals::{Totals, totals_anew};
use crate::unit_on::unit_on;
use component_register::Register;
use fact_kinds::{Batch, Memory};
use fact_store::{Facts, Steps};
use ldar_days::Day;
use ldar_law::{Equipment, History, Report, Request};
use std::alloc::Global;
use std::marker::Model;
use std::sync::ledger::{Blank, Ledger};
use unit_summaries::{Summaries, if_begun};

/// The facts of the adopted batches, and what they say of each process unit on a day. In contracts it is the adopted batches in the order
/// in which they came, the batches that have room, and for each process unit the number of facts at its last answered view.
#[derive(Drop)]
pub struct Views {
    alloc: Global,
    store: Facts,
    register: Register,
    summaries: Summaries,
    /// The batches: those that were adopted, and then those that have room.
    headers: Vec<Header>,
    /// How many batches were adopted, and how many facts they have.
    adopted: usize,
    facts: usize,
}

impl Model for Views {
    ghost use Rattle.std.specs.Prelude.{◌≡◌, take, drop, length};
    ghost use Rattle.fact_store.specs.Coming.{stored};
    ghost use Rattle.office_views.specs.Headers.{batches_by, facts_kept};
    ghost use Rattle.office_views.specs.Inside.{IsSound};
    ghost use Rattle.office_views.specs.Viewed.{Viewed};
    ghost use Rattle.fact_store.specs.Kept.{facts_in};
    ghost use Rattle.unit_summaries.specs.Sound.{Are};

    ghost Value = { Viewed };

    ghost view = { λ v. record {
      adopted = take v.adopted (batches_by (facts_kept (stored v.store)) v.headers.items);
      spare = drop v.adopted (batches_by (facts_kept (stored v.store)) v.headers.items);
      answered = v.summaries.answered;
    } };

    ghost invariant = { λ v. IsSound (stored v.store) v.register v.headers.items v.adopted × (v.facts ≡ length v.store.arrived)
        × Are (facts_in (stored v.store)) v.store.arrived v.store.listed v.summaries };
}

impl Views {
    /// Views over no batches. Takes no memory.
    pub fn new(alloc: Global) -> Views
        ensures value { result ≡ record { adopted = []; spare = []; answered = [] } }
    {
        Views {
            alloc,
            store: Facts::new(alloc),
            register: Register::new(alloc),
            summaries: Summaries::new(alloc),
            headers: Vec::new(alloc),
            adopted: 0,
            facts: 0,
        }
    }

    /// The register of the adopted batches.
    pub fn register(&self) -> &Register
        ensures value { facts_in result.now ≡ register_facts (facts_of self.now.adopted) }
    {
        &self.register
    }

    /// How many batches were adopted, and how many facts they have.
    pub fn counts(&self) -> (u32, u64)
        ensures batches { result.0 ≡ length self.now.adopted }
        ensures facts { result.1 ≡ length (facts_of self.now.adopted) }
        ensures in_range { result.1 ≤ MOST_FACTS }
    {
        (self.adopted as u32, self.facts as u64)
    }

    /// Whether a process unit has started up by a day.
    pub fn has_unit(&self, unit: u16, day: Day) -> bool
        ensures value { result ≡ is_some (unit_entry_of unit (facts_to day self.now.adopted)) }
    {
        unit_on(&self.register, unit, day).is_some()
    }

    /// A component as it is known on a day, or `None` if no fact has entered it by then.
    pub fn equipment(&self, component: u16, day: Day) -> Option<Equipment>
        ensures value { result ≡ equipment_of component (facts_to day self.now.adopted) }
    {
        match self.register.component(component) {
            Some(item) => if_begun(day, item),
            None => None,
        }
    }

    /// Makes room for just these batches, in this order. After `Memory` all is as it was.
    pub fn reserve(&mut self, batches: &[Batch]) -> Result<(), Memory>
        ensures ok { OnOk result (self.new ≡ record self.old { spare = batches.now }) }
        ensures unchanged { OnErr result (self.new ≡ self.old) }
    {
        let facts = facts_of_all(self.alloc, batches)?;
        self.headers.reserve(batches.len())?;
        make_room(&mut self.store, &mut self.register, &facts)?;
        // From here on no memory is taken: only now the room of the batches before is let go.
        self.headers.truncate(self.adopted);
        push_headers(&mut self.headers, self.facts, batches);
        Ok(())
    }

    /// Adopts a batch: the next that has room, which passes after the adopted ones and has an identity of its own. It takes no memory, and
    /// reads for each calibration, precision test and drift assessment of the batch at most the facts that name its instrument.
    pub fn adopt<L: Ledger>(&mut self, batch: &Batch, steps: &mut Steps<L>)
        requires roomy { slice_get self.old.spare 0 ≡ Some batch.now }
        requires passes { verdict_on self.old.adopted batch.now ≡ Pass }
        requires new_identity { IsNew self.old.adopted batch.now }
        ensures value { self.new ≡ record self.old { adopted = self.old.adopted ++ batch.now ∷ []; spare = drop 1 self.old.spare } }
        ensures counted { steps.new ≤ steps.old + sum_by (λ fact. reads_for (facts_of (with_batch self.old.adopted batch.now)) fact.body) batch.now.facts }
    {
        self.summaries.touch(&self.store, batch, steps);
        put_facts(&mut self.store, batch);
        put_entries(&mut self.register, batch);
        self.adopted += 1;
        self.facts += batch.facts.as_slice().len();
    }

    /// What a view shows of the adopted batches as known on its day. What there is none of takes no memory to say. If a text is shown, the
    /// number of facts is noted for the process unit. It reads at most twice the facts stirred since the last answered view of the unit.
    pub fn ask<L: Ledger>(
        &mut self,
        request: &Request,
        steps: &mut Steps<L>,
    ) -> Result<Shown, Memory>
        requires view { IsView request.now }
        ensures value { IsShown result (law.shown self.old.adopted request.now) }
        ensures batches { held_of self.new ≡ held_of self.old }
        ensures answered { Notes (is_text result) (view_unit request.now) (length (facts_of self.old.adopted)) self.old.answered self.new.answered }
        ensures counted { steps.new ≤ steps.old + 2 * stirred_in self.old (view_unit request.now) }
    {
        let entry = match unit_asked(&self.register, request) {
            Ok(entry) => entry,
            Err(what) => return Ok(Shown::NoSuch(what)),
        };
        let store = self.store.list()?;
        let text = text_anew(
            self.alloc,
            &store,
            &self.register,
            &mut self.summaries,
            &entry,
            request,
            self.facts,
            steps,
        );
        // The store is put back before an error is returned, so that its facts are kept.
        self.store = Facts::of(store);
        Ok(Shown::Text(text?))
    }

    /// The report of a half of a process unit as known on a day (40 CFR 60.487a(c)), or what there is none of, which takes no memory to
    /// say. If there is a report, the number of facts is noted for the process unit. It reads at most twice the facts stirred since the
    /// last answered view of the unit.
    pub fn report<L: Ledger>(
        &mut self,
        unit: u16,
        half: u16,
        day: Day,
        steps: &mut Steps<L>,
    ) -> Result<Report, AskError>
        ensures value { Tells result (asked.report_asked unit half day (facts_to day self.old.adopted)) }
        ensures batches { held_of self.new ≡ held_of self.old }
        ensures answered { Notes (is_report result) unit (length (facts_of self.old.adopted)) self.old.answered self.new.answered }
        ensures counted { steps.new ≤ steps.old + 2 * stirred_in self.old unit }
    {
        let entry = match unit_asked(&self.register, &Request::Report { unit, half, day }) {
            Ok(entry) => entry,
            Err(what) => return Err(AskError::NoSuch(what)),
        };
        let store = self.store.list()?;
        let report = report_anew(
            self.alloc,
            &store,
            &self.register,
            &mut self.summaries,
            &entry,
            half,
            day,
            self.facts,
            steps,
        );
        self.store = Facts::of(store);
        Ok(report?)
    }

    /// How many lines the lists of a process unit have on a day, or `None` if there is no such unit. It is no view: the number of facts at
    /// the last one stays. It reads at most twice the facts stirred since then.
    pub fn totals<L: Ledger>(
        &mut self,
        unit: u16,
        day: Day,
        steps: &mut Steps<L>,
    ) -> Result<Option<Totals>, Memory>
        ensures value { IfOk result (λ totals. totals ≡ totals_asked unit day (facts_to day self.old.adopted)) }
        ensures batches { held_of self.new ≡ held_of self.old }
        ensures answered { KeepsNotes self.old.answered self.new.answered }
        ensures counted { steps.new ≤ steps.old + 2 * stirred_in self.old unit }
    {
        let Ok(entry) = unit_asked(&self.register, &Request::Tags { unit, day }) else {
            return Ok(None);
        };
        let store = self.store.list()?;
        let totals = totals_anew(
            self.alloc,
            &store,
            &self.register,
            &mut self.summaries,
            &entry,
            day,
            steps,
        );
        self.store = Facts::of(store);
        Ok(Some(totals?))
    }

    /// A component with its judged events as known on a day, or `None` if no fact has entered it by then. It is no view: the numbers of
    /// facts at the last ones stay. It reads at most twice the facts stirred since the last answered view of the component's process unit.
    pub fn events<L: Ledger>(
        &mut self,
        component: u16,
        day: Day,
        steps: &mut Steps<L>,
    ) -> Result<Option<History>, Memory>
        ensures value { IfOk result (λ history. history ≡ history_of_component component (facts_to day self.old.adopted)) }
        ensures batches { held_of self.new ≡ held_of self.old }
        ensures answered { KeepsNotes self.old.answered self.new.answered }
        ensures counted { steps.new ≤ steps.old + 2 * stirred_for self.old component }
    {
        let Some(item) = self.register.component(component) else {
            return Ok(None);
        };
        let store = self.store.list()?;
        let history = events_anew(
            self.alloc,
            &store,
            &self.register,
            &mut self.summaries,
            &item,
            day,
            steps,
        );
        self.store = Facts::of(store);
        history
    }

    /// Whether the adopted batch at a position, from 1, is just this one.
    pub fn is_kept_at<L: Ledger>(&self, position: u32, batch: &Batch, steps: &mut Steps<L>) -> bool
        ensures value { IsTrue result ↔ (batch_at self.now.adopted position ≡ Some batch.now) }
    {
        let at = position.saturating_sub(1) as usize;
        at < self.adopted && is_batch_of(&self.store, &self.headers[at], batch, steps)
    }

    /// A copy of the adopted batch at a position, from 1.
    pub fn batch_at<L: Ledger>(
        &self,
        alloc: Global,
        position: u32,
        steps: &mut Steps<L>,
    ) -> Result<Batch, Memory>
        requires from_1 { 1 ≤ position }
        requires within { position ≤ length self.now.adopted }
        ensures value { IfOk result (λ batch. batch_at self.now.adopted position ≡ Some batch) }
    {
        let (_count, _) = self.counts();
        batch_of(
            alloc,
            &self.store,
            &self.headers[position as usize - 1],
            steps,
        )
    }
}

/// What a view shows of the adopted batches, with a count of its reads that begins here.
pub fn ask_views<L: Ledger>(
    views: &mut Views,
    request: &Request,
    blank: Blank,
) -> Result<Shown, Memory>
    requires name { blank.name ≡ L.name }
    requires parts { blank.parts ≡ L.parts }
    requires some_part { 0 < L.parts }
    requires view { IsView request.now }
    ensures value { IsShown result (law.shown views.old.adopted request.now) }
    ensures batches { held_of views.new ≡ held_of views.old }
    ensures answered { Notes (is_text result) (view_unit request.now) (length (facts_of views.old.adopted)) views.old.answered views.new.answered }
{
    let mut steps = Steps::<L>::new(blank);
    views.ask(request, &mut steps)
}

/// The report of a half of a process unit of the adopted batches, with a count of its reads that begins here.
pub fn report_views<L: Ledger>(
    views: &mut Views,
    unit: u16,
    half: u16,
    day: Day,
    blank: Blank,
) -> Result<Report, AskError>
    requires name { blank.name ≡ L.name }
    requires parts { blank.parts ≡ L.parts }
    requires some_part { 0 < L.parts }
    ensures value { Tells result (asked.report_asked unit half day (facts_to day views.old.adopted)) }
    ensures batches { held_of views.new ≡ held_of views.old }
    ensures answered { Notes (is_report result) unit (length (facts_of views.old.adopted)) views.old.answered views.new.answered }
{
    let mut steps = Steps::<L>::new(blank);
    views.report(unit, half, day, &mut steps)
}

/// How many lines the lists of a process unit have on a day, with a count of its reads that begins here.
pub fn total_views<L: Ledger>(
    views: &mut Views,
    unit: u16,
    day: Day,
    blank: Blank,
) -> Result<Option<Totals>, Memory>
    requires name { blank.name ≡ L.name }
    requires parts { blank.parts ≡ L.parts }
    requires some_part { 0 < L.parts }
    ensures value { IfOk result (λ totals. totals ≡ totals_asked unit day (facts_to day views.old.adopted)) }
    ensures batches { held_of views.new ≡ held_of views.old }
    ensures answered { KeepsNotes views.old.answered views.new.answered }
{
    let mut steps = Steps::<L>::new(blank);
    views.totals(unit, day, &mut steps)
}

/// A component with its judged events as known on a day, with a count of its reads that begins here.
pub fn events_of_views<L: Ledger>(
    views: &mut Views,
    component: u16,
    day: Day,
    blank: Blank,
) -> Result<Option<History>, Memory>
    requires name { blank.name ≡ L.name }
    requires parts { blank.parts ≡ L.parts }
    requires some_part { 0 < L.parts }
    ensures value { IfOk result (λ history. history ≡ history_of_component component (facts_to day views.old.adopted)) }
    ensures batches { held_of views.new ≡ held_of views.old }
    ensures answered { KeepsNotes views.old.answered views.new.answered }
{
    let mut steps = Steps::<L>::new(blank);
    views.events(component, day, &mut steps)
}
