ghost use Rattle.std.specs.Prelude.{◌≡◌, ℕ, true, ◌+◌, ◌<◌, ◌≤◌, ◌++◌, [], List, Some, IfOk, IsTrue, OnOk, length, sum_by, nat_eq, if◌then◌else◌};
ghost use Rattle.std.specs.List.{flat_map};
ghost use Rattle.std.specs.Option.{option_map};
ghost use Rattle.list_words.specs.Order.{Ascends};
ghost use Rattle.fact_kinds.specs.declared.batch.Batch.{Batch as SomeBatch};
ghost use Rattle.fact_kinds.specs.Facts.{Entry, entries_of, facts_of, goes_first};
ghost use Rattle.fact_kinds.specs.Identity.{identities_differ};
ghost use Rattle.fact_store.specs.Kept.{facts_in};
ghost use Rattle.history_laws.specs.DayLaws.{up_to};
ghost use Rattle.history_laws.specs.MoreLaws.{with_batch};
ghost use Rattle.history_laws.specs.RulyLaws.{IsEachOnce};
ghost use Rattle.ldar_law.specs.declared.numbers.TheConstants.{LAST_FACT_DAY, MOST_COMPONENTS};
ghost use Rattle.ldar_law.specs.Equipment.{members_of};
ghost use Rattle.ldar_law.specs.Slices.{register_facts};
ghost use Rattle.ldar_law.specs.Stirred.{stirred};
ghost use Rattle.ldar_law.specs.Units as law;
ghost use Rattle.touched_readings.specs.Windows.{reads_for};
ghost use Rattle.unit_summaries.specs.Rows.{row_of};
ghost use Rattle.unit_summaries.specs.Sound.{Are, IsRenewed, answered_at, is_known, news_of};

use crate::counting::count_anew;
use crate::counts::{make_counts, set_count};
use crate::kept::{DayTallies, keep, tallies_kept};
use crate::named::make_stale_by_names;
use crate::reads::Lists;
use crate::renewal::{renew_members, renew_unit};
use crate::summary::{Summary, UnitSummary};
use crate::table::Table;
use component_register::Register;
use fact_kinds::{Batch, Memory};
use fact_store::{FactStore, Facts, Steps};
use ldar_days::Day;
use ldar_law::{Tally, UnitEntry};
use std::alloc::Global;
use std::marker::Model;
use std::sync::ledger::Ledger;

/// Summaries of components and process units, kept from view to view. In contracts they are the rows of both, for each process unit
/// the number of facts at its last answered view, and the counts of quarters that are kept.
#[derive(Drop)]
pub struct Summaries {
    alloc: Global,
    components: Table<Summary>,
    units: Table<UnitSummary>,
    answered: Vec<usize>,
    kept: Vec<DayTallies>,
}

impl Model for Summaries {
    ghost use Rattle.unit_summaries.specs.Sound.{Sums};

    ghost Value = { Sums };

    ghost view = { λ s. record { components = s.components; units = s.units; answered = s.answered.items; kept = s.kept.items } };
}

impl Summaries {
    /// No summaries. Takes no memory.
    pub fn new(alloc: Global) -> Summaries
        ensures value { result ≡ record {
          components = record { slots = []; fresh = [] };
          units = record { slots = []; fresh = [] };
          answered = [];
          kept = [];
        } }
        ensures sound { Are [] [] 0 result }
    {
        Summaries {
            alloc,
            components: Table::new(alloc),
            units: Table::new(alloc),
            answered: Vec::new(alloc),
            kept: Vec::new(alloc),
        }
    }

    /// The summary of a component, if one was made.
    pub fn component(&self, component: u16) -> Option<&Summary>
        ensures value { option_map (λ summary. summary.now) result ≡ row_of self.now.components component }
    {
        self.components.row(component)
    }

    /// The summary of a process unit, if one was made.
    pub fn unit(&self, unit: u8) -> Option<&UnitSummary>
        ensures value { option_map (λ summary. summary.now) result ≡ row_of self.now.units unit }
    {
        self.units.row(u16::from(unit))
    }

    /// Before a batch is added to the facts: the summaries of what it touches are no more up to date. It takes no memory, and reads for
    /// each calibration, precision test and drift assessment of the batch at most the facts that name its instrument.
    pub fn touch<L: Ledger>(&mut self, store: &Facts, batch: &Batch, steps: &mut Steps<L>)
        ensures sound { (history : List SomeBatch) → store.now.arrived ≡ flat_map entries_of history
            → IsTrue (identities_differ (with_batch history batch.now)) → Are (facts_of history) store.now.arrived store.now.listed self.old
            → Are (facts_of (with_batch history batch.now)) (store.now.arrived ++ entries_of batch.now) store.now.listed self.new }
        ensures answered { self.new.answered ≡ self.old.answered }
        ensures counted { steps.new ≤ steps.old + sum_by (λ fact. reads_for store.now.arrived fact.body) batch.now.facts }
    {
        self.components.make_stale_by_readings(store, batch, steps);
        make_stale_by_names(
            &mut self.components,
            &mut self.units,
            batch.facts.as_slice(),
        );
    }

    /// Makes the summaries of a process unit and of its components up to date. It reads at most the stirred facts: those of what was
    /// touched since the last answered view of the unit. After `Memory` those made so far are up to date.
    pub fn renew<L: Ledger>(
        &mut self,
        store: &FactStore,
        register: &Register,
        unit: u8,
        steps: &mut Steps<L>,
    ) -> Result<(), Memory>
        requires ordered { Ascends goes_first (facts_in store.now) }
        requires register { facts_in register.now ≡ register_facts (facts_in store.now) }
        requires once { IsEachOnce (facts_in store.now) }
        requires entered { is_known store.now.arrived unit ≡ true }
        requires sound { Are (facts_in store.now) store.now.arrived (length store.now.arrived) self.old }
        ensures sound { Are (facts_in store.now) store.now.arrived (length store.now.arrived) self.new }
        ensures answered { (u : ℕ) → answered_at self.new u ≡ answered_at self.old u }
        ensures room { OnOk result (unit < length self.new.answered) }
        ensures renewed { OnOk result (IsRenewed (facts_in store.now) unit self.new) }
        ensures counted { steps.new ≤ steps.old + stirred (facts_in store.now) (news_of store.now.arrived self.old unit) unit }
    {
        make_counts(&mut self.answered, unit)?;
        let lists = Lists {
            alloc: self.alloc,
            store,
        };
        renew_unit(&mut self.units, &mut self.kept, &lists, unit, steps)?;
        renew_members(
            &mut self.components,
            &mut self.kept,
            &self.units,
            &lists,
            register,
            unit,
            steps,
        )
    }

    /// The counts of the quarters of a process unit from the first to one, as known on a day (40 CFR 60.485a(h)). The unit keeps those of
    /// the last four days that were asked, so they are counted anew only for another day, or for more quarters.
    pub fn tallies_on(
        &mut self,
        store: &FactStore,
        register: &Register,
        entry: &UnitEntry,
        day: Day,
        quarters: u16,
    ) -> Result<Vec<Tally>, Memory>
        requires ordered { Ascends goes_first (facts_in store.now) }
        requires register { facts_in register.now ≡ register_facts (facts_in store.now) }
        requires once { IsEachOnce (facts_in store.now) }
        requires sound { Are (facts_in store.now) store.now.arrived (length store.now.arrived) self.old }
        requires renewed { IsRenewed (facts_in store.now) entry.now.unit self.old }
        requires startup { entry.now.startup ≤ LAST_FACT_DAY }
        requires few { length (members_of entry.now.unit (facts_in store.now)) ≤ MOST_COMPONENTS }
        ensures value { IfOk result (λ tallies. tallies.items
            ≡ law.tallies_to entry.now.startup day (law.components_of entry.now.unit (up_to day (facts_in store.now))) quarters) }
        ensures sound { Are (facts_in store.now) store.now.arrived (length store.now.arrived) self.new }
        ensures components { self.new.components ≡ self.old.components }
        ensures units { self.new.units ≡ self.old.units }
        ensures answered { self.new.answered ≡ self.old.answered }
    {
        let found = tallies_kept(&self.kept, entry.unit, entry.startup, day, quarters);
        if let Some(tallies) = found {
            return Vec::from_slice(self.alloc, tallies);
        }
        let tallies = count_anew(self.alloc, self, store, register, entry, day, quarters)?;
        let copy = Vec::from_slice(self.alloc, &tallies)?;
        let counted = DayTallies {
            unit: entry.unit,
            startup: entry.startup,
            day,
            quarters,
            tallies: copy,
        };
        keep(&mut self.kept, counted)?;
        Ok(tallies)
    }

    /// Notes that a view of the process unit was answered, with this number of facts. It takes no memory, since there is room.
    pub fn answer(&mut self, unit: u8, facts: usize)
        requires room { unit < length self.old.answered }
        ensures components { self.new.components ≡ self.old.components }
        ensures units { self.new.units ≡ self.old.units }
        ensures answered { (u : ℕ) → answered_at self.new u ≡ (if nat_eq u unit then facts else answered_at self.old u) }
        ensures sound { (known arrived : List Entry) → facts ≡ length arrived → IsRenewed known unit self.old
            → Are known arrived (length arrived) self.old → Are known arrived (length arrived) self.new }
    {
        set_count(&mut self.answered, unit, facts);
    }
}
