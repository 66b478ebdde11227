ghost use Rattle.std.specs.Prelude.{◌≡◌, ℕ, ◌+◌, ◌<◌, ◌≤◌, [], OnOk, length, sum_by};
ghost use Rattle.std.specs.Option.{option_map};
ghost use Rattle.fact_kinds.specs.Facts.{entries_of};
ghost use Rattle.fact_kinds.specs.Named.{is_numbered};
ghost use Rattle.fact_store.specs.Coming.{listed_front};
ghost use Rattle.touched_readings.specs.Windows.{is_judged_anew, reads_for};
ghost use Rattle.unit_summaries.specs.Rows.{PutsRow, SameRows, Stales, is_fresh, row_of};

use crate::flags::{flag_at, make_flags, set_flag};
use crate::slots::{make_slots, put_slot, slot_at};
use fact_kinds::{Batch, Memory};
use fact_store::{Facts, Steps};
use std::alloc::Global;
use std::marker::Model;
use std::sync::ledger::Ledger;
use touched_readings::{clear, touch_readings};

/// Rows by number, each up to date or not. In contracts they are the rows and their flags.
#[derive(Drop)]
pub struct Table<T> {
    rows: Vec<Option<T>>,
    fresh: Vec<bool>,
}

impl<T> Model for Table<T> {
    ghost use Rattle.unit_summaries.specs.Rows.{Rows};

    ghost Value = { Rows T };

    ghost view = { λ t. record { slots = t.rows.items; fresh = t.fresh.items } };
}

impl<T: Drop> Table<T> {
    /// A table with no rows. Takes no memory.
    pub fn new(alloc: Global) -> Table<T>
        ensures value { result ≡ record { slots = []; fresh = [] } }
    {
        Table {
            rows: Vec::new(alloc),
            fresh: Vec::new(alloc),
        }
    }

    /// Whether the row of a number is up to date.
    pub fn is_fresh(&self, number: u16) -> bool
        ensures value { result ≡ is_fresh self.now number }
    {
        flag_at(&self.fresh, number)
    }

    /// The row of a number, if there is one.
    pub fn row(&self, number: u16) -> Option<&T>
        ensures value { option_map (λ row. row.now) result ≡ row_of self.now number }
    {
        slot_at(&self.rows, number)
    }

    /// Makes room for the row of a number. The rows stay as they are, also when out of memory.
    pub fn make_room(&mut self, number: u16) -> Result<(), Memory>
        ensures same { SameRows self.old self.new }
        ensures rows { OnOk result (number < length self.new.slots) }
        ensures flags { OnOk result (number < length self.new.fresh) }
    {
        make_slots(&mut self.rows, number)?;
        make_flags(&mut self.fresh, number)
    }

    /// Puts the row of a number, which is now up to date. It takes no memory, since there is room.
    pub fn put(&mut self, number: u16, row: T)
        requires rows { number < length self.old.slots }
        requires flags { number < length self.old.fresh }
        ensures value { PutsRow number row self.old self.new }
    {
        put_slot(&mut self.rows, number, row);
        set_flag(&mut self.fresh, number);
    }

    /// The row of a number, if there is a number, is no more up to date. Rows of other numbers stay as they are.
    pub fn make_stale(&mut self, number: Option<u16>)
        ensures value { Stales (is_numbered number) self.old self.new }
    {
        clear(&mut self.fresh, number);
    }

    /// The rows of the components with a reading that may be judged anew after a batch are no more up to date.
    pub fn make_stale_by_readings<L: Ledger>(
        &mut self,
        store: &Facts,
        batch: &Batch,
        steps: &mut Steps<L>,
    )
        ensures value { Stales (is_judged_anew (listed_front store.now).arrived (entries_of batch.now)) self.old self.new }
        ensures counted { steps.new ≤ steps.old + sum_by (λ fact. reads_for store.now.arrived fact.body) batch.now.facts }
    {
        touch_readings(store, batch, &mut self.fresh, steps);
    }
}
