ghost use Rattle.std.specs.Prelude.{◌≡◌, ℕ, ◌+◌, ◌≤◌, List, [], Some, true, IfOk, OnOk, length};
ghost use Rattle.list_words.specs.Order.{Ascends};
ghost use Rattle.fact_kinds.specs.Facts.{Entry, goes_first};
ghost use Rattle.fact_kinds.specs.Named as named;
ghost use Rattle.fact_store.specs.Kept.{facts_in};
ghost use Rattle.ldar_law.specs.Slices.{facts_of_instrument};
ghost use Rattle.method21_reading.specs.Instruments.{AreThoseOf};
ghost use Rattle.method21_reading.specs.Readings.{fitness_by};
ghost use Rattle.unit_summaries.specs.Cost.{AreReady, cost_left, is_among};

use crate::reads::Lists;
use crate::slots::{make_slots, put_slot, slot_at};
use fact_kinds::{Fact, Key, Memory};
use fact_store::Steps;
use ldar_law::Fitness;
use method21_reading::Instrument;
use std::alloc::Global;
use std::sync::ledger::Ledger;

/// The instruments with which readings were taken, at their numbers, each made ready when it is first asked.
pub type Instruments = Vec<Option<Instrument>>;

/// No instrument is ready.
pub fn none_ready(alloc: Global) -> Instruments
    ensures ready { (facts : List Entry) → AreReady result.items facts }
    ensures none { result.items ≡ [] }
{
    Vec::new(alloc)
}

/// Makes an instrument ready, by its calibrations, precision tests and drift assessments.
fn made_ready<L: Ledger>(
    lists: &Lists<'_>,
    number: u16,
    steps: &mut Steps<L>,
) -> Result<Instrument, Memory>
    requires ordered { Ascends goes_first (facts_in lists.now.store.now) }
    ensures value { IfOk result (AreThoseOf (facts_of_instrument number (facts_in lists.now.store.now))) }
    ensures counted { steps.new ≤ steps.old + length (facts_of_instrument number (facts_in lists.now.store.now)) }
{
    let tests = lists.of_instrument(number, steps)?;
    Instrument::new(lists.alloc, &tests)
}

/// Whether a reading with an instrument may be used, judged by a leak definition in parts per million by volume. The tests of the
/// instrument are read if it is not ready.
pub fn fitness_of<L: Ledger>(
    ready: &mut Instruments,
    lists: &Lists<'_>,
    number: u16,
    e: &(Key, Fact),
    limit: u32,
    steps: &mut Steps<L>,
) -> Result<Fitness, Memory>
    requires ordered { Ascends goes_first (facts_in lists.now.store.now) }
    requires reading { named.reading_instrument e.now.1.body ≡ Some number }
    requires ready { AreReady ready.old.items (facts_in lists.now.store.now) }
    ensures value { IfOk result (λ fitness. fitness ≡ fitness_by limit (facts_in lists.now.store.now) e.now.0 e.now.1.body) }
    ensures ready { OnOk result (AreReady ready.new.items (facts_in lists.now.store.now)) }
    ensures counted { (pool : List ℕ) → is_among pool number ≡ true → steps.new ≤ steps.old + cost_left (facts_in lists.now.store.now) pool ready.old.items }
    ensures left { OnOk result ((pool : List ℕ) → is_among pool number ≡ true
        → steps.new + cost_left (facts_in lists.now.store.now) pool ready.new.items
        ≤ steps.old + cost_left (facts_in lists.now.store.now) pool ready.old.items) }
{
    if let Some(instrument) = slot_at(ready, number) {
        return Ok(instrument.fit(&e.1, &e.0, limit));
    }
    let instrument = made_ready(lists, number, steps)?;
    let fitness = instrument.fit(&e.1, &e.0, limit);
    make_slots(ready, number)?;
    put_slot(ready, number, instrument);
    Ok(fitness)
}
