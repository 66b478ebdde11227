ghost use Rattle.std.specs.Prelude.{◌≡◌, ℕ, ◌+◌, ◌≤◌, List, Some, true, IfOk, OnOk};
ghost use Rattle.list_words.specs.Order.{Ascends};
ghost use Rattle.fact_kinds.specs.Facts.{goes_first, is_earlier};
ghost use Rattle.fact_kinds.specs.Named as named;
ghost use Rattle.fact_store.specs.Kept.{facts_in};
ghost use Rattle.ldar_law.specs.Events.{events_in, fitness_among};
ghost use Rattle.ldar_law.specs.Force.{limit_on};
ghost use Rattle.ldar_law.specs.Slices.{facts_of_component};
ghost use Rattle.unit_summaries.specs.Cost.{AreReady, UsesOnly, cost_left, is_among};

use crate::instruments::{Instruments, fitness_of};
use crate::reads::Lists;
use fact_kinds::{Class, Fact, FactBody, Key, Memory};
use fact_store::Steps;
use ldar_law::{Equipment, Event, Fitness};
use method21_reading::{Standing, push_event};
use std::sync::ledger::Ledger;

/// The fitness of a fact of a component by its leak definition of the day, in parts per million by volume: that of a reading; for
/// another fact it has no effect.
fn fitness_at<L: Ledger>(
    ready: &mut Instruments,
    lists: &Lists<'_>,
    e: &(Key, Fact),
    limit: u32,
    steps: &mut Steps<L>,
) -> Result<Fitness, Memory>
    requires ordered { Ascends goes_first (facts_in lists.now.store.now) }
    requires ready { AreReady ready.old.items (facts_in lists.now.store.now) }
    ensures value { IfOk result (λ fitness. (limits : ℕ → ℕ) → limit ≡ limits e.now.0.day
        → fitness ≡ fitness_among limits (facts_in lists.now.store.now) e.now) }
    ensures ready { OnOk result (AreReady ready.new.items (facts_in lists.now.store.now)) }
    ensures counted { (pool : List ℕ) → ((number : ℕ) → named.reading_instrument e.now.1.body ≡ Some number → is_among pool number ≡ true)
        → steps.new ≤ steps.old + cost_left (facts_in lists.now.store.now) pool ready.old.items }
    ensures left { OnOk result ((pool : List ℕ) → ((number : ℕ) → named.reading_instrument e.now.1.body ≡ Some number → is_among pool number ≡ true)
        → steps.new + cost_left (facts_in lists.now.store.now) pool ready.new.items
        ≤ steps.old + cost_left (facts_in lists.now.store.now) pool ready.old.items) }
{
    match e.1.body {
        FactBody::Reading { instrument, .. } => {
            fitness_of(ready, lists, instrument, e, limit, steps)
        }
        _ => Ok(Fitness::NoCalibration),
    }
}

/// The events of a component, by its own facts and the tests of the instruments that read it. Its class and leak definition are walked
/// along with the facts.
pub fn events_of_component<L: Ledger>(
    ready: &mut Instruments,
    lists: &Lists<'_>,
    item: &Equipment,
    classes: &[(Key, Class)],
    own: &[(Key, Fact)],
    steps: &mut Steps<L>,
) -> Result<Vec<Event>, Memory>
    requires ordered { Ascends goes_first (facts_in lists.now.store.now) }
    requires own { own.now ≡ facts_of_component item.now.component (facts_in lists.now.store.now) }
    requires classes { Ascends (λ a b. is_earlier a.0 b.0) classes.now }
    requires ready { AreReady ready.old.items (facts_in lists.now.store.now) }
    ensures value { IfOk result (λ events. events.items
        ≡ events_in item.now classes.now (limit_on item.now classes.now) (facts_in lists.now.store.now)) }
    ensures ready { OnOk result (AreReady ready.new.items (facts_in lists.now.store.now)) }
    ensures counted { (pool : List ℕ) → UsesOnly pool own.now → steps.new ≤ steps.old + cost_left (facts_in lists.now.store.now) pool ready.old.items }
    ensures left { OnOk result ((pool : List ℕ) → UsesOnly pool own.now
        → steps.new + cost_left (facts_in lists.now.store.now) pool ready.new.items
        ≤ steps.old + cost_left (facts_in lists.now.store.now) pool ready.old.items) }
{
    let mut standing = Standing::at_first(item, classes);
    let mut events = Vec::with_capacity(lists.alloc, own.len())?;
    for e in own {
        standing = standing.moved_to(item, classes, e.0.day);
        let fitness = fitness_at(ready, lists, e, standing.rules.limit, steps)?;
        push_event(&mut events, item, &standing.rules, e, &fitness)?;
    }
    Ok(events)
}
