//! The units and days for which the rule on difficult valves passed a fact of a batch (40 CFR 60.482-7a(h)(2)(ii)).
//!
//! The members of a unit are counted once for each unit and day of a batch. If the rule passed a fact of the batch on a unit
//! and day, it passes each later one there, since it looks at the whole batch. The array of 512 pairs takes 2 KB on the stack.

ghost use Rattle.std.specs.Prelude.{◌≡◌, ◌<◌, [], length};
ghost use Rattle.std.specs.List.{list_any};
ghost use Rattle.fact_kinds.specs.declared.limits.TheConstants.{BATCH_FACTS};
ghost use Rattle.batch_rules.specs.Passed.{is_of, with_asked};

use fact_kinds::BATCH_FACTS;
use ldar_days::Day;
use std::marker::Model;

/// The process units and days for which the rule judged a fact of the batch and passed it. It allocates nothing.
#[derive(Drop)]
pub struct Passed {
    asked: [(u8, Day); BATCH_FACTS],
    count: usize,
}

impl Model for Passed {
    ghost use Rattle.std.specs.Prelude.{ℕ, ◌≤◌, List, take};
    ghost use Rattle.fact_kinds.specs.declared.limits.TheConstants.{BATCH_FACTS};

    ghost Value = { List (ℕ × ℕ) };

    ghost view = { λ p. take p.count p.asked };

    ghost invariant = { λ p. p.count ≤ BATCH_FACTS };
}

impl Passed {
    /// No units and days.
    pub fn new() -> Passed
        ensures value { result ≡ [] }
    {
        Passed {
            asked: [(0, Day::at(13_879)); BATCH_FACTS],
            count: 0,
        }
    }

    /// Whether the rule passed a fact for this process unit on this day.
    pub fn has(&self, unit: u8, day: Day) -> bool
        ensures value { result ≡ list_any (is_of unit day) self.now }
    {
        self.asked[..self.count]
            .iter()
            .any(|asked| asked.0 == unit && asked.1 == day)
    }

    /// Adds a process unit on this day, if there is a unit.
    pub fn add(&mut self, unit: Option<u8>, day: Day)
        requires roomy { length self.old < BATCH_FACTS }
        ensures value { self.new ≡ with_asked unit day self.old }
    {
        if let Some(unit) = unit {
            self.asked[self.count] = (unit, day);
            self.count += 1;
        }
    }
}
