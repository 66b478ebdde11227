ghost use Rattle.std.specs.Prelude.{◌↔◌, IsTrue};
ghost use Rattle.list_words.specs.Order.{Ascends};
ghost use Rattle.fact_kinds.specs.Facts.{goes_first};

use fact_kinds::{Fact, Key, precedes};

/// Whether facts with their keys are in key order, each before all that follow it. It decides the premise `ordered`.
pub fn are_in_key_order(facts: &[(Key, Fact)]) -> bool
    ensures value { IsTrue result ↔ Ascends goes_first facts.now }
{
    for place in (1..facts.len()).rev() {
        if !precedes(&facts[place - 1].0, &facts[place].0) {
            return false;
        }
    }
    true
}
