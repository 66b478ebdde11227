ghost use Rattle.std.specs.Prelude.{◌≡◌, ◌<◌, length, All};

use crate::fact_kind::COMPONENTS;
use crate::total::Total;
use fact_store::{FactStore, Place, Steps};
use std::sync::ledger::{Blank, Ledger};

/// The total over the facts of each component, list by list, `reads` times over.
pub fn listed<L: Ledger>(blank: Blank, store: &FactStore, reads: u32) -> Total
    requires name { blank.name ≡ L.name }
    requires parts { blank.parts ≡ L.parts }
    requires some_part { 0 < L.parts }
{
    let mut steps = Steps::<L>::new(blank);
    let mut total = Total::new();
    for _ in 0..reads {
        for component in 1..=COMPONENTS {
            add_facts(&mut total, store, store.of_component(component), &mut steps);
        }
    }
    total
}

fn add_facts<L: Ledger>(
    total: &mut Total,
    store: &FactStore,
    places: &[Place],
    steps: &mut Steps<L>,
)
    requires held { All (λ place. place.at < length store.now.arrived) places.now }
{
    for place in places {
        let (_, fact) = store.fact(*place, steps);
        total.add(fact);
    }
}
