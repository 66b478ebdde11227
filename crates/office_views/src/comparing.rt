ghost use Rattle.std.specs.Prelude.{◌≡◌, ◌+◌, ◌≤◌, ◌↔◌, IsTrue, length, take, drop, map};
ghost use Rattle.fact_kinds.specs.declared.limits.TheConstants.{MOST_FACTS};
ghost use Rattle.fact_store.specs.Coming.{stored};
ghost use Rattle.office_views.specs.Headers.{batch_by, facts_kept};

use crate::header::Header;
use fact_kinds::{Batch, Fact};
use fact_store::{Facts, Place, Steps};
use std::sync::ledger::Ledger;

/// Whether two facts are the same.
fn is_same(a: &Fact, b: &Fact) -> bool
    ensures value { IsTrue result ↔ (a.now ≡ b.now) }
{
    a == b
}

/// Whether just these facts came to the store from a place on.
fn are_facts_at<L: Ledger>(
    store: &Facts,
    first: usize,
    facts: &[Fact],
    steps: &mut Steps<L>,
) -> bool
    requires held { first + length facts.now ≤ length store.now.arrived }
    requires few { length store.now.arrived ≤ MOST_FACTS }
    ensures value { IsTrue result ↔ (take (length facts.now) (drop first (map (λ e. e.1) store.now.arrived)) ≡ facts.now) }
{
    for index in 0..facts.len() {
        let place = Place {
            at: (first + index) as u32,
        };
        if !is_same(store.fact(place, steps).1, &facts[index]) {
            return false;
        }
    }
    true
}

/// Whether the batch of a header, of which all facts came to the store, is this one.
pub fn is_batch_of<L: Ledger>(
    store: &Facts,
    header: &Header,
    batch: &Batch,
    steps: &mut Steps<L>,
) -> bool
    requires held { header.now.first + header.now.count ≤ length store.now.arrived }
    requires few { length store.now.arrived ≤ MOST_FACTS }
    ensures value { IsTrue result ↔ (batch_by (facts_kept (stored store.now)) header.now ≡ batch.now) }
{
    let facts = batch.facts.as_slice();
    header.handheld == batch.handheld
        && header.number == batch.number
        && usize::from(header.count) == facts.len()
        && are_facts_at(store, header.first, facts, steps)
}
