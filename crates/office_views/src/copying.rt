ghost use Rattle.std.specs.Prelude.{◌≡◌, ◌+◌, ◌≤◌, length, take, drop, map, IfOk};
ghost use Rattle.fact_kinds.specs.declared.limits.TheConstants.{MOST_FACTS};
ghost use Rattle.fact_store.specs.Coming.{stored};
ghost use Rattle.office_views.specs.Headers.{batch_by, facts_kept};

use crate::header::Header;
use fact_kinds::{Batch, Fact, Memory};
use fact_store::{Facts, Place, Steps};
use std::alloc::{AllocError, Global};
use std::sync::ledger::Ledger;

/// Copies of this many facts of the store, from a place on in order of arrival.
fn facts_at<L: Ledger>(
    alloc: Global,
    store: &Facts,
    first: usize,
    count: usize,
    steps: &mut Steps<L>,
) -> Result<Vec<Fact>, Memory>
    requires held { first + count ≤ length store.now.arrived }
    requires few { length store.now.arrived ≤ MOST_FACTS }
    ensures value { IfOk result (λ facts. facts.items ≡ take count (drop first (map (λ e. e.1) store.now.arrived))) }
{
    let mut facts = Vec::with_capacity(alloc, count)?;
    for index in 0..count {
        let place = Place {
            at: (first + index) as u32,
        };
        facts.push(*store.fact(place, steps).1)?;
    }
    Ok(facts)
}

/// A copy of the batch of a header, of which all facts came to the store.
pub fn batch_of<L: Ledger>(
    alloc: Global,
    store: &Facts,
    header: &Header,
    steps: &mut Steps<L>,
) -> Result<Batch, Memory>
    requires held { header.now.first + header.now.count ≤ length store.now.arrived }
    requires few { length store.now.arrived ≤ MOST_FACTS }
    ensures value { IfOk result (λ batch. batch ≡ batch_by (facts_kept (stored store.now)) header.now) }
{
    let facts = facts_at(alloc, store, header.first, usize::from(header.count), steps)?;
    Batch::new(header.handheld, header.number, facts).ok_or(AllocError)
}
