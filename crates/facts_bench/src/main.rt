//! The program that `bench/batches.py` and `bench/store.py` measure.
//!
//! - `read FILE PASSES` reads the batches of a file that many times.
//! - `READS ORDER SORT FACTS` makes that many facts of 20,000 components, puts them into a store, and reads each
//!   component's list READS times. If READS is not a number, it only makes the facts. ORDER is the order in which they
//!   arrive: `key`, `reverse` or `shuffled`. SORT is `attempts` or `readings`.
//! - `listed` before these words lists all facts at once, after they arrived. `late` lists one half of them after it
//!   arrived, and then the other half.
//! - Without words it does a little of each.
#![tactic(auto)]

mod batch_reader;
mod component_lists;
mod fact_kind;
mod filled_stores;
mod order;
mod total;
mod way;

use batch_reader::read_all;
use component_lists::listed;
use fact_kind::{FactKind, fact_at};
use fact_kinds::Memory;
use fact_store::FactStore;
use filled_stores::{filled, filled_at_once, filled_late};
use order::{Order, places};
use std::alloc::Global;
use std::marker::Brand;
use std::sync::ledger::Blank;
use std::{env, fs};
use total::Total;
use way::Way;

fn main(rt: HostRuntime) -> Result<(), anyhow::Error> {
    let words: Vec<String> = env::args(&rt)?.skip(1).collect(rt.alloc())?;
    let words: Vec<&str> = words.iter().map(|word| word.as_str()).collect(rt.alloc())?;
    match words.as_slice() {
        ["read", path, passes] => read(&rt, path, passes.parse().unwrap_or(1)),
        [reads, order, sort, facts] => {
            store(
                &rt,
                Way::OneByOne,
                reads,
                order,
                sort,
                facts.parse().unwrap_or(0),
            )
        }
        [way, reads, order, sort, facts] => {
            store(
                &rt,
                Way::of(way),
                reads,
                order,
                sort,
                facts.parse().unwrap_or(0),
            )
        }
        _ => a_little(&rt),
    }
}

fn read(rt: &HostRuntime, path: &str, passes: u32) -> Result<(), anyhow::Error> {
    let bytes = fs::read(rt, path)?;
    let total = read_all(rt.alloc(), &bytes, passes)?;
    println!(rt;
        "{path}: {} facts of {} bytes, {}",
        total.facts,
        bytes.len(),
        total.sum
    )?;
    Ok(())
}

fn store(
    rt: &HostRuntime,
    way: Way,
    reads: &str,
    order: &str,
    sort: &str,
    facts: u32,
) -> Result<(), anyhow::Error> {
    let places = places(rt.alloc(), Order::of(order), facts)?;
    let total = match reads.parse::<u32>() {
        Ok(reads) => stored(rt.alloc(), way, &places, FactKind::of(sort), reads)?,
        Err(_) => made(&places, FactKind::of(sort)),
    };
    println!(rt;
        "{reads} {order} {sort}: {} facts, {}",
        total.facts, total.sum
    )?;
    Ok(())
}

/// The total over the facts at these places, without a store.
fn made(places: &[u32], sort: FactKind) -> Total {
    let mut total = Total::new();
    for place in places {
        total.add(&fact_at(*place, sort));
    }
    total
}

/// The total over the facts at these places, read `reads` times from a store, component by component.
fn stored(
    alloc: Global,
    way: Way,
    places: &[u32],
    sort: FactKind,
    reads: u32,
) -> Result<Total, Memory> {
    let store = store_of(alloc, way, places, sort)?;
    Ok(listed::<Brand>(Blank::new(1), &store, reads))
}

/// A store of the facts at these places, listed in this way.
fn store_of(alloc: Global, way: Way, places: &[u32], sort: FactKind) -> Result<FactStore, Memory> {
    match way {
        Way::OneByOne => filled(alloc, places, sort),
        Way::AtOnce => filled_at_once(alloc, places, sort),
        Way::Late => filled_late(alloc, places, sort),
    }
}

fn a_little(rt: &HostRuntime) -> Result<(), anyhow::Error> {
    read(rt, "batches", 2)?;
    for order in ["key", "reverse", "shuffled"] {
        for sort in ["attempts", "readings"] {
            for way in [Way::OneByOne, Way::AtOnce, Way::Late] {
                store(rt, way, "1", order, sort, 40_000)?;
            }
        }
    }
    Ok(())
}
