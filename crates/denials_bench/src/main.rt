//! The program that `bench/denials.py` measures.
//!
//! - `WORK SORT FACTS` makes that many facts in batches of 512. SORT is `readings`, with their calibrations, over a register
//!   of 20,000 valves, `import`, valves of which every 35th is difficult to monitor, or `difficult`, classes that make 500 of
//!   20,000 valves difficult.
//! - WORK is `none` to only make the facts, `insert` to enter what is no reading, or `judge` to judge each batch before it is
//!   entered.
//! - Without words it does a little of each.
#![tactic(auto)]

mod bench_facts;
mod office;

use batch_rules::verdict;
use bench_facts::{FactKind, batch_at, first_entries};
use component_register::Register;
use fact_kinds::Batch;
use ldar_law::Verdict;
use office::enter;
use std::env;

fn main(rt: HostRuntime) -> Result<(), anyhow::Error> {
    let words: Vec<String> = env::args(&rt)?.skip(1).collect(rt.alloc())?;
    let words: Vec<&str> = words.iter().map(|word| word.as_str()).collect(rt.alloc())?;
    match words.as_slice() {
        [work, sort, facts] => measured(&rt, work, sort, facts.parse().unwrap_or(0)),
        _ => a_little(&rt),
    }
}

fn a_little(rt: &HostRuntime) -> Result<(), anyhow::Error> {
    for work in ["none", "insert", "judge"] {
        measured(rt, work, "readings", 4_000)?;
        measured(rt, work, "import", 2_000)?;
        measured(rt, work, "difficult", 1_000)?;
    }
    Ok(())
}

fn measured(rt: &HostRuntime, work: &str, sort: &str, facts: u32) -> Result<(), anyhow::Error> {
    let alloc = rt.alloc();
    let kind = FactKind::of(sort);
    let mut register = Register::new(alloc);
    let mut entered = enter(&mut register, 0, &first_entries(alloc, kind)?)?;
    let mut passed = 0u64;
    let mut sum = 0u64;
    for number in 0..facts.div_ceil(512) {
        let Some(batch) = batch_at(alloc, kind, number, facts)? else {
            break;
        };
        sum = sum.wrapping_add(sum_of(&batch));
        if work == "judge" && verdict(&register, 1_000_000, &batch) == Verdict::Pass {
            passed = passed.saturating_add(1);
        }
        if work != "none" && kind != FactKind::Readings {
            entered = enter(&mut register, entered, batch.facts.as_slice())?;
        }
    }
    println!(rt; "{work} {sort}: {facts} facts, {passed} batches pass, {sum}")?;
    Ok(())
}

/// A sum over the facts of a batch, so that the compiler cannot leave out making them.
fn sum_of(batch: &Batch) -> u64 {
    let mut sum = 0u64;
    for fact in batch.facts.as_slice() {
        sum = sum.wrapping_add(u64::from(fact.minute) ^ u64::from(fact.day.number()));
    }
    sum
}
