//! The program that `bench/views.py` measures.
//!
//! From a number of facts it makes a process unit of 20,000 valves and their monthly readings by 40 handhelds, in batches of up to
//! 512. It makes whole months, at most that many facts but at least one month. Each batch is judged and adopted.
//!
//! Then it replies to each line of its input. The reply to the name of a view is the length of its text and a sum over it. The day
//! of the views is after the last readings, and `other` is the due list of a unit with one valve. `late N` adopts a batch of N
//! readings that arrive late. `rounds N DAYS VIEW` adopts one late reading and shows the view, N times, on DAYS days in turn; its
//! reply is that to the last view.
#![tactic(auto)]

mod asked;
mod made;

use asked::said;
use fact_kinds::Batch;
use made::{ENTRIES, HANDHELDS, day_in_turn, late_batch, monthly_batch, register_batch, view_day};
use memory_office::Office;
use std::alloc::Global;
use std::env;

/// The number of facts in a month.
const FACTS_A_MONTH: u32 = HANDHELDS * 512;

fn main(rt: HostRuntime) -> Result<(), anyhow::Error> {
    let alloc = rt.alloc();
    let words: Vec<String> = env::args(&rt)?.skip(1).collect(alloc)?;
    let facts: u32 = match words.as_slice() {
        [word] => word.parse().unwrap_or(0),
        _ => 0,
    };
    let months = (facts.saturating_sub(ENTRIES) / FACTS_A_MONTH).max(1);
    let mut office = Office::new(alloc);
    let adopted = adopt_all(alloc, &mut office, months)?;
    println!(rt; "adopted {adopted} batches")?;
    let mut late = 0u32;
    for line in rt.lines(alloc) {
        let line = line?;
        let told = reply(alloc, &mut office, months, &mut late, line.as_str())?;
        println!(rt; "{told}")?;
    }
    Ok(())
}

/// The reply to a line of the input; `late` is the number of the last batch that arrived late.
fn reply(
    alloc: Global,
    office: &mut Office,
    months: u32,
    late: &mut u32,
    line: &str,
) -> Result<String, anyhow::Error> {
    if let Some((_, readings)) = line.split_once("late ") {
        let adopted = adopt_late(alloc, office, late, readings.parse().unwrap_or(1))?;
        return Ok(format!(in alloc; "late: adopted {adopted}")?);
    }
    match line.split_once("rounds ") {
        Some((_, words)) => said_last(alloc, office, months, late, words),
        None => said(alloc, office, line, view_day(months)),
    }
}

/// Adopts one late reading and asks for a view, as often as the words say, on days in turn. Returns what the last view shows.
fn said_last(
    alloc: Global,
    office: &mut Office,
    months: u32,
    late: &mut u32,
    words: &str,
) -> Result<String, anyhow::Error> {
    let (rounds, rest) = words.split_once(" ").unwrap_or((words, ""));
    let (days, view) = rest.split_once(" ").unwrap_or((rest, ""));
    let rounds: u32 = rounds.parse().unwrap_or(0);
    let days: u32 = days.parse().unwrap_or(1);
    let mut turn = 0u32;
    let mut told = String::new(alloc);
    for _ in 0..rounds {
        adopt_late(alloc, office, late, 1)?;
        told = said(alloc, office, view, day_in_turn(months, turn))?;
        turn = turn.saturating_add(1);
        if days <= turn {
            turn = 0;
        }
    }
    Ok(told)
}

/// Adopts the next batch of so many readings that arrive late. Returns the number of adopted batches.
fn adopt_late(
    alloc: Global,
    office: &mut Office,
    late: &mut u32,
    readings: u32,
) -> Result<u32, anyhow::Error> {
    *late = late.wrapping_add(1);
    let batch = late_batch(alloc, *late, readings)?;
    adopt(office, &batch)
}

/// Adopts the batches of the register and of the first months. Returns the number of adopted batches.
fn adopt_all(alloc: Global, office: &mut Office, months: u32) -> Result<u32, anyhow::Error> {
    let mut adopted = 0u32;
    for number in 0..HANDHELDS {
        let batch = register_batch(alloc, number)?;
        adopted = adopted.saturating_add(adopt(office, &batch)?);
    }
    for month in 0..months {
        for handheld in 0..HANDHELDS {
            let batch = monthly_batch(alloc, month, handheld)?;
            adopted = adopted.saturating_add(adopt(office, &batch)?);
        }
    }
    Ok(adopted)
}

/// Adopts a batch, if there is one and it passes. Returns the number of adopted batches.
fn adopt(office: &mut Office, batch: &Option<Batch>) -> Result<u32, anyhow::Error> {
    let Some(batch) = batch else {
        return Ok(0);
    };
    office.reserve(batch)?;
    if office.adopt(batch)? { Ok(1) } else { Ok(0) }
}
