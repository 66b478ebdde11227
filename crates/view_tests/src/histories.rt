//! Histories as tests write them: one batch on each line. A line has the handheld, a colon, and the facts, separated by semicolons. The
//! number of a batch is its place, from 1.

ghost use Rattle.std.specs.Prelude.{◌≤◌};

use crate::facts::fact;
use crate::words::short;
use fact_kinds::{Batch, Fact};
use memory_office::Office;
use std::alloc::{AllocError, Global};
use std::test::Fail;

/// The process unit `CRUDE` with nine components: valves, pumps, a relief device and a compressor.
pub const CRUDE: &str = "0: 2020-01-15 0 unit 1 CRUDE\
    ; 2020-01-15 0 valve 1 1 gas; 2020-01-15 0 valve 2 1 gas\
    ; 2020-01-15 0 valve 3 1 gas; 2020-01-15 0 valve 4 1 gas\
    ; 2020-01-15 0 pump 5 1 light; 2020-01-15 0 pump 6 1 light monomer\
    ; 2020-01-15 0 pump 7 1 heavy; 2020-01-15 0 relief 8 1 gas\
    ; 2020-01-15 0 compressor 9 1 gas\n";

/// Instrument 1 passes its precision test on 2024-01-02.
pub const PASSES: &str = "1: 2024-01-02 0 precision 500 500 500 500\n";

/// The facts of a text.
fn facts_of(alloc: Global, told: &str) -> Result<Vec<Fact>, Fail> {
    let mut facts = Vec::new(alloc);
    for text in told.split("; ") {
        let next = fact(alloc, text)?;
        facts.push(next)?;
    }
    Ok(facts)
}

/// The batch of a line.
pub fn batch(alloc: Global, number: u32, line: &str) -> Result<Batch, Fail> {
    let (from, told) = line.split_once(": ").ok_or("batch")?;
    let handheld = short(from).ok_or("handheld")?;
    let facts = facts_of(alloc, told)?;
    Ok(Batch::new(handheld, number, facts).ok_or("facts")?)
}

/// The batches of a history.
pub fn batches(alloc: Global, history: &str) -> Result<Vec<Batch>, Fail> {
    let mut batches = Vec::new(alloc);
    let mut number = 0u32;
    for line in history.lines() {
        number = number.saturating_add(1);
        let next = batch(alloc, number, line)?;
        batches.push(next).map_err(AllocError::from)?;
    }
    Ok(batches)
}

/// Adopts a batch, which must pass.
pub fn adopt(office: &mut Office, batch: &Batch) -> Result<(), Fail> {
    office.reserve(batch)?;
    if !office.adopt(batch)? {
        return Err(Fail::from("a batch does not pass"));
    }
    Ok(())
}

/// The office after it adopts a history.
pub fn office(alloc: Global, history: &str) -> Result<Office, Fail> {
    let mut office = Office::new(alloc);
    for batch in &batches(alloc, history)? {
        adopt(&mut office, batch)?;
    }
    Ok(office)
}
