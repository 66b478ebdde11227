//! The batches of a drill, in the order in which they are sent.

ghost use Rattle.std.specs.Prelude.{◌≡◌, ◌≤◌, take, IfOk};
ghost use Rattle.drill_history.specs.declared.numbers.TheConstants.{GREATEST_SEED, LARGEST_DRILL};
ghost use Rattle.drill_history.specs.Drill as spec;

use crate::batches::{copy_of, put_batches};
use crate::facts::{month_facts, register_facts};
use crate::numbers::MONTHS;
use fact_kinds::{Batch, Memory};
use std::alloc::Global;

/// The batches that a drill sends: those of its register, those of its months from the last one to the first, and the first
/// one of the months once more. All but that one are its history. The seed (at most 9,999) decides what is read; the size
/// (at most 20,000) is the number of valves. Returns an error if it is out of memory.
pub fn drill_batches(alloc: Global, seed: u16, size: u16) -> Result<Vec<Batch>, Memory>
    requires seed { seed ≤ GREATEST_SEED }
    requires size { size ≤ LARGEST_DRILL }
    ensures value { IfOk result (λ batches. batches.items ≡ spec.drill_sent seed size) }
{
    let mut batches = register_batches(alloc, size)?;
    let mut months = month_batches(alloc, seed, size)?;
    let mut again = first_of(alloc, &months)?;
    months.reverse();
    batches.append(&mut months)?;
    batches.append(&mut again)?;
    Ok(batches)
}

// A copy of the first of some batches, if there is one.
fn first_of(alloc: Global, batches: &[Batch]) -> Result<Vec<Batch>, Memory>
    ensures value { IfOk result (λ first. first.items ≡ take 1 batches.now) }
{
    let mut copies = Vec::new(alloc);
    if let Some(first) = batches.first() {
        copies.push(copy_of(alloc, first)?)?;
    }
    Ok(copies)
}

// The batches of the register, of handheld 0.
fn register_batches(alloc: Global, size: u16) -> Result<Vec<Batch>, Memory>
    requires { size ≤ LARGEST_DRILL }
    ensures value { IfOk result (λ batches. batches.items ≡ spec.register_batches size) }
{
    let mut batches = Vec::new(alloc);
    put_batches(alloc, &mut batches, 0, &register_facts(alloc, size)?)?;
    Ok(batches)
}

// The batches of the months in their order, of handheld 1.
fn month_batches(alloc: Global, seed: u16, size: u16) -> Result<Vec<Batch>, Memory>
    requires seed { seed ≤ GREATEST_SEED }
    requires size { size ≤ LARGEST_DRILL }
    ensures value { IfOk result (λ batches. batches.items ≡ spec.month_batches seed size) }
{
    let mut batches = Vec::new(alloc);
    for past in 0..MONTHS {
        let facts = month_facts(alloc, seed, size, past + 1)?;
        put_batches(alloc, &mut batches, 1, &facts)?;
    }
    Ok(batches)
}
