//! Counts of the facts of each number.

ghost use Rattle.std.specs.Prelude.{◌≡◌, ℕ, ◌+◌, ◌<◌, ◌≤◌, [], if◌then◌else◌, length, vec_len, OnOk};
ghost use Rattle.fact_kinds.specs.Named.{is_numbered};
ghost use Rattle.fact_store.specs.Listing.{named_in};
ghost use Rattle.fact_store.specs.Lists.{value_at};
ghost use Rattle.fact_store.specs.Naming.{named_by};

use crate::naming::Naming;
use fact_kinds::{Fact, Key};
use std::alloc::AllocError;

/// Appends zero counts until there are `count`.
fn grow_counts(counts: &mut Vec<usize>, count: usize) -> Result<(), AllocError>
    ensures same { OnOk result ((n : ℕ) → value_at (λ c. c) 0 counts.new.items n ≡ value_at (λ c. c) 0 counts.old.items n) }
    ensures long { OnOk result (count ≤ vec_len counts.new) }
{
    while counts.len() < count {
        counts.push(0)?;
    }
    Ok(())
}

/// Adds one to the count of a number, if there is a number.
fn count_number(counts: &mut Vec<usize>, number: Option<u16>) -> Result<(), AllocError>
    requires few { (n : ℕ) → value_at (λ c. c) 0 counts.old.items n < usize.MAX }
    ensures value { OnOk result ((n : ℕ) → value_at (λ c. c) 0 counts.new.items n
        ≡ value_at (λ c. c) 0 counts.old.items n + (if is_numbered number n then 1 else 0)) }
{
    if let Some(number) = number {
        let at = usize::from(number);
        grow_counts(counts, at + 1)?;
        counts[at] += 1;
    }
    Ok(())
}

/// Adds one to the count of each fact's number, for the facts of a part.
pub fn add_counts(
    counts: &mut Vec<usize>,
    naming: Naming,
    part: &[(Key, Fact)],
) -> Result<(), AllocError>
    requires few { (n : ℕ) → value_at (λ c. c) 0 counts.old.items n + length part.now < usize.MAX }
    ensures value { OnOk result ((n : ℕ) → value_at (λ c. c) 0 counts.new.items n
        ≡ value_at (λ c. c) 0 counts.old.items n + named_in (named_by naming) part.now [] n) }
{
    for entry in part {
        count_number(counts, naming.number_of(&entry.1.body))?;
    }
    Ok(())
}

/// Adds one to the count of each fact's number, for the facts with reserved room.
pub fn add_spare(counts: &mut Vec<usize>, naming: Naming, spare: &[Fact]) -> Result<(), AllocError>
    requires few { (n : ℕ) → value_at (λ c. c) 0 counts.old.items n + length spare.now < usize.MAX }
    ensures value { OnOk result ((n : ℕ) → value_at (λ c. c) 0 counts.new.items n
        ≡ value_at (λ c. c) 0 counts.old.items n + named_in (named_by naming) [] spare.now n) }
{
    for fact in spare {
        count_number(counts, naming.number_of(&fact.body))?;
    }
    Ok(())
}
