ghost use Rattle.std.specs.Prelude.{◌≡◌, ◌++◌, OnOk, OnErr, IfOk};
ghost use Rattle.fact_kinds.specs.Fields.{IsFact, fact_fields};
ghost use Rattle.ldar_facts.specs.Grammar.{Spells, batch_fields, spelled};

use crate::write_body::{number_of, put_body};
use crate::write_field::{put_byte, put_day, put_four_bytes, put_two_bytes};
use fact_kinds::{Batch, Fact};
use std::alloc::{AllocError, Global};

/// Appends the one spelling of a batch. When out of memory, `out` is unchanged.
pub fn write_batch(alloc: Global, batch: &Batch, out: &mut Vec<u8>) -> Result<(), AllocError>
    ensures value { OnOk result (out.new.items ≡ out.old.items ++ spelled (batch_fields batch.now)) }
    ensures spells { OnOk result (Spells (spelled (batch_fields batch.now)) batch.now) }
    ensures unchanged { OnErr result (out.new.items ≡ out.old.items) }
{
    // The spelling is made first, so that out of memory leaves `out` unchanged.
    let spelling = spelling_of(alloc, batch)?;
    out.extend_from_slice(&spelling)
}

/// The one spelling of a batch.
fn spelling_of(alloc: Global, batch: &Batch) -> Result<Vec<u8>, AllocError>
    ensures value { IfOk result (λ spelling. Spells spelling.items batch.now) }
{
    let facts = batch.facts.as_slice();
    let mut out = Vec::with_capacity(alloc, 9 + 23 * facts.len())?;
    put_byte(&mut out, 66)?;
    put_two_bytes(&mut out, batch.handheld)?;
    put_four_bytes(&mut out, batch.number)?;
    put_two_bytes(&mut out, facts.len() as u16)?;
    for fact in facts {
        put_fact(&mut out, fact)?;
    }
    Ok(out)
}

/// Appends a fact.
fn put_fact(out: &mut Vec<u8>, fact: &Fact) -> Result<(), AllocError>
    ensures value { OnOk result (out.new.items ≡ out.old.items ++ spelled (fact_fields fact.now)) }
    ensures in_range { IsFact fact.now }
{
    put_byte(out, number_of(&fact.body))?;
    put_day(out, fact.day)?;
    put_two_bytes(out, fact.minute)?;
    put_body(out, &fact.body)
}
