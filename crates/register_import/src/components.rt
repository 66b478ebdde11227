ghost use Rattle.std.specs.Prelude.{◌≡◌, ◌≤◌, ◌+◌, ◌++◌, ◌∷◌, [], IfOk, IfErr, OnOk, Ok, not, length, vec_len, filter};
ghost use Rattle.register_import.specs.Rows.{TellsRow};
ghost use Rattle.csv_rows.specs.Records.{IsReading, records_left};
ghost use Rattle.register_import.specs.ComponentRows as spec;
ghost use Rattle.register_import.specs.Components as files;
ghost use Rattle.register_import.specs.declared.limits.TheConstants.{LAST_NUMBER, LONGEST_TEXT};

use crate::batches::batches_of;
use crate::component_row::{component_of, is_difficult, is_header};
use crate::error::ImportError;
use csv::{ByteRecord, Reader};
use csv_rows::{next_record, reader_of};
use fact_kinds::{Batch, Fact, Memory};
use std::alloc::Global;

/// The batches of a file of components: CSV, with a header that names the ten columns. The batches are of handheld 0,
/// numbered from `number` on, with at most 512 facts each. Difficult-to-monitor components come after all others, so
/// that their share of a unit's valves (40 CFR 60.482-7a(h)(2)(ii)) is judged when the others are known. The errors are the
/// first bad row, by its number among the records from 1 for the header, and out of memory.
pub fn components_of(alloc: Global, text: &[u8], number: u32) -> Result<Vec<Batch>, ImportError>
    requires in_range { number ≤ LAST_NUMBER }
    requires fits { length text.now ≤ LONGEST_TEXT }
    ensures value { IfOk result (λ batches. files.components_import number text.now ≡ Ok batches.items) }
    ensures bad { IfErr result (TellsRow (files.components_import number text.now)) }
{
    let facts = component_facts(alloc, text)?;
    Ok(batches_of(alloc, number, &facts)?)
}

// The facts of a file of components, those of difficult-to-monitor ones last.
fn component_facts(alloc: Global, text: &[u8]) -> Result<Vec<Fact>, ImportError>
    requires { length text.now ≤ LONGEST_TEXT }
    ensures value { IfOk result (λ facts. files.in_turn (files.component_rows text.now) ≡ Ok facts.items) }
    ensures bad { IfErr result (TellsRow (files.in_turn (files.component_rows text.now))) }
    ensures in_range { IfOk result (λ facts. vec_len facts ≤ length text.now) }
{
    let mut reader = reader_of(alloc, text);
    let mut row = ByteRecord::new(alloc);
    if !next_record(&mut reader, &mut row)? {
        return Err(ImportError::Row { at: 1 });
    }
    if !is_header(&row) {
        return Err(ImportError::Row { at: 1 });
    }
    facts_behind(alloc, &mut reader, row, text.len())
}

// The facts of at most `most` records after the header, those of difficult-to-monitor components last.
fn facts_behind(
    alloc: Global,
    reader: &mut Reader<&[u8]>,
    first: ByteRecord,
    most: usize,
) -> Result<Vec<Fact>, ImportError>
    requires reading { IsReading reader.old }
    requires in_range { most ≤ LONGEST_TEXT }
    ensures value { IfOk result (λ facts. files.in_turn (files.some_rows (records_left most reader.old)) ≡ Ok facts.items) }
    ensures bad { IfErr result (TellsRow (files.in_turn (files.some_rows (records_left most reader.old)))) }
    ensures count { IfOk result (λ facts. vec_len facts ≤ most) }
{
    let rows = rows_of(alloc, reader, first, most)?;
    let facts = rows.joined()?;
    if facts.is_empty() {
        return Err(ImportError::Row { at: 2 });
    }
    Ok(facts)
}

// The facts of at most `most` rows after the header.
fn rows_of(
    alloc: Global,
    reader: &mut Reader<&[u8]>,
    first: ByteRecord,
    most: usize,
) -> Result<Sorted, ImportError>
    requires reading { IsReading reader.old }
    requires in_range { most ≤ LONGEST_TEXT }
    ensures value { IfOk result (λ rows. files.in_turn (files.rows_from 2 (records_left most reader.old)) ≡ Ok (rows.others.items ++ rows.difficult.items)) }
    ensures bad { IfErr result (TellsRow (files.in_turn (files.rows_from 2 (records_left most reader.old)))) }
    ensures count { IfOk result (λ rows. vec_len rows.others + vec_len rows.difficult ≤ most) }
{
    let mut row = first;
    let mut rows = Sorted {
        others: Vec::new(alloc),
        difficult: Vec::new(alloc),
    };
    for turn in 0..most {
        if !next_record(reader, &mut row)? {
            return Ok(rows);
        }
        let Some(fact) = component_of(&row) else {
            return Err(ImportError::Row {
                at: turn as u32 + 2,
            });
        };
        rows.push(fact)?;
    }
    Ok(rows)
}

// The facts of rows: difficult-to-monitor components and all others, each list in the order of the file.
#[derive(Drop)]
struct Sorted {
    others: Vec<Fact>,
    difficult: Vec<Fact>,
}

impl Sorted {
    // Adds a fact.
    fn push(&mut self, fact: Fact) -> Result<(), Memory>
        ensures others { OnOk result (self.new.others.items ≡ self.old.others.items ++ filter (λ f. not (spec.is_difficult f)) (fact ∷ [])) }
        ensures difficult { OnOk result (self.new.difficult.items ≡ self.old.difficult.items ++ filter spec.is_difficult (fact ∷ [])) }
    {
        if is_difficult(&fact) {
            self.difficult.push(fact)?;
        } else {
            self.others.push(fact)?;
        }
        Ok(())
    }

    // All facts, those of difficult-to-monitor components last.
    fn joined(self) -> Result<Vec<Fact>, Memory>
        ensures value { IfOk result (λ facts. facts.items ≡ self.others.items ++ self.difficult.items) }
    {
        let mut facts = self.others;
        facts.extend_from_slice(&self.difficult)?;
        Ok(facts)
    }
}
