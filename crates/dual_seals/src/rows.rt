//! The rows of a seal file. They are read record by record into an ordered map, which finds duplicates.

ghost use Rattle.std.specs.Prelude.{◌≡◌, ◌≤◌, ℕ, [], IfOk, IfErr, OnOk, Ok, Some, length, List, Result};
ghost use Rattle.csv.specs.Records.{fields_of};
ghost use Rattle.csv_rows.specs.Records.{IsReading, records_left};
ghost use Rattle.pump_seals.specs.declared.row.SealRow.{SealRow as SomeRow};
ghost use Rattle.pump_seals.specs.Moments.{MomentsRise, row_before};
ghost use Rattle.dual_seals.specs.Keyed.{Has, HasAll, HasMore, IsBadAt};
ghost use Rattle.dual_seals.specs.declared.error.SealError.TheVariants.{Memory};
ghost use Rattle.dual_seals.specs.Rows as spec;
ghost use Rattle.dual_seals.specs.declared.limits.TheConstants.{LONGEST_TEXT};

use crate::error::SealError;
use crate::row_key::{RowKey, key_of};
use crate::row_of::{is_header, row_of};
use csv::{ByteRecord, Reader};
use csv_rows::{next_record, reader_of};
use pump_seals::SealRow;
use std::alloc::Global;
use std::collections::BTreeMap;

/// Adds a row. Returns the number of its record as an error if it is a duplicate.
fn put(rows: &mut BTreeMap<RowKey, SealRow>, row: SealRow) -> Result<(), SealError>
    ensures added { (earlier : List SomeRow) → Has rows.old.entries earlier → OnOk result (HasMore rows.new.entries (spec.with_row earlier (Some row))) }
    ensures bad { (earlier : List SomeRow) → Has rows.old.entries earlier → IfErr result (IsBadAt row.at (spec.with_row earlier (Some row))) }
{
    let Ok(old) = rows.insert(key_of(&row), row) else {
        return Err(SealError::Memory);
    };
    if old.is_some() {
        return Err(SealError::Row { at: row.at });
    }
    Ok(())
}

/// Adds the row of a record with this number. Returns the number as an error if the record is bad or a duplicate.
fn add(rows: &mut BTreeMap<RowKey, SealRow>, at: u32, found: &ByteRecord) -> Result<(), SealError>
    ensures added { (earlier : List SomeRow) → Has rows.old.entries earlier
        → OnOk result (HasMore rows.new.entries (spec.with_row earlier (spec.row_of at (fields_of found.now)))) }
    ensures bad { (earlier : List SomeRow) → Has rows.old.entries earlier
        → IfErr result (IsBadAt at (spec.with_row earlier (spec.row_of at (fields_of found.now)))) }
{
    let Some(row) = row_of(at, found) else {
        return Err(SealError::Row { at });
    };
    put(rows, row)
}

/// The rows of at most `most` records after the header.
fn rows_behind(
    alloc: Global,
    reader: &mut Reader<&[u8]>,
    header: ByteRecord,
    most: usize,
) -> Result<BTreeMap<RowKey, SealRow>, SealError>
    requires reading { IsReading reader.old }
    requires in_range { most ≤ LONGEST_TEXT }
    ensures value { IfOk result (λ rows. HasAll rows.entries (spec.rows_from 2 [] (records_left most reader.old))) }
    ensures bad { IfErr result (spec.TellsRow (spec.rows_from 2 [] (records_left most reader.old))) }
{
    let mut record = header;
    let mut rows = BTreeMap::new(alloc);
    for turn in 0..most {
        if !next_record(reader, &mut record)? {
            return Ok(rows);
        }
        if let Err(error) = add(&mut rows, turn as u32 + 2, &record) {
            return Err(error);
        }
    }
    Ok(rows)
}

/// The rows of a map, in order.
fn in_order(alloc: Global, rows: BTreeMap<RowKey, SealRow>) -> Result<Vec<SealRow>, SealError>
    ensures value { (said : Result (List SomeRow) ℕ) → HasAll rows.entries said → IfOk result (λ list. spec.in_turn said ≡ Ok list.items) }
    ensures memory { IfErr result (λ e. e ≡ Memory) }
{
    match rows.into_values().collect(alloc) {
        Ok(list) => Ok(list),
        Err(_) => Err(SealError::Memory),
    }
}

/// The rows of a seal file, by component, day and minute, and then seals before sensors. The file is CSV, with a header that names
/// the five columns. A record is bad if it has another form, or if an earlier one has the same first field, component, day and
/// minute. The errors are the first bad record, by its number from 1 for the header, and out of memory.
pub fn rows_of(alloc: Global, text: &[u8]) -> Result<Vec<SealRow>, SealError>
    requires fits { length text.now ≤ LONGEST_TEXT }
    ensures value { IfOk result (λ rows. spec.seal_rows text.now ≡ Ok rows.items) }
    ensures bad { IfErr result (spec.TellsRow (spec.seal_rows text.now)) }
    ensures ordered { IfOk result (λ rows. MomentsRise row_before rows.items) }
{
    let rows = read(alloc, text)?;
    Ok(rows)
}

/// The same rows, without the clause on their order.
#[tactic(auto, unfolding(crate::specs::Rows::seal_rows))]
fn read(alloc: Global, text: &[u8]) -> Result<Vec<SealRow>, SealError>
    requires fits { length text.now ≤ LONGEST_TEXT }
    ensures value { IfOk result (λ rows. spec.seal_rows text.now ≡ Ok rows.items) }
    ensures bad { IfErr result (spec.TellsRow (spec.seal_rows text.now)) }
{
    let mut reader = reader_of(alloc, text);
    let mut record = ByteRecord::new(alloc);
    if !next_record(&mut reader, &mut record)? {
        return Err(SealError::Row { at: 1 });
    }
    if !is_header(&record) {
        return Err(SealError::Row { at: 1 });
    }
    let rows = rows_behind(alloc, &mut reader, record, text.len())?;
    in_order(alloc, rows)
}
