ghost use Rattle.std.specs.Prelude.{◌≡◌, ℕ, List, pos, IfOk, filter};
ghost use Rattle.sqlite.specs.declared.types.Value.TheVariants.{Int, Blob};
ghost use Rattle.sqlite_value.specs.Order.{column};
ghost use Rattle.report_table.specs.Given.{ReadsAs, IsFoundLast, IsFoundOne};
ghost use Rattle.report_table.specs.Kept.{KeptRow};
ghost use Rattle.report_table.specs.Statements.{is_for, is_at, ShowsLast, ShowsOne};

use sqlite::{Error, Row};

/// A filed report as the table keeps it: its numbers, and its cells as bytes.
#[derive(Drop)]
pub struct FiledRow {
    pub unit: u8,
    pub half: u16,
    pub revision: u32,
    /// The day of filing, in days since 1970-01-01.
    pub day: u32,
    pub months: Vec<u8>,
    pub delays: Vec<u8>,
    pub stops: Vec<u8>,
}

fn number_at(row: &Row, at: usize) -> Result<u32, Error>
    ensures value { IfOk result (λ number. column row.now at ≡ Int (pos number)) }
{
    row.get(at)
}

fn bytes_at(row: &Row, at: usize) -> Result<Vec<u8>, Error>
    ensures value { IfOk result (λ bytes. column row.now at ≡ Blob bytes.items) }
{
    row.get(at)
}

/// The row of a report that was found for a unit and half.
fn row_of(unit: u8, half: u16, row: &Row) -> Result<FiledRow, Error>
    ensures asked { IfOk result (λ found. (found.unit ≡ unit) × (found.half ≡ half)) }
    ensures value { IfOk result (ReadsAs row.now) }
{
    Ok(FiledRow {
        unit,
        half,
        revision: number_at(row, 0)?,
        day: number_at(row, 1)?,
        months: bytes_at(row, 2)?,
        delays: bytes_at(row, 3)?,
        stops: bytes_at(row, 4)?,
    })
}

/// The first returned row for a unit and half, if there is one.
pub(crate) fn first_of(unit: u8, half: u16, shown: &[Row]) -> Result<Option<FiledRow>, Error>
    ensures last { (all : List KeptRow) → ShowsLast (filter (is_for unit half) all) shown.now
        → IfOk result (IsFoundLast (filter (is_for unit half) all)) }
    ensures one { (all : List KeptRow) (revision : ℕ) → ShowsOne (filter (is_at unit half revision) all) shown.now
        → IfOk result (IsFoundOne (filter (is_at unit half revision) all)) }
{
    match shown.first() {
        Some(row) => Ok(Some(row_of(unit, half, row)?)),
        None => Ok(None),
    }
}
