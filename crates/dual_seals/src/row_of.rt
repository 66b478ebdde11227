ghost use Rattle.std.specs.Prelude.{◌≡◌, IfSome, option_map};
ghost use Rattle.csv.specs.Records.{fields_of};
ghost use Rattle.dual_seals.specs.Rows as spec;

use csv::ByteRecord;
use csv_rows::{day, holds, number};
use pump_seals::{SealRow, SealWhat};

/// Whether the record is the header of a seal file, which names the columns.
pub fn is_header(row: &ByteRecord) -> bool
    ensures value { result ≡ spec.is_header (fields_of row.now) }
{
    row.len() == 5
        && (holds(row.get(0), "what")
            && holds(row.get(1), "component")
            && holds(row.get(2), "day")
            && holds(row.get(3), "minute")
            && holds(row.get(4), "value"))
}

/// What a row reports, from its first and its last field; `None` for other words.
#[tactic(auto, unfolding(crate::specs::Rows::what_of))]
fn what_of(what: Option<&[u8]>, value: Option<&[u8]>) -> Option<SealWhat>
    ensures value { result ≡ spec.what_of (option_map (λ f. f.now) what.entry) (option_map (λ f. f.now) value.entry) }
{
    if holds(what, "seal") {
        if holds(value, "on") {
            return Some(SealWhat::On);
        }
        if holds(value, "off") {
            return Some(SealWhat::Off);
        }
        return None;
    }
    if holds(what, "sensor") {
        if holds(value, "present") {
            return Some(SealWhat::Present);
        }
        if holds(value, "gone") {
            return Some(SealWhat::Gone);
        }
    }
    None
}

/// The row of a record with its number, or `None` if the record is bad.
#[tactic(auto, unfolding(crate::specs::Rows::row_of))]
pub fn row_of(at: u32, row: &ByteRecord) -> Option<SealRow>
    ensures value { result ≡ spec.row_of at (fields_of row.now) }
    ensures at { IfSome result (λ found. found.at ≡ at) }
{
    if row.len() != 5 {
        return None;
    }
    let what = what_of(row.get(0), row.get(4))?;
    let component = number(row.get(1), 1, 60_000)? as u16;
    let day = day(row.get(2))?;
    let minute = number(row.get(3), 0, 1_439)? as u16;
    Some(SealRow {
        at,
        what,
        component,
        day,
        minute,
    })
}
