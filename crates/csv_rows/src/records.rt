ghost use Rattle.std.specs.Prelude.{◌≡◌, ◌∷◌, [], ℕ, Ok, true, false, suc, length};
ghost use Rattle.csv.specs.Records.{fields_of};
ghost use Rattle.csv_rows.specs.Records.{IsReading, records_left, records_of};

use csv::{ByteRecord, Reader, ReaderBuilder};
use std::alloc::{AllocError, Global};

/// A reader of the text, with the default settings of the crate `csv` and without a header. Records may have any number of
/// fields; the caller judges a record by its fields.
pub fn reader_of(alloc: Global, text: &[u8]) -> Reader<&[u8]>
    ensures reading { IsReading result }
    ensures value { records_of text.now ≡ records_left (suc (length text.now)) result }
{
    ReaderBuilder::new()
        .has_headers(false)
        .flexible(true)
        .from_reader(alloc, text)
}

/// Reads the next record. Returns whether there was one. The only error is out of memory.
pub fn next_record(reader: &mut Reader<&[u8]>, row: &mut ByteRecord) -> Result<bool, AllocError>
    requires reading { IsReading reader.old }
    ensures found { result ≡ Ok true → IsReading reader.new × ((n : ℕ) → records_left (suc n) reader.old ≡ fields_of row.new ∷ records_left n reader.new) }
    ensures none { result ≡ Ok false → (n : ℕ) → records_left n reader.old ≡ [] }
{
    let Ok(found) = reader.read_byte_record(row) else {
        return Err(AllocError);
    };
    Ok(found)
}
