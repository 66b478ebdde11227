//! The records of a CSV file, and the fields that several kinds of file share: numbers, days and fixed words.
#![tactic(auto)]

mod fields;
mod records;

pub use fields::{day, holds, number};
pub use records::{next_record, reader_of};
