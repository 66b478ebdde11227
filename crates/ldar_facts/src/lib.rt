//! Batches of facts: reading them from the bytes that a handheld sends, and writing them.
//!
//! Tests: `register_tests::batch_bytes`.
#![tactic(auto)]

mod add_fact;
mod body_at;
mod cursor;
mod field_at;
pub mod laws;
mod padded_name;
mod ranges;
mod read;
mod read_end;
mod read_fact;
mod read_name;
mod read_number;
mod write;
mod write_body;
mod write_field;

pub use fact_kinds::{
    Batch, Class, Day, Designation, FRAME_BATCHES, Fact, FactBody, FactList, Identity, Key, Kind,
    LONGEST_SHUTDOWN, MOST_FACTS, Memory, Name, Purpose, Service, Sort, VisualState, component_of,
    precedes, reading_instrument, tested_instrument, unit_of,
};
pub use laws::LONGEST_BATCH;
pub use read::{Read, read_batch};
pub use write::write_batch;
