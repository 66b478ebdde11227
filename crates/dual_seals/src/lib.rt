//! The view of pumps with dual mechanical seals: reads the rows of a seal file, and lists the duties and tags of a pump (40 CFR
//! 60.482-2a(d)).
#![tactic(auto)]

mod error;
pub mod examples;
pub mod laws;
mod limits;
mod row_key;
mod row_of;
mod rows;

pub use error::SealError;
pub use limits::LONGEST_TEXT;
pub use pump_seals::{
    CAUSE_SEAL_DRIP, CAUSE_SEAL_WEEK, SEAL_LIMIT, SORT_DRIP, SORT_READING, SORT_SENSOR, SealDuty,
    SealRow, SealTag, SealWhat, Seals, seals_of,
};
pub use rows::rows_of;
