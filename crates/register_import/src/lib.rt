//! The register from files: process units from TOML and components from CSV, as batches to send to an office.
//!
//! Tests: `text_tests::imports`.
#![tactic(auto)]

mod batches;
mod component_row;
mod components;
mod error;
pub mod examples;
mod fields;
mod limits;
mod members;
mod unit_row;
mod units;

pub use components::components_of;
pub use error::ImportError;
pub use limits::{LAST_NUMBER, LONGEST_TEXT};
pub use units::units_of;
