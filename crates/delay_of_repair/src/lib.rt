//! The due day of a leak whose repair is delayed (40 CFR 60.482-9a).
//!
//! Tests: `rule_tests::delays`.
#![tactic(auto)]

mod delays;
mod grounds;
mod shutdowns;

pub use delays::{Repair, counted, repair_due, repair_of};
