//! The history of a drill, with which a program is tried on any machine: a unit of valves, and a year of readings that
//! arrive in an unfavourable order.
//!
//! Tests: `command_tests::drills`.
#![tactic(auto)]

mod batches;
mod facts;
mod history;
pub mod laws;
mod numbers;

pub use history::drill_batches;
pub use numbers::{GREATEST_SEED, LARGEST_DRILL, SHOWN_DAY, SHOWN_QUARTER};
