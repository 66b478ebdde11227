//! Percent of valves leaking in a quarter, and skipped quarters (40 CFR 60.483-2a, 60.485a(h)).
//!
//! Tests: `rule_tests::skips`.
#![tactic(auto)]

mod counting;
mod marks;
mod percent;
mod programme;
mod readings;
mod seen;
mod streak;

pub use ldar_law::{Mark, Tally};
pub use marks::marks_to;
pub use percent::mark;
pub use programme::{all_skipped, skipped};
