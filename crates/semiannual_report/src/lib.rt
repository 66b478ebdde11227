//! The semiannual report of a process unit (40 CFR 60.487a(c)): its numbers, its lines, and whether its half has begun.
//!
//! Tests: `text_tests::reports`.
#![tactic(auto)]

mod cells;
mod error;
mod half;
mod lines;
mod report;

pub use error::ReportError;
pub use half::has_half_begun;
pub use report::report_of;
