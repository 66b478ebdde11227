//! The tags of a component: each from the detection of a leak until no leak is unsettled (40 CFR 60.486a(b)).
//!
//! Tests: `rule_tests::tags`.
#![tactic(auto)]

mod below_months;
mod clean_months;
mod leaks;
mod next_attempt;
mod open_leaks;
mod rising;
mod search;
mod settling;
mod spans;
mod until;
mod walk;

pub use search::spans_by_search;
pub use spans::spans_of;
pub use until::spans_until;
