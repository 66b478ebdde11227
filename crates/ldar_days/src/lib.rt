//! Days from 2008-01-01 to 2099-12-31, their months, and the quarters of a process unit.
//!
//! Tests: `register_tests::calendar`.
#![tactic(auto)]

mod day;
mod month;
mod quarter;
mod text;

pub use day::Day;
pub use month::Month;
pub use quarter::{LAST_STARTUP, first_quarter, quarter_first, quarter_last, quarter_of};
pub use text::MonthText;
