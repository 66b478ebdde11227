//! The views over all adopted batches: what the office shows of a process unit, as known on a day.
//!
//! Tests: `view_tests`.
#![tactic(auto)]

mod answers;
mod asked;
mod asking;
mod comparing;
mod copying;
mod due;
mod header;
mod histories;
mod intake;
mod members;
mod reports;
mod routes;
mod shares;
mod sheets;
mod shown;
mod source;
mod tag_lists;
mod tallied;
mod totals;
mod unit;
mod unit_on;
mod views;

pub use shown::{AskError, Shown};
pub use totals::Totals;
pub use views::{Views, ask_views, events_of_views, report_views, total_views};
