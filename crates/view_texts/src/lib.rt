//! The text of each view, line by line, as defined in `ldar_law`.
//!
//! Tests: `text_tests::view_lines`.
#![tactic(auto)]

mod delays;
mod due;
mod lines;
mod percent;
mod report;
mod routes;
mod tags;
mod words;

pub use delays::{delays_text, put_delays};
pub use due::{due_text, put_due};
pub use lines::{begun, put_end};
pub use percent::{percent_text, put_percent};
pub use report::{put_report, report_text};
pub use routes::{put_routes, routes_text};
pub use tags::{put_tags, tags_text};
pub use words::DayOrHyphen;
