//! Filed semiannual reports: what a filing keeps, and how a report becomes the next revision of its reporting period.
//!
//! Tests: `text_tests::filings`.
#![tactic(auto)]

mod amend;
mod calls;
mod cells;
mod file;
mod filing;
mod map_filing;

pub use amend::amended_cells;
pub use calls::{FilingAnswer, FilingCall, ask_each};
pub use fact_kinds::Memory;
pub use file::{FileError, file_report};
pub use filing::{Filing, FilingFault};
pub use map_filing::MapFiling;
