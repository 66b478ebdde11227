//! Filed reports in a table of a database, in memory or in a file.
//!
//! Tests: `text_tests::table`.
#![tactic(auto)]

mod at_path;
mod fault;
mod filed_row;
mod in_memory;
mod item;
mod kept;
mod memory;
mod reading;
mod report_row;
mod statements;
mod table;
mod table_filing;
mod writing;

pub use at_path::AtPath;
pub use filed_row::FiledRow;
pub use in_memory::InMemory;
pub use sqlite::{Error, ErrorCode};
pub use table::Table;
pub use table_filing::TableFiling;
