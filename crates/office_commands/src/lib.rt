//! The commands of the office, over any source, sinks, disk and filing: `run` reads the words of one command and runs
//! it.
//!
//! Tests: `command_tests`.
#![tactic(auto)]

mod amendments;
mod batches;
mod command;
mod drill;
mod import;
mod init;
mod mirrors;
mod notes;
mod offers;
mod program;
mod reports;
mod seals;
mod status;
mod tasks;
mod views;

pub use program::run;
pub use status::Status;
