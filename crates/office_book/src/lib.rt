//! An office over a journal: it keeps batches and answers views.
//!
//! Tests: `office_tests::book`.
#![tactic(auto)]

mod archive;
mod book;
mod copies;
mod frame;
mod group;
mod histories;
mod intake;
pub mod laws;
mod opening;
mod replies;
mod requests;
mod settlement;
mod views;

pub use book::Book;
pub use office_interface::Office;
pub use opening::{BookError, BookWhy, open_book};
/// Out of memory.
pub use std::alloc::AllocError as Memory;
