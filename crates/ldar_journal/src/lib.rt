//! A journal of accepted batches in a file. Each frame of batches has a gate, which is opened only after the frame is
//! stable, so a crash leaves all of the frame or none of it.
//!
//! Tests: `office_tests::journal`.
#![tactic(auto)]

mod batches;
mod creation;
mod frame;
mod gates;
mod history;
mod image;
mod journal;
mod judging;
mod keeping;
pub mod laws;
mod opening;
mod prepared;
mod reader;
mod settling;
mod window;

pub use batches::open_journal;
pub use creation::{CreateError, create};
pub use journal::{Journal, Torn};
pub use opening::{OpenError, OpenWhy};
pub use prepared::{Frame, prepare};
pub use reader::Opening;
pub use settling::Settled;
