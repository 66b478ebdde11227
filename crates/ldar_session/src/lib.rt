//! One connection of an office: its requests are passed to the office in order, and each reply is written after its
//! request was answered.
//!
//! Tests: `office_tests::connections`.
#![tactic(auto)]

mod answer;
mod batches;
mod connection;
mod ended;
mod group;
mod input;
mod item;
pub mod laws;
mod protocol;
mod requests;
mod working;

pub use connection::{dock, session};
pub use ended::{Ended, MOST_ANSWERS};
pub use working::{Worked, work};
/// Out of memory.
pub use std::alloc::AllocError as Memory;
