//! A room, in which threads ask one office in turn. Each of them sees a beginning of one legal history.
//!
//! Tests: `room_tests`.
#![tactic(auto)]

mod pass;
mod plays;
mod room;
mod rule;
mod seated;
mod steps;
mod turns;

pub use pass::Pass;
pub use room::{Kept, KeptWhy, NoRoom, Room};
pub use seated::Seated;
/// Memory ran out.
pub use std::alloc::AllocError as Memory;
