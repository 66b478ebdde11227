//! What callers see of an office: requests go in, and replies come out. Connections need no more than this.
#![tactic(auto)]

mod office;

pub use office::Office;
/// Out of memory.
pub use std::alloc::AllocError as Memory;
