//! Laws about whole histories that the views need: empty functions whose contracts are the laws.
//!
//! `examples` has worked examples of each law, and of what its premises are for.
#![tactic(auto)]

pub mod batches;
pub mod days;
pub mod duties;
pub mod examples;
pub mod known;
pub mod ranges;
pub mod ruly;
pub mod spans;
pub mod touches;
