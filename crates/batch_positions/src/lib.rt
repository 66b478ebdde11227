//! The positions of a history's batches, found by their identities.
//!
//! Tests: `office_tests::positions`.
#![tactic(auto)]

mod entry;
mod late_tree;
mod links;
mod positions;
mod runs;

pub use positions::Positions;
