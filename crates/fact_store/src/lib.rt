//! Accepted facts, listed by component, process unit and instrument in key order. Each read of a fact is counted.
//!
//! Tests: `register_tests::stores`.
#![tactic(auto)]

mod arrivals;
mod counts;
mod index;
mod indexes;
mod listing;
pub mod lists;
mod merge;
mod naming;
mod place;
mod put;
mod steps;
mod store;

pub use arrivals::Arrivals;
pub use place::Place;
pub use steps::Steps;
pub use store::{FactStore, Facts};
