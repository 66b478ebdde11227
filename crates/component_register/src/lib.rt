//! The equipment of process units and the classes in force, over the facts that enter them.
//!
//! Tests: `register_tests::registers`.
#![tactic(auto)]

mod classes;
mod entered;
mod members;
mod register;
mod slots;
mod units;

pub use entered::{component_entered, retires, unit_entered};
pub use register::Register;
