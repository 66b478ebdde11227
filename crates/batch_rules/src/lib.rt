//! The rules by which an office denies a batch, and the verdict on a batch.
//!
//! Tests: `register_tests::denials`.
#![tactic(auto)]

mod case;
mod components;
mod delays;
mod denials;
mod difficult;
mod elections;
mod entries;
mod kind_and_class;
mod known_facts;
mod passed_units;
mod reach;
mod rules;
mod seen;
mod share;
mod touched;
mod valves;

pub use denials::verdict;

/// The paragraph of the rule that denied a fact.
pub use ldar_law::paragraph;
