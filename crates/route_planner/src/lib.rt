//! Routes through a process unit, to the components with unmet duties.
//!
//! Tests: `rule_tests::routes`.
#![tactic(auto)]

mod chains;
mod error;
mod planner;
mod visits;

pub use error::RouteError;
pub use planner::routes;
