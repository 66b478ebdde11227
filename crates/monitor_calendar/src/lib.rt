//! The duties of a component that are on the list of a day, for each of the nine causes.
//!
//! Tests: `rule_tests::duties`.
#![tactic(auto)]

mod after_event;
mod asked;
mod drips;
mod duties;
mod duty;
mod first;
mod in_order;
pub mod laws;
mod listed_months;
mod month_days;
mod monthly;
mod past_months;
mod period;
mod plan;
mod walked_months;
mod weekly;
mod yearly;

pub use duties::duties_of;
pub use in_order::{are_classes_ordered, are_events_ordered};
pub use ldar_law::Duty;
