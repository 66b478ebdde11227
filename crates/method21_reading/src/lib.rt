//! Readings by EPA Method 21: the leak definition, whether a reading is fit, and the events of a component.
//!
//! Tests: `rule_tests::readings`.
#![tactic(auto)]

mod calibration;
mod day;
mod drift;
mod events;
mod fitness;
mod gas;
mod happening;
mod instrument;
mod leaps;
mod near;
mod part;
mod precision;
mod rules;
mod standing;

pub use events::{events_of, push_event};
pub use fitness::fit;
pub use instrument::Instrument;
pub use ldar_law::limit;
pub use rules::Rules;
pub use standing::Standing;
