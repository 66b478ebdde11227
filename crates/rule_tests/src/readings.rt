//! Whether a reading is fit, and the events of a component.

mod events;
mod facts;
mod fitness;
