//! The facts of a leak detection and repair program, their kinds, the batches that carry them, and their order.
#![tactic(auto)]

mod batch;
mod body;
mod class;
mod fact;
mod identity;
mod key;
mod limits;
mod name;
mod order;
pub mod order_laws;
mod subject;

pub use batch::{Batch, FactList};
pub use body::{FactBody, Purpose, Sort, VisualState};
pub use class::{Class, Designation, Kind, Service};
pub use fact::Fact;
pub use identity::Identity;
pub use key::Key;
pub use ldar_days::Day;
pub use limits::{BATCH_FACTS, FRAME_BATCHES, LONGEST_SHUTDOWN, MOST_FACTS};
pub use name::Name;
pub use order::precedes;
pub use std::alloc::AllocError as Memory;
pub use subject::{component_of, reading_instrument, tested_instrument, unit_of};
