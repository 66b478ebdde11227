//! The components whose readings a calibration, a precision test or a drift assessment of a batch may judge anew. Each reading
//! of its instrument is read at most once for each such fact, and only about those of its days are read.
#![tactic(auto)]

mod batch;
mod search;
mod windows;

pub use batch::touch_readings;
pub use search::clear;
