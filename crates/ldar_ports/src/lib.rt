//! Input and output of bytes: a source of bytes, a sink of stamped pieces, and a window on a source; and a front, from
//! which connections of a source and a sink come.
//!
//! Tests: `office_tests::streams`.
#![tactic(auto)]

mod ended;
mod front;
mod list_front;
mod list_source;
mod rest;
mod sink;
mod source;
mod stamped_sink;
mod window;

pub use disk_model::Memory;
pub use ended::Ended;
pub use front::{Front, FrontFault};
pub use list_front::{FinishedConnection, ListFront};
pub use list_source::ListSource;
pub use sink::{Sink, SinkFault, put_all};
pub use source::{Source, SourceFault};
pub use stamped_sink::{StampedPiece, StampedSink};
pub use window::Window;
