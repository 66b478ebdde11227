//! A second office that copies a first one batch by batch: it may lag, and it never differs. Over streams it takes the answers of
//! an input in order, and writes a line for each.
#![tactic(auto)]

mod answer;
mod copies;
mod ended;
mod head;
pub mod laws;
mod line;
mod mirror;
mod offers;
mod read;
mod reader;
mod reading;
mod session;
mod taken;
mod turn;
mod write;

pub use answer::{Answer, BatchList, MOST_BATCHES};
pub use ended::MirrorEnded;
pub use mirror::Mirror;
pub use offers::offer;
pub use read::{AnswerRead, read_answer};
pub use reader::{AnswerPiece, AnswerReader};
pub use session::take_answers;
/// Memory ran out.
pub use std::alloc::AllocError as Memory;
pub use taken::Taken;
pub use write::write_answer;
