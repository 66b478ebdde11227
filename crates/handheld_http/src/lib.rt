//! HTTP requests with batches as JSON: where a request ends, what it asks for, and the bytes of each response.
//!
//! Tests: `text_tests::handheld`.
#![tactic(auto)]

mod answer;
mod batch_json;
mod cutting;
mod fact_json;
mod field_json;
mod fields;
mod heads;
pub mod laws;
mod members;
mod outcome;
mod paths;
mod requests;
mod response;
mod routes;

pub use answer::{Answer, Asked, Refusal};
pub use cutting::{EMPTY_LINE, cut, has_body, head_of};
pub use heads::{LONGEST_BODY, LONGEST_HEAD};
pub use outcome::{Cut, Extent, Front};
pub use requests::{asked_by, request_of};
pub use response::reply_bytes;
