//! Numbers in the words of a command: decimals without leading zeros, up to a maximum.
//!
//! Tests: `command_tests`.
#![tactic(auto)]

mod number;

pub use number::{long_number_in, number_in};
