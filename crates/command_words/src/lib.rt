//! The words after a command's name, read by clap as its required positionals.
//!
//! Tests: `text_tests::words`.
#![tactic(auto)]

mod parsing;
mod positionals;

pub use clap::Error;
pub use positionals::{
    four_positionals, no_positionals, one_positional, three_positionals, two_positionals,
};
