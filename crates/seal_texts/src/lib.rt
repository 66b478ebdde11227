//! The text of the view of pumps with dual mechanical seals (40 CFR 60.482-2a(d)), line by line.
#![tactic(auto)]

pub mod examples;
mod line;
mod text;
mod words;

pub use line::SealLine;
pub use text::seals_text;
