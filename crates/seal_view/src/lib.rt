//! The view of pumps with dual mechanical seals: from a seal file and what an office knows of its components, the duties and tags of the
//! pumps that the file names (40 CFR 60.482-2a(d)).
#![tactic(auto)]

mod error;
pub mod examples;
mod lines;
mod view;
mod wrong;

pub use dual_seals::LONGEST_TEXT;
pub use error::SealsWhy;
pub use view::seals_text;
