//! The duties and tags of a pump with dual mechanical seals (40 CFR 60.482-2a(d)).
#![tactic(auto)]

mod duties;
pub mod examples;
mod leaks_of_sort;
mod marks;
mod moment;
mod numbers;
mod on_duty;
mod pump;
mod row;
mod seals;
mod sign;

pub use moment::Moment;
pub use numbers::{
    CAUSE_SEAL_DRIP, CAUSE_SEAL_WEEK, SEAL_LIMIT, SORT_DRIP, SORT_READING, SORT_SENSOR,
};
pub use row::{Mark, SealRow, SealWhat};
pub use seals::{SealDuty, SealTag, Seals, seals_of};
