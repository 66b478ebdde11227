//! Worked examples of the definitions: empty functions whose contracts are proved by computing.

pub mod after_events;
pub mod denial_edges;
pub mod denials;
pub mod duties;
pub mod events;
pub mod histories;
pub mod judging_days;
pub mod leaks;
pub mod periods;
pub mod quarters;
pub mod readings;
pub mod register;
pub mod repairs;
pub mod reports;
pub mod settling;
pub mod sorts;
pub mod stirred;
pub mod texts;
pub mod views;
