//! Laws about the definitions: empty functions whose contracts are the laws.

pub mod batches;
pub mod denials;
pub mod duties;
pub mod months;
pub mod quarters;
pub mod readings;
pub mod register;
pub mod repairs;
pub mod reports;
pub mod shares;
pub mod views;
