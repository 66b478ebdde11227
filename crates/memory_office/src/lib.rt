//! An office in memory: it judges each batch before it adopts it, and shows views of the adopted batches.
#![tactic(auto)]

mod office;

pub use office::Office;
