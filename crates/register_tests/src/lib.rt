//! Tests on cases that were worked out by hand, one module for each tested crate: `calendar` of `ldar_days`, `batch_bytes` of
//! `ldar_facts`, `stores` of `fact_store`, `registers` of `component_register`, `denials` of `batch_rules`, `tallies` of `ldar_law`.
#![tactic(auto)]

#[cfg(test)]
mod batch_bytes;
#[cfg(test)]
mod calendar;
#[cfg(test)]
mod denials;
#[cfg(test)]
mod entries;
#[cfg(test)]
mod registers;
#[cfg(test)]
mod stores;
#[cfg(test)]
mod tallies;
