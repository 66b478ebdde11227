//! Tests with disks that fail or stop at each call, one module for each tested crate: `disks` of `disk_model`, `streams` of
//! `ldar_ports`, `positions` of `batch_positions`, `journal` of `ldar_journal`, `book` of `office_book`, `connections` of
//! `ldar_session`.
#![tactic(auto)]

#[cfg(test)]
mod book;
#[cfg(test)]
mod connections;
#[cfg(test)]
mod disks;
#[cfg(test)]
mod journal;
#[cfg(test)]
mod journal_bytes;
#[cfg(test)]
mod positions;
#[cfg(test)]
mod streams;
