//! Tests of `office_commands::run`: each command over disks, sources and sinks in memory, with faults and stops.
#![tactic(auto)]

#[cfg(test)]
mod batches;
#[cfg(test)]
mod drills;
#[cfg(test)]
mod filings;
#[cfg(test)]
mod hostile;
#[cfg(test)]
mod imports;
#[cfg(test)]
mod large_units;
#[cfg(test)]
mod mirrors;
#[cfg(test)]
mod requests;
#[cfg(test)]
mod runs;
#[cfg(test)]
mod seals;
#[cfg(test)]
mod stops;
#[cfg(test)]
mod views;
#[cfg(test)]
mod working_day;
