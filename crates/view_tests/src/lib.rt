//! Tests of `office_views`: views and reports of an office in memory, on histories that were worked out by hand.
#![tactic(auto)]

#[cfg(test)]
mod asked;
#[cfg(test)]
mod days_in_turn;
#[cfg(test)]
mod dice;
#[cfg(test)]
mod duties;
#[cfg(test)]
mod facts;
#[cfg(test)]
mod histories;
#[cfg(test)]
mod in_turn;
#[cfg(test)]
mod late_facts;
#[cfg(test)]
mod many_views;
#[cfg(test)]
mod memory;
#[cfg(test)]
mod orders;
#[cfg(test)]
mod quarters;
#[cfg(test)]
mod random;
#[cfg(test)]
mod reports;
#[cfg(test)]
mod tags;
#[cfg(test)]
mod words;
