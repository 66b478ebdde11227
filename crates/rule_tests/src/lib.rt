//! Tests of the rule's functions on histories that were worked out by hand, one module for each tested crate: `readings` of
//! `method21_reading`, `tags` of `leak_tags`, `delays` of `delay_of_repair`, `duties` of `monitor_calendar`, `skips` of
//! `skip_periods`, `routes` of `route_planner`, `classes` of `ldar_law`.
#![tactic(auto)]

#[cfg(test)]
mod classes;
#[cfg(test)]
mod delays;
#[cfg(test)]
mod duties;
#[cfg(test)]
mod readings;
#[cfg(test)]
mod routes;
#[cfg(test)]
mod skips;
#[cfg(test)]
mod tags;
#[cfg(test)]
mod words;
