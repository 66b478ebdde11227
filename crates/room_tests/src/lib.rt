//! Tests of `sync_room` and `office_server`: threads ask one office through passes that split and meet, and fronts are served
//! side by side.
#![tactic(auto)]

#[cfg(test)]
mod held_connections;
#[cfg(test)]
mod offices;
#[cfg(test)]
mod rooms;
#[cfg(test)]
mod services;
#[cfg(test)]
mod threads;
