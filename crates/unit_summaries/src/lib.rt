//! What all facts say of each component and each process unit: events, tags, shutdowns and elections, and counts of quarters as known on
//! a day. It is kept from view to view, and a batch makes stale only what it touches; only that is read and counted again.
#![tactic(auto)]

mod counting;
mod counts;
mod entries;
mod events;
mod flags;
mod instruments;
mod kept;
mod known;
mod members;
mod named;
mod reads;
mod recount;
mod renewal;
mod slots;
mod summaries;
mod summary;
mod table;
mod tags;
mod tallies;

pub use entries::add;
pub use known::{KnownOn, if_begun};
pub use members::known_members;
pub use summaries::Summaries;
pub use summary::{Summary, UnitSummary};
pub use tags::tags_of;
pub use tallies::tallies_to;
