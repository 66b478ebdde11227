//! One office served to several fronts side by side, a worker for each.
#![tactic(auto)]

mod desks;
mod serving;
mod words;
mod workers;

pub use command_words::Error;
pub use serving::serve;
pub use words::{LAST_PORT, MOST_WORKERS, Service, service_in};
