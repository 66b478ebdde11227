/// How a connection ended.
pub use ldar_ports::Ended;

/// Maximum number of answers in one connection.
pub const MOST_ANSWERS: usize = 1_000_000;
