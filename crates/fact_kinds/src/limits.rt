//! Limits that several crates share (our own rules).

/// Maximum number of facts in an office.
pub const MOST_FACTS: u64 = 8_000_000;

/// Maximum length of a process unit shutdown, in days.
pub const LONGEST_SHUTDOWN: u16 = 366;

/// Maximum number of facts in a batch.
pub const BATCH_FACTS: usize = 512;

/// Maximum number of batches in one frame of the journal, and in one group of requests to the office.
pub const FRAME_BATCHES: usize = 16;
