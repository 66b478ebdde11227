//! The numbers of the rule for dual mechanical seals, each with a name.

/// A counting reading of a pump with dual mechanical seals is a leak from this concentration on, in parts per million by
/// volume (our own rule).
pub const SEAL_LIMIT: u32 = 2_000;

/// The cause of the weekly visual inspection (40 CFR 60.482-2a(d)(4)).
pub const CAUSE_SEAL_WEEK: u8 = 1;

/// The cause of the duty after drips that are no leak (40 CFR 60.482-2a(d)(4)).
pub const CAUSE_SEAL_DRIP: u8 = 2;

/// Tags of readings.
pub const SORT_READING: u8 = 1;

/// Tags of drips.
pub const SORT_DRIP: u8 = 2;

/// Tags of the barrier sensor.
pub const SORT_SENSOR: u8 = 3;

/// The first week of the calendar.
pub const FIRST_WEEK: u32 = 1_983;
