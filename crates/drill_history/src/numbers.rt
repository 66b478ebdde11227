//! The numbers of a drill. Days are counted from 1970-01-01.

/// The greatest seed of a drill's readings.
pub const GREATEST_SEED: u16 = 9_999;

/// The greatest number of valves in a drill.
pub const LARGEST_DRILL: u16 = 20_000;

/// The day on which the unit of a drill starts up: 2020-01-15.
pub const STARTUP: u32 = 18_276;

/// The day on which the valves of a drill begin: 2020-02-01.
pub const BEGIN: u32 = 18_293;

/// The day of the readings of month 1: 2020-03-10.
pub const FIRST_READINGS: u32 = 18_331;

/// The months of readings.
pub const MONTHS: u16 = 12;

/// The day on which a drill's views are asked: 2021-02-28.
pub const SHOWN_DAY: u32 = 18_686;

/// The quarter whose percent of leaking valves is asked.
pub const SHOWN_QUARTER: u16 = 4;
