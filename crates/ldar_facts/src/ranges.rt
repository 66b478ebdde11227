//! Ranges that several fields share, each from its least to its greatest number.

/// The greatest number of a component.
pub(crate) const LAST_COMPONENT: u16 = 60_000;

/// The greatest number of a process unit.
pub(crate) const LAST_UNIT: u8 = 64;

/// The greatest concentration of a reading, in ppm by volume.
pub(crate) const MOST_PPM: u32 = 999_999;

/// The last minute of a day.
pub(crate) const LAST_MINUTE: u16 = 1_439;

/// The skip period programs: 0 for none, 1 and 3.
pub(crate) const MODES: [(u32, u32); 2] = [(0, 1), (3, 3)];

/// A day, or 0 for none.
pub(crate) const DAYS_OR_NONE: [(u32, u32); 2] = [(0, 0), (13_879, 47_481)];
