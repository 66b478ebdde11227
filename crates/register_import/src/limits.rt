/// The greatest number that the first batch of an import may have.
pub const LAST_NUMBER: u32 = 4_000_000_000;

/// The length in bytes of the longest file that can be imported.
pub const LONGEST_TEXT: usize = 8_388_608;
