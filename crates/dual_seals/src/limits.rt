/// The length in bytes of the longest seal file that can be read.
pub const LONGEST_TEXT: usize = 8_388_608;
