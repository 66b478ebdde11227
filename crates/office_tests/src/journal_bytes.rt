// The header of a journal.
pub const HEADER: [u8; 16] = *b"LDARJNL1\0\0\0\0\0\0\0\0";

// The header of a journal and a closed gate.
pub const EMPTY: [u8; 17] = *b"LDARJNL1\0\0\0\0\0\0\0\0\0";

// Handheld 7, batch 12: one calibration on 2024-02-20 at 10:00, instrument 1, 500 ppm.
pub const CALIBRATION: [u8; 20] =
    *b"\x42\0\x07\0\0\0\x0c\0\x01\x07\x4d\x3d\x02\x58\0\x01\0\0\x01\xf4";

// The image of a journal with the batch in a frame of its own.
pub const WITH_TWELVE: [u8; 42] = *b"LDARJNL1\0\0\0\0\0\0\0\0\x01\0\0\0\x14\
    \x42\0\x07\0\0\0\x0c\0\x01\x07\x4d\x3d\x02\x58\0\x01\0\0\x01\xf4\0";

// The bytes after the gate of the frame with the batch: its length, the batch and a closed gate.
pub const BEHIND: [u8; 25] =
    *b"\0\0\0\x14\x42\0\x07\0\0\0\x0c\0\x01\x07\x4d\x3d\x02\x58\0\x01\0\0\x01\xf4\0";
