mod bodies;
mod cuts;
mod disk_faults;
mod disk_stops;
mod journals;
mod rooms;
mod stream_faults;
mod wrong_reads;

// Batches of handheld 7, each with one calibration: 12 twice, 13 and 14.
pub const SCRIPT: &[u8] = b"\x42\0\x07\0\0\0\x0c\0\x01\x07\x4d\x3d\x02\x58\0\x01\0\0\x01\xf4\
    \x42\0\x07\0\0\0\x0c\0\x01\x07\x4d\x3d\x02\x58\0\x01\0\0\x01\xf4\
    \x42\0\x07\0\0\0\x0d\0\x01\x07\x4d\x3d\x02\x58\0\x01\0\0\x01\xf4\
    \x42\0\x07\0\0\0\x0e\0\x01\x07\x4d\x3d\x02\x58\0\x01\0\0\x01\xf4";

// The output for these batches.
pub const RECEIPTS: &str = "receipt 7 12 1\nreceipt 7 12 1\nreceipt 7 13 2\nreceipt 7 14 3\n";

// The output of `check` for 0, 1, 2 and 3 batches of one fact.
pub const COUNTS: [&str; 4] = [
    "journal 0 batches 0 facts\n",
    "journal 1 batches 1 facts\n",
    "journal 2 batches 2 facts\n",
    "journal 3 batches 3 facts\n",
];
