use crate::book::{CHANGED, DENIED, FOURTEEN, Row, THIRTEEN, TWELVE, UNKNOWN, disk_of, runs};
use crate::journal_bytes::WITH_TWELVE;
use std::test::Fail;
use test_kit::is;

#[test]
fn a_batch_stands_in_a_frame(rt: HostRuntime) -> Result<(), Fail> {
    let disk = disk_of(rt.alloc(), &[(&[TWELVE], "receipt 7 12 1\n", 1, 42)])?;
    is(disk.bytes() == WITH_TWELVE.as_slice(), "the frame")
}

// Batches that are sent again, unchanged or changed.
const SENT_AGAIN: [Row; 7] = [
    (&[TWELVE], "receipt 7 12 1\n", 1, 42),
    (&[TWELVE], "receipt 7 12 1\n", 1, 42),
    (&[TWELVE], "receipt 7 12 1\n", 1, 42),
    (&[CHANGED], "conflict 1\n", 1, 42),
    (&[THIRTEEN], "receipt 7 13 2\n", 2, 67),
    (&[FOURTEEN], "receipt 7 14 3\n", 3, 92),
    (&[THIRTEEN], "receipt 7 13 2\n", 3, 92),
];

#[test]
fn a_batch_acts_once(rt: HostRuntime) -> Result<(), Fail> {
    runs(rt.alloc(), &[], &SENT_AGAIN)
}

#[test]
fn a_batch_is_denied_by_the_register(rt: HostRuntime) -> Result<(), Fail> {
    let rows: [Row; 1] = [(&[UNKNOWN], DENIED, 0, 17)];
    runs(rt.alloc(), &[], &rows)
}
