use crate::book::at_once::says_at_once;
use crate::book::{
    Asked, BODY, BODY_SYNC, CHANGED, FAULT, FOURTEEN, GATE, GATE_SYNC, Row, THIRTEEN, TWELVE,
    UNKNOWN, disk_of, opened, runs,
};
use std::test::Fail;
use test_kit::is;

// Three disk errors.
const FAULTS: &str = "disk fault\ndisk fault\ndisk fault\n";

// The calibrations with numbers 12 to 14 in one frame, and a closed gate.
const WITH_THREE: [u8; 82] = *b"LDARJNL1\0\0\0\0\0\0\0\0\x01\0\0\0\x3c\
    \x42\0\x07\0\0\0\x0c\0\x01\x07\x4d\x3d\x02\x58\0\x01\0\0\x01\xf4\
    \x42\0\x07\0\0\0\x0d\0\x01\x07\x4d\x3d\x02\x58\0\x01\0\0\x01\xf4\
    \x42\0\x07\0\0\0\x0e\0\x01\x07\x4d\x3d\x02\x58\0\x01\0\0\x01\xf4\0";

// Three batches in one call.
const SHARED: [Row; 1] = [(
    &[TWELVE, THIRTEEN, FOURTEEN],
    "receipt 7 12 1\nreceipt 7 13 2\nreceipt 7 14 3\n",
    3,
    82,
)];

#[test]
fn batches_share_a_frame(rt: HostRuntime) -> Result<(), Fail> {
    let disk = disk_of(rt.alloc(), &SHARED)?;
    is(disk.bytes() == WITH_THREE.as_slice(), "one frame")
}

// A batch twice in one call, and later changed and once more.
const REPEATED: [Row; 2] = [
    (
        &[TWELVE, TWELVE, THIRTEEN],
        "receipt 7 12 1\nreceipt 7 12 1\nreceipt 7 13 2\n",
        2,
        62,
    ),
    (
        &[CHANGED, UNKNOWN, TWELVE],
        "conflict 1\ndenied 1 1 60.486a(e)(1)\nreceipt 7 12 1\n",
        2,
        62,
    ),
];

#[test]
fn a_batch_acts_once_in_its_group(rt: HostRuntime) -> Result<(), Fail> {
    runs(rt.alloc(), &[], &REPEATED)
}

// A batch and the same one changed, in one call.
const IN_CONFLICT: [Row; 1] = [(
    &[TWELVE, CHANGED, THIRTEEN],
    "receipt 7 12 1\nconflict 1\nreceipt 7 13 2\n",
    2,
    62,
)];

#[test]
fn a_changed_batch_is_in_conflict_with_one_of_its_group(rt: HostRuntime) -> Result<(), Fail> {
    runs(rt.alloc(), &[], &IN_CONFLICT)
}

// The calibrations with numbers 1 to 16.
fn sixteen() -> [Asked; 16] {
    let mut group = [TWELVE; 16];
    for (index, asked) in group.iter_mut().enumerate() {
        *asked = Asked::Calibration(index as u32 + 1);
    }
    group
}

// The replies to the sixteen.
const SIXTEEN: &str = "receipt 7 1 1\nreceipt 7 2 2\nreceipt 7 3 3\nreceipt 7 4 4\n\
    receipt 7 5 5\nreceipt 7 6 6\nreceipt 7 7 7\nreceipt 7 8 8\n\
    receipt 7 9 9\nreceipt 7 10 10\nreceipt 7 11 11\nreceipt 7 12 12\n\
    receipt 7 13 13\nreceipt 7 14 14\nreceipt 7 15 15\nreceipt 7 16 16\n";

// One more batch after the sixteen.
const SEVENTEENTH: Row = (&[Asked::Calibration(17)], "receipt 7 17 17\n", 17, 367);

#[test]
fn sixteen_batches_share_a_frame(rt: HostRuntime) -> Result<(), Fail> {
    // One frame of 320 bytes, followed by one of 20.
    let group = sixteen();
    runs(rt.alloc(), &[], &[(&group, SIXTEEN, 16, 342), SEVENTEENTH])
}

// The calibrations with numbers 1 to 16, the ninth of them replaced by a batch that is denied.
fn fifteen() -> [Asked; 16] {
    let mut group = sixteen();
    group[8] = UNKNOWN;
    group
}

// The replies to these.
const FIFTEEN: &str = "receipt 7 1 1\nreceipt 7 2 2\nreceipt 7 3 3\nreceipt 7 4 4\n\
    receipt 7 5 5\nreceipt 7 6 6\nreceipt 7 7 7\nreceipt 7 8 8\n\
    denied 1 1 60.486a(e)(1)\nreceipt 7 10 9\nreceipt 7 11 10\nreceipt 7 12 11\n\
    receipt 7 13 12\nreceipt 7 14 13\nreceipt 7 15 14\nreceipt 7 16 15\n";

#[test]
fn one_of_sixteen_batches_may_be_denied(rt: HostRuntime) -> Result<(), Fail> {
    // One frame of 300 bytes.
    let group = fifteen();
    runs(rt.alloc(), &[], &[(&group, FIFTEEN, 15, 322)])
}

#[test]
fn a_group_may_be_one_batch(rt: HostRuntime) -> Result<(), Fail> {
    let mut book = opened(rt.alloc(), &[])?;
    says_at_once(rt.alloc(), &mut &mut book, &[TWELVE], "receipt 7 12 1\n")
}

// A group whose frame has a disk error at its first call.
const FAILS_AT_ONCE: [Row; 2] = [
    (&[UNKNOWN, TWELVE, THIRTEEN], REST_FAILS, 0, 17),
    (&[TWELVE, CHANGED, THIRTEEN], STANDS, 2, 62),
];

// A group whose frame has a disk error after it is written.
const FAILS_LATER: [Row; 2] = [
    (&[UNKNOWN, TWELVE, THIRTEEN], REST_FAILS, 0, 62),
    (&[TWELVE, CHANGED, THIRTEEN], STANDS, 2, 62),
];

// The replies to the first group, and to the second.
const REST_FAILS: &str = "denied 1 1 60.486a(e)(1)\ndisk fault\ndisk fault\n";

const STANDS: &str = "receipt 7 12 1\nconflict 1\nreceipt 7 13 2\n";

#[test]
fn the_rest_of_a_group_fails_with_its_frame(rt: HostRuntime) -> Result<(), Fail> {
    // The call that fails.
    runs(rt.alloc(), &[BODY], &FAILS_AT_ONCE)?;
    runs(rt.alloc(), &[BODY_SYNC], &FAILS_LATER)?;
    runs(rt.alloc(), &[GATE], &FAILS_LATER)?;
    runs(rt.alloc(), &[GATE_SYNC], &FAILS_LATER)
}

// A group with a disk error at the first call.
const FAILS_WHOLE: [Row; 1] = [(&[TWELVE, THIRTEEN, FOURTEEN], FAULTS, 0, 17)];

#[test]
fn a_group_fails_whole(rt: HostRuntime) -> Result<(), Fail> {
    runs(rt.alloc(), &[BODY], &FAILS_WHOLE)
}

// Settling fails, and so does each batch of the group; the next request finds that the first frame is kept.
const SETTLES_FIRST: [Row; 3] = [
    (&[TWELVE], FAULT, 0, 42),
    (&[UNKNOWN, CHANGED, THIRTEEN], FAULTS, 0, 42),
    (
        &[UNKNOWN, CHANGED, THIRTEEN],
        "denied 1 1 60.486a(e)(1)\nconflict 1\nreceipt 7 13 2\n",
        2,
        67,
    ),
];

#[test]
fn a_group_settles_first(rt: HostRuntime) -> Result<(), Fail> {
    runs(rt.alloc(), &[GATE_SYNC, GATE_SYNC + 1], &SETTLES_FIRST)
}
