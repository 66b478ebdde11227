use crate::book::{
    Asked, BODY, BODY_SYNC, CHANGED, DENIED, FAULT, FOURTEEN, GATE, GATE_SYNC, Row, THIRTEEN,
    TWELVE, UNKNOWN, answered, holds, opening, runs,
};
use crate::journal_bytes::EMPTY;
use disk_model::MemoryDisk;
use ldar_law::Reply;
use office_book::{Book, BookWhy};
use std::alloc::Global;
use std::test::Fail;
use test_kit::is;

// Rows with an error at the first call of a frame, before which the journal is only a header and a gate.
const AT_ONCE: [Row; 3] = [
    (&[TWELVE], FAULT, 0, 17),
    (&[TWELVE], "receipt 7 12 1\n", 1, 42),
    (&[CHANGED], "conflict 1\n", 1, 42),
];

// Rows with an error at a later call, before which the frame is written.
const LATER: [Row; 3] = [
    (&[TWELVE], FAULT, 0, 42),
    (&[TWELVE], "receipt 7 12 1\n", 1, 42),
    (&[CHANGED], "conflict 1\n", 1, 42),
];

#[test]
fn a_fault_passes(rt: HostRuntime) -> Result<(), Fail> {
    // The call that fails. The next request settles the frame, and one frame has the batch.
    runs(rt.alloc(), &[BODY], &AT_ONCE)?;
    runs(rt.alloc(), &[BODY_SYNC], &LATER)?;
    runs(rt.alloc(), &[GATE], &LATER)?;
    runs(rt.alloc(), &[GATE_SYNC], &LATER)
}

// Rows in which settling fails once.
const TWICE: [Row; 3] = [
    (&[TWELVE], FAULT, 0, 42),
    (&[TWELVE], FAULT, 0, 42),
    (&[TWELVE], "receipt 7 12 1\n", 1, 42),
];

#[test]
fn a_fault_of_the_settling_is_answered(rt: HostRuntime) -> Result<(), Fail> {
    // Settling takes two calls: a sync, and a read of the gate.
    runs(rt.alloc(), &[GATE, GATE + 1], &TWICE)?;
    runs(rt.alloc(), &[GATE, GATE + 2], &TWICE)?;
    runs(rt.alloc(), &[GATE_SYNC, GATE_SYNC + 1], &TWICE)?;
    runs(rt.alloc(), &[GATE_SYNC, GATE_SYNC + 2], &TWICE)
}

// Rows with a denied batch after a frame in doubt.
const DENIED_BEHIND: [Row; 2] = [(&[TWELVE], FAULT, 0, 42), (&[UNKNOWN], DENIED, 1, 42)];

#[test]
fn a_settling_comes_before_a_denial(rt: HostRuntime) -> Result<(), Fail> {
    runs(rt.alloc(), &[GATE_SYNC], &DENIED_BEHIND)
}

// Rows in which the second batch has a disk error once.
const SECOND: [Row; 3] = [
    (&[TWELVE], "receipt 7 12 1\n", 1, 42),
    (&[THIRTEEN], FAULT, 1, 42),
    (&[THIRTEEN], "receipt 7 13 2\n", 2, 67),
];

#[test]
fn a_fault_leaves_what_is_kept(rt: HostRuntime) -> Result<(), Fail> {
    runs(rt.alloc(), &[GATE_SYNC + 1], &SECOND)
}

// Checks that the reply is a receipt or a disk error.
fn may_fail(alloc: Global, book: &mut Book<MemoryDisk>, asked: Asked) -> Result<(), Fail> {
    match answered(alloc, book, asked)? {
        Reply::Receipt { .. } => Ok(()),
        Reply::Fault => is(book.disk().faults() == 1, "a fault"),
        _ => Err(Fail::from("a receipt or a fault")),
    }
}

// The position in the receipt of a batch.
fn position(alloc: Global, book: &mut Book<MemoryDisk>, asked: Asked) -> Result<u32, Fail> {
    match answered(alloc, book, asked)? {
        Reply::Receipt { position, .. } => Ok(position),
        _ => Err(Fail::from("a receipt")),
    }
}

// Checks that these positions are 1 to 3 in some order.
fn are_one_to_three(first: u32, second: u32, third: u32) -> Result<(), Fail> {
    let found = bit(first) | bit(second) | bit(third);
    is(found == 0b1110, "the positions 1 to 3")
}

// A number with the bit at this place.
fn bit(place: u32) -> u32 {
    1u32.wrapping_shl(place)
}

// Checks that three batches, one of them sent twice, survive errors: when sent once more, they get receipts for the positions 1
// to 3.
fn all_pass(alloc: Global, book: &mut Book<MemoryDisk>) -> Result<(), Fail> {
    may_fail(alloc, book, TWELVE)?;
    may_fail(alloc, book, TWELVE)?;
    may_fail(alloc, book, THIRTEEN)?;
    may_fail(alloc, book, FOURTEEN)?;
    let twelve = position(alloc, book, TWELVE)?;
    let thirteen = position(alloc, book, THIRTEEN)?;
    let fourteen = position(alloc, book, FOURTEEN)?;
    are_one_to_three(twelve, thirteen, fourteen)?;
    holds(book, 3, 92)
}

// The same, if this call of the disk fails.
fn pass_over(alloc: Global, failing: u64) -> Result<(), Fail> {
    let disk = MemoryDisk::new(alloc, &EMPTY, &[failing])?;
    match opening(alloc, disk) {
        Ok(mut book) => all_pass(alloc, &mut book),
        Err(error) => is(
            error.why == BookWhy::Disk && error.disk.faults() == 1 && failing < BODY,
            "a fault of the opening",
        ),
    }
}

#[test]
fn each_call_of_the_disk_may_fail(rt: HostRuntime) -> Result<(), Fail> {
    for failing in 0..16 {
        pass_over(rt.alloc(), failing)?;
    }
    Ok(())
}
