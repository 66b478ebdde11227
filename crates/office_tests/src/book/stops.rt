use crate::book::{
    BODY, BODY_SYNC, GATE, GATE_SYNC, Row, THIRTEEN, TWELVE, disk_of, holds, reopened, says,
};
use crate::journal_bytes::BEHIND;
use disk_model::MemoryDisk;
use office_book::Book;
use std::alloc::Global;
use std::test::Fail;
use test_kit::is;

// The number of calls that keep a batch.
const CALLS: u64 = 4;

// The calibrations with numbers 12 and 13, one after the other.
const BOTH: [Row; 2] = [
    (&[TWELVE], "receipt 7 12 1\n", 1, 42),
    (&[THIRTEEN], "receipt 7 13 2\n", 2, 67),
];

// A disk on which an office kept both.
fn written(alloc: Global) -> Result<MemoryDisk, Fail> {
    disk_of(alloc, &BOTH)
}

// Checks the number of kept batches.
fn keeps(book: &Book<MemoryDisk>, batches: u32) -> Result<(), Fail> {
    let (found, _) = book.counts();
    is(found == batches, "what is left")
}

// Checks that this many batches are kept, and that both get receipts when they are sent again.
fn has(alloc: Global, book: &mut Book<MemoryDisk>, batches: u32) -> Result<(), Fail> {
    keeps(book, batches)?;
    says(alloc, book, TWELVE, "receipt 7 12 1\n")?;
    says(alloc, book, THIRTEEN, "receipt 7 13 2\n")?;
    holds(book, 2, 67)
}

// Checks how many batches a stop inside a call leaves, if the call left these bytes.
fn leaves(
    alloc: Global,
    disk: &MemoryDisk,
    call: u64,
    left: &[u8],
    batches: u32,
) -> Result<(), Fail> {
    if call >= disk.calls() {
        return Err(Fail::from("a call that was made"));
    }
    let mut book = reopened(alloc, disk.stopped(alloc, call, left)?)?;
    has(alloc, &mut book, batches)
}

#[test]
fn a_stop_inside_the_frame_leaves_the_old_history(rt: HostRuntime) -> Result<(), Fail> {
    let disk = written(rt.alloc())?;
    parts_leave(rt.alloc(), &disk, BODY, 0)?;
    parts_leave(rt.alloc(), &disk, BODY + CALLS, 1)
}

// Checks that a stop inside a call leaves this many batches, whatever it left of the bytes after a gate.
fn parts_leave(alloc: Global, disk: &MemoryDisk, call: u64, batches: u32) -> Result<(), Fail> {
    for kept in 0..26 {
        let (left, _) = BEHIND.split_at(kept);
        leaves(alloc, disk, call, left, batches)?;
    }
    Ok(())
}

#[test]
fn a_stop_inside_the_gate_leaves_the_old_history_or_the_new(rt: HostRuntime) -> Result<(), Fail> {
    let disk = written(rt.alloc())?;
    gates_leave(rt.alloc(), &disk, GATE, 0)?;
    gates_leave(rt.alloc(), &disk, GATE + CALLS, 1)
}

// Checks that a stop inside the call of a gate leaves this many batches, and one more if the open gate was left.
fn gates_leave(alloc: Global, disk: &MemoryDisk, call: u64, before: u32) -> Result<(), Fail> {
    leaves(alloc, disk, call, &[], before)?;
    leaves(alloc, disk, call, &[0], before)?;
    leaves(alloc, disk, call, &[7], before)?;
    leaves(alloc, disk, call, &[1], before.saturating_add(1))
}

#[test]
fn a_stop_inside_a_sync_leaves_what_was_written(rt: HostRuntime) -> Result<(), Fail> {
    let disk = written(rt.alloc())?;
    leaves(rt.alloc(), &disk, BODY_SYNC, &[], 0)?;
    leaves(rt.alloc(), &disk, BODY_SYNC + CALLS, &[], 1)?;
    leaves(rt.alloc(), &disk, GATE_SYNC, &[], 1)?;
    leaves(rt.alloc(), &disk, GATE_SYNC + CALLS, &[], 2)
}
