use crate::runs::{BATCH, EMPTY, NEXT, OF_A_BATCH, ONE, ends, in_pieces, says};
use disk_model::{Disk, MemoryDisk, SureDisk};
use std::alloc::Global;
use std::test::Fail;
use test_kit::is;

// The last calls of `dock` when it appends one batch: it writes the frame, syncs, writes the gate, and syncs.
const APPEND: u64 = 4;

const ONE_BATCH: &str = "journal 1 batches 1 facts\n";

const BOTH: &str = "journal 2 batches 2 facts\n";

// Batches of handheld 7, each with the calibration of batch 12: 13 three times, 12 and 13, 12 to 14, 12 twice and 13, and 13 to 15.
const NEXT_THRICE: &[u8] = b"\x42\0\x07\0\0\0\x0d\0\x01\x07\x4d\x3d\x02\x58\0\x01\0\0\x01\xf4\
    \x42\0\x07\0\0\0\x0d\0\x01\x07\x4d\x3d\x02\x58\0\x01\0\0\x01\xf4\
    \x42\0\x07\0\0\0\x0d\0\x01\x07\x4d\x3d\x02\x58\0\x01\0\0\x01\xf4";

const TWO: &[u8] = b"\x42\0\x07\0\0\0\x0c\0\x01\x07\x4d\x3d\x02\x58\0\x01\0\0\x01\xf4\
    \x42\0\x07\0\0\0\x0d\0\x01\x07\x4d\x3d\x02\x58\0\x01\0\0\x01\xf4";

pub const THREE: &[u8] = b"\x42\0\x07\0\0\0\x0c\0\x01\x07\x4d\x3d\x02\x58\0\x01\0\0\x01\xf4\
    \x42\0\x07\0\0\0\x0d\0\x01\x07\x4d\x3d\x02\x58\0\x01\0\0\x01\xf4\
    \x42\0\x07\0\0\0\x0e\0\x01\x07\x4d\x3d\x02\x58\0\x01\0\0\x01\xf4";

const ONE_TWICE: &[u8] = b"\x42\0\x07\0\0\0\x0c\0\x01\x07\x4d\x3d\x02\x58\0\x01\0\0\x01\xf4\
    \x42\0\x07\0\0\0\x0c\0\x01\x07\x4d\x3d\x02\x58\0\x01\0\0\x01\xf4\
    \x42\0\x07\0\0\0\x0d\0\x01\x07\x4d\x3d\x02\x58\0\x01\0\0\x01\xf4";

const BEHIND: &[u8] = b"\x42\0\x07\0\0\0\x0d\0\x01\x07\x4d\x3d\x02\x58\0\x01\0\0\x01\xf4\
    \x42\0\x07\0\0\0\x0e\0\x01\x07\x4d\x3d\x02\x58\0\x01\0\0\x01\xf4\
    \x42\0\x07\0\0\0\x0f\0\x01\x07\x4d\x3d\x02\x58\0\x01\0\0\x01\xf4";

// A disk whose journal had one batch, after a second one was docked.
fn docked_next(alloc: Global) -> Result<MemoryDisk, Fail> {
    let mut disk = MemoryDisk::new(alloc, ONE, &[])?;
    says(alloc, &mut disk, "dock", NEXT, "receipt 7 13 2\n")?;
    Ok(disk)
}

// The number of calls that a run of this word without input makes on a disk with one batch.
pub fn calls_of_opening(alloc: Global, word: &str) -> Result<u64, Fail> {
    let mut disk = MemoryDisk::new(alloc, ONE, &[])?;
    says(alloc, &mut disk, word, &[], "")?;
    Ok(disk.calls())
}

// The disk after a stop inside a call that leaves these bytes of what the call writes.
pub fn stopped(
    alloc: Global,
    disk: &MemoryDisk,
    call: u64,
    left: &[u8],
) -> Result<MemoryDisk, Fail> {
    if call >= disk.calls() {
        return Err(Fail::from("a call"));
    }
    Ok(disk.stopped(alloc, call, left)?)
}

// Checks the output of `check` after a stop inside a call that leaves these bytes of what the call writes.
fn leaves(
    alloc: Global,
    disk: &MemoryDisk,
    call: u64,
    left: &[u8],
    said: &str,
) -> Result<(), Fail> {
    let mut stopped = stopped(alloc, disk, call, left)?;
    says(alloc, &mut stopped, "check", &[], said)
}

// The output of `check` after a stop inside this call that leaves these bytes. Both batches are kept if the gate was written or
// the stop is in the last sync.
fn said_behind(call: u64, calls: u64, left: &[u8]) -> &'static str {
    let is_synced = calls.saturating_sub(call) == 1;
    let gate_is_written = calls.saturating_sub(call) == 2 && left == b"\x01".as_slice();
    if gate_is_written || is_synced {
        return BOTH;
    }
    ONE_BATCH
}

const LEFT: [&[u8]; 4] = [b"", b"\0", b"\x07", b"\x01"];

// Checks the journal after a stop inside a call.
fn stops(alloc: Global, disk: &MemoryDisk, call: u64) -> Result<(), Fail> {
    for left in LEFT {
        leaves(
            alloc,
            disk,
            call,
            left,
            said_behind(call, disk.calls(), left),
        )?;
    }
    Ok(())
}

#[test]
fn a_stop_leaves_one_batch_or_both(rt: HostRuntime) -> Result<(), Fail> {
    let opening = calls_of_opening(rt.alloc(), "dock")?;
    let disk = docked_next(rt.alloc())?;
    is(disk.calls() == opening.saturating_add(APPEND), "the calls")?;
    for call in 0..disk.calls() {
        stops(rt.alloc(), &disk, call)?;
    }
    Ok(())
}

// The frame with the second batch.
const FRAME: &[u8] =
    b"\x01\0\0\0\x14\x42\0\x07\0\0\0\x0d\0\x01\x07\x4d\x3d\x02\x58\0\x01\0\0\x01\xf4\0";

#[test]
fn a_stop_inside_a_frame_leaves_what_was(rt: HostRuntime) -> Result<(), Fail> {
    let opening = calls_of_opening(rt.alloc(), "dock")?;
    let disk = docked_next(rt.alloc())?;
    is(disk.bytes().get(41..) == Some(FRAME), "the frame")?;
    for kept in 0..26 {
        let left = disk.bytes().get(42..42 + kept).unwrap_or(&[]);
        leaves(rt.alloc(), &disk, opening, left, ONE_BATCH)?;
    }
    Ok(())
}

// The calls after the opening that fail, and the replies to a batch that is sent three times. If a batch is in doubt, a run
// settles it first, with the call after its gate.
const IN_DOUBT: [(u64, u64, &str); 5] = [
    (0, 0, "disk fault\nreceipt 7 13 2\nreceipt 7 13 2\n"),
    (1, 1, "disk fault\nreceipt 7 13 2\nreceipt 7 13 2\n"),
    (2, 2, "disk fault\nreceipt 7 13 2\nreceipt 7 13 2\n"),
    (3, 3, "disk fault\nreceipt 7 13 2\nreceipt 7 13 2\n"),
    (2, 3, "disk fault\ndisk fault\nreceipt 7 13 2\n"),
];

// Checks the replies if these calls fail.
fn settles(alloc: Global, faults: &[u64], said: &str) -> Result<(), Fail> {
    let mut disk = MemoryDisk::new(alloc, ONE, faults)?;
    ends(
        alloc,
        &mut disk,
        in_pieces(OF_A_BATCH),
        &("dock", NEXT_THRICE, 0, said, ""),
    )?;
    is(disk.bytes().len() == 67, said)?;
    says(alloc, &mut disk, "check", &[], BOTH)
}

#[test]
fn a_batch_in_doubt_is_settled_before_it_is_receipted(rt: HostRuntime) -> Result<(), Fail> {
    let opening = calls_of_opening(rt.alloc(), "dock")?;
    for (first, second, said) in IN_DOUBT {
        let faults = [
            opening.saturating_add(first),
            opening.saturating_add(second),
        ];
        settles(rt.alloc(), &faults, said)?;
    }
    Ok(())
}

// Three batches, the size of the pieces in which they arrive, the replies, and the length of the journal.
const FRAMES: [(&[u8], usize, &str, usize); 3] = [
    (
        THREE,
        60,
        "receipt 7 12 1\nreceipt 7 13 2\nreceipt 7 14 3\n",
        82,
    ),
    (
        THREE,
        OF_A_BATCH,
        "receipt 7 12 1\nreceipt 7 13 2\nreceipt 7 14 3\n",
        92,
    ),
    (
        ONE_TWICE,
        60,
        "receipt 7 12 1\nreceipt 7 12 1\nreceipt 7 13 2\n",
        62,
    ),
];

// Checks the replies to some batches, and the length of the journal after them.
fn frames(
    alloc: Global,
    piece: usize,
    input: &[u8],
    said: &str,
    length: usize,
) -> Result<(), Fail> {
    let mut disk = MemoryDisk::new(alloc, EMPTY, &[])?;
    ends(
        alloc,
        &mut disk,
        in_pieces(piece),
        &("dock", input, 0, said, ""),
    )?;
    is(disk.bytes().len() == length, said)
}

#[test]
fn batches_in_one_piece_share_a_frame(rt: HostRuntime) -> Result<(), Fail> {
    for (input, piece, said, length) in FRAMES {
        frames(rt.alloc(), piece, input, said, length)?;
    }
    Ok(())
}

// Batches 1 to 17 of handheld 7, each with the calibration of batch 12.
pub fn seventeen(alloc: Global) -> Result<Vec<u8>, Fail> {
    let mut input = Vec::new(alloc);
    for number in 1..18 {
        input.extend_from_slice(b"\x42\0\x07\0\0\0")?;
        input.push(number)?;
        input.extend_from_slice(b"\0\x01\x07\x4d\x3d\x02\x58\0\x01\0\0\x01\xf4")?;
    }
    Ok(input)
}

const SEVENTEEN: &str = "receipt 7 1 1\nreceipt 7 2 2\nreceipt 7 3 3\nreceipt 7 4 4\n\
    receipt 7 5 5\nreceipt 7 6 6\nreceipt 7 7 7\nreceipt 7 8 8\n\
    receipt 7 9 9\nreceipt 7 10 10\nreceipt 7 11 11\nreceipt 7 12 12\n\
    receipt 7 13 13\nreceipt 7 14 14\nreceipt 7 15 15\nreceipt 7 16 16\n\
    receipt 7 17 17\n";

#[test]
fn a_frame_has_at_most_sixteen_batches(rt: HostRuntime) -> Result<(), Fail> {
    let input = seventeen(rt.alloc())?;
    let mut disk = MemoryDisk::new(rt.alloc(), EMPTY, &[])?;
    says(rt.alloc(), &mut disk, "dock", &input, SEVENTEEN)?;
    // One frame of 320 bytes, followed by one of 20.
    is(
        disk.bytes().len() == 17 + 5 + 320 + 5 + 20
            && disk.bytes().get(16..21) == Some(b"\x01\0\0\x01\x40".as_slice()),
        "two frames",
    )
}

#[test]
fn a_fault_is_answered_to_a_whole_group(rt: HostRuntime) -> Result<(), Fail> {
    let opening = calls_of_opening(rt.alloc(), "dock")?;
    let said = "disk fault\ndisk fault\ndisk fault\n";
    let mut disk = MemoryDisk::new(rt.alloc(), ONE, &[opening])?;
    says(rt.alloc(), &mut disk, "dock", BEHIND, said)?;
    says(rt.alloc(), &mut disk, "check", &[], ONE_BATCH)
}

// The room of the disk in bytes, the reply to a batch, and the replies to it and another one. A journal with one batch has 42
// bytes, and each further batch of one fact adds 25.
const ROOMS: [(usize, &str, &str); 3] = [
    (
        1_000,
        "receipt 7 12 1\n",
        "receipt 7 12 1\nreceipt 7 13 2\n",
    ),
    (42, "receipt 7 12 1\n", "receipt 7 12 1\ndisk fault\n"),
    (41, "disk fault\n", "disk fault\ndisk fault\n"),
];

// Checks the replies with a disk of this much room.
fn fills(alloc: Global, room: usize, first: &str, second: &str) -> Result<(), Fail> {
    let mut disk = SureDisk::new(alloc, &[], room)?;
    says(alloc, &mut disk, "init", &[], "")?;
    is(disk.bytes().len() == 17, "an empty journal")?;
    says(alloc, &mut disk, "dock", BATCH, first)?;
    ends(
        alloc,
        &mut disk,
        in_pieces(OF_A_BATCH),
        &("dock", TWO, 0, second, ""),
    )?;
    Ok(())
}

#[test]
fn a_disk_of_told_room_is_used_up_to_its_end(rt: HostRuntime) -> Result<(), Fail> {
    for (room, first, second) in ROOMS {
        fills(rt.alloc(), room, first, second)?;
    }
    Ok(())
}
