use crate::book::{CHANGED, Row, TWELVE, disk_of, goes_on, opening, reopened};
use crate::journal_bytes::{CALIBRATION, EMPTY, HEADER, WITH_TWELVE};
use disk_model::MemoryDisk;
use office_book::{BookError, BookWhy};
use std::alloc::Global;
use std::test::Fail;
use test_kit::is;

// Handheld 7, batch 15: an attempt at component 1, which is not in the register.
const ATTEMPT: [u8; 17] = *b"\x42\0\x07\0\0\0\x0f\0\x01\x0c\x4d\x3d\x02\x58\0\x01\x01";

// The calibration and the attempt.
const BOTH: [u8; 37] = *b"\x42\0\x07\0\0\0\x0c\0\x01\x07\x4d\x3d\x02\x58\0\x01\0\0\x01\xf4\
    \x42\0\x07\0\0\0\x0f\0\x01\x0c\x4d\x3d\x02\x58\0\x01\x01";

// A journal with frames of these batches, followed by these bytes.
fn image(alloc: Global, frames: &[&[u8]], behind: &[u8]) -> Result<Vec<u8>, Fail> {
    let mut image = Vec::from_slice(alloc, &HEADER)?;
    for frame in frames {
        image.extend_from_slice(&[1, 0, 0, 0, (frame.len() % 256) as u8])?;
        image.extend_from_slice(frame)?;
    }
    image.extend_from_slice(behind)?;
    Ok(image)
}

// Checks that no office opens over these bytes if these calls fail, the reason, and that the bytes are unchanged.
fn is_refused(alloc: Global, bytes: &[u8], failing: &[u64], because: BookWhy) -> Result<(), Fail> {
    let disk = MemoryDisk::new(alloc, bytes, failing)?;
    match opening(alloc, disk) {
        Ok(_) => Err(Fail::from("no office")),
        Err(error) => gives_back(&error, bytes, because),
    }
}

// Checks the reason why no office opens, and that the disk has these bytes.
fn gives_back(error: &BookError<MemoryDisk>, bytes: &[u8], because: BookWhy) -> Result<(), Fail> {
    is(error.why == because, "why")?;
    is(error.disk.bytes() == bytes, "the bytes")
}

// Checks that no office opens over frames of these batches, and that the first denied one is at this position.
fn is_unruly(alloc: Global, frames: &[&[u8]], position: u32) -> Result<(), Fail> {
    let image = image(alloc, frames, &[0])?;
    is_refused(alloc, &image, &[], BookWhy::Unruly { position, rule: 1 })
}

#[test]
fn an_unruly_journal_is_refused(rt: HostRuntime) -> Result<(), Fail> {
    is_unruly(rt.alloc(), &[&ATTEMPT], 1)?;
    is_unruly(rt.alloc(), &[&CALIBRATION, &ATTEMPT], 2)?;
    is_unruly(rt.alloc(), &[&BOTH], 2)?;
    is_unruly(rt.alloc(), &[&ATTEMPT, &CALIBRATION], 1)
}

// Checks that no office opens over these frames, followed by these bytes, and the place of the first bad frame.
fn is_damaged(alloc: Global, frames: &[&[u8]], behind: &[u8], at: u64) -> Result<(), Fail> {
    let image = image(alloc, frames, behind)?;
    is_refused(alloc, &image, &[], BookWhy::Damaged { at })
}

#[test]
fn damage_comes_before_an_unruly_batch(rt: HostRuntime) -> Result<(), Fail> {
    // The gate of a third frame is open, but the frame is incomplete.
    is_damaged(rt.alloc(), &[&CALIBRATION, &ATTEMPT], &[1], 63)?;
    is_damaged(rt.alloc(), &[&ATTEMPT], &[1, 0, 0, 0, 20, 0x42, 0, 7], 38)?;
    // A frame without a batch.
    is_damaged(rt.alloc(), &[&ATTEMPT, &[0x43]], &[0], 38)?;
    is_damaged(rt.alloc(), &[&[0x43], &ATTEMPT], &[0], 16)?;
    // A batch that is kept already.
    is_damaged(
        rt.alloc(),
        &[&CALIBRATION, &ATTEMPT, &CALIBRATION],
        &[0],
        63,
    )?;
    // No gate after the last frame.
    is_damaged(rt.alloc(), &[&ATTEMPT], &[], 38)
}

#[test]
fn other_bytes_are_no_journal(rt: HostRuntime) -> Result<(), Fail> {
    is_refused(rt.alloc(), b"LDARJNL2", &[], BookWhy::NotAJournal)?;
    is_refused(rt.alloc(), b"LDARJ", &[], BookWhy::NotAJournal)?;
    is_refused(rt.alloc(), &[], &[], BookWhy::NotAJournal)
}

#[test]
fn a_disk_that_fails_is_handed_back(rt: HostRuntime) -> Result<(), Fail> {
    is_refused(rt.alloc(), &WITH_TWELVE, &[0], BookWhy::Disk)?;
    is_refused(rt.alloc(), &EMPTY, &[1], BookWhy::Disk)
}

// A batch, and the same one changed.
const KNOWN: [Row; 2] = [
    (&[TWELVE], "receipt 7 12 1\n", 1, 42),
    (&[CHANGED], "conflict 1\n", 1, 42),
];

// Checks these rows with an office over the journal of a disk.
fn opens_and_goes_on(alloc: Global, disk: MemoryDisk, rows: &[Row]) -> Result<(), Fail> {
    let mut book = reopened(alloc, disk)?;
    goes_on(alloc, &mut book, rows)
}

#[test]
fn an_opened_office_knows_its_batches(rt: HostRuntime) -> Result<(), Fail> {
    let disk = disk_of(rt.alloc(), &KNOWN)?;
    opens_and_goes_on(rt.alloc(), disk, &KNOWN)
}

// A single batch.
const FIRST: [Row; 1] = [(&[TWELVE], "receipt 7 12 1\n", 1, 42)];

#[test]
fn what_stands_behind_a_closed_gate_does_not_count(rt: HostRuntime) -> Result<(), Fail> {
    let image = image(rt.alloc(), &[], &[0, 0, 0, 0, 17, 0x42, 0, 7])?;
    let disk = MemoryDisk::new(rt.alloc(), &image, &[])?;
    opens_and_goes_on(rt.alloc(), disk, &FIRST)
}
