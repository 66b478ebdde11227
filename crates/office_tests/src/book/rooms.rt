use crate::book::{Asked, CHANGED, DENIED, FAULT, THIRTEEN, TWELVE, UNKNOWN, reopened, says_each};
use crate::journal_bytes::{EMPTY, WITH_TWELVE};
use disk_model::SureDisk;
use ldar_journal::create;
use office_book::Book;
use std::alloc::Global;
use std::test::Fail;
use test_kit::is;

// An office over an empty journal, on a disk with room for this many bytes.
fn with_room(alloc: Global, room: usize) -> Result<Book<SureDisk>, Fail> {
    let disk = created(alloc, room)?;
    is(disk.bytes() == EMPTY.as_slice(), "an empty journal")?;
    reopened(alloc, disk)
}

// A disk on which a journal was created.
fn created(alloc: Global, room: usize) -> Result<SureDisk, Fail> {
    let mut disk = SureDisk::new(alloc, b"", room)?;
    match create(&mut disk) {
        Ok(()) => Ok(disk),
        Err(_) => Err(Fail::from("a journal")),
    }
}

// A request, and the line of its reply.
type Line<'a> = (Asked, &'a str);

// With enough room.
const ROOMY: [Line; 4] = [
    (TWELVE, "receipt 7 12 1\n"),
    (TWELVE, "receipt 7 12 1\n"),
    (TWELVE, "receipt 7 12 1\n"),
    (CHANGED, "conflict 1\n"),
];

// With room for one batch.
const FULL: [Line; 2] = [(TWELVE, "receipt 7 12 1\n"), (THIRTEEN, FAULT)];

// With room for no batch.
const TOO_SMALL: [Line; 3] = [(TWELVE, FAULT), (TWELVE, FAULT), (UNKNOWN, DENIED)];

// Checks the replies of an office with room for this many bytes, the length of its journal after them, and the number of
// failed calls.
fn answers(
    alloc: Global,
    room: usize,
    lines: &[(Asked, &str)],
    bytes: &[u8],
    faults: u64,
) -> Result<(), Fail> {
    let mut book = with_room(alloc, room)?;
    says_each(alloc, &mut book, lines)?;
    is(
        book.disk().bytes() == bytes && book.disk().faults() == faults,
        "the journal",
    )
}

#[test]
fn a_disk_with_room_does_not_fail(rt: HostRuntime) -> Result<(), Fail> {
    answers(rt.alloc(), 1_000, &ROOMY, &WITH_TWELVE, 0)
}

#[test]
fn a_batch_that_fills_the_room_is_the_last(rt: HostRuntime) -> Result<(), Fail> {
    answers(rt.alloc(), 42, &FULL, &WITH_TWELVE, 1)
}

#[test]
fn a_batch_without_room_is_a_fault(rt: HostRuntime) -> Result<(), Fail> {
    answers(rt.alloc(), 41, &TOO_SMALL, &EMPTY, 2)
}
