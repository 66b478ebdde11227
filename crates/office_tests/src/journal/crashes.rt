use crate::journal::{
    append_answers, appended, appended_where, batches_on, create_answers, empty_journal,
};
use crate::journal_bytes::{BEHIND, EMPTY};
use disk_model::{DiskFault, MemoryDisk, SureDisk};
use ldar_journal::{CreateError, Journal, Settled, Torn};
use std::alloc::Global;
use std::test::Fail;
use test_kit::same;

// The number of the first call of an append to an empty journal; the calls before it open the journal.
fn first_call(alloc: Global) -> Result<u64, Fail> {
    let disk = MemoryDisk::new(alloc, &EMPTY, &[])?;
    let journal = empty_journal(alloc, disk)?;
    Ok(journal.disk().calls())
}

// Checks how many batches are on a disk after a stop inside a call, unless it does not open.
fn stop_leaves(
    alloc: Global,
    disk: &MemoryDisk,
    call: u64,
    left: &[u8],
    want: Option<usize>,
) -> Result<(), Fail> {
    if call >= disk.calls() {
        return Err(Fail::from("a call that was made"));
    }
    let stopped = disk.stopped(alloc, call, left)?;
    let found = batches_on(alloc, stopped).ok();
    same("the batches behind a stop", &found, &want)
}

// The first bytes, up to this number.
fn part(bytes: &[u8], kept: usize) -> Result<&[u8], Fail> {
    Ok(bytes.get(..kept).ok_or("a part of the write")?)
}

// Checks how many batches are on a disk after a stop inside a call of creating a journal, which left this many bytes of
// the write.
fn create_leaves(
    alloc: Global,
    disk: &MemoryDisk,
    call: u64,
    kept: usize,
    want: Option<usize>,
) -> Result<(), Fail> {
    let left = part(&EMPTY, kept)?;
    stop_leaves(alloc, disk, call, left, want)
}

#[test]
fn a_stop_inside_create_leaves_nothing_or_an_empty_journal(rt: HostRuntime) -> Result<(), Fail> {
    let disk = created(rt.alloc())?;
    create_leaves(rt.alloc(), &disk, 0, 0, None)?;
    create_leaves(rt.alloc(), &disk, 1, 0, None)?;
    create_leaves(rt.alloc(), &disk, 1, 8, None)?;
    create_leaves(rt.alloc(), &disk, 1, 17, Some(0))?;
    create_leaves(rt.alloc(), &disk, 2, 0, Some(0))?;
    create_leaves(rt.alloc(), &disk, 2, 17, Some(0))
}

// A disk on which a journal was created.
fn created(alloc: Global) -> Result<MemoryDisk, Fail> {
    let mut disk = MemoryDisk::new(alloc, &[], &[])?;
    create_answers(&mut disk, Ok(()))?;
    Ok(disk)
}

// Checks that a stop inside this call leaves nothing of the batch, whatever it left of the bytes after the gate.
fn no_part_counts(alloc: Global, disk: &MemoryDisk, call: u64) -> Result<(), Fail> {
    for kept in 0..26 {
        let left = part(&BEHIND, kept)?;
        stop_leaves(alloc, disk, call, left, Some(0))?;
    }
    Ok(())
}

// The call after the first, the bytes that it left if it wrote the gate, and the number of batches after it.
const GATE_STOPS: [(u64, &[u8], usize); 6] = [
    (1, &[], 0),
    (2, &[], 0),
    (2, &[0], 0),
    (2, &[7], 0),
    (2, &[1], 1),
    (3, &[], 1),
];

#[test]
fn a_stop_before_the_gate_leaves_the_old_history(rt: HostRuntime) -> Result<(), Fail> {
    let first = first_call(rt.alloc())?;
    let disk = append_answers(rt.alloc(), &[], Ok(()), first.saturating_add(4))?;
    no_part_counts(rt.alloc(), &disk, first)?;
    for (call, left, want) in GATE_STOPS {
        let call = first.saturating_add(call);
        stop_leaves(rt.alloc(), &disk, call, left, Some(want))?;
    }
    Ok(())
}

// Checks whether an append reports that its gate was touched, if this call of it fails.
fn fault_says(alloc: Global, call: u64, gate: bool) -> Result<(), Fail> {
    let first = first_call(alloc)?;
    let failing = first.saturating_add(call);
    let calls = failing.saturating_add(1);
    append_answers(alloc, &[failing], Err(Torn { gate }), calls)?;
    Ok(())
}

#[test]
fn an_append_says_whether_its_gate_was_touched(rt: HostRuntime) -> Result<(), Fail> {
    // The call of the append that fails, and whether the gate was being opened.
    fault_says(rt.alloc(), 0, false)?;
    fault_says(rt.alloc(), 1, false)?;
    fault_says(rt.alloc(), 2, true)?;
    fault_says(rt.alloc(), 3, true)
}

// Checks the result of settling a journal in doubt, and that it is still in doubt only after an error.
fn settles(
    journal: &mut Journal<MemoryDisk>,
    want: Result<Settled, DiskFault>,
) -> Result<(), Fail> {
    if !journal.settling() {
        return Err(Fail::from("a journal in doubt"));
    }
    let answer = journal.settle();
    same("what settling answers", &answer, &want)?;
    same("a doubt", &journal.settling(), &want.is_err())
}

// Checks that a stop inside a call leaves this many batches, whatever it left of the bytes after the gate.
fn stops_leave(alloc: Global, disk: &MemoryDisk, call: u64, count: usize) -> Result<(), Fail> {
    let half = part(&BEHIND, 12)?;
    stop_leaves(alloc, disk, call, &[], Some(count))?;
    stop_leaves(alloc, disk, call, half, Some(count))?;
    stop_leaves(alloc, disk, call, &BEHIND, Some(count))
}

// Checks the result of settling if this call of the append failed, and the number of batches after a stop inside it.
fn settling_says(alloc: Global, call: u64, answer: Settled, count: usize) -> Result<(), Fail> {
    let first = first_call(alloc)?;
    let failing = first.saturating_add(call);
    let (mut journal, _) = appended_where(alloc, &[failing])?;
    settles(&mut journal, Ok(answer))?;
    let disk = journal.into_disk();
    same(
        "the calls with a settling",
        &disk.calls(),
        &failing.saturating_add(3),
    )?;
    stops_leave(alloc, &disk, failing.saturating_add(1), count)?;
    stops_leave(alloc, &disk, failing.saturating_add(2), count)
}

#[test]
fn settling_says_what_the_gate_says(rt: HostRuntime) -> Result<(), Fail> {
    // The call of the append that fails, the result of settling, and the number of batches after it.
    settling_says(rt.alloc(), 2, Settled::Gone, 0)?;
    settling_says(rt.alloc(), 3, Settled::Stands, 1)
}

#[test]
fn a_fault_of_settling_leaves_the_doubt(rt: HostRuntime) -> Result<(), Fail> {
    let first = first_call(rt.alloc())?;
    let gate = first.saturating_add(2);
    let (mut journal, answer) = appended_where(rt.alloc(), &[gate, gate.saturating_add(1)])?;
    same("what an append answers", &answer, &Err(Torn { gate: true }))?;
    settles(&mut journal, Err(DiskFault))?;
    settles(&mut journal, Ok(Settled::Gone))
}

// A disk with this much room, after creating a journal on it with this result.
fn created_in(alloc: Global, room: usize, made: Result<(), CreateError>) -> Result<SureDisk, Fail> {
    let mut disk = SureDisk::new(alloc, &[], room)?;
    create_answers(&mut disk, made)?;
    Ok(disk)
}

// Checks the result of an append on a disk with this much room, on which a journal can be created.
fn room_gives(alloc: Global, room: usize, want: Result<(), Torn>) -> Result<(), Fail> {
    let disk = created_in(alloc, room, Ok(()))?;
    let (_, answer) = appended(alloc, disk)?;
    same("what an append answers", &answer, &want)
}

#[test]
fn a_disk_with_room_does_not_fail(rt: HostRuntime) -> Result<(), Fail> {
    created_in(rt.alloc(), 16, Err(CreateError::Disk))?;
    room_gives(rt.alloc(), 17, Err(Torn { gate: false }))?;
    room_gives(rt.alloc(), 41, Err(Torn { gate: false }))?;
    room_gives(rt.alloc(), 42, Ok(()))
}
