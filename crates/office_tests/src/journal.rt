ghost use Rattle.std.specs.Prelude.{◌≡◌, [], IfOk};

use crate::journal_bytes::{CALIBRATION, EMPTY, WITH_TWELVE};
use disk_model::{Disk, MemoryDisk};
use fact_kinds::Batch;
use ldar_facts::{Read, read_batch};
use ldar_journal::{CreateError, Journal, OpenWhy, Opening, Torn, create, open_journal, prepare};
use std::alloc::Global;
use std::test::Fail;
use test_kit::same;

mod crashes;
mod openings;

// The batch.
fn batch(alloc: Global) -> Result<Batch, Fail> {
    match read_batch(alloc, &CALIBRATION)? {
        Read::Whole { batch, used: _ } => Ok(batch),
        _ => Err(Fail::from("a batch")),
    }
}

// Reads the remaining frames of a journal. Returns the number of their batches.
pub fn read_on<D: Disk>(alloc: Global, opening: &mut Opening<D>) -> Result<usize, OpenWhy> {
    let mut frame = Vec::new(alloc);
    let mut count: usize = 0;
    for _ in 0..u64::MAX {
        if !opening.next_frame(alloc, &mut frame)? {
            break;
        }
        count = count.saturating_add(frame.len());
    }
    Ok(count)
}

// The number of batches on a disk, or the reason why it does not open.
pub fn batches_on<D: Disk>(alloc: Global, disk: D) -> Result<usize, OpenWhy> {
    match open_journal(alloc, disk) {
        Ok((_, batches)) => Ok(batches.len()),
        Err(error) => Err(error.why),
    }
}

// The empty journal on a disk.
pub fn empty_journal<D: Disk>(alloc: Global, disk: D) -> Result<Journal<D>, Fail>
    ensures value { IfOk result (λ journal. (journal.frames ≡ []) × (journal.doubt ≡ [])) }
{
    let Ok(mut opening) = Opening::begin(alloc, disk) else {
        return Err(Fail::from("a journal"));
    };
    let mut frame = Vec::new(alloc);
    let Ok(false) = opening.next_frame(alloc, &mut frame) else {
        return Err(Fail::from("an empty journal"));
    };
    let (journal, _) = opening.finish();
    Ok(journal)
}

// Adds the batch to the empty journal on a disk. Returns the journal and the result of the call.
pub fn appended<D: Disk>(alloc: Global, disk: D) -> Result<(Journal<D>, Result<(), Torn>), Fail> {
    let mut journal = empty_journal(alloc, disk)?;
    let batch = batch(alloc)?;
    if batch.facts.as_slice().len() > 512 {
        return Err(Fail::from("a batch that fits"));
    }
    let frame = prepare(alloc, &[batch])?;
    let appended = journal.append(&frame);
    Ok((journal, appended))
}

// The empty journal on a disk, on which the calls with these numbers fail, after the batch was added, and the result of
// adding it.
pub fn appended_where(
    alloc: Global,
    failing: &[u64],
) -> Result<(Journal<MemoryDisk>, Result<(), Torn>), Fail> {
    let disk = MemoryDisk::new(alloc, &EMPTY, failing)?;
    appended(alloc, disk)
}

// Checks the result of adding the batch if the calls with these numbers fail, whether the frame is in doubt after it, and
// the number of calls. Returns the disk.
pub fn append_answers(
    alloc: Global,
    failing: &[u64],
    want: Result<(), Torn>,
    calls: u64,
) -> Result<MemoryDisk, Fail> {
    let (journal, answer) = appended_where(alloc, failing)?;
    let doubt = want == Err(Torn { gate: true });
    same("what an append answers", &answer, &want)?;
    same("a doubt", &journal.settling(), &doubt)?;
    same("the calls of an append", &journal.disk().calls(), &calls)?;
    Ok(journal.into_disk())
}

// Checks the result of creating a journal on a disk.
pub fn create_answers<D: Disk>(disk: &mut D, want: Result<(), CreateError>) -> Result<(), Fail> {
    same("what making a journal answers", &create(disk), &want)
}

// Checks the bytes of a disk.
fn holds(disk: &MemoryDisk, want: &[u8]) -> Result<(), Fail> {
    same("the bytes of the disk", &disk.bytes(), &want)
}

#[test]
fn an_empty_disk_takes_a_journal_and_no_other_does(rt: HostRuntime) -> Result<(), Fail> {
    let mut disk = MemoryDisk::new(rt.alloc(), &[], &[])?;
    create_answers(&mut disk, Ok(()))?;
    holds(&disk, &EMPTY)?;
    create_answers(&mut disk, Err(CreateError::NotEmpty))?;
    holds(&disk, &EMPTY)?;
    let mut other = MemoryDisk::new(rt.alloc(), &[], &[2])?;
    create_answers(&mut other, Err(CreateError::Disk))?;
    Ok(())
}

// A place of the image, the byte put there, and the result of opening it.
const DAMAGES: [(usize, u8, Result<usize, OpenWhy>); 8] = [
    (0, 76, Ok(1)),
    (0, 77, Err(OpenWhy::NotAJournal)),
    (15, 1, Err(OpenWhy::NotAJournal)),
    (16, 0, Ok(0)),
    (16, 7, Ok(0)),
    (20, 19, Err(OpenWhy::Damaged { at: 16 })),
    (21, 67, Err(OpenWhy::Damaged { at: 16 })),
    (41, 1, Err(OpenWhy::Damaged { at: 41 })),
];

// The image with another byte at a place.
fn damaged(place: usize, byte: u8) -> [u8; 42] {
    let mut bytes = WITH_TWELVE;
    if let Some(there) = bytes.get_mut(place) {
        *there = byte;
    }
    bytes
}

// Checks the result of opening these bytes on a disk on which the calls with these numbers fail.
pub fn opens_to(
    alloc: Global,
    bytes: &[u8],
    failing: &[u64],
    want: Result<usize, OpenWhy>,
) -> Result<(), Fail> {
    let disk = MemoryDisk::new(alloc, bytes, failing)?;
    same("what opens", &batches_on(alloc, disk), &want)
}

#[test]
fn a_journal_is_refused_where_it_is_damaged(rt: HostRuntime) -> Result<(), Fail> {
    for (place, byte, want) in DAMAGES {
        opens_to(rt.alloc(), &damaged(place, byte), &[], want)?;
    }
    Ok(())
}

#[test]
fn a_fault_of_the_disk_is_told(rt: HostRuntime) -> Result<(), Fail> {
    opens_to(rt.alloc(), &EMPTY, &[0], Err(OpenWhy::Disk))?;
    opens_to(rt.alloc(), &EMPTY, &[1], Err(OpenWhy::Disk))
}

#[test]
fn a_batch_is_added_in_four_calls(rt: HostRuntime) -> Result<(), Fail> {
    let disk = append_answers(rt.alloc(), &[], Ok(()), 6)?;
    holds(&disk, &WITH_TWELVE)?;
    Ok(())
}

// Checks the effect of an error: whether the gate was being opened, and the length of the file after it.
fn fault_leaves(alloc: Global, call: u64, gate: bool, length: usize) -> Result<(), Fail> {
    let calls = call.saturating_add(1);
    let disk = append_answers(alloc, &[call], Err(Torn { gate }), calls)?;
    same("the length of the file", &disk.bytes().len(), &length)
}

#[test]
fn a_fault_while_a_batch_is_added_says_what_is_in_doubt(rt: HostRuntime) -> Result<(), Fail> {
    // The call that fails; opening the journal takes calls 0 and 1.
    fault_leaves(rt.alloc(), 2, false, 17)?;
    fault_leaves(rt.alloc(), 3, false, 42)?;
    fault_leaves(rt.alloc(), 4, true, 42)?;
    fault_leaves(rt.alloc(), 5, true, 42)
}
