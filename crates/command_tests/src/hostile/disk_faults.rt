use crate::hostile::{RECEIPTS, SCRIPT};
use crate::runs::{CALM, OF_A_BATCH, ends, in_pieces, says};
use crate::stops::THREE;
use disk_model::MemoryDisk;
use std::alloc::Global;
use std::test::Fail;
use test_kit::is;

// The number of calls of the disk in `init`, and of those with which `dock` appends three batches, one by one.
const OF_INIT: u64 = 3;

const OF_APPENDS: u64 = 12;

const IN_ORDER: &str = "receipt 7 12 1\nreceipt 7 13 2\nreceipt 7 14 3\n";

// The output of `dock` over the script if this one of its appending calls fails, and its output for the three batches after
// that. A batch whose gate was written keeps its position; otherwise the next batch gets the position.
fn answers(call: u64) -> (&'static str, &'static str) {
    match call {
        0..=3 => (
            "disk fault\nreceipt 7 12 1\nreceipt 7 13 2\nreceipt 7 14 3\n",
            IN_ORDER,
        ),
        4..=6 => (
            "receipt 7 12 1\nreceipt 7 12 1\ndisk fault\nreceipt 7 14 2\n",
            "receipt 7 12 1\nreceipt 7 13 3\nreceipt 7 14 2\n",
        ),
        7 => (
            "receipt 7 12 1\nreceipt 7 12 1\ndisk fault\nreceipt 7 14 3\n",
            IN_ORDER,
        ),
        _ => (
            "receipt 7 12 1\nreceipt 7 12 1\nreceipt 7 13 2\ndisk fault\n",
            IN_ORDER,
        ),
    }
}

// The status, the output and the notes of `dock` over the script if this call fails, and the output of a last `dock` of the batches.
fn wanted(call: u64, opened: u64) -> (u8, &'static str, &'static str, &'static str) {
    match call.checked_sub(opened) {
        None => (5, "", "disk fault\n", IN_ORDER),
        Some(appending) => {
            let (said, at_last) = answers(appending);
            (0, said, "", at_last)
        }
    }
}

// Checks the result of the script if this call fails. `dock` opens the journal with the calls before `opened`.
fn passes_over(alloc: Global, call: u64, opened: u64) -> Result<(), Fail> {
    let mut disk = MemoryDisk::new(alloc, &[], &[call])?;
    if call < OF_INIT {
        ends(
            alloc,
            &mut disk,
            CALM,
            &("init", b"", 5, "", "disk fault\n"),
        )?;
        return Ok(());
    }
    says(alloc, &mut disk, "init", b"", "")?;
    let (status, said, noted, at_last) = wanted(call, opened);
    let row = ("dock", SCRIPT, status, said, noted);
    ends(alloc, &mut disk, in_pieces(OF_A_BATCH), &row)?;
    is(disk.faults() == 1, "the fault")?;
    says(alloc, &mut disk, "dock", THREE, at_last)
}

// The number of calls of the script if none fails.
fn calls_of_script(alloc: Global) -> Result<u64, Fail> {
    let mut disk = MemoryDisk::new(alloc, &[], &[])?;
    says(alloc, &mut disk, "init", b"", "")?;
    is(disk.calls() == OF_INIT, "the calls of init")?;
    let row = ("dock", SCRIPT, 0, RECEIPTS, "");
    ends(alloc, &mut disk, in_pieces(OF_A_BATCH), &row)?;
    Ok(disk.calls())
}

#[test]
fn a_fault_of_each_call_of_the_disk_passes(rt: HostRuntime) -> Result<(), Fail> {
    let calls = calls_of_script(rt.alloc())?;
    for call in 0..calls {
        passes_over(rt.alloc(), call, calls.saturating_sub(OF_APPENDS))?;
    }
    Ok(())
}
