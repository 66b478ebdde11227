use crate::hostile::{COUNTS, RECEIPTS, SCRIPT};
use crate::runs::{CALM, OF_A_BATCH, Streams, has_told, in_pieces, ran, says, streams_of};
use crate::stops::stopped;
use disk_model::MemoryDisk;
use ldar_ports::StampedSink;
use std::alloc::Global;
use std::test::Fail;
use test_kit::is;

// The positions in the receipts of the script.
const POSITIONS: [usize; 4] = [1, 1, 2, 3];

// The number of batches with a receipt by this clock of the disk.
fn receipted(output: &StampedSink, clock: u64) -> usize {
    let mut most = 0;
    for (piece, position) in output.pieces().iter().zip(POSITIONS) {
        if piece.stamp() <= clock {
            most = position.max(most);
        }
    }
    most
}

// The clock at the start of a call.
fn clock_before(disk: &MemoryDisk, call: u64) -> Result<u64, Fail> {
    if call >= disk.calls() {
        return Err(Fail::from("a call"));
    }
    Ok(disk.clock_before(call))
}

// Checks that `check` opens a journal with at least the first `least` of the batches, in their order.
fn opens(alloc: Global, disk: &mut MemoryDisk, least: usize) -> Result<(), Fail> {
    let mut streams = streams_of(alloc, b"", CALM)?;
    let got = ran(alloc, disk, &mut streams, "check")?;
    let mut is_open = false;
    for said in COUNTS.get(least..).unwrap_or(&[]) {
        is_open = is_open || has_told(&streams, (got, 0), said, "");
    }
    is(is_open, "a receipted batch")?;
    says(alloc, disk, "dock", SCRIPT, RECEIPTS)
}

// Checks the disk after a stop inside this call that leaves nothing, the first half, or all of what the call writes.
fn stops(alloc: Global, disk: &MemoryDisk, call: u64, least: usize) -> Result<(), Fail> {
    let mut before = stopped(alloc, disk, call, &[])?;
    let mut after = stopped(alloc, disk, call.saturating_add(1), &[])?;
    let written = after.bytes().get(before.bytes().len()..).unwrap_or(&[]);
    let (half, _) = written.split_at(written.len() / 2);
    let mut between = stopped(alloc, disk, call, half)?;
    opens(alloc, &mut before, least)?;
    opens(alloc, &mut between, least)?;
    opens(alloc, &mut after, least)
}

// Runs the script on an empty disk. Returns the number of calls of `init` and of both commands.
fn runs_script(
    alloc: Global,
    disk: &mut MemoryDisk,
    streams: &mut Streams,
) -> Result<(u64, u64), Fail> {
    says(alloc, disk, "init", b"", "")?;
    let made = disk.calls();
    let got = ran(alloc, disk, streams, "dock")?;
    is(has_told(streams, (got, 0), RECEIPTS, ""), "the script")?;
    Ok((made, disk.calls()))
}

#[test]
fn what_was_receipted_before_a_stop_is_kept(rt: HostRuntime) -> Result<(), Fail> {
    let mut disk = MemoryDisk::new(rt.alloc(), &[], &[])?;
    let mut streams = streams_of(rt.alloc(), SCRIPT, in_pieces(OF_A_BATCH))?;
    let (made, docked) = runs_script(rt.alloc(), &mut disk, &mut streams)?;
    // Further calls, so that a stop after the last call of the script is tested too.
    says(
        rt.alloc(),
        &mut disk,
        "check",
        b"",
        "journal 3 batches 3 facts\n",
    )?;
    for call in made..=docked {
        let least = receipted(streams.output(), clock_before(&disk, call)?);
        stops(rt.alloc(), &disk, call, least)?;
    }
    Ok(())
}
