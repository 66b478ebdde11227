use crate::runs::{
    BATCH, CALM, CUT, DAMAGED, EMPTY, EVERY_KIND, FOLLOWED, Manner, NEVER, NEXT, ONE, OTHER, Row,
    Streams, TWICE, UNIT, WITHOUT_GATE, WRONG, ends, ends_on, failing, has_told, ran, says,
    streams_of, was_put,
};
use disk_model::MemoryDisk;
use std::alloc::Global;
use std::test::Fail;
use test_kit::is;

// Rows of a run, and the length of the journal after each.
pub const ONCE: [(Row, usize); 10] = [
    (("dock", b"", 7, "", "not a journal\n"), 0),
    (("init", b"", 0, "", ""), 17),
    (("init", b"", 9, "", "not empty\n"), 17),
    (("dock", b"", 0, "", ""), 17),
    (("dock", BATCH, 0, "receipt 7 12 1\n", ""), 42),
    (("dock", BATCH, 0, "receipt 7 12 1\n", ""), 42),
    (("dock", OTHER, 0, "conflict 1\n", ""), 42),
    (("dock", NEXT, 0, "receipt 7 13 2\n", ""), 67),
    (("dock", BATCH, 0, "receipt 7 12 1\n", ""), 67),
    (("check", BATCH, 0, "journal 2 batches 2 facts\n", ""), 67),
];

// Checks the result of a run, and the length of the journal after it.
fn keeps(alloc: Global, disk: &mut MemoryDisk, row: &Row, length: usize) -> Result<(), Fail> {
    ends(alloc, disk, CALM, row)?;
    is(disk.bytes().len() == length, row.0)
}

#[test]
fn a_batch_is_docked_once(rt: HostRuntime) -> Result<(), Fail> {
    let mut disk = MemoryDisk::new(rt.alloc(), &[], &[])?;
    for (row, length) in &ONCE {
        keeps(rt.alloc(), &mut disk, row, *length)?;
    }
    Ok(())
}

#[test]
fn a_handheld_enters_no_equipment(rt: HostRuntime) -> Result<(), Fail> {
    let row: Row = ("dock", EVERY_KIND, 0, "denied 1 16 P1\n", "");
    ends_on(rt.alloc(), EMPTY, &row, 17)
}

// Lines of words that are not a command. The first line has no words, and the ninth has an empty word.
const NO_COMMANDS: &str = "
dock x
init init
undock
doc
DOCK
\x20
--help
import 1
import 1 unit
import 01 units
import 4000000001 units
import -1 components
import 1 units units
imports 1 units
import -- units
import 1 -
check --
check --help
check now
drain -x
show
show due 1
show due 256 2024-02-28
show due 01 2024-02-28
show due 1 2024-02-30
show due 1 8 2024-02-28
show percent 1 2024-02-28
show percent 1 65536 2024-02-28
show percent 1 2024-02-28 16
show route 1 16 2024-02-28
shown due 1 2024-02-28
show --help 1 2024-02-28
show due -h 2024-02-28
show due 1 --
show route 1 2024-02-28 -16";

// Checks that words are not a command, and that neither the input nor the disk is read.
fn is_no_command(alloc: Global, line: &str) -> Result<(), Fail> {
    let mut disk = MemoryDisk::new(alloc, EMPTY, &[])?;
    let row: Row = (line, BATCH, 2, "", "usage: ldar JOURNAL COMMAND\n");
    let takes = ends(alloc, &mut disk, CALM, &row)?;
    is(takes == 0 && disk.calls() == 0, line)
}

#[test]
fn words_outside_the_command_set_touch_nothing(rt: HostRuntime) -> Result<(), Fail> {
    for line in NO_COMMANDS.split('\n') {
        is_no_command(rt.alloc(), line)?;
    }
    Ok(())
}

// An input, and the length of the journal after it.
const INPUTS: [(Row, usize); 4] = [
    (("dock", CUT, 8, "", "input cut: 19 bytes left\n"), 17),
    (
        ("dock", TWICE, 0, "receipt 7 12 1\nreceipt 7 12 1\n", ""),
        42,
    ),
    (
        ("dock", WRONG, 8, "receipt 7 12 1\n", "bad input at 20\n"),
        42,
    ),
    (("dock", b"no batch", 8, "", "bad input at 0\n"), 17),
];

#[test]
fn an_input_is_docked_up_to_where_it_is_no_batch(rt: HostRuntime) -> Result<(), Fail> {
    for (row, length) in &INPUTS {
        ends_on(rt.alloc(), EMPTY, row, *length)?;
    }
    Ok(())
}

// Checks the result of a run and that it does not change the disk. Returns how often it read the input.
fn leaves(alloc: Global, bytes: &[u8], row: &Row) -> Result<u64, Fail> {
    let mut disk = MemoryDisk::new(alloc, bytes, &[])?;
    let takes = ends(alloc, &mut disk, CALM, row)?;
    is(disk.bytes() == bytes, row.0)?;
    Ok(takes)
}

// Checks that these bytes are refused before the input is read.
pub fn refuses(alloc: Global, bytes: &[u8], noted: &str) -> Result<(), Fail> {
    for line in ["check", "dock", "show due 1 2024-02-28"] {
        let takes = leaves(alloc, bytes, &(line, b"", 7, "", noted))?;
        is(takes == 0, line)?;
    }
    Ok(())
}

#[test]
fn what_is_no_journal_is_noted_and_left_alone(rt: HostRuntime) -> Result<(), Fail> {
    refuses(rt.alloc(), b"LDARJ", "not a journal\n")?;
    refuses(rt.alloc(), DAMAGED, "damaged journal at 16\n")?;
    refuses(rt.alloc(), WITHOUT_GATE, "damaged journal at 41\n")
}

const OF_ONE: [Row; 3] = [
    ("check", b"", 0, "journal 1 batches 1 facts\n", ""),
    ("dock", b"", 0, "", ""),
    ("show due 1 2024-02-28", b"", 11, "", "no such unit\n"),
];

#[test]
fn what_a_crash_left_behind_a_journal_is_left_alone(rt: HostRuntime) -> Result<(), Fail> {
    for row in &OF_ONE {
        leaves(rt.alloc(), ONE, row)?;
        leaves(rt.alloc(), FOLLOWED, row)?;
    }
    Ok(())
}

const VIEWS: [Row; 6] = [
    ("show tags 9 2024-02-20", BATCH, 11, "", "no such unit\n"),
    ("show due 2 2024-01-14", BATCH, 11, "", "no such unit\n"),
    (
        "show route 2 2024-02-20 0",
        BATCH,
        11,
        "",
        "no such stops\n",
    ),
    (
        "show percent 2 0 2024-02-20",
        BATCH,
        11,
        "",
        "no such quarter\n",
    ),
    (
        "show report 2 0 2024-02-20",
        BATCH,
        11,
        "",
        "no such half\n",
    ),
    (
        "show delays 2 2024-02-20",
        BATCH,
        0,
        "delays 2 2024-02-20\nend 0\n",
        "",
    ),
];

#[test]
fn a_view_is_shown_or_there_is_none(rt: HostRuntime) -> Result<(), Fail> {
    let mut disk = MemoryDisk::new(rt.alloc(), EMPTY, &[])?;
    says(rt.alloc(), &mut disk, "dock", UNIT, "receipt 0 2 1\n")?;
    for row in &VIEWS {
        let takes = leaves(rt.alloc(), disk.bytes(), row)?;
        is(takes == 0, row.0)?;
    }
    Ok(())
}

// The failing call of the input, of the output and of the notes; the status, the output and the notes.
const FAULTS: [(u64, u64, u64, u8, &str, &str); 5] = [
    (0, NEVER, NEVER, 3, "", "read fault\n"),
    (0, NEVER, 0, 4, "", ""),
    (NEVER, 0, NEVER, 4, "", "write fault\n"),
    (NEVER, 0, 0, 4, "", ""),
    (NEVER, 1, 0, 0, "receipt 7 12 1\n", ""),
];

// Checks the result of docking a batch.
fn docks(alloc: Global, manner: Manner, status: u8, output: &str, noted: &str) -> Result<(), Fail> {
    let mut disk = MemoryDisk::new(alloc, EMPTY, &[])?;
    ends(
        alloc,
        &mut disk,
        manner,
        &("dock", BATCH, status, output, noted),
    )?;
    Ok(())
}

#[test]
fn a_fault_of_a_stream_is_told(rt: HostRuntime) -> Result<(), Fail> {
    for (take, put, note, status, output, noted) in FAULTS {
        docks(rt.alloc(), failing(take, put, note), status, output, noted)?;
    }
    Ok(())
}

// Whether a disk error was reported, by the status or as a reply.
fn has_told_a_fault(streams: &Streams, got: u8) -> bool {
    match got {
        5 => was_put(streams.output(), ""),
        0 => was_put(streams.output(), "disk fault\n"),
        _ => false,
    }
}

// Checks that a run reports a disk error.
fn tells_faults(alloc: Global, disk: &mut MemoryDisk, line: &str) -> Result<(), Fail> {
    let before = disk.faults();
    let mut streams = streams_of(alloc, BATCH, CALM)?;
    let got = ran(alloc, disk, &mut streams, line)?;
    is(
        disk.faults() == before || has_told_a_fault(&streams, got),
        line,
    )
}

// Checks that a batch gets a receipt, unless a call of the disk fails.
fn receipts(alloc: Global, disk: &mut MemoryDisk) -> Result<(), Fail> {
    let before = disk.faults();
    let mut streams = streams_of(alloc, BATCH, CALM)?;
    let got = ran(alloc, disk, &mut streams, "dock")?;
    is(
        disk.faults() > before || has_told(&streams, (got, 0), "receipt 7 12 1\n", ""),
        "dock",
    )
}

// Checks that after an error of this call, batches are kept again.
fn passes_over(alloc: Global, call: u64) -> Result<(), Fail> {
    let mut disk = MemoryDisk::new(alloc, &[], &[call])?;
    tells_faults(alloc, &mut disk, "init")?;
    tells_faults(alloc, &mut disk, "dock")?;
    if call > 2 {
        receipts(alloc, &mut disk)?;
    }
    Ok(())
}

#[test]
fn a_fault_of_the_disk_is_told_where_its_call_was_made(rt: HostRuntime) -> Result<(), Fail> {
    // `init` reads, writes and syncs. `dock` syncs and reads before it reads its input; later errors are replies.
    for call in 0..12 {
        passes_over(rt.alloc(), call)?;
    }
    Ok(())
}

// Batch 1 of handheld 2: a reading of valve 1, which is not in the register.
const UNKNOWN: &[u8] = b"B\0\x02\0\0\0\x01\0\x01\x0aM=\x02g\0\x01\0\x01\0\x01\x01\0\0\x02l\0\0\0\0";

#[test]
fn a_reading_of_an_unknown_valve_is_denied(rt: HostRuntime) -> Result<(), Fail> {
    let row: Row = ("dock", UNKNOWN, 0, "denied 1 1 60.486a(e)(1)\n", "");
    ends_on(rt.alloc(), EMPTY, &row, 17)
}
