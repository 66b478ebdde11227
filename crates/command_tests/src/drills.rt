//! `drill`: its text, words that are no drill, and disks that are not empty.

use crate::runs::{EMPTY, Row, ends_on, says};
use disk_model::MemoryDisk;
use std::test::Fail;

// What a drill with one valve prints.
const TEXT: &str = "drill 1 1\nbatches 13 facts 38\ntags 0 open 0\ndue 1\n\
    percent 1 4 leaking 0 monitored 1 good not skipped\n";

#[test]
fn a_drill_prints_its_text_and_leaves_its_journal(rt: HostRuntime) -> Result<(), Fail> {
    let mut disk = MemoryDisk::new(rt.alloc(), &[], &[])?;
    says(rt.alloc(), &mut disk, "drill 1 1", &[], TEXT)?;
    says(
        rt.alloc(),
        &mut disk,
        "check",
        &[],
        "journal 13 batches 38 facts\n",
    )
}

// Words that are no drill.
const WRONG: [&str; 6] = [
    "drill 0 1",
    "drill 1 0",
    "drill 10000 1",
    "drill 1 20001",
    "drill 01 1",
    "drill 1",
];

#[test]
fn other_words_are_no_drill(rt: HostRuntime) -> Result<(), Fail> {
    for line in WRONG {
        let row: Row = (line, &[], 2, "", "usage: ldar JOURNAL COMMAND\n");
        ends_on(rt.alloc(), &[], &row, 0)?;
    }
    Ok(())
}

#[test]
fn a_drill_wants_an_empty_disk(rt: HostRuntime) -> Result<(), Fail> {
    let row: Row = ("drill 1 1", &[], 9, "", "not empty\n");
    ends_on(rt.alloc(), EMPTY, &row, 17)?;
    ends_on(rt.alloc(), b"x", &row, 1)
}
