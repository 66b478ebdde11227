use crate::hostile::COUNTS;
use crate::runs::{EMPTY, Manner, NEVER, OF_A_BATCH, ends, says};
use crate::stops::THREE;
use disk_model::MemoryDisk;
use std::alloc::Global;
use std::test::Fail;

// The output for the first 0, 1, 2 and 3 of the batches 12 to 14.
const FIRST: [&str; 4] = [
    "",
    "receipt 7 12 1\n",
    "receipt 7 12 1\nreceipt 7 13 2\n",
    "receipt 7 12 1\nreceipt 7 13 2\nreceipt 7 14 3\n",
];

// The failing call of the input and of the output, the status, the notes, and how many batches are answered and kept. A batch
// is kept before its line is written.
const FAULTS: [(u64, u64, u8, &str, usize, usize); 8] = [
    (0, NEVER, 3, "read fault\n", 0, 0),
    (1, NEVER, 3, "read fault\n", 1, 1),
    (2, NEVER, 3, "read fault\n", 2, 2),
    (3, NEVER, 3, "read fault\n", 3, 3),
    (NEVER, 0, 4, "write fault\n", 0, 1),
    (NEVER, 1, 4, "write fault\n", 1, 2),
    (NEVER, 2, 4, "write fault\n", 2, 3),
    (4, 3, 0, "", 3, 3),
];

// Checks the result of `dock` over the three batches, and how many of them are answered and kept.
fn ends_so(
    alloc: Global,
    manner: Manner,
    ended: (u8, &str),
    answered: usize,
    kept: usize,
) -> Result<(), Fail> {
    let mut disk = MemoryDisk::new(alloc, EMPTY, &[])?;
    let said = FIRST.get(answered).ok_or("a text")?;
    let row = ("dock", THREE, ended.0, *said, ended.1);
    ends(alloc, &mut disk, manner, &row)?;
    let count = COUNTS.get(kept).ok_or("a text")?;
    says(alloc, &mut disk, "check", b"", count)
}

#[test]
fn a_fault_of_a_stream_leaves_what_was_answered(rt: HostRuntime) -> Result<(), Fail> {
    for (take, put, status, noted, answered, kept) in FAULTS {
        let manner = Manner {
            piece: OF_A_BATCH,
            take,
            put,
            note: NEVER,
        };
        ends_so(rt.alloc(), manner, (status, noted), answered, kept)?;
    }
    Ok(())
}
