use crate::batches::ONCE;
use crate::requests::CHANGED;
use crate::runs::{CALM, ends, says};
use disk_model::SureDisk;
use std::test::Fail;
use test_kit::is;

const CONFLICT: &str =
    "HTTP/1.1 409 Conflict\r\nContent-Type: text/plain\r\nContent-Length: 11\r\n\r\nconflict 1\n";

#[test]
fn a_batch_is_docked_once_in_1000_bytes(rt: HostRuntime) -> Result<(), Fail> {
    let mut disk = SureDisk::new(rt.alloc(), &[], 1_000)?;
    for (row, length) in &ONCE {
        ends(rt.alloc(), &mut disk, CALM, row)?;
        is(disk.bytes().len() == *length, row.0)?;
    }
    is(disk.faults() == 0, "a fault")?;
    says(rt.alloc(), &mut disk, "drain", CHANGED.as_bytes(), CONFLICT)
}
