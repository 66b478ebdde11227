use crate::batches::refuses;
use crate::runs::{BATCH, ONE, TWICE, ends_on, says};
use crate::stops::seventeen;
use disk_model::MemoryDisk;
use std::alloc::Global;
use std::test::Fail;

// A journal that ends before a gate, then an open frame with this payload, and a closed gate.
fn framed(alloc: Global, front: &[u8], payload: &[u8]) -> Result<Vec<u8>, Fail> {
    let [_, high, middle, low] = ((payload.len() % 4_294_967_296) as u32).to_be_bytes();
    let mut bytes = Vec::from_slice(alloc, front)?;
    bytes.extend_from_slice(&[1, high, middle, low])?;
    bytes.extend_from_slice(payload)?;
    bytes.push(0)?;
    Ok(bytes)
}

// The header, and a journal with batch 12 up to its gate at 41.
const HEADER: &[u8] = b"LDARJNL1\0\0\0\0\0\0\0\0";

const UP_TO_GATE: &[u8] = b"LDARJNL1\0\0\0\0\0\0\0\0\x01\0\0\0\x14\
    \x42\0\x07\0\0\0\x0c\0\x01\x07\x4d\x3d\x02\x58\0\x01\0\0\x01\xf4";

#[test]
fn a_frame_that_may_not_be_is_told_with_its_place(rt: HostRuntime) -> Result<(), Fail> {
    let alloc = rt.alloc();
    // An empty payload, one byte more than a frame can have, 17 batches, and one batch twice.
    let zeros = vec![in alloc; 0; 188_561]?;
    let many = seventeen(alloc)?;
    for payload in [b"".as_slice(), zeros.as_slice(), many.as_slice(), TWICE] {
        let bytes = framed(alloc, HEADER, payload)?;
        refuses(alloc, &bytes, "damaged journal at 16\n")?;
    }
    // A batch that is repeated in a second frame, and an open gate with nothing after it.
    refuses(
        alloc,
        &framed(alloc, UP_TO_GATE, BATCH)?,
        "damaged journal at 41\n",
    )?;
    let mut open = Vec::from_slice(alloc, UP_TO_GATE)?;
    open.push(1)?;
    refuses(alloc, &open, "damaged journal at 41\n")
}

#[test]
fn a_frame_cut_at_each_byte_is_told_with_its_place(rt: HostRuntime) -> Result<(), Fail> {
    for length in 16..UP_TO_GATE.len() {
        let front = UP_TO_GATE.get(..length).unwrap_or(&[]);
        let row = ("check", b"".as_slice(), 7, "", "damaged journal at 16\n");
        ends_on(rt.alloc(), front, &row, length)?;
    }
    refuses(rt.alloc(), UP_TO_GATE, "damaged journal at 41\n")
}

#[test]
fn what_follows_a_closed_gate_does_not_count(rt: HostRuntime) -> Result<(), Fail> {
    // Bytes that would be an open frame if the gate before them were open.
    let mut bytes = Vec::from_slice(rt.alloc(), ONE)?;
    bytes.extend_from_slice(&framed(rt.alloc(), b"", BATCH)?)?;
    let mut disk = MemoryDisk::new(rt.alloc(), &bytes, &[])?;
    says(
        rt.alloc(),
        &mut disk,
        "check",
        b"",
        "journal 1 batches 1 facts\n",
    )
}
