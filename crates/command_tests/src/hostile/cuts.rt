use crate::hostile::bodies::{KEPT, longest};
use crate::requests::{ANSWERED, RECEIPT, SYNC, VIEWED};
use crate::runs::{CALM, EMPTY, ends};
use crate::views::docked;
use disk_model::MemoryDisk;
use std::alloc::Global;
use std::test::Fail;

// Checks the result of `drain` over an input whose first `whole` bytes are requests with these answers.
fn ends_cut(
    alloc: Global,
    journal: &[u8],
    input: &[u8],
    whole: usize,
    said: &str,
) -> Result<(), Fail> {
    let left = input.len().saturating_sub(whole);
    let note = format!(in alloc; "input cut: {left} bytes left\n")?;
    let (status, noted) = if left == 0 {
        (0, "")
    } else {
        (8, note.as_str())
    };
    let mut disk = MemoryDisk::new(alloc, journal, &[])?;
    ends(
        alloc,
        &mut disk,
        CALM,
        &("drain", input, status, said, noted),
    )?;
    Ok(())
}

// The number of bytes of whole requests in the first `length` bytes of an input with two requests, and their answers.
fn whole_in(length: usize) -> (usize, &'static str) {
    if length >= SYNC.len() + VIEWED.len() {
        return (SYNC.len() + VIEWED.len(), ANSWERED);
    }
    if length >= SYNC.len() {
        return (SYNC.len(), RECEIPT);
    }
    (0, "")
}

#[test]
fn two_requests_are_cut_at_each_byte(rt: HostRuntime) -> Result<(), Fail> {
    let base = docked(rt.alloc(), b"", "")?;
    let mut input = Vec::from_slice(rt.alloc(), SYNC.as_bytes())?;
    input.extend_from_slice(VIEWED.as_bytes())?;
    for length in 0..=input.len() {
        let front = input.get(..length).unwrap_or(&[]);
        let (whole, said) = whole_in(length);
        ends_cut(rt.alloc(), base.bytes(), front, whole, said)?;
    }
    Ok(())
}

// Checks the result of `drain` over the first bytes of an input, if they contain no whole request.
fn ends_within(alloc: Global, input: &[u8], length: usize) -> Result<(), Fail> {
    ends_cut(alloc, EMPTY, input.get(..length).unwrap_or(&[]), 0, "")
}

#[test]
fn the_longest_request_is_cut_in_its_head_and_body(rt: HostRuntime) -> Result<(), Fail> {
    let input = longest(rt.alloc(), 512)?;
    let head = input.len().saturating_sub(262_144);
    for length in 0..head {
        ends_within(rt.alloc(), &input, length)?;
    }
    for part in 0..64 {
        ends_within(rt.alloc(), &input, head.saturating_add(4_096 * part))?;
    }
    ends_cut(rt.alloc(), EMPTY, &input, input.len(), KEPT)
}
