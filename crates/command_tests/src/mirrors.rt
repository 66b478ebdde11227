//! `offer` and `mirror`: answers in bytes, answers that are lost, repeated, out of order or cut, disk errors, and stops at each call.

use crate::runs::{BATCH, CALM, EMPTY, ONE, OTHER, Row, ends, ends_on, ran, says, streams_of};
use crate::stops::{THREE, seventeen, stopped};
use disk_model::{Disk, MemoryDisk};
use std::alloc::{AllocError, Global};
use std::test::Fail;
use test_kit::{is, same};

// An answer of these batches, of which there are `count`, after the first `start` of the office.
fn answer(alloc: Global, start: u32, count: u8, batches: &[u8]) -> Result<Vec<u8>, AllocError> {
    let mut bytes = Vec::from_slice(alloc, b"M")?;
    bytes.extend_from_slice(&start.to_be_bytes())?;
    bytes.push(count)?;
    bytes.extend_from_slice(batches)?;
    Ok(bytes)
}

// What a run with these words writes if it succeeds.
fn written(
    alloc: Global,
    disk: &mut MemoryDisk,
    line: &str,
    input: &[u8],
) -> Result<Vec<u8>, Fail> {
    let mut streams = streams_of(alloc, input, CALM)?;
    let got = ran(alloc, disk, &mut streams, line)?;
    same(line, &got, &0)?;
    Ok(streams.output().bytes(alloc)?)
}

// The answers of an office over these batches, from the first one on.
fn answers_of(alloc: Global, batches: &[u8]) -> Result<Vec<u8>, Fail> {
    let mut disk = MemoryDisk::new(alloc, EMPTY, &[])?;
    written(alloc, &mut disk, "dock", batches)?;
    written(alloc, &mut disk, "offer 0", b"")
}

#[test]
fn an_office_offers_what_a_mirror_lacks(rt: HostRuntime) -> Result<(), Fail> {
    let alloc = rt.alloc();
    let mut disk = MemoryDisk::new(alloc, ONE, &[])?;
    let offered = written(alloc, &mut disk, "offer 0", b"")?;
    let wanted = answer(alloc, 0, 1, BATCH)?;
    is(offered == wanted, "one answer of 26 bytes")?;
    says(alloc, &mut disk, "offer 1", b"", "")?;
    let beyond: Row = ("offer 2", b"", 11, "", "no such position 2\n");
    ends_on(alloc, ONE, &beyond, 42)?;
    let unread: Row = ("offer 8000001", b"", 2, "", "usage: ldar JOURNAL COMMAND\n");
    ends_on(alloc, ONE, &unread, 42)
}

#[test]
fn an_answer_is_mirrored_once(rt: HostRuntime) -> Result<(), Fail> {
    let alloc = rt.alloc();
    let once = answer(alloc, 0, 1, BATCH)?;
    let mut twice = once.clone()?;
    twice.extend_from_slice(&once)?;
    let mirrored: Row = ("mirror", &twice, 0, "mirrored 1\nmirrored 1\n", "");
    ends_on(alloc, EMPTY, &mirrored, 42)?;
    let late = answer(alloc, 5, 1, BATCH)?;
    let gap: Row = ("mirror", &late, 0, "gap 5 0\n", "");
    ends_on(alloc, EMPTY, &gap, 17)?;
    let last = answer(alloc, u32::MAX, 1, BATCH)?;
    let gap: Row = ("mirror", &last, 0, "gap 4294967295 0\n", "");
    ends_on(alloc, EMPTY, &gap, 17)?;
    let other = answer(alloc, 0, 1, OTHER)?;
    let strange: Row = ("mirror", &other, 11, "", "stranger 1\n");
    ends_on(alloc, ONE, &strange, 42)
}

// Answers that are none, and the place of their first wrong byte.
const WRONG: [(&[u8], &str); 3] = [
    (b"B", "bad input at 0\n"),
    (b"M\0\0\0\0\0", "bad input at 5\n"),
    (b"M\0\0\0\0\x11", "bad input at 5\n"),
];

#[test]
fn what_is_no_answer_is_refused(rt: HostRuntime) -> Result<(), Fail> {
    for (input, note) in WRONG {
        let row: Row = ("mirror", input, 8, "", note);
        ends_on(rt.alloc(), EMPTY, &row, 17)?;
    }
    Ok(())
}

#[test]
fn an_answer_is_cut_at_each_byte(rt: HostRuntime) -> Result<(), Fail> {
    let alloc = rt.alloc();
    let whole = answer(alloc, 0, 3, THREE)?;
    for length in 1..whole.len() {
        let note = format!(in alloc; "input cut: {length} bytes left\n")?;
        let input = whole.get(..length).unwrap_or(&[]);
        let row: Row = ("mirror", input, 8, "", &note);
        ends_on(alloc, EMPTY, &row, 17)?;
    }
    let row: Row = ("mirror", &whole, 0, "mirrored 3\n", "");
    let mut disk = MemoryDisk::new(alloc, EMPTY, &[])?;
    ends(alloc, &mut disk, CALM, &row)?;
    says(
        alloc,
        &mut disk,
        "check",
        b"",
        "journal 3 batches 3 facts\n",
    )
}

#[test]
fn a_mirror_of_a_mirror_offers_the_same(rt: HostRuntime) -> Result<(), Fail> {
    let alloc = rt.alloc();
    let offered = answers_of(alloc, &seventeen(alloc)?)?;
    let mut mirror = MemoryDisk::new(alloc, EMPTY, &[])?;
    let lines = "mirrored 16\nmirrored 17\n";
    says(alloc, &mut mirror, "mirror", &offered, lines)?;
    let again = written(alloc, &mut mirror, "offer 0", b"")?;
    is(again == offered, "the same answers")?;
    let mut second = MemoryDisk::new(alloc, EMPTY, &[])?;
    says(alloc, &mut second, "mirror", &again, lines)
}

// The number of disk calls of a mirror that reads nothing.
fn calls_of_opening(alloc: Global) -> Result<u64, Fail> {
    let mut disk = MemoryDisk::new(alloc, EMPTY, &[])?;
    says(alloc, &mut disk, "mirror", b"", "")?;
    Ok(disk.calls())
}

#[test]
fn an_answer_in_doubt_is_settled(rt: HostRuntime) -> Result<(), Fail> {
    let alloc = rt.alloc();
    let once = answer(alloc, 0, 1, BATCH)?;
    let mut twice = once.clone()?;
    twice.extend_from_slice(&once)?;
    let opening = calls_of_opening(alloc)?;
    // The frame is written, synced, its gate is written, and synced.
    for call in 0..4u64 {
        let failing = [opening.saturating_add(call)];
        let mut disk = MemoryDisk::new(alloc, EMPTY, &failing)?;
        says(
            alloc,
            &mut disk,
            "mirror",
            &twice,
            "disk fault\nmirrored 1\n",
        )?;
        says(
            alloc,
            &mut disk,
            "check",
            b"",
            "journal 1 batches 1 facts\n",
        )?;
    }
    Ok(())
}

// Checks a mirror that was stopped inside a call of its disk, and took the answer again.
fn catches_up(
    alloc: Global,
    disk: &MemoryDisk,
    call: u64,
    left: &[u8],
    offered: &[u8],
) -> Result<(), Fail> {
    let mut mirror = stopped(alloc, disk, call, left)?;
    says(alloc, &mut mirror, "mirror", offered, "mirrored 3\n")?;
    says(
        alloc,
        &mut mirror,
        "check",
        b"",
        "journal 3 batches 3 facts\n",
    )
}

#[test]
fn a_mirror_that_was_stopped_catches_up(rt: HostRuntime) -> Result<(), Fail> {
    let alloc = rt.alloc();
    let offered = answer(alloc, 0, 3, THREE)?;
    let mut disk = MemoryDisk::new(alloc, EMPTY, &[])?;
    written(alloc, &mut disk, "mirror", &offered)?;
    for call in 0..disk.calls() {
        catches_up(alloc, &disk, call, b"", &offered)?;
        catches_up(alloc, &disk, call, b"\x01", &offered)?;
    }
    Ok(())
}

// The batches of handheld 7 with numbers from 0 on, each with a calibration; and their number.
const SEVEN: u32 = 7;

fn batch(alloc: Global, number: u32) -> Result<Vec<u8>, AllocError> {
    let mut bytes = Vec::from_slice(alloc, b"\x42\0\x07")?;
    bytes.extend_from_slice(&number.to_be_bytes())?;
    bytes.extend_from_slice(b"\0\x01\x07\x4d\x3d\x02\x58\0\x01\0\0\x01\xf4")?;
    Ok(bytes)
}

// The n-th order of the numbers up to 6, from 0 to 5039: each number is put at a place among those before it.
fn order(alloc: Global, n: u32) -> Result<Vec<u32>, AllocError> {
    let places = [
        0,
        n % 2,
        (n / 2) % 3,
        (n / 6) % 4,
        (n / 24) % 5,
        (n / 120) % 6,
        (n / 720) % 7,
    ];
    let mut order = Vec::new(alloc);
    let mut number = 0u32;
    for place in places {
        let place = place as usize;
        if place <= order.len() {
            order.insert(place, number)?;
        }
        number = number.saturating_add(1);
    }
    Ok(order)
}

// Adds an answer of the batch with this number, and the line that a mirror writes for it. Returns how many batches it has then.
fn send(
    alloc: Global,
    input: &mut Vec<u8>,
    lines: &mut String,
    held: u32,
    number: u32,
) -> Result<u32, Fail> {
    input.extend_from_slice(&answer(alloc, number, 1, &batch(alloc, number)?)?)?;
    if number > held {
        lines.push_str(&format!(in alloc; "gap {number} {held}\n")?)?;
        return Ok(held);
    }
    let held = held.max(number.saturating_add(1));
    lines.push_str(&format!(in alloc; "mirrored {held}\n")?)?;
    Ok(held)
}

// Checks a mirror that gets the answers in the n-th order, one of them twice and one of them never, and then all in their order.
fn follows(alloc: Global, n: u32) -> Result<(), Fail> {
    let lost = n % 8;
    let doubled = (n / 8) % 7;
    let mut input = Vec::new(alloc);
    let mut lines = String::new(alloc);
    let mut held = 0;
    for number in &order(alloc, n)? {
        if *number != lost {
            held = send(alloc, &mut input, &mut lines, held, *number)?;
        }
        if *number == doubled {
            held = send(alloc, &mut input, &mut lines, held, *number)?;
        }
    }
    let mut disk = MemoryDisk::new(alloc, EMPTY, &[])?;
    says(alloc, &mut disk, "mirror", &input, &lines)?;
    let mut input = Vec::new(alloc);
    let mut lines = String::new(alloc);
    for number in 0..SEVEN {
        held = send(alloc, &mut input, &mut lines, held, number)?;
    }
    says(alloc, &mut disk, "mirror", &input, &lines)?;
    says(
        alloc,
        &mut disk,
        "check",
        b"",
        "journal 7 batches 7 facts\n",
    )
}

#[test]
fn answers_lost_doubled_and_out_of_order_are_mirrored(rt: HostRuntime) -> Result<(), Fail> {
    for n in 0..144u32 {
        follows(rt.alloc(), n.saturating_mul(35))?;
    }
    Ok(())
}
