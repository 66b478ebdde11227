ghost use Rattle.std.specs.Prelude.{◌<◌, ◌≤◌, length};

use crate::offices::{EMPTY, WITH_TWELVE};
use disk_model::MemoryDisk;
use ldar_ports::{Ended, FinishedConnection, Front, ListFront, ListSource, StampedSink};
use office_server::serve;
use std::alloc::{AllocError, Global};
use std::sync::Wait;
use std::test::Fail;
use std::thread::Threads;
use test_kit::{is, pieces_of, words_of};

// A request of handheld 7 to keep a batch, and one of handheld 8.
pub const SEVEN: &[u8] =
    b"POST /sync HTTP/1.1\r\nHost: office\r\nContent-Length: 116\r\n\r\n{\"handheld\":7,\"number\":12,\"facts\":[{\"kind\":\"calibration\",\"day\":\"2024-02-20\",\"minute\":600,\"instrument\":1,\"gas\":500}]}";

pub const EIGHT: &[u8] =
    b"POST /sync HTTP/1.1\r\nHost: office\r\nContent-Length: 115\r\n\r\n{\"handheld\":8,\"number\":3,\"facts\":[{\"kind\":\"calibration\",\"day\":\"2024-02-20\",\"minute\":600,\"instrument\":1,\"gas\":500}]}";

// The responses to them in an office without batches, if the request of handheld 7 comes first.
const RECEIPT_OF_SEVEN: &[u8] =
    b"HTTP/1.1 200 OK\r\nContent-Type: text/plain\r\nContent-Length: 15\r\n\r\nreceipt 7 12 1\n";

const RECEIPT_OF_EIGHT: &[u8] =
    b"HTTP/1.1 200 OK\r\nContent-Type: text/plain\r\nContent-Length: 14\r\n\r\nreceipt 8 3 2\n";

// Serves the office of a journal to the connections of fronts, and returns the exit status.
pub fn serve_to<R: Threads + Wait + Sync, L: Front + Send>(
    rt: &R,
    alloc: Global,
    words: &str,
    fronts: &mut [L],
    disk: &mut MemoryDisk,
) -> u8
where
    L::In: Send,
    L::Out: Send,
    requires some { 0 < length fronts.old }
    requires most { length fronts.old ≤ 64 }
{
    match words_of(alloc, words) {
        Ok(words) => serve(rt, alloc, &words, fronts, disk),
        Err(_) => 6,
    }
}

// The source of a connection, from which these bytes come in pieces of a size.
pub fn source_of(alloc: Global, bytes: &[u8], size: usize) -> Result<ListSource, AllocError> {
    let pieces = pieces_of(alloc, bytes, size)?;
    ListSource::new(alloc, &pieces, &[])
}

// A front of connections with a request each, on which the calls with these numbers fail.
fn front_of(alloc: Global, requests: &[&[u8]], failing: &[u64]) -> Result<ListFront, AllocError> {
    let mut connections = Vec::new(alloc);
    for request in requests {
        let source = source_of(alloc, request, 100)?;
        connections.push((source, StampedSink::new(alloc, &[])?))?;
    }
    ListFront::new(alloc, connections, failing)
}

// Whether a connection had this response, and its input was read to the end.
fn has_response(
    alloc: Global,
    connection: &FinishedConnection,
    response: &[u8],
) -> Result<bool, AllocError> {
    let written = connection.sink().bytes(alloc)?;
    Ok(connection.ended() == Ended::Done && written.as_slice() == response)
}

// Checks that a front counted this many errors, and that these are the responses of the connections that it got back.
fn has_responses(
    alloc: Global,
    front: &ListFront,
    faults: u64,
    responses: &[&[u8]],
) -> Result<(), Fail> {
    is(front.faults() == faults, "the errors of a front")?;
    is(
        front.done().len() == responses.len(),
        "the number of connections",
    )?;
    for (connection, response) in front.done().iter().zip(responses) {
        is(has_response(alloc, connection, response)?, "a response")?;
    }
    Ok(())
}

// Checks a status and the bytes of a journal.
fn has_left(found: (u8, &[u8]), want: (u8, &[u8])) -> Result<(), Fail> {
    is(found.0 == want.0, "the status")?;
    is(found.1 == want.1, "the journal")
}

// Checks that the request of handheld 7 is answered and its batch kept, on a front whose calls with these numbers fail.
fn serve_seven<R: Threads + Wait + Sync>(
    rt: &R,
    alloc: Global,
    failing: &[u64],
    status: u8,
) -> Result<(), Fail> {
    let mut disk = MemoryDisk::new(alloc, &EMPTY, &[])?;
    let mut fronts = [front_of(alloc, &[SEVEN], failing)?];
    let found = serve_to(rt, alloc, "serve 8080 1", &mut fronts, &mut disk);
    has_left((found, disk.bytes()), (status, &WITH_TWELVE))?;
    has_responses(alloc, &fronts[0], failing.len() as u64, &[RECEIPT_OF_SEVEN])
}

#[test]
fn a_connection_is_answered_though_the_front_fails_after_it(rt: HostRuntime) -> Result<(), Fail> {
    serve_seven(&rt, rt.alloc(), &[], 0)?;
    serve_seven(&rt, rt.alloc(), &[1], 12)
}

// Checks that the second of two fronts was served, and that the first failed.
fn second_was_served(alloc: Global, status: u8, fronts: &[ListFront; 2]) -> Result<(), Fail> {
    is(status == 12, "the status")?;
    has_responses(alloc, &fronts[0], 1, &[])?;
    has_responses(alloc, &fronts[1], 0, &[RECEIPT_OF_SEVEN, RECEIPT_OF_EIGHT])
}

#[test]
fn the_other_front_is_served_if_one_fails(rt: HostRuntime) -> Result<(), Fail> {
    let alloc = rt.alloc();
    let mut disk = MemoryDisk::new(alloc, &EMPTY, &[])?;
    let failing = front_of(alloc, &[SEVEN], &[0])?;
    let mut fronts = [failing, front_of(alloc, &[SEVEN, EIGHT], &[])?];
    let status = serve_to(&rt, alloc, "serve 8080 2", &mut fronts, &mut disk);
    second_was_served(alloc, status, &fronts)
}

// A journal with one frame, whose payload does not begin as a batch.
const DAMAGED: [u8; 42] = *b"LDARJNL1\0\0\0\0\0\0\0\0\x01\0\0\0\x14\
    \x43\0\x07\0\0\0\x0c\0\x01\x07\x4d\x3d\x02\x58\0\x01\0\0\x01\xf4\0";

// Words, the bytes on the disk and its calls that fail, with which nobody is served, and the status.
const REFUSALS: [(&str, &[u8], &[u64], u8); 5] = [
    ("serve 8080 1", b"LDAR?", &[], 7),
    ("serve 8080 1", &DAMAGED, &[], 7),
    ("serve 8080 1", &EMPTY, &[0], 5),
    ("serve 8080 2", &EMPTY, &[], 2),
    ("serve 0 1", &EMPTY, &[], 2),
];

// Checks that no connection was accepted, since the first one is still there.
fn has_accepted_none(alloc: Global, front: &mut ListFront) -> Result<(), Fail> {
    has_responses(alloc, front, 0, &[])?;
    is(matches!(front.accept(), Ok(Some(_))), "the connection")
}

// Checks the status, that no connection was accepted, and that the bytes on the disk are unchanged.
fn refuses<R: Threads + Wait + Sync>(
    rt: &R,
    alloc: Global,
    words: &str,
    bytes: &[u8],
    failing: &[u64],
    status: u8,
) -> Result<(), Fail> {
    let mut disk = MemoryDisk::new(alloc, bytes, failing)?;
    let mut fronts = [front_of(alloc, &[SEVEN], &[])?];
    let found = serve_to(rt, alloc, words, &mut fronts, &mut disk);
    has_left((found, disk.bytes()), (status, bytes))?;
    has_accepted_none(alloc, &mut fronts[0])
}

#[test]
fn nobody_is_served_without_an_office(rt: HostRuntime) -> Result<(), Fail> {
    for (words, bytes, failing, status) in REFUSALS {
        refuses(&rt, rt.alloc(), words, bytes, failing, status)?;
    }
    Ok(())
}
