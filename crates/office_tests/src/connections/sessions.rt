use crate::connections::{Manner, NEVER, Notebook, by, streams_of, was_put};
use ldar_ports::StampedSink;
use ldar_session::{Ended, session};
use std::alloc::{AllocError, Global};
use std::test::Fail;
use test_kit::is;

// A request with a batch of handheld 7, and one for a view after it.
const SYNC: &[u8] =
    b"POST /sync HTTP/1.1\r\nHost: office\r\nContent-Length: 116\r\n\r\n{\"handheld\":7,\"number\":12,\"facts\":[{\"kind\":\"calibration\",\"day\":\"2024-02-20\",\"minute\":600,\"instrument\":1,\"gas\":500}]}";

const VIEW: &[u8] = b"GET /percent/1/16/2024-03-31 HTTP/1.1\r\nHost: office\r\n\r\n";

const RECEIPT: &[u8] =
    b"HTTP/1.1 200 OK\r\nContent-Type: text/plain\r\nContent-Length: 16\r\n\r\nreceipt 7 12 12\n";

const NO_UNIT: &[u8] =
    b"HTTP/1.1 404 Not Found\r\nContent-Type: text/plain\r\nContent-Length: 13\r\n\r\nno such unit\n";

// Three lists of bytes, one after the other.
fn three(alloc: Global, first: &[u8], second: &[u8], third: &[u8]) -> Result<Vec<u8>, AllocError> {
    let mut bytes = Vec::from_slice(alloc, first)?;
    bytes.extend_from_slice(second)?;
    bytes.extend_from_slice(third)?;
    Ok(bytes)
}

// Checks how a session ends and what it writes, if the bytes arrive in pieces of a size.
fn speaks(
    alloc: Global,
    office: &mut Notebook,
    size: usize,
    bytes: &[u8],
    ends: (Ended, &[u8]),
) -> Result<(), Fail> {
    let mut streams = streams_of(alloc, bytes, by(size))?;
    let ended = session(alloc, office, &mut streams.source, &mut streams.sink);
    is(
        ended == ends.0 && was_put(&streams.sink, ends.1),
        "a session",
    )
}

// The same, with an office that has received no request.
fn speaks_anew(alloc: Global, size: usize, bytes: &[u8], ends: (Ended, &[u8])) -> Result<(), Fail> {
    speaks(alloc, &mut Notebook::new(), size, bytes, ends)
}

// Appends a request with a batch, whose handheld and number have one digit each.
fn add_sync(bytes: &mut Vec<u8>, handheld: u8, number: u8, field: &[u8]) -> Result<(), AllocError> {
    bytes.extend_from_slice(b"POST /sync HTTP/1.1\r\nContent-Length: 115\r\n")?;
    bytes.extend_from_slice(field)?;
    bytes.extend_from_slice(b"\r\n{\"handheld\":")?;
    bytes.push(handheld)?;
    bytes.extend_from_slice(b",\"number\":")?;
    bytes.push(number)?;
    bytes.extend_from_slice(
        b",\"facts\":[{\"kind\":\"calibration\",\"day\":\"2024-02-20\",\"minute\":600,\"instrument\":1,\"gas\":500}]}",
    )?;
    Ok(())
}

const SIZES: [usize; 10] = [1, 2, 3, 5, 57, 58, 59, 174, 230, 404];

#[test]
fn requests_in_pieces_of_any_size_have_the_same_answers(rt: HostRuntime) -> Result<(), Fail> {
    let bytes = three(rt.alloc(), SYNC, VIEW, SYNC)?;
    let want = three(rt.alloc(), RECEIPT, NO_UNIT, RECEIPT)?;
    for size in SIZES {
        speaks_anew(rt.alloc(), size, &bytes, (Ended::Done, want.as_slice()))?;
    }
    Ok(())
}

// Requests that are refused, and their answers.
const REFUSALS: [(&[u8], &[u8]); 7] = [
    (
        b"GET /sync HTTP/1.1\r\n\r\n",
        b"HTTP/1.1 405 Method Not Allowed\r\nContent-Type: text/plain\r\nContent-Length: 15\r\nAllow: POST\r\n\r\nno such method\n",
    ),
    (
        b"POST /due/1/2024-02-20 HTTP/1.1\r\nContent-Length: 0\r\n\r\n",
        b"HTTP/1.1 405 Method Not Allowed\r\nContent-Type: text/plain\r\nContent-Length: 15\r\nAllow: GET\r\n\r\nno such method\n",
    ),
    (
        b"GET /due/01/2024-02-20 HTTP/1.1\r\n\r\n",
        b"HTTP/1.1 404 Not Found\r\nContent-Type: text/plain\r\nContent-Length: 13\r\n\r\nno such unit\n",
    ),
    (
        b"GET /due/256/x HTTP/1.1\r\n\r\n",
        b"HTTP/1.1 404 Not Found\r\nContent-Type: text/plain\r\nContent-Length: 13\r\n\r\nno such unit\n",
    ),
    (
        b"GET /due/1/x HTTP/1.1\r\n\r\n",
        b"HTTP/1.1 404 Not Found\r\nContent-Type: text/plain\r\nContent-Length: 12\r\n\r\nno such day\n",
    ),
    (
        b"GET /nothing HTTP/1.1\r\n\r\n",
        b"HTTP/1.1 404 Not Found\r\nContent-Type: text/plain\r\nContent-Length: 13\r\n\r\nno such path\n",
    ),
    (
        b"POST /sync HTTP/1.1\r\nContent-Length: 2\r\n\r\n{}",
        b"HTTP/1.1 400 Bad Request\r\nContent-Type: text/plain\r\nContent-Length: 12\r\n\r\nbad request\n",
    ),
];

// Checks the response to a request, and that the next batch is kept.
fn refuses(alloc: Global, request: &[u8], answer: &[u8]) -> Result<(), Fail> {
    let bytes = three(alloc, request, SYNC, b"")?;
    let want = three(alloc, answer, RECEIPT, b"")?;
    let mut office = Notebook::new();
    speaks(
        alloc,
        &mut office,
        100,
        &bytes,
        (Ended::Done, want.as_slice()),
    )?;
    is(office.made == 1, "one call")
}

#[test]
fn each_refusal_has_its_answer(rt: HostRuntime) -> Result<(), Fail> {
    for (request, answer) in REFUSALS {
        refuses(rt.alloc(), request, answer)?;
    }
    Ok(())
}

// Bytes that end a session, and their answers.
const ENDS: [(&[u8], &[u8]); 3] = [
    (
        b"POST /sync HTTP/1.1\r\n\r\n",
        b"HTTP/1.1 411 Length Required\r\nContent-Type: text/plain\r\nContent-Length: 14\r\nConnection: close\r\n\r\nlength needed\n",
    ),
    (
        b"POST /sync HTTP/1.1\r\nContent-Length: 5\r\nContent-Length: 5\r\n\r\nabcde",
        b"HTTP/1.1 400 Bad Request\r\nContent-Type: text/plain\r\nContent-Length: 12\r\nConnection: close\r\n\r\nbad request\n",
    ),
    (
        b"POST /sync HTTP/1.1\r\nContent-Length: 262145\r\n\r\n",
        b"HTTP/1.1 413 Payload Too Large\r\nContent-Type: text/plain\r\nContent-Length: 10\r\nConnection: close\r\n\r\ntoo large\n",
    ),
];

// Checks that these bytes after a request end the session with this response.
fn end_it(alloc: Global, refused: &[u8], answer: &[u8]) -> Result<(), Fail> {
    let bytes = three(alloc, SYNC, refused, SYNC)?;
    let want = three(alloc, RECEIPT, answer, b"")?;
    for size in [1, 40, 1_000] {
        speaks_anew(
            alloc,
            size,
            &bytes,
            (Ended::Refused { at: 174 }, want.as_slice()),
        )?;
    }
    Ok(())
}

#[test]
fn refused_bytes_end_it(rt: HostRuntime) -> Result<(), Fail> {
    for (refused, answer) in ENDS {
        end_it(rt.alloc(), refused, answer)?;
    }
    Ok(())
}

const HEAD_TOO_LARGE: &[u8] =
    b"HTTP/1.1 431 Request Header Fields Too Large\r\nContent-Type: text/plain\r\nContent-Length: 15\r\nConnection: close\r\n\r\nhead too large\n";

#[test]
fn a_head_without_an_end_is_refused(rt: HostRuntime) -> Result<(), Fail> {
    let mut bytes = Vec::new(rt.alloc());
    bytes.resize(8_191, b'a')?;
    let cut = Ended::CutShort { got: 8_191 };
    speaks_anew(rt.alloc(), 100, &bytes, (cut, b"".as_slice()))?;
    bytes.push(b'a')?;
    let refused = Ended::Refused { at: 0 };
    speaks_anew(rt.alloc(), 100, &bytes, (refused, HEAD_TOO_LARGE))
}

const CLOSING: &[u8] =
    b"HTTP/1.1 404 Not Found\r\nContent-Type: text/plain\r\nContent-Length: 13\r\nConnection: close\r\n\r\nno such path\n";

#[test]
fn a_closing_request_is_the_last_that_is_answered(rt: HostRuntime) -> Result<(), Fail> {
    let bytes = three(rt.alloc(), SYNC, b"GET /nothing HTTP/1.0\r\n\r\n", SYNC)?;
    let want = three(rt.alloc(), RECEIPT, CLOSING, b"")?;
    speaks_anew(rt.alloc(), 1, &bytes, (Ended::Done, want.as_slice()))?;
    speaks_anew(rt.alloc(), 1_000, &bytes, (Ended::Done, want.as_slice()))
}

// Requests with batches, of one handheld or others, with a view and a request that closes the connection among them.
fn many_syncs(alloc: Global) -> Result<Vec<u8>, AllocError> {
    let mut bytes = Vec::new(alloc);
    for _ in 0..17 {
        add_sync(&mut bytes, b'7', b'2', b"")?;
    }
    add_sync(&mut bytes, b'0', b'2', b"")?;
    add_sync(&mut bytes, b'8', b'0', b"")?;
    add_sync(&mut bytes, b'7', b'1', b"")?;
    bytes.extend_from_slice(VIEW)?;
    add_sync(&mut bytes, b'7', b'3', b"")?;
    add_sync(&mut bytes, b'7', b'4', b"Connection: close\r\n")?;
    add_sync(&mut bytes, b'7', b'5', b"")?;
    Ok(bytes)
}

// The end of the responses to them.
const END: &[u8] =
    b"503 Service Unavailable\r\nContent-Type: text/plain\r\nContent-Length: 11\r\n\r\ndisk fault\nHTTP/1.1 422 Unprocessable Entity\r\nContent-Type: text/plain\r\nContent-Length: 25\r\n\r\ndenied 1 1 60.486a(e)(1)\nHTTP/1.1 404 Not Found\r\nContent-Type: text/plain\r\nContent-Length: 13\r\n\r\nno such unit\nHTTP/1.1 200 OK\r\nContent-Type: text/plain\r\nContent-Length: 14\r\n\r\nreceipt 7 3 3\nHTTP/1.1 200 OK\r\nContent-Type: text/plain\r\nContent-Length: 14\r\nConnection: close\r\n\r\nreceipt 7 4 4\n";

// Whether the written bytes end with these.
fn ends_with(alloc: Global, sink: &StampedSink, end: &[u8]) -> Result<bool, Fail> {
    Ok(sink.bytes(alloc)?.ends_with(end))
}

#[test]
fn batches_whose_requests_are_in_hand_are_asked_together(rt: HostRuntime) -> Result<(), Fail> {
    let bytes = many_syncs(rt.alloc())?;
    let mut streams = streams_of(rt.alloc(), &bytes, by(10_000))?;
    let mut office = Notebook::new();
    let ended = session(
        rt.alloc(),
        &mut office,
        &mut streams.source,
        &mut streams.sink,
    );
    let ends_so = ends_with(rt.alloc(), &streams.sink, END)?;
    is(
        ends_so && ended == Ended::Done && office.calls == [16, 1, 1, 2, 1, 2, 0, 0],
        "the calls",
    )
}

// The calls of the source and of the sink that fail, how the session ends, and the number of responses.
const FAULTS: [(u64, u64, Ended, usize); 7] = [
    (0, NEVER, Ended::ReadFault, 0),
    (1, NEVER, Ended::ReadFault, 1),
    (2, NEVER, Ended::ReadFault, 2),
    (NEVER, 0, Ended::WriteFault, 0),
    (NEVER, 1, Ended::WriteFault, 1),
    (NEVER, 2, Ended::WriteFault, 2),
    (NEVER, 3, Ended::Refused { at: 348 }, 3),
];

// Checks how a session ends and the number of its responses.
fn answers(
    alloc: Global,
    manner: Manner,
    bytes: &[u8],
    want: Ended,
    count: usize,
) -> Result<(), Fail> {
    let mut streams = streams_of(alloc, bytes, manner)?;
    let ended = session(
        alloc,
        &mut Notebook::new(),
        &mut streams.source,
        &mut streams.sink,
    );
    is(
        ended == want && streams.sink.pieces().len() == count,
        "a fault",
    )
}

#[test]
fn a_fault_of_the_streams_ends_a_session(rt: HostRuntime) -> Result<(), Fail> {
    let bytes = three(rt.alloc(), SYNC, SYNC, b"POST /sync HTTP/1.1\r\n\r\n")?;
    for (read, write, ended, count) in FAULTS {
        // One batch's request in each piece.
        let manner = Manner {
            piece: 174,
            read,
            write,
        };
        answers(rt.alloc(), manner, &bytes, ended, count)?;
    }
    Ok(())
}

// A request with a body of this many bytes, which begins with a batch of this many facts and ends with blanks.
fn long_sync(
    alloc: Global,
    facts: usize,
    length: &[u8],
    blanks: usize,
) -> Result<Vec<u8>, AllocError> {
    let mut bytes = three(
        alloc,
        b"POST /sync HTTP/1.1\r\nContent-Length: ",
        length,
        b"\r\n\r\n{\"handheld\":7,\"number\":12,\"facts\":[",
    )?;
    for n in 0..facts {
        if n > 0 {
            bytes.push(b',')?;
        }
        bytes.extend_from_slice(
            b"{\"kind\":\"calibration\",\"day\":\"2024-02-20\",\"minute\":600,\"instrument\":1,\"gas\":500}",
        )?;
    }
    bytes.extend_from_slice(b"]}")?;
    for _ in 0..blanks {
        bytes.push(b' ')?;
    }
    Ok(bytes)
}

#[test]
fn the_longest_body_is_read(rt: HostRuntime) -> Result<(), Fail> {
    // 35 bytes before the facts, 512 facts of 79 bytes with 511 commas, and 2 bytes after them.
    let blanks = 262_144 - 35 - 512 * 79 - 511 - 2;
    let bytes = long_sync(rt.alloc(), 512, b"262144", blanks)?;
    speaks_anew(rt.alloc(), 4_096, &bytes, (Ended::Done, RECEIPT))
}

const REFUSAL: &[u8] =
    b"HTTP/1.1 400 Bad Request\r\nContent-Type: text/plain\r\nContent-Length: 12\r\n\r\nbad request\n";

#[test]
fn a_body_of_513_facts_is_refused(rt: HostRuntime) -> Result<(), Fail> {
    let blanks = 262_144 - 35 - 513 * 79 - 512 - 2;
    let mut bytes = long_sync(rt.alloc(), 513, b"262144", blanks)?;
    bytes.extend_from_slice(SYNC)?;
    let want = three(rt.alloc(), REFUSAL, RECEIPT, b"")?;
    speaks_anew(rt.alloc(), 100_000, &bytes, (Ended::Done, want.as_slice()))
}
