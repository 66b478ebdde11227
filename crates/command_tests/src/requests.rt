use crate::runs::{ONE, Row, ends, in_pieces};
use crate::stops::calls_of_opening;
use crate::views::docked;
use disk_model::MemoryDisk;
use std::alloc::Global;
use std::test::Fail;
use test_kit::is;

// A request with batch 12 of handheld 7.
pub const SYNC: &str =
    "POST /sync HTTP/1.1\r\nHost: office\r\nContent-Length: 116\r\n\r\n{\"handheld\":7,\"number\":12,\"fa\
    cts\":[{\"kind\":\"calibration\",\"day\":\"2024-02-20\",\"minute\":600,\"instrument\":1,\"gas\":500}\
    ]}";

// The same batch number with 501 ppm.
pub const CHANGED: &str =
    "POST /sync HTTP/1.1\r\nHost: office\r\nContent-Length: 116\r\n\r\n{\"handheld\":7,\"number\":12,\"fa\
    cts\":[{\"kind\":\"calibration\",\"day\":\"2024-02-20\",\"minute\":600,\"instrument\":1,\"gas\":501}\
    ]}";

// Batch 13 of handheld 7.
const NEXT_SYNC: &str =
    "POST /sync HTTP/1.1\r\nHost: office\r\nContent-Length: 116\r\n\r\n{\"handheld\":7,\"number\":13,\"fa\
    cts\":[{\"kind\":\"calibration\",\"day\":\"2024-02-20\",\"minute\":600,\"instrument\":1,\"gas\":500}\
    ]}";

// A delay that needs a dual mechanical seal, for a valve.
const GROUND_OF_PUMPS: &str =
    "POST /sync HTTP/1.1\r\nHost: office\r\nContent-Length: 146\r\n\r\n{\"handheld\":2,\"number\":1,\"fac\
    ts\":[{\"kind\":\"delay\",\"day\":\"2024-03-01\",\"minute\":600,\"component\":1,\"ground\":\"d\",\"s\
    igner\":9,\"expected\":\"2024-06-10\"}]}";

// The answer to batch 12 after two others.
pub const RECEIPT: &str =
    "HTTP/1.1 200 OK\r\nContent-Type: text/plain\r\nContent-Length: 15\r\n\r\nreceipt 7 12 3\n";

// Up to three parts of a text.
type Parts<'a> = (&'a str, &'a str, &'a str);

// Parts one after the other.
fn joined(alloc: Global, parts: &Parts) -> Result<String, Fail> {
    let mut text = String::from_str(alloc, parts.0)?;
    text.push_str(parts.1)?;
    text.push_str(parts.2)?;
    Ok(text)
}

// The request, the status, the response, and the notes.
type Case<'a> = (Parts<'a>, u8, Parts<'a>, &'a str);

// Checks the result of a run over the base, if its input arrives in pieces of this size.
fn answers(alloc: Global, piece: usize, case: &Case) -> Result<(), Fail> {
    let requests = joined(alloc, &case.0)?;
    let wanted = joined(alloc, &case.2)?;
    let row: Row = (
        "drain",
        requests.as_bytes(),
        case.1,
        wanted.as_str(),
        case.3,
    );
    ends_over_base(alloc, piece, &row)
}

// Checks the result of a run over the base, if its input arrives in pieces of this size.
fn ends_over_base(alloc: Global, piece: usize, row: &Row) -> Result<(), Fail> {
    let mut disk = docked(alloc, &[], "")?;
    ends(alloc, &mut disk, in_pieces(piece), row)?;
    Ok(())
}

// Checks the results of runs over the base.
fn answer_each(alloc: Global, cases: &[Case]) -> Result<(), Fail> {
    for case in cases {
        answers(alloc, usize::MAX, case)?;
    }
    Ok(())
}

// Batches that are denied, kept twice, in conflict, and too large.
const BATCHES: [Case; 3] = [
    (
        (GROUND_OF_PUMPS, "", ""),
        0,
        (
            "HTTP/1.1 422 Unprocessable Entity\r\nContent-Type: text/plain\r\nContent-Length: 25\r\n\r\ndenied 1 10 60.482-9a(d)\n",
            "",
            "",
        ),
        "",
    ),
    (
        (SYNC, SYNC, CHANGED),
        0,
        (
            RECEIPT,
            RECEIPT,
            "HTTP/1.1 409 Conflict\r\nContent-Type: text/plain\r\nContent-Length: 11\r\n\r\nconflict 3\n",
        ),
        "",
    ),
    (
        (
            SYNC,
            "POST /sync HTTP/1.1\r\nHost: office\r\nContent-Length: 262145\r\n\r\n",
            "",
        ),
        8,
        (
            RECEIPT,
            "HTTP/1.1 413 Payload Too Large\r\nContent-Type: text/plain\r\nContent-Length: 10\r\nConnection: close\r\n\r\ntoo large\n",
            "",
        ),
        "bad input at 174\n",
    ),
];

// Methods, units, days and paths that do not exist.
const ROUTES: [Case; 7] = [
    (
        ("GET /sync HTTP/1.1\r\n\r\n", SYNC, ""),
        0,
        (
            "HTTP/1.1 405 Method Not Allowed\r\nContent-Type: text/plain\r\nContent-Length: 15\r\nAllow: POST\r\n\r\nno such method\n",
            RECEIPT,
            "",
        ),
        "",
    ),
    (
        (
            "POST /due/1/2024-02-20 HTTP/1.1\r\nContent-Length: 0\r\n\r\n",
            "",
            "",
        ),
        0,
        (
            "HTTP/1.1 405 Method Not Allowed\r\nContent-Type: text/plain\r\nContent-Length: 15\r\nAllow: GET\r\n\r\nno such method\n",
            "",
            "",
        ),
        "",
    ),
    (
        ("GET /due/01/2024-02-20 HTTP/1.1\r\n\r\n", "", ""),
        0,
        (
            "HTTP/1.1 404 Not Found\r\nContent-Type: text/plain\r\nContent-Length: 13\r\n\r\nno such unit\n",
            "",
            "",
        ),
        "",
    ),
    (
        ("GET /due/256/x HTTP/1.1\r\n\r\n", "", ""),
        0,
        (
            "HTTP/1.1 404 Not Found\r\nContent-Type: text/plain\r\nContent-Length: 13\r\n\r\nno such unit\n",
            "",
            "",
        ),
        "",
    ),
    (
        ("GET /due/1/x HTTP/1.1\r\n\r\n", "", ""),
        0,
        (
            "HTTP/1.1 404 Not Found\r\nContent-Type: text/plain\r\nContent-Length: 12\r\n\r\nno such day\n",
            "",
            "",
        ),
        "",
    ),
    (
        ("GET /nothing HTTP/1.1\r\n\r\n", SYNC, ""),
        0,
        (
            "HTTP/1.1 404 Not Found\r\nContent-Type: text/plain\r\nContent-Length: 13\r\n\r\nno such path\n",
            RECEIPT,
            "",
        ),
        "",
    ),
    (
        ("GET /tags/9/2024-02-20 HTTP/1.1\r\n\r\n", "", ""),
        0,
        (
            "HTTP/1.1 404 Not Found\r\nContent-Type: text/plain\r\nContent-Length: 13\r\n\r\nno such unit\n",
            "",
            "",
        ),
        "",
    ),
];

// Wrong heads and bodies, and an input that ends in a body.
const HEADS: [Case; 5] = [
    (
        ("POST /sync HTTP/1.1\r\nHost: office\r\n\r\n", SYNC, ""),
        8,
        (
            "HTTP/1.1 411 Length Required\r\nContent-Type: text/plain\r\nContent-Length: 14\r\nConnection: close\r\n\r\nlength needed\n",
            "",
            "",
        ),
        "bad input at 0\n",
    ),
    (
        ("GET /due/1/x HTTP/1.0\r\n\r\n", SYNC, ""),
        0,
        (
            "HTTP/1.1 404 Not Found\r\nContent-Type: text/plain\r\nContent-Length: 12\r\nConnection: close\r\n\r\nno such day\n",
            "",
            "",
        ),
        "",
    ),
    (
        (
            "POST /sync HTTP/1.1\r\nContent-Length: 5\r\nContent-Length: 5\r\n\r\nabcde",
            "",
            "",
        ),
        8,
        (
            "HTTP/1.1 400 Bad Request\r\nContent-Type: text/plain\r\nContent-Length: 12\r\nConnection: close\r\n\r\nbad request\n",
            "",
            "",
        ),
        "bad input at 0\n",
    ),
    (
        (
            SYNC,
            "POST /sync HTTP/1.1\r\nHost: office\r\nContent-Length: 116\r\n\r\n{\"handheld\":7",
            "",
        ),
        8,
        (RECEIPT, "", ""),
        "input cut: 71 bytes left\n",
    ),
    (
        (
            "POST /sync HTTP/1.1\r\nContent-Length: 2\r\n\r\n{}",
            SYNC,
            "",
        ),
        0,
        (
            "HTTP/1.1 400 Bad Request\r\nContent-Type: text/plain\r\nContent-Length: 12\r\n\r\nbad request\n",
            RECEIPT,
            "",
        ),
        "",
    ),
];

#[test]
fn requests_have_their_answers(rt: HostRuntime) -> Result<(), Fail> {
    answer_each(rt.alloc(), &BATCHES)?;
    answer_each(rt.alloc(), &ROUTES)?;
    answer_each(rt.alloc(), &HEADS)
}

const HEAD_TOO_LARGE: &str =
    "HTTP/1.1 431 Request Header Fields Too Large\r\nContent-Type: text/plain\r\nContent-Length: 15\r\nConnection: close\r\n\r\nhead too large\n";

// The request with batch 12, and 8,192 bytes of a head after it.
fn large_head(alloc: Global) -> Result<Vec<u8>, Fail> {
    let mut input = Vec::from_slice(alloc, SYNC.as_bytes())?;
    input.resize(SYNC.len() + 8_192, b'a')?;
    Ok(input)
}

#[test]
fn a_head_has_8192_bytes(rt: HostRuntime) -> Result<(), Fail> {
    let input = large_head(rt.alloc())?;
    let wanted = joined(rt.alloc(), &(RECEIPT, HEAD_TOO_LARGE, ""))?;
    let row: Row = ("drain", &input, 8, wanted.as_str(), "bad input at 174\n");
    ends_over_base(rt.alloc(), usize::MAX, &row)
}

// A request for a view.
pub const VIEWED: &str = "GET /percent/1/16/2024-03-31 HTTP/1.1\r\nHost: office\r\n\r\n";

// The answers to batch 12 and to the view.
pub const ANSWERED: &str =
    "HTTP/1.1 200 OK\r\nContent-Type: text/plain\r\nContent-Length: 15\r\n\r\nreceipt 7 12 3\n\
    HTTP/1.1 200 OK\r\nContent-Type: text/plain\r\nContent-Length: 56\r\n\r\n\
    percent 1 16 leaking 0 monitored 0 not good not skipped\n";

const TWO_REQUESTS: Case = ((SYNC, VIEWED, ""), 0, (ANSWERED, "", ""), "");

#[test]
fn requests_are_answered_in_order(rt: HostRuntime) -> Result<(), Fail> {
    answers(rt.alloc(), usize::MAX, &TWO_REQUESTS)
}

#[test]
fn requests_byte_by_byte_have_the_same_answers(rt: HostRuntime) -> Result<(), Fail> {
    answers(rt.alloc(), 1, &TWO_REQUESTS)
}

// The answers to batch 13 sent three times, if the call after its gate fails.
const FAULT: &str =
    "HTTP/1.1 503 Service Unavailable\r\nContent-Type: text/plain\r\nContent-Length: 11\r\n\r\ndisk fault\n";

const NEXT_RECEIPT: &str =
    "HTTP/1.1 200 OK\r\nContent-Type: text/plain\r\nContent-Length: 15\r\n\r\nreceipt 7 13 2\n";

// Checks that an error of this call is reported, and that the batch is kept once.
fn settles(alloc: Global, call: u64, requests: &str, answers: &str) -> Result<(), Fail> {
    let mut disk = MemoryDisk::new(alloc, ONE, &[call])?;
    ends(
        alloc,
        &mut disk,
        in_pieces(NEXT_SYNC.len()),
        &("drain", requests.as_bytes(), 0, answers, ""),
    )?;
    is(disk.bytes().len() == 67, "the journal's length")
}

#[test]
fn a_fault_of_the_disk_is_answered_and_settled(rt: HostRuntime) -> Result<(), Fail> {
    let opening = calls_of_opening(rt.alloc(), "drain")?;
    let requests = joined(rt.alloc(), &(NEXT_SYNC, NEXT_SYNC, NEXT_SYNC))?;
    let wanted = joined(rt.alloc(), &(FAULT, NEXT_RECEIPT, NEXT_RECEIPT))?;
    settles(
        rt.alloc(),
        opening.saturating_add(3),
        requests.as_str(),
        wanted.as_str(),
    )
}
