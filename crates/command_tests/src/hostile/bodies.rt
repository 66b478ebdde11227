use crate::requests::SYNC;
use crate::runs::{CALM, EMPTY, ends};
use disk_model::MemoryDisk;
use std::alloc::Global;
use std::test::Fail;

const FACT: &[u8] =
    b"{\"kind\":\"calibration\",\"day\":\"2024-02-20\",\"minute\":600,\"instrument\":1,\"gas\":500}";

// Pairs of a handheld and a fact with which a body is not a batch.
const WRONG: [(&[u8], &[u8]); 12] = [
    (b"1e3", FACT),
    (b"1.0", FACT),
    (b"-1", FACT),
    (b"65536", FACT),
    (b"\"7\"", FACT),
    (b"7,\"site\":1", FACT),
    (b"7", b""),
    (b"7", b"[]"),
    (
        b"7",
        b"{\"kind\":\"calibrated\",\"day\":\"2024-02-20\",\"minute\":600,\"instrument\":1,\"gas\":500}",
    ),
    (
        b"7",
        b"{\"kind\":\"calibration\",\"day\":\"2024-02-20\",\"minute\":600,\"instrument\":1,\"gas\":\"500\"}",
    ),
    (
        b"7",
        b"{\"kind\":\"calibration\",\"day\":\"2024-02-20\",\"minute\":600,\"instrument\":1,\"gas\":500,\"ppm\":1}",
    ),
    (
        b"7",
        b"{\"kind\":\"calibration\",\"day\":\"2024-02-2\xff\",\"minute\":600,\"instrument\":1,\"gas\":500}",
    ),
];

// The body of batch 12 with this for the handheld, and with `count` facts of this text.
fn body_of(alloc: Global, handheld: &[u8], fact: &[u8], count: usize) -> Result<Vec<u8>, Fail> {
    let mut body = Vec::from_slice(alloc, b"{\"handheld\":")?;
    body.extend_from_slice(handheld)?;
    body.extend_from_slice(b",\"number\":12,\"facts\":[")?;
    for number in 0..count {
        let comma: &[u8] = if number == 0 { b"" } else { b"," };
        body.extend_from_slice(comma)?;
        body.extend_from_slice(fact)?;
    }
    body.extend_from_slice(b"]}")?;
    Ok(body)
}

// A request with this body.
fn request(alloc: Global, body: &[u8]) -> Result<Vec<u8>, Fail> {
    let length = body.len();
    let head = format!(in alloc; "POST /sync HTTP/1.1\r\nContent-Length: {length}\r\n\r\n")?;
    let mut bytes = Vec::from_slice(alloc, head.as_bytes())?;
    bytes.extend_from_slice(body)?;
    Ok(bytes)
}

// The longest body: a batch of `count` facts, and blanks up to 262,144 bytes.
pub fn longest(alloc: Global, count: usize) -> Result<Vec<u8>, Fail> {
    let mut body = body_of(alloc, b"7", FACT, count)?;
    body.resize(262_144, b' ')?;
    request(alloc, &body)
}

// The answer to the first batch that is kept, and the answers to a body that is no batch and to a batch after it.
pub const KEPT: &str =
    "HTTP/1.1 200 OK\r\nContent-Type: text/plain\r\nContent-Length: 15\r\n\r\nreceipt 7 12 1\n";

const REFUSED: &str =
    "HTTP/1.1 400 Bad Request\r\nContent-Type: text/plain\r\nContent-Length: 12\r\n\r\nbad request\n\
    HTTP/1.1 200 OK\r\nContent-Type: text/plain\r\nContent-Length: 15\r\n\r\nreceipt 7 12 1\n";

// Checks that after a request that is refused, one with batch 12 is kept.
fn goes_on(alloc: Global, request: &[u8]) -> Result<(), Fail> {
    let mut input = Vec::from_slice(alloc, request)?;
    input.extend_from_slice(SYNC.as_bytes())?;
    let mut disk = MemoryDisk::new(alloc, EMPTY, &[])?;
    ends(alloc, &mut disk, CALM, &("drain", &input, 0, REFUSED, ""))?;
    Ok(())
}

#[test]
fn a_session_goes_on_after_a_body_that_is_no_batch(rt: HostRuntime) -> Result<(), Fail> {
    let alloc = rt.alloc();
    for (handheld, fact) in WRONG {
        goes_on(alloc, &request(alloc, &body_of(alloc, handheld, fact, 1)?)?)?;
    }
    // Nested arrays, and one fact too many.
    let mut arrays = vec![in alloc; b'['; 256]?;
    arrays.truncate(128);
    arrays.resize(256, b']')?;
    goes_on(alloc, &request(alloc, &arrays)?)?;
    goes_on(alloc, &longest(alloc, 513)?)
}
