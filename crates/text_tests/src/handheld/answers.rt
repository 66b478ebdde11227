ghost use Rattle.handheld_http.specs.Answers.{IsSent};

use fact_kinds::Memory;
use handheld_http::{Answer, Refusal, reply_bytes};
use ldar_law::{Reply, Text, What};
use std::alloc::Global;
use std::test::Fail;
use test_kit::is;

/// The bytes that are appended for an answer.
fn written(alloc: Global, answer: Answer, closing: bool) -> Result<Vec<u8>, Memory>
    requires { IsSent answer }
{
    let mut out = Vec::from_slice(alloc, b"before")?;
    reply_bytes(alloc, &answer, closing, &mut out)?;
    Vec::from_slice(alloc, out.strip_prefix(b"before".as_slice()).unwrap_or(b""))
}

/// Checks the bytes that are appended for an answer.
fn writes(alloc: Global, answer: Answer, closing: bool, want: &[u8]) -> Result<(), Fail>
    requires { IsSent answer }
{
    let out = written(alloc, answer, closing)?;
    is(out.as_slice() == want, "an answer")
}

#[test]
fn receipts_and_texts_are_written(rt: HostRuntime) -> Result<(), Fail> {
    let alloc = rt.alloc();
    let receipt = Reply::Receipt {
        handheld: 7,
        number: 12,
        position: 3,
    };
    writes(
        alloc,
        Answer::Reply(receipt),
        false,
        b"HTTP/1.1 200 OK\r\nContent-Type: text/plain\r\nContent-Length: 15\r\n\r\nreceipt 7 12 3\n",
    )?;
    let shown = Text::new(Vec::from_slice(alloc, b"end 0\n")?);
    writes(
        alloc,
        Answer::Reply(Reply::Shown(shown)),
        true,
        b"HTTP/1.1 200 OK\r\nContent-Type: text/plain\r\nContent-Length: 6\r\nConnection: close\r\n\r\nend 0\n",
    )?;
    writes(
        alloc,
        Answer::Reply(Reply::Conflict { position: 1 }),
        false,
        b"HTTP/1.1 409 Conflict\r\nContent-Type: text/plain\r\nContent-Length: 11\r\n\r\nconflict 1\n",
    )?;
    writes(
        alloc,
        Answer::Reply(Reply::Denied { fact: 1, rule: 10 }),
        false,
        b"HTTP/1.1 422 Unprocessable Entity\r\nContent-Type: text/plain\r\nContent-Length: 25\r\n\r\ndenied 1 10 60.482-9a(d)\n",
    )?;
    Ok(())
}

#[test]
fn other_replies_are_written(rt: HostRuntime) -> Result<(), Fail> {
    let alloc = rt.alloc();
    writes(
        alloc,
        Answer::Reply(Reply::Full { facts: 8_000_001 }),
        false,
        b"HTTP/1.1 422 Unprocessable Entity\r\nContent-Type: text/plain\r\nContent-Length: 13\r\n\r\nfull 8000001\n",
    )?;
    writes(
        alloc,
        Answer::Reply(Reply::NoSuch(What::Quarter)),
        false,
        b"HTTP/1.1 404 Not Found\r\nContent-Type: text/plain\r\nContent-Length: 16\r\n\r\nno such quarter\n",
    )?;
    writes(
        alloc,
        Answer::Reply(Reply::Fault),
        false,
        b"HTTP/1.1 503 Service Unavailable\r\nContent-Type: text/plain\r\nContent-Length: 11\r\n\r\ndisk fault\n",
    )?;
    writes(
        alloc,
        Answer::Reply(Reply::Memory),
        false,
        b"HTTP/1.1 507 Insufficient Storage\r\nContent-Type: text/plain\r\nContent-Length: 7\r\n\r\nmemory\n",
    )?;
    Ok(())
}

const REFUSALS: [(Refusal, bool, &[u8]); 5] = [
    (
        Refusal::BadBatch,
        false,
        b"HTTP/1.1 400 Bad Request\r\nContent-Type: text/plain\r\nContent-Length: 12\r\n\r\nbad request\n",
    ),
    (
        Refusal::NoPath,
        false,
        b"HTTP/1.1 404 Not Found\r\nContent-Type: text/plain\r\nContent-Length: 13\r\n\r\nno such path\n",
    ),
    (
        Refusal::NoMethod { post: true },
        true,
        b"HTTP/1.1 405 Method Not Allowed\r\nContent-Type: text/plain\r\nContent-Length: 15\r\nAllow: POST\r\nConnection: close\r\n\r\nno such method\n",
    ),
    (
        Refusal::NoMethod { post: false },
        false,
        b"HTTP/1.1 405 Method Not Allowed\r\nContent-Type: text/plain\r\nContent-Length: 15\r\nAllow: GET\r\n\r\nno such method\n",
    ),
    (
        Refusal::NoSuch(What::Day),
        false,
        b"HTTP/1.1 404 Not Found\r\nContent-Type: text/plain\r\nContent-Length: 12\r\n\r\nno such day\n",
    ),
];

#[test]
fn refusals_are_written(rt: HostRuntime) -> Result<(), Fail> {
    for (refusal, closing, want) in REFUSALS {
        writes(rt.alloc(), Answer::Not(refusal), closing, want)?;
    }
    Ok(())
}

#[test]
fn refused_bytes_are_answered(rt: HostRuntime) -> Result<(), Fail> {
    let alloc = rt.alloc();
    writes(
        alloc,
        Answer::Status(400),
        false,
        b"HTTP/1.1 400 Bad Request\r\nContent-Type: text/plain\r\nContent-Length: 12\r\nConnection: close\r\n\r\nbad request\n",
    )?;
    writes(
        alloc,
        Answer::Status(411),
        false,
        b"HTTP/1.1 411 Length Required\r\nContent-Type: text/plain\r\nContent-Length: 14\r\nConnection: close\r\n\r\nlength needed\n",
    )?;
    writes(
        alloc,
        Answer::Status(413),
        false,
        b"HTTP/1.1 413 Payload Too Large\r\nContent-Type: text/plain\r\nContent-Length: 10\r\nConnection: close\r\n\r\ntoo large\n",
    )?;
    writes(
        alloc,
        Answer::Status(431),
        false,
        b"HTTP/1.1 431 Request Header Fields Too Large\r\nContent-Type: text/plain\r\nContent-Length: 15\r\nConnection: close\r\n\r\nhead too large\n",
    )?;
    writes(
        alloc,
        Answer::Status(501),
        false,
        b"HTTP/1.1 501 Not Implemented\r\nContent-Type: text/plain\r\nContent-Length: 16\r\nConnection: close\r\n\r\nnot implemented\n",
    )?;
    Ok(())
}
