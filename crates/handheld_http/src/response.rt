ghost use Rattle.std.specs.Prelude.{◌≡◌, true, [], ◌++◌, ◌≤◌, ◌<◌, IfOk, OnOk, OnErr, length, string_bytes, codes};
ghost use Rattle.std.specs.Fmt.{decimal};
ghost use Rattle.handheld_http.specs.Answers as spec;
ghost use Rattle.handheld_http.specs.Answers.{response, connection_of, allow_post, answer_bytes, IsSent, IsRefusalStatus};
ghost use Rattle.ldar_law.specs.Replies.{reply_text, HasRule};

use crate::answer::{Answer, Refusal};
use fact_kinds::Memory;
use http::StatusCode;
use ldar_law::{Reply, What};
use std::alloc::Global;

/// Appends the head and the body of a response, or nothing if it is out of memory.
fn put_both(head: &str, body: &[u8], out: &mut Vec<u8>) -> Result<(), Memory>
    ensures value { OnOk result (out.new.items ≡ out.old.items ++ (head.now ++ body.now)) }
    ensures unchanged { OnErr result (out.new.items ≡ out.old.items) }
{
    let before = out.len();
    out.extend_from_slice(head.as_bytes())?;
    if out.extend_from_slice(body).is_err() {
        out.truncate(before);
        return Err(Memory);
    }
    Ok(())
}

/// The `Connection` field.
fn connection(last: bool) -> &'static str
    ensures { result.now ≡ connection_of last }
{
    if last { "Connection: close\r\n" } else { "" }
}

/// The phrase of a status (RFC 9110, section 15).
#[tactic(auto, unfolding(crate::specs::Answers::phrase_of))]
fn phrase_of(status: StatusCode) -> &'static str
    ensures { result.now ≡ spec.phrase_of status }
{
    status.canonical_reason().unwrap_or("")
}

/// The status line of a response, without its end.
fn status_line(alloc: Global, status: u16, phrase: &str) -> Result<String, Memory>
    ensures { IfOk result (λ line. string_bytes line ≡ codes "HTTP/1.1 " ++ decimal status ++ codes " " ++ phrase.now) }
{
    format!(in alloc; "HTTP/1.1 {status} {phrase}")
}

/// A number in digits.
fn digits(alloc: Global, number: usize) -> Result<String, Memory>
    ensures { IfOk result (λ text. string_bytes text ≡ decimal number) }
{
    format!(in alloc; "{number}")
}

/// The status line of a response and the fields of each response.
fn common_head(alloc: Global, status: StatusCode, length: usize) -> Result<String, Memory>
    ensures { IfOk result (λ head. string_bytes head ≡ spec.common_head status length) }
{
    let mut head = status_line(alloc, status.as_u16(), phrase_of(status))?;
    head.push_str("\r\nContent-Type: text/plain\r\nContent-Length: ")?;
    head.push_str(digits(alloc, length)?.as_str())?;
    head.push_str("\r\n")?;
    Ok(head)
}

/// The head of a response, for a body of this length.
fn response_head(
    alloc: Global,
    status: StatusCode,
    allow: &str,
    last: bool,
    length: usize,
) -> Result<String, Memory>
    ensures { IfOk result (λ head. string_bytes head ≡ spec.response_head status allow.now last length) }
{
    let mut head = common_head(alloc, status, length)?;
    head.push_str(allow)?;
    head.push_str(connection(last))?;
    head.push_str("\r\n")?;
    Ok(head)
}

/// Appends a response.
#[tactic(auto, unfolding(crate::specs::Answers::response))]
fn put(
    alloc: Global,
    status: StatusCode,
    allow: &str,
    last: bool,
    body: &[u8],
    out: &mut Vec<u8>,
) -> Result<(), Memory>
    ensures value { OnOk result (out.new.items ≡ out.old.items ++ response status allow.now last body.now) }
    ensures unchanged { OnErr result (out.new.items ≡ out.old.items) }
{
    let head = response_head(alloc, status, allow, last, body.len())?;
    put_both(head.as_str(), body, out)
}

/// The status of a reply.
fn reply_status(reply: &Reply) -> StatusCode
    ensures { result ≡ spec.reply_status reply.now }
{
    match reply {
        Reply::Receipt { .. } | Reply::Shown(_) => StatusCode::OK,
        Reply::Conflict { .. } => StatusCode::CONFLICT,
        Reply::Denied { .. } | Reply::Full { .. } => StatusCode::UNPROCESSABLE_ENTITY,
        Reply::NoSuch(_) => StatusCode::NOT_FOUND,
        Reply::Fault => StatusCode::SERVICE_UNAVAILABLE,
        Reply::Memory => StatusCode::INSUFFICIENT_STORAGE,
    }
}

/// Appends the response to a request: the line of the reply, or the text of a view.
fn put_reply(alloc: Global, reply: &Reply, closing: bool, out: &mut Vec<u8>) -> Result<(), Memory>
    requires { HasRule reply.now }
    ensures value { OnOk result (out.new.items ≡ out.old.items ++ response (spec.reply_status reply.now) [] closing (reply_text reply.now)) }
    ensures unchanged { OnErr result (out.new.items ≡ out.old.items) }
{
    if let Reply::Shown(text) = reply {
        return put(alloc, StatusCode::OK, "", closing, text.as_bytes(), out);
    }
    let mut line = Vec::new(alloc);
    reply.put_line(alloc, &mut line)?;
    put(
        alloc,
        reply_status(reply),
        "",
        closing,
        line.as_slice(),
        out,
    )
}

/// The `Allow` field of a path.
fn allow(post: bool) -> &'static str
    ensures { result.now ≡ allow_post post }
{
    if post {
        "Allow: POST\r\n"
    } else {
        "Allow: GET\r\n"
    }
}

/// Appends the response to a request with a part that names nothing.
fn put_no_such(alloc: Global, what: What, closing: bool, out: &mut Vec<u8>) -> Result<(), Memory>
    ensures value { OnOk result (out.new.items ≡ out.old.items ++ answer_bytes (Answer.Not (Refusal.NoSuch what)) closing) }
    ensures unchanged { OnErr result (out.new.items ≡ out.old.items) }
{
    let mut line = Vec::new(alloc);
    Reply::NoSuch(what).put_line(alloc, &mut line)?;
    put(
        alloc,
        StatusCode::NOT_FOUND,
        "",
        closing,
        line.as_slice(),
        out,
    )
}

/// Appends the response to a request that is not passed to the office.
fn put_refusal(
    alloc: Global,
    refusal: Refusal,
    closing: bool,
    out: &mut Vec<u8>,
) -> Result<(), Memory>
    ensures value { OnOk result (out.new.items ≡ out.old.items ++ answer_bytes (Answer.Not refusal) closing) }
    ensures unchanged { OnErr result (out.new.items ≡ out.old.items) }
{
    match refusal {
        Refusal::BadBatch => put(
            alloc,
            StatusCode::BAD_REQUEST,
            "",
            closing,
            b"bad request\n",
            out,
        ),
        Refusal::NoPath => put(
            alloc,
            StatusCode::NOT_FOUND,
            "",
            closing,
            b"no such path\n",
            out,
        ),
        Refusal::NoMethod { post } => {
            put(
                alloc,
                StatusCode::METHOD_NOT_ALLOWED,
                allow(post),
                closing,
                b"no such method\n",
                out,
            )
        }
        Refusal::NoSuch(what) => put_no_such(alloc, what, closing, out),
    }
}

/// The status with which bytes are refused, and the body of the response.
fn refused_line(status: u16) -> (StatusCode, &'static [u8])
    requires { IsRefusalStatus status }
    ensures status { result.0 ≡ status }
    ensures line { result.1.now ≡ spec.status_line status }
{
    match status {
        400 => (StatusCode::BAD_REQUEST, b"bad request\n"),
        411 => (StatusCode::LENGTH_REQUIRED, b"length needed\n"),
        413 => (StatusCode::PAYLOAD_TOO_LARGE, b"too large\n"),
        431 => (
            StatusCode::REQUEST_HEADER_FIELDS_TOO_LARGE,
            b"head too large\n",
        ),
        _ => (StatusCode::NOT_IMPLEMENTED, b"not implemented\n"),
    }
}

/// Appends the response to refused bytes, after which nothing more is read.
fn put_status(alloc: Global, status: u16, out: &mut Vec<u8>) -> Result<(), Memory>
    requires { IsRefusalStatus status }
    ensures value { OnOk result (out.new.items ≡ out.old.items ++ response status [] true (spec.status_line status)) }
    ensures unchanged { OnErr result (out.new.items ≡ out.old.items) }
{
    let (status, line) = refused_line(status);
    put(alloc, status, "", true, line, out)
}

/// Appends the bytes of one answer: its status line, its fields and its body. A denial is by a rule from 1 to 21; a status is
/// one with which `cut` refuses. `closing` is whether the request closes the connection.
pub fn reply_bytes(
    alloc: Global,
    answer: &Answer,
    closing: bool,
    out: &mut Vec<u8>,
) -> Result<(), Memory>
    requires is_sent { IsSent answer.now }
    ensures value { OnOk result (out.new.items ≡ out.old.items ++ answer_bytes answer.now closing) }
    ensures unchanged { OnErr result (out.new.items ≡ out.old.items) }
{
    match answer {
        Answer::Reply(reply) => put_reply(alloc, reply, closing, out),
        Answer::Not(refusal) => put_refusal(alloc, *refusal, closing, out),
        Answer::Status(status) => put_status(alloc, *status, out),
    }
}
