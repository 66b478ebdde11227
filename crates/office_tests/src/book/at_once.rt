ghost use Rattle.std.specs.Prelude.{◌≡◌, true, IfOk};
ghost use Rattle.std.specs.List.{AllByRecursion};
ghost use Rattle.office_interface.specs.Asking.{IsFromHandheld, HasRule};

use crate::book::{Asked, request};
use fact_kinds::FRAME_BATCHES;
use ldar_law::{Reply, Request};
use office_book::Office;
use std::alloc::Global;
use std::test::Fail;
use test_kit::is;

// Whether the request is to keep a batch of a handheld other than 0.
fn is_from_handheld(request: &Request) -> bool
    ensures value { result ≡ true → IsFromHandheld request.now }
{
    match request {
        Request::Sync(batch) => batch.handheld != 0,
        _ => false,
    }
}

// Whether all requests are to keep batches of such handhelds.
fn are_from_handhelds(requests: &[Request]) -> bool
    ensures value { result ≡ true → AllByRecursion IsFromHandheld requests.now }
{
    match requests {
        [] => true,
        [request, rest @ ..] => is_from_handheld(request) && are_from_handhelds(rest),
    }
}

// The requests.
fn requests(alloc: Global, group: &[Asked]) -> Result<Vec<Request>, Fail> {
    let mut requests = Vec::new(alloc);
    for asked in group {
        requests.push(request(alloc, *asked)?)?;
    }
    Ok(requests)
}

// The replies to batches of handhelds that are sent in one call.
fn answered<O: Office>(
    alloc: Global,
    office: &mut O,
    requests: &[Request],
) -> Result<Vec<Reply>, Fail>
    ensures ruled { IfOk result (λ replies. AllByRecursion HasRule replies.items) }
{
    if requests.is_empty() || requests.len() > FRAME_BATCHES || !are_from_handhelds(requests) {
        return Err(Fail::from("batches of handhelds"));
    }
    let mut replies = Vec::new(alloc);
    office.ask_group(alloc, requests, &mut replies)?;
    Ok(replies)
}

// Appends the lines of some replies.
fn put_lines(alloc: Global, replies: &[Reply], out: &mut Vec<u8>) -> Result<(), Fail>
    requires ruled { AllByRecursion HasRule replies.now }
{
    match replies {
        [] => Ok(()),
        [reply, rest @ ..] => {
            reply.put_line(alloc, out)?;
            put_lines(alloc, rest, out)
        }
    }
}

// Checks that these are the lines of the replies to batches that are sent in one call.
pub fn says_at_once<O: Office>(
    alloc: Global,
    office: &mut O,
    group: &[Asked],
    want: &str,
) -> Result<(), Fail> {
    let requests = requests(alloc, group)?;
    let replies = answered(alloc, office, &requests)?;
    let mut lines = Vec::new(alloc);
    put_lines(alloc, &replies, &mut lines)?;
    is(lines.as_slice() == want.as_bytes(), want)
}
