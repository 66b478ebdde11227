ghost use Rattle.std.specs.Prelude.{◌≡◌, ℕ, ◌+◌, ◌≤◌, ◌↔◌, length, take, IsTrue, IfSome, IfNone};
ghost use Rattle.handheld_http.specs.Heads.{EndsHead, HasNoEnd};
ghost use Rattle.handheld_http.specs.Cuts.{IsExtent, IsFront, IsCut};

use crate::heads::{LONGEST_HEAD, judge};
use crate::outcome::{Cut, Extent, Front};
use memchr::memmem;

/// The end of a line, followed by an empty line.
pub const EMPTY_LINE: &[u8] = &[13, 10, 13, 10];

/// The bytes within which a head must end.
fn front(bytes: &[u8]) -> &[u8]
    ensures { result.now ≡ take 8192 bytes.now }
{
    if bytes.len() < LONGEST_HEAD {
        return bytes;
    }
    &bytes[..LONGEST_HEAD]
}

/// The end of the head at the front, if it ends.
fn end_of_head(bytes: &[u8]) -> Option<usize>
    ensures found { IfSome result (EndsHead bytes.now) }
    ensures none { IfNone result (HasNoEnd bytes.now) }
{
    let Some(at) = memmem::find(front(bytes), EMPTY_LINE) else {
        return None;
    };
    Some(at + EMPTY_LINE.len())
}

/// What the head at the front says about the request.
pub fn head_of(bytes: &[u8]) -> Front
    ensures value { IsFront bytes.now result }
{
    let Some(head) = end_of_head(bytes) else {
        return unended(bytes);
    };
    match judge(&bytes[..head]) {
        Ok(extent) => Front::Head(extent),
        Err(status) => Front::Refused { status },
    }
}

/// What is known if no head ends.
fn unended(bytes: &[u8]) -> Front
    requires { HasNoEnd bytes.now }
    ensures { IsFront bytes.now result }
{
    if bytes.len() < LONGEST_HEAD {
        return Front::Unended;
    }
    Front::Refused { status: 431 }
}

/// Whether the body of the request at the front is complete.
pub fn has_body(bytes: &[u8], extent: Extent) -> bool
    requires begins { IsExtent bytes.now extent }
    ensures value { IsTrue result ↔ (extent.head + extent.body ≤ length bytes.now) }
{
    extent.body <= bytes.len() - extent.head
}

/// Decides what is at the front of the received bytes: a request, the beginning of one, or bytes to refuse.
pub fn cut(bytes: &[u8]) -> Cut
    ensures value { IsCut bytes.now result }
{
    match head_of(bytes) {
        Front::Head(extent) if has_body(bytes, extent) => Cut::Whole {
            head: extent.head,
            body: extent.body,
            closing: extent.closing,
        },
        Front::Head(_) | Front::Unended => Cut::More,
        Front::Refused { status } => Cut::Refused { status },
    }
}
