ghost use Rattle.std.specs.Prelude.{◌≡◌, ◌+◌, ◌-◌, ◌<◌, ◌≤◌, ◌++◌, ℕ, List, false, length, drop, IfOk, OnOk};
ghost use Rattle.handheld_http.specs.Answers.{IsSent, answer_bytes};
ghost use Rattle.handheld_http.specs.Cuts.{IsExtent, IsFront as IsKnown};
ghost use Rattle.ldar_session.specs.Requests.{HasNoneWithin, Knows, request_speech};
ghost use Rattle.ldar_session.specs.Speech.{IsFront, IsItem, Learns, NoOtherJoins};

use crate::Memory;
use crate::item::{Front, Item, Question, Unasked};
use crate::protocol::Protocol;
use handheld_http::{
    Answer, Asked, EMPTY_LINE, Extent, Front as Known, LONGEST_HEAD, asked_by, has_body, head_of,
    reply_bytes,
};
use ldar_law::Reply;
use memchr::memmem;
use std::alloc::Global;

/// The maximum length of a request, plus 4,096 bytes of room after the beginning of one.
pub const REQUEST_WINDOW: usize = 274_432;

/// HTTP requests, each answered by a response. It keeps what is known about the request at the front, so that a head is
/// read only once, in whatever pieces the bytes arrive.
#[derive(Drop)]
pub struct Requests {
    known: Known,
    /// If the head has not ended: no empty line ends within this many bytes.
    searched: usize,
}

impl Protocol for Requests {
    ghost speech = { request_speech };

    ghost knows = { λ requests bytes. Knows requests.known requests.searched bytes };

    fn new() -> Requests {
        Requests {
            known: Known::Unended,
            searched: 0,
        }
    }

    fn front(&mut self, alloc: Global, bytes: &[u8]) -> Result<Front, Memory> {
        let known = known_of(self.known, self.searched, bytes);
        match known {
            Known::Head(extent) => {
                if has_body(bytes, extent) {
                    self.known = Known::Unended;
                    self.searched = 0;
                    return Ok(Front::Whole(item_of(alloc, bytes, extent)?));
                }
                self.known = known;
                Ok(Front::Unfinished)
            }
            Known::Unended => {
                self.known = known;
                self.searched = bytes.len();
                Ok(Front::Unfinished)
            }
            Known::Refused { status } => {
                self.known = Known::Unended;
                self.searched = 0;
                let text = text_of(alloc, &Answer::Status(status), true)?;
                Ok(Front::Whole(Item::Away(text)))
            }
        }
    }

    fn put_reply(
        &self,
        alloc: Global,
        reply: Reply,
        closing: bool,
        text: &mut Vec<u8>,
    ) -> Result<(), Memory> {
        reply_bytes(alloc, &Answer::Reply(reply), closing, text)
    }
}

/// What is known about the request at the front, from what was known when there were fewer bytes.
fn known_of(known: Known, searched: usize, bytes: &[u8]) -> Known
    requires known { Knows known searched bytes.now }
    ensures value { IsKnown bytes.now result }
{
    match known {
        Known::Unended => {
            if bytes.len() < LONGEST_HEAD && !ends_after(bytes, searched) {
                return Known::Unended;
            }
            head_of(bytes)
        }
        Known::Head(_) | Known::Refused { .. } => known,
    }
}

/// Whether an empty line ends after this many bytes, if none ends within them.
fn ends_after(bytes: &[u8], searched: usize) -> bool
    requires within { searched ≤ length bytes.now }
    requires none { HasNoneWithin bytes.now searched }
    ensures none { result ≡ false → HasNoneWithin bytes.now (length bytes.now) }
{
    let Some(_) = memmem::find(after(bytes, searched), EMPTY_LINE) else {
        return false;
    };
    true
}

/// The bytes that an empty line can be in if it ends after this many bytes: the last three of them, and those that
/// follow.
fn after(bytes: &[u8], searched: usize) -> &[u8]
    requires { searched ≤ length bytes.now }
    ensures { result.now ≡ drop (searched - 3) bytes.now }
{
    &bytes[searched.saturating_sub(3)..]
}

/// The request at the front, or its answer if it is not passed to the office.
fn item_of(alloc: Global, bytes: &[u8], extent: Extent) -> Result<Item, Memory>
    requires begins { IsExtent bytes.now extent }
    requires whole { extent.head + extent.body ≤ length bytes.now }
    ensures value { IfOk result (IsItem request_speech bytes.now) }
    ensures joins { IfOk result (λ item. NoOtherJoins request_speech bytes.now (Front.Whole item)) }
{
    let used = extent.head + extent.body;
    let closing = extent.closing;
    match asked_by(alloc, bytes, extent)? {
        Asked::Request(request) => Ok(Item::Asks(Question {
            request,
            used,
            closing,
        })),
        Asked::Not(refusal) => Ok(Item::Says(Unasked {
            text: text_of(alloc, &Answer::Not(refusal), closing)?,
            used,
            closing,
        })),
    }
}

/// The bytes of an answer.
fn text_of(alloc: Global, answer: &Answer, closing: bool) -> Result<Vec<u8>, Memory>
    requires { IsSent answer.now }
    ensures value { IfOk result (λ text. text.items ≡ answer_bytes answer.now closing) }
{
    let mut text = Vec::new(alloc);
    reply_bytes(alloc, answer, closing, &mut text)?;
    Ok(text)
}
