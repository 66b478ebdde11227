//! A frame of a journal, in bytes. The first frame is after the header, at place 16; each other one begins where the one
//! before it ends.
//!
//! | place | width | meaning |
//! |---|---|---|
//! | 0 | 1 | the gate: 1 if the frame is kept; any other value closes the journal here |
//! | 1 | 4 | the length of the payload, big-endian, from 1 to 188,560 |
//! | 5 | length | the payload: 1 to 16 batches, each as its handheld spelled it, one after the other |
//! | 5 + length | 1 | the next gate |
//!
//! A frame is valid if its gate is 1, its length is in range, its payload is complete, and the payload is exactly 1 to 16
//! whole batches (`IsFrameOf`). Which batches may follow earlier ones is decided separately (`IsKept`).

ghost use Rattle.std.specs.Prelude.{◌≡◌, ℕ, ◌+◌, ◌≤◌, ◌<◌, List, [], ◌∷◌, ◌++◌, length, take, drop, true, false, IfOk, OnOk};
ghost use Rattle.std.specs.Bool.{MatchBool};
ghost use Rattle.std.specs.Option.{MatchOption};
ghost use Rattle.ldar_journal.specs.Image.{payload, IsFrame};
ghost use Rattle.fact_kinds.specs.declared.batch.Batch.{Batch};
ghost use Rattle.ldar_journal.specs.FrameAt.{IsFrameOf, HasNoFrame, IsPayloadAt};

use fact_kinds::{Batch, FRAME_BATCHES, Memory};
use ldar_facts::{Read, read_batch};
use std::alloc::Global;

/// The maximum length of a frame's payload in bytes: 16 batches of 11,785 bytes.
pub const MOST_PAYLOAD: u32 = 188_560;

/// The number of bytes needed to decide whether a frame is at the front, as far as these bytes show it. From five bytes
/// on it is the length of the whole frame, if that is in range.
pub fn bytes_wanted(bytes: &[u8]) -> usize
    ensures within { result ≤ MOST_PAYLOAD + 5 }
    ensures enough { 5 ≤ length bytes.now → (more rest : List ℕ) → result ≤ length (bytes.now ++ more)
        → HasNoFrame (bytes.now ++ more) → HasNoFrame ((bytes.now ++ more) ++ rest) }
{
    if bytes.len() < 5 {
        return 5;
    }
    let len = u32::from_be_bytes([bytes[1], bytes[2], bytes[3], bytes[4]]);
    5 + len.min(MOST_PAYLOAD) as usize
}

/// Reads the batches of an open frame at the front of these bytes. Returns the number of bytes it takes, if there is one.
pub fn frame_at(
    alloc: Global,
    bytes: &[u8],
    batches: &mut Vec<Batch>,
) -> Result<Option<usize>, Memory>
    ensures { IfOk result (λ found. MatchOption found (HasNoFrame bytes.now) (IsFrameOf bytes.now batches.new.items)) }
{
    let Some(payload) = payload_at(bytes) else {
        return Ok(None);
    };
    if read_batches(alloc, payload, batches)? {
        return Ok(Some(5 + payload.len()));
    }
    Ok(None)
}

/// The payload of the frame at the front of these bytes, by its gate and its length.
fn payload_at(bytes: &[u8]) -> Option<&[u8]>
    ensures { MatchOption result
        ((payload : List ℕ) → ¬ (IsPayloadAt bytes.now payload))
        (λ payload. IsPayloadAt bytes.now payload.now) }
{
    if bytes.len() < 5 || bytes[0] != 1 {
        return None;
    }
    let len = u32::from_be_bytes([bytes[1], bytes[2], bytes[3], bytes[4]]);
    if len == 0 || len > MOST_PAYLOAD {
        return None;
    }
    let (_, rest) = bytes.split_at(5);
    if rest.len() < len as usize {
        return None;
    }
    let (payload, _) = rest.split_at(len as usize);
    Some(payload)
}

/// Replaces the contents of `batches` with the batches of a payload, if there are 1 to 16.
fn read_batches(alloc: Global, bytes: &[u8], batches: &mut Vec<Batch>) -> Result<bool, Memory>
    ensures { IfOk result (λ found. MatchBool found
        (IsFrame batches.new.items × (payload batches.new.items ≡ bytes.now))
        ((others : List Batch) → IsFrame others → ¬ (payload others ≡ bytes.now))) }
{
    batches.clear();
    let mut rest = bytes;
    while !rest.is_empty() {
        if batches.len() == FRAME_BATCHES {
            return Ok(false);
        }
        match read_batch(alloc, rest)? {
            Read::Whole { batch, used } => {
                batches.push(batch)?;
                (_, rest) = rest.split_at(used);
            }
            Read::Short => return Ok(false),
            Read::Bad { at: _ } => return Ok(false),
        }
    }
    if batches.is_empty() {
        return Ok(false);
    }
    Ok(true)
}
