ghost use Rattle.std.specs.Prelude.{◌≤◌, ◌↔◌, IsTrue};
ghost use Rattle.office_mirror.specs.Reader.{ReadsHead};

use crate::answer::MOST_BATCHES;

/// The fields before the batches of an answer.
#[derive(Clone, Copy)]
pub(crate) struct AnswerHead {
    pub(crate) start: u32,
    /// The number of batches that follow, 1 to 16.
    pub(crate) count: u8,
}

/// What some bytes begin with.
#[derive(Clone, Copy)]
pub(crate) enum HeadRead {
    /// The head of an answer, in six bytes.
    Whole(AnswerHead),
    /// The beginning of a head: the bytes were cut short.
    Short,
    /// No head. The bytes before this place (from 0) begin one, and with the byte at that place they do not.
    Bad { at: usize },
}

/// The first byte of an answer, the letter `M`.
pub(crate) const LETTER: u8 = 77;

/// Reads the fields before the batches of an answer.
pub(crate) fn read_head(bytes: &[u8]) -> HeadRead
    ensures { ReadsHead bytes.now result }
{
    if bytes.is_empty() {
        return HeadRead::Short;
    }
    if bytes[0] != LETTER {
        return HeadRead::Bad { at: 0 };
    }
    if bytes.len() < 6 {
        return HeadRead::Short;
    }
    let start = u32::from_be_bytes([bytes[1], bytes[2], bytes[3], bytes[4]]);
    let count = bytes[5];
    if !may_count(count) {
        return HeadRead::Bad { at: 5 };
    }
    HeadRead::Whole(AnswerHead { start, count })
}

/// Whether an answer may have this many batches.
fn may_count(count: u8) -> bool
    ensures value { IsTrue result ↔ ((1 ≤ count) × (count ≤ 16)) }
{
    1 <= count && usize::from(count) <= MOST_BATCHES
}
