//! Reading an answer. Numbers are big-endian.
//!
//! | place | width | field | range |
//! |---|---|---|---|
//! | 0 | 1 | the letter `M` | 77 |
//! | 1 | 4 | number of batches before the first one | any |
//! | 5 | 1 | number of batches | 1 to 16 |
//! | 6 | 16 to 11,785 each | the batches, in order | |

ghost use Rattle.std.specs.Prelude.{◌≡◌, ℕ, ◌≤◌, length, take, IfOk};
ghost use Rattle.office_mirror.specs.declared.answer.Answer.{Answer};
ghost use Rattle.office_mirror.specs.declared.read.AnswerRead.{AnswerRead};
ghost use Rattle.office_mirror.specs.AnswerGrammar.{SpellsAnswer, BeginsAnswer, HasNoAnswer, IsFirstWrongInAnswer};
ghost use Rattle.office_mirror.specs.AnswerGrammar.{IfWholeAnswer, OnShortAnswer, IfBadAnswer};
ghost use Rattle.office_mirror.specs.Reader.{ReadsAnswer};

use crate::answer::Answer;
use crate::reader::{AnswerPiece, AnswerReader};
use std::alloc::{AllocError, Global};

/// What some bytes begin with.
#[derive(Drop)]
pub enum AnswerRead {
    /// An answer, in the first `used` bytes.
    Whole { answer: Answer, used: usize },
    /// The beginning of an answer: the bytes were cut short.
    Short,
    /// No answer. The bytes before place `at` (from 0) begin an answer, and with the byte at that place they do not.
    Bad { at: usize },
}

/// Reads the answer at the start of some bytes. Other bytes may follow it. The only error is out of memory.
pub fn read_answer(alloc: Global, bytes: &[u8]) -> Result<AnswerRead, AllocError>
    ensures whole { IfOk result (λ read. IfWholeAnswer read (λ answer used.
        (used ≤ length bytes.now) × SpellsAnswer (take used bytes.now) answer)) }
    ensures short { IfOk result (λ read. OnShortAnswer read (BeginsAnswer bytes.now × HasNoAnswer bytes.now)) }
    ensures bad { IfOk result (λ read. IfBadAnswer read (λ at.
        IsFirstWrongInAnswer bytes.now at × HasNoAnswer bytes.now)) }

    // If the bytes begin with an answer, that answer is read.
    ensures found { (answer : Answer) (used : ℕ) → used ≤ length bytes.now → SpellsAnswer (take used bytes.now) answer
        → IfOk result (λ read. read ≡ AnswerRead.Whole answer used) }
{
    read_pieces(alloc, bytes)
}

/// Reads an answer piece by piece.
fn read_pieces(alloc: Global, bytes: &[u8]) -> Result<AnswerRead, AllocError>
    ensures { IfOk result (ReadsAnswer bytes.now) }
{
    let mut reader = AnswerReader::new(alloc);
    let mut used = 0;
    loop {
        match reader.read_piece(alloc, &bytes[used..])? {
            AnswerPiece::Part { used: more } => used += more,
            AnswerPiece::Last { answer, used: more } => {
                return Ok(AnswerRead::Whole {
                    answer,
                    used: used + more,
                });
            }
            AnswerPiece::Short => return Ok(AnswerRead::Short),
            AnswerPiece::Bad { at } => return Ok(AnswerRead::Bad { at: used + at }),
        }
    }
}
