//! An answer that comes piece by piece: its head, and then one batch after another. What was read is not read again.

ghost use Rattle.std.specs.Prelude.{◌≡◌, [], IfOk, OnErr};
ghost use Rattle.office_mirror.specs.AnswerGrammar.{BeginsAnswer};
ghost use Rattle.office_mirror.specs.Reader.{ReadsPiece};

use crate::answer::{Answer, BatchList};
use crate::head::{AnswerHead, HeadRead, read_head};
use fact_kinds::Batch;
use ldar_facts::{Read, read_batch};
use std::alloc::{AllocError, Global};
use std::marker::Model;
use std::mem;

/// What comes of the next bytes of an answer.
#[derive(Drop)]
pub enum AnswerPiece {
    /// The last batch of an answer, in the first `used` bytes, and so the whole answer.
    Last { answer: Answer, used: usize },
    /// The head of an answer, or a batch that is not the last, in the first `used` bytes.
    Part { used: usize },
    /// The bytes end within the next piece.
    Short,
    /// No answer. The bytes before place `at` (from 0) continue one, and with the byte at that place they do not.
    Bad { at: usize },
}

/// Reads answers piece by piece. In contracts it is the bytes that were read of an answer that is not whole.
#[derive(Drop)]
pub struct AnswerReader {
    head: Option<AnswerHead>,
    batches: Vec<Batch>,
}

impl Model for AnswerReader {
    ghost use Rattle.std.specs.Prelude.{ℕ, List};
    ghost use Rattle.office_mirror.specs.Reader.{AreSoFar, HasRoom, read_so_far};

    ghost Value = { List ℕ };

    ghost view = { λ r. read_so_far r.head r.batches.items };

    ghost invariant = { λ r. AreSoFar r.head r.batches.items × HasRoom r.head r.batches };
}

impl AnswerReader {
    /// A reader before the first byte of an answer. Takes no memory.
    pub fn new(alloc: Global) -> AnswerReader
        ensures value { result ≡ [] }
    {
        AnswerReader {
            head: None,
            batches: Vec::new(alloc),
        }
    }

    /// A law: the bytes that were read begin an answer.
    pub fn begins(&self)
        ensures law { BeginsAnswer self.now }
    {
        let _head = self.head;
    }

    /// Reads the next piece of an answer from the start of these bytes, which follow those that were read. After the last
    /// batch of an answer the next answer may begin. The only error is out of memory.
    pub fn read_piece(&mut self, alloc: Global, bytes: &[u8]) -> Result<AnswerPiece, AllocError>
        ensures value { IfOk result (ReadsPiece self.old bytes.now self.new) }
        ensures unchanged { OnErr result (self.new ≡ self.old) }
    {
        let Some(head) = self.head else {
            return self.read_first(alloc, bytes);
        };
        match read_batch(alloc, bytes)? {
            Read::Whole { batch, used } => {
                self.batches.push_reserved(batch);
                if self.batches.len() < usize::from(head.count) {
                    return Ok(AnswerPiece::Part { used });
                }
                self.head = None;
                let batches = mem::replace(&mut self.batches, Vec::new(alloc));
                let answer = Answer {
                    start: head.start,
                    batches: BatchList::new(batches).unwrap(),
                };
                Ok(AnswerPiece::Last { answer, used })
            }
            Read::Short => Ok(AnswerPiece::Short),
            Read::Bad { at } => Ok(AnswerPiece::Bad { at }),
        }
    }

    /// Reads the head of an answer.
    fn read_first(&mut self, alloc: Global, bytes: &[u8]) -> Result<AnswerPiece, AllocError>
        requires first { self.old ≡ [] }
        ensures value { IfOk result (ReadsPiece self.old bytes.now self.new) }
        ensures unchanged { OnErr result (self.new ≡ self.old) }
    {
        match read_head(bytes) {
            HeadRead::Whole(head) => {
                self.batches = Vec::with_capacity(alloc, usize::from(head.count))?;
                self.head = Some(head);
                Ok(AnswerPiece::Part { used: 6 })
            }
            HeadRead::Short => Ok(AnswerPiece::Short),
            HeadRead::Bad { at } => Ok(AnswerPiece::Bad { at }),
        }
    }
}
