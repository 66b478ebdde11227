//! Reading a batch of facts, from its first byte to its last. Numbers are big-endian.
//!
//! | place | width | field | range |
//! |---|---|---|---|
//! | 0 | 1 | the letter `B` | 66 |
//! | 1 | 2 | handheld | any |
//! | 3 | 4 | number of the batch at its handheld | any |
//! | 7 | 2 | number of facts | 1 to 512 |
//! | 9 | 7 to 23 each | the facts, in order | |
//!
//! A fact is these fields, at places from its first byte:
//!
//! | place | width | field | range |
//! |---|---|---|---|
//! | 0 | 1 | kind | 1 to 15 |
//! | 1 | 2 | day, since 1970-01-01 | 13879 to 47481 |
//! | 3 | 2 | minute of the day | 0 to 1439 |
//! | 5 | 2 to 18 | the fields of its kind: the table in `body_at.rt` | |
//!
//! Bytes are a batch if every field is in its range and the count is the number of facts. Each batch has one spelling
//! (`laws::one_spelling`). The bytes after a batch are not read.

ghost use Rattle.std.specs.Prelude.{◌≡◌, ℕ, ◌≤◌, length, take, IfOk};
ghost use Rattle.fact_kinds.specs.declared.batch.Batch.{Batch};
ghost use Rattle.ldar_facts.specs.declared.read.Read.{Read};
ghost use Rattle.ldar_facts.specs.FactForms as forms;
ghost use Rattle.ldar_facts.specs.Front.{IsWithin, read_of, read_of_stop};
ghost use Rattle.ldar_facts.specs.Grammar.{Spells, Begins, HasNoBatch, IsFirstWrongPlace, IfWhole, OnShort, IfBad};

use crate::cursor::Cursor;
use crate::read_end::ReadEnd;
use fact_kinds::Batch;
use std::alloc::{AllocError, Global};

/// What some bytes begin with.
#[derive(Drop)]
pub enum Read {
    /// A batch, in the first `used` bytes.
    Whole { batch: Batch, used: usize },
    /// The beginning of a batch: the bytes were cut short.
    Short,
    /// No batch. The bytes before place `at` (from 0) begin a batch, and with the byte at that place they do not.
    Bad { at: usize },
}

/// Reads the batch at the start of some bytes. Other bytes may follow it. The only error is out of memory.
pub fn read_batch(alloc: Global, bytes: &[u8]) -> Result<Read, AllocError>
    ensures whole { IfOk result (λ read. IfWhole read (λ batch used.
        (used ≤ length bytes.now) × Spells (take used bytes.now) batch)) }
    ensures short { IfOk result (λ read. OnShort read (Begins bytes.now × HasNoBatch bytes.now)) }
    ensures bad { IfOk result (λ read. IfBad read (λ at.
        IsFirstWrongPlace bytes.now at × HasNoBatch bytes.now)) }

    // If the bytes begin with a batch, that batch is read.
    ensures found { (batch : Batch) (used : ℕ) → used ≤ length bytes.now → Spells (take used bytes.now) batch
        → IfOk result (λ read. read ≡ Read.Whole batch used) }
{
    read_front(alloc, bytes)
}

/// Reads from the first byte on, following the form of a batch.
#[tactic(auto, unfolding(crate::specs::FactForms::batch))]
fn read_front(alloc: Global, bytes: &[u8]) -> Result<Read, AllocError>
    ensures { IfOk result (λ read. read ≡ read_of (length bytes.now) (forms.batch.read bytes.now)) }
{
    let mut cursor = Cursor::new(bytes);
    let head = match cursor.head() {
        Ok(head) => head,
        Err(stop) => return Ok(stopped(stop, bytes.len())),
    };
    let room = Vec::with_capacity(alloc, usize::from(head.count))?;
    match cursor.facts(head.count, room) {
        Ok(facts) => Ok(Read::Whole {
            batch: Batch {
                handheld: head.handheld,
                number: head.number,
                facts,
            },
            used: bytes.len() - cursor.left(),
        }),
        Err(stop) => Ok(stopped(stop, bytes.len())),
    }
}

/// The result of a reading of `len` bytes that ended like this.
fn stopped(stop: ReadEnd, len: usize) -> Read
    requires { IsWithin len stop }
    ensures { result ≡ read_of_stop len stop }
{
    match stop {
        ReadEnd::Short => Read::Short,
        ReadEnd::Wrong { left } => Read::Bad { at: len - left },
    }
}
