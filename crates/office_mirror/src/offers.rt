ghost use Rattle.std.specs.Prelude.{◌≡◌, ◌-◌, ◌≤◌, length, take, drop, IfOk};
ghost use Rattle.ldar_journal.specs.Image.{batches_of};
ghost use Rattle.office_mirror.specs.Offers.{offered};

use crate::Memory;
use crate::answer::{Answer, BatchList, MOST_BATCHES};
use disk_model::Disk;
use fact_kinds::Batch;
use office_book::Book;
use std::alloc::Global;

/// The next batches of an office after the first `start`: 16 of them, or all if there are fewer, and `None` if there are none.
/// A batch in doubt is not offered.
pub fn offer<D: Disk>(alloc: Global, book: &Book<D>, start: u32) -> Result<Option<Answer>, Memory>
    ensures value { IfOk result (λ answer. answer ≡ offered (batches_of book.now.frames) start) }
{
    let (held, _) = book.counts();
    if start >= held {
        return Ok(None);
    }
    let end = start + (held - start).min(MOST_BATCHES as u32);
    let batches = batches_between(alloc, book, start, end)?;
    let batches = BatchList::new(batches).unwrap();
    Ok(Some(Answer { start, batches }))
}

/// Copies of the batches at the positions after `start`, up to `end`.
fn batches_between<D: Disk>(
    alloc: Global,
    book: &Book<D>,
    start: u32,
    end: u32,
) -> Result<Vec<Batch>, Memory>
    requires order { start ≤ end }
    requires there { end ≤ length (batches_of book.now.frames) }
    ensures value { IfOk result (λ batches. batches.items ≡ take (end - start) (drop start (batches_of book.now.frames))) }
{
    let mut batches = Vec::new(alloc);
    for held in start..end {
        batches.push(book.batch_at(alloc, held + 1)?)?;
    }
    Ok(batches)
}
