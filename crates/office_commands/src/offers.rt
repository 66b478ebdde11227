ghost use Rattle.std.specs.Prelude.{◌≡◌, ◌<◌, ◌≤◌, length, IfOk, IfSome, Err};
ghost use Rattle.disk_model.specs.Faults.{Rose};
ghost use Rattle.ldar_facts.specs.Grammar.{spelled};
ghost use Rattle.ldar_journal.specs.Image.{batches_of};
ghost use Rattle.office_mirror.specs.AnswerGrammar.{answer_fields};
ghost use Rattle.office_commands.specs.Offering.{OfferEnds, PutsOffer};
ghost use Rattle.office_commands.specs.Statuses.{HasCause};

use crate::status::Status;
use disk_model::Disk;
use fact_kinds::Memory;
use ldar_ports::{Sink, put_all};
use office_book::Book;
use office_mirror::{Answer, offer, write_answer};
use std::alloc::Global;

/// Writes the answers of an office with its batches after the first `from`, answer by answer.
pub fn put_offers<D: Disk, K: Sink>(
    alloc: Global,
    output: &mut K,
    book: &Book<D>,
    from: u32,
) -> Status
    ensures ends { OfferEnds (batches_of book.now.frames) from result (K.pieces output.old) (K.pieces output.new) }
    ensures cause { HasCause result ⊥ (Rose (K.faults output.old) (K.faults output.new)) ⊥ ⊥ }
    ensures count { K.faults output.old ≤ K.faults output.new }
{
    let (held, _) = book.counts();
    if from > held {
        return Status::NoSuchPosition(from);
    }
    let mut start = from;
    'offers: loop {
        match put_offer(alloc, output, book, start, held) {
            Ok(Some(next)) => start = next,
            Ok(None) => return Status::Done,
            Err(status) => return status,
        }
    }
}

/// Writes the answer with the batches after the first `start` of those held, and returns where the next one starts.
fn put_offer<D: Disk, K: Sink>(
    alloc: Global,
    output: &mut K,
    book: &Book<D>,
    start: u32,
    held: u32,
) -> Result<Option<u32>, Status>
    requires held { held ≡ length (batches_of book.now.frames) }
    ensures puts { PutsOffer (batches_of book.now.frames) start result (K.pieces output.old) (K.pieces output.new) }
    ensures later { IfOk result (λ next. IfSome next (λ next. (start < next) × (next ≤ length (batches_of book.now.frames)))) }
    ensures cause { result ≡ Err Status.WriteFault → Rose (K.faults output.old) (K.faults output.new) }
    ensures count { K.faults output.old ≤ K.faults output.new }
{
    let answer = match offer(alloc, book, start) {
        Ok(Some(answer)) => answer,
        Ok(None) => return Ok(None),
        Err(_) => return Err(Status::Memory),
    };
    let Ok(text) = text_of(alloc, &answer) else {
        return Err(Status::Memory);
    };
    match put_all(output, book.disk(), &text) {
        Ok(()) => Ok(Some(start + answer.batches.as_slice().len() as u32)),
        Err(_) => Err(Status::WriteFault),
    }
}

/// The spelling of an answer.
fn text_of(alloc: Global, answer: &Answer) -> Result<Vec<u8>, Memory>
    ensures value { IfOk result (λ text. text.items ≡ spelled (answer_fields answer.now)) }
{
    let mut text = Vec::new(alloc);
    write_answer(alloc, answer, &mut text)?;
    Ok(text)
}
