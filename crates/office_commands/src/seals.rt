ghost use Rattle.std.specs.Prelude.{◌≡◌, ◌≤◌, ℕ, List};
ghost use Rattle.disk_model.specs.Faults.{Rose};
ghost use Rattle.fact_kinds.specs.Facts.{facts_to};
ghost use Rattle.ldar_journal.specs.Image.{batches_of};
ghost use Rattle.ldar_ports.specs.Source.{Takes};
ghost use Rattle.seal_view.specs.View.{seals_asked};
ghost use Rattle.office_commands.specs.SealViews.{EndsSeals};
ghost use Rattle.office_commands.specs.Statuses.{HasCause};

use crate::import::text_of;
use crate::status::Status;
use crate::views::put_text;
use disk_model::Disk;
use ldar_days::Day;
use ldar_law::What;
use ldar_ports::{Sink, Source};
use office_book::Book;
use seal_view::{SealsWhy, seals_text};
use std::alloc::Global;

/// Reads a seal file from the input, and writes the view of a process unit's pumps with dual mechanical seals (40 CFR 60.482-2a(d)).
pub fn seals<D: Disk, S: Source, K: Sink>(
    alloc: Global,
    book: &mut Book<D>,
    input: &mut S,
    output: &mut K,
    unit: u16,
    day: Day,
) -> Status
    ensures shows { (text : List ℕ) × Takes (S.left input.old) text (S.left input.new)
        × EndsSeals (seals_asked unit day text (facts_to day (batches_of book.old.frames))) result text (S.left input.new)
        (K.pieces output.old) (K.pieces output.new) }
    ensures unchanged { book.new ≡ book.old }
    ensures cause { HasCause result (Rose (S.faults input.old) (S.faults input.new)) (Rose (K.faults output.old) (K.faults output.new)) ⊥ ⊥ }
    ensures read_count { S.faults input.old ≤ S.faults input.new }
    ensures write_count { K.faults output.old ≤ K.faults output.new }
{
    let text = match text_of(alloc, input) {
        Ok(text) => text,
        Err(status) => return status,
    };
    match seals_text(alloc, book, unit, day, text.bytes()) {
        Ok(view) => put_text(output, book.disk(), view.as_bytes()),
        Err(SealsWhy::NoUnit) => Status::NoSuch(What::Unit),
        Err(SealsWhy::BadRow { at }) => Status::BadRow { at },
        Err(SealsWhy::Memory) => Status::Memory,
    }
}
