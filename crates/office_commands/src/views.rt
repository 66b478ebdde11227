ghost use Rattle.std.specs.Prelude.{◌≡◌, ◌≤◌, [], IfOk};
ghost use Rattle.std.specs.Fmt.{decimal};
ghost use Rattle.std.specs.String.{string_bytes};
ghost use Rattle.disk_model.specs.Faults.{Rose};
ghost use Rattle.ldar_journal.specs.Image.{batches_of};
ghost use Rattle.ldar_law.specs.Shown.{shown};
ghost use Rattle.office_views.specs.Answers.{IsView};
ghost use Rattle.office_commands.specs.Run.{ShowsEnds, check_text, counts_text};
ghost use Rattle.office_commands.specs.Statuses.{HasCause, TextEnds};

use crate::status::Status;
use disk_model::Disk;
use fact_kinds::Memory;
use ldar_law::Request;
use ldar_ports::{Sink, put_all};
use office_book::Book;
use office_views::Shown;
use std::alloc::Global;

/// Shows a view of an office with nothing in doubt.
pub fn show<D: Disk, K: Sink>(output: &mut K, book: &mut Book<D>, request: &Request) -> Status
    requires view { IsView request.now }
    requires settled { book.old.doubt ≡ [] }
    ensures ends { ShowsEnds (shown (batches_of book.old.frames) request.now) result (K.pieces output.old) (K.pieces output.new) }
    ensures unchanged { book.new ≡ book.old }
    ensures cause { HasCause result ⊥ (Rose (K.faults output.old) (K.faults output.new)) ⊥ ⊥ }
    ensures count { K.faults output.old ≤ K.faults output.new }
{
    match book.shown(request) {
        Ok(Shown::Text(text)) => put_text(output, book.disk(), text.as_bytes()),
        Ok(Shown::NoSuch(what)) => Status::NoSuch(what),
        Err(_) => Status::Memory,
    }
}

/// Writes a text, in pieces.
pub fn put_text<D: Disk, K: Sink>(output: &mut K, beside: &D, text: &[u8]) -> Status
    ensures ends { TextEnds text.now result (K.pieces output.old) (K.pieces output.new) }
    ensures cause { HasCause result ⊥ (Rose (K.faults output.old) (K.faults output.new)) ⊥ ⊥ }
    ensures count { K.faults output.old ≤ K.faults output.new }
{
    match put_all(output, beside, text) {
        Ok(()) => Status::Done,
        Err(_) => Status::WriteFault,
    }
}

/// Writes the numbers of batches and facts in an office.
pub fn check<D: Disk, K: Sink>(alloc: Global, output: &mut K, book: &Book<D>) -> Status
    ensures ends { TextEnds (check_text (batches_of book.now.frames)) result (K.pieces output.old) (K.pieces output.new) }
    ensures cause { HasCause result ⊥ (Rose (K.faults output.old) (K.faults output.new)) ⊥ ⊥ }
    ensures count { K.faults output.old ≤ K.faults output.new }
{
    let (batches, facts) = book.counts();
    put_counts(alloc, output, book.disk(), batches, facts)
}

/// Writes the line of these counts.
fn put_counts<D: Disk, K: Sink>(
    alloc: Global,
    output: &mut K,
    beside: &D,
    batches: u32,
    facts: u64,
) -> Status
    ensures ends { TextEnds (counts_text batches facts) result (K.pieces output.old) (K.pieces output.new) }
    ensures cause { HasCause result ⊥ (Rose (K.faults output.old) (K.faults output.new)) ⊥ ⊥ }
    ensures count { K.faults output.old ≤ K.faults output.new }
{
    match counts_line(alloc, batches, facts) {
        Ok(line) => put_text(output, beside, line.as_bytes()),
        Err(_) => Status::Memory,
    }
}

/// The line of these counts.
fn counts_line(alloc: Global, batches: u32, facts: u64) -> Result<String, Memory>
    ensures value { IfOk result (λ line. string_bytes line ≡ counts_text batches facts) }
{
    format!(in alloc; "journal {batches} batches {facts} facts\n")
}
