ghost use Rattle.std.specs.Prelude.{◌≡◌, ◌≤◌, [], false};
ghost use Rattle.disk_model.specs.Faults.{Rose};
ghost use Rattle.ldar_journal.specs.Image.{batches_of};
ghost use Rattle.office_book.specs.Safe.{Leads};
ghost use Rattle.office_commands.specs.Run.{Answers, question_row, task_row};
ghost use Rattle.office_commands.specs.Scene.{streams};
ghost use Rattle.office_commands.specs.Statuses.{HasCause};
ghost use Rattle.office_commands.specs.Tasks.{Does};

use crate::command::{Question, Task};
use crate::import::import;
use crate::offers::put_offers;
use crate::reports::file;
use crate::seals::seals;
use crate::status::{Status, status_of};
use crate::views::{check, show};
use disk_model::Disk;
use ldar_ports::{Sink, Source};
use ldar_session::{dock, session};
use office_book::Book;
use report_filing::Filing;
use std::alloc::Global;

/// Does a task in an opened office.
pub fn do_task<D: Disk, S: Source, K: Sink, F: Filing>(
    alloc: Global,
    task: Task,
    book: &mut Book<D>,
    input: &mut S,
    output: &mut K,
    filing: &mut F,
) -> Status
    requires in_range { (task_row task).in_range }
    requires settled { book.old.doubt ≡ [] }
    ensures does { let at = streams S.left K.pieces K.faults F.on_file in
        Does (Leads D.content D.left D.clock D.name D.faults) D.clock task result book.old book.new
        (at input.old output.old filing.old) (at input.new output.new filing.new) }
    ensures unread { (task_row task).touches.input ≡ false → input.new ≡ input.old }
    ensures filing_unchanged { (task_row task).touches.filing ≡ false → filing.new ≡ filing.old }
    ensures reports_unchanged { (task_row task).touches.reports ≡ false → F.on_file filing.new ≡ F.on_file filing.old }
    ensures cause { HasCause result (Rose (S.faults input.old) (S.faults input.new)) (Rose (K.faults output.old) (K.faults output.new))
        (Rose (D.faults book.old.disk) (D.faults book.new.disk)) (Rose (F.faults filing.old) (F.faults filing.new)) }
    ensures read_count { S.faults input.old ≤ S.faults input.new }
    ensures write_count { K.faults output.old ≤ K.faults output.new }
    ensures filing_count { F.faults filing.old ≤ F.faults filing.new }
{
    match task {
        Task::Dock => status_of(dock(alloc, book, input, output)),
        Task::Drain => status_of(session(alloc, book, input, output)),
        Task::Import { number, sort } => import(alloc, book, input, output, number, sort),
        Task::Seals { unit, day } => seals(alloc, book, input, output, unit, day),
        Task::Ask(question) => answer(alloc, question, book, output, filing),
    }
}

/// Answers a question of an opened office.
fn answer<D: Disk, K: Sink, F: Filing>(
    alloc: Global,
    question: Question,
    book: &mut Book<D>,
    output: &mut K,
    filing: &mut F,
) -> Status
    requires in_range { (question_row question).in_range }
    requires settled { book.old.doubt ≡ [] }
    ensures answers { Answers question (batches_of book.old.frames) result (F.on_file filing.old) (F.on_file filing.new)
        (K.pieces output.old) (K.pieces output.new) }
    ensures unchanged { book.new ≡ book.old }
    ensures filing_unchanged { (question_row question).touches.filing ≡ false → filing.new ≡ filing.old }
    ensures reports_unchanged { (question_row question).touches.reports ≡ false → F.on_file filing.new ≡ F.on_file filing.old }
    ensures cause { HasCause result ⊥ (Rose (K.faults output.old) (K.faults output.new)) ⊥ (Rose (F.faults filing.old) (F.faults filing.new)) }
    ensures write_count { K.faults output.old ≤ K.faults output.new }
    ensures filing_count { F.faults filing.old ≤ F.faults filing.new }
{
    match question {
        Question::Show(request) => show(output, book, &request),
        Question::File { unit, half, day } => file(alloc, output, filing, book, unit, half, day),
        Question::Check => check(alloc, output, book),
        Question::Offer { from } => put_offers(alloc, output, book, from),
    }
}
