ghost use Rattle.std.specs.Prelude.{◌≡◌, ◌≤◌, ◌⊎◌, ◌++◌, codes, OnErr};
ghost use Rattle.std.specs.Fmt.{decimal};
ghost use Rattle.disk_model.specs.Faults.{Rose};
ghost use Rattle.fact_kinds.specs.Facts.{facts_to};
ghost use Rattle.ldar_journal.specs.Image.{batches_of};
ghost use Rattle.ldar_law.specs.Texts.{end_of_line};
ghost use Rattle.office_views.specs.Answers.{report_asked};
ghost use Rattle.office_commands.specs.Filing.{AskedEnds, ReportEnds, filed_text};
ghost use Rattle.office_commands.specs.Statuses.{HasCause, IsPut, TextEnds};

use crate::notes::put_number;
use crate::status::Status;
use disk_model::Disk;
use fact_kinds::Day;
use ldar_law::Report;
use ldar_ports::{Sink, SinkFault};
use office_book::Book;
use office_views::AskError;
use report_filing::{FileError, Filing, file_report};
use std::alloc::Global;

/// Files the report of a half as of a day, after the last revision (40 CFR 60.487a(c)), and writes the number of its revision.
pub fn file<D: Disk, K: Sink, F: Filing>(
    alloc: Global,
    output: &mut K,
    filing: &mut F,
    book: &mut Book<D>,
    unit: u16,
    half: u16,
    day: Day,
) -> Status
    ensures ends { AskedEnds (report_asked unit half day (facts_to day (batches_of book.old.frames))) result
        (F.on_file filing.old) (F.on_file filing.new) (K.pieces output.old) (K.pieces output.new) }
    ensures unchanged { book.new ≡ book.old }
    ensures cause { HasCause result ⊥ (Rose (K.faults output.old) (K.faults output.new)) ⊥ (Rose (F.faults filing.old) (F.faults filing.new)) }
    ensures write_count { K.faults output.old ≤ K.faults output.new }
    ensures filing_count { F.faults filing.old ≤ F.faults filing.new }
{
    match book.report(alloc, unit, half, day) {
        Ok(report) => file_one(alloc, output, filing, book.disk(), &report),
        Err(AskError::NoSuch(what)) => Status::NoSuch(what),
        Err(AskError::Memory) => Status::Memory,
    }
}

/// Files a report, and prints its revision.
fn file_one<D: Disk, K: Sink, F: Filing>(
    alloc: Global,
    output: &mut K,
    filing: &mut F,
    beside: &D,
    report: &Report,
) -> Status
    ensures ends { ReportEnds report.now result (F.on_file filing.old) (F.on_file filing.new) (K.pieces output.old) (K.pieces output.new) }
    ensures cause { HasCause result ⊥ (Rose (K.faults output.old) (K.faults output.new)) ⊥ (Rose (F.faults filing.old) (F.faults filing.new)) }
    ensures write_count { K.faults output.old ≤ K.faults output.new }
    ensures filing_count { F.faults filing.old ≤ F.faults filing.new }
{
    match file_report(alloc, filing, report) {
        Ok(revision) => tell_filed(output, beside, report.unit, report.half, revision),
        Err(FileError::Same { revision }) => Status::SameReport { revision },
        Err(FileError::Full) => Status::NoRevisionLeft,
        Err(FileError::Fault) => Status::FilingFault,
        Err(FileError::Memory) => Status::Memory,
    }
}

/// Prints which revision was filed. It takes no memory, so a report on file is never reported as out of memory.
fn tell_filed<D: Disk, K: Sink>(
    output: &mut K,
    beside: &D,
    unit: u8,
    half: u16,
    revision: u32,
) -> Status
    ensures ends { TextEnds (filed_text unit half revision) result (K.pieces output.old) (K.pieces output.new) }
    ensures only { (result ≡ Status.Done) ⊎ (result ≡ Status.WriteFault) }
    ensures cause { result ≡ Status.WriteFault → Rose (K.faults output.old) (K.faults output.new) }
    ensures count { K.faults output.old ≤ K.faults output.new }
{
    match put_filed(output, beside, unit, half, revision) {
        Ok(()) => Status::Done,
        Err(_) => Status::WriteFault,
    }
}

/// Puts the line of a revision on file.
fn put_filed<K: Sink, D: Disk>(
    output: &mut K,
    beside: &D,
    unit: u8,
    half: u16,
    revision: u32,
) -> Result<(), SinkFault>
    ensures said { IsPut (filed_text unit half revision) (K.pieces output.old) (K.pieces output.new) result }
    ensures count { K.faults output.old ≤ K.faults output.new }
    ensures cause { OnErr result (Rose (K.faults output.old) (K.faults output.new)) }
{
    put_number(output, beside, "filed ", unit, " ")?;
    put_revision(output, beside, half, revision)
}

/// Puts a half and the number of its revision.
fn put_revision<K: Sink, D: Disk>(
    output: &mut K,
    beside: &D,
    half: u16,
    revision: u32,
) -> Result<(), SinkFault>
    ensures said { IsPut (decimal half ++ codes " " ++ (decimal revision ++ end_of_line)) (K.pieces output.old) (K.pieces output.new) result }
    ensures count { K.faults output.old ≤ K.faults output.new }
    ensures cause { OnErr result (Rose (K.faults output.old) (K.faults output.new)) }
{
    put_number(output, beside, "", half, " ")?;
    put_number(output, beside, "", revision, "\n")
}
