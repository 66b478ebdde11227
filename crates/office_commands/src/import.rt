ghost use Rattle.std.specs.Prelude.{◌≡◌, ◌≢◌, ◌≤◌, ℕ, List, length, Ok, IfOk, IfErr};
ghost use Rattle.disk_model.specs.Faults.{Rose};
ghost use Rattle.ldar_ports.specs.Source.{Takes};
ghost use Rattle.office_book.specs.Safe.{Leads};
ghost use Rattle.register_import.specs.declared.limits.TheConstants.{LAST_NUMBER, LONGEST_TEXT};
ghost use Rattle.register_import.specs.Rows.{TellsRow};
ghost use Rattle.office_commands.specs.Sending.{IsSent};
ghost use Rattle.ldar_session.specs.Served.{Served, Talk, clock_beside};
ghost use Rattle.office_commands.specs.Imports.{EndsImport, IsRead, ReadsNone};
ghost use Rattle.office_commands.specs.Imports as spec;

use crate::batches::send;
use crate::command::Sort;
use crate::status::{Status, status_sent};
use disk_model::Disk;
use fact_kinds::Batch;
use ldar_ports::{Sink, Source, Window};
use office_book::Book;
use register_import::{ImportError, LONGEST_TEXT, components_of, units_of};
use std::alloc::Global;

/// Reads a file of the register from the input, and sends its batches to an office.
pub fn import<D: Disk, S: Source, K: Sink>(
    alloc: Global,
    book: &mut Book<D>,
    input: &mut S,
    output: &mut K,
    number: u32,
    sort: Sort,
) -> Status
    requires in_range { number ≤ LAST_NUMBER }
    ensures talk { (served : List Served) × (text : List ℕ) × (unsaid : List ℕ)
        × Takes (S.left input.old) text (S.left input.new)
        × Talk IsSent (Leads D.content D.left D.clock D.name D.faults) (clock_beside D.clock (λ book. book.disk)) book.old book.new
        (K.pieces output.old) (K.pieces output.new) served unsaid
        × EndsImport sort number (K.faults output.old, K.faults output.new) result served text (S.left input.new) unsaid }
    ensures read_fault { result ≡ Status.ReadFault → Rose (S.faults input.old) (S.faults input.new) }
    ensures write_fault { result ≡ Status.WriteFault → Rose (K.faults output.old) (K.faults output.new) }
    ensures no_filing { result ≢ Status.FilingFault }
    ensures read_count { S.faults input.old ≤ S.faults input.new }
    ensures write_count { K.faults output.old ≤ K.faults output.new }
{
    let text = match text_of(alloc, input) {
        Ok(text) => text,
        Err(status) => return status,
    };
    match batches_in(alloc, text.bytes(), number, sort) {
        Ok(batches) => status_sent(&send(alloc, book, output, batches)),
        Err(ImportError::Row { at }) => Status::BadRow { at },
        Err(ImportError::Memory) => Status::Memory,
    }
}

/// The whole input, if it is short enough for a file of the register or a seal file.
pub fn text_of<S: Source>(alloc: Global, input: &mut S) -> Result<Window, Status>
    ensures taken { (text : List ℕ) × Takes (S.left input.old) text (S.left input.new)
        × IfOk result (λ window. (window.bytes ≡ text) × IsRead text (S.left input.new))
        × IfErr result (λ status. ReadsNone status text) }
    ensures only_read { IfErr result (λ status. (status ≢ Status.WriteFault) × (status ≢ Status.FilingFault)) }
    ensures count { S.faults input.old ≤ S.faults input.new }
    ensures cause { IfErr result (λ status. status ≡ Status.ReadFault → Rose (S.faults input.old) (S.faults input.new)) }
{
    let Ok(mut window) = Window::new(alloc, LONGEST_TEXT + 1) else {
        return Err(Status::Memory);
    };
    match window.fill_from(input) {
        Ok(()) => {}
        Err(_) => return Err(Status::ReadFault),
    }
    if window.is_full() {
        return Err(Status::TooLarge);
    }
    Ok(window)
}

/// The batches of a file of this sort, numbered from here.
fn batches_in(
    alloc: Global,
    text: &[u8],
    number: u32,
    sort: Sort,
) -> Result<Vec<Batch>, ImportError>
    requires in_range { number ≤ LAST_NUMBER }
    requires fits { length text.now ≤ LONGEST_TEXT }
    ensures value { IfOk result (λ batches. spec.batches_in sort number text.now ≡ Ok batches.items) }
    ensures bad { IfErr result (TellsRow (spec.batches_in sort number text.now)) }
{
    match sort {
        Sort::Units => units_of(alloc, text, number),
        Sort::Components => components_of(alloc, text, number),
    }
}
