ghost use Rattle.std.specs.Prelude.{◌≡◌, ◌≤◌, ◌++◌, Ok, Some, IfOk, IfErr, OnOk};
ghost use Rattle.std.specs.List.{flat_map};
ghost use Rattle.std.specs.String.{string_bytes};
ghost use Rattle.disk_model.specs.Faults.{Rose};
ghost use Rattle.disk_model.specs.Told.{Told};
ghost use Rattle.ldar_law.specs.Reports as law;
ghost use Rattle.ldar_law.specs.Texts.{end_line};
ghost use Rattle.report_filing.specs.Revisions.{revision_of};
ghost use Rattle.office_commands.specs.Filing.{AmendedEnds, LacksOne, Lacks, both_of, change_line, pair_line};
ghost use Rattle.office_commands.specs.Filing as spec;
ghost use Rattle.office_commands.specs.Statuses.{HasCause, TextEnds};

use crate::command::RevisionPair;
use crate::status::Status;
use crate::views::put_text;
use disk_model::Disk;
use fact_kinds::Memory;
use ldar_law::{Amended, Cells, Filed};
use ldar_ports::Sink;
use report_filing::{Filing, FilingFault, amended_cells};
use std::alloc::Global;

/// Prints the numbers that differ between two revisions on file (40 CFR 60.487a(c)(2)).
pub fn amended<D: Disk, K: Sink, F: Filing>(
    alloc: Global,
    output: &mut K,
    filing: &mut F,
    beside: &D,
    pair: RevisionPair,
) -> Status
    ensures ends { AmendedEnds pair result (F.on_file filing.old) (K.pieces output.old) (K.pieces output.new) }
    ensures reports { F.on_file filing.new ≡ F.on_file filing.old }
    ensures cause { HasCause result ⊥ (Rose (K.faults output.old) (K.faults output.new)) ⊥ (Rose (F.faults filing.old) (F.faults filing.new)) }
    ensures write_count { K.faults output.old ≤ K.faults output.new }
    ensures filing_count { F.faults filing.old ≤ F.faults filing.new }
{
    match both_revisions(alloc, filing, pair) {
        Ok((earlier, later)) => {
            put_amended(alloc, output, beside, pair, &earlier.cells, &later.cells)
        }
        Err(status) => status,
    }
}

/// Both revisions, or how the command ends because one is missing or could not be read. FROM comes first.
fn both_revisions<F: Filing>(
    alloc: Global,
    filing: &mut F,
    pair: RevisionPair,
) -> Result<(Filed, Filed), Status>
    ensures found { IfOk result (λ both. Told (F.on_file filing.old) (λ all. both_of pair all ≡ Ok both)) }
    ensures missing { IfErr result (λ status. LacksOne pair status (F.on_file filing.old)) }
    ensures reports { F.on_file filing.new ≡ F.on_file filing.old }
    ensures count { F.faults filing.old ≤ F.faults filing.new }
    ensures cause { IfErr result (λ status. status ≡ Status.FilingFault → Rose (F.faults filing.old) (F.faults filing.new)) }
{
    let earlier = match one_revision(alloc, filing, pair.unit, pair.half, pair.from) {
        Ok(earlier) => earlier,
        Err(status) => return Err(status),
    };
    match one_revision(alloc, filing, pair.unit, pair.half, pair.to) {
        Ok(later) => Ok((earlier, later)),
        Err(status) => Err(status),
    }
}

/// One revision, or how the command ends without it.
fn one_revision<F: Filing>(
    alloc: Global,
    filing: &mut F,
    unit: u8,
    half: u16,
    revision: u32,
) -> Result<Filed, Status>
    ensures found { IfOk result (λ filed. Told (F.on_file filing.old) (λ all. revision_of unit half revision all ≡ Some filed)) }
    ensures missing { IfErr result (λ status. Lacks unit half revision status (F.on_file filing.old)) }
    ensures reports { F.on_file filing.new ≡ F.on_file filing.old }
    ensures count { F.faults filing.old ≤ F.faults filing.new }
    ensures cause { IfErr result (λ status. status ≡ Status.FilingFault → Rose (F.faults filing.old) (F.faults filing.new)) }
{
    match filing.revision(alloc, unit, half, revision) {
        Ok(Some(filed)) => Ok(filed),
        Ok(None) => Err(Status::NoSuchRevision(revision)),
        Err(FilingFault::Failed) => Err(Status::FilingFault),
        Err(FilingFault::Memory) => Err(Status::Memory),
    }
}

/// Prints what differs between the cells of two revisions.
fn put_amended<D: Disk, K: Sink>(
    alloc: Global,
    output: &mut K,
    beside: &D,
    pair: RevisionPair,
    earlier: &Cells,
    later: &Cells,
) -> Status
    ensures ends { TextEnds (spec.amended_text pair (law.amended earlier.now later.now)) result (K.pieces output.old) (K.pieces output.new) }
    ensures cause { HasCause result ⊥ (Rose (K.faults output.old) (K.faults output.new)) ⊥ ⊥ }
    ensures count { K.faults output.old ≤ K.faults output.new }
{
    let Ok(changes) = amended_cells(alloc, earlier, later) else {
        return Status::Memory;
    };
    match amended_text(alloc, pair, &changes) {
        Ok(text) => put_text(output, beside, text.as_bytes()),
        Err(_) => Status::Memory,
    }
}

/// The text on what differs between two revisions.
fn amended_text(alloc: Global, pair: RevisionPair, changes: &[Amended]) -> Result<String, Memory>
    ensures value { IfOk result (λ text. string_bytes text ≡ spec.amended_text pair changes.now) }
{
    let mut text = begun(alloc, pair)?;
    put_each(&mut text, changes)?;
    put_end(&mut text, changes.len())?;
    Ok(text)
}

/// A text with its first line.
fn begun(alloc: Global, pair: RevisionPair) -> Result<String, Memory>
    ensures value { IfOk result (λ text. string_bytes text ≡ pair_line pair) }
{
    let (unit, half, from, to) = (pair.unit, pair.half, pair.from, pair.to);
    format!(in alloc; "amended {unit} {half} {from} {to}\n")
}

/// Appends a line for each number that differs.
fn put_each(text: &mut String, changes: &[Amended]) -> Result<(), Memory>
    ensures value { OnOk result (string_bytes text.new ≡ string_bytes text.old ++ flat_map change_line changes.now) }
{
    for change in changes {
        put_change(text, *change)?;
    }
    Ok(())
}

/// Appends the line of a number that differs.
fn put_change(text: &mut String, change: Amended) -> Result<(), Memory>
    ensures value { OnOk result (string_bytes text.new ≡ string_bytes text.old ++ change_line change) }
{
    let (month, column, old, new) = (change.month, change.column, change.old, change.new);
    write!(text, "month {month} column {column} from {old} to {new}\n")
}

/// Appends the last line, with the number of lines before it but for the first.
fn put_end(text: &mut String, lines: usize) -> Result<(), Memory>
    ensures value { OnOk result (string_bytes text.new ≡ string_bytes text.old ++ end_line lines) }
{
    write!(text, "end {lines}\n")
}
