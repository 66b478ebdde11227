ghost use Rattle.std.specs.Prelude.{◌≡◌, ◌≤◌, ◌⊎◌, ◌++◌, codes, OnErr};
ghost use Rattle.std.specs.Fmt.{decimal};
ghost use Rattle.disk_model.specs.Faults.{Rose};
ghost use Rattle.ldar_law.specs.Texts.{end_of_line};
ghost use Rattle.ldar_law.specs.Verdicts.{paragraph_of};
ghost use Rattle.office_commands.specs.Statuses.{IsPut, IsNoted, note_of};

use crate::status::Status;
use disk_model::Disk;
use itoa::{Buffer, Integer};
use ldar_law::paragraph;
use ldar_ports::{Sink, SinkFault, put_all};

/// Writes the note on how a command ended, and returns the exit status. If the note cannot be written, the status is
/// that of a write error, unless the command ran out of memory; success needs no note. Allocates nothing.
pub fn note<E: Sink, D: Disk>(notes: &mut E, beside: &D, status: Status) -> u8
    ensures noted { IsNoted status (E.pieces notes.old) (E.pieces notes.new) (E.faults notes.old) (E.faults notes.new) result }
    ensures cause { result ≡ 4 → (status ≡ Status.WriteFault) ⊎ Rose (E.faults notes.old) (E.faults notes.new) }
    ensures count { E.faults notes.old ≤ E.faults notes.new }
{
    match put_note(notes, beside, status) {
        Ok(()) => status.number(),
        Err(_) => status.number_unnoted(),
    }
}

/// Puts the line that notes a status.
fn put_note<E: Sink, D: Disk>(notes: &mut E, beside: &D, status: Status) -> Result<(), SinkFault>
    ensures said { IsPut (note_of status) (E.pieces notes.old) (E.pieces notes.new) result }
    ensures count { E.faults notes.old ≤ E.faults notes.new }
    ensures cause { OnErr result (Rose (E.faults notes.old) (E.faults notes.new)) }
{
    match status {
        Status::Done => put_text(notes, beside, ""),
        Status::Usage => put_text(notes, beside, "usage: ldar JOURNAL COMMAND\n"),
        Status::ReadFault => put_text(notes, beside, "read fault\n"),
        Status::WriteFault => put_text(notes, beside, "write fault\n"),
        Status::DiskFault => put_text(notes, beside, "disk fault\n"),
        Status::Memory => put_text(notes, beside, "memory\n"),
        Status::NotAJournal => put_text(notes, beside, "not a journal\n"),
        Status::Damaged { at } => put_number(notes, beside, "damaged journal at ", at, "\n"),
        Status::Unruly { position, rule } => put_unruly(notes, beside, position, rule),
        Status::CutShort { got } => put_number(notes, beside, "input cut: ", got, " bytes left\n"),
        Status::BadInput { at } => put_number(notes, beside, "bad input at ", at, "\n"),
        Status::TooLarge => put_text(notes, beside, "input too large\n"),
        Status::NotEmpty => put_text(notes, beside, "not empty\n"),
        Status::BadRow { at } => put_number(notes, beside, "bad row ", at, "\n"),
        Status::Conflict { position } => put_number(notes, beside, "conflict ", position, "\n"),
        Status::Denied { fact, rule } => put_denied(notes, beside, fact, rule),
        Status::Full { facts } => put_number(notes, beside, "full ", facts, "\n"),
        Status::NoSuch(what) => put_no_such(notes, beside, what.word()),
        Status::FilingFault => put_text(notes, beside, "filing fault\n"),
        Status::SameReport { revision } => {
            put_number(notes, beside, "same as revision ", revision, "\n")
        }
        Status::NoRevisionLeft => put_text(notes, beside, "no revision left\n"),
        Status::NoSuchRevision(revision) => {
            put_number(notes, beside, "no such revision ", revision, "\n")
        }
        Status::NoSuchPosition(position) => {
            put_number(notes, beside, "no such position ", position, "\n")
        }
        Status::Stranger(place) => put_number(notes, beside, "stranger ", place, "\n"),
    }
}

/// Puts a text.
fn put_text<E: Sink, D: Disk>(notes: &mut E, beside: &D, text: &str) -> Result<(), SinkFault>
    ensures said { IsPut text.now (E.pieces notes.old) (E.pieces notes.new) result }
    ensures count { E.faults notes.old ≤ E.faults notes.new }
    ensures cause { OnErr result (Rose (E.faults notes.old) (E.faults notes.new)) }
{
    put_all(notes, beside, text.as_bytes())
}

/// Writes two texts, one after the other.
fn put_both<E: Sink, D: Disk>(
    notes: &mut E,
    beside: &D,
    first: &str,
    second: &str,
) -> Result<(), SinkFault>
    ensures said { IsPut (first.now ++ second.now) (E.pieces notes.old) (E.pieces notes.new) result }
    ensures count { E.faults notes.old ≤ E.faults notes.new }
    ensures cause { OnErr result (Rose (E.faults notes.old) (E.faults notes.new)) }
{
    put_text(notes, beside, first)?;
    put_text(notes, beside, second)
}

/// Writes a text, a number and a text.
pub fn put_number<E: Sink, D: Disk, I: Integer>(
    notes: &mut E,
    beside: &D,
    before: &str,
    number: I,
    behind: &str,
) -> Result<(), SinkFault>
    ensures said { IsPut (before.now ++ (I.text number ++ behind.now)) (E.pieces notes.old) (E.pieces notes.new) result }
    ensures count { E.faults notes.old ≤ E.faults notes.new }
    ensures cause { OnErr result (Rose (E.faults notes.old) (E.faults notes.new)) }
{
    put_text(notes, beside, before)?;
    let mut digits = Buffer::new();
    put_both(notes, beside, digits.format(number), behind)
}

/// Puts the note of a batch that is denied in the journal.
fn put_unruly<E: Sink, D: Disk>(
    notes: &mut E,
    beside: &D,
    position: u32,
    rule: u8,
) -> Result<(), SinkFault>
    ensures said { IsPut (note_of (Status.Unruly position rule)) (E.pieces notes.old) (E.pieces notes.new) result }
    ensures count { E.faults notes.old ≤ E.faults notes.new }
    ensures cause { OnErr result (Rose (E.faults notes.old) (E.faults notes.new)) }
{
    put_number(notes, beside, "unruly batch ", position, " ")?;
    put_number(notes, beside, "", rule, "\n")
}

/// Puts the note of a batch that was sent and is denied.
fn put_denied<E: Sink, D: Disk>(
    notes: &mut E,
    beside: &D,
    fact: u16,
    rule: u8,
) -> Result<(), SinkFault>
    ensures said { IsPut (note_of (Status.Denied fact rule)) (E.pieces notes.old) (E.pieces notes.new) result }
    ensures count { E.faults notes.old ≤ E.faults notes.new }
    ensures cause { OnErr result (Rose (E.faults notes.old) (E.faults notes.new)) }
{
    put_number(notes, beside, "denied ", fact, " ")?;
    put_rule(notes, beside, rule)
}

/// Puts a rule of denials and what it names.
fn put_rule<E: Sink, D: Disk>(notes: &mut E, beside: &D, rule: u8) -> Result<(), SinkFault>
    ensures said { IsPut (decimal rule ++ codes " " ++ (paragraph_of rule ++ end_of_line)) (E.pieces notes.old) (E.pieces notes.new) result }
    ensures count { E.faults notes.old ≤ E.faults notes.new }
    ensures cause { OnErr result (Rose (E.faults notes.old) (E.faults notes.new)) }
{
    put_number(notes, beside, "", rule, " ")?;
    put_both(notes, beside, named_by(rule), "\n")
}

/// What a rule of denials names, if it is one.
fn named_by(rule: u8) -> &'static str
    ensures value { result.now ≡ paragraph_of rule }
{
    if (1..=21).contains(&rule) {
        return paragraph(rule);
    }
    ""
}

/// Puts the note that there is none of what this word names.
fn put_no_such<E: Sink, D: Disk>(notes: &mut E, beside: &D, word: &str) -> Result<(), SinkFault>
    ensures said { IsPut (codes "no such " ++ word.now ++ end_of_line) (E.pieces notes.old) (E.pieces notes.new) result }
    ensures count { E.faults notes.old ≤ E.faults notes.new }
    ensures cause { OnErr result (Rose (E.faults notes.old) (E.faults notes.new)) }
{
    put_text(notes, beside, "no such ")?;
    put_both(notes, beside, word, "\n")
}
