ghost use Rattle.std.specs.Prelude.{◌≡◌, ◌≢◌, ◌≤◌, ◌⊎◌, ◌++◌, ◌∷◌, [], ℕ, List, length, IfOk};
ghost use Rattle.std.specs.String.{string_bytes};
ghost use Rattle.disk_model.specs.Faults.{Rose};
ghost use Rattle.disk_model.specs.Keeps.{Keeps};
ghost use Rattle.drill_history.specs.declared.numbers.TheConstants.{GREATEST_SEED, LARGEST_DRILL};
ghost use Rattle.ldar_journal.specs.Image.{batches_of};
ghost use Rattle.ldar_law.specs.Machine.{Call};
ghost use Rattle.office_book.specs.Safe.{Leads, state_of};
ghost use Rattle.office_commands.specs.Drills as spec;
ghost use Rattle.office_commands.specs.Run.{DrillEnds};
ghost use Rattle.office_commands.specs.Scene.{seen};
ghost use Rattle.office_commands.specs.Statuses.{HasCause};

use crate::init::init;
use crate::status::{Status, refusal};
use crate::views::put_text;
use disk_model::Disk;
use drill_history::{SHOWN_DAY, SHOWN_QUARTER, drill_batches};
use fact_kinds::{Batch, Memory};
use ldar_days::Day;
use ldar_law::{Reply, Request, What};
use ldar_ports::Sink;
use office_book::{Book, Office, open_book};
use office_views::{Shown, Totals};
use std::alloc::Global;

/// How asking the requests of a drill ended.
#[derive(Clone, Copy, Debug, PartialEq, Eq)]
pub enum Asked {
    /// Each was answered.
    Done,
    /// The last one met a disk error.
    Fault,
    /// The office ran out of memory for the last one.
    Memory,
}

/// Makes a journal on an empty disk, and runs a drill in the office over it.
pub fn drill<D: Disk, K: Sink>(
    alloc: Global,
    output: &mut K,
    disk: D,
    seed: u16,
    size: u16,
) -> (Status, D)
    requires seed { seed ≤ GREATEST_SEED }
    requires size { size ≤ LARGEST_DRILL }
    ensures ends { let see = seen D.content D.images D.left D.clock D.faults in
        DrillEnds seed size result.0 (K.pieces output.old) (K.pieces output.new) (see disk) (see result.1) }
    ensures cause { HasCause result.0 ⊥ (Rose (K.faults output.old) (K.faults output.new)) (Rose (D.faults disk) (D.faults result.1)) ⊥ }
    ensures count { K.faults output.old ≤ K.faults output.new }
    ensures keeps { Keeps D.clock D.name D.faults disk result.1 }
{
    let mut disk = disk;
    match init(&mut disk) {
        Status::Done => over_new(alloc, output, disk, seed, size),
        status => (status, disk),
    }
}

/// Opens a journal that was just made, and runs a drill in the office over it.
fn over_new<D: Disk, K: Sink>(
    alloc: Global,
    output: &mut K,
    disk: D,
    seed: u16,
    size: u16,
) -> (Status, D)
    requires seed { seed ≤ GREATEST_SEED }
    requires size { size ≤ LARGEST_DRILL }
    ensures ends { let see = seen D.content D.images D.left D.clock D.faults in
        spec.EndsOver seed size result.0 (K.pieces output.old) (K.pieces output.new) (see disk) (see result.1) }
    ensures cause { HasCause result.0 ⊥ (Rose (K.faults output.old) (K.faults output.new)) (Rose (D.faults disk) (D.faults result.1)) ⊥ }
    ensures count { K.faults output.old ≤ K.faults output.new }
    ensures keeps { Keeps D.clock D.name D.faults disk result.1 }
{
    match open_book(alloc, disk) {
        Ok(mut book) => {
            let status = drill_in(alloc, &mut book, output, seed, size);
            (status, book.into_disk())
        }
        Err(error) => (refusal(error.why), error.disk),
    }
}

/// Runs a drill in an opened office.
fn drill_in<D: Disk, K: Sink>(
    alloc: Global,
    book: &mut Book<D>,
    output: &mut K,
    seed: u16,
    size: u16,
) -> Status
    requires seed { seed ≤ GREATEST_SEED }
    requires size { size ≤ LARGEST_DRILL }
    requires settled { book.old.doubt ≡ [] }
    ensures ends { (calls : List Call) × Leads D.content D.left D.clock D.name D.faults book.old calls book.new
        × spec.EndsDrill seed size (batches_of book.old.frames) result calls (state_of book.new) (K.pieces output.old) (K.pieces output.new) }
    ensures cause { HasCause result ⊥ (Rose (K.faults output.old) (K.faults output.new)) (Rose (D.faults book.old.disk) (D.faults book.new.disk)) ⊥ }
    ensures count { K.faults output.old ≤ K.faults output.new }
{
    let Ok(batches) = drill_batches(alloc, seed, size) else {
        return Status::Memory;
    };
    match ask_each(alloc, book, batches) {
        Asked::Done => tell(alloc, book, output, seed, size),
        Asked::Fault => Status::DiskFault,
        Asked::Memory => Status::Memory,
    }
}

/// Asks an office to keep batches, and after each one for the view of the drill's quarter, up to and including the first
/// request that is not answered.
fn ask_each<D: Disk>(alloc: Global, book: &mut Book<D>, batches: Vec<Batch>) -> Asked
    ensures ends { (calls : List Call) × Leads D.content D.left D.clock D.name D.faults book.old calls book.new
        × spec.EndsAsks result (spec.requests_for batches.items) calls }
{
    for batch in batches {
        match ask_pair(alloc, book, batch) {
            Asked::Done => {}
            ended => return ended,
        }
    }
    Asked::Done
}

/// Asks an office to keep a batch, and then for the view of the drill's quarter.
fn ask_pair<D: Disk>(alloc: Global, book: &mut Book<D>, batch: Batch) -> Asked
    ensures ends { (calls : List Call) × Leads D.content D.left D.clock D.name D.faults book.old calls book.new
        × spec.EndsAsks result (spec.with_view batch) calls }
{
    match ask_one(alloc, book, &Request::Sync(batch)) {
        Asked::Done => ask_one(alloc, book, &quarter_view()),
        ended => ended,
    }
}

/// Asks one request.
fn ask_one<D: Disk>(alloc: Global, book: &mut Book<D>, request: &Request) -> Asked
    ensures ends { (calls : List Call) × Leads D.content D.left D.clock D.name D.faults book.old calls book.new
        × spec.EndsAsks result (request.now ∷ []) calls }
{
    asked_by(&book.ask(alloc, request))
}

/// How asking goes on after this reply.
fn asked_by(reply: &Reply) -> Asked
    ensures value { result ≡ spec.asked_by reply.now }
{
    match reply {
        Reply::Fault => Asked::Fault,
        Reply::Memory => Asked::Memory,
        Reply::Receipt { .. }
        | Reply::Conflict { .. }
        | Reply::Denied { .. }
        | Reply::Full { .. }
        | Reply::Shown(_)
        | Reply::NoSuch(_) => Asked::Done,
    }
}

/// The view of the drill's quarter.
fn quarter_view() -> Request
    ensures value { result ≡ spec.drill_view }
{
    Request::Percent {
        unit: 1,
        quarter: SHOWN_QUARTER,
        day: Day::at(SHOWN_DAY),
    }
}

/// Prints the text of a drill about an office with nothing in doubt.
fn tell<D: Disk, K: Sink>(
    alloc: Global,
    book: &mut Book<D>,
    output: &mut K,
    seed: u16,
    size: u16,
) -> Status
    requires settled { book.old.doubt ≡ [] }
    ensures tells { spec.TellsDrill seed size (batches_of book.old.frames) result (K.pieces output.old) (K.pieces output.new) }
    ensures unchanged { book.new ≡ book.old }
    ensures cause { HasCause result ⊥ (Rose (K.faults output.old) (K.faults output.new)) ⊥ ⊥ }
    ensures count { K.faults output.old ≤ K.faults output.new }
{
    let (batches, facts) = book.counts();
    let totals = match book.totals(1, Day::at(SHOWN_DAY)) {
        Ok(Some(totals)) => totals,
        Ok(None) => return Status::NoSuch(What::Unit),
        Err(_) => return Status::Memory,
    };
    match book.shown(&quarter_view()) {
        Ok(Shown::Text(quarter)) => {
            match text_of(
                alloc,
                seed,
                size,
                batches,
                facts,
                totals,
                quarter.as_bytes(),
            ) {
                Ok(text) => put_text(output, book.disk(), &text),
                Err(_) => Status::Memory,
            }
        }
        Ok(Shown::NoSuch(what)) => Status::NoSuch(what),
        Err(_) => Status::Memory,
    }
}

/// The text of a drill, from these numbers and the view of its quarter.
fn text_of(
    alloc: Global,
    seed: u16,
    size: u16,
    batches: u32,
    facts: u64,
    totals: Totals,
    quarter: &[u8],
) -> Result<Vec<u8>, Memory>
    ensures value { IfOk result (λ text. text.items ≡ spec.head_text seed size batches facts totals ++ quarter.now) }
{
    let first = batches_lines(alloc, seed, size, batches, facts)?;
    let second = totals_lines(alloc, totals)?;
    let mut text = Vec::from_slice(alloc, first.as_bytes())?;
    text.extend_from_slice(second.as_bytes())?;
    text.extend_from_slice(quarter)?;
    Ok(text)
}

/// The lines of the drill, and of its batches and facts.
fn batches_lines(
    alloc: Global,
    seed: u16,
    size: u16,
    batches: u32,
    facts: u64,
) -> Result<String, Memory>
    ensures value { IfOk result (λ lines. string_bytes lines ≡ spec.batches_text seed size batches facts) }
{
    format!(in alloc; "drill {seed} {size}\nbatches {batches} facts {facts}\n")
}

/// The lines of tags and duties.
fn totals_lines(alloc: Global, totals: Totals) -> Result<String, Memory>
    ensures value { IfOk result (λ lines. string_bytes lines ≡ spec.totals_text totals) }
{
    let (tags, open, due) = (totals.tags, totals.open_tags, totals.duties);
    format!(in alloc; "tags {tags} open {open}\ndue {due}\n")
}
