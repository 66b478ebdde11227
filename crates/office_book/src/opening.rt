ghost use Rattle.std.specs.Prelude.{◌≡◌, ◌≢◌, ◌<◌, ◌≤◌, ◌-◌, ◌^◌, [], map, true, false, Ok, Err, IsTrue, IfOk, OnOk, IfErr, MatchResult};
ghost use Rattle.disk_model.specs.Faults.{Rose};
ghost use Rattle.disk_model.specs.Images.{Only};
ghost use Rattle.disk_model.specs.Keeps.{Keeps};
ghost use Rattle.disk_model.specs.Told.{Told};
ghost use Rattle.fact_kinds.specs.declared.limits.TheConstants.{MOST_FACTS};
ghost use Rattle.fact_kinds.specs.Identity.{identity_of};
ghost use Rattle.ldar_journal.specs.Crash.{AnswersOverRoom, LeavesOnly};
ghost use Rattle.ldar_journal.specs.Damage.{IfDamaged, IsDamagedAt};
ghost use Rattle.ldar_journal.specs.Image.{batches_of, fact_count, IsKept};
ghost use Rattle.ldar_journal.specs.Opening.{IsOpened, IsRefused};
ghost use Rattle.ldar_journal.specs.Window.{OnlyReads};
ghost use Rattle.ldar_law.specs.Verdicts.{is_ruly};
ghost use Rattle.office_book.specs.Opened.{HasTaken, IsDenied, IsNoBook, why_no_book};
ghost use Rattle.office_views.specs.Viewed.{held_of};

use crate::archive::Archive;
use crate::book::Book;
use crate::intake::take_frame;
use batch_positions::Positions;
use disk_model::Disk;
use fact_kinds::Batch;
use ldar_journal::{Journal, OpenError, OpenWhy, Opening};
use office_views::Views;
use std::alloc::Global;

/// Why no office was opened.
#[derive(Clone, Copy, Debug, PartialEq, Eq)]
pub enum BookWhy {
    /// A disk error.
    Disk,
    /// The bytes do not begin with the header of a journal.
    NotAJournal,
    /// The first bad frame begins at this place, or the bytes end there without a closed gate.
    Damaged { at: u64 },
    /// The batch at this position, from 1, is the first that is denied after those before it, and this rule denies it.
    Unruly { position: u32, rule: u8 },
    Memory,
}

/// No office was opened. The disk is returned.
#[derive(Drop)]
pub struct BookError<D: Disk> {
    pub disk: D,
    pub why: BookWhy,
}

/// Opens the office over a journal. It begins with a sync. If the journal has a damaged frame and a denied batch, the
/// damaged frame is reported, wherever it is.
pub fn open_book<D: Disk>(alloc: Global, disk: D) -> Result<Book<D>, BookError<D>>
    ensures opens { IfOk result (λ book. IsOpened (D.content disk) (D.content book.disk) book.frames) }
    ensures settled { IfOk result (λ book. book.doubt ≡ []) }
    ensures ruly { IfOk result (λ book. IsTrue (is_ruly (batches_of book.frames))) }

    // The reason why it was not opened; the bytes are unchanged.
    ensures refused { IfErr result (λ e. IsNoBook (D.content disk) (D.content e.disk) e.why) }

    // Each image that a crash may leave was possible before. If the office was opened, a crash leaves exactly the bytes.
    ensures any_moment { MatchResult result (λ book. LeavesOnly D.clock D.left disk book.disk (D.images disk))
        (λ e. LeavesOnly D.clock D.left disk e.disk (D.images disk)) }
    ensures durable { IfOk result (λ book. Told (D.content book.disk) (λ bytes. Only bytes (D.images book.disk))) }

    // On a disk with a known room, if the clock is not at its maximum.
    ensures roomy { MatchResult result (λ book. AnswersOverRoom D.room disk book.disk (Unit {0}))
        (λ e. AnswersOverRoom D.room disk e.disk (D.clock disk < 2 ^ 64 - 1 → e.why ≢ BookWhy.Disk)) }

    ensures cause { IfErr result (λ e. e.why ≡ BookWhy.Disk → Rose (D.faults disk) (D.faults e.disk)) }
    ensures keeps { MatchResult result (λ book. Keeps D.clock D.name D.faults disk book.disk) (λ e. Keeps D.clock D.name D.faults disk e.disk) }
{
    match read_journal(alloc, disk) {
        Ok((journal, positions, intake)) => over_journal(alloc, journal, positions, intake),
        Err(refused) => Err(BookError {
            why: why_refused(refused.why),
            disk: refused.disk,
        }),
    }
}

/// The batches of a journal that were adopted: all, or those before the first denied one, with its position and the rule.
#[derive(Drop)]
struct Intake {
    views: Views,
    denied: Option<(u32, u8)>,
}

/// Opens a journal and adopts its batches frame by frame. It begins with a sync.
fn read_journal<D: Disk>(
    alloc: Global,
    disk: D,
) -> Result<(Journal<D>, Positions, Intake), OpenError<D>>
    ensures settled { IfOk result (λ r. r.0.doubt ≡ []) }
    ensures opens { IfOk result (λ r. IsOpened (D.content disk) (D.content r.0.disk) r.0.frames) }
    ensures kept { IfOk result (λ r. IsKept (batches_of r.0.frames)) }
    ensures known { IfOk result (λ r. r.1.identities ≡ map identity_of (batches_of r.0.frames)) }
    ensures taken { IfOk result (λ r. HasTaken (batches_of r.0.frames) (held_of r.2.views) r.2.denied) }
    ensures refused { IfErr result (λ e. IsRefused (D.content disk) (D.content e.disk) e.why) }
    ensures any_moment { MatchResult result (λ r. LeavesOnly D.clock D.left disk r.0.disk (D.images disk))
        (λ e. LeavesOnly D.clock D.left disk e.disk (D.images disk)) }
    ensures durable { IfOk result (λ r. Told (D.content r.0.disk) (λ bytes. Only bytes (D.images r.0.disk))) }
    ensures roomy { MatchResult result (λ r. AnswersOverRoom D.room disk r.0.disk (Unit {0}))
        (λ e. AnswersOverRoom D.room disk e.disk (D.clock disk < 2 ^ 64 - 1 → e.why ≢ OpenWhy.Disk)) }
    ensures cause { IfErr result (λ e. e.why ≡ OpenWhy.Disk → Rose (D.faults disk) (D.faults e.disk)) }
    ensures keeps { MatchResult result (λ r. Keeps D.clock D.name D.faults disk r.0.disk) (λ e. Keeps D.clock D.name D.faults disk e.disk) }
{
    let mut opening = Opening::begin(alloc, disk)?;
    match read_frames(alloc, &mut opening) {
        Ok(intake) => {
            let (journal, positions) = opening.finish();
            Ok((journal, positions, intake))
        }
        Err(why) => Err(OpenError {
            disk: opening.into_disk(),
            why,
        }),
    }
}

/// Adopts the batches of all frames.
fn read_frames<D: Disk>(alloc: Global, opening: &mut Opening<D>) -> Result<Intake, OpenWhy>
    requires first { opening.old.frames ≡ [] }
    ensures taken { IfOk result (λ intake. HasTaken (batches_of opening.new.frames) (held_of intake.views) intake.denied) }
    ensures ended { OnOk result (opening.new.ended ≡ true) }
    ensures not_a_journal { result ≢ Err OpenWhy.NotAJournal }
    ensures damaged { IfErr result (IfDamaged (λ at. Told (D.content opening.old.disk) (λ bytes. IsDamagedAt bytes at))) }
    ensures reads { OnlyReads D.content D.images D.left D.clock opening.old.disk opening.new.disk }
    ensures roomy { AnswersOverRoom D.room opening.old.disk opening.new.disk (result ≢ Err OpenWhy.Disk) }
    ensures cause { result ≡ Err OpenWhy.Disk → Rose (D.faults opening.old.disk) (D.faults opening.new.disk) }
    ensures keeps { Keeps D.clock D.name D.faults opening.old.disk opening.new.disk }
{
    let mut intake = Intake {
        views: Views::new(alloc),
        denied: None,
    };
    let mut frame = Vec::new(alloc);
    while read_frame(alloc, opening, &mut frame, &mut intake)? {}
    Ok(intake)
}

/// Reads the next frame, and adopts its batches unless an earlier one was denied. Returns false at the closed gate.
fn read_frame<D: Disk>(
    alloc: Global,
    opening: &mut Opening<D>,
    frame: &mut Vec<Batch>,
    intake: &mut Intake,
) -> Result<bool, OpenWhy>
    requires taken { HasTaken (batches_of opening.old.frames) (held_of intake.old.views) intake.old.denied }
    ensures taken { OnOk result (HasTaken (batches_of opening.new.frames) (held_of intake.new.views) intake.new.denied) }
    ensures more { result ≡ Ok true → fact_count (batches_of opening.old.frames) < fact_count (batches_of opening.new.frames) }
    ensures few { fact_count (batches_of opening.new.frames) ≤ MOST_FACTS }
    ensures ended { result ≡ Ok false → opening.new.ended ≡ true }
    ensures not_a_journal { result ≢ Err OpenWhy.NotAJournal }
    ensures damaged { IfErr result (IfDamaged (λ at. Told (D.content opening.old.disk) (λ bytes. IsDamagedAt bytes at))) }
    ensures reads { OnlyReads D.content D.images D.left D.clock opening.old.disk opening.new.disk }
    ensures roomy { AnswersOverRoom D.room opening.old.disk opening.new.disk (result ≢ Err OpenWhy.Disk) }
    ensures cause { result ≡ Err OpenWhy.Disk → Rose (D.faults opening.old.disk) (D.faults opening.new.disk) }
    ensures keeps { Keeps D.clock D.name D.faults opening.old.disk opening.new.disk }
{
    if !opening.next_frame(alloc, frame)? {
        return Ok(false);
    }
    // The frames after a denied batch are read too, since damage among them is reported first.
    if intake.denied.is_some() {
        return Ok(true);
    }
    intake.denied = take_frame(&mut intake.views, frame)?;
    Ok(true)
}

/// The office over a journal whose batches were adopted, unless one was denied.
fn over_journal<D: Disk>(
    alloc: Global,
    journal: Journal<D>,
    positions: Positions,
    intake: Intake,
) -> Result<Book<D>, BookError<D>>
    requires settled { journal.doubt ≡ [] }
    requires kept { IsKept (batches_of journal.frames) }
    requires known { positions.identities ≡ map identity_of (batches_of journal.frames) }
    requires taken { HasTaken (batches_of journal.frames) (held_of intake.views) intake.denied }
    ensures value { IfOk result (λ book. book ≡ journal) }
    ensures ruly { OnOk result (IsTrue (is_ruly (batches_of journal.frames))) }
    ensures same { IfErr result (λ e. e.disk ≡ journal.disk) }
    ensures refused { IfErr result (λ e. IsDenied (batches_of journal.frames) e.why) }
{
    let _ = journal.disk();
    let Intake { views, denied } = intake;
    match denied {
        None => Ok(Book {
            journal,
            archive: Archive::of(views, positions),
            copies: Vec::new(alloc),
        }),
        Some((position, rule)) => Err(BookError {
            disk: journal.into_disk(),
            why: BookWhy::Unruly { position, rule },
        }),
    }
}

/// The reason why no office was opened, from the reason why no journal was.
fn why_refused(why: OpenWhy) -> BookWhy
    ensures value { result ≡ why_no_book why }
{
    match why {
        OpenWhy::Disk => BookWhy::Disk,
        OpenWhy::NotAJournal => BookWhy::NotAJournal,
        OpenWhy::Damaged { at } => BookWhy::Damaged { at },
        OpenWhy::Memory => BookWhy::Memory,
    }
}
