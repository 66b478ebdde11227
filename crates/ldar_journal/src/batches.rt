ghost use Rattle.std.specs.Prelude.{◌≡◌, ◌≢◌, ◌<◌, ◌≤◌, ◌-◌, ◌^◌, [], true, false, Ok, Err, IfOk, OnOk, IfErr, MatchResult};
ghost use Rattle.fact_kinds.specs.declared.limits.TheConstants.{MOST_FACTS};
ghost use Rattle.disk_model.specs.Faults.{Rose};
ghost use Rattle.disk_model.specs.Images.{Only};
ghost use Rattle.disk_model.specs.Keeps.{Keeps};
ghost use Rattle.disk_model.specs.Told.{Told};
ghost use Rattle.ldar_journal.specs.Crash.{AnswersOverRoom, LeavesOnly};
ghost use Rattle.ldar_journal.specs.Damage.{IfDamaged, IsDamagedAt};
ghost use Rattle.ldar_journal.specs.Image.{batches_of, fact_count};
ghost use Rattle.ldar_journal.specs.Opening.{IsOpened, IsRefused};
ghost use Rattle.ldar_journal.specs.Window.{OnlyReads};

use crate::journal::Journal;
use crate::opening::{OpenError, OpenWhy};
use crate::reader::Opening;
use disk_model::Disk;
use fact_kinds::Batch;
use std::alloc::Global;

/// Opens a journal and returns all of its batches in order. The first call of the disk is a sync. A caller that needs each
/// frame only once uses `Opening`, which keeps one frame at a time.
pub fn open_journal<D: Disk>(
    alloc: Global,
    disk: D,
) -> Result<(Journal<D>, Vec<Batch>), OpenError<D>>
    ensures opens { IfOk result (λ r. IsOpened (D.content disk) (D.content r.0.disk) r.0.frames) }
    ensures settled { IfOk result (λ r. r.0.doubt ≡ []) }
    ensures batches { IfOk result (λ r. r.1.items ≡ batches_of r.0.frames) }

    // The reason why it was not opened; the bytes are unchanged.
    ensures refused { IfErr result (λ e. IsRefused (D.content disk) (D.content e.disk) e.why) }

    // Each image that a crash may leave was possible before. If the journal was opened, a crash leaves exactly the bytes.
    ensures any_moment { MatchResult result (λ r. LeavesOnly D.clock D.left disk r.0.disk (D.images disk))
        (λ e. LeavesOnly D.clock D.left disk e.disk (D.images disk)) }
    ensures durable { IfOk result (λ r. Told (D.content r.0.disk) (λ bytes. Only bytes (D.images r.0.disk))) }

    // On a disk with a known room, if the clock is not at its maximum.
    ensures roomy { MatchResult result (λ r. AnswersOverRoom D.room disk r.0.disk (Unit {0}))
        (λ e. AnswersOverRoom D.room disk e.disk (D.clock disk < 2 ^ 64 - 1 → e.why ≢ OpenWhy.Disk)) }

    ensures cause { IfErr result (λ e. e.why ≡ OpenWhy.Disk → Rose (D.faults disk) (D.faults e.disk)) }
    ensures keeps { MatchResult result (λ r. Keeps D.clock D.name D.faults disk r.0.disk) (λ e. Keeps D.clock D.name D.faults disk e.disk) }
{
    let mut opening = Opening::begin(alloc, disk)?;
    match read_batches(alloc, &mut opening) {
        Ok(batches) => {
            let (journal, _) = opening.finish();
            Ok((journal, batches))
        }
        Err(why) => Err(OpenError {
            disk: opening.into_disk(),
            why,
        }),
    }
}

/// Reads the batches of all frames.
fn read_batches<D: Disk>(alloc: Global, opening: &mut Opening<D>) -> Result<Vec<Batch>, OpenWhy>
    requires first { opening.old.frames ≡ [] }
    ensures read { IfOk result (λ batches. batches.items ≡ batches_of opening.new.frames) }
    ensures ended { OnOk result (opening.new.ended ≡ true) }
    ensures not_a_journal { result ≢ Err OpenWhy.NotAJournal }
    ensures damaged { IfErr result (IfDamaged (λ at. Told (D.content opening.old.disk) (λ bytes. IsDamagedAt bytes at))) }
    ensures reads { OnlyReads D.content D.images D.left D.clock opening.old.disk opening.new.disk }
    ensures roomy { AnswersOverRoom D.room opening.old.disk opening.new.disk (result ≢ Err OpenWhy.Disk) }
    ensures cause { result ≡ Err OpenWhy.Disk → Rose (D.faults opening.old.disk) (D.faults opening.new.disk) }
    ensures keeps { Keeps D.clock D.name D.faults opening.old.disk opening.new.disk }
{
    let mut batches = Vec::new(alloc);
    let mut frame = Vec::new(alloc);
    while read_frame(alloc, opening, &mut frame, &mut batches)? {}
    Ok(batches)
}

/// Reads the next frame and appends its batches. Returns false at the closed gate.
fn read_frame<D: Disk>(
    alloc: Global,
    opening: &mut Opening<D>,
    frame: &mut Vec<Batch>,
    batches: &mut Vec<Batch>,
) -> Result<bool, OpenWhy>
    requires read { batches.old.items ≡ batches_of opening.old.frames }
    ensures read { OnOk result (batches.new.items ≡ batches_of opening.new.frames) }
    ensures more { result ≡ Ok true → fact_count (batches_of opening.old.frames) < fact_count (batches_of opening.new.frames) }
    ensures few { fact_count (batches_of opening.new.frames) ≤ MOST_FACTS }
    ensures ended { result ≡ Ok false → opening.new.ended ≡ true }
    ensures not_a_journal { result ≢ Err OpenWhy.NotAJournal }
    ensures damaged { IfErr result (IfDamaged (λ at. Told (D.content opening.old.disk) (λ bytes. IsDamagedAt bytes at))) }
    ensures reads { OnlyReads D.content D.images D.left D.clock opening.old.disk opening.new.disk }
    ensures roomy { AnswersOverRoom D.room opening.old.disk opening.new.disk (result ≢ Err OpenWhy.Disk) }
    ensures cause { result ≡ Err OpenWhy.Disk → Rose (D.faults opening.old.disk) (D.faults opening.new.disk) }
    ensures keeps { Keeps D.clock D.name D.faults opening.old.disk opening.new.disk }
{
    if !opening.next_frame(alloc, frame)? {
        return Ok(false);
    }
    batches.append(frame)?;
    Ok(true)
}
