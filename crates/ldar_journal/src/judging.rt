ghost use Rattle.std.specs.Prelude.{◌≡◌, ◌≢◌, ◌^◌, ◌<◌, ◌≤◌, ◌++◌, ℕ, List, length, drop, slice_index, Err, IfOk, IfErr, OnOk, OnErr, IsOk};
ghost use Rattle.std.specs.Bool.{MatchBool};
ghost use Rattle.disk_model.specs.Faults.{Rose};
ghost use Rattle.disk_model.specs.Keeps.{Keeps};
ghost use Rattle.disk_model.specs.Told.{BothTold};
ghost use Rattle.ldar_journal.specs.Crash.{AnswersOverRoom};
ghost use Rattle.ldar_journal.specs.declared.window.TheConstants.{PIECE};
ghost use Rattle.ldar_journal.specs.FrameAt.{HasNoFrame};
ghost use Rattle.ldar_journal.specs.Opening.{IsJudged, IfWhole};
ghost use Rattle.ldar_journal.specs.Piece.{IsFaultOrMemory};
ghost use Rattle.ldar_journal.specs.Window.{IsAhead, OnlyReads};

use crate::frame::{bytes_wanted, frame_at};
use crate::opening::OpenWhy;
use crate::window::{Window, fill};
use disk_model::{Disk, DiskFault};
use fact_kinds::Batch;
use std::alloc::Global;

/// What is at the place of a gate.
#[derive(Clone, Copy)]
pub enum Judged {
    /// A closed gate.
    Closed,
    /// Neither a closed gate nor a frame.
    Bad,
    /// An open frame of this many bytes.
    Whole(usize),
}

/// Judges what is at a place, from which the window has the bytes, and reads the batches of a frame there.
pub fn judge<D: Disk>(
    alloc: Global,
    disk: &mut D,
    window: &mut Window,
    place: u64,
    batches: &mut Vec<Batch>,
) -> Result<Judged, OpenWhy>
    requires fits { place < 2 ^ 63 }
    requires roomy { window.old.size ≡ PIECE }
    ensures judged { IfOk result (λ judged. BothTold (D.content disk.old) (D.content disk.new)
        (λ old new. IsAhead place window.old.bytes old → place ≤ length old → IsJudged old place batches.new.items judged)) }
    ensures whole { IfOk result (IfWhole batches.new.items (length window.new.bytes)) }
    ensures size { window.new.size ≡ window.old.size }
    ensures ahead { BothTold (D.content disk.old) (D.content disk.new) (λ old new. IsAhead place window.old.bytes old → IsAhead place window.new.bytes old) }
    ensures only { IfErr result IsFaultOrMemory }
    ensures reads { OnlyReads D.content D.images D.left D.clock disk.old disk.new }
    ensures keeps { Keeps D.clock D.name D.faults disk.old disk.new }
    ensures roomy { AnswersOverRoom D.room disk.old disk.new (result ≢ Err OpenWhy.Disk) }
    ensures cause { result ≡ Err OpenWhy.Disk → Rose (D.faults disk.old) (D.faults disk.new) }
{
    if !fill(disk, window, place, 1)? {
        return Ok(Judged::Bad);
    }
    if !begins_open(window.bytes()) {
        return Ok(Judged::Closed);
    }
    fetch_frame(disk, window, place)?;
    match frame_at(alloc, window.bytes(), batches)? {
        Some(used) => Ok(Judged::Whole(used)),
        None => Ok(Judged::Bad),
    }
}

/// Whether an open gate is at the front of these bytes.
fn begins_open(bytes: &[u8]) -> bool
    requires some { 0 < length bytes.now }
    ensures value { MatchBool result (slice_index bytes.now 0 ≡ 1) (slice_index bytes.now 0 ≢ 1) }
{
    bytes[0] == 1
}

/// Reads until a frame at a place can be judged.
fn fetch_frame<D: Disk>(disk: &mut D, window: &mut Window, place: u64) -> Result<(), DiskFault>
    requires fits { place < 2 ^ 63 }
    requires roomy { window.old.size ≡ PIECE }
    ensures more { (more : List ℕ) × (window.new ≡ record { bytes = window.old.bytes ++ more; size = window.old.size }) }
    ensures ahead { BothTold (D.content disk.old) (D.content disk.new) (λ old new. IsAhead place window.old.bytes old → IsAhead place window.new.bytes old) }
    ensures enough { OnOk result (BothTold (D.content disk.old) (D.content disk.new)
        (λ old new. IsAhead place window.old.bytes old → HasNoFrame window.new.bytes → HasNoFrame (drop place old))) }
    ensures reads { OnlyReads D.content D.images D.left D.clock disk.old disk.new }
    ensures keeps { Keeps D.clock D.name D.faults disk.old disk.new }
    ensures roomy { AnswersOverRoom D.room disk.old disk.new (IsOk result) }
    ensures cause { OnErr result (Rose (D.faults disk.old) (D.faults disk.new)) }
{
    if !fill(disk, window, place, 5)? {
        return Ok(());
    }
    let wanted = bytes_wanted(window.bytes());
    fill(disk, window, place, wanted)?;
    Ok(())
}
