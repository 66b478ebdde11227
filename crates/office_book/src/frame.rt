ghost use Rattle.std.specs.Prelude.{◌≡◌, ◌≢◌, ◌<◌, ◌≤◌, [], length, IfOk, OnOk};
ghost use Rattle.disk_model.specs.Faults.{Rose};
ghost use Rattle.fact_kinds.specs.declared.limits.TheConstants.{FRAME_BATCHES};
ghost use Rattle.ldar_journal.specs.Crash.{AnswersInRoom};
ghost use Rattle.ldar_journal.specs.Image.{batches_of};
ghost use Rattle.office_book.specs.Archive.{MayCome};
ghost use Rattle.office_book.specs.Kept.{IsWritten};
ghost use Rattle.office_book.specs.Moves.{Moves};
ghost use Rattle.office_book.specs.Room.{HasRoom};
ghost use Rattle.office_book.specs.Safe.{state_of};

use crate::Memory;
use crate::archive::Archive;
use crate::book::Book;
use disk_model::Disk;
use fact_kinds::Batch;
use ldar_journal::{Frame, Torn, prepare};
use std::alloc::Global;

/// The result of writing a frame.
pub(crate) enum Written {
    Stands,
    /// A disk error. The frame may or may not be kept.
    Fault,
    /// Out of memory. Nothing was written.
    Memory,
}

impl<D: Disk> Book<D> {
    /// Writes batches as one frame, after the kept ones. All memory is allocated before the first write.
    pub(crate) fn write(&mut self, alloc: Global, batches: Vec<Batch>) -> Written
        requires settled { self.old.doubt ≡ [] }
        requires some { 0 < length batches.items }
        requires fits { length batches.items ≤ FRAME_BATCHES }
        requires may_come { MayCome (batches_of self.old.frames) batches.items }
        ensures value { IsWritten (Rose (D.faults self.old.disk) (D.faults self.new.disk)) (batches_of self.old.frames) batches.items result
            (state_of self.new) }
        ensures untouched { result ≡ Written.Memory → self.new ≡ self.old }
        ensures moves { Moves D.content D.images D.left D.clock D.name D.faults self.old self.new 1 }
        ensures roomy { AnswersInRoom D.room D.clock 4 self.old.disk self.new.disk
            (λ room. HasRoom self.old.frames batches.items room → result ≢ Written.Fault) }
    {
        let added = batches.as_slice();
        let Ok(frame) = make_ready(alloc, &mut self.archive, added) else {
            return Written::Memory;
        };
        match self.journal.append(&frame) {
            Ok(()) => {
                self.archive.adopt(added);
                Written::Stands
            }
            Err(Torn { gate: true }) => {
                self.copies = batches;
                Written::Fault
            }
            Err(Torn { gate: false }) => Written::Fault,
        }
    }
}

/// Reserves room for batches and prepares their frame.
fn make_ready(alloc: Global, archive: &mut Archive, batches: &[Batch]) -> Result<Frame, Memory>
    requires some { 0 < length batches.now }
    requires fits { length batches.now ≤ FRAME_BATCHES }
    ensures frame { IfOk result (λ frame. frame ≡ batches.now) }
    ensures roomy { OnOk result (archive.new.spare ≡ batches.now) }
    ensures adopted { archive.new.adopted ≡ archive.old.adopted }
{
    archive.reserve(batches)?;
    prepare(alloc, batches)
}
