ghost use Rattle.std.specs.Prelude.{◌≡◌, ◌≢◌, ◌⊎◌, [], ◌∷◌, ◌++◌, OnOk, OnErr, IsOk};
ghost use Rattle.disk_model.specs.Faults.{Rose};
ghost use Rattle.ldar_journal.specs.Crash.{AnswersInRoom};
ghost use Rattle.ldar_law.specs.Machine.{Finding};
ghost use Rattle.office_book.specs.Moves.{Moves};
ghost use Rattle.office_book.specs.Safe.{state_of};
ghost use Rattle.office_book.specs.Serving.{IsFound};

use crate::book::Book;
use disk_model::{Disk, DiskFault};
use ldar_journal::Settled;

impl<D: Disk> Book<D> {
    /// Finds out whether batches in doubt are kept, if there are any, and adopts them if so. Allocates nothing. After a disk
    /// error they are still in doubt.
    pub(crate) fn settle_first(&mut self) -> Result<(), DiskFault>
        ensures found { OnOk result ((found : Finding) × IsFound found (state_of self.old) (state_of self.new)) }
        ensures frames { (self.new.frames ≡ self.old.frames) ⊎ ((self.old.doubt ≢ []) × (self.new.frames ≡ self.old.frames ++ self.old.doubt ∷ [])) }
        ensures doubt { OnErr result (self.old.doubt ≢ []) }
        ensures still { OnErr result (state_of self.new ≡ state_of self.old) }
        ensures moves { Moves D.content D.images D.left D.clock D.name D.faults self.old self.new 0 }
        ensures nothing { self.old.doubt ≡ [] → self.new ≡ self.old }
        ensures roomy { AnswersInRoom D.room D.clock 2 self.old.disk self.new.disk (λ _. IsOk result) }
        ensures cause { OnErr result (Rose (D.faults self.old.disk) (D.faults self.new.disk)) }
    {
        if !self.journal.settling() {
            return Ok(());
        }
        match self.journal.settle()? {
            Settled::Stands => {
                self.archive.adopt(&self.copies);
                self.copies.clear();
                Ok(())
            }
            Settled::Gone => {
                self.copies.clear();
                Ok(())
            }
        }
    }
}
