//! Laws about what an office over a journal promises: empty functions whose contracts are the laws.

ghost use Rattle.std.specs.Prelude.{◌≡◌, ◌≤◌, [], ◌∷◌, List};
ghost use Rattle.disk_model.specs.Told.{Told};
ghost use Rattle.ldar_journal.specs.Shelf.{Shelf};
ghost use Rattle.ldar_law.specs.Machine.{Call, GroupStep, Moment, Turn};
ghost use Rattle.office_book.specs.Receipts.{AreReceiptsKept};
ghost use Rattle.office_book.specs.Restamps.{restamped};
ghost use Rattle.office_book.specs.Safe.{Leads};

use crate::book::Book;
use disk_model::Disk;

/// The batch of each receipt is at its position in every image that a crash leaves after the call returned.
pub fn receipts_are_behind<D: Disk>()
    ensures law { (old new : Shelf D) (calls : List Call) → Leads D.content D.left D.clock D.name D.faults old calls new
        → Told (D.content old.disk) (λ _. AreReceiptsKept (D.left new.disk) calls) }
{}

/// A call of one turn still holds with the count of errors at its start, and with the count of errors and the clock of a
/// later moment in the same state. So the calls of a run can be joined without gaps between them.
pub fn turn_told_with_a_later_moment()
    ensures law { (start end last : Moment) (turn : Turn) → GroupStep start (turn ∷ []) end → last.state ≡ end.state
        → end.faults ≤ last.faults → end.clock ≤ last.clock
        → GroupStep start (restamped turn start.faults last.faults last.clock ∷ []) last }
{}

/// A book can be moved to another thread if its disk can.
pub fn book_may_cross<D: Disk + Send>(book: Book<D>) -> Book<D>
    ensures same { result ≡ book }
{
    crossed(book)
}

/// A value that can be moved to another thread.
fn crossed<T: Send>(value: T) -> T
    ensures same { result ≡ value }
{
    value
}
