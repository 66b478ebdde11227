ghost use Rattle.std.specs.Prelude.{◌≡◌, ◌≢◌, ◌<◌, ℕ, List, length, slice_index, IfOk, IsOk, OnOk, OnErr};
ghost use Rattle.std.specs.Bool.{MatchBool};
ghost use Rattle.disk_model.specs.Faults.{Rose};
ghost use Rattle.disk_model.specs.Images.{Only};
ghost use Rattle.disk_model.specs.Keeps.{Keeps};
ghost use Rattle.disk_model.specs.Told.{Told, BothTold};
ghost use Rattle.ldar_journal.specs.Crash.{LeavesOnly, AnswersInRoom};

use disk_model::{Disk, DiskFault};

/// What was found out about a frame in doubt.
#[derive(Clone, Copy, Debug, PartialEq, Eq)]
pub enum Settled {
    /// Its batches are kept.
    Stands,
    /// It is gone, as if it had never been appended.
    Gone,
}

/// Syncs the bytes, and returns whether the gate at this place is open. If the byte cannot be read, it is not open.
pub(crate) fn is_open_for_good<D: Disk>(disk: &mut D, gate: u64) -> Result<bool, DiskFault>
    ensures value { IfOk result (λ is_open. Told (D.content disk.new) (λ bytes. gate < length bytes
        → MatchBool is_open (slice_index bytes gate ≡ 1) (slice_index bytes gate ≢ 1))) }
    ensures unchanged { BothTold (D.content disk.old) (D.content disk.new) (λ old new. new ≡ old) }
    ensures crash { (image : List ℕ) → D.images disk.new image → D.images disk.old image }
    ensures durable { OnOk result (Told (D.content disk.new) (λ bytes. Only bytes (D.images disk.new))) }
    ensures any_moment { LeavesOnly D.clock D.left disk.old disk.new (D.images disk.old) }
    ensures roomy { AnswersInRoom D.room D.clock 2 disk.old disk.new (λ _. IsOk result) }
    ensures keeps { Keeps D.clock D.name D.faults disk.old disk.new }
    ensures cause { OnErr result (Rose (D.faults disk.old) (D.faults disk.new)) }
{
    disk.sync()?;
    let mut byte = [0u8; 1];
    let read = disk.read_at(gate, &mut byte)?;
    Ok(read > 0 && byte[0] == 1)
}
