ghost use Rattle.std.specs.Prelude.{◌≡◌, ◌+◌, ◌<◌, ◌≤◌, ◌^◌, ℕ, List, length, slice_index, IfOk, IsOk, OnOk, OnErr};
ghost use Rattle.disk_model.specs.Disk.{Torn, Holds};
ghost use Rattle.disk_model.specs.Faults.{Rose};
ghost use Rattle.disk_model.specs.Images.{Only};
ghost use Rattle.disk_model.specs.Keeps.{Keeps};
ghost use Rattle.disk_model.specs.Told.{Told, BothTold};
ghost use Rattle.ldar_journal.specs.Crash.{ComesFrom, LeavesOnly, AnswersInRoom};
ghost use Rattle.ldar_journal.specs.Gates.{HoldsBehind, WritesBehind, WritesGate};

use disk_model::{Disk, DiskFault};

/// Writes bytes and syncs them.
pub(crate) fn write_stable<D: Disk>(disk: &mut D, at: u64, bytes: &[u8]) -> Result<(), DiskFault>
    ensures written { BothTold (D.content disk.old) (D.content disk.new)
        (λ old new. Torn at (length bytes.now) old new × OnOk result (Holds at bytes.now old new)) }
    ensures crash { (image : List ℕ) → D.images disk.new image
        → ComesFrom (Torn at (length bytes.now)) (D.images disk.old) image }
    ensures durable { OnOk result (Told (D.content disk.new) (λ bytes. Only bytes (D.images disk.new))) }
    ensures any_moment { LeavesOnly D.clock D.left disk.old disk.new
        (ComesFrom (Torn at (length bytes.now)) (D.images disk.old)) }
    ensures roomy { AnswersInRoom D.room D.clock 2 disk.old disk.new
        (λ room. at + length bytes.now ≤ room → IsOk result) }
    ensures keeps { Keeps D.clock D.name D.faults disk.old disk.new }
    ensures cause { OnErr result (Rose (D.faults disk.old) (D.faults disk.new)) }
{
    disk.write_at(at, bytes)?;
    disk.sync()
}

/// Writes the bytes after a gate and syncs them.
pub(crate) fn put_behind<D: Disk>(disk: &mut D, gate: u64, bytes: &[u8]) -> Result<(), DiskFault>
    requires { gate < 2 ^ 63 }
    ensures front { BothTold (D.content disk.old) (D.content disk.new) (WritesBehind gate) }
    ensures grows { BothTold (D.content disk.old) (D.content disk.new) (λ old new. length old ≤ length new) }
    ensures put { OnOk result (BothTold (D.content disk.old) (D.content disk.new)
        (λ old new. gate < length old → HoldsBehind gate bytes.now new)) }
    ensures crash { (image : List ℕ) → D.images disk.new image
        → ComesFrom (Torn (gate + 1) (length bytes.now)) (D.images disk.old) image }
    ensures durable { OnOk result (Told (D.content disk.new) (λ bytes. Only bytes (D.images disk.new))) }
    ensures any_moment { LeavesOnly D.clock D.left disk.old disk.new
        (ComesFrom (Torn (gate + 1) (length bytes.now)) (D.images disk.old)) }
    ensures roomy { AnswersInRoom D.room D.clock 2 disk.old disk.new
        (λ room. gate + 1 + length bytes.now ≤ room → IsOk result) }
    ensures keeps { Keeps D.clock D.name D.faults disk.old disk.new }
    ensures cause { OnErr result (Rose (D.faults disk.old) (D.faults disk.new)) }
{
    write_stable(disk, gate + 1, bytes)
}

/// Writes an open gate and syncs it.
pub(crate) fn open_gate<D: Disk>(disk: &mut D, gate: u64) -> Result<(), DiskFault>
    ensures others { BothTold (D.content disk.old) (D.content disk.new) (WritesGate gate) }
    ensures grows { BothTold (D.content disk.old) (D.content disk.new) (λ old new. length old ≤ length new) }
    ensures opened { OnOk result (BothTold (D.content disk.old) (D.content disk.new)
        (λ old new. gate < length old → slice_index new gate ≡ 1)) }
    ensures crash { (image : List ℕ) → D.images disk.new image
        → ComesFrom (Torn gate 1) (D.images disk.old) image }
    ensures durable { OnOk result (Told (D.content disk.new) (λ bytes. Only bytes (D.images disk.new))) }
    ensures any_moment { LeavesOnly D.clock D.left disk.old disk.new
        (ComesFrom (Torn gate 1) (D.images disk.old)) }
    ensures roomy { AnswersInRoom D.room D.clock 2 disk.old disk.new (λ room. gate + 1 ≤ room → IsOk result) }
    ensures keeps { Keeps D.clock D.name D.faults disk.old disk.new }
    ensures cause { OnErr result (Rose (D.faults disk.old) (D.faults disk.new)) }
{
    write_stable(disk, gate, &[1])
}
