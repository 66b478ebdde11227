ghost use Rattle.std.specs.Prelude.{◌≡◌, ◌⊎◌, ◌<◌, ◌≤◌, [], ◌∷◌, ◌++◌, length, Some, OnOk, OnErr, IsOk, Err};
ghost use Rattle.disk_model.specs.Disk.{Torn, Holds};
ghost use Rattle.disk_model.specs.Faults.{Rose};
ghost use Rattle.disk_model.specs.Images.{Only};
ghost use Rattle.disk_model.specs.Keeps.{Keeps};
ghost use Rattle.disk_model.specs.Told.{Told, BothTold};
ghost use Rattle.ldar_journal.specs.Crash.{OnDisk, LeavesOnly, AnswersInRoom};
ghost use Rattle.ldar_journal.specs.Image.{header, OpensTo};

use crate::gates::write_stable;
use disk_model::{Disk, DiskFault};

/// The bytes of an empty journal: the header and a closed gate.
const EMPTY: [u8; 17] = *b"LDARJNL1\0\0\0\0\0\0\0\0\0";

/// Why no journal was created.
#[derive(Clone, Copy, Debug, PartialEq, Eq)]
pub enum CreateError {
    /// The disk is not empty. Nothing was written.
    NotEmpty,
    /// A disk error. The disk is unchanged, or it was empty and has part of the empty journal.
    Disk,
}

impl From<DiskFault> for CreateError {
    ghost use Rattle.std.specs.Prelude.{◌≡◌};
    ghost use Rattle.ldar_journal.specs.declared.creation.CreateError.TheVariants.{Disk as DiskError};

    ghost from_gives = { λ _ e. e ≡ DiskError };

    fn from(_e: DiskFault) -> CreateError {
        CreateError::Disk
    }
}

/// Creates an empty journal on an empty disk: the header and a closed gate, in one write, followed by a sync.
pub fn create<D: Disk>(disk: &mut D) -> Result<(), CreateError>
    // The disk is not empty exactly if a byte could be read.
    ensures value { OnOk result (BothTold (D.content disk.old) (D.content disk.new)
        (λ old new. (old ≡ []) × (new ≡ header ++ 0 ∷ []))) }
    ensures not_empty { result ≡ Err CreateError.NotEmpty → BothTold (D.content disk.old) (D.content disk.new)
        (λ old new. (0 < length old) × (new ≡ old)) }
    ensures after_fault { result ≡ Err CreateError.Disk → BothTold (D.content disk.old) (D.content disk.new)
        (λ old new. (new ≡ old) ⊎ ((old ≡ []) × (length new ≤ 17))) }

    // A crash then leaves an empty journal. If the disk was not empty, a crash leaves what it might have left before.
    ensures images { OnOk result (OnDisk (D.content disk.new) (D.images disk.new) (λ image. OpensTo image [])) }
    ensures any_moment { result ≡ Err CreateError.NotEmpty
        → LeavesOnly D.clock D.left disk.old disk.new (D.images disk.old) }
    ensures others { Told (D.content disk.old) (λ old. 0 < length old
        → LeavesOnly D.clock D.left disk.old disk.new (D.images disk.old)) }

    ensures roomy { AnswersInRoom D.room D.clock 3 disk.old disk.new
        (λ room. D.content disk.old ≡ Some [] → 17 ≤ room → IsOk result) }
    ensures keeps { Keeps D.clock D.name D.faults disk.old disk.new }
    ensures cause { result ≡ Err CreateError.Disk → Rose (D.faults disk.old) (D.faults disk.new) }
{
    let mut first = [0u8; 1];
    if disk.read_at(0, &mut first)? > 0 {
        return Err(CreateError::NotEmpty);
    }
    lay_down(disk)?;
    Ok(())
}

/// Writes the empty journal at the front of a disk and syncs it.
fn lay_down<D: Disk>(disk: &mut D) -> Result<(), DiskFault>
    ensures written { BothTold (D.content disk.old) (D.content disk.new)
        (λ old new. Torn 0 17 old new × OnOk result (Holds 0 (header ++ 0 ∷ []) old new)) }
    ensures durable { OnOk result (Told (D.content disk.new) (λ bytes. Only bytes (D.images disk.new))) }
    ensures roomy { AnswersInRoom D.room D.clock 2 disk.old disk.new (λ room. 17 ≤ room → IsOk result) }
    ensures keeps { Keeps D.clock D.name D.faults disk.old disk.new }
    ensures cause { OnErr result (Rose (D.faults disk.old) (D.faults disk.new)) }
{
    write_stable(disk, 0, &EMPTY)
}
