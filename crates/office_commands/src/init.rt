ghost use Rattle.std.specs.Prelude.{◌≡◌, ◌⊎◌};
ghost use Rattle.disk_model.specs.Faults.{Rose};
ghost use Rattle.disk_model.specs.Keeps.{Keeps};
ghost use Rattle.office_commands.specs.Run.{IsMade};
ghost use Rattle.office_commands.specs.Scene.{seen};

use crate::status::Status;
use disk_model::Disk;
use ldar_journal::{CreateError, create};

/// Creates an empty journal.
pub fn init<D: Disk>(disk: &mut D) -> Status
    ensures made { let see = seen D.content D.images D.left D.clock D.faults in IsMade result (see disk.old) (see disk.new) }
    ensures only { (result ≡ Status.Done) ⊎ ((result ≡ Status.NotEmpty) ⊎ (result ≡ Status.DiskFault)) }
    ensures cause { result ≡ Status.DiskFault → Rose (D.faults disk.old) (D.faults disk.new) }
    ensures keeps { Keeps D.clock D.name D.faults disk.old disk.new }
{
    match create(disk) {
        Ok(()) => Status::Done,
        Err(CreateError::NotEmpty) => Status::NotEmpty,
        Err(CreateError::Disk) => Status::DiskFault,
    }
}
