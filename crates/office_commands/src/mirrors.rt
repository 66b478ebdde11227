ghost use Rattle.std.specs.Prelude.{◌≡◌, ◌≤◌, Option, Some, List};
ghost use Rattle.disk_model.specs.Faults.{Rose};
ghost use Rattle.disk_model.specs.Keeps.{Keeps};
ghost use Rattle.ldar_law.specs.declared.report.Filed.{Filed};
ghost use Rattle.office_commands.specs.declared.command.Command.TheVariants as commands;
ghost use Rattle.office_commands.specs.Mirrors as spec;
ghost use Rattle.office_commands.specs.Run.{Ends};
ghost use Rattle.office_commands.specs.Scene.{seen};
ghost use Rattle.office_commands.specs.Statuses.{HasCause};

use crate::status::{Status, refusal, status_of};
use disk_model::Disk;
use ldar_ports::{Sink, Source};
use office_book::open_book;
use office_mirror::{Mirror, MirrorEnded, take_answers};
use std::alloc::Global;

/// Opens the office over the journal of a disk, and takes the answers of the input as a mirror.
pub fn mirror<S: Source, D: Disk, K: Sink>(
    alloc: Global,
    input: &mut S,
    output: &mut K,
    disk: D,
) -> (Status, D)
    ensures ends { (filed : Option (List Filed)) → let see = seen D.content D.images D.left D.clock D.faults in
        Ends (Some commands.Mirror) result.0
        (record { unread = S.left input.old; pieces = K.pieces output.old; output_faults = K.faults output.old; filed = filed })
        (record { unread = S.left input.new; pieces = K.pieces output.new; output_faults = K.faults output.new; filed = filed })
        (see disk) (see result.1) }
    ensures cause { HasCause result.0 (Rose (S.faults input.old) (S.faults input.new))
        (Rose (K.faults output.old) (K.faults output.new)) (Rose (D.faults disk) (D.faults result.1)) ⊥ }
    ensures read_count { S.faults input.old ≤ S.faults input.new }
    ensures write_count { K.faults output.old ≤ K.faults output.new }
    ensures keeps { Keeps D.clock D.name D.faults disk result.1 }
{
    match open_book(alloc, disk) {
        Ok(book) => {
            let mut mirror = Mirror::new(book);
            let ended = take_answers(alloc, &mut mirror, input, output);
            (status_mirrored(ended), mirror.into_book().into_disk())
        }
        Err(error) => (refusal(error.why), error.disk),
    }
}

/// The status of a mirror, from how taking its answers ended.
fn status_mirrored(ended: MirrorEnded) -> Status
    ensures value { result ≡ spec.status_mirrored ended }
{
    match ended {
        MirrorEnded::Ended(ended) => status_of(ended),
        MirrorEnded::Stranger(index) => Status::Stranger(index),
    }
}
