ghost use Rattle.std.specs.Prelude.{◌≡◌, ◌≤◌, ◌++◌, ℕ, List};
ghost use Rattle.disk_model.specs.Faults.{Rose};
ghost use Rattle.ldar_ports.specs.Source.{Takes};
ghost use Rattle.ldar_session.specs.Served.{items_of};
ghost use Rattle.ldar_ports.specs.declared.ended.Ended.TheVariants.{ReadFault, WriteFault};
ghost use Rattle.office_mirror.specs.MirrorEnds.{EndsMirror};
ghost use Rattle.office_mirror.specs.MirrorRun.{Take, TakesAnswers, served_of};

use crate::ended::MirrorEnded;
use crate::mirror::Mirror;
use crate::reading::{ANSWER_WINDOW, next_answer};
use crate::turn::take_one;
use disk_model::Disk;
use ldar_ports::{Sink, Source, Window};
use ldar_session::{Ended, MOST_ANSWERS};
use std::alloc::Global;

/// Takes the answers of an input in order, and writes a line for each. It goes on after a gap, a disk error and lack of memory, and
/// ends after 1,000,000 answers, or at an answer with a batch that is not of the history that the mirror holds.
pub fn take_answers<D: Disk, S: Source, K: Sink>(
    alloc: Global,
    mirror: &mut Mirror<D>,
    source: &mut S,
    sink: &mut K,
) -> MirrorEnded
    ensures takes { (takes : List Take) × (rest : List ℕ) × (unsaid : List ℕ)
        × Takes (S.left source.old) (items_of (served_of takes) ++ rest) (S.left source.new)
        × TakesAnswers D.content D.left D.clock D.name D.faults mirror.old mirror.new (K.pieces sink.old) (K.pieces sink.new) takes unsaid
        × EndsMirror result takes rest (S.left source.new) unsaid }
    ensures read_fault { result ≡ MirrorEnded.Ended ReadFault → Rose (S.faults source.old) (S.faults source.new) }
    ensures write_fault { result ≡ MirrorEnded.Ended WriteFault → Rose (K.faults sink.old) (K.faults sink.new) }
    ensures read_count { S.faults source.old ≤ S.faults source.new }
    ensures write_count { K.faults sink.old ≤ K.faults sink.new }
{
    let Ok(mut window) = Window::new(alloc, ANSWER_WINDOW) else {
        return MirrorEnded::Ended(Ended::Memory);
    };
    let mut answers = 0;
    let mut before = 0;
    while answers < MOST_ANSWERS {
        let (answer, used) = match next_answer(alloc, source, &mut window, before) {
            Ok(next) => next,
            Err(ended) => return MirrorEnded::Ended(ended),
        };
        match take_one(alloc, mirror, sink, &answer) {
            Ok(()) => {}
            Err(ended) => return ended,
        }
        before += used;
        answers += 1;
    }
    MirrorEnded::Ended(Ended::Stopped)
}
