ghost use Rattle.std.specs.Prelude.{◌≡◌, ◌≤◌, ℕ, List, [], ◌∷◌, Err};
ghost use Rattle.disk_model.specs.Faults.{Rose};
ghost use Rattle.ldar_ports.specs.declared.ended.Ended.TheVariants.{WriteFault};
ghost use Rattle.office_mirror.specs.AnswerGrammar.{SpellsAnswer};
ghost use Rattle.office_mirror.specs.MirrorEnds.{EndsTurn};
ghost use Rattle.office_mirror.specs.MirrorRun.{Take, TakesAnswers};

use crate::answer::Answer;
use crate::ended::MirrorEnded;
use crate::line::put_line;
use crate::mirror::Mirror;
use crate::taken::Taken;
use disk_model::Disk;
use ldar_ports::Sink;
use ldar_session::Ended;
use std::alloc::Global;

/// Takes an answer, and writes its line.
pub(crate) fn take_one<D: Disk, K: Sink>(
    alloc: Global,
    mirror: &mut Mirror<D>,
    sink: &mut K,
    answer: &Answer,
) -> Result<(), MirrorEnded>
    ensures takes { (bytes : List ℕ) → SpellsAnswer bytes answer.now → (take : Take) × (unsaid : List ℕ) × (take.bytes ≡ bytes)
        × TakesAnswers D.content D.left D.clock D.name D.faults mirror.old mirror.new (K.pieces sink.old) (K.pieces sink.new) (take ∷ []) unsaid
        × EndsTurn result take unsaid }
    ensures count { K.faults sink.old ≤ K.faults sink.new }
    ensures cause { result ≡ Err (MirrorEnded.Ended WriteFault) → Rose (K.faults sink.old) (K.faults sink.new) }
{
    let taken = mirror.take(alloc, answer);
    match put_line(sink, mirror.book().disk(), &taken) {
        Ok(()) => if_no_stranger(&taken),
        Err(_) => Err(MirrorEnded::Ended(Ended::WriteFault)),
    }
}

/// Whether the next answer may be taken after this one, whose line was written.
fn if_no_stranger(taken: &Taken) -> Result<(), MirrorEnded>
    ensures value { (take : Take) → take.taken ≡ taken.now → EndsTurn result take [] }
    ensures no_fault { ¬ (result ≡ Err (MirrorEnded.Ended WriteFault)) }
{
    match taken {
        Taken::Stranger { index, reply: _ } => Err(MirrorEnded::Stranger(*index)),
        Taken::Gap { .. } | Taken::Held { .. } | Taken::Fault | Taken::Memory => Ok(()),
    }
}
