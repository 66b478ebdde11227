//! Laws about answers, and about two offices of which one mirrors the other: empty functions whose contracts are the laws.

ghost use Rattle.std.specs.Prelude.{ℕ, List, ◌≤◌, length};
ghost use Rattle.office_mirror.specs.declared.answer.Answer.{Answer};
ghost use Rattle.office_mirror.specs.AnswerGrammar.{BeginsAnswer, SpellsAnswer};
ghost use Rattle.office_mirror.specs.MirrorWorld.{MirrorPrefix};

/// Whatever answers are lost, repeated or reordered, and whenever either office crashes or its disk fails, the second office
/// holds a front of the first one's history, with all batches that it said it holds.
pub fn mirror_prefix()
    ensures law { MirrorPrefix }
{}

/// The length in bytes of the longest answer: 6, and that of the longest batch 16 times.
pub const LONGEST_ANSWER: usize = 188_566;

/// An answer has at most `LONGEST_ANSWER` bytes, and so has what begins one.
pub fn answer_length()
    ensures whole { (bytes : List ℕ) (answer : Answer) → SpellsAnswer bytes answer → length bytes ≤ LONGEST_ANSWER }
    ensures begun { (bytes : List ℕ) → BeginsAnswer bytes → length bytes ≤ LONGEST_ANSWER }
{}
