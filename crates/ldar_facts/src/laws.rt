//! Laws of the batch grammar: empty functions whose contracts are the laws.

ghost use Rattle.std.specs.Prelude.{◌≡◌, ℕ, ◌+◌, ◌*◌, ◌≤◌, List, [], ◌++◌, length};
ghost use Rattle.fact_kinds.specs.declared.batch.Batch.{Batch};
ghost use Rattle.ldar_facts.specs.Grammar.{Spells, Begins, IsFirstWrongPlace};

/// The length in bytes of the longest batch: 9, and 23 for each of 512 facts.
pub const LONGEST_BATCH: usize = 11_785;

/// Some bytes spell at most one batch.
pub fn one_batch()
    ensures law { (bytes : List ℕ) (batch other : Batch) → Spells bytes batch → Spells bytes other → batch ≡ other }
{}

/// A batch has exactly one spelling.
pub fn one_spelling()
    ensures law { (bytes other : List ℕ) (batch : Batch) → Spells bytes batch → Spells other batch → bytes ≡ other }
{}

/// No spelling is a proper prefix of another.
pub fn no_proper_front()
    ensures law { (bytes more : List ℕ) (batch other : Batch) → Spells bytes batch → Spells (bytes ++ more) other → more ≡ [] }
{}

/// A spelling has 9 bytes and 7 to 23 for each fact: 16 to `LONGEST_BATCH`.
pub fn spelling_length()
    ensures facts { (bytes : List ℕ) (batch : Batch) → Spells bytes batch
        → (9 + 7 * length batch.facts ≤ length bytes) × (length bytes ≤ 9 + 23 * length batch.facts) }
    ensures in_range { (bytes : List ℕ) (batch : Batch) → Spells bytes batch
        → (16 ≤ length bytes) × (length bytes ≤ LONGEST_BATCH) }
{}

/// Bytes that begin a batch have no wrong place; other bytes have at most one first wrong place.
pub fn one_wrong_place()
    ensures none { (bytes : List ℕ) (at : ℕ) → Begins bytes → ¬ (IsFirstWrongPlace bytes at) }
    ensures one { (bytes : List ℕ) (at other : ℕ) → IsFirstWrongPlace bytes at → IsFirstWrongPlace bytes other → at ≡ other }
{}
