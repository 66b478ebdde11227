//! Laws about the journal's bytes: empty functions whose contracts are the laws.
ghost use Rattle.std.specs.Prelude.{◌≡◌, ◌≢◌, ℕ, List, [], ◌∷◌, ◌++◌, take, drop};
ghost use Rattle.fact_kinds.specs.declared.batch.Batch.{Batch};
ghost use Rattle.ldar_journal.specs.Image.{header, frame, end_of, EndsAt, OpensTo, Opens};
ghost use Rattle.ldar_journal.specs.Damage.{IsDamagedAt};
ghost use Rattle.ldar_journal.specs.Shelf.{OpensToEither};

/// Bytes open to at most one list of frames.
pub fn one_row_of_frames()
    ensures law { (image : List ℕ) (one other : List (List Batch)) → OpensTo image one → OpensTo image other → one ≡ other }
{}

/// The gate of a journal is after its frames, at the place that their lengths give.
pub fn gate_behind_the_frames()
    ensures law { (image : List ℕ) (place : ℕ) (frames : List (List Batch)) → EndsAt image place frames → place ≡ end_of frames }
{}

/// Each frame is at the end of the frames before it.
pub fn frame_behind_those_before()
    ensures law { (image : List ℕ) (before : List (List Batch)) (batches : List Batch) (after : List (List Batch))
        → OpensTo image (before ++ batches ∷ after) → (rest : List ℕ) × (drop (end_of before) image ≡ frame batches ++ rest) }
{}

/// Bytes open to at most one history.
pub fn one_history()
    ensures law { (image : List ℕ) (one other : List Batch) → Opens image one → Opens image other → one ≡ other }
{}

/// Bytes with a bad frame open to no history.
pub fn damaged_opens_to_none()
    ensures law { (image : List ℕ) (place : ℕ) (history : List Batch) → IsDamagedAt image place → ¬ (Opens image history) }
{}

/// Bytes without the header open to no history.
pub fn no_header_opens_to_none()
    ensures law { (image : List ℕ) (history : List Batch) → take 16 image ≢ header → ¬ (Opens image history) }
{}

/// The bytes that a crash during an append leaves have no bad frame: they open.
pub fn torn_append_is_not_damaged()
    ensures law { (image : List ℕ) (place : ℕ) (frames : List (List Batch)) (batches : List Batch)
        → OpensToEither image frames batches → ¬ (IsDamagedAt image place) }
{}
