ghost use Rattle.std.specs.Prelude.{◌≡◌, [], ◌∷◌, ◌++◌};

use fact_kinds::Batch;
use http_server::Log;
use std::marker::Model;

/// Some batches, for proofs only: it takes no memory, and its calls do nothing at run time.
#[derive(Drop)]
pub struct Chapter {
    batches: Log<Batch, ()>,
}

impl Model for Chapter {
    ghost use Rattle.std.specs.Prelude.{List, map};
    ghost use Rattle.fact_kinds.specs.declared.batch.Batch.{Batch};

    ghost Value = { List Batch };

    ghost view = { λ c. map (λ e. e.0) c.batches.items };
}

impl Chapter {
    /// No batch.
    pub fn none() -> Chapter
        ensures value { result ≡ [] }
    {
        Chapter {
            batches: Log::new(),
        }
    }

    /// These batches.
    pub fn of(batches: &[Batch]) -> Chapter
        ensures value { result ≡ batches.now }
    {
        let mut chapter = Chapter::none();
        for batch in batches {
            chapter.push(batch);
        }
        chapter
    }

    fn push(&mut self, batch: &Batch)
        ensures value { self.new ≡ self.old ++ batch.now ∷ [] }
    {
        self.batches = self.batches.and(batch, &());
    }
}

/// The batches of a chapter, noted through a reference, for proofs only.
#[derive(Drop)]
pub struct Note {
    chapter: Log<Chapter, ()>,
}

impl Model for Note {
    ghost use Rattle.std.specs.Prelude.{List};
    ghost use Rattle.fact_kinds.specs.declared.batch.Batch.{Batch};
    ghost use Rattle.ldar_journal.specs.Notes.{noted};

    ghost Value = { List Batch };

    ghost view = { λ n. noted n.chapter.items };
}

impl Note {
    /// No batch.
    pub fn none() -> Note
        ensures value { result ≡ [] }
    {
        Note {
            chapter: Log::new(),
        }
    }

    /// These batches.
    pub fn of(chapter: &Chapter) -> Note
        ensures value { result ≡ chapter.now }
    {
        Note {
            chapter: Log::new().and(chapter, &()),
        }
    }
}

/// Frames one after the other, each as its batches, for proofs only.
#[derive(Drop)]
pub struct Frames {
    notes: Log<Note, ()>,
}

impl Model for Frames {
    ghost use Rattle.std.specs.Prelude.{List, map};
    ghost use Rattle.fact_kinds.specs.declared.batch.Batch.{Batch};

    ghost Value = { List (List Batch) };

    ghost view = { λ f. map (λ e. e.0) f.notes.items };
}

impl Frames {
    /// No frame.
    pub fn new() -> Frames
        ensures value { result ≡ [] }
    {
        Frames { notes: Log::new() }
    }

    /// Adds a frame of these batches.
    pub fn push(&mut self, chapter: &Chapter)
        ensures value { self.new ≡ self.old ++ chapter.now ∷ [] }
    {
        self.push_noted(&Note::of(chapter));
    }

    /// Adds a frame of noted batches.
    pub fn push_noted(&mut self, note: &Note)
        ensures value { self.new ≡ self.old ++ note.now ∷ [] }
    {
        self.notes = self.notes.and(note, &());
    }
}
