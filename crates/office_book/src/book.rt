//! An office over a journal, and its invariants (`IsBook` carries 1 to 5):
//!
//! 1. The batches of the journal are a history that may be kept and is ruly: no identity occurs twice, and each batch passes
//!    after those before it. This holds with the batches in doubt too (`may_come`).
//! 2. The archive has exactly the batches of the journal (`adopted`); batches in doubt do not count.
//! 3. The archive has room for the batches in doubt, so that settling them takes no memory (`roomy`).
//! 4. There is a copy of each batch in doubt, to be adopted when it is settled (`copied`).
//! 5. Each image that a crash may leave now opens to the history, with or without the batches in doubt (`stands`; callers
//!    use `Book::stands`).
//! 6. The archive finds a batch at its position in the journal (`IsArchive`: `known`).

ghost use Rattle.std.specs.Prelude.{◌≡◌, ◌+◌, ◌<◌, ◌≤◌, ◌^◌, [], Some, length, IfOk};
ghost use Rattle.fact_kinds.specs.declared.limits.TheConstants.{FRAME_BATCHES};
ghost use Rattle.fact_kinds.specs.Facts.{facts_of};
ghost use Rattle.ldar_journal.specs.Crash.{OnDisk};
ghost use Rattle.ldar_journal.specs.Image.{batches_of};
ghost use Rattle.ldar_journal.specs.Shelf.{OpensAs};
ghost use Rattle.ldar_law.specs.Machine.{batch_at};
ghost use Rattle.office_book.specs.Archive.{MayCome};
ghost use Rattle.office_book.specs.Safe.{StandsIn, state_of};

use crate::Memory;
use crate::archive::Archive;
use disk_model::Disk;
use fact_kinds::Batch;
use ldar_journal::Journal;
use std::alloc::Global;
use std::marker::Model;

/// An office over a journal. In contracts it is the journal: its disk, its frames, and the batches of a frame in doubt.
#[derive(Drop)]
pub struct Book<D: Disk> {
    pub(crate) journal: Journal<D>,
    pub(crate) archive: Archive,
    /// Copies of the batches in doubt, to be adopted without memory when they are settled.
    pub(crate) copies: Vec<Batch>,
}

impl<D: Disk> Model for Book<D> {
    ghost use Rattle.ldar_journal.specs.Shelf.{Shelf};
    ghost use Rattle.office_book.specs.Kept.{IsBook};

    ghost Value = { Shelf D };

    ghost view = { λ b. b.journal };

    ghost invariant = { λ b. IsBook D.content D.images b.journal b.archive b.copies.items };
}

impl<D: Disk> Book<D> {
    /// The numbers of kept batches and of their facts. Batches in doubt do not count.
    pub fn counts(&self) -> (u32, u64)
        ensures batches { result.0 ≡ length (batches_of self.now.frames) }
        ensures facts { result.1 ≡ length (facts_of (batches_of self.now.frames)) }
    {
        self.archive.counts()
    }

    /// A copy of the kept batch at a position, from 1. Batches in doubt have no position, and the disk is not called.
    pub fn batch_at(&self, alloc: Global, position: u32) -> Result<Batch, Memory>
        requires from_1 { 1 ≤ position }
        requires within { position ≤ length (batches_of self.now.frames) }
        ensures value { IfOk result (λ batch. batch_at (batches_of self.now.frames) position ≡ Some batch) }
    {
        self.archive.batch_at(alloc, position)
    }

    /// The position of the next kept batch, from 1.
    pub(crate) fn next_position(&self) -> u32
        ensures value { result ≡ length (batches_of self.now.frames) + 1 }
        ensures fits { result + FRAME_BATCHES < 2 ^ 32 }
        ensures may_come { MayCome (batches_of self.now.frames) [] }
    {
        let _disk = self.journal.disk();
        let (count, _) = self.counts();
        count + 1
    }

    /// The disk of the journal.
    pub fn disk(&self) -> &D
        ensures value { result.now ≡ self.now.disk }
        ensures images { OnDisk (D.content result.now) (D.images result.now)
            (λ image. OpensAs image self.now.frames self.now.doubt) }
    {
        self.journal.disk()
    }

    /// A law: each image that a crash may leave now opens to the history, with or without the batches in doubt.
    pub fn stands(&self)
        ensures law { OnDisk (D.content self.now.disk) (D.images self.now.disk) (StandsIn (state_of self.now)) }
    {
        let _disk = self.journal.disk();
    }

    /// Returns the disk.
    pub fn into_disk(self) -> D
        ensures value { result ≡ self.disk }
        ensures stands { OnDisk (D.content result) (D.images result) (StandsIn (state_of self)) }
    {
        let Book {
            journal,
            archive: _,
            copies: _,
        } = self;
        journal.into_disk()
    }
}
