//! A journal and its invariants (`IsShelved` carries 1 to 6):
//!
//! 1. The disk's bytes, if it exposes them, begin with the header and the frames, complete and open, one after the
//!    other, and `end` is the place after the last of them (`stands`).
//! 2. So does each image that a crash may leave now (`stands`, for each image).
//! 3. If no frame is in doubt, a closed gate is at `end`, and the bytes after it are ignored (`stands`: `EndsAt`).
//! 4. If a frame is in doubt, the whole of it is after the gate at `end`, which may be open or closed (`stands`:
//!    `IsInDoubt`).
//! 5. The frames may be kept: each has 1 to 16 batches, no identity occurs twice, and there are at most 8,000,000 facts.
//!    This holds with the frame in doubt too (`counted`, `in_doubt`).
//! 6. `end` is the length of header and frames, also on a disk that exposes no bytes; `torn` is the length of the frame
//!    in doubt after its gate, and 0 if no frame is in doubt (`counted`, `in_doubt`).
//! 7. Only `append` opens a gate, after the bytes that follow it are stable, so a crash leaves the whole frame or none
//!    of it (`append`: `any_moment`; `settle`: `any_moment`).

ghost use Rattle.std.specs.Prelude.{◌≡◌, ◌≢◌, ◌+◌, ◌≤◌, [], ◌∷◌, ◌++◌, length, true, false, Ok, OnOk, OnErr, IsOk, IsErrOf};
ghost use Rattle.disk_model.specs.Faults.{Rose};
ghost use Rattle.disk_model.specs.Images.{Only};
ghost use Rattle.disk_model.specs.Keeps.{Keeps};
ghost use Rattle.disk_model.specs.Told.{Told, BothTold};
ghost use Rattle.fact_kinds.specs.declared.limits.TheConstants.{MOST_FACTS};
ghost use Rattle.ldar_journal.specs.Crash.{OnDisk, LeavesOnly, AnswersInRoom};
ghost use Rattle.ldar_journal.specs.Image.{batches_of, end_of, IsKept, EndsAt, OpensTo};
ghost use Rattle.ldar_journal.specs.Shelf.{OpensAs, OpensToEither, IsCounted, IsInDoubt};

use crate::gates::{open_gate, put_behind};
use crate::history::{Frames, Note};
use crate::prepared::Frame;
use crate::settling::{Settled, is_open_for_good};
use disk_model::{Disk, DiskFault};
use std::marker::Model;

/// An append failed. If the gate was being opened, the frame may or may not be kept.
#[derive(Clone, Copy, Debug, PartialEq, Eq)]
pub struct Torn {
    /// Whether the gate was being opened; if not, the frame is not kept.
    pub gate: bool,
}

/// A journal on a disk. In contracts it is the disk, the frames, and the batches of a frame in doubt.
#[derive(Drop)]
pub struct Journal<D: Disk> {
    disk: D,
    /// The place of the gate of the next frame.
    end: u64,
    frames: Frames,
    /// The batches of the frame in doubt, if there is one.
    doubt: Note,
    /// How many bytes the frame in doubt takes after its gate; 0 if no frame is in doubt.
    torn: u64,
}

impl<D: Disk> Model for Journal<D> {
    ghost use Rattle.ldar_journal.specs.Shelf.{Shelf, IsShelved};

    ghost Value = { Shelf D };

    ghost view = { λ j. record { disk = j.disk; frames = j.frames; doubt = j.doubt } };

    ghost invariant = { λ j. IsShelved (D.content j.disk) (D.images j.disk) j.end j.frames j.doubt j.torn };
}

impl<D: Disk> Journal<D> {
    /// A journal whose bytes are stable and end at a closed gate at this place, after these frames.
    pub(crate) fn at(disk: D, end: u64, frames: Frames) -> Journal<D>
        requires ends { Told (D.content disk) (λ bytes. EndsAt bytes end frames) }
        requires durable { Told (D.content disk) (λ bytes. Only bytes (D.images disk)) }
        requires counted { IsCounted end frames }
        ensures value { result ≡ record { disk = disk; frames = frames; doubt = [] } }
    {
        Journal {
            disk,
            end,
            frames,
            doubt: Note::none(),
            torn: 0,
        }
    }

    /// Whether an append failed and its frame may or may not be kept.
    pub fn settling(&self) -> bool
        ensures in_doubt { result ≡ true → self.now.doubt ≢ [] }
        ensures settled { result ≡ false → self.now.doubt ≡ [] }
    {
        self.torn > 0
    }

    /// The disk.
    pub fn disk(&self) -> &D
        ensures value { result.now ≡ self.now.disk }
        ensures opens { Told (D.content result.now) (λ bytes. OpensToEither bytes self.now.frames self.now.doubt) }
        ensures images { OnDisk (D.content result.now) (D.images result.now)
            (λ image. OpensAs image self.now.frames self.now.doubt) }
        ensures kept { IsKept (batches_of self.now.frames) }
        ensures few { length (batches_of self.now.frames) ≤ MOST_FACTS }
    {
        &self.disk
    }

    /// Returns the disk.
    pub fn into_disk(self) -> D
        ensures value { result ≡ self.disk }
        ensures opens { Told (D.content result) (λ bytes. OpensToEither bytes self.frames self.doubt) }
        ensures images { OnDisk (D.content result) (D.images result) (λ image. OpensAs image self.frames self.doubt) }
    {
        let Journal {
            disk,
            end: _,
            frames: _,
            doubt: _,
            torn: _,
        } = self;
        disk
    }

    /// Adds a frame of batches: first the bytes after its gate and, once these are stable, the open gate.
    pub fn append(&mut self, frame: &Frame) -> Result<(), Torn>
        requires settled { self.old.doubt ≡ [] }
        requires kept { IsKept (batches_of self.old.frames ++ frame.now) }
        ensures value { OnOk result ((self.new.frames ≡ self.old.frames ++ frame.now ∷ []) × (self.new.doubt ≡ [])) }

        // If the gate was not touched, the frames are unchanged. Otherwise this one is in doubt.
        ensures not_added { OnErr result (self.new.frames ≡ self.old.frames) }
        ensures gate_shut { IsErrOf result (record { gate = false }) → self.new.doubt ≡ [] }
        ensures in_doubt { IsErrOf result (record { gate = true }) → self.new.doubt ≡ frame.now }

        // A crash then leaves what the journal describes. If it is in doubt, the whole frame is after its gate.
        ensures opens { Told (D.content self.new.disk) (λ bytes. OpensToEither bytes self.new.frames self.new.doubt) }
        ensures images { OnDisk (D.content self.new.disk) (D.images self.new.disk)
            (λ image. OpensAs image self.new.frames self.new.doubt) }
        ensures behind { IsErrOf result (record { gate = true }) → OnDisk (D.content self.new.disk) (D.images self.new.disk)
            (λ image. IsInDoubt image (end_of self.new.frames) self.new.frames frame.now) }

        // A crash at any moment of the call leaves all of the frame or none of it, and none if the gate is not touched.
        ensures any_moment { LeavesOnly D.clock D.left self.old.disk self.new.disk (λ image.
            Told (D.content self.old.disk) (λ _. OpensToEither image self.old.frames frame.now)) }
        ensures any_moment_shut { IsErrOf result (record { gate = false }) → LeavesOnly D.clock D.left self.old.disk self.new.disk
            (λ image. Told (D.content self.old.disk) (λ _. OpensTo image self.old.frames)) }

        ensures grows { BothTold (D.content self.old.disk) (D.content self.new.disk) (λ old new. length old ≤ length new) }
        ensures roomy { AnswersInRoom D.room D.clock 4 self.old.disk self.new.disk
            (λ room. end_of (self.old.frames ++ frame.now ∷ []) + 1 ≤ room → IsOk result) }
        ensures keeps { Keeps D.clock D.name D.faults self.old.disk self.new.disk }
        ensures cause { OnErr result (Rose (D.faults self.old.disk) (D.faults self.new.disk)) }
    {
        let gate = self.end;
        let bytes = frame.bytes();
        let length = bytes.len() as u64;
        if put_behind(&mut self.disk, gate, bytes).is_err() {
            return Err(Torn { gate: false });
        }
        if open_gate(&mut self.disk, gate).is_err() {
            self.doubt = frame.note();
            self.torn = length;
            return Err(Torn { gate: true });
        }
        frame.add_to(&mut self.frames);
        self.end = gate + length;
        Ok(())
    }

    /// Finds out whether the frame in doubt is kept: it syncs the bytes and reads the gate. After a disk error the
    /// frame is still in doubt.
    pub fn settle(&mut self) -> Result<Settled, DiskFault>
        requires settling { self.old.doubt ≢ [] }
        ensures stands { result ≡ Ok Settled.Stands → self.new.frames ≡ self.old.frames ++ self.old.doubt ∷ [] }
        ensures gone { result ≡ Ok Settled.Gone → self.new.frames ≡ self.old.frames }
        ensures settled { OnOk result (self.new.doubt ≡ []) }
        ensures still { OnErr result ((self.new.frames ≡ self.old.frames) × (self.new.doubt ≡ self.old.doubt)) }

        // A crash then leaves what was returned. After a disk error, and at any moment of the call, it leaves one of
        // the two.
        ensures images { OnDisk (D.content self.new.disk) (D.images self.new.disk)
            (λ image. OpensAs image self.new.frames self.new.doubt) }
        ensures any_moment { LeavesOnly D.clock D.left self.old.disk self.new.disk (λ image.
            Told (D.content self.old.disk) (λ _. OpensToEither image self.old.frames self.old.doubt)) }

        ensures unchanged { BothTold (D.content self.old.disk) (D.content self.new.disk) (λ old new. new ≡ old) }
        ensures roomy { AnswersInRoom D.room D.clock 2 self.old.disk self.new.disk (λ _. IsOk result) }
        ensures keeps { Keeps D.clock D.name D.faults self.old.disk self.new.disk }
        ensures cause { OnErr result (Rose (D.faults self.old.disk) (D.faults self.new.disk)) }
    {
        let gate = self.end;
        let stands = is_open_for_good(&mut self.disk, gate)?;
        if !stands {
            self.doubt = Note::none();
            self.torn = 0;
            return Ok(Settled::Gone);
        }
        self.frames.push_noted(&self.doubt);
        self.end = gate + self.torn;
        self.doubt = Note::none();
        self.torn = 0;
        Ok(Settled::Stands)
    }
}
