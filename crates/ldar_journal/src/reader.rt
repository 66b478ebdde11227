ghost use Rattle.std.specs.Prelude.{◌≡◌, ◌≢◌, ◌<◌, ◌≤◌, ◌-◌, ◌^◌, [], ◌∷◌, ◌++◌, length, take, map};
ghost use Rattle.std.specs.Prelude.{true, false, Ok, Err, IfOk, OnOk, OnErr, IsOk, IfErr, MatchResult};
ghost use Rattle.fact_kinds.specs.declared.limits.TheConstants.{MOST_FACTS};
ghost use Rattle.disk_model.specs.Faults.{Rose};
ghost use Rattle.disk_model.specs.Images.{Only};
ghost use Rattle.disk_model.specs.Keeps.{Keeps};
ghost use Rattle.disk_model.specs.Told.{Told, BothTold};
ghost use Rattle.fact_kinds.specs.Identity.{identity_of};
ghost use Rattle.ldar_journal.specs.Crash.{AnswersOverRoom, LeavesOnly};
ghost use Rattle.ldar_journal.specs.Damage.{OnNotAJournal, IfDamaged, IsDamagedAt};
ghost use Rattle.ldar_journal.specs.Image.{header, batches_of, end_of, fact_count, IsKept, EndsAt};
ghost use Rattle.ldar_journal.specs.Opening.{IsRefused, IsStarted};
ghost use Rattle.ldar_journal.specs.Window.{OnlyReads};

use crate::history::{Chapter, Frames};
use crate::image::begins_with_header;
use crate::journal::Journal;
use crate::judging::{Judged, judge};
use crate::keeping::add_frame;
use crate::opening::{OpenError, OpenWhy};
use crate::window::{Window, fill};
use batch_positions::Positions;
use disk_model::{Disk, DiskFault};
use fact_kinds::Batch;
use std::alloc::Global;
use std::marker::Model;

/// A journal that is being opened, frame by frame. It keeps a piece of its bytes and the identities of the batches so far.
#[derive(Drop)]
pub struct Opening<D: Disk> {
    disk: D,
    window: Window,
    /// The place of the next gate, where the window begins.
    place: u64,
    frames: Frames,
    positions: Positions,
    facts: u64,
    ended: bool,
}

impl<D: Disk> Model for Opening<D> {
    ghost use Rattle.std.specs.Prelude.{◌≡◌, true};
    ghost use Rattle.disk_model.specs.Told.{Told};
    ghost use Rattle.ldar_journal.specs.Image.{batches_of};
    ghost use Rattle.ldar_journal.specs.Known.{IsKnown};
    ghost use Rattle.ldar_journal.specs.declared.window.TheConstants.{PIECE};
    ghost use Rattle.ldar_journal.specs.Opening.{OpeningState, IsReading, IsClosedAt};

    ghost Value = { OpeningState D };

    ghost view = { λ o. record { disk = o.disk; frames = o.frames; identities = o.positions.identities; ended = o.ended } };

    ghost invariant = { λ o. IsReading (D.content o.disk) (D.images o.disk) o.place o.frames o.window.bytes
        × IsKnown (batches_of o.frames) o.positions.identities o.facts
        × (o.window.size ≡ PIECE)
        × (o.ended ≡ true → Told (D.content o.disk) (λ bytes. IsClosedAt bytes o.place)) };
}

impl<D: Disk> Opening<D> {
    /// Syncs a disk and reads the header.
    pub fn begin(alloc: Global, disk: D) -> Result<Opening<D>, OpenError<D>>
        ensures value { IfOk result (λ opening. (opening.frames ≡ []) × (opening.identities ≡ []) × (opening.ended ≡ false)) }
        ensures unchanged { MatchResult result (λ opening. BothTold (D.content disk) (D.content opening.disk) (λ old new. new ≡ old))
            (λ e. BothTold (D.content disk) (D.content e.disk) (λ old new. new ≡ old)) }
        ensures refused { IfErr result (λ e. IsRefused (D.content disk) (D.content e.disk) e.why) }
        ensures any_moment { MatchResult result (λ opening. LeavesOnly D.clock D.left disk opening.disk (D.images disk))
            (λ e. LeavesOnly D.clock D.left disk e.disk (D.images disk)) }
        ensures roomy { MatchResult result (λ opening. AnswersOverRoom D.room disk opening.disk (Unit {0}))
            (λ e. AnswersOverRoom D.room disk e.disk (D.clock disk < 2 ^ 64 - 1 → e.why ≢ OpenWhy.Disk)) }
        ensures cause { IfErr result (λ e. e.why ≡ OpenWhy.Disk → Rose (D.faults disk) (D.faults e.disk)) }
        ensures keeps { MatchResult result (λ opening. Keeps D.clock D.name D.faults disk opening.disk) (λ e. Keeps D.clock D.name D.faults disk e.disk) }
    {
        let mut disk = disk;
        match started(alloc, &mut disk) {
            Ok((window, positions)) => Ok(Opening {
                disk,
                window,
                place: 16,
                frames: Frames::new(),
                positions,
                facts: 0,
                ended: false,
            }),
            Err(why) => Err(OpenError { disk, why }),
        }
    }

    /// Reads the next frame, and replaces the contents of `batches` with its batches. Returns false at the closed gate,
    /// after which nothing is read. After an error, the frames read before are still known.
    pub fn next_frame(&mut self, alloc: Global, batches: &mut Vec<Batch>) -> Result<bool, OpenWhy>
        ensures frame { result ≡ Ok true → (self.new.frames ≡ self.old.frames ++ batches.new.items ∷ [])
            × (fact_count (batches_of self.old.frames) < fact_count (batches_of self.new.frames)) }
        ensures identities { self.new.identities ≡ map identity_of (batches_of self.new.frames) }
        ensures kept { IsKept (batches_of self.new.frames) }
        ensures few { result ≡ Ok true → length (batches_of self.new.frames) ≤ MOST_FACTS }
        ensures ended { result ≡ Ok false → self.new.ended ≡ true }
        ensures others { result ≢ Ok true → self.new.frames ≡ self.old.frames }
        ensures not_a_journal { result ≢ Err OpenWhy.NotAJournal }
        ensures damaged { IfErr result (IfDamaged (λ at. Told (D.content self.old.disk) (λ bytes. IsDamagedAt bytes at))) }
        ensures reads { OnlyReads D.content D.images D.left D.clock self.old.disk self.new.disk }
        ensures roomy { AnswersOverRoom D.room self.old.disk self.new.disk (result ≢ Err OpenWhy.Disk) }
        ensures cause { result ≡ Err OpenWhy.Disk → Rose (D.faults self.old.disk) (D.faults self.new.disk) }
        ensures keeps { Keeps D.clock D.name D.faults self.old.disk self.new.disk }
    {
        match judge(alloc, &mut self.disk, &mut self.window, self.place, batches)? {
            Judged::Closed => {
                self.ended = true;
                Ok(false)
            }
            Judged::Bad => Err(OpenWhy::Damaged { at: self.place }),
            Judged::Whole(used) => {
                self.positions.reserve(batches.len())?;
                let Some(facts) = add_frame(&mut self.positions, &self.frames, self.facts, batches)
                else {
                    return Err(OpenWhy::Damaged { at: self.place });
                };
                self.facts = facts;
                self.frames.push(&Chapter::of(batches));
                self.window.drop_front(used);
                self.place += used as u64;
                self.ended = false;
                Ok(true)
            }
        }
    }

    /// The journal and the positions of its batches, once the closed gate was reached.
    pub fn finish(self) -> (Journal<D>, Positions)
        requires ended { self.ended ≡ true }
        ensures value { result.0 ≡ record { disk = self.disk; frames = self.frames; doubt = [] } }
        ensures opens { Told (D.content self.disk) (λ bytes. EndsAt bytes (end_of self.frames) self.frames) }
        ensures kept { IsKept (batches_of self.frames) }
        ensures identities { result.1.identities ≡ map identity_of (batches_of self.frames) }

        // A crash leaves exactly its bytes.
        ensures durable { Told (D.content self.disk) (λ bytes. Only bytes (D.images self.disk)) }
    {
        let Opening {
            disk,
            window: _,
            place,
            frames,
            positions,
            facts: _,
            ended: _,
        } = self;
        (Journal::at(disk, place, frames), positions)
    }

    /// Returns the disk.
    pub fn into_disk(self) -> D
        ensures value { result ≡ self.disk }
    {
        let Opening {
            disk,
            window: _,
            place: _,
            frames: _,
            positions: _,
            facts: _,
            ended: _,
        } = self;
        disk
    }
}

/// Syncs a disk, and returns a window with the bytes after the header, and no identities.
fn started<D: Disk>(alloc: Global, disk: &mut D) -> Result<(Window, Positions), OpenWhy>
    ensures started { IfOk result (λ r. IsStarted (D.content disk.new) (D.images disk.new) r.0 r.1) }
    ensures not_a_journal { IfErr result (OnNotAJournal (Told (D.content disk.old) (λ bytes. take 16 bytes ≢ header))) }
    ensures not_damaged { IfErr result (IfDamaged (λ at. Told (D.content disk.old) (λ bytes. IsDamagedAt bytes at))) }
    ensures unchanged { BothTold (D.content disk.old) (D.content disk.new) (λ old new. new ≡ old) }
    ensures any_moment { LeavesOnly D.clock D.left disk.old disk.new (D.images disk.old) }
    ensures roomy { AnswersOverRoom D.room disk.old disk.new (D.clock disk.old < 2 ^ 64 - 1 → result ≢ Err OpenWhy.Disk) }
    ensures cause { result ≡ Err OpenWhy.Disk → Rose (D.faults disk.old) (D.faults disk.new) }
    ensures keeps { Keeps D.clock D.name D.faults disk.old disk.new }
{
    make_stable(disk)?;
    let mut window = Window::new(alloc)?;
    fill(disk, &mut window, 0, 16)?;
    if !begins_with_header(window.bytes()) {
        return Err(OpenWhy::NotAJournal);
    }
    window.drop_front(16);
    Ok((window, Positions::new(alloc)?))
}

/// Syncs a disk.
fn make_stable<D: Disk>(disk: &mut D) -> Result<(), DiskFault>
    ensures same { BothTold (D.content disk.old) (D.content disk.new) (λ old new. new ≡ old) }
    ensures durable { OnOk result (Told (D.content disk.new) (λ bytes. Only bytes (D.images disk.new))) }
    ensures any_moment { LeavesOnly D.clock D.left disk.old disk.new (D.images disk.old) }
    ensures roomy { AnswersOverRoom D.room disk.old disk.new (D.clock disk.old < 2 ^ 64 - 1 → IsOk result) }
    ensures cause { OnErr result (Rose (D.faults disk.old) (D.faults disk.new)) }
    ensures keeps { Keeps D.clock D.name D.faults disk.old disk.new }
{
    disk.sync()
}
