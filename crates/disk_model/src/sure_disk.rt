ghost use Rattle.std.specs.Prelude.{◌≡◌, ◌≤◌, ◌+◌, ◌↔◌, ◌-◌, [], length, min, Some, IsTrue, IfOk, IsOk, IsErr, OnOk, OnErr, MatchResult};
ghost use Rattle.disk_model.specs.Disk.{Reads, Torn, Holds};
ghost use Rattle.disk_model.specs.Faults.{Rose};
ghost use Rattle.disk_model.specs.MomentLaws.{left_counts_now, left_only_now, left_since_earlier};
ghost use Rattle.disk_model.specs.Moments.{Images, Left};
ghost use Rattle.disk_model.specs.SureDisk.{sure_clock, IsAtLastClock, RefusesWrite, after_refusal, after_sure_write, after_sure_sync};

use crate::past::{Past, Start};
use crate::places::{copy_from, overwrite};
use crate::{Disk, DiskFault, Memory};
use std::alloc::Global;
use std::marker::Model;

/// A disk in memory that allocates its room when it is created. It fails only if a write would end past the room, or if
/// a write or a sync comes when the clock is at its maximum. The room is counted in bytes.
#[derive(Drop)]
pub struct SureDisk {
    bytes: Vec<u8>,
    room: usize,
    faults: u64,
    clock: u64,
    start: Start,
    past: Past,
}

impl Model for SureDisk {
    ghost use Rattle.std.specs.Prelude.{◌≡◌, ◌≤◌, length, vec_capacity};
    ghost use Rattle.disk_model.specs.Moments.{Images};
    ghost use Rattle.disk_model.specs.SureDisk.{SureState};

    ghost Value = { SureState };

    ghost view = { λ d. record {
      bytes = d.bytes.items;
      start = d.start;
      past = d.past;
      room = d.room;
      faults = d.faults;
    } };

    ghost invariant = { λ d. (d.room ≤ vec_capacity d.bytes)
        × (d.clock ≡ length d.past)
        × Images d.start d.past d.bytes.items };
}

impl SureDisk {
    /// A disk with these bytes, all stable, and this room.
    pub fn new(alloc: Global, bytes: &[u8], room: usize) -> Result<SureDisk, Memory>
        ensures value { IfOk result (λ disk. disk ≡ record {
          bytes = bytes.now;
          start = bytes.now;
          past = [];
          room = room;
          faults = 0;
        }) }
    {
        let mut content = Vec::with_capacity(alloc, room)?;
        content.extend_from_slice(bytes)?;
        let start = Start::of(&content);
        Ok(SureDisk {
            bytes: content,
            room,
            faults: 0,
            clock: 0,
            start,
            past: Past::new(),
        })
    }

    /// The content.
    pub fn bytes(&self) -> &[u8]
        ensures value { result.now ≡ self.now.bytes }
    {
        &self.bytes
    }

    /// The room: a write that ends within it does not fail.
    pub fn room(&self) -> usize
        ensures value { result ≡ self.now.room }
    {
        self.room
    }

    /// The number of calls that failed.
    pub fn faults(&self) -> u64
        ensures value { result ≡ self.now.faults }
    {
        self.faults
    }

    // Whether a write of this many bytes at this place ends within the room.
    fn has_room(&self, at: u64, count: usize) -> bool
        ensures value { IsTrue result ↔ (at + count ≤ self.now.room) }
    {
        match (at as usize).checked_add(count) {
            Some(end) => end <= self.room,
            None => false,
        }
    }
}

impl Disk for SureDisk {
    ghost content = { λ disk. Some disk.bytes };

    ghost faults = { λ disk. disk.faults };

    ghost clock = { sure_clock };

    ghost name = { λ disk. 0 };

    ghost images = { λ disk. Images disk.start disk.past };

    ghost left = { λ disk. Left disk.start disk.past };

    ghost room = { λ disk. Some disk.room };

    ghost counts_now = { λ disk. left_counts_now disk.start disk.past };

    ghost only_now = { λ disk. left_only_now disk.start disk.past };

    ghost since_earlier = { λ disk. left_since_earlier disk.start disk.past };

    fn read_at(&mut self, at: u64, into: &mut [u8]) -> Result<usize, DiskFault>
        ensures value { IfOk result (λ n. n ≡ min (length into.old) (length self.old.bytes - at)) }
        ensures read { IfOk result (Reads at self.old.bytes into.old into.new) }
        ensures unchanged { self.new ≡ self.old }
        ensures answers { IsOk result }
    {
        Ok(copy_from(&self.bytes, at as usize, into))
    }

    fn write_at(&mut self, at: u64, bytes: &[u8]) -> Result<(), DiskFault>
        ensures written { OnOk result (Torn at (length bytes.now) self.old.bytes self.new.bytes
            × Holds at bytes.now self.old.bytes self.new.bytes) }
        ensures after { MatchResult result
            (λ _. self.new ≡ after_sure_write self.old at bytes.now)
            (λ _. self.new ≡ after_refusal self.old) }
        ensures refused { IsErr result ↔ RefusesWrite self.old at bytes.now }
        ensures count { self.old.faults ≤ self.new.faults }
        ensures cause { OnErr result (Rose self.old.faults self.new.faults) }
    {
        if self.clock == u64::MAX || !self.has_room(at, bytes.len()) {
            self.faults = self.faults.saturating_add(1);
            return Err(DiskFault);
        }
        overwrite(&mut self.bytes, at as usize, bytes).unwrap();
        self.past.wrote(at, bytes.len(), &self.bytes);
        self.clock += 1;
        Ok(())
    }

    fn sync(&mut self) -> Result<(), DiskFault>
        ensures after { MatchResult result
            (λ _. self.new ≡ after_sure_sync self.old) (λ _. self.new ≡ after_refusal self.old) }
        ensures refused { IsErr result ↔ IsAtLastClock self.old }
        ensures count { self.old.faults ≤ self.new.faults }
        ensures cause { OnErr result (Rose self.old.faults self.new.faults) }

        // The bytes that a read returns are one of the images.
        ensures image { Images self.old.start self.old.past self.old.bytes }
    {
        if self.clock == u64::MAX {
            self.faults = self.faults.saturating_add(1);
            return Err(DiskFault);
        }
        self.past.synced(&self.bytes);
        self.clock += 1;
        Ok(())
    }

    fn now(&self) -> u64 {
        self.clock
    }
}
