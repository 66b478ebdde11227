ghost use Rattle.std.specs.Prelude.{◌≡◌, ◌<◌, ◌≤◌, ◌^◌, ◌+◌, ◌-◌, ◌++◌, [], ◌∷◌, ℕ, List, length, reverse};
ghost use Rattle.std.specs.Prelude.{take, min, IfOk, OnOk, OnErr, IsErr, Some, None, MatchResult};
ghost use Rattle.disk_model.specs.Calls.{IsFailing};
ghost use Rattle.disk_model.specs.Disk.{Reads, Torn, Holds};
ghost use Rattle.disk_model.specs.Faults.{Rose};
ghost use Rattle.disk_model.specs.MemoryDisk.{bytes_of, clock_of, images_of, left_of, new_disk, after_failing};
ghost use Rattle.disk_model.specs.MemoryDisk.{after_read, after_write, after_sync, changes, noted_write};
ghost use Rattle.disk_model.specs.MomentLaws.{left_counts_now, left_only_now, left_since_earlier};
ghost use Rattle.disk_model.specs.Stopped.{disk_before, stopped_bytes, IsLeftIn};
ghost use Rattle.disk_model.specs.Writes.{written};

use crate::noted::Noted;
use crate::places::{copy_from, overwrite};
use crate::replay::{redone, up_to};
use crate::{Calls, Disk, DiskFault, Memory};
use std::alloc::Global;
use std::marker::Model;

/// A disk in memory, for tests. Its reads, writes and syncs are numbered together from 0; the calls with given numbers
/// fail. It notes its writes and syncs, so that it can show what a stop inside a call would have left.
#[derive(Drop)]
pub struct MemoryDisk {
    alloc: Global,
    bytes: Vec<u8>,
    start: Vec<u8>,
    past: Vec<Noted>,
    calls: Calls,
    clock: u64,
}

impl Model for MemoryDisk {
    ghost use Rattle.std.specs.Prelude.{◌≡◌, length, reverse};
    ghost use Rattle.disk_model.specs.MemoryDisk.{DiskState, bytes_after, changes};

    ghost Value = { DiskState };

    ghost view = { λ m. record {
      start = m.start.items;
      past = reverse m.past.items;
      calls = m.calls;
    } };

    ghost invariant = { λ m. (m.bytes.items ≡ bytes_after m.start.items (reverse m.past.items))
        × (m.clock ≡ length (changes m.start.items (reverse m.past.items))) };
}

impl MemoryDisk {
    /// A disk with these bytes, all stable, on which the calls with these numbers will fail.
    pub fn new(alloc: Global, bytes: &[u8], failing: &[u64]) -> Result<MemoryDisk, Memory>
        ensures value { IfOk result (λ disk. disk ≡ new_disk bytes.now failing.now) }
    {
        Ok(MemoryDisk {
            alloc,
            bytes: Vec::from_slice(alloc, bytes)?,
            start: Vec::from_slice(alloc, bytes)?,
            past: Vec::new(alloc),
            calls: Calls::new(alloc, failing)?,
            clock: 0,
        })
    }

    /// The content.
    pub fn bytes(&self) -> &[u8]
        ensures value { result.now ≡ bytes_of self.now }
    {
        &self.bytes
    }

    /// The number of calls made, including those that failed.
    pub fn calls(&self) -> u64
        ensures value { result ≡ self.now.calls.made }
    {
        self.calls.made()
    }

    /// The number of calls that failed.
    pub fn faults(&self) -> u64
        ensures value { result ≡ self.now.calls.faults }
    {
        self.calls.faults()
    }

    /// A new disk as a stop inside a call of this one would leave it. Everything that earlier calls wrote is there. If
    /// the call is a write, the first bytes of its range are `left`, as far as the range goes. A call that failed
    /// changed nothing. A write of no bytes changes nothing.
    pub fn stopped(&self, alloc: Global, call: u64, left: &[u8]) -> Result<MemoryDisk, Memory>
        requires in_range { call < self.now.calls.made }
        ensures value { IfOk result (λ disk. disk
            ≡ new_disk (stopped_bytes self.now call left.now) []) }
        ensures any_moment { IfOk result (λ disk. IsLeftIn self.now call disk.start) }
    {
        let bytes = self.stopped_bytes(alloc, call, left)?;
        MemoryDisk::new(alloc, &bytes, &[])
    }

    // The bytes after a stop inside a call.
    fn stopped_bytes(&self, alloc: Global, call: u64, left: &[u8]) -> Result<Vec<u8>, Memory>
        ensures value { IfOk result (λ bytes. bytes.items ≡ stopped_bytes self.now call left.now) }
    {
        let past = up_to(&self.past, call);
        if let Some((last, earlier)) = past.split_last() {
            if last.call == call {
                let mut bytes = redone(alloc, &self.start, earlier)?;
                last.redo_part(left, &mut bytes)?;
                return Ok(bytes);
            }
        }
        redone(alloc, &self.start, past)
    }

    /// The clock at the start of a call.
    pub fn clock_before(&self, call: u64) -> u64
        requires in_range { call < self.now.calls.made }
        ensures value { result ≡ clock_of (disk_before call self.now) }
    {
        let past = up_to(&self.past, call);
        if let Some((last, earlier)) = past.split_last() {
            if last.call == call {
                return earlier.len() as u64;
            }
        }
        past.len() as u64
    }
}

// Writes, and notes the write. It fails only if it runs out of memory, and then changes nothing.
fn write_noted(
    alloc: Global,
    content: &mut Vec<u8>,
    past: &mut Vec<Noted>,
    call: u64,
    at: u64,
    bytes: &[u8],
) -> Result<(), Memory>
    ensures value { OnOk result (content.new.items ≡ written at bytes.now content.old.items) }
    ensures torn { OnOk result (Torn at (length bytes.now) content.old.items content.new.items) }
    ensures holds { OnOk result (Holds at bytes.now content.old.items content.new.items) }
    ensures noted { OnOk result (past.new.items ≡ past.old.items ++ noted_write call at bytes.now ∷ []) }
    ensures unchanged { OnErr result ((content.new.items ≡ content.old.items)
        × (past.new.items ≡ past.old.items)) }
{
    past.push(Noted::write(alloc, call, at, bytes)?)?;
    if let Err(memory) = overwrite(content, at as usize, bytes) {
        // The write failed, so it must not be noted.
        let _ = past.pop();
        return Err(memory);
    }
    Ok(())
}

impl Disk for MemoryDisk {
    ghost content = { λ disk. Some (bytes_of disk) };

    ghost faults = { λ disk. disk.calls.faults };

    ghost clock = { clock_of };

    ghost name = { λ disk. 0 };

    ghost images = { images_of };

    ghost left = { left_of };

    ghost room = { λ disk. None };

    ghost counts_now = { λ disk. left_counts_now disk.start (changes disk.start disk.past) };

    ghost only_now = { λ disk. left_only_now disk.start (changes disk.start disk.past) };

    ghost since_earlier = { λ disk. left_since_earlier disk.start (changes disk.start disk.past) };

    fn read_at(&mut self, at: u64, into: &mut [u8]) -> Result<usize, DiskFault>
        ensures value { IfOk result (λ n. n ≡ min (length into.old) (length (bytes_of self.old) - at)) }
        ensures read { IfOk result (Reads at (bytes_of self.old) into.old into.new) }
        ensures after { MatchResult result
            (λ _. self.new ≡ after_read self.old) (λ _. self.new ≡ after_failing self.old) }

        // It fails exactly at the calls that were given.
        ensures fails { IsFailing self.old.calls → IsErr result }
        ensures only_failing { OnErr result (IsFailing self.old.calls) }

        ensures count { self.old.calls.faults ≤ self.new.calls.faults }
        ensures cause { OnErr result (Rose self.old.calls.faults self.new.calls.faults) }
    {
        if self.calls.is_failing() {
            self.calls.fail();
            return Err(DiskFault);
        }
        self.calls.pass();
        Ok(copy_from(&self.bytes, at as usize, into))
    }

    fn write_at(&mut self, at: u64, bytes: &[u8]) -> Result<(), DiskFault>
        ensures written { OnOk result (Torn at (length bytes.now) (bytes_of self.old) (bytes_of self.new)
            × Holds at bytes.now (bytes_of self.old) (bytes_of self.new)) }
        ensures after { MatchResult result
            (λ _. self.new ≡ after_write self.old at bytes.now)
            (λ _. self.new ≡ after_failing self.old) }

        // It fails exactly at the calls that were given, at the maximum of its clock, and when it runs out of memory.
        ensures fails { IsFailing self.old.calls → IsErr result }
        ensures clock_at_end { clock_of self.old ≡ 2 ^ 64 - 1 → IsErr result }

        ensures count { self.old.calls.faults ≤ self.new.calls.faults }
        ensures cause { OnErr result (Rose self.old.calls.faults self.new.calls.faults) }
    {
        if self.calls.is_failing() || self.clock == u64::MAX {
            self.calls.fail();
            return Err(DiskFault);
        }
        let call = self.calls.made();
        if write_noted(self.alloc, &mut self.bytes, &mut self.past, call, at, bytes).is_err() {
            self.calls.fail();
            return Err(DiskFault);
        }
        self.calls.pass();
        self.clock += 1;
        Ok(())
    }

    fn sync(&mut self) -> Result<(), DiskFault>
        ensures after { MatchResult result
            (λ _. self.new ≡ after_sync self.old) (λ _. self.new ≡ after_failing self.old) }

        // It fails exactly at the calls that were given, at the maximum of its clock, and when it runs out of memory.
        ensures fails { IsFailing self.old.calls → IsErr result }
        ensures clock_at_end { clock_of self.old ≡ 2 ^ 64 - 1 → IsErr result }

        ensures count { self.old.calls.faults ≤ self.new.calls.faults }
        ensures cause { OnErr result (Rose self.old.calls.faults self.new.calls.faults) }
    {
        if self.calls.is_failing() {
            self.calls.fail();
            return Err(DiskFault);
        }
        let Some(clock) = self.clock.checked_add(1) else {
            self.calls.fail();
            return Err(DiskFault);
        };
        if self.past.push(Noted::sync(self.calls.made())).is_err() {
            self.calls.fail();
            return Err(DiskFault);
        }
        self.calls.pass();
        self.clock = clock;
        Ok(())
    }

    fn now(&self) -> u64 {
        self.clock
    }
}
