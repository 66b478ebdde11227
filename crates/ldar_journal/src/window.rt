ghost use Rattle.std.specs.Prelude.{◌≡◌, ◌^◌, ◌+◌, ◌-◌, ◌<◌, ◌≤◌, ◌++◌, [], ℕ, List, length, take, drop, true, false, Ok, IfOk, OnOk, OnErr, IsOk};
ghost use Rattle.disk_model.specs.Disk.{Reads};
ghost use Rattle.disk_model.specs.Faults.{Rose};
ghost use Rattle.disk_model.specs.Keeps.{Keeps};
ghost use Rattle.disk_model.specs.Told.{BothTold};
ghost use Rattle.ldar_journal.specs.Crash.{AnswersOverRoom};
ghost use Rattle.ldar_journal.specs.declared.window.TheConstants.{PIECE};
ghost use Rattle.ldar_journal.specs.Window.{IsAhead, OnlyReads};

use disk_model::{Disk, DiskFault};
use fact_kinds::Memory;
use std::alloc::Global;
use std::marker::Model;

/// The size of a window in bytes, which is also the maximum of one read.
pub const PIECE: usize = 1_048_576;

/// Bytes of a disk that were read and not yet used, in a buffer of fixed size. Memory is allocated only when it is created.
/// Bytes are moved only when the end of the buffer is reached.
#[derive(Drop)]
pub struct Window {
    buffer: Vec<u8>,
    start: usize,
    end: usize,
}

impl Model for Window {
    ghost use Rattle.std.specs.Prelude.{◌≤◌, length, take, drop};
    ghost use Rattle.ldar_journal.specs.Window.{WindowState};

    ghost Value = { WindowState };

    ghost view = { λ w. record {
      bytes = drop w.start (take w.end w.buffer.items);
      size = length w.buffer.items;
    } };

    ghost invariant = { λ w. (w.start ≤ w.end) × (w.end ≤ length w.buffer.items) };
}

impl Window {
    /// An empty window.
    pub fn new(alloc: Global) -> Result<Window, Memory>
        ensures value { IfOk result (λ window. window ≡ record { bytes = []; size = PIECE }) }
    {
        Ok(Window {
            buffer: vec![in alloc; 0; PIECE]?,
            start: 0,
            end: 0,
        })
    }

    /// The bytes.
    pub fn bytes(&self) -> &[u8]
        ensures value { result.now ≡ self.now.bytes }
    {
        &self.buffer[self.start..self.end]
    }

    /// The number of bytes.
    pub fn len(&self) -> usize
        ensures value { result ≡ length self.now.bytes }
    {
        self.end - self.start
    }

    /// Drops bytes at the front.
    pub fn drop_front(&mut self, n: usize)
        requires { n ≤ length self.old.bytes }
        ensures value { self.new ≡ record { bytes = drop n self.old.bytes; size = self.old.size } }
    {
        self.start += n;
    }

    /// Reads the bytes of a disk that follow those of the window. Returns how many were read.
    pub fn read_from<D: Disk>(&mut self, disk: &mut D, place: u64) -> Result<usize, DiskFault>
        requires fits { place < 2 ^ 63 }
        ensures more { IfOk result (λ n. (more : List ℕ) × (length more ≡ n) × (self.new ≡ record { bytes = self.old.bytes ++ more; size = self.old.size })) }
        ensures ahead { BothTold (D.content disk.old) (D.content disk.new) (λ old new. IsAhead place self.old.bytes old → IsAhead place self.new.bytes old) }
        ensures ended { result ≡ Ok 0 → length self.old.bytes < self.old.size → BothTold (D.content disk.old) (D.content disk.new)
            (λ old new. IsAhead place self.old.bytes old → self.old.bytes ≡ drop place old) }
        ensures unchanged { OnErr result (self.new ≡ self.old) }
        ensures reads { OnlyReads D.content D.images D.left D.clock disk.old disk.new }
        ensures keeps { Keeps D.clock D.name D.faults disk.old disk.new }
        ensures roomy { AnswersOverRoom D.room disk.old disk.new (IsOk result) }
        ensures cause { OnErr result (Rose (D.faults disk.old) (D.faults disk.new)) }
    {
        let (start, end) = make_room(&mut self.buffer, self.start, self.end);
        self.start = start;
        self.end = end;
        let n = read_behind(disk, &mut self.buffer, end, place + (end - start) as u64)?;
        self.end += n;
        Ok(n)
    }
}

/// Reads bytes of a disk, from a place on, into a buffer from an index on.
fn read_behind<D: Disk>(
    disk: &mut D,
    buffer: &mut Vec<u8>,
    at: usize,
    place: u64,
) -> Result<usize, DiskFault>
    requires { at ≤ length buffer.old.items }
    ensures size { length buffer.new.items ≡ length buffer.old.items }
    ensures before { take at buffer.new.items ≡ take at buffer.old.items }
    ensures within { IfOk result (λ n. n ≤ length buffer.old.items - at) }
    ensures read { BothTold (D.content disk.old) (D.content disk.new)
        (λ old new. IfOk result (Reads place old (drop at buffer.old.items) (drop at buffer.new.items))) }
    ensures reads { OnlyReads D.content D.images D.left D.clock disk.old disk.new }
    ensures keeps { Keeps D.clock D.name D.faults disk.old disk.new }
    ensures roomy { AnswersOverRoom D.room disk.old disk.new (IsOk result) }
    ensures cause { OnErr result (Rose (D.faults disk.old) (D.faults disk.new)) }
{
    disk.read_at(place, &mut buffer[at..])
}

/// Moves the bytes between two places to the front if there is no room after them. Returns their new places.
fn make_room(buffer: &mut Vec<u8>, start: usize, end: usize) -> (usize, usize)
    requires ordered { start ≤ end }
    requires in_range { end ≤ length buffer.old.items }
    ensures size { length buffer.new.items ≡ length buffer.old.items }
    ensures ordered { result.0 ≤ result.1 }
    ensures in_range { result.1 ≤ length buffer.new.items }
    ensures value { drop result.0 (take result.1 buffer.new.items) ≡ drop start (take end buffer.old.items) }
    ensures room { end - start < length buffer.old.items → result.1 < length buffer.new.items }
{
    if end < buffer.len() {
        return (start, end);
    }
    buffer.copy_within(start..end, 0);
    (0, end - start)
}

/// Reads until a window has this many bytes from a place on, or the disk has no more. Returns false if the disk has no
/// more.
pub fn fill<D: Disk>(
    disk: &mut D,
    window: &mut Window,
    place: u64,
    wanted: usize,
) -> Result<bool, DiskFault>
    requires fits { place < 2 ^ 63 }
    requires roomy { wanted ≤ window.old.size }
    ensures more { (more : List ℕ) × (window.new ≡ record { bytes = window.old.bytes ++ more; size = window.old.size }) }
    ensures ahead { BothTold (D.content disk.old) (D.content disk.new) (λ old new. IsAhead place window.old.bytes old → IsAhead place window.new.bytes old) }
    ensures enough { result ≡ Ok true → wanted ≤ length window.new.bytes }
    ensures all { result ≡ Ok false → BothTold (D.content disk.old) (D.content disk.new)
        (λ old new. IsAhead place window.old.bytes old → window.new.bytes ≡ drop place old) }
    ensures short { result ≡ Ok false → length window.new.bytes < wanted }
    ensures reads { OnlyReads D.content D.images D.left D.clock disk.old disk.new }
    ensures keeps { Keeps D.clock D.name D.faults disk.old disk.new }
    ensures roomy { AnswersOverRoom D.room disk.old disk.new (IsOk result) }
    ensures cause { OnErr result (Rose (D.faults disk.old) (D.faults disk.new)) }
{
    while window.len() < wanted {
        if window.read_from(disk, place)? == 0 {
            return Ok(false);
        }
    }
    Ok(true)
}
