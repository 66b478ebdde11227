ghost use Rattle.std.specs.Prelude.{◌≡◌, ◌<◌, ◌≤◌, ◌+◌, ◌-◌, ◌↔◌, ◌++◌, [], ℕ, List, length, take, drop, IsTrue, IfOk, OnOk, OnErr};
ghost use Rattle.disk_model.specs.Faults.{Rose};
ghost use Rattle.ldar_ports.specs.Source.{Takes, HasEnded};
ghost use Rattle.ldar_ports.specs.Window.{after_taking, after_dropping};

use crate::{Memory, Source, SourceFault};
use std::alloc::Global;
use std::marker::Model;

/// If fewer bytes than this fit after those in hand, the bytes in hand are moved to the front before the next read.
const LITTLE_ROOM: usize = 4_096;

/// Bytes read from a source and not yet used, in a buffer of fixed size. Memory is allocated only when it is created.
/// Bytes are moved only near the end of the buffer, at most once each time some were used.
#[derive(Drop)]
pub struct Window {
    buffer: Vec<u8>,
    start: usize,
    end: usize,
}

impl Model for Window {
    ghost use Rattle.std.specs.Prelude.{◌≤◌, length, take, drop};
    ghost use Rattle.ldar_ports.specs.Window.{WindowState};

    ghost Value = { WindowState };

    ghost view = { λ w. record {
      bytes = drop w.start (take w.end w.buffer.items);
      size = length w.buffer.items;
    } };

    ghost invariant = { λ w. (w.start ≤ w.end) × (w.end ≤ length w.buffer.items) };
}

impl Window {
    /// An empty window with room for this many bytes.
    pub fn new(alloc: Global, size: usize) -> Result<Window, Memory>
        ensures value { IfOk result (λ window. window ≡ record { bytes = []; size = size }) }
    {
        Ok(Window {
            buffer: vec![in alloc; 0; size]?,
            start: 0,
            end: 0,
        })
    }

    /// The bytes.
    pub fn bytes(&self) -> &[u8]
        ensures value { result.now ≡ self.now.bytes }
    {
        &self.buffer[self.start..self.end]
    }

    /// Whether there is no room left.
    pub fn is_full(&self) -> bool
        ensures value { IsTrue result ↔ (length self.now.bytes ≡ self.now.size) }
        ensures in_range { length self.now.bytes ≤ self.now.size }
    {
        self.end - self.start == self.buffer.len()
    }

    /// Reads from a source once, as far as there is room, and returns how many bytes.
    pub fn take_from<S: Source>(&mut self, source: &mut S) -> Result<usize, SourceFault>
        ensures taken { IfOk result (λ n. (taken : List ℕ) × (length taken ≡ n)
            × Takes (S.left source.old) taken (S.left source.new)
            × (self.new ≡ after_taking self.old taken)) }
        ensures in_range { IfOk result (λ n. length self.old.bytes + n ≤ self.old.size) }
        ensures ended { IfOk result
            (λ n. n ≡ 0 → length self.old.bytes < self.old.size → HasEnded (S.left source.new)) }
        ensures unchanged { OnErr result
            ((self.new ≡ self.old) × (S.left source.new ≡ S.left source.old)) }
        ensures count { S.faults source.old ≤ S.faults source.new }
        ensures cause { OnErr result (Rose (S.faults source.old) (S.faults source.new)) }
    {
        let (start, end) = make_room(&mut self.buffer, self.start, self.end);
        self.start = start;
        self.end = end;
        let n = take_behind(&mut self.buffer, end, source)?;
        self.end += n;
        Ok(n)
    }

    /// Reads from a source until the window is full or the input has ended. After an error, the bytes read before it
    /// are in the window.
    pub fn fill_from<S: Source>(&mut self, source: &mut S) -> Result<(), SourceFault>
        ensures taken { (taken : List ℕ) × Takes (S.left source.old) taken (S.left source.new)
            × (self.new ≡ after_taking self.old taken) }
        ensures in_range { length self.new.bytes ≤ self.new.size }
        ensures ended { OnOk result
            (length self.new.bytes < self.new.size → HasEnded (S.left source.new)) }
        ensures count { S.faults source.old ≤ S.faults source.new }
        ensures cause { OnErr result (Rose (S.faults source.old) (S.faults source.new)) }
    {
        while !self.is_full() {
            if self.take_from(source)? == 0 {
                return Ok(());
            }
        }
        Ok(())
    }

    /// Drops bytes at the front.
    pub fn drop_front(&mut self, n: usize)
        requires in_range { n ≤ length self.old.bytes }
        ensures value { self.new ≡ after_dropping self.old n }
    {
        self.start += n;
    }
}

// Reads bytes into a buffer from a place on.
fn take_behind<S: Source>(
    buffer: &mut Vec<u8>,
    at: usize,
    source: &mut S,
) -> Result<usize, SourceFault>
    requires { at ≤ length buffer.old.items }
    ensures size { length buffer.new.items ≡ length buffer.old.items }
    ensures before { take at buffer.new.items ≡ take at buffer.old.items }
    ensures within { IfOk result (λ n. n ≤ length buffer.old.items - at) }
    ensures taken { IfOk result
        (λ n. Takes (S.left source.old) (take n (drop at buffer.new.items)) (S.left source.new)) }
    ensures ended { IfOk result
        (λ n. n ≡ 0 → at < length buffer.old.items → HasEnded (S.left source.new)) }
    ensures unchanged { OnErr result (S.left source.new ≡ S.left source.old) }
    ensures count { S.faults source.old ≤ S.faults source.new }
    ensures cause { OnErr result (Rose (S.faults source.old) (S.faults source.new)) }
{
    source.take(&mut buffer[at..])
}

// Moves the bytes between two places to the front if there is little room after them. Returns their new places. Bytes
// that are already at the front are not moved.
fn make_room(buffer: &mut Vec<u8>, start: usize, end: usize) -> (usize, usize)
    requires ordered { start ≤ end }
    requires in_range { end ≤ length buffer.old.items }
    ensures size { length buffer.new.items ≡ length buffer.old.items }
    ensures ordered { result.0 ≤ result.1 }
    ensures in_range { result.1 ≤ length buffer.new.items }
    ensures value { drop result.0 (take result.1 buffer.new.items)
        ≡ drop start (take end buffer.old.items) }
    ensures room { end - start < length buffer.old.items → result.1 < length buffer.new.items }
{
    let room = buffer.len() - end;
    if room >= LITTLE_ROOM || (start == 0 && room > 0) {
        return (start, end);
    }
    buffer.copy_within(start..end, 0);
    (0, end - start)
}
