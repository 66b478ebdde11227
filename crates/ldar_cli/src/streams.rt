ghost use Rattle.std.specs.Prelude.{◌<◌, ◌≤◌, length, None, IfSome};

use disk_model::Disk;
use ldar_ports::{Sink, SinkFault, Source, SourceFault};
use std::io::{ErrorKind, Read, Stdin, Write};
use std::rt::Clock;
use std::thread;
use std::time::Duration;

/// The pause in milliseconds before a non-blocking stream that was not ready is tried again.
const PAUSE: u64 = 10;

/// Standard input. It does not expose its bytes.
#[derive(Drop)]
pub struct StdSource<'a, C: Clock> {
    stdin: Stdin,
    clock: &'a C,
    faults: u64,
}

impl<'a, C: Clock> StdSource<'a, C> {
    pub fn new(stdin: Stdin, clock: &'a C) -> StdSource<'a, C> {
        StdSource {
            stdin,
            clock,
            faults: 0,
        }
    }
}

impl<C: Clock> Source for StdSource<'_, C> {
    ghost left = { λ s. None };

    ghost faults = { λ s. s.faults };

    fn take(&mut self, into: &mut [u8]) -> Result<usize, SourceFault> {
        match read_once(self.clock, &mut self.stdin, into) {
            Some(read) => Ok(read),
            None => {
                self.faults = self.faults.saturating_add(1);
                Err(SourceFault)
            }
        }
    }
}

fn pause<C: Clock>(clock: &C) {
    thread::sleep(clock, Duration::from_millis(PAUSE));
}

/// Reads once. Tries again if a signal interrupts the read, or if a non-blocking stream has no bytes yet.
fn read_once<C: Clock, R: Read>(clock: &C, reader: &mut R, into: &mut [u8]) -> Option<usize>
    ensures within { IfSome result (λ n. n ≤ length into.old) }
{
    for _ in 0..u64::MAX {
        match reader.read(into) {
            Ok(read) => return Some(read),
            Err(error) => match error.kind() {
                ErrorKind::Interrupted => {}
                ErrorKind::WouldBlock => pause(clock),
                _ => return None,
            },
        }
    }
    None
}

/// Standard output or standard error. It does not expose its pieces.
#[derive(Drop)]
pub struct StdSink<'a, W: Write + Drop, C: Clock> {
    writer: W,
    clock: &'a C,
    faults: u64,
}

impl<'a, W: Write + Drop, C: Clock> StdSink<'a, W, C> {
    pub fn new(writer: W, clock: &'a C) -> StdSink<'a, W, C> {
        StdSink {
            writer,
            clock,
            faults: 0,
        }
    }
}

impl<W: Write + Drop, C: Clock> Sink for StdSink<'_, W, C> {
    ghost pieces = { λ k. None };

    ghost faults = { λ k. k.faults };

    fn put<D: Disk>(&mut self, _beside: &D, bytes: &[u8]) -> Result<usize, SinkFault> {
        if bytes.is_empty() {
            return Ok(0);
        }
        match write_once(self.clock, &mut self.writer, bytes) {
            Some(written) => Ok(written),
            None => {
                self.faults = self.faults.saturating_add(1);
                Err(SinkFault)
            }
        }
    }
}

/// Writes once. Tries again if a signal interrupts the write, or if a non-blocking stream accepts nothing yet. A write of no bytes
/// is an error.
fn write_once<C: Clock, W: Write>(clock: &C, writer: &mut W, bytes: &[u8]) -> Option<usize>
    ensures within { IfSome result (λ n. n ≤ length bytes.now) }
    ensures some { IfSome result (λ n. 0 < n) }
{
    for _ in 0..u64::MAX {
        match writer.write(bytes) {
            Ok(0) => return None,
            Ok(written) => return Some(written),
            Err(error) => match error.kind() {
                ErrorKind::Interrupted => {}
                ErrorKind::WouldBlock => pause(clock),
                _ => return None,
            },
        }
    }
    None
}
