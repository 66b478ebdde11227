ghost use Rattle.std.specs.Prelude.{◌≡◌, ◌<◌, ◌≤◌, ◌++◌, [], ◌∷◌, length, take, Contains, IsTrue, ◌↔◌, Some, IfOk, OnErr, IsErr, MatchResult};
ghost use Rattle.disk_model.specs.Calls.{IsFailing};
ghost use Rattle.disk_model.specs.Faults.{Rose};
ghost use Rattle.ldar_ports.specs.Sink.{piece_of, bytes_of};
ghost use Rattle.ldar_ports.specs.StampedSink.{after_failing, after_put};

use crate::{Memory, Sink, SinkFault};
use disk_model::{Calls, Disk};
use std::alloc::Global;
use std::marker::Model;

/// Bytes that were written in one call, with the clock of the disk given with them.
#[derive(Drop)]
pub struct StampedPiece {
    bytes: Vec<u8>,
    stamp: u64,
}

impl Model for StampedPiece {
    ghost use Rattle.ldar_ports.specs.Sink.{Piece};

    ghost Value = { Piece };

    ghost view = { λ p. record { bytes = p.bytes.items; stamp = p.stamp } };
}

impl StampedPiece {
    /// The bytes.
    pub fn bytes(&self) -> &[u8]
        ensures value { result.now ≡ self.now.bytes }
    {
        &self.bytes
    }

    /// The clock of the disk.
    pub fn stamp(&self) -> u64
        ensures value { result ≡ self.now.stamp }
    {
        self.stamp
    }
}

/// A sink in memory, for tests. It accepts each piece whole and keeps it with its stamp. The calls are numbered from 0;
/// the calls with given numbers fail, and so do those that run out of memory.
#[derive(Drop)]
pub struct StampedSink {
    alloc: Global,
    pieces: Vec<StampedPiece>,
    calls: Calls,
}

impl Model for StampedSink {
    ghost use Rattle.ldar_ports.specs.StampedSink.{SinkState};

    ghost Value = { SinkState };

    ghost view = { λ s. record {
      pieces = s.pieces.items;
      calls = s.calls;
    } };
}

impl StampedSink {
    /// An empty sink, on which the calls with these numbers will fail.
    pub fn new(alloc: Global, failing: &[u64]) -> Result<StampedSink, Memory>
        ensures value { IfOk result (λ sink. sink
            ≡ record { pieces = []; calls = record { failing = failing.now; made = 0; faults = 0 } }) }
    {
        Ok(StampedSink {
            alloc,
            pieces: Vec::new(alloc),
            calls: Calls::new(alloc, failing)?,
        })
    }

    /// The pieces that were written, earliest first.
    pub fn pieces(&self) -> &[StampedPiece]
        ensures value { result.now ≡ self.now.pieces }
    {
        &self.pieces
    }

    /// The bytes of all pieces.
    pub fn bytes(&self, alloc: Global) -> Result<Vec<u8>, Memory>
        ensures value { IfOk result (λ bytes. bytes.items ≡ bytes_of self.now.pieces) }
    {
        let mut bytes = Vec::new(alloc);
        for piece in &self.pieces {
            bytes.extend_from_slice(piece.bytes())?;
        }
        Ok(bytes)
    }

    /// The number of calls made, including those that failed.
    pub fn calls(&self) -> u64
        ensures value { result ≡ self.now.calls.made }
    {
        self.calls.made()
    }

    /// The number of calls that failed.
    pub fn faults(&self) -> u64
        ensures value { result ≡ self.now.calls.faults }
    {
        self.calls.faults()
    }
}

impl Sink for StampedSink {
    ghost pieces = { λ sink. Some sink.pieces };

    ghost faults = { λ sink. sink.calls.faults };

    fn put<D: Disk>(&mut self, beside: &D, bytes: &[u8]) -> Result<usize, SinkFault>
        ensures value { IfOk result (λ n. n ≡ length bytes.now) }
        ensures puts { IfOk result (λ n. self.new.pieces
            ≡ self.old.pieces ++ piece_of (take n bytes.now) (D.clock beside.now) ∷ []) }
        ensures after { MatchResult result
            (λ _. self.new ≡ after_put self.old (piece_of bytes.now (D.clock beside.now)))
            (λ _. self.new ≡ after_failing self.old) }

        // It fails exactly at the calls that were given, and when it runs out of memory.
        ensures fails { IsFailing self.old.calls → IsErr result }

        ensures count { self.old.calls.faults ≤ self.new.calls.faults }
        ensures cause { OnErr result (Rose self.old.calls.faults self.new.calls.faults) }
    {
        if self.calls.is_failing() {
            self.calls.fail();
            return Err(SinkFault);
        }
        let Ok(bytes) = Vec::from_slice(self.alloc, bytes) else {
            self.calls.fail();
            return Err(SinkFault);
        };
        let n = bytes.len();
        let stamp = beside.now();
        if self.pieces.push(StampedPiece { bytes, stamp }).is_err() {
            self.calls.fail();
            return Err(SinkFault);
        }
        self.calls.pass();
        Ok(n)
    }
}
