ghost use Rattle.std.specs.Prelude.{◌≡◌, ◌<◌, ◌≤◌, ◌-◌, ◌++◌, [], length, take, drop, min, Contains, IsTrue, ◌↔◌, Some, IfOk, OnErr, IsErr, MatchResult, map};
ghost use Rattle.disk_model.specs.Calls.{IsFailing};
ghost use Rattle.disk_model.specs.Faults.{Rose};
ghost use Rattle.ldar_ports.specs.ListSource.{after_failing, after_take, cut, first_piece, from_first, joined};

use crate::rest::Rest;
use crate::{Memory, Source, SourceFault};
use disk_model::Calls;
use std::alloc::Global;
use std::marker::Model;

/// A source in memory, for tests. A call returns bytes of only one piece, and skips empty pieces. The calls are
/// numbered from 0; the calls with given numbers fail.
#[derive(Drop)]
pub struct ListSource {
    pieces: Vec<Rest>,
    calls: Calls,
}

impl Model for ListSource {
    ghost use Rattle.ldar_ports.specs.ListSource.{SourceState};

    ghost Value = { SourceState };

    ghost view = { λ s. record {
      pieces = s.pieces.items;
      calls = s.calls;
    } };
}

impl ListSource {
    /// A source of these pieces, on which the calls with these numbers will fail.
    pub fn new(alloc: Global, pieces: &[Vec<u8>], failing: &[u64]) -> Result<ListSource, Memory>
        ensures value { IfOk result (λ source. source ≡ record {
          pieces = map (λ piece. piece.items) pieces.now;
          calls = record { failing = failing.now; made = 0; faults = 0 };
        }) }
    {
        let mut rests = Vec::new(alloc);
        for piece in pieces {
            rests.push(Rest::new(alloc, piece)?)?;
        }
        Ok(ListSource {
            pieces: rests,
            calls: Calls::new(alloc, failing)?,
        })
    }

    /// The unread bytes.
    pub fn bytes_left(&self, alloc: Global) -> Result<Vec<u8>, Memory>
        ensures value { IfOk result (λ bytes. bytes.items ≡ joined self.now.pieces) }
    {
        let mut bytes = Vec::new(alloc);
        for piece in &self.pieces {
            bytes.extend_from_slice(piece.as_slice())?;
        }
        Ok(bytes)
    }

    /// The number of calls made, including those that failed.
    pub fn calls(&self) -> u64
        ensures value { result ≡ self.now.calls.made }
    {
        self.calls.made()
    }

    /// The number of calls that failed.
    pub fn faults(&self) -> u64
        ensures value { result ≡ self.now.calls.faults }
    {
        self.calls.faults()
    }
}

impl Source for ListSource {
    ghost left = { λ source. Some (joined source.pieces) };

    ghost faults = { λ source. source.calls.faults };

    fn take(&mut self, into: &mut [u8]) -> Result<usize, SourceFault>
        ensures value { IfOk result (λ n. n
            ≡ min (length into.old) (length (first_piece (from_first self.old.pieces)))) }
        ensures copied { IfOk result (λ n. into.new
            ≡ take n (first_piece (from_first self.old.pieces)) ++ drop n into.old) }
        ensures after { MatchResult result
            (λ n. self.new ≡ after_take self.old n) (λ _. self.new ≡ after_failing self.old) }
        ensures taken { IfOk result
            (λ n. joined self.old.pieces ≡ take n into.new ++ joined self.new.pieces) }
        ensures ended { IfOk result
            (λ n. n ≡ 0 → 0 < length into.old → joined self.new.pieces ≡ []) }

        // It fails exactly at the calls that were given.
        ensures fails { IsFailing self.old.calls → IsErr result }
        ensures only_failing { OnErr result (IsFailing self.old.calls) }

        ensures count { self.old.calls.faults ≤ self.new.calls.faults }
        ensures cause { OnErr result (Rose self.old.calls.faults self.new.calls.faults) }
    {
        if self.calls.is_failing() {
            self.calls.fail();
            return Err(SourceFault);
        }
        self.calls.pass();
        Ok(take_front(&mut self.pieces, into))
    }
}

// Takes bytes of the first non-empty piece, as far as it and the slice go.
fn take_front(pieces: &mut Vec<Rest>, into: &mut [u8]) -> usize
    ensures value { result ≡ min (length into.old) (length (first_piece (from_first pieces.old.items))) }
    ensures copied { into.new
        ≡ take result (first_piece (from_first pieces.old.items)) ++ drop result into.old }
    ensures after { pieces.new.items ≡ cut result (from_first pieces.old.items) }
    ensures taken { joined pieces.old.items ≡ take result into.new ++ joined pieces.new.items }
    ensures ended { result ≡ 0 → 0 < length into.old → joined pieces.new.items ≡ [] }
{
    skip_empty(pieces);
    take_first(pieces, into)
}

// Drops the pieces before the first non-empty one.
fn skip_empty(pieces: &mut Vec<Rest>)
    ensures { pieces.new.items ≡ from_first pieces.old.items }
{
    while !pieces.is_empty() && pieces[0].is_empty() {
        pieces.remove(0);
    }
}

// Takes bytes of the first piece, as far as it and the slice go.
fn take_first(pieces: &mut Vec<Rest>, into: &mut [u8]) -> usize
    ensures value { result ≡ min (length into.old) (length (first_piece pieces.old.items)) }
    ensures copied { into.new ≡ take result (first_piece pieces.old.items) ++ drop result into.old }
    ensures after { pieces.new.items ≡ cut result pieces.old.items }
{
    if pieces.is_empty() {
        return 0;
    }
    pieces[0].take(into)
}
