ghost use Rattle.std.specs.Prelude.{◌≡◌, ◌≤◌, ◌↔◌, ◌++◌, [], length, take, drop, min, IsTrue, IfOk};

use crate::Memory;
use std::alloc::Global;
use std::marker::Model;

// The unread part of one piece.
#[derive(Drop)]
pub struct Rest {
    bytes: Vec<u8>,
    taken: usize,
}

impl Model for Rest {
    ghost use Rattle.std.specs.Prelude.{ℕ, ◌≤◌, List, drop, length};

    ghost Value = { List ℕ };

    ghost view = { λ r. drop r.taken r.bytes.items };

    ghost invariant = { λ r. r.taken ≤ length r.bytes.items };
}

impl Rest {
    pub fn new(alloc: Global, bytes: &[u8]) -> Result<Rest, Memory>
        ensures value { IfOk result (λ rest. rest ≡ bytes.now) }
    {
        Ok(Rest {
            bytes: Vec::from_slice(alloc, bytes)?,
            taken: 0,
        })
    }

    pub fn as_slice(&self) -> &[u8]
        ensures value { result.now ≡ self.now }
    {
        &self.bytes[self.taken..]
    }

    pub fn is_empty(&self) -> bool
        ensures value { IsTrue result ↔ (length self.now ≡ 0) }
    {
        self.as_slice().is_empty()
    }

    // Copies bytes into the front of a slice, as far as both go.
    pub fn take(&mut self, into: &mut [u8]) -> usize
        ensures value { result ≡ min (length into.old) (length self.old) }
        ensures copied { into.new ≡ take result self.old ++ drop result into.old }
        ensures after { self.new ≡ drop result self.old }
    {
        let n = copy_front(&self.bytes[self.taken..], into);
        self.taken += n;
        n
    }
}

fn copy_front(bytes: &[u8], into: &mut [u8]) -> usize
    ensures value { result ≡ min (length into.old) (length bytes.now) }
    ensures copied { into.new ≡ take result bytes.now ++ drop result into.old }
{
    let n = into.len().min(bytes.len());
    into[..n].copy_from_slice(&bytes[..n]);
    n
}
