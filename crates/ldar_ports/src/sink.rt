ghost use Rattle.std.specs.Prelude.{◌≡◌, ◌<◌, ◌≤◌, ◌++◌, [], ◌∷◌, ℕ, List, length, take, Option, Some, codes, IfOk, OnOk, OnErr, All};
ghost use Rattle.disk_model.specs.Faults.{Rose};
ghost use Rattle.ldar_ports.specs.Sink.{Piece, Puts, IsStamped, piece_of, bytes_of};

use disk_model::Disk;
use std::error::Error;
use std::fmt;

/// A call of a sink failed, and the sink counted the error.
#[derive(Clone, Copy, Debug, PartialEq, Eq)]
pub struct SinkFault;

impl fmt::Display for SinkFault {
    ghost output = { λ _. Some (codes "write fault") };

    fn fmt<W: fmt::Write>(&self, f: &mut fmt::Formatter<W>) -> fmt::Result {
        write!(f, "write fault")
    }
}

impl Error for SinkFault {}

/// An output of bytes, in pieces, and a count of errors. Each piece is stamped with the clock of the disk that is given
/// with it.
pub trait Sink: Drop {
    /// The pieces that were written, earliest first, if the sink exposes them.
    ghost pieces: { Self → Option (List Piece) };

    /// The number of failed calls. It stays at 2^64 - 1 once it reaches it.
    ghost faults: { Self → ℕ };

    /// Writes bytes from the front on, and returns how many; at least one if there are any.
    fn put<D: Disk>(&mut self, beside: &D, bytes: &[u8]) -> Result<usize, SinkFault>
        ensures within { IfOk result (λ n. n ≤ length bytes.now) }
        ensures at_least_one { IfOk result (λ n. 0 < length bytes.now → 0 < n) }
        ensures puts { IfOk result (λ n. Puts (pieces self.old)
            (piece_of (take n bytes.now) (D.clock beside.now) ∷ []) (pieces self.new)) }
        ensures unchanged { OnErr result (pieces self.new ≡ pieces self.old) }
        ensures count { faults self.old ≤ faults self.new }
        ensures cause { OnErr result (Rose (faults self.old) (faults self.new)) };
}

impl<K: Sink> Sink for &mut K {
    ghost pieces = { λ k. K.pieces k.now };

    ghost faults = { λ k. K.faults k.now };

    fn put<D: Disk>(&mut self, beside: &D, bytes: &[u8]) -> Result<usize, SinkFault> {
        (**self).put(beside, bytes)
    }
}

/// Writes all of the bytes, in as many pieces as the sink wants. After an error, a prefix of them was written.
pub fn put_all<K: Sink, D: Disk>(sink: &mut K, beside: &D, bytes: &[u8]) -> Result<(), SinkFault>
    ensures puts { (put : List Piece) × (unsaid : List ℕ)
        × Puts (K.pieces sink.old) put (K.pieces sink.new)
        × (bytes.now ≡ bytes_of put ++ unsaid)
        × OnOk result (unsaid ≡ [])
        × All (IsStamped (D.clock beside.now)) put }
    ensures count { K.faults sink.old ≤ K.faults sink.new }
    ensures cause { OnErr result (Rose (K.faults sink.old) (K.faults sink.new)) }
{
    let mut rest = bytes;
    while !rest.is_empty() {
        let n = sink.put(beside, rest)?;
        rest = &rest[n..];
    }
    Ok(())
}
