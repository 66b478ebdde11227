ghost use Rattle.std.specs.Prelude.{◌≡◌, ◌<◌, ◌≤◌, ℕ, List, length, take, Option, Some, codes, IfOk, OnErr};
ghost use Rattle.disk_model.specs.Faults.{Rose};
ghost use Rattle.ldar_ports.specs.Source.{Takes, HasEnded};

use std::error::Error;
use std::fmt;

/// A call of a source failed, and the source counted the error.
#[derive(Clone, Copy, Debug, PartialEq, Eq)]
pub struct SourceFault;

impl fmt::Display for SourceFault {
    ghost output = { λ _. Some (codes "read fault") };

    fn fmt<W: fmt::Write>(&self, f: &mut fmt::Formatter<W>) -> fmt::Result {
        write!(f, "read fault")
    }
}

impl Error for SourceFault {}

/// An input of bytes, in pieces of any size, and a count of errors.
pub trait Source: Drop {
    /// The unread bytes, if the source exposes them.
    ghost left: { Self → Option (List ℕ) };

    /// The number of failed calls. It stays at 2^64 - 1 once it reaches it.
    ghost faults: { Self → ℕ };

    /// Reads the next bytes into the front of a slice, and returns how many. It returns 0 exactly at the end of the
    /// input, or if the slice is empty.
    fn take(&mut self, into: &mut [u8]) -> Result<usize, SourceFault>
        ensures within { IfOk result (λ n. n ≤ length into.old) }
        ensures taken { IfOk result (λ n. Takes (left self.old) (take n into.new) (left self.new)) }
        ensures ended { IfOk result (λ n. n ≡ 0 → 0 < length into.old → HasEnded (left self.new)) }
        ensures unchanged { OnErr result (left self.new ≡ left self.old) }
        ensures count { faults self.old ≤ faults self.new }
        ensures cause { OnErr result (Rose (faults self.old) (faults self.new)) };
}

impl<S: Source> Source for &mut S {
    ghost left = { λ s. S.left s.now };

    ghost faults = { λ s. S.faults s.now };

    fn take(&mut self, into: &mut [u8]) -> Result<usize, SourceFault> {
        (**self).take(into)
    }
}
