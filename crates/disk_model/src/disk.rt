ghost use Rattle.std.specs.Prelude.{Some, codes, ◌≡◌, ◌<◌, ◌≤◌, ◌+◌, ◌^◌, ◌-◌, ◌⊎◌, ℕ, List, length, Option, IfOk, OnOk, OnErr, IsOk, IsErr, MatchResult};
ghost use Rattle.disk_model.specs.Images.{Same, SameSince, Only, Tears, Elapses, Roomy};
ghost use Rattle.disk_model.specs.Told.{Told, BothTold};
ghost use Rattle.disk_model.specs.Faults.{Rose};
ghost use Rattle.disk_model.specs.Keeps.{Keeps};
ghost use Rattle.disk_model.specs.Disk.{Reads, Torn, Holds};

use std::error::Error;
use std::fmt;

/// A call of a disk failed, and the disk counted the error.
#[derive(Clone, Copy, Debug, PartialEq, Eq)]
pub struct DiskFault;

impl fmt::Display for DiskFault {
    ghost output = { λ _. Some (codes "disk fault") };

    fn fmt<W: fmt::Write>(&self, f: &mut fmt::Formatter<W>) -> fmt::Result {
        write!(f, "disk fault")
    }
}

impl Error for DiskFault {}

/// A file of bytes, with a clock and a count of errors. Places are counted from 0.
pub trait Disk: Drop {
    /// The bytes that a read returns, if the disk exposes them.
    ghost content: { Self → Option (List ℕ) };

    /// The number of failed calls. It stays at 2^64 - 1 once it reaches it.
    ghost faults: { Self → ℕ };

    /// A number that never falls.
    ghost clock: { Self → ℕ };

    /// The identity of the reference, for a `&mut`; otherwise 0.
    ghost name: { Self → ℕ };

    /// The images that a crash now may leave.
    ghost images: { Self → List ℕ → Type 0 };

    /// The images that a crash since this clock may have left.
    ghost left: { Self → ℕ → List ℕ → Type 0 };

    /// The room: a write that ends within it never fails. `None` if the disk does not expose it.
    ghost room: { Self → Option ℕ };

    /// Reads bytes from a place on, and returns how many. It may read fewer than asked for, but at least one if a byte
    /// is there.
    fn read_at(&mut self, at: u64, into: &mut [u8]) -> Result<usize, DiskFault>
        ensures within { IfOk result (λ n. n ≤ length into.old) }
        ensures read { BothTold (content self.old) (content self.new)
            (λ old new. (new ≡ old) × IfOk result (Reads at old into.old into.new)) }
        ensures crash { Same (images self.old) (images self.new) }
        ensures any_moment { SameSince (clock self.old) (left self.old) (left self.new) }
        ensures roomy { Roomy room clock self.old self.new (λ _. IsOk result) }
        ensures keeps { Keeps clock name faults self.old self.new }
        ensures cause { OnErr result (Rose (faults self.old) (faults self.new)) };

    /// Writes bytes over the old ones and past the end. After a disk error, its range and everything past the old end
    /// may have any bytes; the same holds after a crash until the next successful sync. If the clock is at its maximum,
    /// 2^64 - 1, it fails and changes only the count.
    fn write_at(&mut self, at: u64, bytes: &[u8]) -> Result<(), DiskFault>
        ensures written { BothTold (content self.old) (content self.new)
            (λ old new. Torn at (length bytes.now) old new × OnOk result (Holds at bytes.now old new)) }
        ensures crash { MatchResult result
            (λ _. Tears at (length bytes.now) (images self.old) (images self.new))
            (λ _. Tears at (length bytes.now) (images self.old) (images self.new)
            ⊎ Same (images self.old) (images self.new)) }
        ensures any_moment { Elapses clock images left self.old self.new }
        ensures roomy { Roomy room clock self.old self.new (λ end.
            at + length bytes.now ≤ end → clock self.old < 2 ^ 64 - 1 → IsOk result) }
        ensures clock_at_end { clock self.old ≡ 2 ^ 64 - 1
            → IsErr result × (content self.new ≡ content self.old) × (clock self.new ≡ clock self.old) }
        ensures keeps { Keeps clock name faults self.old self.new }
        ensures cause { OnErr result (Rose (faults self.old) (faults self.new)) };

    /// Makes the content stable: a crash then leaves exactly what a read returns. After a disk error, a crash leaves
    /// what it might have left before. If the clock is at its maximum, it fails and changes only the count.
    fn sync(&mut self) -> Result<(), DiskFault>
        ensures same { BothTold (content self.old) (content self.new) (λ old new. new ≡ old) }
        ensures durable { OnOk result
            (Told (content self.new) (λ bytes. Only bytes (images self.new))) }
        ensures crash { MatchResult result
            (λ _. (c : List ℕ) → images self.new c → images self.old c)
            (λ _. Same (images self.old) (images self.new)) }
        ensures any_moment { Elapses clock images left self.old self.new }
        ensures roomy { Roomy room clock self.old self.new
            (λ _. clock self.old < 2 ^ 64 - 1 → IsOk result) }
        ensures clock_at_end { clock self.old ≡ 2 ^ 64 - 1
            → IsErr result × (clock self.new ≡ clock self.old) }
        ensures keeps { Keeps clock name faults self.old self.new }
        ensures cause { OnErr result (Rose (faults self.old) (faults self.new)) };

    /// The clock.
    fn now(&self) -> u64
        ensures time { result ≡ clock self.now }
        ensures image { Told (content self.now) (images self.now) };

    /// An image that a crash now may leave is possible since each clock up to now.
    ghost counts_now: { (d : Self) (t : ℕ) (c : List ℕ) → t ≤ clock d → images d c → left d t c };

    /// A crash since now may have left only what it may leave now.
    ghost only_now: { (d : Self) (c : List ℕ) → left d (clock d) c → images d c };

    /// An image that a crash may have left since a clock, it may have left since an earlier one.
    ghost since_earlier: { (d : Self) (s t : ℕ) (c : List ℕ) → s ≤ t → left d t c → left d s c };
}

impl<D: Disk> Disk for &mut D {
    ghost content = { λ d. D.content d.now };

    ghost faults = { λ d. D.faults d.now };

    ghost clock = { λ d. D.clock d.now };

    ghost name = { λ d. d.ghost_name };

    ghost images = { λ d. D.images d.now };

    ghost left = { λ d. D.left d.now };

    ghost room = { λ d. D.room d.now };

    ghost counts_now = { λ d. D.counts_now d.now };

    ghost only_now = { λ d. D.only_now d.now };

    ghost since_earlier = { λ d. D.since_earlier d.now };

    fn read_at(&mut self, at: u64, into: &mut [u8]) -> Result<usize, DiskFault> {
        (**self).read_at(at, into)
    }

    fn write_at(&mut self, at: u64, bytes: &[u8]) -> Result<(), DiskFault> {
        (**self).write_at(at, bytes)
    }

    fn sync(&mut self) -> Result<(), DiskFault> {
        (**self).sync()
    }

    fn now(&self) -> u64 {
        (**self).now()
    }
}
