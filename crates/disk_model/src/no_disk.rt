ghost use Rattle.std.specs.Prelude.{◌≡◌, ◌^◌, ◌-◌, [], Some, None, IfOk, IsOk, IsErr};

use crate::{Disk, DiskFault};

/// No disk: it has no bytes and accepts none. Its count of errors is at its maximum, and its clock at 0.
#[derive(Clone, Copy, Debug, PartialEq, Eq)]
pub struct NoDisk;

impl Disk for NoDisk {
    ghost content = { λ _. Some [] };

    ghost faults = { λ _. 2 ^ 64 - 1 };

    ghost clock = { λ _. 0 };

    ghost name = { λ _. 0 };

    ghost images = { λ _ c. c ≡ [] };

    ghost left = { λ _ _ c. c ≡ [] };

    ghost room = { λ _. None };

    ghost counts_now = { λ _ t c le image. image };

    ghost only_now = { λ _ c left. left };

    ghost since_earlier = { λ _ s t c le left. left };

    fn read_at(&mut self, _at: u64, into: &mut [u8]) -> Result<usize, DiskFault>
        ensures value { IsOk result × IfOk result (λ n. n ≡ 0) }
        ensures unchanged { into.new ≡ into.old }
    {
        // There are no bytes to copy into the slice.
        let _ = into;
        Ok(0)
    }

    fn write_at(&mut self, _at: u64, _bytes: &[u8]) -> Result<(), DiskFault>
        ensures refused { IsErr result }
    {
        Err(DiskFault)
    }

    fn sync(&mut self) -> Result<(), DiskFault>
        ensures answers { IsOk result }
    {
        Ok(())
    }

    fn now(&self) -> u64 {
        0
    }
}
