ghost use Rattle.std.specs.Prelude.{◌≡◌, reverse, IfOk};
ghost use Rattle.disk_model.specs.MemoryDisk.{bytes_after};
ghost use Rattle.disk_model.specs.Stopped.{up_to};

use crate::Memory;
use crate::noted::Noted;
use std::alloc::Global;

// The calls with numbers up to this one, earliest first.
pub fn up_to(past: &[Noted], call: u64) -> &[Noted]
    ensures value { reverse result.now ≡ up_to call (reverse past.now) }
{
    let mut n = past.len();
    while n > 0 && past[n - 1].call > call {
        n -= 1;
    }
    &past[..n]
}

// The bytes after these calls, earliest first.
pub fn redone(alloc: Global, start: &[u8], past: &[Noted]) -> Result<Vec<u8>, Memory>
    ensures value { IfOk result (λ bytes. bytes.items ≡ bytes_after start.now (reverse past.now)) }
{
    let mut bytes = Vec::from_slice(alloc, start)?;
    for noted in past {
        noted.redo(&mut bytes)?;
    }
    Ok(bytes)
}
