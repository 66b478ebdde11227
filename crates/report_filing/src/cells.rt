ghost use Rattle.std.specs.Prelude.{◌≡◌, ◌↔◌, IsTrue, IfOk};

use fact_kinds::Memory;
use ldar_law::{Cells, DelayLine, Items, Stop};
use std::alloc::Global;

/// Whether two reports have equal cells.
pub fn are_same(old: &Cells, new: &Cells) -> bool
    ensures value { IsTrue result ↔ (old.now ≡ new.now) }
{
    old.months.as_slice() == new.months.as_slice()
        && are_same_lines(&old.delays, &new.delays)
        && are_same_stops(&old.stops, &new.stops)
}

fn are_same_lines(old: &Items<DelayLine>, new: &Items<DelayLine>) -> bool
    ensures value { IsTrue result ↔ (old.now ≡ new.now) }
{
    old.as_slice() == new.as_slice()
}

fn are_same_stops(old: &Items<Stop>, new: &Items<Stop>) -> bool
    ensures value { IsTrue result ↔ (old.now ≡ new.now) }
{
    old.as_slice() == new.as_slice()
}

/// A copy of these cells.
pub fn copy_of(alloc: Global, cells: &Cells) -> Result<Cells, Memory>
    ensures value { IfOk result (λ copy. copy ≡ cells.now) }
{
    Ok(Cells {
        months: cells.months,
        delays: Items::new(cells.delays.as_slice().to_vec(alloc)?),
        stops: Items::new(cells.stops.as_slice().to_vec(alloc)?),
    })
}
