//! The days on which a pump is sealed and in service.

ghost use Rattle.std.specs.Prelude.{◌≡◌, ◌≤◌, true, false, nat_le, IfOk, length};
ghost use Rattle.std.specs.List.Sorted.{IsPartitionPoint};
ghost use Rattle.pump_seals.specs.Moments.{MomentsRise, mark_before};
ghost use Rattle.pump_seals.specs.Seals as spec;

use crate::moment::Moment;
use crate::row::Mark;
use ldar_days::Day;
use ldar_law::Equipment;
use std::alloc::{AllocError, Global};

/// The number of marks with this day or an earlier one; by binary search.
fn count_to(switches: &[Mark], day: Day) -> usize
    requires ordered { MomentsRise mark_before switches.now }
    ensures within { result ≤ length switches.now }
    ensures value { IsPartitionPoint (λ m. nat_le m.at.day day ≡ true) (λ m. nat_le m.at.day day ≡ false) switches.now result }
{
    switches.partition_point(|mark| mark.at.day <= day)
}

/// Whether the last mark of a day or before seals the pump, from the marks that seal or unseal it.
#[tactic(auto, unfolding(crate::specs::Seals::is_sealed))]
fn is_sealed(switches: &[Mark], day: Day) -> bool
    requires ordered { MomentsRise mark_before switches.now }
    ensures value { result ≡ spec.is_sealed switches.now day }
{
    let count = count_to(switches, day);
    if count == 0 {
        return false;
    }
    switches[count - 1].what.is_on()
}

/// Whether a pump is sealed and in service on a day.
pub fn is_on_duty(item: &Equipment, switches: &[Mark], day: Day) -> bool
    requires ordered { MomentsRise mark_before switches.now }
    ensures value { result ≡ spec.is_on_duty item.now switches.now day }
{
    item.is_in_service(day) && is_sealed(switches, day)
}

/// The moments on days on which the pump is sealed and in service. The only error is out of memory.
pub fn on_duty(
    alloc: Global,
    item: &Equipment,
    switches: &[Mark],
    moments: &[Moment],
) -> Result<Vec<Moment>, AllocError>
    requires ordered { MomentsRise mark_before switches.now }
    ensures value { IfOk result (λ found. found.items ≡ spec.on_duty item.now switches.now moments.now) }
{
    let mut found = Vec::new(alloc);
    for moment in moments {
        if is_on_duty(item, switches, moment.day) {
            found.push(*moment)?;
        }
    }
    Ok(found)
}
