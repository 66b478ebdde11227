ghost use Rattle.std.specs.Prelude.{◌≡◌, ◌↔◌, ℕ, List, reverse, None, IsNone, IfSome};
ghost use Rattle.ldar_law.specs.declared.delay.Stop.{Stop as SomeStop};
ghost use Rattle.ldar_law.specs.declared.delay.Until.TheVariants.{Date};
ghost use Rattle.ldar_law.specs.Delays as law;
ghost use Rattle.delay_of_repair.specs.Ends.{AreEnds};
ghost use Rattle.delay_of_repair.specs.Walk.{Repairs, IsPastAbove};

use crate::grounds::due_by;
use crate::shutdowns::Ends;
use ldar_days::Day;
use ldar_law::{DelayEntry, Stop, Until, repair_by};

/// The due day of a leak's repair, and the delay that sets it.
#[derive(Clone, Copy, Debug, PartialEq, Eq)]
pub struct Repair {
    pub due: Until,
    /// The place, from 0, of the last delay that is not ignored; `None` if each is past the due day set by those before
    /// it.
    pub counted: Option<usize>,
}

/// The repair without a delay.
fn undelayed(detected: Day) -> Repair
    ensures due { result.due ≡ Date (law.repair_by detected) }
    ensures counted { result.counted ≡ None }
{
    Repair {
        due: Until::Date(repair_by(detected)),
        counted: None,
    }
}

/// The number of the last day on which the due day is not past, or the greatest number if it never passes.
fn last_number(due: &Until) -> u32
    ensures value { IsPastAbove due.now result }
{
    match *due {
        Until::Date(day) => day.number(),
        _ => u32::MAX,
    }
}

/// The repair from the days on which a delay can end: one walk over the delays, which computes a due day only for those
/// that are not ignored.
fn delayed(detected: Day, delays: &[DelayEntry], ends: &Ends) -> Repair
    ensures value { (attempts : List ℕ) (stops : List SomeStop) → AreEnds detected attempts stops ends.now
        → Repairs detected attempts stops (reverse delays.now) result }
{
    let mut repair = undelayed(detected);
    let mut last = last_number(&repair.due);
    for (place, delay) in delays.iter().enumerate() {
        // The due day so far is the one set by the delays up to here. Most delays are past it.
        if last < delay.key.day.number() {
            continue;
        }
        repair = Repair {
            due: due_by(ends, delay.ground, delay.key.day),
            counted: Some(place),
        };
        last = last_number(&repair.due);
    }
    repair
}

/// The repair by the walk, as `repair_of`.
fn walked(detected: Day, delays: &[DelayEntry], attempts: &[Day], stops: &[Stop]) -> Repair
    ensures due { result.due ≡ law.repair_due detected attempts.now stops.now delays.now }
    ensures counted { result.counted ≡ law.counted_place detected attempts.now stops.now delays.now }
{
    // Most leaks have no delay; for these no shutdown is searched.
    if delays.is_empty() {
        return undelayed(detected);
    }
    delayed(detected, delays, &Ends::after(detected, attempts, stops))
}

/// The due day of the repair of a leak detected on this day, and the delay that sets it (40 CFR 60.482-7a(d)(1),
/// 60.482-9a): the results of `repair_due` and `counted` by one walk over the delays. The end of each shutdown is computed
/// once. The arguments are those of `repair_due`.
pub fn repair_of(detected: Day, delays: &[DelayEntry], attempts: &[Day], stops: &[Stop]) -> Repair
    ensures due { result.due ≡ law.repair_due detected attempts.now stops.now delays.now }
    ensures counted { result.counted ≡ law.counted_place detected attempts.now stops.now delays.now }
    ensures none { IsNone result.counted ↔ law.AreIgnored detected attempts.now stops.now delays.now }
    ensures found { IfSome result.counted (law.IsLastCounted detected attempts.now stops.now delays.now) }
{
    walked(detected, delays, attempts, stops)
}

/// The due day of the repair of a leak detected on this day (40 CFR 60.482-7a(d)(1), 60.482-9a). The delays are those
/// of its tag in key order, the attempts those on its component, and the shutdowns those of its process unit in order.
/// A delay that was entered after the due day set by those before it is ignored (our own rule).
pub fn repair_due(detected: Day, delays: &[DelayEntry], attempts: &[Day], stops: &[Stop]) -> Until
    ensures value { result ≡ law.repair_due detected attempts.now stops.now delays.now }
{
    walked(detected, delays, attempts, stops).due
}

/// The place, from 0, of the last delay that is not ignored; `None` if each is past the due day set by those before it.
/// The arguments are those of `repair_due`.
pub fn counted(
    detected: Day,
    delays: &[DelayEntry],
    attempts: &[Day],
    stops: &[Stop],
) -> Option<usize>
    ensures value { result ≡ law.counted_place detected attempts.now stops.now delays.now }
    ensures none { IsNone result ↔ law.AreIgnored detected attempts.now stops.now delays.now }
    ensures found { IfSome result (law.IsLastCounted detected attempts.now stops.now delays.now) }
{
    repair_of(detected, delays, attempts, stops).counted
}
