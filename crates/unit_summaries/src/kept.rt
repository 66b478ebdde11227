//! Counts of quarters that are kept from view to view: of a process unit those of the last four days that were asked.

ghost use Rattle.std.specs.Prelude.{◌≡◌, ℕ, ◌<◌, length, nat_eq, not, filter, IfSome};
ghost use Rattle.unit_summaries.specs.Kept.{IsFound, KeepsOnly};

use fact_kinds::Memory;
use ldar_days::Day;
use ldar_law::Tally;

/// How many days of a process unit are kept.
const KEPT_DAYS: usize = 4;

/// The counts of the first quarters of a process unit as known on a day.
#[derive(Drop)]
pub struct DayTallies {
    pub unit: u8,
    pub startup: Day,
    pub day: Day,
    /// The last of the quarters; the first is quarter 1.
    pub quarters: u16,
    pub tallies: Vec<Tally>,
}

/// Drops what is kept of a process unit.
pub fn drop_kept(kept: &mut Vec<DayTallies>, unit: u8)
    ensures value { kept.new.items ≡ filter (λ d. not (nat_eq d.unit unit)) kept.old.items }
{
    kept.retain(|d| d.unit != unit);
}

/// The counts of the first quarters of a process unit as known on a day, if they are kept.
pub fn tallies_kept(
    kept: &[DayTallies],
    unit: u8,
    startup: Day,
    day: Day,
    quarters: u16,
) -> Option<&[Tally]>
    ensures value { IfSome result (λ tallies. IsFound unit startup day quarters kept.now tallies.now) }
{
    for d in kept {
        if d.unit == unit
            && d.startup == startup
            && d.day == day
            && usize::from(quarters) <= d.tallies.len()
        {
            return Some(&d.tallies[..usize::from(quarters)]);
        }
    }
    None
}

/// The place of what a new day of a process unit takes the place of: the same day, or the oldest one if four are kept.
fn place_to_drop(kept: &[DayTallies], unit: u8, day: Day) -> Option<usize>
    ensures within { IfSome result (λ place. place < length kept.now) }
{
    if let Some(place) = kept.iter().position(|d| d.day == day && d.unit == unit) {
        return Some(place);
    }
    if kept.iter().filter(|d| d.unit == unit).count() < KEPT_DAYS {
        return None;
    }
    kept.iter().position(|d| d.unit == unit)
}

/// Keeps the counts of a day.
pub fn keep(kept: &mut Vec<DayTallies>, day: DayTallies) -> Result<(), Memory>
    ensures held { KeepsOnly day kept.old.items kept.new.items }
{
    if let Some(place) = place_to_drop(kept, day.unit, day.day) {
        kept.remove(place);
    }
    kept.push(day)?;
    Ok(())
}
