ghost use Rattle.std.specs.Prelude.{◌≡◌, ◌+◌, ◌-◌, ◌*◌, ◌<◌, ◌≤◌, nat_le, IfOk, IsTrue, length, slice_index_or};
ghost use Rattle.ldar_days.specs.Calendar.{first_day};
ghost use Rattle.ldar_days.specs.Quarters.{first_quarter as first_quarter_of};
ghost use Rattle.ldar_law.specs.declared.numbers.TheConstants.{LAST_FACT_DAY};
ghost use Rattle.ldar_law.specs.Reports as reports;
ghost use Rattle.ldar_law.specs.Shown as law;
ghost use Rattle.ldar_law.specs.Units as units;
ghost use Rattle.office_views.specs.Sources.{IsReady, facts_by};

use crate::members::elections_on;
use crate::source::Source;
use fact_kinds::Memory;
use ldar_days::{Day, first_quarter};
use ldar_law::{Tally, Text, UnitEntry};
use skip_periods::skipped;
use view_texts::percent_text;

/// The first month of a quarter, which may be past the calendar's end.
fn quarter_month(startup: Day, quarter: u16) -> u32
    requires startup { startup ≤ LAST_FACT_DAY }
    requires quarter { 1 ≤ quarter }
    ensures value { result ≡ first_quarter_of startup + 3 * quarter - 3 }
    ensures in_range { 24_096 ≤ result }
{
    first_quarter(startup).number() + 3 * (u32::from(quarter) - 1)
}

/// Whether a month's first day is the day or before it. Months are numbers, since one may be past the calendar's end.
#[tactic(auto, using(crate::proofs::MonthLemmas::begun))]
fn has_month_begun(month: u32, day: Day) -> bool
    requires in_range { 24_096 ≤ month }
    ensures value { result ≡ nat_le (first_day month) day }
{
    month <= day.month().number()
}

/// Whether a quarter of a process unit has begun by a day. Quarters count from 1.
pub fn has_quarter_begun(startup: Day, quarter: u16, day: Day) -> bool
    requires startup { startup ≤ LAST_FACT_DAY }
    ensures value { result ≡ reports.has_quarter_begun startup quarter day }
    ensures from_one { IsTrue result → 1 ≤ quarter }
{
    1 <= quarter && has_month_begun(quarter_month(startup, quarter), day)
}

/// The counts at a place.
fn tally_at(tallies: &[Tally], place: usize) -> Tally
    requires within { place < length tallies.now }
    ensures value { result ≡ slice_index_or tallies.now place result }
{
    tallies[place]
}

/// The text of a quarter that has begun: its counts, whether they are good, and whether it is skipped. `tallies` are the counts of the
/// quarters up to it.
pub fn quarter_text(
    source: &Source<'_>,
    unit: &UnitEntry,
    quarter: u16,
    tallies: &[Tally],
) -> Result<Text, Memory>
    requires ready { IsReady source.now unit.now.unit }
    requires startup { unit.now.startup ≤ LAST_FACT_DAY }
    requires quarter { 1 ≤ quarter }
    requires tallies { tallies.now
        ≡ units.tallies_to unit.now.startup source.now.day (units.components_of unit.now.unit (facts_by source.now)) quarter }
    ensures value { IfOk result (λ text. text ≡ law.quarter_text unit.now quarter source.now.day (facts_by source.now)) }
{
    let elections = elections_on(source, unit.unit);
    let past = usize::from(quarter - 1);
    let tally = tally_at(tallies, past);
    let is_skipped = skipped(&tallies[..past], elections, unit.startup, quarter);
    percent_text(
        source.alloc,
        u16::from(unit.unit),
        quarter,
        tally,
        tally.is_good(),
        is_skipped,
    )
}
