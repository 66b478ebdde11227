ghost use Rattle.std.specs.Prelude.{◌≡◌, ◌≤◌, ℕ, [], ◌∷◌, IfOk, OnOk, length, map, vec_len};
ghost use Rattle.std.specs.List.{list_any};
ghost use Rattle.list_words.specs.Ranges.{from_to};
ghost use Rattle.ldar_law.specs.declared.numbers.TheConstants.{LAST_FACT_DAY, MOST_COMPONENTS};
ghost use Rattle.ldar_law.specs.Percent as percent;
ghost use Rattle.ldar_law.specs.Tags.{is_delayed};
ghost use Rattle.ldar_law.specs.Tallies as counts;
ghost use Rattle.ldar_law.specs.Units as law;
ghost use Rattle.unit_summaries.specs.Known.{AreInOrder, IsInOrder, all_in_law, in_law};
ghost use Rattle.unit_summaries.specs.Tallied.{AreTallies, Counts, CountsMore, HasRoom, HaveRoom, TellDelays};

use crate::known::KnownOn;
use crate::tags::tags_of;
use fact_kinds::Memory;
use ldar_days::Day;
use ldar_law::{Mark, Stop, Tag, Tally, judging_day};
use skip_periods::marks_to;
use std::alloc::Global;

/// Whether the repair of some leak that is open on a day is delayed.
fn has_delay_on(day: Day, tags: &[Tag]) -> bool
    ensures value { result ≡ percent.has_delay_on day tags.now }
{
    tags.iter()
        .any(|tag| tag.is_open_on(day) && tag.is_delayed())
}

/// Of each quarter up to one, whether a repair is delayed on the day on which the quarter is judged.
fn delayed_to(
    alloc: Global,
    startup: Day,
    quarter: u16,
    day: Day,
    tags: &[Tag],
) -> Result<Vec<bool>, Memory>
    requires startup { startup ≤ LAST_FACT_DAY }
    ensures value { IfOk result (λ delayed. delayed.items
        ≡ map (λ q. percent.has_delay_on (percent.judging_day startup q day) tags.now) (from_to 1 quarter)) }
{
    let mut delayed = Vec::new(alloc);
    for past in 0..quarter {
        delayed.push(has_delay_on(judging_day(startup, past + 1, day), tags))?;
    }
    Ok(delayed)
}

/// Whether the repair of some leak is delayed.
fn has_delay(tags: &[Tag]) -> bool
    ensures value { result ≡ list_any is_delayed tags.now }
{
    tags.iter().any(|tag| tag.is_delayed())
}

/// The same, for a count of quarters: one that is not told has no delayed repair, and none is told where no repair is
/// delayed, as with most components.
fn told_delays(
    alloc: Global,
    startup: Day,
    quarter: u16,
    day: Day,
    tags: &[Tag],
) -> Result<Vec<bool>, Memory>
    requires startup { startup ≤ LAST_FACT_DAY }
    ensures value { IfOk result (λ delayed. TellDelays startup quarter day tags.now delayed.items) }
{
    if !has_delay(tags) {
        return Ok(Vec::new(alloc));
    }
    delayed_to(alloc, startup, quarter, day, tags)
}

/// What a component adds to the counts of each quarter up to one, by the shutdowns of its process unit.
pub fn marks_of(
    alloc: Global,
    startup: Day,
    quarter: u16,
    day: Day,
    component: &KnownOn<'_>,
    stops: &[Stop],
) -> Result<Vec<Mark>, Memory>
    requires startup { startup ≤ LAST_FACT_DAY }
    requires ordered { IsInOrder component.now }
    ensures value { IfOk result (λ marks. marks.items ≡ map (λ q. law.mark_in startup day q (in_law stops.now component.now)) (from_to 1 quarter)) }
{
    let tags = tags_of(alloc, component, stops)?;
    let delayed = told_delays(alloc, startup, quarter, day, &tags)?;
    marks_to(
        alloc,
        &component.item,
        component.classes,
        startup,
        component.events,
        &delayed,
        quarter,
        day,
    )
}

/// The counts with one valve more.
fn counted(tally: Tally, mark: Mark) -> Tally
    requires room { HasRoom tally }
    ensures value { result ≡ counts.with_mark tally mark }
{
    let mut tally = tally;
    tally.add(mark);
    tally
}

/// Counts a mark at each place.
fn add_marks(tallies: &mut Vec<Tally>, marks: &[Mark])
    requires same { length marks.now ≡ vec_len tallies.old }
    requires room { HaveRoom tallies.old.items }
    ensures value { Counts marks.now tallies.old.items tallies.new.items }
{
    for place in 0..marks.len() {
        tallies[place] = counted(tallies[place], marks[place]);
    }
}

/// Counts a component in the quarters from the first to one, by the shutdowns of its process unit.
fn add_component(
    alloc: Global,
    tallies: &mut Vec<Tally>,
    startup: Day,
    quarter: u16,
    day: Day,
    component: &KnownOn<'_>,
    stops: &[Stop],
) -> Result<(), Memory>
    requires startup { startup ≤ LAST_FACT_DAY }
    requires count { vec_len tallies.old ≡ quarter }
    requires room { HaveRoom tallies.old.items }
    requires ordered { IsInOrder component.now }
    ensures put { OnOk result (CountsMore startup day (in_law stops.now component.now ∷ []) tallies.old.items tallies.new.items) }
{
    let marks = marks_of(alloc, startup, quarter, day, component, stops)?;
    add_marks(tallies, &marks);
    Ok(())
}

/// `quarter` quarters in which nothing was counted.
fn none_counted(alloc: Global, quarter: u16) -> Result<Vec<Tally>, Memory>
    ensures value { IfOk result (λ tallies. (startup day : ℕ) → AreTallies startup day [] quarter tallies.items) }
{
    let none = Tally {
        leaking: 0,
        monitored: 0,
    };
    vec![in alloc; none; usize::from(quarter)]
}

/// The counts of the quarters of a process unit with these components, from the first to one, as known on a day
/// (40 CFR 60.485a(h)).
pub fn tallies_to(
    alloc: Global,
    startup: Day,
    quarter: u16,
    day: Day,
    components: &[KnownOn<'_>],
    stops: &[Stop],
) -> Result<Vec<Tally>, Memory>
    requires startup { startup ≤ LAST_FACT_DAY }
    requires few { length components.now ≤ MOST_COMPONENTS }
    requires ordered { AreInOrder components.now }
    ensures value { IfOk result (λ tallies. tallies.items ≡ law.tallies_to startup day (all_in_law stops.now components.now) quarter) }
{
    let mut tallies = none_counted(alloc, quarter)?;
    for component in components {
        add_component(alloc, &mut tallies, startup, quarter, day, component, stops)?;
    }
    Ok(tallies)
}
