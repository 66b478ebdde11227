//! The duties of a pump with dual mechanical seals.

ghost use Rattle.std.specs.Prelude.{◌≡◌, ◌++◌, ◌≤◌, ℕ, OnOk, false, true, filter_map, find, length, nat_le, slice_get};
ghost use Rattle.ldar_days.specs.Calendar.{week_of as week_number, week_last as last_of_week};
ghost use Rattle.ldar_law.specs.Duties.{is_listed as says_listed};
ghost use Rattle.pump_seals.specs.Moments.{MomentsRise, is_before, mark_before};
ghost use Rattle.pump_seals.specs.Seals as spec;

use crate::leaks_of_sort::{first_after, put};
use crate::moment::Moment;
use crate::numbers::{CAUSE_SEAL_DRIP, CAUSE_SEAL_WEEK, FIRST_WEEK};
use crate::on_duty::is_on_duty;
use crate::row::Mark;
use crate::seals::SealDuty;
use ldar_days::Day;
use ldar_law::{EVENT_DAYS, Equipment, LISTED_DAYS};
use std::alloc::AllocError;

/// The day of a moment, if it is at most `last`.
fn by_day(last: Day, found: Option<Moment>) -> Option<Day>
    ensures value { result ≡ spec.by_day last found }
{
    match found {
        Some(moment) => {
            if moment.day <= last {
                Some(moment.day)
            } else {
                None
            }
        }
        None => None,
    }
}

/// Whether a duty from a first day, given by its number, to a due day is on the list of a day (our own rule).
fn is_listed(day: Day, first: u32, due: Day, unmet: bool) -> bool
    ensures value { result ≡ says_listed day first due unmet }
{
    first <= day.number() && (day <= due || (unmet && day.number() <= due.number() + LISTED_DAYS))
}

/// An owed duty, if it is on the list.
fn duty(day: Day, cause: u8, first: u32, due: Day, met: Option<Day>) -> Option<SealDuty>
    ensures value { result ≡ spec.duty day cause first due true met }
{
    if is_listed(day, first, due, met.is_none()) {
        Some(SealDuty { cause, due, met })
    } else {
        None
    }
}

/// The number of moments before a day, which is given by its number.
fn count_before(moments: &[Moment], first: u32) -> usize
    requires ordered { MomentsRise is_before moments.now }
    ensures within { result ≤ length moments.now }
    ensures value { find (λ m. nat_le first m.day) moments.now ≡ slice_get moments.now result }
{
    moments.partition_point(|moment| moment.day.number() < first)
}

/// The first moment on a day or later. The day is given by its number.
fn first_from(moments: &[Moment], first: u32) -> Option<Moment>
    requires ordered { MomentsRise is_before moments.now }
    ensures value { result ≡ find (λ m. nat_le first m.day) moments.now }
{
    moments.get(count_before(moments, first)).copied()
}

/// The week of a day.
fn week_of(day: Day) -> u32
    ensures value { result ≡ week_number day }
    ensures in_range { (1_983 ≤ result) × (result ≤ 6_783) }
{
    (day.number() + 3) / 7
}

/// The last day of a week.
fn last_of(week: u32) -> Day
    requires in_range { (1_983 ≤ week) × (week ≤ 6_783) }
    ensures value { result ≡ last_of_week week }
{
    Day::at(7 * week - 2).plus_days(5)
}

/// The duty of a week: a visual inspection.
fn weekly(
    item: &Equipment,
    switches: &[Mark],
    looks: &[Moment],
    day: Day,
    week: u32,
) -> Option<SealDuty>
    requires in_range { (1_983 ≤ week) × (week ≤ 6_783) }
    requires switches { MomentsRise mark_before switches.now }
    requires looks { MomentsRise is_before looks.now }
    ensures value { result ≡ spec.weekly item.now switches.now looks.now day week }
{
    let due = last_of(week);
    if !is_on_duty(item, switches, due.min(day)) {
        return None;
    }
    let first = 7 * week - 3;
    let met = by_day(due, first_from(looks, first));
    duty(day, CAUSE_SEAL_WEEK, first, due, met)
}

/// Adds the duties of the weeks up to a day. The only error is out of memory.
pub fn put_weekly(
    duties: &mut Vec<SealDuty>,
    item: &Equipment,
    switches: &[Mark],
    looks: &[Moment],
    day: Day,
) -> Result<(), AllocError>
    requires switches { MomentsRise mark_before switches.now }
    requires looks { MomentsRise is_before looks.now }
    ensures put { OnOk result (duties.new.items ≡ duties.old.items ++ filter_map (spec.weekly item.now switches.now looks.now day) (spec.weeks_to day)) }
{
    let end = week_of(day) + 1;
    for week in FIRST_WEEK..end {
        put(duties, weekly(item, switches, looks, day, week))?;
    }
    Ok(())
}

/// The duty after drips that are no leak.
fn after_drips(answers: &[Moment], day: Day, drips: &Moment) -> Option<SealDuty>
    requires answers { MomentsRise is_before answers.now }
    ensures value { result ≡ spec.after_drips answers.now day drips.now }
{
    let due = drips.day.plus_days(EVENT_DAYS);
    let met = by_day(due, first_after(answers, drips));
    duty(day, CAUSE_SEAL_DRIP, drips.day.number(), due, met)
}

/// Adds the duties after drips that are no leak. The only error is out of memory.
pub fn put_after_drips(
    duties: &mut Vec<SealDuty>,
    answers: &[Moment],
    day: Day,
    drips: &[Moment],
) -> Result<(), AllocError>
    requires answers { MomentsRise is_before answers.now }
    ensures put { OnOk result (duties.new.items ≡ duties.old.items ++ filter_map (spec.after_drips answers.now day) drips.now) }
{
    for moment in drips {
        put(duties, after_drips(answers, day, moment))?;
    }
    Ok(())
}
