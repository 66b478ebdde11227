//! The weekly visual inspection of pumps (40 CFR 60.482-2a(a)(2)).

ghost use Rattle.std.specs.Prelude.{◌≡◌, ◌+◌, ◌*◌, ◌++◌, ◌≤◌, OnOk, filter_map};
ghost use Rattle.list_words.specs.Ranges.{until};
ghost use Rattle.ldar_days.specs.Calendar.{IsDay, week_of as week_number, week_first};
ghost use Rattle.monitor_calendar.specs.Causes as causes;

use crate::asked::{Asked, Judged};
use crate::duty::put;
use crate::period::look_in;
use fact_kinds::Memory;
use ldar_days::Day;
use ldar_law::{CAUSE_WEEKLY, Duty, is_none_designated, is_pump};

/// Whether a component judged so is a pump without a designation.
pub fn is_plain_pump(judged: Judged) -> bool
    ensures value { result ≡ causes.is_plain_pump judged }
{
    judged.serves && judged.regime.are_pump_rules() && is_none_designated(judged.class.designation)
}

/// The week of a day.
fn week_of(day: Day) -> u32
    ensures value { result ≡ week_number day }
    ensures in_range { (1_983 ≤ result) × (result ≤ 6_783) }
{
    (day.number() + 3) / 7
}

impl Asked<'_> {
    /// The duty of a week: a visual inspection.
    fn weekly(&self, week: u32) -> Option<Duty>
        requires in_range { IsDay (week_first week) }
        ensures value { result ≡ causes.weekly self.now week }
    {
        let first = Day::at(7 * week - 3);
        let due = first.plus_days(6);
        let judged = self.judged(self.judging_day(due));
        if !is_plain_pump(judged) {
            return None;
        }
        let met = look_in(self.events, first, due);
        self.duty(CAUSE_WEEKLY, first, due, &met)
    }

    /// The first week whose duty the list can contain.
    fn first_week(&self) -> u32
        ensures in_range { 1_984 ≤ result }
        ensures value { filter_map (causes.weekly self.now) (until result (week_number self.now.day + 1))
            ≡ filter_map (causes.weekly self.now) (causes.weeks_after self.now) }
    {
        let begin = week_of(self.item.begin);
        let earliest = week_of(self.earliest());
        if begin < earliest {
            earliest
        } else {
            begin + 1
        }
    }

    /// Adds the weekly duties. For a component other than a pump, it looks at no week.
    pub fn put_weekly(&self, duties: &mut Vec<Duty>) -> Result<(), Memory>
        ensures put { OnOk result (duties.new.items ≡ duties.old.items ++ filter_map (causes.weekly self.now) (causes.weeks_after self.now)) }
    {
        if !is_pump(self.item.kind) {
            return Ok(());
        }
        let end = week_of(self.day) + 1;
        for week in self.first_week()..end {
            put(duties, &self.weekly(week))?;
        }
        Ok(())
    }
}
