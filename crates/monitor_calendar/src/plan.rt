//! Monitoring by a written plan of components that are unsafe to monitor (40 CFR 60.482-2a(g)(2), 60.482-7a(g)(2)).

ghost use Rattle.std.specs.Prelude.{◌≡◌, ◌+◌, ◌++◌, ◌<◌, ◌≤◌, OnOk, filter_map};
ghost use Rattle.list_words.specs.Ranges.{until};
ghost use Rattle.ldar_days.specs.Calendar.{month_of, end_by, last_day};
ghost use Rattle.monitor_calendar.specs.Causes as causes;
ghost use Rattle.monitor_calendar.specs.Concern as concern;

use crate::asked::{Asked, Judged};
use crate::duty::put;
use crate::month_days::LAST_MONTH;
use crate::period::routine_in;
use fact_kinds::{Class, Key, Memory};
use ldar_days::{Day, Month};
use ldar_law::{CAUSE_PLAN, Duty, is_unsafe_designated};

/// Months from the month of the list to the latest end of a window that has begun: a plan has at most sixty months.
const PLAN_MONTHS: u32 = 60;

/// The last day of a month, or of the calendar if the month is after it.
fn last_day_by(month: u32) -> Day
    requires from { 24_096 ≤ month }
    ensures value { result ≡ end_by (last_day month) }
{
    if month > LAST_MONTH {
        return Month::at(LAST_MONTH).last_day();
    }
    Month::at(month).last_day()
}

/// Whether some entered class is unsafe to monitor.
fn is_some_unsafe(classes: &[(Key, Class)]) -> bool
    ensures value { result ≡ concern.is_some_unsafe classes.now }
{
    classes
        .iter()
        .any(|entered| is_unsafe_designated(entered.1.designation))
}

impl Asked<'_> {
    /// Whether a component judged so has a plan with a window that ends with the month.
    fn is_planned(&self, judged: Judged, month: u32) -> bool
        requires after { month_of self.now.item.now.begin < month }
        ensures value { result ≡ causes.is_planned_judged self.now judged month }
    {
        let (plan, begin) = (
            u32::from(judged.class.plan),
            self.item.begin.month().number(),
        );
        judged.serves
            && is_unsafe_designated(judged.class.designation)
            && (judged.regime.are_valve_rules() || judged.regime.are_pump_rules())
            && plan > 0
            && (month - begin) % plan == 0
    }

    /// The duty of the window that ends with a month, by the plan of the day on which the window is judged.
    fn planned(&self, month: u32) -> Option<Duty>
        requires in_range { 24_096 ≤ month_of self.now.item.now.begin }
        requires after { month_of self.now.item.now.begin < month }
        requires fits { month ≤ 25_259 }
        ensures value { result ≡ causes.planned self.now month }
    {
        let due = last_day_by(month);
        let judged = self.judged(self.judging_day(due));
        if !self.is_planned(judged, month) {
            return None;
        }
        let from = month + 1 - u32::from(judged.class.plan);
        if self.day.month().number() < from {
            return None;
        }
        let first = Month::at(from).first_day();
        let met = routine_in(self.events, first, due);
        self.duty(CAUSE_PLAN, first, due, &met)
    }

    /// Whether it was entered with a class that is unsafe to monitor, or some entered class is.
    fn has_unsafe_class(&self) -> bool
        ensures value { result ≡ concern.has_unsafe_class self.now.item.now self.now.classes.now }
    {
        is_unsafe_designated(self.item.class.designation) || is_some_unsafe(self.classes)
    }

    /// The first month that can end a window whose duty the list can contain.
    fn first_window_end(&self) -> u32
        ensures after { month_of self.now.item.now.begin < result }
        ensures in_range { 24_096 ≤ month_of self.now.item.now.begin }
        ensures value { filter_map (causes.planned self.now) (until result (month_of self.now.day + 60))
            ≡ filter_map (causes.planned self.now) (causes.window_ends self.now) }
    {
        let begin = self.item.begin.month().number();
        let earliest = self.earliest().month().number();
        if begin < earliest {
            earliest
        } else {
            begin + 1
        }
    }

    /// Adds the duties by a plan. If no class of the component is unsafe to monitor, it looks at no month.
    pub fn put_planned(&self, duties: &mut Vec<Duty>) -> Result<(), Memory>
        ensures put { OnOk result (duties.new.items ≡ duties.old.items ++ filter_map (causes.planned self.now) (causes.window_ends self.now)) }
    {
        if !self.has_unsafe_class() {
            return Ok(());
        }
        let end = self.day.month().number() + PLAN_MONTHS;
        for month in self.first_window_end()..end {
            put(duties, &self.planned(month))?;
        }
        Ok(())
    }
}
