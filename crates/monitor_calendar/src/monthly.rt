//! Monthly and quarterly monitoring (40 CFR 60.482-2a(a)(1), 60.482-7a(a)(1), (c)(1)).

ghost use Rattle.std.specs.Prelude.{◌≡◌, ◌++◌, ◌&&◌, true, false, OnOk, filter_map, min, option_map};
ghost use Rattle.ldar_law.specs.ClassInForce.{IsInForce};
ghost use Rattle.ldar_law.specs.Force.{class_on};
ghost use Rattle.ldar_law.specs.Kinds.{is_valve as says_valve};
ghost use Rattle.monitor_calendar.specs.Causes as causes;
ghost use Rattle.monitor_calendar.specs.Covering.{Covers};
ghost use Rattle.monitor_calendar.specs.Walks.{IsWalked};

use crate::asked::{Asked, Judged};
use crate::duty::put;
use crate::listed_months::ListedMonths;
use crate::month_days::MonthDays;
use crate::period::{routine_behind, routine_in};
use crate::walked_months::{WalkedMonth, begun, walked_to};
use fact_kinds::{Class, Key, Memory};
use ldar_days::{Day, Month, quarter_of};
use ldar_law::{
    CAUSE_MONTHLY, CAUSE_QUARTERLY, ClassInForce, Duty, is_none_designated, is_valve,
    month_in_quarter,
};
use std::alloc::Global;

/// Whether a component judged so is monitored in each month that is not quarterly.
fn is_monthly(judged: Judged) -> bool
    ensures value { result ≡ causes.is_monthly_judged judged false }
{
    judged.serves
        && is_none_designated(judged.class.designation)
        && (judged.regime.are_pump_rules() || judged.regime.are_valve_rules())
}

impl Asked<'_> {
    /// The class on the day on which a month is judged.
    fn standing_in(&self, days: &MonthDays) -> ClassInForce
        ensures value { IsInForce self.now.item.now self.now.classes.now result }
    {
        ClassInForce::on(self.item, self.classes, self.judging_day(days.last))
    }

    /// The class on another month's judging day. A call would copy a class that most months keep.
    #[inline(always)]
    fn standing_moved_to(&self, under: ClassInForce, days: &MonthDays) -> ClassInForce
        requires value { IsInForce self.now.item.now self.now.classes.now under }
        ensures today { result.class ≡ class_on self.now.item.now self.now.classes.now (min days.now.last self.now.day) }
        ensures value { IsInForce self.now.item.now self.now.classes.now result }
    {
        under.moved_to(self.item, self.classes, self.judging_day(days.last))
    }

    /// Whether the quarter of a month is skipped.
    fn is_month_skipped(&self, month: Month) -> bool
        ensures value { result ≡ causes.is_month_skipped self.now month }
    {
        match quarter_of(self.startup, month) {
            Some(quarter) => match self.skipped.get(usize::from(quarter - 1)) {
                Some(is_skipped) => *is_skipped,
                None => false,
            },
            None => false,
        }
    }

    /// Whether a component judged so is monitored in a month: the month is the component's month of its quarter, which is not
    /// skipped.
    fn is_quarter_month(&self, judged: Judged, month: Month, is_quarterly: bool) -> bool
        ensures value { result ≡ causes.is_quarter_month_judged self.now judged month is_quarterly }
    {
        judged.serves
            && is_none_designated(judged.class.designation)
            && judged.regime.are_valve_rules()
            && is_quarterly
            && u32::from(judged.class.month) == month_in_quarter(self.startup, month.number())
            && !self.is_month_skipped(month)
    }

    /// The component in a month, with the class of the day on which the month is judged.
    fn judged_in(&self, class: Class, days: &MonthDays) -> Judged
        requires class { class ≡ class_on self.now.item.now self.now.classes.now (min days.now.last self.now.day) }
        ensures value { causes.IsOf self.now result (min days.now.last self.now.day) }
    {
        self.judged_by(class, self.judging_day(days.last))
    }

    /// The monthly duty of a component other than a valve, with the class of the day on which the month is judged.
    fn monthly_of_other(&self, class: Class, days: &MonthDays) -> Option<Duty>
        requires other { says_valve self.now.item.now.kind ≡ false }
        requires class { class ≡ class_on self.now.item.now self.now.classes.now (min days.now.last self.now.day) }
        ensures value { result ≡ causes.monthly self.now days.now.month }
    {
        let (first, due) = (days.first, days.last);
        let judged = self.judged_in(class, days);
        if !is_monthly(judged) {
            return None;
        }
        let met = routine_in(self.events, first, due);
        self.duty(CAUSE_MONTHLY, first, due, &met)
    }

    /// The monthly duty of a valve, after a walk to the month.
    fn monthly_of_valve(&self, class: Class, days: &MonthDays, walked: &WalkedMonth) -> Option<Duty>
        requires valve { says_valve self.now.item.now.kind ≡ true }
        requires class { class ≡ class_on self.now.item.now self.now.classes.now (min days.now.last self.now.day) }
        requires walked { IsWalked self.now.startup self.now.events.now days.now.month walked.now }
        ensures value { result ≡ causes.monthly self.now days.now.month }
    {
        if walked.is_quarterly {
            return None;
        }
        let (first, due) = (days.first, days.last);
        let judged = self.judged_in(class, days);
        if !is_monthly(judged) {
            return None;
        }
        let met = routine_behind(self.events, walked.place, due);
        self.duty(CAUSE_MONTHLY, first, due, &met)
    }

    /// The quarterly duty of a valve.
    fn quarterly(&self, class: Class, days: &MonthDays, walked: &WalkedMonth) -> Option<Duty>
        requires class { class ≡ class_on self.now.item.now self.now.classes.now (min days.now.last self.now.day) }
        requires walked { IsWalked self.now.startup self.now.events.now days.now.month walked.now }
        ensures value { result ≡ causes.quarterly self.now days.now.month }
    {
        if !walked.is_quarterly {
            return None;
        }
        let (first, due) = (days.first, days.last);
        let judged = self.judged_in(class, days);
        if !self.is_quarter_month(judged, days.month, walked.is_quarterly) {
            return None;
        }
        let met = routine_behind(self.events, walked.place, due);
        self.duty(CAUSE_QUARTERLY, first, due, &met)
    }

    /// Adds the monthly duties of a component other than a valve.
    #[tactic(auto, using(list_words::proofs::RangeLemmas::ranges))]
    fn put_monthly(&self, months: &ListedMonths, duties: &mut Vec<Duty>) -> Result<(), Memory>
        requires covered { Covers self.now months.now }
        requires other { says_valve self.now.item.now.kind ≡ false }
        ensures put { OnOk result (duties.new.items ≡ duties.old.items ++ filter_map (causes.monthly self.now) (causes.months_after self.now)) }
    {
        if months.end <= months.low {
            return Ok(());
        }
        let mut days = MonthDays::of(months.low);
        let mut under = self.standing_in(&days);
        for number in months.low..months.end {
            days = days.moved_to(number);
            under = self.standing_moved_to(under, &days);
            put(duties, &self.monthly_of_other(under.class, &days))?;
        }
        Ok(())
    }

    /// Adds the monthly duties of a valve to one list and its quarterly duties to another, by one walk over its events.
    #[tactic(auto, using(list_words::proofs::RangeLemmas::ranges))]
    fn put_walked(
        &self,
        months: &ListedMonths,
        duties: &mut Vec<Duty>,
        quarterlies: &mut Vec<Duty>,
    ) -> Result<(), Memory>
        requires covered { Covers self.now months.now }
        requires valve { says_valve self.now.item.now.kind ≡ true }
        ensures monthly { OnOk result (duties.new.items ≡ duties.old.items ++ filter_map (causes.monthly self.now) (causes.months_after self.now)) }
        ensures quarterly { OnOk result (quarterlies.new.items
            ≡ quarterlies.old.items ++ filter_map (causes.quarterly self.now) (causes.months_after self.now)) }
    {
        if months.end <= months.low {
            return Ok(());
        }
        let mut days = MonthDays::of(months.low);
        let mut under = self.standing_in(&days);
        let mut walk = begun(self.events, &days);
        for number in months.low..months.end {
            days = days.moved_to(number);
            under = self.standing_moved_to(under, &days);
            walk = walked_to(walk, self.events, &days);
            let walked = walk.told_of(self.startup, number);
            put(duties, &self.monthly_of_valve(under.class, &days, &walked))?;
            put(quarterlies, &self.quarterly(under.class, &days, &walked))?;
        }
        Ok(())
    }

    /// Adds the monthly duties, followed by the quarterly ones, which only a valve can have.
    pub fn put_months(&self, alloc: Global, duties: &mut Vec<Duty>) -> Result<(), Memory>
        ensures put { OnOk result (duties.new.items ≡ (duties.old.items ++ filter_map (causes.monthly self.now) (causes.months_after self.now))
            ++ filter_map (causes.quarterly self.now) (causes.months_after self.now)) }
    {
        let months = self.listed_months();
        if !is_valve(self.item.kind) {
            return self.put_monthly(&months, duties);
        }
        let mut quarterlies = Vec::new(alloc);
        self.put_walked(&months, duties, &mut quarterlies)?;
        duties.extend_from_slice(quarterlies.as_slice())
    }
}
