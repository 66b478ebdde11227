//! Yearly monitoring (40 CFR 60.482-2a(e), 60.482-3a(i), 60.482-7a(f), (h)).

ghost use Rattle.std.specs.Prelude.{◌≡◌, ◌+◌, ◌/◌, ◌++◌, ◌≤◌, OnOk, filter_map, option_map};
ghost use Rattle.list_words.specs.Ranges.{until};
ghost use Rattle.ldar_days.specs.Calendar.{month_of};
ghost use Rattle.monitor_calendar.specs.Causes as causes;
ghost use Rattle.monitor_calendar.specs.Concern as concern;

use crate::asked::{Asked, Judged};
use crate::duty::put;
use crate::period::{routine_in, routine_near_background};
use fact_kinds::{Class, Designation, Key, Memory};
use ldar_days::{Day, Month};
use ldar_law::{CAUSE_YEARLY, Duty, is_difficult_designated, is_nde_designated};

/// Whether a designation leads to yearly monitoring for some kind.
fn is_yearly_designated(designation: Designation) -> bool
    ensures value { result ≡ concern.is_yearly_designated designation }
{
    is_difficult_designated(designation) || is_nde_designated(designation)
}

/// Whether some entered class has such a designation.
fn is_some_yearly(classes: &[(Key, Class)]) -> bool
    ensures value { result ≡ concern.is_some_yearly classes.now }
{
    classes
        .iter()
        .any(|entered| is_yearly_designated(entered.1.designation))
}

/// Whether a component judged so is monitored yearly.
fn is_yearly(judged: Judged) -> bool
    ensures value { result ≡ causes.is_yearly_judged judged }
{
    let (regime, designation) = (judged.regime, judged.class.designation);
    judged.serves
        && ((regime.are_valve_rules() && is_difficult_designated(designation))
            || ((regime.are_valve_rules()
                || regime.are_pump_rules()
                || regime.are_compressor_rules())
                && is_nde_designated(designation)))
}

impl Asked<'_> {
    /// The key of the reading that meets the yearly duty of a component judged so.
    fn yearly_reading(&self, judged: Judged, first: Day, due: Day) -> Option<Key>
        ensures value { result ≡ option_map (λ e. e.key) (causes.yearly_reading_judged self.now judged first due) }
    {
        if is_nde_designated(judged.class.designation) {
            routine_near_background(self.events, first, due)
        } else {
            routine_in(self.events, first, due)
        }
    }

    /// The duty of a calendar year.
    fn yearly(&self, year: u32) -> Option<Duty>
        requires low { 2_008 ≤ year }
        requires high { year ≤ 2_099 }
        ensures value { result ≡ causes.yearly self.now year }
    {
        let first = Month::at(12 * year).first_day();
        let due = Month::at(12 * year + 11).last_day();
        let judged = self.judged(self.judging_day(due));
        if !is_yearly(judged) {
            return None;
        }
        let met = self.yearly_reading(judged, first, due);
        self.duty(CAUSE_YEARLY, first, due, &met)
    }

    /// The first year whose duty the list can contain.
    fn first_year(&self) -> u32
        ensures in_range { 2_008 ≤ result }
        ensures value { filter_map (causes.yearly self.now) (until result (month_of self.now.day / 12 + 1))
            ≡ filter_map (causes.yearly self.now) (causes.years_after self.now) }
    {
        let first = self.item.first_due().month().year();
        let earliest = self.earliest().month().year();
        if first < earliest { earliest } else { first }
    }

    /// Whether it was entered with such a designation, or some entered class has one.
    fn has_yearly_class(&self) -> bool
        ensures value { result ≡ concern.has_yearly_class self.now.item.now self.now.classes.now }
    {
        is_yearly_designated(self.item.class.designation) || is_some_yearly(self.classes)
    }

    /// Adds the yearly duties. If no class of the component leads to yearly monitoring, it looks at no year.
    pub fn put_yearly(&self, duties: &mut Vec<Duty>) -> Result<(), Memory>
        ensures put { OnOk result (duties.new.items ≡ duties.old.items ++ filter_map (causes.yearly self.now) (causes.years_after self.now)) }
    {
        if !self.has_yearly_class() {
            return Ok(());
        }
        let end = self.day.month().year() + 1;
        for year in self.first_year()..end {
            put(duties, &self.yearly(year))?;
        }
        Ok(())
    }
}
