ghost use Rattle.std.specs.Prelude.{◌≡◌, ◌+◌, ◌≤◌, true, length, IfOk, IsTrue};
ghost use Rattle.std.specs.Result.{is_ok};
ghost use Rattle.fact_store.specs.Kept.{facts_in};
ghost use Rattle.history_laws.specs.DayLaws.{up_to};
ghost use Rattle.ldar_law.specs.declared.numbers.TheConstants.{LAST_FACT_DAY};
ghost use Rattle.ldar_law.specs.Reports as reports;
ghost use Rattle.ldar_law.specs.Shown as law;
ghost use Rattle.ldar_law.specs.Stirred.{stirred};
ghost use Rattle.office_views.specs.Answers.{half_text_of};
ghost use Rattle.office_views.specs.Sources.{AreReady, IsReady, facts_by};
ghost use Rattle.office_views.specs.Viewed.{Notes};
ghost use Rattle.unit_summaries.specs.Sound.{Are, is_known, news_of};

use crate::members::unit_of;
use crate::sheets::sheets_of;
use crate::source::Source;
use component_register::Register;
use fact_kinds::Memory;
use fact_store::{FactStore, Steps};
use ldar_days::{Day, Month, first_quarter};
use ldar_law::{Report, Text, UnitEntry};
use semiannual_report::{ReportError, has_half_begun, report_of};
use std::alloc::Global;
use std::sync::ledger::Ledger;
use unit_summaries::Summaries;
use view_texts::report_text;

/// Whether a half of a process unit has begun by a day. Halves count from 1.
pub fn has_begun(startup: Day, half: u16, day: Day) -> bool
    requires startup { startup ≤ LAST_FACT_DAY }
    ensures value { result ≡ reports.has_half_begun startup half day }
    ensures from_one { IsTrue result → 1 ≤ half }
    ensures in_calendar { IsTrue result → reports.half_month startup half ≤ 25_199 }
{
    1 <= half && has_half_begun(startup, half, day)
}

/// The first month of a half that is in the calendar.
fn first_month(startup: Day, half: u16) -> Month
    requires startup { startup ≤ LAST_FACT_DAY }
    requires half { 1 ≤ half }
    requires in_calendar { reports.half_month startup half ≤ 25_199 }
    ensures value { result ≡ reports.half_month startup half }
{
    first_quarter(startup).later(6 * (u32::from(half) - 1))
}

/// The report of a half of a process unit that has begun (40 CFR 60.487a(c)).
fn report_on(source: &Source<'_>, unit: &UnitEntry, half: u16) -> Result<Report, Memory>
    requires ready { IsReady source.now unit.now.unit }
    requires startup { unit.now.startup ≤ LAST_FACT_DAY }
    requires begun { reports.has_half_begun unit.now.startup half source.now.day ≡ true }
    ensures value { IfOk result (λ report. report ≡ law.report_of_unit unit.now half source.now.day (facts_by source.now)) }
{
    let known = unit_of(source, unit.unit)?;
    let sheets = sheets_of(source.alloc, &known.components, known.stops)?;
    match report_of(source.alloc, unit, half, source.day, &sheets, known.stops) {
        Ok(report) => Ok(report),
        Err(ReportError::Memory) => Err(Memory),
        Err(ReportError::NoHalf { .. }) => unreachable!(),
    }
}

/// The text of the report of a half that has begun.
pub fn half_text(source: &Source<'_>, unit: &UnitEntry, half: u16) -> Result<Text, Memory>
    requires ready { IsReady source.now unit.now.unit }
    requires startup { unit.now.startup ≤ LAST_FACT_DAY }
    requires begun { reports.has_half_begun unit.now.startup half source.now.day ≡ true }
    requires half { 1 ≤ half }
    requires in_calendar { reports.half_month unit.now.startup half ≤ 25_199 }
    ensures value { IfOk result (λ text. text ≡ half_text_of unit.now half source.now.day (facts_by source.now)) }
{
    let report = report_on(source, unit, half)?;
    report_text(source.alloc, first_month(unit.startup, half), &report)
}

/// The report of a half of a process unit that has begun, after the summaries of the unit are made up to date. If there is a report,
/// the number of facts is noted for the unit.
pub fn report_anew<L: Ledger>(
    alloc: Global,
    store: &FactStore,
    register: &Register,
    summaries: &mut Summaries,
    unit: &UnitEntry,
    half: u16,
    day: Day,
    facts: usize,
    steps: &mut Steps<L>,
) -> Result<Report, Memory>
    requires ready { AreReady store.now register.now summaries.old }
    requires known { is_known store.now.arrived unit.now.unit ≡ true }
    requires facts { facts ≡ length store.now.arrived }
    requires startup { unit.now.startup ≤ LAST_FACT_DAY }
    requires begun { reports.has_half_begun unit.now.startup half day ≡ true }
    ensures value { IfOk result (λ report. report ≡ law.report_of_unit unit.now half day (up_to day (facts_in store.now))) }
    ensures sound { Are (facts_in store.now) store.now.arrived (length store.now.arrived) summaries.new }
    ensures answered { Notes (is_ok result) unit.now.unit facts summaries.old.answered summaries.new.answered }
    ensures counted { steps.new ≤ steps.old + stirred (facts_in store.now) (news_of store.now.arrived summaries.old unit.now.unit) unit.now.unit }
{
    summaries.renew(store, register, unit.unit, steps)?;
    let source = Source {
        alloc,
        store,
        register,
        summaries,
        day,
    };
    let report = report_on(&source, unit, half)?;
    summaries.answer(unit.unit, facts);
    Ok(report)
}
