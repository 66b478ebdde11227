//! The duties of a component by their definition: it looks at every month, week and year since the component began, and
//! at all its events for each. The result of `duties_of` is compared with it.

ghost use Rattle.std.specs.Prelude.{◌≤◌};
ghost use Rattle.ldar_law.specs.declared.numbers.TheConstants.{LAST_FACT_DAY};

use fact_kinds::{Class, Designation, Key, Memory};
use ldar_days::{Day, Month, first_quarter, quarter_of};
use ldar_law::{Duty, Equipment, Event, Regime};
use std::alloc::Global;

/// A question: which duties of a component are on the list of a day.
#[derive(Clone, Copy)]
pub struct Asked<'a> {
    pub item: &'a Equipment,
    /// The classes entered for it, in key order.
    pub classes: &'a [(Key, Class)],
    /// The initial startup of its process unit.
    pub startup: Day,
    /// Its events, in key order.
    pub events: &'a [Event],
    /// Which quarters of the unit are skipped, from quarter 1 on.
    pub skipped: &'a [bool],
    /// The day of the list.
    pub day: Day,
    pub ghost has_quarters: { startup ≤ LAST_FACT_DAY },
}

/// Adds a duty, if it belongs on the list.
fn add(
    asked: &Asked<'_>,
    duties: &mut Vec<Duty>,
    cause: u8,
    first: Day,
    due: Day,
    met: Option<Key>,
) -> Result<(), Memory> {
    let is_missed = met.is_none() && asked.day.number() <= due.number() + 366;
    if first <= asked.day && (asked.day <= due || is_missed) {
        duties.push(Duty {
            component: asked.item.component,
            cause,
            due,
            met,
        })?;
    }
    Ok(())
}

/// The class on a day: the last one entered by then.
fn class_on(asked: &Asked<'_>, day: Day) -> Class {
    let mut class = asked.item.class;
    for entered in asked.classes {
        if entered.0.day <= day {
            class = entered.1;
        }
    }
    class
}

/// Whether it is in service on a day.
fn serves(asked: &Asked<'_>, day: Day) -> bool {
    let is_retired = match asked.item.retired {
        Some(first) => first <= day,
        None => false,
    };
    asked.item.begin <= day && !is_retired
}

/// Whether it is in service on a day under one of these rules.
fn serves_under(asked: &Asked<'_>, day: Day, rules: &[Regime]) -> bool {
    let regime = Regime::of(asked.item.kind, class_on(asked, day).service);
    serves(asked, day) && rules.contains(&regime)
}

/// Whether it is in service on a day, under one of these rules and with this designation.
fn serves_as(asked: &Asked<'_>, day: Day, rules: &[Regime], designation: Designation) -> bool {
    serves_under(asked, day, rules) && class_on(asked, day).designation == designation
}

/// The first counting routine reading of a period.
fn routine_in(asked: &Asked<'_>, first: Day, due: Day) -> Option<Key> {
    for e in asked.events {
        if e.what.is_routine() && first <= e.key.day && e.key.day <= due {
            return Some(e.key);
        }
    }
    None
}

/// The first counting routine reading of a period that is near the background.
fn routine_near_background_in(asked: &Asked<'_>, first: Day, due: Day) -> Option<Key> {
    for e in asked.events {
        let is_near = e.what.is_routine() && e.what.is_near_background();
        if is_near && first <= e.key.day && e.key.day <= due {
            return Some(e.key);
        }
    }
    None
}

/// The first visual inspection of a period.
fn look_in(asked: &Asked<'_>, first: Day, due: Day) -> Option<Key> {
    for e in asked.events {
        if e.what.is_look() && first <= e.key.day && e.key.day <= due {
            return Some(e.key);
        }
    }
    None
}

/// Whether a month has a counting routine reading below the leak definition and no leak.
fn is_clean(events: &[Event], month: u32) -> bool {
    let mut is_read = false;
    for e in events {
        if e.key.day.month().number() == month {
            if e.what.is_leak() {
                return false;
            }
            is_read = is_read || e.what.is_routine_below();
        }
    }
    is_read
}

/// Whether there is a leak from one month on and before another.
fn is_leaking_from(events: &[Event], low: u32, end: u32) -> bool {
    for e in events {
        let month = e.key.day.month().number();
        if e.what.is_leak() && low <= month && month < end {
            return true;
        }
    }
    false
}

/// The month of the first event, before which no month is clean; without events, the month of the day.
fn first_month(asked: &Asked<'_>) -> u32
    ensures in_range { (24_096 ≤ result) × (result ≤ 25_199) }
{
    match asked.events.first() {
        Some(e) => e.key.day.month().number(),
        None => asked.day.month().number(),
    }
}

/// Whether a month is quarterly: two clean months are before its quarter, and no leak since.
fn is_quarterly(asked: &Asked<'_>, month: u32) -> bool {
    let first = first_quarter(asked.startup).number();
    if month < first {
        return false;
    }
    let start = month - (month - first) % 3;
    for low in first_month(asked)..start.saturating_sub(1) {
        if is_clean(asked.events, low)
            && is_clean(asked.events, low + 1)
            && !is_leaking_from(asked.events, low, month)
        {
            return true;
        }
    }
    false
}

/// Whether the quarter of a month is skipped.
fn is_skipped(asked: &Asked<'_>, month: Month) -> bool {
    let Some(quarter) = quarter_of(asked.startup, month) else {
        return false;
    };
    for (before, is_skipped) in asked.skipped.iter().enumerate() {
        if before + 1 == usize::from(quarter) {
            return *is_skipped;
        }
    }
    false
}

fn add_first(asked: &Asked<'_>, duties: &mut Vec<Duty>) -> Result<(), Memory> {
    let (begin, due) = (asked.item.begin, asked.item.begin.plus_days(30));
    let rules = [Regime::ValveRules, Regime::PumpRules];
    if serves_under(asked, due.min(asked.day), &rules)
        && class_on(asked, begin).designation == Designation::Plain
        && asked.startup < begin
        && !asked.item.replaces
    {
        add(asked, duties, 1, begin, due, routine_in(asked, begin, due))?;
    }
    Ok(())
}

fn add_monthly(asked: &Asked<'_>, duties: &mut Vec<Duty>) -> Result<(), Memory> {
    let end = asked.day.month().number() + 1;
    for number in asked.item.begin.month().number() + 1..end {
        let (first, due) = (Month::at(number).first_day(), Month::at(number).last_day());
        let judged = due.min(asked.day);
        let is_pump = serves_as(asked, judged, &[Regime::PumpRules], Designation::Plain);
        let is_valve = serves_as(asked, judged, &[Regime::ValveRules], Designation::Plain);
        if is_pump || (is_valve && !is_quarterly(asked, number)) {
            add(asked, duties, 2, first, due, routine_in(asked, first, due))?;
        }
    }
    Ok(())
}

fn add_quarterly(asked: &Asked<'_>, duties: &mut Vec<Duty>) -> Result<(), Memory> {
    let end = asked.day.month().number() + 1;
    for number in asked.item.begin.month().number() + 1..end {
        let (first, due) = (Month::at(number).first_day(), Month::at(number).last_day());
        let judged = due.min(asked.day);
        let is_valve = serves_as(asked, judged, &[Regime::ValveRules], Designation::Plain);
        let past = number.saturating_sub(first_quarter(asked.startup).number());
        if is_valve
            && is_quarterly(asked, number)
            && u32::from(class_on(asked, judged).month) == past % 3 + 1
            && !is_skipped(asked, Month::at(number))
        {
            add(asked, duties, 3, first, due, routine_in(asked, first, due))?;
        }
    }
    Ok(())
}

fn add_yearly(asked: &Asked<'_>, duties: &mut Vec<Duty>) -> Result<(), Memory> {
    let valve = [Regime::ValveRules];
    let sealed = [
        Regime::ValveRules,
        Regime::PumpRules,
        Regime::CompressorRules,
    ];
    let end = asked.day.month().year() + 1;
    for year in asked.item.begin.plus_days(30).month().year()..end {
        let first = Month::at(12 * year).first_day();
        let due = Month::at(12 * year + 11).last_day();
        let judged = due.min(asked.day);
        if serves_as(asked, judged, &valve, Designation::Difficult) {
            add(asked, duties, 4, first, due, routine_in(asked, first, due))?;
        }
        if serves_as(asked, judged, &sealed, Designation::Nde) {
            let met = routine_near_background_in(asked, first, due);
            add(asked, duties, 4, first, due, met)?;
        }
    }
    Ok(())
}

/// The last day of a month, or of the calendar if that ends earlier.
fn last_day_by(month: u32) -> Day
    requires { 24_096 ≤ month }
{
    if month < 25_200 {
        Month::at(month).last_day()
    } else {
        Day::at(47_481)
    }
}

/// Adds the windows that end with a month; it tries each first month.
fn add_windows(asked: &Asked<'_>, duties: &mut Vec<Duty>, last: u32) -> Result<(), Memory>
    requires { (24_096 ≤ last) × (last ≤ 25_259) }
{
    let rules = [Regime::ValveRules, Regime::PumpRules];
    let due = last_day_by(last);
    let judged = due.min(asked.day);
    if !serves_as(asked, judged, &rules, Designation::Unsafe) {
        return Ok(());
    }
    let begin = asked.item.begin.month().number() + 1;
    let end = (asked.day.month().number() + 1).min(last + 1);
    for low in begin..end {
        let plan = last + 1 - low;
        if u32::from(class_on(asked, judged).plan) == plan && (low - begin) % plan == 0 {
            let first = Month::at(low).first_day();
            add(asked, duties, 5, first, due, routine_in(asked, first, due))?;
        }
    }
    Ok(())
}

fn add_planned(asked: &Asked<'_>, duties: &mut Vec<Duty>) -> Result<(), Memory> {
    let end = asked.day.month().number() + 60;
    for last in asked.item.begin.month().number() + 1..end {
        add_windows(asked, duties, last)?;
    }
    Ok(())
}

/// Adds the weeks, each by its Monday.
fn add_weekly(asked: &Asked<'_>, duties: &mut Vec<Duty>) -> Result<(), Memory> {
    let end = asked.day.number() + 1;
    for number in asked.item.begin.number() + 1..end {
        let (first, due) = (Day::at(number), Day::at(number).plus_days(6));
        let judged = due.min(asked.day);
        if (number + 3) % 7 == 0
            && serves_as(asked, judged, &[Regime::PumpRules], Designation::Plain)
        {
            add(asked, duties, 6, first, due, look_in(asked, first, due))?;
        }
    }
    Ok(())
}

/// Whether some events have drips, followed by a reading below the leak definition and no dry inspection.
fn has_drips_to_repeat(events: &[Event]) -> bool {
    for place in 0..events.len() {
        let since = &events[place..];
        if events[place].what.has_drips()
            && since.iter().any(|x| x.what.is_below())
            && !since.iter().any(|x| x.what.is_dry())
        {
            return true;
        }
    }
    false
}

/// Whether the event at a place leads to a duty of this cause.
fn is_asked_by(asked: &Asked<'_>, cause: u8, place: usize, e: &Event) -> bool {
    let day = e.key.day;
    match cause {
        7 => e.what.has_undesignated_drips()
            && serves_as(asked, day, &[Regime::PumpRules], Designation::Plain)
            && !has_drips_to_repeat(&asked.events[..place.min(asked.events.len())]),
        8 => e.what.is_release() && serves_under(asked, day, &[Regime::ReliefRules]),
        _ => e.what.has_evidence() && serves_under(asked, day, &[Regime::HeavyLiquidRules]),
    }
}

/// Whether an event meets a duty of this cause, if it is in time.
fn is_met_by(cause: u8, e: &Event) -> bool {
    match cause {
        7 => e.what.is_counting() || e.what.is_designating(),
        8 => e.what.is_near_background(),
        _ => e.what.is_counting() || e.what.is_evidence_gone(),
    }
}

fn add_after(asked: &Asked<'_>, duties: &mut Vec<Duty>, cause: u8) -> Result<(), Memory> {
    for place in 0..asked.events.len() {
        let e = &asked.events[place];
        if is_asked_by(asked, cause, place, e) {
            let due = e.key.day.plus_days(5);
            let later = &asked.events[place + 1..];
            let mut met = None;
            for x in later {
                if met.is_none() && is_met_by(cause, x) && x.key.day <= due {
                    met = Some(x.key);
                }
            }
            add(asked, duties, cause, e.key.day, due, met)?;
        }
    }
    Ok(())
}

/// All duties that belong on the list, in order of cause, due day and event.
pub fn duties_by_definition(alloc: Global, asked: &Asked<'_>) -> Result<Vec<Duty>, Memory> {
    let mut duties = Vec::new(alloc);
    add_first(asked, &mut duties)?;
    add_monthly(asked, &mut duties)?;
    add_quarterly(asked, &mut duties)?;
    add_yearly(asked, &mut duties)?;
    add_planned(asked, &mut duties)?;
    add_weekly(asked, &mut duties)?;
    add_after(asked, &mut duties, 7)?;
    add_after(asked, &mut duties, 8)?;
    add_after(asked, &mut duties, 9)?;
    Ok(duties)
}
