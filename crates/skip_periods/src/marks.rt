ghost use Rattle.std.specs.Prelude.{◌≡◌, ◌≤◌, ◌-◌, false, map, slice_index_or, IfOk};
ghost use Rattle.list_words.specs.Order.{Ascends};
ghost use Rattle.list_words.specs.Ranges.{from_to};
ghost use Rattle.fact_kinds.specs.Facts.{is_earlier};
ghost use Rattle.ldar_law.specs.Percent as law;
ghost use Rattle.ldar_law.specs.declared.numbers.TheConstants.{LAST_FACT_DAY};
ghost use Rattle.skip_periods.specs.Seen.{mark_for, PutsMissed};

use crate::counting::Counting;
use crate::percent::{mark_told, missed_quarter, with_missed};
use crate::seen::{seen_to, unseen};
use fact_kinds::{Class, Key, Memory};
use ldar_days::Day;
use ldar_law::{Equipment, Event, Mark, is_valve};
use std::alloc::Global;

/// Whether a quarter is delayed, by the list.
fn is_delayed_in(delayed: &[bool], quarter: u16) -> bool
    requires quarter { 1 ≤ quarter }
    ensures value { result ≡ slice_index_or delayed.now (quarter - 1) false }
{
    match delayed.get(usize::from(quarter - 1)) {
        Some(is_delayed) => *is_delayed,
        None => false,
    }
}

/// Adds a missed first monitoring to the finding in its quarter, if that is one of these.
fn put_missed(seen: &mut Vec<Mark>, missed: Option<u16>)
    ensures value { PutsMissed missed seen.old.items seen.new.items }
{
    let Some(quarter) = missed else {
        return;
    };
    let place = usize::from(quarter);
    if 0 < place && place <= seen.len() {
        seen[place - 1] = with_missed(seen[place - 1], true);
    }
}

/// What a component adds to the counts of each quarter from quarter 1 on (40 CFR 60.485a(h)), in a view of the day:
/// entry 0 is the mark for quarter 1. The classes and the events are the component's, the classes in key order.
/// `delayed` has, for each quarter from quarter 1 on, what `mark` takes as `delayed`. There is one pass over the events,
/// whatever the number of quarters, and the class moves on with the quarters. Only a valve is counted, so for other
/// components the events are not looked at. Returns an error if it is out of memory.
pub fn marks_to(
    alloc: Global,
    equipment: &Equipment,
    classes: &[(Key, Class)],
    startup: Day,
    events: &[Event],
    delayed: &[bool],
    quarter: u16,
    day: Day,
) -> Result<Vec<Mark>, Memory>
    requires startup { startup ≤ LAST_FACT_DAY }
    requires ordered { Ascends (λ a b. is_earlier a.0 b.0) classes.now }
    ensures value { IfOk result (λ marks. marks.items
        ≡ map (mark_for equipment.now classes.now startup events.now delayed.now day) (from_to 1 quarter)) }
{
    if !is_valve(equipment.kind) {
        return unseen(alloc, quarter);
    }
    // The classes and the first event are touched before the list is allocated, so that they are loaded meanwhile.
    let mut counting = Counting::at_first(equipment, classes, startup, day);
    let missed = missed_quarter(equipment, classes, startup, events, day);
    let mut marks = seen_to(alloc, startup, events, quarter)?;
    put_missed(&mut marks, missed);
    for past in 0..quarter {
        let number = past + 1;
        counting.move_to(equipment, classes, startup, number, day);
        let is_delayed = is_delayed_in(delayed, number);
        let place = usize::from(past);
        marks[place] = mark_told(counting.is_counted, marks[place], is_delayed);
    }
    Ok(marks)
}
