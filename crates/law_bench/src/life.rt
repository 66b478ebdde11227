//! The results that are computed from a component's history.

use crate::component::Component;
use crate::day_at::startup;
use crate::said;
use crate::view::View;
use fact_kinds::Memory;
use leak_tags::spans_of;
use method21_reading::events_of;
use monitor_calendar::duties_of;
use skip_periods::marks_to;
use std::alloc::Global;

/// A result to compute.
#[derive(Clone, Copy)]
pub enum Call {
    Events,
    Spans,
    Marks,
    Duties,
}

impl Call {
    /// The result that a word names; the duties for any other word.
    pub fn of(word: &str) -> Call {
        match word {
            "events" => Call::Events,
            "spans" => Call::Spans,
            "marks" => Call::Marks,
            _ => Call::Duties,
        }
    }
}

/// A sum, with the results for one more component. Of its marks, only that of one quarter is added.
pub fn add_answer(
    alloc: Global,
    call: Call,
    item: &Component,
    view: &View,
    quarter: u16,
    sum: u64,
) -> Result<u64, Memory> {
    match call {
        Call::Events => add_events(alloc, item, sum),
        Call::Spans => add_spans(alloc, item, sum),
        Call::Marks => add_marks(alloc, item, view, quarter, sum),
        Call::Duties => add_duties(alloc, item, view, sum),
    }
}

fn add_events(alloc: Global, item: &Component, sum: u64) -> Result<u64, Memory> {
    let events = events_of(
        alloc,
        &item.equipment,
        item.classes.as_slice(),
        item.facts.as_slice(),
        item.fitness.as_slice(),
    )?;
    let mut sum = sum;
    for event in &events {
        sum = said::add(sum, said::of_event(event));
    }
    Ok(sum)
}

fn add_spans(alloc: Global, item: &Component, sum: u64) -> Result<u64, Memory> {
    let spans = spans_of(alloc, item.equipment.kind, item.events.as_slice())?;
    let mut sum = sum;
    for span in &spans {
        sum = said::add(sum, said::of_span(span));
    }
    Ok(sum)
}

fn add_marks(
    alloc: Global,
    item: &Component,
    view: &View,
    quarter: u16,
    sum: u64,
) -> Result<u64, Memory> {
    let marks = marks_to(
        alloc,
        &item.equipment,
        item.classes.as_slice(),
        startup(),
        item.events.as_slice(),
        view.delayed.as_slice(),
        view.quarters,
        view.day,
    )?;
    match marks.get(usize::from(quarter)) {
        Some(mark) => Ok(said::add(sum, said::of_mark(mark))),
        None => Ok(sum),
    }
}

fn add_duties(alloc: Global, item: &Component, view: &View, sum: u64) -> Result<u64, Memory> {
    let duties = duties_of(
        alloc,
        &item.equipment,
        item.classes.as_slice(),
        startup(),
        item.events.as_slice(),
        view.skipped.as_slice(),
        view.day,
    )?;
    let mut sum = sum;
    for duty in &duties {
        sum = said::add(sum, said::of_duty(duty));
    }
    Ok(sum)
}
