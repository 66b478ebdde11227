ghost use Rattle.std.specs.Prelude.{◌≡◌, ◌++◌, IfOk, OnOk, string_bytes};
ghost use Rattle.std.specs.List.{flat_map};
ghost use Rattle.seal_texts.specs.SealTexts as spec;

use crate::line::SealLine;
use crate::words::{Cause, Sort, State};
use fact_kinds::Memory;
use ldar_days::Day;
use ldar_law::{Text, attempt_by, repair_by};
use pump_seals::{SealDuty, SealTag};
use std::alloc::Global;
use view_texts::{DayOrHyphen, begun, put_end};

/// Appends the line of a duty.
fn put_duty(text: &mut String, day: Day, component: u16, duty: &SealDuty) -> Result<(), Memory>
    ensures value { OnOk result (string_bytes text.new ≡ string_bytes text.old ++ spec.duty_line day component duty.now) }
{
    let (cause, due) = (Cause(duty.cause), duty.due);
    let state = State { day, duty: *duty };
    write!(text, "{component} {cause} {due} {state}\n")
}

/// Appends the line of a tag with these due days of an attempt and of the repair.
fn put_tag_by(
    text: &mut String,
    component: u16,
    tag: &SealTag,
    attempt_due: Day,
    repair_due: Day,
) -> Result<(), Memory>
    ensures value { OnOk result (string_bytes text.new ≡ string_bytes text.old ++ spec.tag_line_by attempt_due repair_due component tag.now) }
{
    let (sort, detected) = (Sort(tag.sort), tag.detected);
    let (attempted, closed) = (DayOrHyphen(tag.attempted), DayOrHyphen(tag.closed));
    write!(
        text,
        "{component} seal {sort} detected {detected} attempt {attempt_due} {attempted} repair {repair_due} {closed}\n"
    )
}

/// Appends the line of a tag.
fn put_tag(text: &mut String, component: u16, tag: &SealTag) -> Result<(), Memory>
    ensures value { OnOk result (string_bytes text.new ≡ string_bytes text.old ++ spec.tag_line component tag.now) }
{
    let detected = tag.detected;
    put_tag_by(
        text,
        component,
        tag,
        attempt_by(detected),
        repair_by(detected),
    )
}

/// Appends a line.
fn put_line(text: &mut String, day: Day, line: &SealLine) -> Result<(), Memory>
    ensures value { OnOk result (string_bytes text.new ≡ string_bytes text.old ++ spec.line_text day line.now) }
{
    match line {
        SealLine::Duty { component, duty } => put_duty(text, day, *component, duty),
        SealLine::Tag { component, tag } => put_tag(text, *component, tag),
    }
}

/// Appends each line.
fn put_each(text: &mut String, day: Day, lines: &[SealLine]) -> Result<(), Memory>
    ensures value { OnOk result (string_bytes text.new ≡ string_bytes text.old ++ flat_map (spec.line_text day) lines.now) }
{
    for line in lines {
        put_line(text, day, line)?;
    }
    Ok(())
}

/// The text of the view of a process unit's pumps with dual mechanical seals, as known on a day. The only error is out of memory.
pub fn seals_text(alloc: Global, unit: u16, day: Day, lines: &[SealLine]) -> Result<Text, Memory>
    ensures value { IfOk result (λ text. text ≡ spec.seals_text unit day lines.now) }
{
    let mut text = begun(alloc, "seals", unit, day)?;
    put_each(&mut text, day, lines)?;
    put_end(&mut text, lines.len())?;
    Ok(Text::new(text.into_bytes()))
}
