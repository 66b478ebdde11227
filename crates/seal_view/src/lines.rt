//! The lines of the pumps that a file names.

ghost use Rattle.std.specs.Prelude.{◌≡◌, ◌++◌, IfOk, OnOk, map};
ghost use Rattle.std.specs.List.{flat_map};
ghost use Rattle.fact_kinds.specs.Facts.{facts_to};
ghost use Rattle.pump_seals.specs.Moments.{MomentsRise, row_before};
ghost use Rattle.seal_texts.specs.declared.line.SealLine.TheVariants.{Duty, Tag};
ghost use Rattle.seal_view.specs.View as spec;

use component_histories::Histories;
use fact_kinds::Memory;
use ldar_days::Day;
use pump_seals::{SealDuty, SealRow, SealTag, seals_of};
use seal_texts::SealLine;
use std::alloc::Global;

/// Adds the lines of duties and then those of tags.
fn put_lines(
    lines: &mut Vec<SealLine>,
    component: u16,
    duties: &[SealDuty],
    tags: &[SealTag],
) -> Result<(), Memory>
    ensures put { OnOk result (lines.new.items ≡ lines.old.items ++ (map (Duty component) duties.now ++ map (Tag component) tags.now)) }
{
    for duty in duties {
        lines.push(SealLine::Duty {
            component,
            duty: *duty,
        })?;
    }
    for tag in tags {
        lines.push(SealLine::Tag {
            component,
            tag: *tag,
        })?;
    }
    Ok(())
}

/// Adds the lines of a component, if it was entered by the day.
fn put_pump<H: Histories>(
    alloc: Global,
    histories: &mut H,
    day: Day,
    rows: &[SealRow],
    component: u16,
    lines: &mut Vec<SealLine>,
) -> Result<(), Memory>
    requires ordered { MomentsRise row_before rows.now }
    ensures put { OnOk result (lines.new.items ≡ lines.old.items ++ spec.lines_of day rows.now (facts_to day (H.kept histories.old)) component) }
    ensures unchanged { histories.new ≡ histories.old }
{
    let Some(history) = histories.events(alloc, component, day)? else {
        return Ok(());
    };
    let seals = seals_of(
        alloc,
        &history.equipment,
        history.events.as_slice(),
        rows,
        day,
    )?;
    put_lines(
        lines,
        component,
        seals.duties.as_slice(),
        seals.tags.as_slice(),
    )
}

/// The lines of the components that a file names, in ascending order. The only error is out of memory.
pub fn lines_of<H: Histories>(
    alloc: Global,
    histories: &mut H,
    day: Day,
    rows: &[SealRow],
) -> Result<Vec<SealLine>, Memory>
    requires ordered { MomentsRise row_before rows.now }
    ensures value { IfOk result (λ lines. lines.items ≡ flat_map (spec.lines_of day rows.now (facts_to day (H.kept histories.old))) (spec.named rows.now)) }
    ensures unchanged { histories.new ≡ histories.old }
{
    let mut lines = Vec::new(alloc);
    // No component has this number.
    let mut last = 0;
    for row in rows {
        if row.component != last {
            last = row.component;
            put_pump(alloc, histories, day, rows, last, &mut lines)?;
        }
    }
    Ok(lines)
}
