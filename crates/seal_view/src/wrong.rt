//! The first record of a file whose component is no pump of the process unit.

ghost use Rattle.std.specs.Prelude.{◌≡◌};
ghost use Rattle.fact_kinds.specs.Facts.{facts_to};
ghost use Rattle.seal_view.specs.View as spec;

use component_histories::Histories;
use ldar_days::Day;
use ldar_law::is_pump;
use pump_seals::SealRow;

/// Whether a component is a pump of a process unit, as known on a day.
fn is_pump_of<H: Histories>(histories: &H, unit: u16, day: Day, component: u16) -> bool
    ensures value { result ≡ spec.is_pump_of unit (facts_to day (H.kept histories.now)) component }
{
    match histories.equipment(component, day) {
        Some(item) => is_pump(item.kind) && u16::from(item.unit) == unit,
        None => false,
    }
}

/// The lower of two numbers of records.
fn lower(one: Option<u32>, other: u32) -> u32
    ensures value { result ≡ spec.lower one other }
{
    match one {
        Some(at) => at.min(other),
        None => other,
    }
}

/// The first record, by its number, whose component is no pump of the process unit as known on a day.
pub fn first_wrong<H: Histories>(
    histories: &H,
    unit: u16,
    day: Day,
    rows: &[SealRow],
) -> Option<u32>
    ensures value { result ≡ spec.first_wrong (spec.is_pump_of unit (facts_to day (H.kept histories.now))) rows.now }
{
    let mut first = None;
    for row in rows {
        if !is_pump_of(histories, unit, day, row.component) {
            first = Some(lower(first, row.at));
        }
    }
    first
}
