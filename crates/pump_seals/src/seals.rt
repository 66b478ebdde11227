ghost use Rattle.std.specs.Prelude.{◌≡◌, IfOk};
ghost use Rattle.list_words.specs.Order.{Ascends};
ghost use Rattle.fact_kinds.specs.Facts.{is_earlier};
ghost use Rattle.pump_seals.specs.Moments.{MomentsRise, row_before};
ghost use Rattle.pump_seals.specs.Seals as spec;

use crate::marks::{marks_of, switches_of};
use crate::pump::Pump;
use crate::row::SealRow;
use ldar_days::Day;
use ldar_law::{Equipment, Event, Items};
use std::alloc::{AllocError, Global};

/// Something that must be done at a pump with dual mechanical seals.
#[derive(Clone, Copy, Debug, PartialEq, Eq)]
pub struct SealDuty {
    /// `CAUSE_SEAL_WEEK` or `CAUSE_SEAL_DRIP`.
    pub cause: u8,
    pub due: Day,
    /// The day on which it was met.
    pub met: Option<Day>,
}

/// A tag of a seal leak.
#[derive(Clone, Copy, Debug, PartialEq, Eq)]
pub struct SealTag {
    /// `SORT_READING`, `SORT_DRIP` or `SORT_SENSOR`.
    pub sort: u8,
    pub detected: Day,
    /// The day of the first attempt after the detection.
    pub attempted: Option<Day>,
    pub closed: Option<Day>,
}

/// The duties and tags of a pump with dual mechanical seals that are on the lists of a day.
#[derive(Drop)]
pub struct Seals {
    pub duties: Items<SealDuty>,
    pub tags: Items<SealTag>,
}

/// The duties and tags of a pump with dual mechanical seals on a day (40 CFR 60.482-2a(d)). The events are in key order and of
/// days up to that day; the rows of the file are in order. Rows of other components and of later days have no effect. The only
/// error is out of memory.
pub fn seals_of(
    alloc: Global,
    equipment: &Equipment,
    events: &[Event],
    rows: &[SealRow],
    day: Day,
) -> Result<Seals, AllocError>
    requires events { Ascends (λ a b. is_earlier a.key b.key) events.now }
    requires rows { MomentsRise row_before rows.now }
    ensures duties { IfOk result (λ seals. seals.duties ≡ spec.duties_by_rows equipment.now events.now rows.now day) }
    ensures tags { IfOk result (λ seals. seals.tags ≡ spec.tags_by_rows equipment.now events.now rows.now day) }
{
    let marks = marks_of(alloc, rows, equipment.component, day)?;
    let switches = switches_of(alloc, &marks)?;
    let pump = Pump {
        item: equipment,
        events,
        marks: marks.as_slice(),
        switches: switches.as_slice(),
        day,
    };
    let duties = pump.duties(alloc)?;
    let tags = pump.tags(alloc)?;
    Ok(Seals {
        duties: Items::new(duties),
        tags: Items::new(tags),
    })
}
