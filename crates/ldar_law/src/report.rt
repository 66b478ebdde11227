ghost use Rattle.std.specs.Prelude.{◌≡◌, length};

use crate::delay::{DelayLine, Stop};
use crate::items::Items;
use fact_kinds::Name;
use ldar_days::Day;
use std::marker::Model;

/// The counts of a report (40 CFR 60.487a(c)(2)). For each of six months: valves, pumps and compressors with a leak,
/// each followed by those with a late tag. In contracts it is the list of 36 numbers.
#[derive(Clone, Copy, Debug, PartialEq, Eq)]
pub struct MonthCells {
    cells: [u32; 36],
}

impl Model for MonthCells {
    ghost use Rattle.std.specs.Prelude.{◌≡◌, ℕ, List, length};

    ghost Value = { List ℕ };

    ghost view = { λ m. m.cells };

    ghost invariant = { λ m. length m.cells ≡ 36 };

    ghost inverse = { λ cells. record { cells = cells } };
}

impl MonthCells {
    /// The counts with these numbers, month by month.
    pub fn new(cells: [u32; 36]) -> MonthCells
        ensures value { result ≡ cells }
        ensures in_range { length result ≡ 36 }
    {
        MonthCells { cells }
    }

    /// The 36 numbers.
    pub fn as_slice(&self) -> &[u32]
        ensures value { result.now ≡ self.now }
        ensures in_range { length result.now ≡ 36 }
    {
        &self.cells
    }
}

/// The content of a report on a process unit. If two reports have equal cells, the later one amends nothing.
#[derive(Drop)]
pub struct Cells {
    pub months: MonthCells,
    /// The delays, by component and detection (40 CFR 60.487a(c)(2)(xi)).
    pub delays: Items<DelayLine>,
    /// The process unit shutdowns, in key order (40 CFR 60.487a(c)(3)).
    pub stops: Items<Stop>,
}

/// The semiannual report of a process unit (40 CFR 60.487a(c)) as of a day.
#[derive(Drop)]
pub struct Report {
    pub unit: u8,
    pub name: Name,
    /// The reporting period, from 1: half h is quarters 2h - 1 and 2h.
    pub half: u16,
    pub day: Day,
    pub cells: Cells,
}

/// A report that was filed. Revisions count from 1.
#[derive(Drop)]
pub struct Filed {
    pub unit: u8,
    pub half: u16,
    pub revision: u32,
    pub day: Day,
    pub cells: Cells,
}

/// A number that differs between two reports, by month and by column 1 to 6.
#[derive(Clone, Copy, Debug, PartialEq, Eq)]
pub struct Amended {
    pub month: u8,
    pub column: u8,
    pub old: u32,
    pub new: u32,
}
