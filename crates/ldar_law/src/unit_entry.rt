use fact_kinds::Name;
use ldar_days::Day;

/// A process unit as the register has it.
#[derive(Clone, Copy, PartialEq, Eq)]
pub struct UnitEntry {
    /// From 1 to 64.
    pub unit: u8,
    pub name: Name,
    /// The day of the initial startup, from which quarters are counted (40 CFR 60.481a).
    pub startup: Day,
    /// Whether the share of difficult valves is unlimited (40 CFR 60.482-7a(h)(2)).
    pub older: bool,
}
