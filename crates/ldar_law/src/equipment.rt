use fact_kinds::{Class, Kind};
use ldar_days::Day;

/// A component as the register has it.
#[derive(Clone, Copy, Debug, PartialEq, Eq)]
pub struct Equipment {
    /// From 1 to 60,000.
    pub component: u16,
    /// The component's process unit, from 1 to 64.
    pub unit: u8,
    pub kind: Kind,
    /// Whether it handles polymerizing monomers (40 CFR 60.482-2a(b)(1)(i)).
    pub monomer: bool,
    /// Whether it replaces a leaking component.
    pub replaces: bool,
    /// The day from which it is in service: the day of its entry in the register.
    pub begin: Day,
    /// The first day from which it is out of service, if there is one.
    pub retired: Option<Day>,
    /// Its class until another one is entered.
    pub class: Class,
}
