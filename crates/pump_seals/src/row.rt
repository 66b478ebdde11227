//! The rows of a seal file.

ghost use Rattle.std.specs.Prelude.{◌≡◌};
ghost use Rattle.pump_seals.specs.Signs as spec;

use crate::moment::Moment;
use ldar_days::Day;

/// What a row of a seal file reports about a pump.
#[derive(Clone, Copy, Debug, PartialEq, Eq)]
pub enum SealWhat {
    /// The pump is sealed from this day on.
    On,
    /// The pump is no longer sealed.
    Off,
    /// The barrier sensor indicates a failure.
    Present,
    /// The failure has ended.
    Gone,
}

/// A row of a seal file.
#[derive(Clone, Copy, Debug, PartialEq, Eq)]
pub struct SealRow {
    /// The number of its record in the file, from 1 for the header.
    pub at: u32,
    pub what: SealWhat,
    pub component: u16,
    pub day: Day,
    pub minute: u16,
}

/// What a row reports about its component, and when.
#[derive(Clone, Copy, Debug, PartialEq, Eq)]
pub struct Mark {
    pub what: SealWhat,
    pub at: Moment,
}

impl SealWhat {
    /// Whether the row seals a pump or unseals it.
    pub fn is_seal(self) -> bool
        ensures value { result ≡ spec.is_seal self }
    {
        match self {
            SealWhat::On => true,
            SealWhat::Off => true,
            SealWhat::Present => false,
            SealWhat::Gone => false,
        }
    }

    /// Whether the row seals a pump.
    pub fn is_on(self) -> bool
        ensures value { result ≡ spec.is_on self }
    {
        match self {
            SealWhat::On => true,
            SealWhat::Off => false,
            SealWhat::Present => false,
            SealWhat::Gone => false,
        }
    }

    /// Whether a sensor indicates a failure.
    pub fn is_present(self) -> bool
        ensures value { result ≡ spec.is_present self }
    {
        match self {
            SealWhat::On => false,
            SealWhat::Off => false,
            SealWhat::Present => true,
            SealWhat::Gone => false,
        }
    }

    /// Whether a sensor indicates the end of a failure.
    pub fn is_gone(self) -> bool
        ensures value { result ≡ spec.is_gone self }
    {
        match self {
            SealWhat::On => false,
            SealWhat::Off => false,
            SealWhat::Present => false,
            SealWhat::Gone => true,
        }
    }
}
