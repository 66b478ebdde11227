//! Signs: the kinds of events that decide on a pump's seal leaks and duties.

ghost use Rattle.std.specs.Prelude.{◌≡◌, IfOk};
ghost use Rattle.pump_seals.specs.Signs as spec;

use crate::moment::Moment;
use crate::numbers::SEAL_LIMIT;
use ldar_law::{Event, Happening};
use std::alloc::{AllocError, Global};

/// A kind of event.
#[derive(Clone, Copy, Debug, PartialEq, Eq)]
pub enum Sign {
    /// A counting reading that is a seal leak.
    HighReading,
    /// A counting reading that is no seal leak.
    LowReading,
    /// A visual inspection that is a leak.
    DripLeak,
    /// Drips that are no leak.
    SmallDrips,
    DryLook,
    Attempt,
    AnyLook,
    /// A counting reading, or a visual inspection that is a leak.
    Answer,
}

/// Whether it is a counting reading of 2,000 parts per million or more.
fn is_high(what: &Happening) -> bool
    ensures value { result ≡ spec.is_high what.now }
{
    match *what {
        Happening::Read { ppm, counts, .. } => counts && SEAL_LIMIT <= ppm,
        _ => false,
    }
}

/// Whether it is a counting reading below 2,000 parts per million.
fn is_low(what: &Happening) -> bool
    ensures value { result ≡ spec.is_low what.now }
{
    match *what {
        Happening::Read { ppm, counts, .. } => counts && ppm < SEAL_LIMIT,
        _ => false,
    }
}

/// Whether it is a visual inspection that is a leak.
fn is_drip_leak(what: &Happening) -> bool
    ensures value { result ≡ spec.is_drip_leak what.now }
{
    what.is_look() && what.is_leak()
}

impl Sign {
    /// Whether the event is of this kind.
    fn is_in(self, what: &Happening) -> bool
        ensures value { result ≡ spec.is_sign self what.now }
    {
        match self {
            Sign::HighReading => is_high(what),
            Sign::LowReading => is_low(what),
            Sign::DripLeak => is_drip_leak(what),
            Sign::SmallDrips => what.has_drips() && !what.is_leak(),
            Sign::DryLook => what.is_dry(),
            Sign::Attempt => what.is_attempt(),
            Sign::AnyLook => what.is_look(),
            Sign::Answer => what.is_counting() || is_drip_leak(what),
        }
    }

    /// The moment of an event, if the event is of this kind.
    fn moment_if(self, event: &Event) -> Option<Moment>
        ensures value { result ≡ spec.moment_if self event.now }
    {
        if !self.is_in(&event.what) {
            return None;
        }
        Some(Moment {
            day: event.key.day,
            minute: event.key.minute,
        })
    }

    /// The moments of the events of this kind, in order. The only error is out of memory.
    pub fn moments_of(self, alloc: Global, events: &[Event]) -> Result<Vec<Moment>, AllocError>
        ensures value { IfOk result (λ moments. moments.items ≡ spec.moments_of self events.now) }
    {
        events
            .iter()
            .filter_map(|event| self.moment_if(event))
            .collect(alloc)
    }
}
