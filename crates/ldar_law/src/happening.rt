//! Tests of a component's event, one for each property that the rule asks about.

ghost use Rattle.std.specs.Prelude.{◌≡◌};
ghost use Rattle.std.specs.List.{list_any};
ghost use Rattle.ldar_law.specs.Happenings as law;
ghost use Rattle.ldar_law.specs.Tags.{delay_entry as delay_entered_at};

use crate::delay::DelayEntry;
use crate::event::{Event, Happening};
use crate::grounds::{GROUND_DUAL_SEAL, GROUND_PURGING, GROUND_SHUTDOWN, GROUND_STOCK};
use ldar_days::Day;

/// Whether some event is a leak.
pub fn has_leak(events: &[Event]) -> bool
    ensures value { result ≡ list_any (λ x. law.is_leak x.what) events.now }
{
    events.iter().any(|x| x.what.is_leak())
}

impl Happening {
    /// Whether it is a leak of any kind.
    pub fn is_leak(&self) -> bool
        ensures value { result ≡ law.is_leak self.now }
    {
        match *self {
            Happening::Read { leak, .. } => leak,
            Happening::Look { leak, .. } => leak,
            Happening::Sensor { leak, .. } => leak,
            _ => false,
        }
    }

    /// Whether it is a reading or a visual inspection.
    pub fn is_reading_or_drip(&self) -> bool
        ensures value { result ≡ law.is_reading_or_drip self.now }
    {
        matches!(*self, Happening::Read { .. } | Happening::Look { .. })
    }

    /// Whether it is a visual inspection, whatever it found.
    pub fn is_look(&self) -> bool
        ensures value { result ≡ law.is_look self.now }
    {
        matches!(*self, Happening::Look { .. })
    }

    /// Whether it is a sensor's indication.
    pub fn is_sensor(&self) -> bool
        ensures value { result ≡ law.is_sensor self.now }
    {
        matches!(*self, Happening::Sensor { .. })
    }

    /// Whether it is a reading that counts.
    pub fn is_counting(&self) -> bool
        ensures value { result ≡ law.is_counting self.now }
    {
        match *self {
            Happening::Read { counts, .. } => counts,
            _ => false,
        }
    }

    /// Whether it is a counting reading below the leak definition.
    pub fn is_below(&self) -> bool
        ensures value { result ≡ law.is_below self.now }
    {
        match *self {
            Happening::Read { below, .. } => below,
            _ => false,
        }
    }

    /// Whether it is a counting routine reading.
    pub fn is_routine(&self) -> bool
        ensures value { result ≡ law.is_routine self.now }
    {
        match *self {
            Happening::Read {
                routine,
                counts,
                ..
            } => routine && counts,
            _ => false,
        }
    }

    /// Whether it is a counting routine reading below the leak definition.
    pub fn is_routine_below(&self) -> bool
        ensures value { result ≡ law.is_routine_below self.now }
    {
        match *self {
            Happening::Read { routine, below, .. } => routine && below,
            _ => false,
        }
    }

    /// Whether it is a counting routine reading that is a leak.
    pub fn is_routine_leak(&self) -> bool
        ensures value { result ≡ law.is_routine_leak self.now }
    {
        match *self {
            Happening::Read {
                routine,
                counts,
                leak,
                ..
            } => routine && counts && leak,
            _ => false,
        }
    }

    /// Whether it is a counting reading less than 500 parts per million above the background. A reading below the
    /// background is 0 above it (our own rule).
    pub fn is_near_background(&self) -> bool
        ensures value { result ≡ law.is_near_background self.now }
    {
        match *self {
            Happening::Read {
                ppm,
                background,
                counts,
                ..
            } => counts && ppm.saturating_sub(background) < 500,
            _ => false,
        }
    }

    /// Whether it is a dry visual inspection.
    pub fn is_dry(&self) -> bool
        ensures value { result ≡ law.is_dry self.now }
    {
        match *self {
            Happening::Look { drips, .. } => !drips,
            _ => false,
        }
    }

    /// Whether it is a visual inspection that found drips, whether designated as a leak or not.
    pub fn has_drips(&self) -> bool
        ensures value { result ≡ law.has_drips self.now }
    {
        match *self {
            Happening::Look { drips, .. } => drips,
            _ => false,
        }
    }

    /// Whether it designates drips as a leak (40 CFR 60.482-2a(b)(2)(ii)).
    pub fn is_designating(&self) -> bool
        ensures value { result ≡ law.is_designating self.now }
    {
        match *self {
            Happening::Look { designated, .. } => designated,
            _ => false,
        }
    }

    /// Whether it found drips that are not designated as a leak.
    pub fn has_undesignated_drips(&self) -> bool
        ensures value { result ≡ law.has_undesignated_drips self.now }
    {
        match *self {
            Happening::Look {
                drips,
                designated,
                ..
            } => drips && !designated,
            _ => false,
        }
    }

    /// Whether it is a pressure release (40 CFR 60.482-4a(b)).
    pub fn is_release(&self) -> bool
        ensures value { result ≡ law.is_release self.now }
    {
        matches!(*self, Happening::Release)
    }

    /// Whether evidence of a potential leak is present (40 CFR 60.482-8a(a)).
    pub fn has_evidence(&self) -> bool
        ensures value { result ≡ law.has_evidence self.now }
    {
        match *self {
            Happening::Evidence { present } => present,
            _ => false,
        }
    }

    /// Whether such evidence is gone.
    pub fn is_evidence_gone(&self) -> bool
        ensures value { result ≡ law.is_evidence_gone self.now }
    {
        match *self {
            Happening::Evidence { present } => !present,
            _ => false,
        }
    }

    /// Whether it is an attempt at a repair.
    pub fn is_attempt(&self) -> bool
        ensures value { result ≡ law.is_attempt self.now }
    {
        matches!(*self, Happening::Attempt { .. })
    }

    /// Whether it is an attempt that is marked complete.
    pub fn is_complete(&self) -> bool
        ensures value { result ≡ law.is_complete self.now }
    {
        match *self {
            Happening::Attempt { complete } => complete,
            _ => false,
        }
    }

    /// Whether it is a delay of ground (a), (c), (d) or (e) (40 CFR 60.482-9a).
    pub fn delays_with_reading(&self) -> bool
        ensures value { result ≡ law.delays_with_reading self.now }
    {
        match *self {
            Happening::Delay { ground, .. } => ground == GROUND_SHUTDOWN
                || ground == GROUND_PURGING
                || ground == GROUND_DUAL_SEAL
                || ground == GROUND_STOCK,
            _ => false,
        }
    }

    /// Whether the component goes out of service.
    pub fn is_retire(&self) -> bool
        ensures value { result ≡ law.is_retire self.now }
    {
        matches!(*self, Happening::Retire)
    }
}

impl Event {
    /// Whether its day is in the range.
    pub fn is_from_to(&self, first: Day, last: Day) -> bool
        ensures value { result ≡ law.is_from_to first last self.now }
    {
        first <= self.key.day && self.key.day <= last
    }

    /// Whether it is in the month with this number, which may be outside the calendar.
    pub fn is_in_month(&self, month: u32) -> bool
        ensures value { result ≡ law.is_in_month month self.now }
    {
        self.key.day.month().number() == month
    }

    /// The delay of repair, if the event is one.
    pub fn delay_entry(&self) -> Option<DelayEntry>
        ensures value { result ≡ delay_entered_at self.now }
    {
        match self.what {
            Happening::Delay {
                ground,
                signer,
                expected,
            } => Some(DelayEntry {
                key: self.key,
                ground,
                signer,
                expected,
            }),
            _ => None,
        }
    }
}
