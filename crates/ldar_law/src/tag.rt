ghost use Rattle.std.specs.Prelude.{◌≡◌};
ghost use Rattle.ldar_law.specs.Percent as percent;
ghost use Rattle.ldar_law.specs.Tags as law;

use crate::delay::{DelayEntry, DelayLine, Until};
use crate::numbers::LISTED_DAYS;
use ldar_days::Day;

/// The identification of a leaking component (40 CFR 60.486a(b)), with its due days.
#[derive(Clone, Copy, Debug, PartialEq, Eq)]
pub struct Tag {
    pub component: u16,
    pub detected: Day,
    /// Five days after the detection (40 CFR 60.482-2a(c), 60.482-7a(d)).
    pub attempt_due: Day,
    /// The day of the first attempt at a repair.
    pub attempted: Option<Day>,
    /// Fifteen days after the detection, unless the repair is delayed.
    pub repair_due: Until,
    pub closed: Option<Day>,
    /// The last delay that was not ignored.
    pub delay: Option<DelayEntry>,
    /// Whether the identification may be removed.
    pub removable: bool,
}

impl Tag {
    /// Whether it is not closed.
    pub fn is_open(&self) -> bool
        ensures value { result ≡ law.is_open self.now }
    {
        self.closed.is_none()
    }

    /// Whether it is open on a day: detected by then, and not closed by then.
    pub fn is_open_on(&self, day: Day) -> bool
        ensures value { result ≡ percent.is_open_on day self.now }
    {
        self.detected <= day
            && match self.closed {
                Some(closed) => day < closed,
                None => true,
            }
    }

    /// Whether it is on the list of a day: open, or closed at most 366 days before (our own rule).
    pub fn is_shown(&self, day: Day) -> bool
        ensures value { result ≡ law.is_shown day self.now }
    {
        match self.closed {
            Some(closed) => day.number() <= closed.number() + LISTED_DAYS,
            None => true,
        }
    }

    /// Whether it is late on a day: closed after its due day, or open when its due day is past.
    pub fn is_late(&self, day: Day) -> bool
        ensures value { result ≡ law.is_late day self.now }
    {
        match self.closed {
            Some(closed) => self.repair_due.is_past_on(closed),
            None => self.repair_due.is_past_on(day),
        }
    }

    /// The last delay that is not ignored, unless it is withdrawn.
    pub fn standing_delay(&self) -> Option<DelayEntry>
        ensures value { result ≡ law.standing_delay self.now }
    {
        match self.delay {
            Some(delay) => { if 0 < delay.ground { Some(delay) } else { None } }
            None => None,
        }
    }

    /// Whether the repair is delayed.
    pub fn is_delayed(&self) -> bool
        ensures value { result ≡ law.is_delayed self.now }
    {
        self.standing_delay().is_some()
    }

    /// The line of the tag with a delay.
    pub fn line_on(&self, delay: DelayEntry) -> DelayLine
        ensures value { result ≡ law.line_on self.now delay }
    {
        DelayLine {
            component: self.component,
            detected: self.detected,
            delay,
            until: self.repair_due,
            closed: self.closed,
        }
    }
}
