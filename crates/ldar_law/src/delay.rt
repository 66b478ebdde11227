ghost use Rattle.std.specs.Prelude.{◌≡◌};
ghost use Rattle.ldar_law.specs.Delays as law;
ghost use Rattle.ldar_law.specs.Reports as reports;

use crate::numbers::{ATTEMPT_DAYS, REPAIR_DAYS};
use fact_kinds::Key;
use ldar_days::Day;

/// A delay of repair as it was entered (40 CFR 60.482-9a).
#[derive(Clone, Copy, Debug, PartialEq, Eq)]
pub struct DelayEntry {
    pub key: Key,
    /// One of `GROUND_WITHDRAWN` to `GROUND_STOCK`: 1 to 5 for (a) to (e), or 0 if the delay is withdrawn.
    pub ground: u8,
    /// The person who decided on the delay; 0 for none.
    pub signer: u16,
    /// The day on which the repair is expected.
    pub expected: Option<Day>,
}

/// A process unit shutdown, from its first day to its last.
#[derive(Clone, Copy, Debug, PartialEq, Eq)]
pub struct Stop {
    pub first: Day,
    pub last: Day,
}

/// The due day of a leak's repair (40 CFR 60.482-9a).
#[derive(Clone, Copy, Debug, PartialEq, Eq)]
pub enum Until {
    Date(Day),
    /// Until a process unit shutdown that has not been entered yet.
    Shutdown,
    /// As long as the component is isolated and not in VOC service.
    WhileIsolated,
    /// No day is set.
    NoDate,
}

/// The line of a report on a repair that was delayed.
#[derive(Clone, Copy, Debug, PartialEq, Eq)]
pub struct DelayLine {
    pub component: u16,
    pub detected: Day,
    /// The last delay that was not ignored.
    pub delay: DelayEntry,
    pub until: Until,
    pub closed: Option<Day>,
}

/// The day by which a first attempt at the repair of a leak is due; `detected` is the day of its detection (40 CFR
/// 60.482-2a(c)(2), 60.482-7a(d)(2)).
pub fn attempt_by(detected: Day) -> Day
    ensures value { result ≡ law.attempt_by detected }
{
    detected.plus_days(ATTEMPT_DAYS)
}

/// The day by which the repair of a leak is due if it is not delayed (40 CFR 60.482-2a(c)(1), 60.482-7a(d)(1)).
pub fn repair_by(detected: Day) -> Day
    ensures value { result ≡ law.repair_by detected }
{
    detected.plus_days(REPAIR_DAYS)
}

impl Until {
    /// Whether it is past on the day. If it is not a date, it is never past.
    pub fn is_past_on(&self, day: Day) -> bool
        ensures value { result ≡ law.is_past day self.now }
    {
        match *self {
            Until::Date(due) => due < day,
            _ => false,
        }
    }

    /// Whether it is a date in the month with this number, which may be outside the calendar.
    pub fn is_date_in(&self, month: u32) -> bool
        ensures value { result ≡ reports.is_date_in month self.now }
    {
        match *self {
            Until::Date(due) => due.month().number() == month,
            _ => false,
        }
    }
}

impl Stop {
    /// Whether some day of the shutdown is in the range.
    pub fn is_in(&self, first: Day, last: Day) -> bool
        ensures value { result ≡ reports.is_stop_in first last self.now }
    {
        self.first <= last && first <= self.last
    }
}
