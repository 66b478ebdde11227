ghost use Rattle.std.specs.Prelude.{◌≡◌};
ghost use Rattle.leak_tags.specs.CleanPairs as spec;
ghost use Rattle.leak_tags.specs.Telling.{Rises};

use ldar_law::Event;

/// A summary of the events from a place on, about clean months (40 CFR 60.482-7a(c)(1)(i)).
#[derive(Clone, Copy)]
struct CleanMonths {
    /// The month of the first of these events.
    month: u32,
    /// Whether it has a counting routine reading below the leak definition.
    read: bool,
    /// Whether it has a leak.
    leak: bool,
    /// Whether the next month is clean.
    followed: bool,
}

impl CleanMonths {
    /// The summary of a single event.
    fn of(event: &Event) -> CleanMonths
        ensures value { result ≡ spec.clean_of event.now }
    {
        CleanMonths {
            month: event.key.day.month().number(),
            read: event.what.is_routine_below(),
            leak: event.what.is_leak(),
            followed: false,
        }
    }

    /// Whether the month and the next one are clean.
    fn is_pair(&self) -> bool
        ensures value { result ≡ spec.is_pair self.now }
    {
        self.read && !self.leak && self.followed
    }

    /// The summary with the event before them, of a month that is not later.
    fn with(&self, event: &Event) -> CleanMonths
        ensures value { result ≡ spec.clean_with self.now event.now }
    {
        let month = event.key.day.month().number();
        if self.month == month {
            return CleanMonths {
                month: self.month,
                read: event.what.is_routine_below() || self.read,
                leak: event.what.is_leak() || self.leak,
                followed: self.followed,
            };
        }
        CleanMonths {
            month,
            read: event.what.is_routine_below(),
            leak: event.what.is_leak(),
            followed: self.read && !self.leak && month + 1 == self.month,
        }
    }
}

/// The first of the last two months in a row that are both clean, or 0 if there are none. It goes over the events from the
/// last one backward, until it finds those two months.
pub fn last_clean_pair(events: &[Event]) -> u32
    requires rising { Rises 0 events.now }
    ensures value { spec.IsLastPair result events.now }
{
    if events.is_empty() {
        return 0;
    }
    let mut place = events.len() - 1;
    let mut months = CleanMonths::of(&events[place]);
    while place > 0 {
        place -= 1;
        let more = months.with(&events[place]);
        if more.month != months.month && months.is_pair() {
            return months.month;
        }
        months = more;
    }
    if months.is_pair() { months.month } else { 0 }
}
