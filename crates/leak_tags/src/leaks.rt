//! The unsettled leaks of one kind, as far as it matters which delays follow them.

ghost use Rattle.std.specs.Prelude.{◌≡◌, true};
ghost use Rattle.leak_tags.specs.OpenLeaks as spec;

use ldar_days::Day;
use ldar_law::REPAIR_DAYS;

/// The days of the first and of the last of some leaks.
#[derive(Clone, Copy)]
pub struct Days {
    pub first: Day,
    pub last: Day,
}

/// The unsettled leaks of one kind.
#[derive(Clone, Copy)]
pub struct Leaks {
    /// Whether some of them is delayed: a delay of ground (a), (c), (d) or (e) followed it within fifteen days.
    pub delayed: bool,
    /// The days of those that are not delayed. Of the leaks that no later delay reaches, only the first is kept.
    pub waiting: Option<Days>,
}

impl Leaks {
    /// No leaks.
    pub fn none() -> Leaks
        ensures value { result ≡ spec.no_leaks }
    {
        Leaks {
            delayed: false,
            waiting: None,
        }
    }

    /// Whether there is a leak.
    pub fn has_any(self) -> bool
        ensures value { result ≡ spec.has_leaks self }
    {
        self.delayed || self.waiting.is_some()
    }

    /// Settles all of them, or only the delayed ones.
    pub fn settle(&mut self, all: bool, delayed: bool)
        ensures value { self.new ≡ spec.settled self.old all delayed }
    {
        if all {
            *self = Leaks::none();
            return;
        }
        self.delayed = self.delayed && !delayed;
    }

    /// Whether a delay on the day is at most fifteen days after some waiting leak.
    fn reaches(self, day: Day) -> bool
        ensures value { result ≡ spec.reaches self.waiting day }
    {
        match self.waiting {
            Some(days) => day.number() <= days.last.number() + REPAIR_DAYS,
            None => false,
        }
    }

    /// The leaks that keep waiting after a delay on the day; no later delay reaches them.
    fn missed_by(self, day: Day) -> Option<Days>
        ensures value { result ≡ spec.missed_by self.waiting day }
    {
        match self.waiting {
            Some(days) => {
                if day.number() <= days.first.number() + REPAIR_DAYS {
                    return None;
                }
                let first = days.first;
                Some(Days { first, last: first })
            }
            None => None,
        }
    }

    /// Adds a delay on the day.
    pub fn delay(&mut self, day: Day)
        ensures value { self.new ≡ spec.reached self.old true day }
    {
        if self.waiting.is_none() {
            return;
        }
        self.delayed = self.delayed || self.reaches(day);
        self.waiting = self.missed_by(day);
    }

    /// The first day of the waiting leaks, with one of this day.
    fn first_with(self, day: Day) -> Day
        ensures value { result ≡ spec.first_with self.waiting day }
    {
        match self.waiting {
            Some(days) => days.first,
            None => day,
        }
    }

    /// Adds a leak of the day.
    pub fn open(&mut self, day: Day)
        ensures value { self.new ≡ spec.opened self.old true day }
    {
        let first = self.first_with(day);
        self.waiting = Some(Days { first, last: day });
    }
}
