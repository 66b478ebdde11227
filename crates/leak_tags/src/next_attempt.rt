ghost use Rattle.std.specs.Prelude.{◌≡◌, ◌≤◌, ◌<◌, length};
ghost use Rattle.leak_tags.specs.Telling.{IsNext};

use ldar_days::Day;
use ldar_law::Event;

/// The next attempt at a repair, from one search ahead.
#[derive(Clone, Copy)]
pub struct NextAttempt {
    /// The place after the attempt, or a place past all events for no attempt.
    pub end: usize,
    /// The day of the attempt.
    pub day: Option<Day>,
}

impl NextAttempt {
    /// No search was made yet.
    pub fn none() -> NextAttempt
        ensures value { result.end ≡ 0 }
    {
        NextAttempt { end: 0, day: None }
    }

    /// The first attempt from this place on.
    fn from(events: &[Event], from: usize) -> NextAttempt
        requires in_range { from ≤ length events.now }
        ensures value { IsNext result events.now from }
        ensures end { from < result.end }
    {
        for place in from..events.len() {
            let event = &events[place];
            if event.what.is_attempt() {
                return NextAttempt {
                    end: place + 1,
                    day: Some(event.key.day),
                };
            }
        }
        NextAttempt {
            end: events.len() + 1,
            day: None,
        }
    }

    /// The first attempt from this place on. It searches only if the attempt is not known.
    pub fn moved_to(self, events: &[Event], from: usize) -> NextAttempt
        requires in_range { from ≤ length events.now }
        requires known { IsNext self events.now from }
        ensures value { IsNext result events.now from }
        ensures end { from < result.end }
    {
        if from < self.end {
            return self;
        }
        NextAttempt::from(events, from)
    }
}
