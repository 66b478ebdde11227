ghost use Rattle.std.specs.Prelude.{◌≡◌, ◌&&◌, ◌||◌, not, List, ◌++◌, ◌∷◌, []};
ghost use Rattle.ldar_law.specs.declared.event.Event.{Event as SomeEvent};
ghost use Rattle.ldar_law.specs.Happenings.{has_drips, is_below, is_dry};
ghost use Rattle.monitor_calendar.specs.Dripping.{TellsOfDrips};

use ldar_law::{Event, Happening};

/// A summary of the events before one, about drips of a pump (40 CFR 60.482-2a(b)(2)).
#[derive(Clone, Copy)]
pub struct PastDrips {
    /// There were drips, and no dry visual inspection since.
    pub wait: bool,
    /// There were such drips, and a counting reading below the leak definition since; drips now would repeat them.
    pub repeat: bool,
}

impl PastDrips {
    /// The summary of no events.
    pub fn none() -> PastDrips
        ensures value { TellsOfDrips result [] }
    {
        PastDrips {
            wait: false,
            repeat: false,
        }
    }

    /// The summary with one more event.
    pub fn with(self, e: &Event) -> PastDrips
        ensures value { (front : List SomeEvent) → TellsOfDrips self front → TellsOfDrips result (front ++ e.now ∷ []) }
    {
        PastDrips {
            wait: self.wait_with(&e.what),
            repeat: self.repeat_with(&e.what),
        }
    }

    /// Whether, with one more event, there were drips and no dry visual inspection since.
    fn wait_with(self, what: &Happening) -> bool
        ensures value { result ≡ (not (is_dry what.now) && (self.wait || has_drips what.now)) }
    {
        !what.is_dry() && (self.wait || what.has_drips())
    }

    /// Whether, with one more event, there were such drips and a counting reading below the leak definition since.
    fn repeat_with(self, what: &Happening) -> bool
        ensures value { result ≡ (not (is_dry what.now) && (self.repeat || (self.wait && is_below what.now))) }
    {
        !what.is_dry() && (self.repeat || (self.wait && what.is_below()))
    }
}
