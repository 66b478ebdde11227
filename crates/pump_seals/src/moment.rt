ghost use Rattle.std.specs.Prelude.{◌≡◌};
ghost use Rattle.pump_seals.specs.Moments as spec;

use ldar_days::Day;

/// A day and a minute of the day, by which the rows and events of a pump are compared.
#[derive(Clone, Copy, Debug, PartialEq, Eq)]
pub struct Moment {
    pub day: Day,
    pub minute: u16,
}

impl Moment {
    /// Whether it is before another one: on an earlier day, or at an earlier minute of the same day.
    #[tactic(auto, unfolding(crate::specs::Moments::is_before))]
    pub fn is_before(&self, other: &Moment) -> bool
        ensures value { result ≡ spec.is_before self.now other.now }
    {
        self.day < other.day || (self.day == other.day && self.minute < other.minute)
    }
}
