ghost use Rattle.std.specs.Prelude.{◌≡◌};
ghost use Rattle.monitor_calendar.specs.Causes as causes;

use crate::asked::Asked;
use crate::period::routine_in;
use ldar_law::{CAUSE_FIRST, Duty};

impl Asked<'_> {
    /// The first monitoring (40 CFR 60.482-2a(a)(1), 60.482-7a(a)(2)).
    #[tactic(auto, unfolding(ldar_law::specs::Duties::first_monitoring))]
    pub fn first_monitoring(&self) -> Option<Duty>
        ensures value { result ≡ causes.first_monitoring self.now }
    {
        let begin = self.item.begin;
        let due = self.item.first_due();
        let judged = self.judging_day(due);
        if !self.item.is_first_owed(self.classes, self.startup, judged) {
            return None;
        }
        let met = routine_in(self.events, begin, due);
        self.duty(CAUSE_FIRST, begin, due, &met)
    }
}
