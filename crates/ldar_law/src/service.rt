//! Whether a component is in service on a day, and the first monitoring that it owes.

ghost use Rattle.std.specs.Prelude.{◌≡◌, ◌||◌};
ghost use Rattle.list_words.specs.Order.{Ascends};
ghost use Rattle.fact_kinds.specs.Facts.{is_earlier};
ghost use Rattle.ldar_law.specs.Duties as duties;
ghost use Rattle.ldar_law.specs.Force as force;
ghost use Rattle.ldar_law.specs.Standing as law;

use crate::equipment::Equipment;
use crate::numbers::FIRST_DAYS;
use crate::regime::Regime;
use crate::sorts::is_none_designated;
use fact_kinds::{Class, Key};
use ldar_days::Day;

/// Whether the day, if there is one, has come.
fn has_come(first: &Option<Day>, day: Day) -> bool
    ensures value { result ≡ force.has_come first.now day }
{
    match *first {
        Some(first) => first <= day,
        None => false,
    }
}

impl Equipment {
    /// Whether it is in service on a day (our own rule): it has begun and is not retired.
    pub fn is_in_service(&self, day: Day) -> bool
        ensures value { result ≡ force.is_in_service self.now day }
    {
        self.begin <= day && !has_come(&self.retired, day)
    }

    /// The due day of its first monitoring (40 CFR 60.482-2a(a)(1), 60.482-7a(a)(2)).
    pub fn first_due(&self) -> Day
        ensures value { result ≡ duties.first_due self.now }
    {
        self.begin.plus_days(FIRST_DAYS)
    }

    /// Whether it is a valve or a pump that needs a first monitoring, by the class in force on a day (40 CFR 60.482-2a,
    /// 60.482-7a).
    fn is_valve_or_pump_on(&self, classes: &[(Key, Class)], day: Day) -> bool
        requires ordered { Ascends (λ a b. is_earlier a.0 b.0) classes.now }
        ensures value { result ≡ (law.is_under_valve_rules self.now classes.now day || law.is_under_pump_rules self.now classes.now day) }
    {
        let regime = Regime::of(self.kind, self.class_on(classes, day).service);
        regime.are_valve_rules() || regime.are_pump_rules()
    }

    /// Whether it has no designation on a day.
    fn is_plain(&self, classes: &[(Key, Class)], day: Day) -> bool
        requires ordered { Ascends (λ a b. is_earlier a.0 b.0) classes.now }
        ensures value { result ≡ law.is_plain self.now classes.now day }
    {
        is_none_designated(self.class_on(classes, day).designation)
    }

    /// Whether a first monitoring is owed on a day (40 CFR 60.482-2a(a)(1), 60.482-7a(a)(2)), from the component's
    /// classes in key order. `startup` is that of its process unit.
    pub fn is_first_owed(&self, classes: &[(Key, Class)], startup: Day, day: Day) -> bool
        requires ordered { Ascends (λ a b. is_earlier a.0 b.0) classes.now }
        ensures value { result ≡ duties.is_first_owed self.now classes.now startup day }
    {
        self.is_in_service(day)
            && self.is_valve_or_pump_on(classes, day)
            && self.is_plain(classes, self.begin)
            && startup < self.begin
            && !self.replaces
    }
}
